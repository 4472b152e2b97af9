// The thin line reader: a text and the position of a line in it. Its functions are few; what they do with the text is done
// by functions over plain slices.
ghost use Rattle.std.specs.Prelude.{◌≡◌};
ghost use Rattle.text.specs.Line.{row_at};

use super::Row;

#[derive(Clone, Copy)]
pub struct LineReader<'a> {
    pub text: &'a [u8],
    pub at: usize,
}

// A reader of a text, at a position.
pub fn reader_at<'a>(text: &'a [u8], at: usize) -> LineReader<'a>
    ensures { (result.text ≡ text.entry) × (result.at ≡ at) }
{
    LineReader { text, at }
}

// The line at which a reader stands.
pub fn row_of<'a>(l: LineReader<'a>) -> Row
    ensures { result ≡ row_at l.entry.text.now l.entry.at }
{
    super::row_at(l.text, l.at)
}

// Reading a text: numbers, and whole lines as rows.
#![tactic(auto)]

ghost use Rattle.std.specs.Prelude.{◌≡◌, true, ◌+◌, ◌≤◌, drop, set};
ghost use Rattle.text.specs.Number.{DigitAt, ByteAt, stop_in, number_at};
ghost use Rattle.text.specs.Line.{unread_row, row_at};

pub mod reader; // reader.rt: a text and a position in it, held together

// A number that was read, and where its field ends.
#[derive(Clone, Copy)]
pub struct Numeral {
    pub value: u32,
    pub next: usize,
}

// Where the reader of a number stopped, in a field that is none.
#[derive(Clone, Copy)]
pub struct Stopped {
    pub at: usize,
}

// A line that was read: its letter, how many numbers it has up to the first field that is none, the first twelve of them, that
// field (1 where the first field is no letter, 0 where there is none), whether a newline ends the line, and where the next one
// starts. A line that is empty has the letter 0 and no bad field. What a row is stands in a definition (`row_at`), with these numbers; the
// twelve are an array with a count beside it, since a library crate has no heap.
#[derive(Clone, Copy)]
pub struct Row {
    pub letter: u8,
    pub count: usize,
    pub nums: [u32; 12],
    pub bad: usize,
    pub ended: bool,
    pub next: usize,
}

// The digit that stands at i, if one does.
#[tactic(auto, using(crate::proofs::Bytes::digit_laws))]
fn digit(s: &[u8], i: usize) -> Option<u32>
    ensures { DigitAt s.now i result }
{
    let b = byte_at(s, i);
    if b.is_ascii_digit() {
        return Some((b - b'0') as u32);
    }
    None
}

// Whether a field may end at i: at a tab, a newline or the end.
#[tactic(auto, using(crate::proofs::Bytes::stop_laws))]
fn stops(s: &[u8], i: usize) -> bool
    ensures { result ≡ stop_in (drop i s.now) }
{
    matches!(s.get(i), None | Some(b'\t' | b'\n'))
}

// The byte at i, 0 past the end, as its definition says: a line ends there as at a byte that is neither tab nor newline.
pub fn byte_at(s: &[u8], i: usize) -> u8
    ensures { ByteAt s.now i result }
{
    s.get(i).copied().unwrap_or(0)
}

// The number that stands at a position, up to the end of its field.
#[tactic(auto, using(crate::proofs::Numbers::number_laws))]
pub fn number(s: &[u8], at: usize) -> Result<Numeral, Stopped>
    ensures { result ≡ number_at s.now at }
{
    let Some(first) = digit(s, at) else {
        return Err(Stopped { at });
    };
    let mut value = first;
    let mut i = at + 1;
    // no `for`: where the digits end is part of the answer
    while let Some(d) = digit(s, i) {
        if value == 0 || 99999999 < value {
            return Err(Stopped { at: i });
        }
        value = value * 10 + d;
        i += 1;
    }
    if stops(s, i) {
        return Ok(Numeral { value, next: i });
    }
    Err(Stopped { at: i })
}

// Puts v at k, if there is a place k.
#[tactic(auto, using(crate::proofs::Bytes::set_past))]
fn put(nums: &mut [u32], k: usize, v: u32)
    ensures { nums.new ≡ set nums.old k v }
{
    if k < nums.len() {
        nums[k] = v;
    }
}

// A line that has no letter.
#[tactic(auto, unfolding(crate::specs::Line::unread_row, crate::specs::Line::padded))]
fn unread(bad: usize) -> Row
    ensures { result ≡ unread_row bad }
{
    Row {
        letter: 0,
        count: 0,
        nums: [0u32; 12],
        bad,
        ended: true,
        next: 0,
    }
}

// The line that starts at a position with a letter that is a field of its own.
#[tactic(auto, using(crate::proofs::Reading::row_laws))]
fn lettered_row(s: &[u8], at: usize, letter: u8) -> Row
    requires byte_at { ByteAt s.now at letter }
    requires le_letter { (65 ≤ letter) × (letter ≤ 90) }
    requires s_value { stop_in (drop (at + 1) s.now) ≡ true }
    ensures { result ≡ row_at s.now at }
{
    let mut i = at + 1;
    let mut nums = [0u32; 12];
    let mut count: usize = 0;
    // the reader of a number says where the next field stands: nothing is counted
    while byte_at(s, i) == b'\t' {
        let Ok(Numeral { value, next }) = number(s, i + 1) else {
            return Row {
                letter,
                count,
                nums,
                bad: count + 2,
                ended: true,
                next: 0,
            };
        };
        put(&mut nums, count, value);
        count += 1;
        i = next;
    }
    let ended = byte_at(s, i) == b'\n';
    Row {
        letter,
        count,
        nums,
        bad: 0,
        ended,
        next: i + ended as usize,
    }
}

// The line that starts at a position.
#[tactic(auto, using(crate::proofs::Reading::row_laws))]
fn row_at(s: &[u8], at: usize) -> Row
    ensures { result ≡ row_at s.now at }
{
    let letter = byte_at(s, at);
    if letter.is_ascii_uppercase() && stops(s, at + 1) {
        return lettered_row(s, at, letter);
    }
    if at < s.len() && letter != b'\n' {
        return unread(1);
    }
    unread(0)
}

// The line that starts at a position, by the thin reader: every pass over the lines of a text asks for them here.
pub fn read_row(s: &[u8], at: usize) -> Row
    ensures { result ≡ row_at s.now at }
{
    reader::row_of(reader::reader_at(s, at))
}

// A text that can be laid out: what every pass over its lines rests on stands in its type.
ghost use Rattle.std.specs.Prelude.{◌≤◌, length};
ghost use Rattle.rules.specs.Text.{lines};
ghost use Rattle.rules.proofs.Clean.{Each};
ghost use Rattle.tables.specs.Fill.{Plain};
ghost use Rattle.tables.specs.Fact.{plain_lines_prop};

// A text that is not too long and keeps its form, so that the reader reads each of its lines to the end.
#[derive(Clone, Copy)]
pub struct FormedText<'a> {
    pub bytes: &'a [u8],
    ghost short: { length bytes.now ≤ 65535 },
    ghost plain: { Each Plain (lines bytes.now) } by { plain_lines_prop (lines bytes.now) },
}

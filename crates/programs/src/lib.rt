// What the two programs share: the lengths of what they lend to a call, reading a buffer full, and the text of what a call returned.
#![tactic(auto)]

ghost use Rattle.std.specs.Prelude.{◌≤◌, length, take, Some};
ghost use Rattle.std.specs.Io.KnownBytes.{Consumes};
ghost use Rattle.programs.specs.Text.{fields_text};

use rules::Outcome;
use std::fmt;
use std::io::Read;

// How many numbers each work area needs: the schema; nodes and edges; properties; property values; the index; the query; and the rows
// of multiplicities.
pub const SCHEMA_AREA: usize = 14728;

pub const NODES_AREA: usize = 15880;

pub const PROPERTIES_AREA: usize = 14344;

pub const VALUES_AREA: usize = 8200;

pub const INDEX_AREA: usize = 3072;

pub const QUERY_AREA: usize = 3592;

pub const ROWS_AREA: usize = 8192;

// The largest room for a response, and the most tokens of a sequence that is judged.
pub const MOST_TOKENS: usize = 16384;

// A text has at most 65,535 bytes. A buffer holds one more, so that a longer text is seen to be too long.
pub const TEXT_BUFFER: usize = 65536;

// Reads until `bytes` is full, the input ends or a read fails, and answers how many bytes stand at the start of `bytes`: what the
// input gave, in its order.
pub fn read_full<R: Read>(input: &mut R, bytes: &mut [u8]) -> usize
    ensures in_bounds { result ≤ length bytes.new }
    ensures given { Consumes (R.remaining input.old) (R.remaining input.new) (take result bytes.new) }
{
    let mut done = 0;

    // A read may give any number of bytes, so no iterator counts the turns; std's way to read a buffer full does not say how far it came before it
    // failed, and goes on after a read that was interrupted.
    while done < bytes.len() {
        match input.read(&mut bytes[done..]) {
            Ok(0) | Err(_) => break,
            Ok(count) => done += count,
        }
    }
    done
}

// What a call returned, as a line has it: number, place, size and visits, with a tab between each two.
#[derive(Clone, Copy)]
pub struct Fields(pub Outcome);

impl fmt::Display for Fields {
    ghost output = { λ fields. Some (fields_text fields.0) };

    fn fmt<W: fmt::Write>(&self, f: &mut fmt::Formatter<W>) -> fmt::Result {
        let Outcome {
            number,
            place,
            size,
            visits,
        } = self.0;
        write!(f, "{number}\t{place}\t{size}\t{visits}")
    }
}

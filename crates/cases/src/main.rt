// Runs the public calls on the cases that standard input has, and writes a line for each. No case stands in the code:
// tests/make_cases.py writes the cases (`stdin`), and what 01's rules ask of them (`stdout`) by way of tests/reference.py.
//
// Every number of the input is ten digits and one further byte. The first says how many cases follow, and the first of a case is the
// call: 0 sizes, 1 answers, 2 judges. Where it sizes or answers there follow the room, the number that fills areas and buffer before
// the call, the lengths of the seven areas and of the buffer; then, for each of the three texts, its length and its bytes. Where it
// judges there follows, for the full and for the shortened sequence, how many tokens it has, and the tokens.
//
// A line has the case's number, from 1 on. Where the call sizes or answers: refusal number, place, size and visits; how many numbers
// of each of the seven areas are not zero after the call; and the digest of the buffer after the call. Where it judges: 1 for yes
// or 0; refusal number, place, size and visits.
#![tactic(auto)]

ghost use Rattle.std.specs.Prelude.{◌≡◌, ◌≤◌, length};
ghost use Rattle.cases.specs.Call.{call_of};

use programs::{
    Fields, INDEX_AREA, MOST_TOKENS, NODES_AREA, PROPERTIES_AREA, QUERY_AREA, ROWS_AREA,
    SCHEMA_AREA, TEXT_BUFFER, VALUES_AREA,
};
use rules::Outcome;
use std::io::{BufReader, Read};
use std::{fmt, io};

// What a call does with three texts.
#[derive(Clone, Copy)]
enum Wanted {
    Size,
    Answer,
}

// The call that a case makes.
#[derive(Clone, Copy)]
enum Call {
    OnTexts(Wanted),
    Judge,
}

impl From<u32> for Call {
    ghost from_gives = { λ number call. call ≡ call_of number };

    fn from(number: u32) -> Call {
        match number {
            0 => Call::OnTexts(Wanted::Size),
            2 => Call::Judge,
            _ => Call::OnTexts(Wanted::Answer),
        }
    }
}

// What a case lends to a call on texts: the seven areas and the buffer.
#[derive(Drop)]
struct Areas<'a> {
    schema: &'a mut [u32],
    nodes: &'a mut [u32],
    properties: &'a mut [u32],
    values: &'a mut [u32],
    index: &'a mut [u32],
    query: &'a mut [u32],
    rows: &'a mut [u64],
    buffer: &'a mut [u32],
}

impl Areas<'_> {
    // Sizes the query.
    fn size(&mut self, schema: &[u8], graph: &[u8], query: &[u8]) -> Outcome {
        sodgravel::size(
            schema,
            graph,
            query,
            self.schema,
            self.nodes,
            self.properties,
            self.values,
            self.index,
            self.query,
            self.rows,
        )
    }

    // Answers the query in a room.
    fn answer(&mut self, schema: &[u8], graph: &[u8], query: &[u8], room: u32) -> Outcome {
        sodgravel::answer(
            schema,
            graph,
            query,
            self.schema,
            self.nodes,
            self.properties,
            self.values,
            self.index,
            self.query,
            self.rows,
            room,
            self.buffer,
        )
    }
}

// What a call left in what it was lent: how many numbers of each area are not zero, and the digest of the buffer.
impl fmt::Display for Areas<'_> {
    fn fmt<W: fmt::Write>(&self, f: &mut fmt::Formatter<W>) -> fmt::Result {
        let schema = count_nonzero(self.schema);
        let nodes = count_nonzero(self.nodes);
        let properties = count_nonzero(self.properties);
        let values = count_nonzero(self.values);
        let index = count_nonzero(self.index);
        let query = count_nonzero(self.query);
        let rows = count_nonzero(self.rows);
        let digest = digest(self.buffer);
        write!(
            f,
            "{schema}\t{nodes}\t{properties}\t{values}\t{index}\t{query}\t{rows}\t{digest}"
        )
    }
}

// How many numbers of an area are not zero.
fn count_nonzero<T: Copy + Into<u64>>(area: &[T]) -> usize
    ensures { result ≤ length area.now }
{
    area.iter().filter(|number| (**number).into() != 0).count()
}

// A digest with one further number.
fn mixed(digest: u64, number: u32) -> u64 {
    digest % 4_294_967_291 * 1_000_003 + u64::from(number) + 1
}

// A number that depends on every number of a buffer and on where it stands.
fn digest(buffer: &[u32]) -> u64 {
    buffer
        .iter()
        .fold(0, |digest, number| mixed(digest, *number))
}

// A number with one further digit. Of a number with more than nine the last nine are kept.
fn with_digit(number: u64, digit: u8) -> u64 {
    number % 1_000_000_000 * 10 + u64::from(digit % 16)
}

// The number that ten digits show, if it is below 2 to the 32nd; what remains of a larger one.
fn shown(digits: &[u8]) -> u32 {
    let number = digits
        .iter()
        .fold(0, |number, digit| with_digit(number, *digit));
    (number % 4_294_967_296) as u32
}

// Reads a number: ten digits, and the byte behind them. What the input no longer has of it counts as zeros.
fn read_number(input: &mut impl Read) -> u32 {
    let mut digits = [0u8; 11];
    programs::read_full(input, &mut digits);
    shown(&digits[..10])
}

// The number, or `most` where that is less.
fn capped(number: u32, most: usize) -> usize
    ensures upper_bound { result ≤ most }
    ensures upper_bound_2 { result ≤ number }
{
    most.min(number as usize)
}

// Reads how much of a buffer the case has, and gives that much of it.
fn read_part<'a, T>(input: &mut impl Read, buffer: &'a mut [T]) -> &'a mut [T]
    ensures { length result.now ≤ length buffer.old }
{
    let length = capped(read_number(input), buffer.len());
    &mut buffer[..length]
}

// Reads a text, behind its length. What the input no longer has of it stays as it is.
fn read_text<'a>(input: &mut impl Read, buffer: &'a mut [u8]) -> &'a [u8]
    ensures { length result.now ≤ length buffer.old }
{
    let text = read_part(input, buffer);
    programs::read_full(input, text);
    text
}

// Reads how many tokens a sequence has, and the tokens, of which no more are kept than there is room for.
fn read_tokens<'a>(input: &mut impl Read, buffer: &'a mut [u32]) -> &'a [u32]
    ensures { length result.now ≤ length buffer.old }
{
    let count = read_number(input);
    let kept = capped(count, buffer.len());
    for token in &mut buffer[..kept] {
        *token = read_number(input);
    }
    for _ in kept..count as usize {
        read_number(input);
    }
    &buffer[..kept]
}

// Reads the three texts, and makes the call on them.
fn call_on_texts(
    input: &mut impl Read,
    wanted: Wanted,
    room: u32,
    areas: &mut Areas<'_>,
) -> Outcome {
    let mut schema_buffer = [0u8; TEXT_BUFFER];
    let mut graph_buffer = [0u8; TEXT_BUFFER];
    let mut query_buffer = [0u8; TEXT_BUFFER];
    let schema = read_text(input, &mut schema_buffer);
    let graph = read_text(input, &mut graph_buffer);
    let query = read_text(input, &mut query_buffer);
    match wanted {
        Wanted::Size => areas.size(schema, graph, query),
        Wanted::Answer => areas.answer(schema, graph, query, room),
    }
}

// Reads the numbers of a call on texts, runs it, and writes its line but for the case's number. An area is at most one number longer
// than needed, and the buffer than the largest room.
fn run_on_texts(rt: &impl Print, input: &mut impl Read, wanted: Wanted) -> io::Result<()> {
    let room = read_number(input);
    let filling = read_number(input);
    let mut schema = [filling; SCHEMA_AREA + 1];
    let mut nodes = [filling; NODES_AREA + 1];
    let mut properties = [filling; PROPERTIES_AREA + 1];
    let mut values = [filling; VALUES_AREA + 1];
    let mut index = [filling; INDEX_AREA + 1];
    let mut query = [filling; QUERY_AREA + 1];
    let mut rows = [u64::from(filling); ROWS_AREA + 1];
    let mut buffer = [filling; MOST_TOKENS + 1];
    let mut areas = Areas {
        schema: read_part(input, &mut schema),
        nodes: read_part(input, &mut nodes),
        properties: read_part(input, &mut properties),
        values: read_part(input, &mut values),
        index: read_part(input, &mut index),
        query: read_part(input, &mut query),
        rows: read_part(input, &mut rows),
        buffer: read_part(input, &mut buffer),
    };
    let outcome = Fields(call_on_texts(input, wanted, room, &mut areas));
    println!(rt; "\t{outcome}\t{areas}")
}

// Reads two sequences, judges them, and writes the line but for the case's number. Of a sequence that is longer than any response one
// token more than the most is kept.
fn run_judging(rt: &impl Print, input: &mut impl Read) -> io::Result<()> {
    let mut full_buffer = [0u32; MOST_TOKENS + 1];
    let mut shortened_buffer = [0u32; MOST_TOKENS + 1];
    let full = read_tokens(input, &mut full_buffer);
    let shortened = read_tokens(input, &mut shortened_buffer);
    let reply = shorten::judge(full, shortened);
    let yes = reply.yes;
    let outcome = Fields(reply.outcome);
    println!(rt; "\t{yes}\t{outcome}")
}

// Runs a case.
fn run_case(rt: &impl Print, input: &mut impl Read) -> io::Result<()> {
    match Call::from(read_number(input)) {
        Call::OnTexts(wanted) => run_on_texts(rt, input, wanted),
        Call::Judge => run_judging(rt, input),
    }
}

fn main(rt: HostRuntime) -> io::Result<()> {
    let mut input = BufReader::new(rt.alloc(), rt.reader())?;
    let count = read_number(&mut input);
    for case in 1..=count {
        print!(rt; "{case}")?;
        run_case(&rt, &mut input)?;
    }
    Ok(())
}

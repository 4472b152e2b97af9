// Answers the query of the folder that it is run in: reads schema.txt, graph.txt and query.txt, and writes the outcome and the
// response, one token to a line. 01 has the form of both ('The sample unit'), and `data` and `stdout` have its sample.
#![tactic(auto)]

ghost use Rattle.std.specs.Prelude.{◌≡◌, ◌≤◌, Some, length};
ghost use Rattle.answer.specs.Lines.{token_of, token_text, head_text};

use programs::{
    Fields, INDEX_AREA, MOST_TOKENS, NODES_AREA, PROPERTIES_AREA, QUERY_AREA, ROWS_AREA,
    SCHEMA_AREA, TEXT_BUFFER, VALUES_AREA,
};
use rules::{CLOSE_LIST, CLOSE_OBJECT, LABELS, OPEN_LIST, OPEN_OBJECT, Outcome};
use std::rt::Files;
use std::{fmt, fs, io};

// From here on tokens are the marks; below LABELS they are values, and between the two labels.
const MARKS: u32 = 2_000_000_000;

// A token of a response, by what it stands for.
#[derive(Clone, Copy)]
enum Token {
    Value(u32),
    Label(u32),
    OpenObject,
    CloseObject,
    OpenList,
    CloseList,
    Null,
}

impl From<u32> for Token {
    ghost from_gives = { λ number token. token ≡ token_of number };

    fn from(number: u32) -> Token {
        match number {
            0..LABELS => Token::Value(number),
            LABELS..MARKS => Token::Label(number - LABELS),
            OPEN_OBJECT => Token::OpenObject,
            CLOSE_OBJECT => Token::CloseObject,
            OPEN_LIST => Token::OpenList,
            CLOSE_LIST => Token::CloseList,
            _ => Token::Null,
        }
    }
}

// The line of a token.
impl fmt::Display for Token {
    ghost output = { λ token. Some (token_text token) };

    fn fmt<W: fmt::Write>(&self, f: &mut fmt::Formatter<W>) -> fmt::Result {
        match *self {
            Token::Value(value) => write!(f, "V\t{value}"),
            Token::Label(label) => write!(f, "L\t{label}"),
            Token::OpenObject => f.write_str("{"),
            Token::CloseObject => f.write_str("}"),
            Token::OpenList => f.write_str("["),
            Token::CloseList => f.write_str("]"),
            Token::Null => f.write_str("N"),
        }
    }
}

// The first line: of an answer its size and visits, of a refusal all that it says.
#[derive(Clone, Copy)]
struct Head(Outcome);

impl fmt::Display for Head {
    ghost output = { λ head. Some (head_text head.0) };

    fn fmt<W: fmt::Write>(&self, f: &mut fmt::Formatter<W>) -> fmt::Result {
        let Outcome {
            number,
            size,
            visits,
            ..
        } = self.0;
        if number == 0 {
            return write!(f, "ok\t{size}\t{visits}");
        }
        let refusal = Fields(self.0);
        write!(f, "no\t{refusal}")
    }
}

// Reads the start of a file, as much as `buffer` holds, and gives what it read. A file that cannot be opened counts as empty.
fn read_text<'a, R: Files>(rt: &R, path: &str, buffer: &'a mut [u8]) -> &'a [u8]
    ensures { length result.now ≤ length buffer.old }
{
    let length = match fs::open(rt, path) {
        Ok(mut file) => programs::read_full(&mut file, buffer),
        Err(_) => 0,
    };
    &buffer[..length]
}

// Writes the lines of a response.
fn print_response(rt: &impl Print, response: &[u32]) -> io::Result<()> {
    for number in response {
        let token = Token::from(*number);
        println!(rt; "{token}")?;
    }
    Ok(())
}

// Answers three texts.
fn answer_texts(rt: &impl Print, schema: &[u8], graph: &[u8], query: &[u8]) -> io::Result<()> {
    let mut a = [0u32; SCHEMA_AREA];
    let mut g = [0u32; NODES_AREA];
    let mut p = [0u32; PROPERTIES_AREA];
    let mut v = [0u32; VALUES_AREA];
    let mut ix = [0u32; INDEX_AREA];
    let mut q = [0u32; QUERY_AREA];
    let mut m = [0u64; ROWS_AREA];
    let mut buffer = [0u32; MOST_TOKENS];
    let outcome = sodgravel::answer(
        schema,
        graph,
        query,
        &mut a,
        &mut g,
        &mut p,
        &mut v,
        &mut ix,
        &mut q,
        &mut m,
        MOST_TOKENS as u32,
        &mut buffer,
    );
    let head = Head(outcome);
    println!(rt; "{head}")?;
    if outcome.number != 0 {
        return Ok(());
    }
    let response = &buffer[..outcome.size as usize];
    print_response(rt, response)
}

fn main(rt: HostRuntime) -> io::Result<()> {
    let mut schema = [0u8; TEXT_BUFFER];
    let mut graph = [0u8; TEXT_BUFFER];
    let mut query = [0u8; TEXT_BUFFER];
    answer_texts(
        &rt,
        read_text(&rt, "schema.txt", &mut schema),
        read_text(&rt, "graph.txt", &mut graph),
        read_text(&rt, "query.txt", &mut query),
    )
}

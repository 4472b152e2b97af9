// Judging shortened exports: whether one sequence of tokens is made from another by striking out.
#![tactic(auto)]

ghost use Rattle.std.specs.Prelude.{◌≡◌, ◌↔◌, true, ◌≤◌, drop};
ghost use Rattle.std.specs.Option.{option_copied};
ghost use Rattle.tokens.specs.Response.{most_tokens, IsResponse};
ghost use Rattle.shorten.specs.Strikes.{Shortened};
ghost use Rattle.shorten.specs.Judge.{reply_of, replied, Judged};
ghost use Rattle.shorten.specs.Pass.{side_of, past_of, settled, strike_of};

use rules::{CLOSE_LIST, CLOSE_OBJECT, OPEN_LIST, OPEN_OBJECT, Outcome, Reply};

// At most so many brackets are open at once in a response: 16 objects, each in a list, and one more list.
const MOST_BRACKETS: usize = 33;

// What a token is to the pass: a value or null, a label, the beginning of a bracket or its end.
#[derive(Clone, Copy, PartialEq, Eq)]
pub enum Side {
    Plain,
    Named,
    Opener,
    Closer,
}

// What the pass is in: a bracket that stands in both; the content of a label that the rest begins with; or what is struck out, of which
// so many brackets are open, none behind its label.
#[derive(Clone, Copy, PartialEq, Eq)]
pub enum Mode {
    InBoth,
    Labelled,
    Striking(usize),
}

// Where the pass over the full response stands. `rest` is what of the shortened one is still to be found, and `depth` how many brackets
// are open that stand in both.
#[derive(Clone, Copy, PartialEq, Eq)]
pub struct Stand<'a> {
    pub mode: Mode,
    pub rest: &'a [u32],
    pub depth: usize,
}

// What a token is to the pass.
#[tactic(auto, unfolding(crate::specs::Pass::side_of))]
fn side_of(token: u32) -> Side
    ensures { result ≡ side_of token }
{
    match token {
        _ if tokens::is_label(token) => Side::Named,
        OPEN_OBJECT | OPEN_LIST => Side::Opener,
        CLOSE_OBJECT | CLOSE_LIST => Side::Closer,
        _ => Side::Plain,
    }
}

// Whether a token stands at the head of a sequence, and what follows it there.
fn stands_at(sequence: &[u32], token: u32) -> Option<&[u32]>
    ensures { option_copied result ≡ past_of token sequence.now }
{
    match sequence {
        [first, rest @ ..] if *first == token => Some(rest),
        _ => None,
    }
}

// ---- what is struck out

// The mode behind a content, where so many brackets are open in what is struck out.
fn settle(brackets: usize) -> Mode
    ensures { result ≡ settled brackets }
{
    match brackets {
        0 => Mode::InBoth,
        _ => Mode::Striking(brackets),
    }
}

// The mode behind a token of what is struck out, of which so many brackets were open.
fn strike(side: Side, brackets: usize) -> Mode
    requires { brackets ≤ most_tokens }
    ensures { result ≡ strike_of side brackets }
{
    match side {
        Side::Plain | Side::Named => settle(brackets),
        Side::Opener => Mode::Striking(brackets + 1),
        Side::Closer => settle(brackets.saturating_sub(1)),
    }
}

// ---- what stands in both

// A turn of the pass is told the rest behind the token, if the rest has it next (`past`), and the rest as it was when the innermost
// bracket opened (`back`).
impl<'a> Stand<'a> {
    ghost use Rattle.std.specs.Option.{option_copied};
    ghost use Rattle.shorten.specs.Pass.{found, struck, shows, on_plain, on_named, on_opener, on_closer, turn_of};

    // The rest as the next token has to begin it: behind a label that is found already.
    fn next(self) -> &'a [u32]
        ensures { result.now ≡ drop (found self.entry.mode) self.entry.rest.now }
    {
        match (self.mode, self.rest) {
            (Mode::Labelled, [_, content @ ..]) => content,
            _ => self.rest,
        }
    }

    // Behind a value or null. Where it is another than the rest has, behind a label its content is struck out, and elsewhere the pass
    // goes back.
    fn on_plain(self, past: Option<&'a [u32]>, back: &'a [u32]) -> Stand<'a>
        ensures { shows result ≡ on_plain (option_copied past.entry) (shows self.entry) back.now }
    {
        let missed = match self.mode {
            Mode::InBoth => back,
            Mode::Labelled | Mode::Striking(_) => self.rest,
        };
        Stand {
            mode: Mode::InBoth,
            rest: past.unwrap_or(missed),
            ..self
        }
    }

    // Behind a label.
    fn on_named(self, past: Option<&'a [u32]>) -> Stand<'a>
        ensures { shows result ≡ on_named (option_copied past.entry) (shows self.entry) }
    {
        let mode = match past {
            Some(_) => Mode::Labelled,
            None => Mode::Striking(0),
        };
        Stand { mode, ..self }
    }

    // Behind `{` or `[`.
    fn on_opener(self, past: Option<&'a [u32]>) -> Stand<'a>
        ensures { shows result ≡ on_opener (option_copied past.entry) (shows self.entry) }
    {
        match past {
            Some(rest) if self.depth < MOST_BRACKETS => Stand {
                mode: Mode::InBoth,
                rest,
                depth: self.depth + 1,
            },
            _ => Stand {
                mode: Mode::Striking(1),
                ..self
            },
        }
    }

    // Behind `}` or `]`. Where the rest goes on, the bracket as a whole is none of the shortened response's, and the pass goes back.
    fn on_closer(self, past: Option<&'a [u32]>, back: &'a [u32]) -> Stand<'a>
        ensures { shows result ≡ on_closer (option_copied past.entry) (shows self.entry) back.now }
    {
        Stand {
            mode: Mode::InBoth,
            rest: past.unwrap_or(back),
            depth: self.depth.saturating_sub(1),
        }
    }

    // One token of the full response.
    fn turn(self, side: Side, past: Option<&'a [u32]>, back: &'a [u32]) -> Stand<'a>
        requires { struck self.mode ≤ most_tokens }
        ensures { shows result ≡ turn_of side (option_copied past.entry) (shows self.entry) back.now }
    {
        if let Mode::Striking(brackets) = self.mode {
            return Stand {
                mode: strike(side, brackets),
                ..self
            };
        }
        match side {
            Side::Plain => self.on_plain(past, back),
            Side::Named => self.on_named(past),
            Side::Opener => self.on_opener(past),
            Side::Closer => self.on_closer(past, back),
        }
    }
}

// Whether striking out in one response makes another. Each field or object of the full response goes to the first place that will do;
// for each open bracket that stands in both, `saved` has the rest as it was when it opened. It is an array with a depth beside it, since
// the memory is fixed.
fn made_from(full: &[u32], shortened: &[u32]) -> bool
    requires full_is_response { IsResponse full.now }
    requires shortened_is_response { IsResponse shortened.now }
    ensures { (result ≡ true) ↔ Shortened full.now shortened.now }
{
    let mut saved = [shortened; MOST_BRACKETS + 1];
    let mut stand = Stand {
        mode: Mode::InBoth,
        rest: shortened,
        depth: 0,
    };
    for token in full {
        let past = stands_at(stand.next(), *token);
        let depth = stand.depth;
        let back = if depth == 0 {
            stand.rest
        } else {
            saved[depth - 1]
        };
        saved[depth] = stand.rest;
        stand = stand.turn(side_of(*token), past, back);
    }
    stand.rest.is_empty()
}

// ---- the call

// Why a judging call is refused: the first sequence is no response, or only the second is none.
#[derive(Clone, Copy, PartialEq, Eq)]
pub enum Refusal {
    FullIsNone,
    ShortenedIsNone,
}

impl Refusal {
    ghost use Rattle.shorten.specs.Judge.{number_of};

    // The number that C is told.
    fn number(self) -> u32
        ensures { result ≡ number_of self }
    {
        match self {
            Refusal::FullIsNone => 71,
            Refusal::ShortenedIsNone => 72,
        }
    }
}

// The answer to a call, or why it has none.
fn verdict(full: &[u32], shortened: &[u32]) -> Result<bool, Refusal>
    ensures { Judged full.now shortened.now (replied result) }
{
    if !tokens::is_response(full) {
        return Err(Refusal::FullIsNone);
    }
    if !tokens::is_response(shortened) {
        return Err(Refusal::ShortenedIsNone);
    }
    Ok(made_from(full, shortened))
}

// An answer that shows no size and no visits.
fn reply(yes: u32, number: u32) -> Reply
    ensures { result ≡ reply_of yes number }
{
    Reply {
        yes,
        outcome: Outcome {
            number,
            place: 0,
            size: 0,
            visits: 0,
        },
    }
}

// Whether the second sequence is made from the first by striking out whole fields or whole objects of a list.
pub fn judge(full: &[u32], shortened: &[u32]) -> Reply
    ensures { Judged full.now shortened.now result }
{
    match verdict(full, shortened) {
        Ok(yes) => reply(u32::from(yes), 0),
        Err(refusal) => reply(0, refusal.number()),
    }
}

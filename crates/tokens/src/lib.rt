// Sequences of tokens: whether one is a response by Definition 5. The tokens are looked at one after another; what is kept is only
// what may come next and which objects are open.
#![tactic(auto)]

ghost use Rattle.std.specs.Prelude.{◌≡◌, ◌↔◌, true};
ghost use Rattle.tokens.specs.Response.{IsResponse};
ghost use Rattle.tokens.specs.Check.{is_label, onward, deeper, shut, on_fields, on_content, on_first, on_values, on_objects};

use rules::{CLOSE_LIST, CLOSE_OBJECT, LABELS, NULL, OPEN_LIST, OPEN_OBJECT};

// 01's largest value and label, and 02's most tokens.
const LARGEST_VALUE: u32 = 999_999_999;

const LARGEST_LABEL: u32 = 1_000_000_255;

const MOST_TOKENS: usize = 16_384;

// From here on 16 objects are open: 2 to the 16th.
const FULL_NEST: u32 = 65_536;

// What may come next: a field or the end of the fields; the content behind a label; the first of a list or its end; a further value
// or the end; a further object or the end.
#[derive(Clone, Copy, PartialEq, Eq)]
pub enum Mode {
    Fields,
    Labelled,
    Opened,
    InValues,
    InObjects,
}

// A check on its way. In `nest`, below a leading 1, stands a binary digit for each open object, the innermost last: 1 where the object
// is one of a list. One number holds them all, since the memory is fixed, and an array would need its length beside it.
#[derive(Clone, Copy, PartialEq, Eq)]
pub struct State {
    pub mode: Mode,
    pub nest: u32,
}

// Whether a token is a label.
pub fn is_label(x: u32) -> bool
    ensures { result ≡ is_label x }
{
    (LABELS..=LARGEST_LABEL).contains(&x)
}

// ---- what a token leads to: the check as it goes on, or None where the sequence is no response

// The check goes on, expecting `mode`, with the open objects `nest`.
fn go_on(mode: Mode, nest: u32) -> Option<State>
    ensures { result ≡ onward mode nest }
{
    Some(State { mode, nest })
}

// One more object open, if fewer than 16 are.
fn go_in(in_list: bool, nest: u32) -> Option<State>
    ensures { result ≡ deeper in_list nest }
{
    if nest < FULL_NEST {
        go_on(Mode::Fields, 2 * nest + u32::from(in_list))
    } else {
        None
    }
}

// The innermost open object is closed, if one is open.
fn go_out(nest: u32) -> Option<State>
    ensures { result ≡ shut nest }
{
    if nest < 2 {
        None
    } else if nest % 2 == 0 {
        go_on(Mode::Fields, nest / 2)
    } else {
        go_on(Mode::InObjects, nest / 2)
    }
}

// Where a field may come next or the fields end.
fn on_fields(token: u32, nest: u32) -> Option<State>
    ensures { result ≡ on_fields token nest }
{
    match token {
        _ if is_label(token) => go_on(Mode::Labelled, nest),
        CLOSE_OBJECT => go_out(nest),
        _ => None,
    }
}

// Behind a label.
fn on_content(token: u32, nest: u32) -> Option<State>
    ensures { result ≡ on_content token nest }
{
    match token {
        0..=LARGEST_VALUE | NULL => go_on(Mode::Fields, nest),
        OPEN_OBJECT => go_in(false, nest),
        OPEN_LIST => go_on(Mode::Opened, nest),
        _ => None,
    }
}

// In a list of values.
fn on_values(token: u32, nest: u32) -> Option<State>
    ensures { result ≡ on_values token nest }
{
    match token {
        0..=LARGEST_VALUE => go_on(Mode::InValues, nest),
        CLOSE_LIST => go_on(Mode::Fields, nest),
        _ => None,
    }
}

// In a list of objects.
fn on_objects(token: u32, nest: u32) -> Option<State>
    ensures { result ≡ on_objects token nest }
{
    match token {
        OPEN_OBJECT => go_in(true, nest),
        CLOSE_LIST => go_on(Mode::Fields, nest),
        _ => None,
    }
}

// At a list's beginning.
fn on_first(token: u32, nest: u32) -> Option<State>
    ensures { result ≡ on_first token nest }
{
    match token {
        0..=LARGEST_VALUE => go_on(Mode::InValues, nest),
        _ => on_objects(token, nest),
    }
}

impl State {
    ghost use Rattle.tokens.specs.Check.{step_of, finished_at};

    // A check at its beginning: a field may come, and no object is open.
    const START: State = State {
        mode: Mode::Fields,
        nest: 1,
    };

    // The check after one token more, or None where the sequence is no response.
    fn step(self, token: u32) -> Option<State>
        ensures { result ≡ step_of self token }
    {
        let nest = self.nest;
        match self.mode {
            Mode::Fields => on_fields(token, nest),
            Mode::Labelled => on_content(token, nest),
            Mode::Opened => on_first(token, nest),
            Mode::InValues => on_values(token, nest),
            Mode::InObjects => on_objects(token, nest),
        }
    }

    // Whether the sequence may end here.
    fn finished(self) -> bool
        ensures { result ≡ finished_at self }
    {
        self.mode == Mode::Fields && self.nest == 1
    }
}

// Whether a sequence of tokens is a response.
pub fn is_response(s: &[u32]) -> bool
    ensures { (result ≡ true) ↔ IsResponse s.now }
{
    if s.len() > MOST_TOKENS {
        return false;
    }
    let mut state = State::START;
    for token in s {
        let Some(next) = state.step(*token) else {
            return false;
        };
        state = next;
    }
    state.finished()
}

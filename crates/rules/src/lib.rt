// The plain types that the definitions and the code share.
#![tactic(auto)]

ghost use Rattle.std.specs.Prelude.{◌≡◌, ◌≤◌};
ghost use Rattle.rules.specs.Answer.{refused};
ghost use Rattle.rules.specs.Kinds.{first_check, kind_for};

// Document 000 takes field, argument and type names as disjoint sets, so a number of one kind never serves as one of another.
#[derive(Clone, Copy, PartialEq, Eq)]
pub struct FieldNo(pub u32);

#[derive(Clone, Copy, PartialEq, Eq)]
pub struct ArgNo(pub u32);

#[derive(Clone, Copy, PartialEq, Eq)]
pub struct TypeNo(pub u32);

// Where a text offends: the line, counted from 1, and the field in it, the letter being 1. Line 0 is the whole text,
// field 0 the whole line, another line or something missing.
#[derive(Clone, Copy, PartialEq, Eq)]
pub struct Spot {
    pub line: u32,
    pub field: u32,
}

// The three texts of a call: each has its own form and its own checks, which begin at 10, at 20 and at 30.
#[derive(Clone, Copy, PartialEq, Eq)]
pub enum TextKind {
    Schema,
    Graph,
    Query,
}

impl TextKind {
    // The number of the text's first check, that of its form. The next is that of its maxima.
    pub fn first_check(self) -> u32
        ensures value { result ≡ first_check self }
        ensures upper_bound { result ≤ 30 }
    {
        match self {
            TextKind::Schema => 10,
            TextKind::Graph => 20,
            TextKind::Query => 30,
        }
    }
}

impl From<u32> for TextKind {
    ghost from_gives = { λ n k. k ≡ kind_for n };

    // The text whose first check a number is, for who holds the number; any other number is taken for the query's.
    fn from(number: u32) -> TextKind {
        match number {
            10 => TextKind::Schema,
            20 => TextKind::Graph,
            _ => TextKind::Query,
        }
    }
}

// The tokens of a response: values below LABELS, label l at LABELS + l, and the five marks.
pub const LABELS: u32 = 1_000_000_000;

pub const OPEN_OBJECT: u32 = 2_000_000_001;

pub const CLOSE_OBJECT: u32 = 2_000_000_002;

pub const OPEN_LIST: u32 = 2_000_000_003;

pub const CLOSE_LIST: u32 = 2_000_000_004;

pub const NULL: u32 = 2_000_000_005;

// What a call returns: number, place, size, visits. Laid out as in C, so that it can be handed to C by value; a number and no enum, since
// C reads it.
#[repr(C)]
#[derive(Clone, Copy)]
pub struct Outcome {
    pub number: u32,
    pub place: u32,
    pub size: u32,
    pub visits: u32,
}

// Why a text is refused: the number of the first check that is offended, as an outcome will show it to C, and where.
#[derive(Clone, Copy, PartialEq, Eq)]
pub struct Refusal {
    pub number: u32,
    pub spot: Spot,
}

impl From<Refusal> for Outcome {
    ghost from_gives = { λ r o. o ≡ refused r.number r.spot };

    // A refusal as a call returns it: of the spot its line, and neither size nor visits.
    fn from(r: Refusal) -> Outcome {
        Outcome {
            number: r.number,
            place: r.spot.line,
            size: 0,
            visits: 0,
        }
    }
}

// What a call that says yes or no returns: 1 for yes and 0 for no, both with number 0; in a refusal 0, and the refusal's number.
#[repr(C)]
#[derive(Clone, Copy)]
pub struct Reply {
    pub yes: u32,
    pub outcome: Outcome,
}

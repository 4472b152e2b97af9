// An area that holds a query: what every question to it rests on stands in its type.
ghost use Rattle.std.specs.Prelude.{◌≡◌, ◌<◌};
ghost use Rattle.std.proofs.Props.{props};
ghost use Rattle.tables.specs.Read.{cell};
ghost use Rattle.query.specs.Entries.{QueryHeld};

// A query's area that can be read: at most 256 entries, depths to 15, no more than four pairs.
#[derive(Clone, Copy)]
pub struct QueryTable<'a> {
    pub area: &'a [u32],
    ghost held: { QueryHeld area.now } by { Prim.hlevel props },
}

// An entry of a query: the area that holds the query, and the entry's place there.
#[derive(Clone, Copy)]
pub struct QueryEntry<'a> {
    pub area: &'a [u32],
    pub place: usize,
    ghost held: { QueryHeld area.now } by { Prim.hlevel props },
    ghost inside: { place < cell area.now 0 },
}

// The table that an area holds.
pub fn table_in<'a>(area: &'a [u32]) -> QueryTable<'a>
    requires { QueryHeld area.now }
    ensures { result.area ≡ area.entry }
{
    QueryTable { area }
}

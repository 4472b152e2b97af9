// A label, and the row of a graph that has one: that its pairs are few stands in the types.
ghost use Rattle.std.specs.Prelude.{◌≤◌, get_or};

use rules::FieldNo;

// A label, copied: the field, how many pairs, and up to four pairs of argument number and value. The count stands beside an array of the
// room that four pairs take, since a library crate has no heap.
#[derive(Clone, Copy)]
pub struct Named {
    pub field: FieldNo,
    pub n: u32,
    pub pairs: [u32; 8],
    ghost few: { n ≤ 4 },
}

// The numbers of a row of the graph that keeps its form, so that its label has at most four pairs.
#[derive(Clone, Copy)]
pub struct GraphRow {
    pub nums: [u32; 12],
    ghost few: { get_or nums 3 0 ≤ 4 },
}

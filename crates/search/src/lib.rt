// The one search for the first line that offends: nested over lines and earlier lines, left by a label with the offending line.
#![tactic(auto)]

ghost use Rattle.std.specs.Prelude.{◌≡◌, [], ◌&&◌, leb, ◌+◌, ◌≤◌, ◌<◌, length, get_or};
ghost use Rattle.rules.specs.Lists.{one_if};
ghost use Rattle.rules.specs.Text.{lines, rows, field_no};
ghost use Rattle.rules.specs.Schema.{is_list};
ghost use Rattle.rules.specs.Search.{first_line};
ghost use Rattle.rules.proofs.Clean.{Each};
ghost use Rattle.tables.specs.Layout.{belongs, table_number};
ghost use Rattle.tables.specs.Fill.{Plain, lettered};
ghost use Rattle.tables.specs.Read.{schema_at};
ghost use Rattle.schema.specs.Held.{SchemaHeld};
ghost use Rattle.graph.specs.Held.{NodesHeld};
ghost use Rattle.graph.specs.Faults.{nodes_at};
ghost use Rattle.search.specs.Given.{areas_in};
ghost use Rattle.search.specs.Count.{counts_of, counts_with, Within};
ghost use Rattle.search.specs.Search.{row_number, graph_in, check_by, alone11, alone21, alone24, alone31, alone, pair_base, pair_count, limit, clash, indexed, head_of, step_of, pair_first, pair_next, first_asked, next_asked, Ready, PairsReady, IndexReady, Testable, GraphTestable, Clashable};

pub mod areas; // areas.rt: the areas that the search looks at

pub use areas::Areas;
use graph::{GraphRow, NodeTables, PropertyRow};
use rules::{FieldNo, Spot};
use tables::{FormedText, Table};

// The checks that go over the rows of a text: those of a schema, of a graph and of a query.
#[derive(Clone, Copy, PartialEq, Eq)]
pub enum RowCheck {
    SchemaSize,
    SchemaNumbers,
    PairTwice,
    FieldMissing,
    EmptyUnion,
    GraphSize,
    GraphNumbers,
    NotOwned,
    WrongType,
    SecondTarget,
    Twin,
    QuerySize,
}

impl RowCheck {
    // The check's number.
    pub fn number(self) -> u32
        ensures { result ≡ row_number self }
    {
        match self {
            RowCheck::SchemaSize => 11,
            RowCheck::SchemaNumbers => 12,
            RowCheck::PairTwice => 13,
            RowCheck::FieldMissing => 14,
            RowCheck::EmptyUnion => 15,
            RowCheck::GraphSize => 21,
            RowCheck::GraphNumbers => 22,
            RowCheck::NotOwned => 23,
            RowCheck::WrongType => 24,
            RowCheck::SecondTarget => 25,
            RowCheck::Twin => 26,
            RowCheck::QuerySize => 31,
        }
    }
}

// How many lines of each kind have been passed, how many values they have, and how many they are.
#[derive(Clone, Copy)]
struct Counts {
    types: u32,
    fields: u32,
    args: u32,
    has: u32,
    takes: u32,
    members: u32,
    nodes: u32,
    edges: u32,
    properties: u32,
    values: u32,
    lines: u32,
}

// One where a row with this letter belongs to table k.
fn tick(k: Table, letter: u8) -> u32
    ensures value { result ≡ one_if (belongs (table_number k) (lettered letter)) }
    ensures upper_bound { result ≤ 1 }
{
    tables::belongs_to(k, letter) as u32
}

impl Counts {
    // Nothing has been passed. Not derived: two wrong answers in tests/wrong_answers/search change what stands here.
    fn none() -> Counts
        ensures { result ≡ counts_of [] }
    {
        Counts {
            types: 0,
            fields: 0,
            args: 0,
            has: 0,
            takes: 0,
            members: 0,
            nodes: 0,
            edges: 0,
            properties: 0,
            values: 0,
            lines: 0,
        }
    }

    // One line more, with so many values.
    fn with_row(self, letter: u8, values: u32) -> Counts
        requires within { Within 65535 self }
        requires values_bound { values ≤ 65535 }
        ensures { result ≡ counts_with self letter values }
    {
        Counts {
            types: self.types + tick(Table::Types, letter),
            fields: self.fields + tick(Table::Fields, letter),
            args: self.args + tick(Table::Args, letter),
            has: self.has + tick(Table::Has, letter),
            takes: self.takes + tick(Table::Takes, letter),
            members: self.members + tick(Table::Members, letter),
            nodes: self.nodes + tick(Table::Nodes, letter),
            edges: self.edges + tick(Table::Edges, letter),
            properties: self.properties + tick(Table::Properties, letter),
            values: self.values + values,
            lines: self.lines + 1,
        }
    }
}

// ---- a line alone

// Whether a row with this letter belongs to table k, of which `most` have been counted.
fn is_full(k: Table, most: u32, count: u32, letter: u8) -> bool
    ensures { result ≡ (belongs (table_number k) (lettered letter) && leb most count) }
{
    tables::belongs_to(k, letter) && most <= count
}

// Check 11.
fn check_11(c: Counts, letter: u8) -> Option<u32>
    ensures { result ≡ alone11 c letter }
{
    let full = is_full(Table::Types, 64, c.types, letter)
        || is_full(Table::Fields, 128, c.fields, letter)
        || is_full(Table::Args, 64, c.args, letter)
        || is_full(Table::Has, 1024, c.has, letter)
        || is_full(Table::Takes, 1024, c.takes, letter)
        || is_full(Table::Members, 1024, c.members, letter);
    full.then_some(0)
}

// Check 21 of a row with so many numbers and pairs.
fn check_21(c: Counts, letter: u8, count: usize, n: u32) -> Option<u32>
    requires within { Within 65535 c }
    requires count_bound { count ≤ 65535 }
    ensures { result ≡ alone21 c letter count n }
{
    let full = is_full(Table::Nodes, 512, c.nodes, letter)
        || is_full(Table::Edges, 1024, c.edges, letter)
        || is_full(Table::Properties, 1024, c.properties, letter)
        || (letter == b'P' && 8192 < tables::values_in(letter, count, n) + c.values as usize);
    full.then_some(0)
}

// Check 31 of a line at a depth.
fn check_31(c: Counts, depth: u32) -> Option<u32>
    ensures { result ≡ alone31 c depth }
{
    if 15 < depth {
        return Some(2);
    }
    if 256 <= c.lines {
        return Some(0);
    }
    None
}

// Check 24 of a line of the graph.
fn check_24(c: Counts, r: text::Row, x: &Areas) -> Option<u32>
    requires { GraphTestable (areas_in x.now) c r }
    ensures { result ≡ alone24 (areas_in x.now) c r.letter r.nums }
{
    let tables = x.schema_tables();
    let nodes = NodeTables { area: x.nodes };
    let nums = r.nums;
    match r.letter {
        b'E' => graph::check_24_edge(&tables, &nodes, nums),
        b'P' => {
            let property = PropertyRow {
                area: x.properties,
                values: x.values,
                place: c.properties as usize,
            };
            let row = GraphRow { nums };
            graph::check_24_property(&tables, &nodes, &property, row)
        }
        _ => None,
    }
}

// What a check says of a line alone, where c counts the lines before it.
fn line_alone(check: RowCheck, c: Counts, r: text::Row, x: &Areas) -> Option<u32>
    requires { Testable (row_number check) (areas_in x.now) c r }
    ensures { result ≡ alone (row_number check) (areas_in x.now) c r }
{
    let nums = r.nums;
    match check {
        RowCheck::SchemaSize => check_11(c, r.letter),
        RowCheck::SchemaNumbers => x.schema_tables().check_12(r.letter, nums[0], nums[1]),
        RowCheck::FieldMissing => x.schema_tables().check_14(r.letter, nums[0], nums[1]),
        RowCheck::EmptyUnion => x.schema_tables().check_15(r.letter, c.types),
        RowCheck::GraphSize => check_21(c, r.letter, r.count, nums[3]),
        RowCheck::GraphNumbers => graph::check_22(
            &x.schema_tables(),
            &NodeTables { area: x.nodes },
            r.letter,
            GraphRow { nums },
        ),
        RowCheck::NotOwned => graph::check_23(
            &x.schema_tables(),
            &NodeTables { area: x.nodes },
            r.letter,
            GraphRow { nums },
        ),
        RowCheck::WrongType => check_24(c, r, x),
        RowCheck::QuerySize => check_31(c, nums[0]),
        RowCheck::PairTwice | RowCheck::SecondTarget | RowCheck::Twin => None,
    }
}

// ---- a line and an earlier one

// How many pairs of a letter have been passed.
fn earlier_pairs(c: Counts, letter: u8) -> u32
    ensures { result ≡ pair_count c letter }
{
    match letter {
        b'H' => c.has,
        b'G' => c.takes,
        b'M' => c.members,
        _ => 0,
    }
}

// Whether an edge's field is a list.
fn is_list(nums: [u32; 12], x: &Areas) -> bool
    requires schema_held { SchemaHeld x.now.schema.now }
    requires nodes_held { NodesHeld x.now.nodes.now }
    ensures { result ≡ is_list (schema_at x.now.schema.now) ((nodes_at x.now.nodes.now).type_of (get_or nums 0 0)) (field_no (get_or nums 1 0)) }
{
    let t = NodeTables { area: x.nodes }.type_of(nums[0]);
    x.schema_tables().list_mark(t, FieldNo(nums[1])) == 1
}

// How many of the lines before it a line can clash with.
fn earlier(check: RowCheck, c: Counts, r: text::Row, x: &Areas) -> u32
    requires { Testable (row_number check) (areas_in x.now) c r }
    ensures { result ≡ limit (row_number check) (areas_in x.now) c r }
{
    match check {
        RowCheck::PairTwice => earlier_pairs(c, r.letter),
        RowCheck::SecondTarget => {
            if r.letter != b'E' || is_list(r.nums, x) {
                return 0;
            }
            c.edges
        }
        RowCheck::Twin => match r.letter {
            b'E' => c.edges,
            b'P' => c.properties,
            _ => 0,
        },
        _ => 0,
    }
}

// Whether a line clashes with the j-th earlier line of its kind.
fn clashes(check: RowCheck, r: text::Row, j: usize, x: &Areas) -> bool
    requires { Clashable (row_number check) (areas_in x.now) r j }
    ensures { result ≡ clash (row_number check) (areas_in x.now) r j }
{
    let nums = r.nums;
    match check {
        RowCheck::PairTwice => schema::pair_at(x.schema, pair_base(r.letter), nums[0], nums[1], j),
        RowCheck::SecondTarget => graph::diverts_at(&NodeTables { area: x.nodes }, nums, j),
        _ => match r.letter {
            b'E' => graph::twin_edge(&NodeTables { area: x.nodes }, GraphRow { nums }, j),
            _ => {
                let property = PropertyRow {
                    area: x.properties,
                    values: x.values,
                    place: j,
                };
                graph::twin_property(&property, GraphRow { nums })
            }
        },
    }
}

// Where the pairs of a letter stand in the schema's area. The three relations differ here alone, and in where their links and counts stand:
// what goes over them is one.
fn pair_base(letter: u8) -> usize
    ensures value { result ≡ pair_base letter }
    ensures upper_bound { result ≤ 10000 }
{
    match letter {
        b'H' => 776,
        b'G' => 3848,
        _ => 6920,
    }
}

// Whether a check walks the index. A check is asked what it is at each step, and hands no closure: the contract says of each its definition by
// its number, and one function for all is what `first_offence` promises.
fn by_index(check: RowCheck) -> bool
    ensures { result ≡ indexed (row_number check) }
{
    matches!(check, RowCheck::SecondTarget | RowCheck::Twin)
}

// The earlier line that a line of the graph is held against first.
fn first_datum(check: RowCheck, r: text::Row, x: &Areas) -> usize
    requires index_ready { IndexReady (row_number check) x.now.nodes.now x.now.properties.now x.now.index.now }
    ensures { result ≡ head_of (row_number check) x.now.nodes.now x.now.properties.now x.now.index.now r }
{
    if !by_index(check) {
        return 0;
    }
    match r.letter {
        b'E' => index::first_row(x.index, 0, x.nodes[1] as usize, r.nums[0]),
        _ => index::first_row(x.index, 1536, x.properties[0] as usize, r.nums[0]),
    }
}

// The earlier line that a line of the graph is held against behind the j-th.
fn next_datum(check: RowCheck, r: text::Row, x: &Areas, j: usize) -> usize
    requires index_ready { IndexReady (row_number check) x.now.nodes.now x.now.properties.now x.now.index.now }
    requires j_bound { j < 1024 }
    ensures { result ≡ step_of (row_number check) x.now.nodes.now x.now.properties.now x.now.index.now r j }
{
    if !by_index(check) {
        return j + 1;
    }
    match r.letter {
        b'E' => index::next_row(x.index, 0, x.nodes[1] as usize, j),
        _ => index::next_row(x.index, 1536, x.properties[0] as usize, j),
    }
}

// The earlier pair that a pair with this letter and the first number x is held against first.
fn first_pair(a: &[u32], letter: u8, x: u32) -> usize
    requires { SchemaHeld a.now }
    ensures { result ≡ pair_first a.now letter x }
{
    match letter {
        b'H' => index::first_row(a, index::HAS_LINKS, a[3] as usize, x % 512),
        b'G' => index::first_row(a, index::TAKES_LINKS, a[4] as usize, x % 512),
        _ => index::first_row(a, index::MEMBER_LINKS, a[5] as usize, x % 512),
    }
}

// The earlier pair that a pair with this letter is held against behind the j-th.
fn next_pair(a: &[u32], letter: u8, j: usize) -> usize
    requires schema_held { SchemaHeld a.now }
    requires j_bound { j < 1024 }
    ensures { result ≡ pair_next a.now letter j }
{
    match letter {
        b'H' => index::next_row(a, index::HAS_LINKS, a[3] as usize, j),
        b'G' => index::next_row(a, index::TAKES_LINKS, a[4] as usize, j),
        _ => index::next_row(a, index::MEMBER_LINKS, a[5] as usize, j),
    }
}

// The earlier line that a line is held against first.
fn first_earlier(check: RowCheck, r: text::Row, x: &Areas) -> usize
    requires pairs_ready { PairsReady (row_number check) x.now.schema.now }
    requires index_ready { IndexReady (row_number check) x.now.nodes.now x.now.properties.now x.now.index.now }
    ensures { result ≡ first_asked (row_number check) x.now.schema.now x.now.nodes.now x.now.properties.now x.now.index.now r }
{
    match check {
        RowCheck::PairTwice => first_pair(x.schema, r.letter, r.nums[0]),
        _ => first_datum(check, r, x),
    }
}

// The earlier line that a line is held against behind the j-th.
fn next_earlier(check: RowCheck, r: text::Row, x: &Areas, j: usize) -> usize
    requires pairs_ready { PairsReady (row_number check) x.now.schema.now }
    requires index_ready { IndexReady (row_number check) x.now.nodes.now x.now.properties.now x.now.index.now }
    requires j_bound { j < 1024 }
    ensures { result ≡ next_asked (row_number check) x.now.schema.now x.now.nodes.now x.now.properties.now x.now.index.now r j }
{
    match check {
        RowCheck::PairTwice => next_pair(x.schema, r.letter, j),
        _ => next_datum(check, r, x, j),
    }
}

// The first line that offends against a check, with the field at fault.
pub fn first_offence(check: RowCheck, s: &FormedText, x: &Areas) -> Option<Spot>
    requires ready { Ready (row_number check) (rows s.now.bytes.now) (areas_in x.now) }
    requires index_ready { IndexReady (row_number check) x.now.nodes.now x.now.properties.now x.now.index.now }
    ensures { result ≡ first_line (check_by (row_number check) (schema_at x.now.schema.now) (graph_in (areas_in x.now))) (rows s.now.bytes.now) }
{
    // A rule of the project (docs/DECISIONS.md, forms by place): two loops, nested, left by a label with the offending line.
    // Neither counts: the one goes on behind the bytes that were read, the other along a chain.
    let mut found = None;
    let mut c = Counts::none();
    let mut at: usize = 0;
    'lines: while at < s.bytes.len() {
        let r = text::read_row(s.bytes, at);
        if let Some(field) = line_alone(check, c, r, x) {
            found = Some(Spot {
                line: c.lines + 1,
                field,
            });
            break 'lines;
        }
        let end = earlier(check, c, r, x) as usize;
        let mut j = first_earlier(check, r, x);
        while j < end {
            if clashes(check, r, j, x) {
                found = Some(Spot {
                    line: c.lines + 1,
                    field: 0,
                });
                break 'lines;
            }
            j = next_earlier(check, r, x, j);
        }
        let values = tables::values_in(r.letter, r.count, r.nums[3]) as u32;
        c = c.with_row(r.letter, values);
        at = r.next;
    }
    found
}

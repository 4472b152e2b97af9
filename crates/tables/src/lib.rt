// Tables in lent work areas: clearing an area, laying the rows of an accepted text out in it, and reading a cell.
#![tactic(auto)]

ghost use Rattle.std.specs.Prelude.{◌≡◌, ◌+◌, ◌*◌, ◌-◌, ◌≤◌, ◌<◌, [], ◌∷◌, length, drop, replicate};
ghost use Rattle.rules.specs.Text.{rows, row, lines};
ghost use Rattle.rules.specs.Schema.{is_type};
ghost use Rattle.rules.proofs.Clean.{Each};
ghost use Rattle.text.specs.Line.{line_at, row_at};
ghost use Rattle.tables.specs.Layout.{laid, table_number, table_for, belongs, width, table, counted, all_values, schema_laid, schema_tables, node_area, property_area, value_area, query_area};
ghost use Rattle.tables.specs.Read.{cell};
ghost use Rattle.tables.specs.Fill.{Plain, lettered, cells_of, row_in, space, values_in, own_values, graph_counts_of, asked_with, schema_counts_of, head_of, SchemaFits, GraphFits};

use rules::TypeNo;

pub mod held; // held.rt: a text that can be laid out

pub use held::FormedText;

// The tables: six of the schema, three of the graph, and that of the query.
#[derive(Clone, Copy, PartialEq, Eq)]
pub enum Table {
    Types,
    Fields,
    Args,
    Has,
    Takes,
    Members,
    Nodes,
    Edges,
    Properties,
    Entries,
}

impl From<u32> for Table {
    ghost from_gives = { λ n k. k ≡ table_for n };

    // The table that a number means, for who holds the number; any other number is taken for the query's entries.
    fn from(number: u32) -> Table {
        match number {
            1 => Table::Types,
            2 => Table::Fields,
            3 => Table::Args,
            4 => Table::Has,
            5 => Table::Takes,
            6 => Table::Members,
            7 => Table::Nodes,
            8 => Table::Edges,
            9 => Table::Properties,
            _ => Table::Entries,
        }
    }
}

// Zeroes a whole area.
pub fn clear(area: &mut [u32])
    ensures { area.new ≡ replicate (length area.old) 0 }
{
    area.fill(0);
}

// Cell k of row j of a table whose rows are `width` numbers wide.
#[tactic(auto, unfolding(crate::specs::Read::cell))]
pub fn row_cell(area: &[u32], base: usize, width: usize, j: usize, k: usize) -> u32
    requires { base + width * j + k < length area.now }
    ensures { result ≡ cell area.now (base + width * j + k) }
{
    area[base + width * j + k]
}

// Whether a row with this letter states a type.
#[tactic(auto, unfolding(crate::specs::Fill::lettered))]
fn is_type(letter: u8) -> bool
    ensures { result ≡ is_type (lettered letter) }
{
    matches!(letter, b'S' | b'O' | b'I' | b'U')
}

// Whether a row with this letter belongs to table k. The table is told by its name or by its number: any number will do, and one that is no
// table's is taken for the query's entries.
#[tactic(auto, unfolding(crate::specs::Layout::belongs, crate::specs::Fill::lettered))]
pub fn belongs_to<K: Into<Table>>(k: K, letter: u8) -> bool
    ensures { (table : Table) × K.converts k table × (result ≡ belongs (table_number table) (lettered letter)) }
{
    let table: Table = k.into();
    match table {
        Table::Types => is_type(letter),
        Table::Fields => letter == b'F',
        Table::Args => letter == b'A',
        Table::Has => letter == b'H',
        Table::Takes => letter == b'G',
        Table::Members => letter == b'M',
        Table::Nodes => letter == b'N',
        Table::Edges => letter == b'E',
        Table::Properties => letter == b'P',
        Table::Entries => true,
    }
}

// Lays a narrow row at a place.
#[tactic(auto, using(crate::proofs::Stores::three_stored))]
fn put_narrow(area: &mut [u32], place: usize, letter: u32, x: u32, y: u32)
    requires { place + 3 ≤ length area.old }
    ensures { area.new ≡ laid place (letter ∷ x ∷ y ∷ []) area.old }
{
    area[place] = letter;
    area[place + 1] = x;
    area[place + 2] = y;
}

// Lays a wide row at a place.
#[tactic(auto, using(crate::proofs::Stores::wide_copied))]
fn put_wide(area: &mut [u32], place: usize, tag: u32, count: u32, nums: [u32; 12])
    requires { place + 14 ≤ length area.old }
    ensures { area.new ≡ laid place (tag ∷ count ∷ nums) area.old }
{
    area[place] = tag;
    area[place + 1] = count;
    area[place + 2..place + 14].copy_from_slice(&nums);
}

// How many values a row has: those of a property, behind its n pairs.
#[tactic(auto, unfolding(crate::specs::Fill::values_in))]
pub fn values_in(letter: u8, count: usize, n: u32) -> usize
    ensures { result ≡ values_in letter count n }
{
    if letter != b'P' {
        return 0;
    }
    count.saturating_sub(4 + 2 * (n as usize))
}

// Lays a row of table k at a place, before which `start` values stand, and says where the next goes.
#[tactic(auto, unfolding(crate::specs::Layout::width, crate::specs::Fill::cells_of))]
fn put_row(area: &mut [u32], place: usize, k: Table, start: u32, r: text::Row) -> usize
    requires k_in_bounds { place + width (table_number k) ≤ length area.old }
    requires count_bound { r.count < 100000 }
    ensures value { result ≡ place + width (table_number k) }
    ensures area_after { area.new ≡ laid place (cells_of (table_number k) start r) area.old }
{
    let nums = r.nums;
    match k {
        Table::Properties => {
            put_wide(area, place, start, r.count as u32, nums);
            place + 14
        }
        Table::Edges | Table::Entries => {
            put_wide(area, place, r.letter as u32, r.count as u32, nums);
            place + 14
        }
        _ => {
            put_narrow(area, place, r.letter as u32, nums[0], nums[1]);
            place + 3
        }
    }
}

// Lays a row in table k, where it belongs there, at the place where the table's next row goes, and says where the next goes.
fn put_in(k: Table, area: &mut [u32], place: usize, start: u32, r: text::Row) -> usize
    requires letter_in_bounds { place + space (table_number k) r.letter ≤ length area.old }
    requires count_bound { r.count < 100000 }
    ensures value { result ≡ place + space (table_number k) r.letter }
    ensures area_after { area.new ≡ laid place (row_in (table_number k) start r) area.old }
{
    if belongs_to(k, r.letter) {
        return put_row(area, place, k, start, r);
    }
    place
}

// Lays the numbers of the line at `at`, without the first `skip`, over an area from a place on, and says where the next go.
fn put_numbers(s: &[u8], at: usize, skip: usize, area: &mut [u32], base: usize) -> usize
    requires at_in_bounds { at < length s.now }
    requires plain { Plain (line_at s.now at) }
    requires at_in_bounds_2 { base + length (drop skip (row (line_at s.now at)).numbers) ≤ length area.old }
    ensures value { result ≡ base + length (drop skip (row (line_at s.now at)).numbers) }
    ensures area_after { area.new ≡ laid base (drop skip (row (line_at s.now at)).numbers) area.old }
{
    let mut i = at + 1;
    let mut k: usize = 0;
    let mut place = base;
    // the reader of a number says where the next field stands: nothing is counted but the numbers left out
    while text::byte_at(s, i) == b'\t' {
        let Ok(text::Numeral { value, next }) = text::number(s, i + 1) else {
            return place;
        };
        if skip <= k {
            area[place] = value;
            place += 1;
        }
        k += 1;
        i = next;
    }
    place
}

// Lays the values of the row at `at`, which was read, at the place where the next value goes, and says where the next goes.
fn put_values(s: &[u8], at: usize, r: text::Row, area: &mut [u32], place: usize) -> usize
    requires at_in_bounds { at < length s.now }
    requires plain { Plain (line_at s.now at) }
    requires r_value { r ≡ row_at s.now at }
    requires at_in_bounds_2 { place + length (own_values (row (line_at s.now at))) ≤ length area.old }
    ensures value { result ≡ place + length (own_values (row (line_at s.now at))) }
    ensures area_after { area.new ≡ laid place (own_values (row (line_at s.now at))) area.old }
{
    if r.letter == b'P' {
        let nums = r.nums;
        return put_numbers(s, at, 4 + 2 * (nums[3] as usize), area, place);
    }
    place
}

// How many nodes, edges, properties and values a graph has.
#[derive(Clone, Copy)]
struct GraphCounts {
    nodes: u32,
    edges: u32,
    properties: u32,
    values: u32,
}

// Lays the nodes and edges of an accepted graph over g, its properties over p and their values over v, in one reading of its text,
// and says how many there are.
fn fill_graph(s: &FormedText, g: &mut [u32], p: &mut [u32], v: &mut [u32]) -> GraphCounts
    requires graph_fits { GraphFits (rows s.now.bytes.now) }
    requires in_bounds { 15880 ≤ length g.old }
    requires in_bounds_2 { 14344 ≤ length p.old }
    requires in_bounds_3 { 8200 ≤ length v.old }
    ensures value { result ≡ graph_counts_of (rows s.now.bytes.now) }
    ensures g_after { g.new ≡ laid 1544 (table 8 0 (rows s.now.bytes.now)) (laid 8 (table 7 0 (rows s.now.bytes.now)) g.old) }
    ensures p_after { p.new ≡ laid 8 (table 9 0 (rows s.now.bytes.now)) p.old }
    ensures v_after { v.new ≡ laid 8 (all_values (rows s.now.bytes.now)) v.old }
{
    let mut nodes: usize = 8;
    let mut edges: usize = 1544;
    let mut properties: usize = 8;
    let mut values: usize = 8;
    let mut at: usize = 0;
    // A cursor, not a count: where the next line starts is known when this one is read.
    while at < s.bytes.len() {
        let r = text::read_row(s.bytes, at);
        let start = (values - 8) as u32;
        nodes = put_in(Table::Nodes, g, nodes, start, r);
        edges = put_in(Table::Edges, g, edges, start, r);
        properties = put_in(Table::Properties, p, properties, start, r);
        values = put_values(s.bytes, at, r, v, values);
        at = r.next;
    }
    GraphCounts {
        nodes: ((nodes - 8) / 3) as u32,
        edges: ((edges - 1544) / 14) as u32,
        properties: ((properties - 8) / 14) as u32,
        values: (values - 8) as u32,
    }
}

// How many Q records a schema has, and the type that the first names.
#[derive(Clone, Copy)]
struct Queries {
    count: u32,
    first: TypeNo,
}

// The Q records with a row more, of which its letter and its first number count.
#[tactic(auto, unfolding(crate::specs::Fill::asked_with))]
fn ask(q: Queries, letter: u8, first: TypeNo) -> Queries
    requires { q.count < 100000 }
    ensures { result ≡ asked_with q letter first }
{
    if letter != b'Q' {
        return q;
    }
    Queries {
        count: q.count + 1,
        first: if q.count == 0 { first } else { q.first },
    }
}

// How many rows each table of a schema has, and its Q records.
#[derive(Clone, Copy)]
struct SchemaCounts {
    types: u32,
    fields: u32,
    args: u32,
    has: u32,
    takes: u32,
    members: u32,
    queries: Queries,
}

// Lays the six tables of an accepted schema over an area, in one reading of its text, and says how many rows each has.
fn fill_schema(s: &FormedText, area: &mut [u32]) -> SchemaCounts
    requires schema_fits { SchemaFits (rows s.now.bytes.now) }
    requires in_bounds { 9992 ≤ length area.old }
    ensures value { result ≡ schema_counts_of (rows s.now.bytes.now) }
    ensures area_after { area.new ≡ schema_laid (rows s.now.bytes.now) area.old }
{
    let mut types: usize = 8;
    let mut fields: usize = 200;
    let mut args: usize = 584;
    let mut has: usize = 776;
    let mut takes: usize = 3848;
    let mut members: usize = 6920;
    let mut queries = Queries {
        count: 0,
        first: TypeNo(0),
    };
    let mut at: usize = 0;
    // A cursor, not a count: where the next line starts is known when this one is read.
    while at < s.bytes.len() {
        let r = text::read_row(s.bytes, at);
        let nums = r.nums;
        types = put_in(Table::Types, area, types, 0, r);
        fields = put_in(Table::Fields, area, fields, 0, r);
        args = put_in(Table::Args, area, args, 0, r);
        has = put_in(Table::Has, area, has, 0, r);
        takes = put_in(Table::Takes, area, takes, 0, r);
        members = put_in(Table::Members, area, members, 0, r);
        queries = ask(queries, r.letter, TypeNo(nums[0]));
        at = r.next;
    }
    SchemaCounts {
        types: ((types - 8) / 3) as u32,
        fields: ((fields - 200) / 3) as u32,
        args: ((args - 584) / 3) as u32,
        has: ((has - 776) / 3) as u32,
        takes: ((takes - 3848) / 3) as u32,
        members: ((members - 6920) / 3) as u32,
        queries,
    }
}

// Lays the head of the schema's area.
#[tactic(auto, unfolding(crate::specs::Fill::head_of, crate::specs::Layout::laid))]
fn put_head(area: &mut [u32], c: SchemaCounts)
    requires { 8 ≤ length area.old }
    ensures { area.new ≡ laid 0 (head_of c) area.old }
{
    area[..8].copy_from_slice(&[
        c.types,
        c.fields,
        c.args,
        c.has,
        c.takes,
        c.members,
        c.queries.count,
        c.queries.first.0,
    ]);
}

// Lays the tables of an accepted schema out, in one reading of its text.
pub fn lay_schema(s: &FormedText, area: &mut [u32])
    requires schema_fits { SchemaFits (rows s.now.bytes.now) }
    requires in_bounds { 9992 ≤ length area.old }
    ensures { area.new ≡ schema_tables (length area.old) (rows s.now.bytes.now) }
{
    clear(area);
    let c = fill_schema(s, area);
    put_head(area, c);
}

// Lays the nodes and edges, the properties and their values of an accepted graph out, in one reading of its text.
pub fn lay_graph(s: &FormedText, g: &mut [u32], p: &mut [u32], v: &mut [u32])
    requires graph_fits { GraphFits (rows s.now.bytes.now) }
    requires in_bounds { 15880 ≤ length g.old }
    requires in_bounds_2 { 14344 ≤ length p.old }
    requires in_bounds_3 { 8200 ≤ length v.old }
    ensures g_after { g.new ≡ node_area (length g.old) (rows s.now.bytes.now) }
    ensures p_after { p.new ≡ property_area (length p.old) (rows s.now.bytes.now) }
    ensures v_after { v.new ≡ value_area (length v.old) (rows s.now.bytes.now) }
{
    clear(g);
    clear(p);
    clear(v);
    let c = fill_graph(s, g, p, v);
    g[0] = c.nodes;
    g[1] = c.edges;
    p[0] = c.properties;
    v[0] = c.values;
}

// Lays the entries of an accepted query over an area, and says how many there are.
fn fill_query(s: &FormedText, area: &mut [u32]) -> u32
    requires s_len_bound_2 { length (rows s.now.bytes.now) ≤ 256 }
    requires in_bounds { 3592 ≤ length area.old }
    ensures value { result ≡ counted 10 (rows s.now.bytes.now) }
    ensures area_after { area.new ≡ laid 8 (table 10 0 (rows s.now.bytes.now)) area.old }
{
    let mut place: usize = 8;
    let mut at: usize = 0;
    // A cursor, not a count: where the next line starts is known when this one is read.
    while at < s.bytes.len() {
        let r = text::read_row(s.bytes, at);
        place = put_in(Table::Entries, area, place, 0, r);
        at = r.next;
    }
    ((place - 8) / 14) as u32
}

// Lays an accepted query of at most 256 entries out.
pub fn lay_query(s: &FormedText, area: &mut [u32])
    requires s_len_bound_2 { length (rows s.now.bytes.now) ≤ 256 }
    requires in_bounds { 3592 ≤ length area.old }
    ensures { area.new ≡ query_area (length area.old) (rows s.now.bytes.now) }
{
    clear(area);
    let entries = fill_query(s, area);
    area[0] = entries;
}

// What evaluation asks of the tables: shape, lookup, targets, holds, and the query node.
#![tactic(auto)]

ghost use Rattle.std.specs.Prelude.{◌≡◌, ◌+◌, ◌*◌, ◌-◌, ◌≤◌, ◌<◌, length, get_or, eqb};
ghost use Rattle.tables.specs.Read.{cell, wide_at, starts_at, values_at};
ghost use Rattle.index.specs.Index.{node_at, Linked, OnChain};
ghost use Rattle.masks.specs.Masks.{Masked};
ghost use Rattle.schema.specs.Stated.{stated};
ghost use Rattle.world.specs.World.{root_at, asked_at, EdgesHeld, TableHeld, row_from, edge_from, lookup_at, shape_by, shape_at, holds_at};

pub mod held; // held.rt: the areas that hold what evaluation asks

use graph::{NodeTables, PropertyRow};
pub use held::WorldTables;
use query::QueryEntry;
use rules::{FieldNo, TypeNo};
use schema::SchemaTables;

// What a field is: of scalar type, a list of objects, or one object.
#[derive(Clone, Copy, PartialEq, Eq)]
pub enum FieldKind {
    Scalar,
    Objects,
    Object,
}

// Whether row j of a wide table is of node u and has the label that an entry asks, whose field stands in cell 4.
fn matches(a: &[u32], base: usize, n: usize, q: &QueryEntry, u: u32, j: usize) -> bool
    requires table_held { TableHeld a.now base n }
    requires j_lt_n { j < n }
    ensures { result ≡ starts_at a.now base u (asked_at q.now.area.now q.now.place) j }
{
    graph::wide_at(a, base, j, 2) == u
        && graph::same_label(
            graph::named_at(a, base, j, 3),
            graph::named_at(q.area, 8, q.place, 4),
        )
}

// The first row, from row i on along the chain of node u, that has the label that an entry asks; n where there is none, as the definition
// `row_from` says.
fn row_along(
    a: &[u32],
    base: usize,
    n: usize,
    ix: &[u32],
    at: usize,
    q: &QueryEntry,
    u: u32,
    i: usize,
) -> usize
    requires table_held { TableHeld a.now base n }
    requires linked { Linked a.now base n ix.now at }
    requires on_chain { OnChain (node_at a.now base) n u i }
    ensures { result ≡ row_from a.now base n u (asked_at q.now.area.now q.now.place) i }
{
    let mut j = i;
    // a link leads to the next row: nothing is counted
    while j < n {
        if matches(a, base, n, q, u, j) {
            return j;
        }
        j = index::next_row(ix, at, n, j);
    }
    n
}

// The targets of an entry at node u, edge by edge: the first matching edge; the count of the edges where there is none (`edge_from`).
pub fn first_edge(g: &[u32], ix: &[u32], q: &QueryEntry, u: u32) -> usize
    requires edges_held { EdgesHeld g.now ix.now }
    ensures { result ≡ edge_from g.now u (asked_at q.now.area.now q.now.place) 0 }
{
    let n = g[1] as usize;
    row_along(g, 1544, n, ix, 0, q, u, index::first_row(ix, 0, n, u))
}

// The first matching edge behind edge e, which starts at u.
pub fn edge_after(g: &[u32], ix: &[u32], q: &QueryEntry, u: u32, e: usize) -> usize
    requires edges_held { EdgesHeld g.now ix.now }
    requires e_bound { e < cell g.now 1 }
    requires e_value { wide_at g.now 1544 e 2 ≡ u }
    ensures { result ≡ edge_from g.now u (asked_at q.now.area.now q.now.place) (e + 1) }
{
    let n = g[1] as usize;
    row_along(g, 1544, n, ix, 0, q, u, index::next_row(ix, 0, n, e))
}

// The target of edge e.
pub fn target(g: &NodeTables, e: usize) -> u32
    requires e_bound { e < cell g.now.area.now 1 }
    ensures { result ≡ wide_at g.now.area.now 1544 e 4 }
{
    graph::wide_at(g.area, 1544, e, 4)
}

// The row of the property of node u with the label that an entry asks, if there is one.
pub fn lookup(p: &[u32], ix: &[u32], q: &QueryEntry, u: u32) -> Option<usize>
    requires table_held { TableHeld p.now 8 (cell p.now 0) }
    requires linked { Linked p.now 8 (cell p.now 0) ix.now 1536 }
    ensures { result ≡ lookup_at p.now u (asked_at q.now.area.now q.now.place) }
{
    let n = p[0] as usize;
    let j = row_along(p, 8, n, ix, 1536, q, u, index::first_row(ix, 1536, n, u));
    if j < n { Some(j) } else { None }
}

// Whether property j is a sequence.
pub fn is_sequence(p: &[u32], j: usize) -> bool
    requires table_held { TableHeld p.now 8 (cell p.now 0) }
    requires j_bound { j < cell p.now 0 }
    ensures { result ≡ eqb (wide_at p.now 8 j 4) 1 }
{
    graph::wide_at(p, 8, j, 4) == 1
}

// How many values a property has.
pub fn value_count(p: &PropertyRow) -> usize
    ensures { result ≡ length (values_at p.now.area.now p.now.values.now p.now.place) }
{
    let all = graph::wide_at(p.area, 8, p.place, 1) as usize;
    let front = 4 + 2 * (graph::wide_at(p.area, 8, p.place, 5) as usize);
    all.saturating_sub(front)
}

// Value i of a property.
pub fn value_at(p: &PropertyRow, i: usize) -> u32
    requires i_in_bounds { i < length (values_at p.now.area.now p.now.values.now p.now.place) }
    requires v_len_bound { length p.now.values.now ≤ 8200 }
    ensures { result ≡ get_or (values_at p.now.area.now p.now.values.now p.now.place) i 0 }
{
    p.values[8 + graph::wide_at(p.area, 8, p.place, 0) as usize + i]
}

// What field f is at node u.
pub fn shape(a: &SchemaTables, g: &NodeTables, u: u32, f: FieldNo) -> FieldKind
    ensures { shape_by result ≡ shape_at a.now.area.now g.now.area.now u f }
{
    let owner = g.type_of(u);
    if a.is_scalar(a.field_type(owner, f)) {
        return FieldKind::Scalar;
    }
    if a.list_mark(owner, f) == 1 {
        return FieldKind::Objects;
    }
    FieldKind::Object
}

// Whether node u's type is compatible with t.
pub fn holds(a: &[u32], g: &NodeTables, u: u32, t: TypeNo) -> bool
    requires masked { Masked a.now }
    ensures { result ≡ holds_at a.now g.now.area.now u t }
{
    schema::is_compatible(a, g.type_of(u), t)
}

// The query node: the first of the query type; the count of the nodes where none is, as the definition `root_at` says.
pub fn query_node(a: &SchemaTables, g: &NodeTables) -> u32
    ensures { result ≡ root_at a.now.area.now g.now.area.now }
{
    let t = a.query_type();
    let n = g.area[0];
    for u in 0..n {
        if g.type_of(u) == t {
            return u;
        }
    }
    n
}

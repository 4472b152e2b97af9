// Sizing: one pass over the query's entries, with a row of capped multiplicities for each depth, and a running tally.
#![tactic(auto)]

ghost use Rattle.std.specs.Prelude.{◌≡◌, ◌+◌, ◌≤◌, ◌<◌, length, get_or, set, replicate, []};
ghost use Rattle.rules.specs.Sizing.{start, visits_of, own, of_value, cap as capped};
ghost use Rattle.tables.specs.Layout.{laid};
ghost use Rattle.tables.specs.Read.{cell, targets_at};
ghost use Rattle.index.specs.Index.{Linked};
ghost use Rattle.schema.specs.Held.{SchemaHeld};
ghost use Rattle.graph.specs.Held.{NodesHeld, PropertiesHeld};
ghost use Rattle.query.specs.Entries.{QueryHeld, entries_at};
ghost use Rattle.world.specs.Told.{world_in};
ghost use Rattle.world.specs.World.{world_at, root_at, EdgesHeld, GraphHeld, WorldHeld, asks_at, asked_at, entry_in, next_at, lookup_at, found_by};
ghost use Rattle.sizing.specs.Measure.{add_to, tallied, measured, row_in, pushed, passed_on, QuerySteps};

use query::{QueryEntry, QueryTable};
use rules::{FieldNo, TypeNo};
use world::{FieldKind, WorldTables};

// ---- the tally

// The size so far, as it is shown, and the visits so far.
#[derive(Clone, Copy)]
pub struct Tally {
    pub size: u32,
    pub visits: u32,
}

// A number as it is shown: exact to 1,000,000, above it 1,000,001.
fn cap(n: u64) -> u32
    ensures { result ≡ capped n }
{
    n.min(1_000_001) as u32
}

// The sum of two numbers as it is shown.
fn plus(x: u64, y: u64) -> u64
    ensures { result ≡ capped (x + y) }
{
    cap(cap(x) as u64 + cap(y) as u64) as u64
}

impl Tally {
    // One visit more, of a multiplicity and its own tokens.
    pub fn add(self, times: u64, tokens: u32) -> Tally
        requires { self.visits < 4294967295 }
        ensures { result ≡ add_to self times tokens }
    {
        Tally {
            size: cap(self.size as u64 + cap(times) as u64 * tokens as u64),
            visits: self.visits + 1,
        }
    }
}

// ---- own tokens

// How many targets an entry has at node u.
fn count_targets(w: &WorldTables, q: &QueryEntry, u: u32) -> u32
    ensures value { result ≡ length (targets_at w.now.nodes.now u (asked_at q.now.area.now q.now.place)) }
    ensures upper_bound { result ≤ 1024 }
{
    let m = w.nodes[1] as usize;
    let mut n: u32 = 0;
    let mut e = world::first_edge(w.nodes, w.index, q, u);
    // a link leads to the next edge: nothing is counted
    while e < m {
        n += 1;
        e = world::edge_after(w.nodes, w.index, q, u, e);
    }
    n
}

// The own tokens of an entry, a scalar field, at node u.
fn value_tokens(w: &WorldTables, q: &QueryEntry, u: u32) -> u32
    ensures { result ≡ of_value (found_by w.now.properties.now w.now.values.now (lookup_at w.now.properties.now u (asked_at q.now.area.now q.now.place))) }
{
    let Some(j) = world::lookup(w.properties, w.index, q, u) else {
        return 2;
    };
    if world::is_sequence(w.properties, j) {
        return 3 + w.value_count(j) as u32;
    }
    2
}

// The own tokens of an entry at node u.
pub fn own_tokens(w: &WorldTables, q: &QueryEntry, u: u32) -> u32
    ensures { result ≡ own (world_in w.now) (asks_at q.now.area.now q.now.place) u }
{
    if q.cell(0) != query::FIELD {
        return 0;
    }
    match w.shape(u, FieldNo(q.cell(4))) {
        FieldKind::Scalar => value_tokens(w, q, u),
        FieldKind::Objects => 3 + 2 * count_targets(w, q, u),
        FieldKind::Object => {
            if world::first_edge(w.nodes, w.index, q, u) < w.nodes[1] as usize {
                3
            } else {
                2
            }
        }
    }
}

// ---- rows

// Zeroes the n numbers from place b on.
fn zero_row(m: &mut [u64], b: usize, n: usize)
    requires { b + n ≤ length m.old }
    ensures { m.new ≡ laid b (replicate n 0) m.old }
{
    m[b..b + n].fill(0);
}

// The number at a place.
fn number_at(m: &[u64], i: usize) -> u64
    requires { i < length m.now }
    ensures { result ≡ get_or m.now i 0 }
{
    m[i]
}

// Adds x, capped, to the number at a place.
fn add_at(m: &mut [u64], i: usize, x: u64)
    requires { i < length m.old }
    ensures { m.new ≡ set m.old i (capped (get_or m.old i 0 + x)) }
{
    m[i] = plus(number_at(m, i), x);
}

// Adds x at the targets of an entry at node u, in the row from place b on.
fn push_targets(w: &WorldTables, q: &QueryEntry, u: u32, x: u64, m: &mut [u64], b: usize)
    requires g_in_bounds { b + cell w.now.nodes.now 0 ≤ length m.old }
    ensures { m.new ≡ pushed b x (targets_at w.now.nodes.now u (asked_at q.now.area.now q.now.place)) m.old }
{
    let n = w.nodes[1] as usize;
    let mut e = world::first_edge(w.nodes, w.index, q, u);
    // a link leads to the next edge: nothing is counted
    while e < n {
        add_at(m, b + w.target(e) as usize, x);
        e = world::edge_after(w.nodes, w.index, q, u, e);
    }
}

// Adds x at the nodes at which the evaluation of an entry at node u goes on, in the row from place b on.
fn pass_on(w: &WorldTables, q: &QueryEntry, u: u32, x: u64, m: &mut [u64], b: usize)
    requires u_bound { u < cell w.now.nodes.now 0 }
    requires g_in_bounds { b + cell w.now.nodes.now 0 ≤ length m.old }
    ensures { m.new ≡ pushed b x (next_at w.now.schema.now w.now.nodes.now q.now.area.now q.now.place u) m.old }
{
    if q.cell(0) != query::FIELD {
        if w.holds(u, TypeNo(q.cell(3))) {
            add_at(m, b + u as usize, x);
        }
        return;
    }
    match w.shape(u, FieldNo(q.cell(4))) {
        FieldKind::Scalar => {}
        FieldKind::Objects => push_targets(w, q, u, x, m, b),
        FieldKind::Object => {
            let e = world::first_edge(w.nodes, w.index, q, u);
            if e < w.nodes[1] as usize {
                add_at(m, b + w.target(e) as usize, x);
            }
        }
    }
}

// Makes the row of an entry's children from place b on, of the entry's own row from place c on.
fn pass_row(w: &WorldTables, q: &QueryEntry, m: &mut [u64], c: usize, b: usize)
    requires g_bound { c + cell w.now.nodes.now 0 ≤ b }
    requires g_in_bounds { b + cell w.now.nodes.now 0 ≤ length m.old }
    ensures { m.new ≡ laid b (passed_on (world_at w.now.schema.now w.now.nodes.now [] []) (asks_at q.now.area.now q.now.place) (row_in m.old c (cell w.now.nodes.now 0))) m.old }
{
    let n = w.nodes[0];
    zero_row(m, b, n as usize);
    for u in 0..n {
        let x = number_at(m, c + u as usize);
        if 0 < x {
            pass_on(w, q, u, x, m, b);
        }
    }
}

// Adds the visits of an entry, whose row stands from place c on, to a tally.
fn tally_row(w: &WorldTables, q: &QueryEntry, m: &[u64], c: usize, t: Tally) -> Tally
    requires g_in_bounds { c + cell w.now.nodes.now 0 ≤ length m.now }
    requires visits_bound { t.visits ≤ 1000000 }
    ensures value { result ≡ tallied (world_in w.now) t (visits_of (entry_in q.now.area.now q.now.place) 0 (row_in m.now c (cell w.now.nodes.now 0))) }
    ensures visits_bound_2 { result.visits ≤ t.visits + cell w.now.nodes.now 0 }
{
    let mut r = t;
    for u in 0..w.nodes[0] {
        let x = number_at(m, c + u as usize);
        if 0 < x {
            r = r.add(x, own_tokens(w, q, u));
        }
    }
    r
}

// The first row: 1 at the query node.
fn first_row(w: &WorldTables, m: &mut [u64])
    requires g_bound { root_at w.now.schema.now w.now.nodes.now < cell w.now.nodes.now 0 }
    requires g_in_bounds { cell w.now.nodes.now 0 ≤ length m.old }
    ensures { m.new ≡ laid 0 (start (world_at w.now.schema.now w.now.nodes.now [] []) (root_at w.now.schema.now w.now.nodes.now)) m.old }
{
    zero_row(m, 0, w.nodes[0] as usize);
    m[w.query_node() as usize] = 1;
}

// The size and the visits of the query that the areas hold. The row of each depth stands at 512 times the depth.
pub fn size_query(w: &WorldTables, q: &QueryTable, m: &mut [u64]) -> Tally
    requires query_steps { QuerySteps q.now.area.now }
    requires g_bound { root_at w.now.schema.now w.now.nodes.now < cell w.now.nodes.now 0 }
    requires in_bounds { 8192 ≤ length m.old }
    ensures { result ≡ measured (world_in w.now) (entries_at q.now.area.now) (root_at w.now.schema.now w.now.nodes.now) }
{
    first_row(w, m);
    let mut t = Tally { size: 0, visits: 0 };
    for k in 0..q.len() {
        let entry = QueryEntry {
            area: q.area,
            place: k,
        };
        let d = entry.cell(2) as usize;
        t = tally_row(w, &entry, m, 512 * d, t);
        if d < 15 {
            pass_row(w, &entry, m, 512 * d, 512 * d + 512);
        }
    }
    t
}

// Zeroes the whole area of the rows, as `tables::clear` does the other areas. A function of its own beside that one: docs/CERTIFY.md names
// both, each with a must-fail edit of its own, and one over any numbers would be given the zero, as std's `fill` is.
pub fn clear_rows(m: &mut [u64])
    ensures { m.new ≡ replicate (length m.old) 0 }
{
    m.fill(0);
}

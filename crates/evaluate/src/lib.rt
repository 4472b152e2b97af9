// Definition 6 over the tables: entry and selection call each other, writing tokens from a position on.
#![tactic(auto)]

ghost use Rattle.std.specs.Prelude.{◌≡◌, ◌≤◌, ◌<◌, [], ◌∷◌, length, get_or};
ghost use Rattle.rules.specs.Eval.{value};
ghost use Rattle.tables.specs.Read.{cell, values_at};
ghost use Rattle.index.specs.Index.{Linked};
ghost use Rattle.query.specs.Entries.{QueryHeld};
ghost use Rattle.world.specs.Told.{world_in};
ghost use Rattle.world.specs.World.{world_at, WorldHeld, asked_at, lookup_at, found_by};
ghost use Rattle.evaluate.specs.Write.{Room, Wrote};
ghost use Rattle.evaluate.specs.Evaluate.{selected, entered, enlisted, braced, QueryLabelled};

use graph::{PropertyRow, PropertyTables};
use query::{QueryEntry, QueryTable};
use rules::{CLOSE_LIST, CLOSE_OBJECT, FieldNo, LABELS, NULL, OPEN_LIST, OPEN_OBJECT, TypeNo};
use world::{FieldKind, WorldTables};

// Writes one token, and says where the next goes. Buffer and place go beside each other, and not into a struct: each function that takes a
// struct with a `&mut` in it would have to promise that it is still the same buffer.
pub fn put(out: &mut [u32], at: usize, x: u32) -> usize
    requires { Room out.old at (x ∷ []) }
    ensures { Wrote out.old at (x ∷ []) out.new result }
{
    out[at] = x;
    at + 1
}

// Writes the values of a property.
pub fn put_values(p: &PropertyRow, out: &mut [u32], at: usize) -> usize
    requires v_len_bound { length p.now.values.now ≤ 8200 }
    requires room { Room out.old at (values_at p.now.area.now p.now.values.now p.now.place) }
    ensures { Wrote out.old at (values_at p.now.area.now p.now.values.now p.now.place) out.new result }
{
    let mut pos = at;
    for i in 0..world::value_count(p) {
        pos = put(out, pos, world::value_at(p, i));
    }
    pos
}

// Writes what an entry, a scalar field, shows behind its label at node u: a value, a sequence, or null.
pub fn put_scalar(
    p: &PropertyTables,
    ix: &[u32],
    q: &QueryEntry,
    u: u32,
    out: &mut [u32],
    at: usize,
) -> usize
    requires v_len_bound { length p.now.values.now ≤ 8200 }
    requires linked { Linked p.now.area.now 8 (cell p.now.area.now 0) ix.now 1536 }
    requires room { Room out.old at (value (found_by p.now.area.now p.now.values.now (lookup_at p.now.area.now u (asked_at q.now.area.now q.now.place)))) }
    ensures { Wrote out.old at (value (found_by p.now.area.now p.now.values.now (lookup_at p.now.area.now u (asked_at q.now.area.now q.now.place)))) out.new result }
{
    let Some(j) = world::lookup(p.area, ix, q, u) else {
        return put(out, at, NULL);
    };
    let property = PropertyRow {
        area: p.area,
        values: p.values,
        place: j,
    };
    if world::is_sequence(p.area, j) {
        let inside = put(out, at, OPEN_LIST);
        let last = put_values(&property, out, inside);
        return put(out, last, CLOSE_LIST);
    }
    put(out, at, first_value(&property))
}

// The first value of a property, 0 where it has none, as the definition of what is shown says.
pub fn first_value(p: &PropertyRow) -> u32
    requires v_len_bound { length p.now.values.now ≤ 8200 }
    ensures { result ≡ get_or (values_at p.now.area.now p.now.values.now p.now.place) 0 0 }
{
    if world::value_count(p) == 0 {
        return 0;
    }
    world::value_at(p, 0)
}

// Writes the response from node u to the entries at depth d from entry i on.
#[cycle(entry_listed_object_selection)]
pub fn selection(
    w: &WorldTables,
    q: &QueryTable,
    i: usize,
    d: u32,
    u: u32,
    out: &mut [u32],
    at: usize,
) -> usize
    requires query_labelled { QueryLabelled q.now.area.now }
    requires room { Room out.old at (selected (world_in w.now) q.now.area.now i d u) }
    ensures { Wrote out.old at (selected (world_in w.now) q.now.area.now i d u) out.new result }
{
    let mut pos = at;
    for k in i..q.len() {
        let next = QueryEntry {
            area: q.area,
            place: k,
        };
        let e = next.cell(2);
        if e < d {
            return pos;
        }
        if e == d {
            pos = entry(w, &next, u, out, pos);
        }
    }
    pos
}

// Writes the response of an entry, with its children, at node u.
#[cycle(entry_listed_object_selection)]
pub fn entry(w: &WorldTables, q: &QueryEntry, u: u32, out: &mut [u32], at: usize) -> usize
    requires query_labelled { QueryLabelled q.now.area.now }
    requires room { Room out.old at (entered (world_in w.now) q.now.area.now q.now.place u) }
    ensures { Wrote out.old at (entered (world_in w.now) q.now.area.now q.now.place u) out.new result }
{
    if q.cell(0) != query::FIELD {
        if w.holds(u, TypeNo(q.cell(3))) {
            let table = QueryTable { area: q.area };
            return selection(w, &table, q.place + 1, q.cell(2) + 1, u, out, at);
        }
        return at;
    }
    let after = put(out, at, LABELS + q.cell(3));
    match w.shape(u, FieldNo(q.cell(4))) {
        FieldKind::Scalar => {
            let properties = PropertyTables {
                area: w.properties,
                values: w.values,
            };
            put_scalar(&properties, w.index, q, u, out, after)
        }
        FieldKind::Objects => listed(w, q, u, out, after),
        FieldKind::Object => {
            let e = world::first_edge(w.nodes, w.index, q, u);
            if e < w.nodes[1] as usize {
                object(w, q, w.target(e), out, after)
            } else {
                put(out, after, NULL)
            }
        }
    }
}

// Writes the objects of an entry, a list field, at node u, in their brackets.
#[cycle(entry_listed_object_selection)]
fn listed(w: &WorldTables, q: &QueryEntry, u: u32, out: &mut [u32], at: usize) -> usize
    requires query_labelled { QueryLabelled q.now.area.now }
    requires room { Room out.old at (enlisted (world_in w.now) q.now.area.now q.now.place u) }
    ensures { Wrote out.old at (enlisted (world_in w.now) q.now.area.now q.now.place u) out.new result }
{
    let n = w.nodes[1] as usize;
    let mut pos = put(out, at, OPEN_LIST);
    let mut e = world::first_edge(w.nodes, w.index, q, u);
    // a link leads to the next edge: nothing is counted
    while e < n {
        pos = object(w, q, w.target(e), out, pos);
        e = world::edge_after(w.nodes, w.index, q, u, e);
    }
    put(out, pos, CLOSE_LIST)
}

// Writes the object that an entry gives at the target x.
#[cycle(entry_listed_object_selection)]
fn object(w: &WorldTables, q: &QueryEntry, x: u32, out: &mut [u32], at: usize) -> usize
    requires query_labelled { QueryLabelled q.now.area.now }
    requires room { Room out.old at (braced (world_in w.now) q.now.area.now q.now.place x) }
    ensures { Wrote out.old at (braced (world_in w.now) q.now.area.now q.now.place x) out.new result }
{
    let inside = put(out, at, OPEN_OBJECT);
    let table = QueryTable { area: q.area };
    let last = selection(w, &table, q.place + 1, q.cell(2) + 1, x, out, inside);
    put(out, last, CLOSE_OBJECT)
}

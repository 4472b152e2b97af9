// What graph areas say, asked by number, and what checks 22 to 26 say of one row.
#![tactic(auto, unfolding(tables::specs::Read::cell, tables::specs::Read::wide_at, crate::specs::Faults::nodes_at))]

ghost use Rattle.std.specs.Prelude.{◌≡◌, ◌+◌, ◌*◌, ◌-◌, ◌≤◌, ◌<◌, ◌||◌, length, get_or, eqb};
ghost use Rattle.rules.specs.Graph.{same_label};
ghost use Rattle.tables.specs.Read.{cell, wide_at, named_at, starts_at, values_at};
ghost use Rattle.masks.specs.Masks.{Masked};
ghost use Rattle.schema.specs.Stated.{stated};
ghost use Rattle.graph.specs.Faults.{nodes_at, label_is, label_for, undeclared, untaken, outside, fault22, fault23, fault24_e, fault24_p, diverts_at, twin_edge, twin_property};

pub mod held; // held.rt: the areas that hold a graph
pub mod label; // label.rt: a label, and the row of a graph that has one

pub use held::{NodeTables, PropertyRow, PropertyTables};
pub use label::{GraphRow, Named};
use rules::{ArgNo, FieldNo, TypeNo};
use schema::SchemaTables;

// Cell k of row j of a wide table.
pub fn wide_at(a: &[u32], base: usize, j: usize, k: usize) -> u32
    requires k_in_bounds { base + 14 * j + k < length a.now }
    requires base_bound { base ≤ 10000 }
    requires j_bound { j ≤ 1024 }
    requires k_bound { k < 14 }
    ensures { result ≡ wide_at a.now base j k }
{
    tables::row_cell(a, base, 14, j, k)
}

impl<'a> NodeTables<'a> {
    // The type of node u.
    pub fn type_of(&self, u: u32) -> TypeNo
        ensures { result ≡ (nodes_at self.now.area.now).type_of u }
    {
        TypeNo(schema::narrow_at(self.area, 0, 8, u, 1))
    }
}

// The label of row j of a wide table, whose field stands in cell c: 3 of an edge or a property, 4 of an entry of a query.
#[tactic(auto, using(crate::proofs::Copying::table_label))]
pub fn named_at(a: &[u32], base: usize, j: usize, c: usize) -> Named
    requires j_in_bounds { base + 14 * j + 14 ≤ length a.now }
    requires base_bound { base ≤ 10000 }
    requires j_bound { j ≤ 1024 }
    requires c_bound { c < 14 }
    requires j_bound_2 { wide_at a.now base j 5 ≤ 4 }
    ensures { label_is result ≡ named_at a.now base j c }
{
    let mut pairs = [0u32; 8];
    let first = base + 14 * j + 6;
    pairs.copy_from_slice(&a[first..first + 8]);
    Named {
        field: FieldNo(wide_at(a, base, j, c)),
        n: wide_at(a, base, j, 5),
        pairs,
    }
}

// The label of a row that was read. Apart from `named_at`: the row stands in an array of its own, and not in an area.
#[tactic(auto, using(crate::proofs::Copying::row_label))]
fn label_of(r: GraphRow) -> Named
    ensures { label_is result ≡ label_for r.nums }
{
    let mut pairs = [0u32; 8];
    pairs.copy_from_slice(&r.nums[4..12]);
    Named {
        field: FieldNo(r.nums[1]),
        n: r.nums[3],
        pairs,
    }
}

// Whether two labels are equal: field and pairs. Not derived: what stands behind the pairs that count does not matter.
#[tactic(auto, using(crate::proofs::Copying::comparing))]
pub fn same_label(x: Named, y: Named) -> bool
    ensures { result ≡ same_label (label_is x) (label_is y) }
{
    let end = 2 * (x.n as usize);
    x.field == y.field && x.n == y.n && x.pairs[..end] == y.pairs[..end]
}

// Whether row j of a wide table is of node u and has a label.
#[tactic(auto, using(crate::proofs::Copying::starting))]
fn starts_at(a: &[u32], base: usize, u: u32, l: Named, j: usize) -> bool
    requires j_in_bounds { base + 14 * j + 14 ≤ length a.now }
    requires base_bound { base ≤ 10000 }
    requires j_bound { j ≤ 1024 }
    requires j_bound_2 { wide_at a.now base j 5 ≤ 4 }
    ensures { result ≡ starts_at a.now base u (label_is l) j }
{
    wide_at(a, base, j, 2) == u && same_label(named_at(a, base, j, 3), l)
}

// ---- the checks of one row

// The first argument number of a row that is not declared. Apart from `query::args_fault`, which reads the cells of an entry.
#[tactic(auto, using(crate::proofs::Turning::declaring))]
fn args_declared(a: &SchemaTables, r: GraphRow) -> Option<u32>
    ensures { result ≡ undeclared a.now.area.now r.nums }
{
    for i in 0..r.nums[3] as usize {
        if !a.declared_arg(ArgNo(r.nums[4 + 2 * i])) {
            return Some((6 + 2 * i) as u32);
        }
    }
    None
}

// Whether a row with the letter l is an edge or a property.
fn is_datum(l: u8) -> bool
    ensures { result ≡ (eqb l 69 || eqb l 80) }
{
    matches!(l, b'E' | b'P')
}

// Check 22 of a row with the letter l.
#[tactic(auto, using(crate::proofs::Judging::judging_22))]
pub fn check_22(a: &SchemaTables, g: &NodeTables, l: u8, r: GraphRow) -> Option<u32>
    ensures { result ≡ fault22 a.now.area.now g.now.area.now l r.nums }
{
    if l == b'N' {
        if a.is_object(TypeNo(r.nums[0])) {
            return None;
        }
        return Some(2);
    }
    if !is_datum(l) {
        return None;
    }
    if g.area[0] <= r.nums[0] {
        return Some(2);
    }
    if !a.declared_field(FieldNo(r.nums[1])) {
        return Some(3);
    }
    if l == b'E' && g.area[0] <= r.nums[2] {
        return Some(4);
    }
    args_declared(a, r)
}

// The first argument number of a row that is not the field's, or the first argument value out of its scalar's range.
#[tactic(auto, using(crate::proofs::Turning::taking))]
fn args_taken(a: &SchemaTables, f: FieldNo, r: GraphRow) -> Option<u32>
    ensures { result ≡ untaken a.now.area.now f r.nums }
{
    for i in 0..r.nums[3] as usize {
        let x = ArgNo(r.nums[4 + 2 * i]);
        if !a.takes_arg(f, x) {
            return Some((6 + 2 * i) as u32);
        }
        if !a.in_range(a.arg_type(x), r.nums[5 + 2 * i]) {
            return Some((7 + 2 * i) as u32);
        }
    }
    None
}

// Check 23 of a row with the letter l.
#[tactic(auto, using(crate::proofs::Judging::judging_23))]
pub fn check_23(a: &SchemaTables, g: &NodeTables, l: u8, r: GraphRow) -> Option<u32>
    ensures { result ≡ fault23 a.now.area.now g.now.area.now l r.nums }
{
    if !is_datum(l) {
        return None;
    }
    let f = FieldNo(r.nums[1]);
    if !a.has_field(g.type_of(r.nums[0]), f) {
        return Some(3);
    }
    args_taken(a, f, r)
}

// Check 24 of an edge.
#[tactic(auto, using(crate::proofs::Judging::judging_24))]
pub fn check_24_edge(a: &SchemaTables, g: &NodeTables, nums: [u32; 12]) -> Option<u32>
    requires masked { Masked a.now.area.now }
    ensures { result ≡ fault24_e a.now.area.now g.now.area.now nums }
{
    let t = a.field_type(g.type_of(nums[0]), FieldNo(nums[1]));
    if a.is_scalar(t) {
        return Some(3);
    }
    if schema::is_compatible(a.area, g.type_of(nums[2]), t) {
        return None;
    }
    Some(4)
}

// The first of the values of a property that is out of the range of t, the first value standing in field `from`.
#[tactic(auto, using(crate::proofs::Turning::valuing))]
fn values_fault(a: &SchemaTables, p: &PropertyRow, t: TypeNo, from: u32) -> Option<u32>
    requires le_from { 1 ≤ from }
    requires from_bound { from ≤ 14 }
    requires v_len_bound { length p.now.values.now ≤ 16384 }
    ensures { result ≡ outside a.now.area.now t from (values_at p.now.area.now p.now.values.now p.now.place) }
{
    let start = 8 + wide_at(p.area, 8, p.place, 0) as usize;
    let front = 4 + 2 * (wide_at(p.area, 8, p.place, 5) as usize);
    let all = wide_at(p.area, 8, p.place, 1) as usize;
    for i in front..all {
        if !a.in_range(t, p.values[start + (i - front)]) {
            return Some(from + ((i - front) as u32));
        }
    }
    None
}

// Check 24 of a property, whose row is r.
#[tactic(auto, using(crate::proofs::Judging::judging_24))]
pub fn check_24_property(
    a: &SchemaTables,
    g: &NodeTables,
    p: &PropertyRow,
    r: GraphRow,
) -> Option<u32>
    requires v_len_bound { length p.now.values.now ≤ 16384 }
    ensures { result ≡ fault24_p a.now.area.now g.now.area.now r.nums (values_at p.now.area.now p.now.values.now p.now.place) }
{
    let owner = g.type_of(r.nums[0]);
    let f = FieldNo(r.nums[1]);
    let t = a.field_type(owner, f);
    if !a.is_scalar(t) {
        return Some(3);
    }
    if r.nums[2] != a.list_mark(owner, f) {
        return Some(4);
    }
    values_fault(a, p, t, 6 + 2 * r.nums[3])
}

// Check 25: edge j is of the row's node and field and leads to another target.
#[tactic(auto, using(crate::proofs::Copying::edges))]
pub fn diverts_at(g: &NodeTables, nums: [u32; 12], j: usize) -> bool
    requires j_bound { j < cell g.now.area.now 1 }
    ensures { result ≡ diverts_at g.now.area.now nums j }
{
    wide_at(g.area, 1544, j, 2) == nums[0]
        && wide_at(g.area, 1544, j, 3) == nums[1]
        && wide_at(g.area, 1544, j, 4) != nums[2]
}

// Check 26: edge j has the row's node, label and target.
#[tactic(auto, using(crate::proofs::Copying::edges))]
pub fn twin_edge(g: &NodeTables, r: GraphRow, j: usize) -> bool
    requires j_bound { j < cell g.now.area.now 1 }
    ensures { result ≡ twin_edge g.now.area.now r.nums j }
{
    wide_at(g.area, 1544, j, 4) == r.nums[2] && starts_at(g.area, 1544, r.nums[0], label_of(r), j)
}

// Check 26: a property has the row's node and label.
#[tactic(auto, using(crate::proofs::Copying::property_asked))]
pub fn twin_property(p: &PropertyRow, r: GraphRow) -> bool
    ensures { result ≡ twin_property p.now.area.now r.nums p.now.place }
{
    starts_at(p.area, 8, r.nums[0], label_of(r), p.place)
}

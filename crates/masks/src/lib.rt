// The masks of a schema, behind the links in its area: for each type one number of 64 bits, in which bit o is set where o is an object
// type that is compatible with it.
#![tactic(auto)]

ghost use Rattle.std.specs.Prelude.{◌≡◌, ◌≤◌, ◌<◌, length};
ghost use Rattle.tables.specs.Read.{cell, schema_at};
ghost use Rattle.masks.specs.Masks.{member_of, members_of, schema_needed, cell_size, masked, mask_at, Masked};
ghost use Rattle.masks.specs.Join.{type_count, member_count, joined, object_joined, member_joined, objects_joined, members_joined, Joinable, Maskable};

use rules::TypeNo;

// Where the masks stand in the schema's area, and where they end: its needed length.
pub const MASKS: usize = 14600;

pub const SCHEMA_NEEDED: usize = 14728;

// Where the count of the types and that of the `M` records stand in it, and where their rows begin.
const TYPE_COUNT: usize = 0;

const MEMBER_COUNT: usize = 5;

const TYPE_ROWS: usize = 8;

const MEMBER_ROWS: usize = 6920;

// How many numbers a cell can hold: half of a mask.
const CELL_SIZE: u64 = 4294967296;

// ---- asking

// Half of a mask, which stands at place i.
#[tactic(auto, unfolding(tables::specs::Read::cell))]
fn half_at(a: &[u32], i: usize) -> u64
    requires { i < length a.now }
    ensures value { result ≡ cell a.now i }
    ensures upper_bound { result < cell_size }
{
    a[i] as u64
}

// The mask of type t as one number, 0 where t cannot be a type's number.
#[tactic(auto, using(crate::proofs::Reading::reading_laws))]
fn mask_of(a: &[u32], t: TypeNo) -> u64
    requires { schema_needed ≤ length a.now }
    ensures { result ≡ mask_at a.now t.0 }
{
    if 64 <= t.0 {
        return 0;
    }
    let at = MASKS + 2 * (t.0 as usize);
    let low = half_at(a, at);
    let high = half_at(a, at + 1);
    low + CELL_SIZE * high
}

// The object types that are compatible with t, as the bits of one number.
#[tactic(auto, using(crate::proofs::Reading::reading_laws), unfolding(crate::specs::Masks::Masked))]
pub fn members(a: &[u32], t: TypeNo) -> u64
    requires { Masked a.now }
    ensures { result ≡ members_of (schema_at a.now) t }
{
    mask_of(a, t)
}

// ---- laying

// Sets bit o of the mask of type t.
#[tactic(auto, using(crate::proofs::Joining::join_laws))]
fn join(a: &mut [u32], t: TypeNo, o: TypeNo)
    requires schema_needed_in_bounds { schema_needed ≤ length a.old }
    requires t_bound { t.0 < 64 }
    requires o_bound { o.0 < 64 }
    ensures { a.new ≡ joined a.old t.0 o.0 }
{
    let m = bits::with_bit(mask_of(a, t), o.0);
    let at = MASKS + 2 * (t.0 as usize);
    a[at] = (m % CELL_SIZE) as u32;
    a[at + 1] = (m / CELL_SIZE) as u32;
}

// Joins type t to itself where it is an object type.
#[tactic(auto, using(crate::proofs::Joining::join_laws))]
fn join_object(a: &mut [u32], t: TypeNo)
    requires schema_needed_in_bounds { schema_needed ≤ length a.old }
    requires t_bound { t.0 < 64 }
    ensures { a.new ≡ object_joined a.old t.0 }
{
    if tables::row_cell(a, TYPE_ROWS, 3, t.0 as usize, 0) != b'O' as u32 {
        return;
    }
    join(a, t, t);
}

// Joins each object type to itself.
#[tactic(auto, using(crate::proofs::Joining::turn_laws), unfolding(tables::specs::Read::cell, crate::specs::Join::joined_by))]
fn join_objects(a: &mut [u32])
    requires schema_needed_in_bounds { schema_needed ≤ length a.old }
    requires type_count_bound { cell a.old type_count ≤ 64 }
    ensures { a.new ≡ objects_joined a.old (cell a.old type_count) }
{
    for t in 0..a[TYPE_COUNT] {
        join_object(a, TypeNo(t));
    }
}

// Joins the object of `M` record j to its type.
#[tactic(auto, unfolding(crate::specs::Join::member_joined))]
fn join_member(a: &mut [u32], j: usize)
    requires joinable { Joinable a.old }
    requires j_bound { j < cell a.old member_count }
    ensures { a.new ≡ member_joined a.old j }
{
    let t = tables::row_cell(a, MEMBER_ROWS, 3, j, 1);
    let o = tables::row_cell(a, MEMBER_ROWS, 3, j, 2);
    join(a, TypeNo(t), TypeNo(o));
}

// Joins the object of each `M` record to its type.
#[tactic(auto, using(crate::proofs::Joining::turn_laws), unfolding(tables::specs::Read::cell, crate::specs::Join::joined_by))]
fn join_members(a: &mut [u32])
    requires { Joinable a.old }
    ensures { a.new ≡ members_joined a.old (cell a.old member_count) }
{
    for j in 0..a[MEMBER_COUNT] as usize {
        join_member(a, j);
    }
}

// Lays the masks of an accepted schema behind its tables and links.
#[tactic(auto, using(crate::proofs::Joining::whole_laws))]
pub fn lay_masks(a: &mut [u32])
    requires { Maskable a.old }
    ensures { a.new ≡ masked (member_of (schema_at a.old)) a.old }
{
    join_objects(a);
    join_members(a);
}

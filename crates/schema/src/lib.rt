// What a schema area says, asked by number, and what checks 12, 14 and 15 say of one row.
#![tactic(auto, unfolding(tables::specs::Read::schema_at, tables::specs::Read::cell, tables::specs::Read::pair_at, tables::specs::Read::narrow_at, crate::specs::Held::Bucketed))]

ghost use Rattle.std.specs.Prelude.{◌≡◌, ◌+◌, ◌*◌, ◌≤◌, ◌<◌, length};
ghost use Rattle.rules.specs.Search.{fault_if, worse};
ghost use Rattle.rules.specs.Schema.{kind, field_type, list_mark, has_field, takes_arg, declared_type, declared_field, declared_arg, arg_type, query_type, is_scalar, is_object, owns_fields, has_members, in_range, compatible};
ghost use Rattle.tables.specs.Read.{cell, narrow_at, pair_at, pair_in, first_in, schema_at};
ghost use Rattle.index.specs.Index.{Chained};
ghost use Rattle.index.specs.Buckets.{bucket_at};
ghost use Rattle.masks.specs.Masks.{Masked};
ghost use Rattle.schema.specs.Held.{SchemaHeld};
ghost use Rattle.schema.specs.Stated.{stated};
ghost use Rattle.schema.specs.Faults.{fault12, fault14, fault15, lacks};

pub mod held; // held.rt: an area that holds a schema

pub use held::SchemaTables;
use rules::{ArgNo, FieldNo, TypeNo};

// The letters of the types, as an area holds them: what is lent holds numbers, and so a letter as one.
const SCALAR: u32 = b'S' as u32;

const OBJECT: u32 = b'O' as u32;

const INTERFACE: u32 = b'I' as u32;

const UNION: u32 = b'U' as u32;

// Cell k of row j of a narrow table whose count stands at `head`: 0 where there is no such row, as the definition of the same name says.
pub fn narrow_at(a: &[u32], head: usize, base: usize, j: u32, k: usize) -> u32
    requires head_in_bounds { head < length a.now }
    requires head_in_bounds_2 { base + 3 * cell a.now head ≤ length a.now }
    requires base_bound { base ≤ 10000 }
    requires k_bound { k < 3 }
    ensures { result ≡ narrow_at a.now head base j k }
{
    if j < a[head] {
        return tables::row_cell(a, base, 3, j as usize, k);
    }
    0
}

// Whether row j of a narrow table has the numbers x and y.
pub fn pair_at(a: &[u32], base: usize, x: u32, y: u32, j: usize) -> bool
    requires j_in_bounds { base + 3 * j + 2 < length a.now }
    requires base_bound { base ≤ 10000 }
    requires j_bound { j ≤ 1024 }
    ensures { result ≡ pair_at a.now base x y j }
{
    tables::row_cell(a, base, 3, j, 1) == x && tables::row_cell(a, base, 3, j, 2) == y
}

// Whether one of the first n rows of a narrow table has the numbers x and y, looked for along the chain of x; the links stand from `at` on.
fn pair_along(a: &[u32], base: usize, at: usize, n: u32, x: u32, y: u32) -> bool
    requires n_in_bounds { base + 3 * n ≤ length a.now }
    requires base_bound { base ≤ 10000 }
    requires chained { Chained (bucket_at a.now base) n a.now at }
    ensures { result ≡ pair_in a.now base n x y }
{
    let end = n as usize;
    let mut j = index::first_row(a, at, end, x % 512);
    // a while, and no for: a link leads to the next row
    while j < end {
        if pair_at(a, base, x, y, j) {
            return true;
        }
        j = index::next_row(a, at, end, j);
    }
    false
}

// Whether one of the first n rows of a narrow table has the first number x.
#[tactic(auto, using(crate::proofs::Searching::first_laws))]
fn first_in(a: &[u32], base: usize, n: u32, x: u32) -> bool
    requires n_in_bounds { base + 3 * n ≤ length a.now }
    requires base_bound { base ≤ 10000 }
    requires n_bound { n ≤ 1024 }
    ensures { result ≡ first_in a.now base n x }
{
    for j in 0..n as usize {
        if tables::row_cell(a, base, 3, j, 1) == x {
            return true;
        }
    }
    false
}

// ---- kinds of types

impl<'a> SchemaTables<'a> {
    // The letter of type t, 0 where there is no such type: a row of the area, in which letters are numbers.
    fn kind_of(&self, t: TypeNo) -> u32
        ensures { result ≡ kind (stated self.now) t }
    {
        narrow_at(self.area, 0, 8, t.0, 0)
    }

    // Whether t is a type.
    pub fn is_declared(&self, t: TypeNo) -> bool
        ensures { result ≡ declared_type (stated self.now) t }
    {
        matches!(self.kind_of(t), SCALAR | OBJECT | INTERFACE | UNION)
    }

    // Whether t is a scalar type.
    pub fn is_scalar(&self, t: TypeNo) -> bool
        ensures { result ≡ is_scalar (stated self.now) t }
    {
        self.kind_of(t) == SCALAR
    }

    // Whether t is an object type.
    pub fn is_object(&self, t: TypeNo) -> bool
        ensures { result ≡ is_object (stated self.now) t }
    {
        self.kind_of(t) == OBJECT
    }

    // Whether t can have fields: an object type or an interface.
    pub fn owns_fields(&self, t: TypeNo) -> bool
        ensures { result ≡ owns_fields (stated self.now) t }
    {
        matches!(self.kind_of(t), OBJECT | INTERFACE)
    }

    // Whether t can have members: a union or an interface.
    fn has_members(&self, t: TypeNo) -> bool
        ensures { result ≡ has_members (stated self.now) t }
    {
        matches!(self.kind_of(t), UNION | INTERFACE)
    }

    // Whether x is a value of the scalar type t.
    pub fn in_range(&self, t: TypeNo, x: u32) -> bool
        ensures { result ≡ in_range (stated self.now) t x }
    {
        narrow_at(self.area, 0, 8, t.0, 1) <= x && x <= narrow_at(self.area, 0, 8, t.0, 2)
    }

    // ---- fields, arguments, members

    // Whether f is a field.
    pub fn declared_field(&self, f: FieldNo) -> bool
        ensures { result ≡ declared_field (stated self.now) f }
    {
        f.0 < self.area[1]
    }

    // The type of field f, which is the same for every owner.
    pub fn field_type(&self, owner: TypeNo, f: FieldNo) -> TypeNo
        ensures { result ≡ field_type (stated self.now) owner f }
    {
        TypeNo(narrow_at(self.area, 1, 200, f.0, 1))
    }

    // The list mark of field f, which is the same for every owner. A number and no `bool`: the text writes it so, and check 24 holds a
    // property's mark against it.
    pub fn list_mark(&self, owner: TypeNo, f: FieldNo) -> u32
        ensures { result ≡ list_mark (stated self.now) owner f }
    {
        narrow_at(self.area, 1, 200, f.0, 2)
    }

    // Whether x is an argument.
    pub fn declared_arg(&self, x: ArgNo) -> bool
        ensures { result ≡ declared_arg (stated self.now) x }
    {
        x.0 < self.area[2]
    }

    // The type of argument x.
    pub fn arg_type(&self, x: ArgNo) -> TypeNo
        ensures { result ≡ arg_type (stated self.now) x }
    {
        TypeNo(narrow_at(self.area, 2, 584, x.0, 1))
    }

    // Whether t has the field f (H).
    pub fn has_field(&self, t: TypeNo, f: FieldNo) -> bool
        ensures { result ≡ has_field (stated self.now) t f }
    {
        pair_along(self.area, 776, index::HAS_LINKS, self.area[3], t.0, f.0)
    }

    // Whether field f takes the argument x (G).
    pub fn takes_arg(&self, f: FieldNo, x: ArgNo) -> bool
        ensures { result ≡ takes_arg (stated self.now) f x }
    {
        pair_along(self.area, 3848, index::TAKES_LINKS, self.area[4], f.0, x.0)
    }
}

// Whether the object type o is compatible with t: it is t, or its bit is set in the mask of t.
#[tactic(auto, using(crate::proofs::Compatible::bit_compatible))]
pub fn is_compatible(a: &[u32], o: TypeNo, t: TypeNo) -> bool
    requires { Masked a.now }
    ensures { result ≡ compatible (schema_at a.now) o t }
{
    o == t || bits::has_bit(masks::members(a, t), o.0)
}

impl<'a> SchemaTables<'a> {
    // The type of the query node (Q).
    pub fn query_type(&self) -> TypeNo
        ensures { result ≡ query_type (stated self.now) }
    {
        TypeNo(self.area[7])
    }

    // Whether a field of t is missing from o: the fields of t stand along its chain.
    #[tactic(auto, using(crate::proofs::Searching::lacks_laws), unfolding(tables::specs::Read::cell, crate::specs::Held::Bucketed))]
    fn lacks_field(&self, t: TypeNo, o: TypeNo) -> bool
        ensures { result ≡ lacks self.now.area.now t o }
    {
        let end = self.area[3] as usize;
        let mut j = index::first_row(self.area, index::HAS_LINKS, end, t.0 % 512);
        // a while, and no for: a link leads to the next row
        while j < end {
            if tables::row_cell(self.area, 776, 3, j, 1) == t.0
                && !self.has_field(o, FieldNo(tables::row_cell(self.area, 776, 3, j, 2)))
            {
                return true;
            }
            j = index::next_row(self.area, index::HAS_LINKS, end, j);
        }
        false
    }

    // ---- the checks of one row
}

// A fault in a field, where a test of it is broken.
fn fails(broken: bool, field: u32) -> Option<u32>
    ensures { result ≡ fault_if broken field }
{
    broken.then_some(field)
}

// A fault in the first of the fields 2 and 3 whose test is broken.
fn first_of(second_broken: bool, third_broken: bool) -> Option<u32>
    ensures { result ≡ worse (fault_if second_broken 2) (fault_if third_broken 3) }
{
    if second_broken {
        Some(2)
    } else {
        fails(third_broken, 3)
    }
}

impl<'a> SchemaTables<'a> {
    // Check 12 of a row with the letter l and the first numbers x and y.
    #[tactic(auto, using(crate::proofs::Checks::letter_laws))]
    pub fn check_12(&self, l: u8, x: u32, y: u32) -> Option<u32>
        ensures { result ≡ fault12 self.now.area.now l x y }
    {
        match l {
            b'S' => fails(y < x, 3),
            b'F' => fails(!self.is_declared(TypeNo(x)), 2),
            b'A' => fails(!self.is_scalar(TypeNo(x)), 2),
            b'Q' => fails(!self.is_object(TypeNo(x)), 2),
            b'H' => first_of(
                !self.owns_fields(TypeNo(x)),
                !self.declared_field(FieldNo(y)),
            ),
            b'G' => first_of(
                !self.declared_field(FieldNo(x)),
                !self.declared_arg(ArgNo(y)),
            ),
            b'M' => first_of(!self.has_members(TypeNo(x)), !self.is_object(TypeNo(y))),
            _ => None,
        }
    }

    // Check 14 of a row with the letter l and the first numbers x and y.
    #[tactic(auto, using(crate::proofs::Checks::interface_laws))]
    pub fn check_14(&self, l: u8, x: u32, y: u32) -> Option<u32>
        ensures { result ≡ fault14 self.now.area.now l x y }
    {
        fails(l == b'M' && self.lacks_field(TypeNo(x), TypeNo(y)), 0)
    }

    // Check 15 of a row with the letter l before which n types stand.
    #[tactic(auto, using(crate::proofs::Checks::union_laws), unfolding(tables::specs::Read::cell))]
    pub fn check_15(&self, l: u8, n: u32) -> Option<u32>
        ensures { result ≡ fault15 self.now.area.now l n }
    {
        fails(l == b'U' && !first_in(self.area, 6920, self.area[5], n), 0)
    }
}

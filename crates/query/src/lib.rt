// What a query area says, and checks 32 to 34 over its entries.
#![tactic(auto)]

ghost use Rattle.std.specs.Prelude.{◌≡◌, ◌+◌, ◌*◌, ◌≤◌, ◌<◌, length, eqb};
ghost use Rattle.rules.specs.Search.{first_line};
ghost use Rattle.rules.specs.Query.{has_child, hands_down};
ghost use Rattle.tables.specs.Read.{cell, wide_at, schema_at};
ghost use Rattle.schema.specs.Stated.{stated};
ghost use Rattle.query.specs.Entries.{entry_at, entries_at, behind};
ghost use Rattle.query.specs.Faults.{fault32, fault33, fault34, fault_for, arg_passes, args_fault, entry_number, entry_check, put_from, check_for};

pub mod held; // held.rt: an area that holds a query

pub use held::{QueryEntry, QueryTable};
use rules::{ArgNo, FieldNo, Spot, TypeNo};
use schema::SchemaTables;

// The checks of the entries of a query: that the depths go by steps and each condition has a child, that the numbers are declared, and that
// the query is valid by Definition 4.
#[derive(Clone, Copy, PartialEq, Eq)]
pub enum EntryCheck {
    Depths,
    Numbers,
    Validity,
}

impl EntryCheck {
    // The check's number.
    pub fn number(self) -> u32
        ensures { result ≡ entry_number self }
    {
        match self {
            EntryCheck::Depths => 32,
            EntryCheck::Numbers => 33,
            EntryCheck::Validity => 34,
        }
    }
}

impl From<u32> for EntryCheck {
    ghost from_gives = { λ n check. check ≡ entry_check n };

    // The check that a number means, for who holds the number; any other number is taken for 34.
    fn from(number: u32) -> EntryCheck {
        match number {
            32 => EntryCheck::Depths,
            33 => EntryCheck::Numbers,
            _ => EntryCheck::Validity,
        }
    }
}

// The letters of a query's records, as an area holds them: what is lent holds numbers, and so a letter as one.
pub const FIELD: u32 = b'F' as u32;

pub const CONDITION: u32 = b'T' as u32;

impl<'a> QueryTable<'a> {
    // How many entries the query has.
    #[tactic(auto, unfolding(tables::specs::Read::cell))]
    pub fn len(&self) -> usize
        ensures { result ≡ cell self.now.area.now 0 }
    {
        self.area[0] as usize
    }

    // Whether it has none.
    pub fn is_empty(&self) -> bool
        ensures { result ≡ eqb (cell self.now.area.now 0) 0 }
    {
        self.len() == 0
    }
}

impl<'a> QueryEntry<'a> {
    // Cell c of the entry: the letter at 0, number i at i + 2.
    pub fn cell(&self, c: usize) -> u32
        requires c_bound { c < 14 }
        ensures { result ≡ wide_at self.now.area.now 8 self.now.place c }
    {
        tables::row_cell(self.area, 8, 14, self.place, c)
    }

    // Whether the entry has a child: a line one deeper before the next line that is no deeper.
    fn has_child(&self) -> bool
        ensures { result ≡ has_child (entry_at self.now.area.now self.now.place) (behind self.now.area.now self.now.place) }
    {
        let d = self.cell(2);
        let table = QueryTable { area: self.area };
        for j in self.place + 1..table.len() {
            let later = QueryEntry {
                area: self.area,
                place: j,
            };
            let e = later.cell(2);
            if e <= d {
                return false;
            }
            if e == d + 1 {
                return true;
            }
        }
        false
    }
}

// The context that an entry, itself in the context c, hands down to its children.
fn hands_down(a: &SchemaTables, c: TypeNo, q: &QueryEntry) -> TypeNo
    ensures { result ≡ hands_down (stated a.now) c (entry_at q.now.area.now q.now.place) }
{
    if q.cell(0) == FIELD {
        return a.field_type(c, FieldNo(q.cell(4)));
    }
    TypeNo(q.cell(3))
}

// Check 32 of an entry, which may be at most d deep.
fn check_32(q: &QueryEntry, d: u32) -> Option<u32>
    ensures { result ≡ fault32 q.now.area.now q.now.place d }
{
    if d < q.cell(2) {
        return Some(2);
    }
    if q.cell(0) == CONDITION && !q.has_child() {
        return Some(0);
    }
    None
}

// Whether an argument passes a check, as one of field f: one asks that it is declared, another that the field takes it.
fn arg_passes(check: EntryCheck, a: &SchemaTables, f: FieldNo, x: ArgNo) -> bool
    ensures { result ≡ arg_passes check (stated a.now) f x }
{
    match check {
        EntryCheck::Numbers => a.declared_arg(x),
        _ => a.takes_arg(f, x),
    }
}

// The first argument number of an entry that does not pass a check, as one of field f.
fn args_fault(check: EntryCheck, a: &SchemaTables, q: &QueryEntry, f: FieldNo) -> Option<u32>
    ensures { result ≡ args_fault check a.now.area.now q.now.area.now q.now.place f }
{
    for i in 0..q.cell(5) as usize {
        if !arg_passes(check, a, f, ArgNo(q.cell(6 + 2 * i))) {
            return Some((6 + 2 * i) as u32);
        }
    }
    None
}

// Check 33 of an entry.
fn check_33(a: &SchemaTables, q: &QueryEntry) -> Option<u32>
    ensures { result ≡ fault33 a.now.area.now q.now.area.now q.now.place }
{
    let l = q.cell(0);
    if l == CONDITION {
        if a.is_declared(TypeNo(q.cell(3))) {
            return None;
        }
        return Some(3);
    }
    if l != FIELD {
        return None;
    }
    if 255 < q.cell(3) {
        return Some(3);
    }
    let f = FieldNo(q.cell(4));
    if !a.declared_field(f) {
        return Some(4);
    }
    args_fault(EntryCheck::Numbers, a, q, f)
}

// Check 34 of an entry, a field in the context c.
fn check_34_field(a: &SchemaTables, q: &QueryEntry, c: TypeNo) -> Option<u32>
    requires k_value { wide_at q.now.area.now 8 q.now.place 0 ≡ 70 }
    ensures { result ≡ fault34 a.now.area.now q.now.area.now q.now.place c }
{
    let f = FieldNo(q.cell(4));
    if !a.owns_fields(c) {
        return Some(4);
    }
    if !a.has_field(c, f) {
        return Some(4);
    }
    let args = args_fault(EntryCheck::Validity, a, q, f);
    if args.is_some() {
        return args;
    }
    let leaf = a.is_scalar(a.field_type(c, f));
    if leaf == q.has_child() {
        return Some(0);
    }
    None
}

// Check 34 of an entry in the context c.
fn check_34(a: &SchemaTables, q: &QueryEntry, c: TypeNo) -> Option<u32>
    ensures { result ≡ fault34 a.now.area.now q.now.area.now q.now.place c }
{
    let l = q.cell(0);
    if l == FIELD {
        return check_34_field(a, q, c);
    }
    if l == CONDITION && a.is_scalar(TypeNo(q.cell(3))) {
        return Some(3);
    }
    None
}

// What a check says of an entry, which may be d deep and stands in the context c.
fn entry_fault(
    check: EntryCheck,
    a: &SchemaTables,
    q: &QueryEntry,
    d: u32,
    c: TypeNo,
) -> Option<u32>
    ensures { result ≡ fault_for check a.now.area.now q.now.area.now q.now.place d c }
{
    match check {
        EntryCheck::Depths => check_32(q, d),
        EntryCheck::Numbers => check_33(a, q),
        EntryCheck::Validity => check_34(a, q, c),
    }
}

// Puts a context at every depth below d.
fn put_below(contexts: &mut [TypeNo], d: usize, t: TypeNo)
    requires { d < length contexts.old }
    ensures { contexts.new ≡ put_from (d + 1) t contexts.old }
{
    contexts[d + 1..].fill(t);
}

// The first entry that offends against a check, by its line. The check is told by its name or by its number: any number will do, and one that
// is no check's is taken for 34.
pub fn first_entry<K: Into<EntryCheck>>(which: K, a: &SchemaTables, q: &QueryTable) -> Option<Spot>
    ensures { (check : EntryCheck) × K.converts which check × (result ≡ first_line (check_for check (stated a.now)) (entries_at q.now.area.now)) }
{
    let check: EntryCheck = which.into();
    let mut contexts = [a.query_type(); 17];
    let mut deepest: u32 = 0;
    for k in 0..q.len() {
        let entry = QueryEntry {
            area: q.area,
            place: k,
        };
        let d = entry.cell(2);
        let c = contexts[d as usize];
        if let Some(field) = entry_fault(check, a, &entry, deepest, c) {
            return Some(Spot {
                line: (k + 1) as u32,
                field,
            });
        }
        put_below(&mut contexts, d as usize, hands_down(a, c, &entry));
        deepest = d + 1;
    }
    None // no entry offends
}

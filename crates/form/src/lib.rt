// The text form: checks 10, 20 and 30.
#![tactic(auto)]

ghost use Rattle.std.specs.Prelude.{◌≡◌, ◌≤◌, length};
ghost use Rattle.rules.specs.Text.{lines};
ghost use Rattle.rules.specs.Search.{worse, first_line};
ghost use Rattle.rules.specs.Forms.{breaks};
ghost use Rattle.rules.specs.Kinds.{forms_of};
ghost use Rattle.form.specs.Form.{count_fault, pairs_fault, labelled_fault, valued_fault};
ghost use Rattle.form.specs.Form.{schema_fault, graph_fault, query_fault, form_fault, line_fault};

use rules::{Spot, TextKind};
use text::Row;

// Of two faults the worse: the smaller field, and each field before 0, the whole line.
#[tactic(auto, using(crate::proofs::Faults::worse_laws))]
fn worse(a: Option<u32>, b: Option<u32>) -> Option<u32>
    ensures { result ≡ worse a b }
{
    let Some(f) = a else {
        return b;
    };
    let Some(g) = b else {
        return a;
    };
    if f == 0 || g == 0 {
        return Some(f.max(g));
    }
    Some(f.min(g))
}

// An n above 4, or the first argument number that is not above the one before it.
#[tactic(auto, using(crate::proofs::Rises::pairs_laws))]
fn pairs_fault(r: &Row) -> Option<u32>
    ensures { result ≡ pairs_fault r.now.count r.now.nums }
{
    let n = r.nums[3] as usize;
    if 4 < n {
        return Some(5);
    }
    for i in 1..n {
        if r.count < 6 + 2 * i {
            return None;
        }
        if r.nums[4 + 2 * i] <= r.nums[2 + 2 * i] {
            return Some((6 + 2 * i) as u32);
        }
    }
    None
}

// The form of a record that has n numbers.
#[tactic(auto, using(crate::proofs::Faults::flagged), unfolding(crate::specs::Form::count_fault))]
fn counted(n: usize, count: usize) -> Option<u32>
    ensures { result ≡ count_fault n count }
{
    (count != n).then_some(0)
}

// The form of an edge, or of a field of the query.
#[tactic(auto, using(crate::proofs::Letters::front_laws), unfolding(crate::specs::Form::labelled_fault))]
fn labelled_fault(r: &Row) -> Option<u32>
    ensures { result ≡ labelled_fault r.now.count r.now.nums }
{
    worse(
        pairs_fault(r),
        counted(4 + 2 * (r.nums[3] as usize), r.count),
    )
}

// The form of a property.
#[tactic(auto, using(crate::proofs::Letters::valued_laws))]
fn valued_fault(r: &Row) -> Option<u32>
    ensures { result ≡ valued_fault r.now.count r.now.nums }
{
    let mark = (1 < r.nums[2]).then_some(4);
    let front = 4 + 2 * (r.nums[3] as usize);
    if r.nums[2] == 0 {
        return worse(mark, worse(pairs_fault(r), counted(front + 1, r.count)));
    }
    worse(mark, worse(pairs_fault(r), (r.count < front).then_some(0)))
}

// The form of a schema's record.
#[tactic(auto, using(crate::proofs::Letters::schema_laws))]
fn schema_fault(r: &Row) -> Option<u32>
    ensures { result ≡ schema_fault r.now.letter r.now.count r.now.nums }
{
    match r.letter {
        b'O' | b'I' | b'U' => counted(0, r.count),
        b'A' | b'Q' => counted(1, r.count),
        b'S' | b'H' | b'G' | b'M' => counted(2, r.count),
        b'F' => worse((1 < r.nums[1]).then_some(3), counted(2, r.count)),
        _ => Some(1),
    }
}

// The form of a graph's record.
#[tactic(auto, using(crate::proofs::Letters::graph_laws))]
fn graph_fault(r: &Row) -> Option<u32>
    ensures { result ≡ graph_fault r.now.letter r.now.count r.now.nums }
{
    match r.letter {
        b'N' => counted(1, r.count),
        b'E' => labelled_fault(r),
        b'P' => valued_fault(r),
        _ => Some(1),
    }
}

// The form of a query's record.
#[tactic(auto, using(crate::proofs::Letters::query_laws))]
fn query_fault(r: &Row) -> Option<u32>
    ensures { result ≡ query_fault r.now.letter r.now.count r.now.nums }
{
    match r.letter {
        b'F' => labelled_fault(r),
        b'T' => counted(2, r.count),
        _ => Some(1),
    }
}

// The form of a record of a text.
#[tactic(auto, unfolding(crate::specs::Form::form_fault))]
fn form_fault(kind: TextKind, r: &Row) -> Option<u32>
    ensures { result ≡ form_fault kind r.now.letter r.now.count r.now.nums }
{
    match kind {
        TextKind::Schema => schema_fault(r),
        TextKind::Graph => graph_fault(r),
        TextKind::Query => query_fault(r),
    }
}

// What the text form says of a line that was read.
#[tactic(auto, using(crate::proofs::Faults::line_laws))]
fn line_fault(kind: TextKind, r: &Row) -> Option<u32>
    requires { r.now.bad ≤ 100000 }
    ensures { result ≡ line_fault kind r.now }
{
    let bad = r.bad as u32;
    if r.letter == 0 {
        return Some(bad);
    }
    let unended = (!r.ended).then_some(0);
    worse(
        unended,
        worse((bad != 0).then_some(bad), form_fault(kind, r)),
    )
}

// The first line that breaks the text form, with the field at fault. The text is told by its kind, or by the number of its first check: any
// number will do, and one that is no text's is taken for the query's.
#[tactic(auto, using(crate::proofs::Breaking::broken_laws))]
pub fn first_broken<K: Into<TextKind>>(which: K, s: &[u8]) -> Option<Spot>
    requires { length s.now ≤ 65535 }
    ensures { (kind : TextKind) × K.converts which kind × (result ≡ first_line (breaks (forms_of kind)) (lines s.now)) }
{
    let kind: TextKind = which.into();
    let mut at: usize = 0;
    let mut line: u32 = 1;
    // the reader says where the next line starts: nothing is counted
    while at < s.len() {
        let r = text::read_row(s, at);
        if let Some(field) = line_fault(kind, &r) {
            return Some(Spot { line, field });
        }
        at = r.next;
        line += 1;
    }
    None // no line breaks the form
}

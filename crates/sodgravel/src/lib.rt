// The public calls: one sizes a query, one answers it. Each makes all checks, and neither asks anything of its caller.
#![tactic(auto)]

ghost use Rattle.std.specs.Prelude.{◌≡◌};
ghost use Rattle.judge.specs.Texts.{texts, lent};
ghost use Rattle.response.specs.Calls.{sized_in, answered_in, buffer_in};
ghost use Rattle.sodgravel.specs.Cleared.{cleared};

// C lends each area by itself, with its length, and the promise of each stands by itself in the contract.
use rules::Outcome;

// Zeroes every work area.
fn clear_all(
    a: &mut [u32],
    g: &mut [u32],
    p: &mut [u32],
    v: &mut [u32],
    ix: &mut [u32],
    q: &mut [u32],
    m: &mut [u64],
)
    ensures a_after { a.new ≡ cleared a.old }
    ensures g_after { g.new ≡ cleared g.old }
    ensures p_after { p.new ≡ cleared p.old }
    ensures v_after { v.new ≡ cleared v.old }
    ensures ix_after { ix.new ≡ cleared ix.old }
    ensures q_after { q.new ≡ cleared q.old }
    ensures m_after { m.new ≡ cleared m.old }
{
    tables::clear(a);
    tables::clear(g);
    tables::clear(p);
    tables::clear(v);
    tables::clear(ix);
    tables::clear(q);
    sizing::clear_rows(m);
}

// Sizes a query: the length of its response, without a response buffer, and the visits.
pub fn size(
    schema: &[u8],
    graph: &[u8],
    query: &[u8],
    a: &mut [u32],
    g: &mut [u32],
    p: &mut [u32],
    v: &mut [u32],
    ix: &mut [u32],
    q: &mut [u32],
    m: &mut [u64],
) -> Outcome
    ensures value { result ≡ sized_in (lent a.old g.old p.old v.old ix.old q.old) m.old (texts schema.now graph.now query.now) }
    ensures a_after { a.new ≡ cleared a.old }
    ensures g_after { g.new ≡ cleared g.old }
    ensures p_after { p.new ≡ cleared p.old }
    ensures v_after { v.new ≡ cleared v.old }
    ensures ix_after { ix.new ≡ cleared ix.old }
    ensures q_after { q.new ≡ cleared q.old }
    ensures m_after { m.new ≡ cleared m.old }
{
    let o = response::measure(schema, graph, query, a, g, p, v, ix, q, m);
    clear_all(a, g, p, v, ix, q, m);
    o
}

// Answers a query in a room: writes its response at the head of the buffer, or refuses and leaves the buffer as it was.
pub fn answer(
    schema: &[u8],
    graph: &[u8],
    query: &[u8],
    a: &mut [u32],
    g: &mut [u32],
    p: &mut [u32],
    v: &mut [u32],
    ix: &mut [u32],
    q: &mut [u32],
    m: &mut [u64],
    room: u32,
    out: &mut [u32],
) -> Outcome
    ensures value { result ≡ answered_in (lent a.old g.old p.old v.old ix.old q.old) m.old (texts schema.now graph.now query.now) room out.old }
    ensures out_after { out.new ≡ buffer_in (lent a.old g.old p.old v.old ix.old q.old) m.old (texts schema.now graph.now query.now) room out.old }
    ensures a_after { a.new ≡ cleared a.old }
    ensures g_after { g.new ≡ cleared g.old }
    ensures p_after { p.new ≡ cleared p.old }
    ensures v_after { v.new ≡ cleared v.old }
    ensures ix_after { ix.new ≡ cleared ix.old }
    ensures q_after { q.new ≡ cleared q.old }
    ensures m_after { m.new ≡ cleared m.old }
{
    let o = response::respond(schema, graph, query, a, g, p, v, ix, q, m, room, out);
    clear_all(a, g, p, v, ix, q, m);
    o
}

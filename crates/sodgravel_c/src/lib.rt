// The public calls under C names, for programs that link the archive (`include/sodgravel.h`). A slice arrives as a pointer and a
// length. Each call is the one of its name, with its contract.
#![tactic(auto)]

ghost use Rattle.std.specs.Prelude.{◌≡◌};
ghost use Rattle.judge.specs.Texts.{texts, lent};
ghost use Rattle.response.specs.Calls.{sized_in, answered_in, buffer_in};
ghost use Rattle.shorten.specs.Judge.{Judged};
ghost use Rattle.sodgravel.specs.Cleared.{cleared};

use rules::{Outcome, Reply};

// `size`, under its C name.
#[unsafe(no_mangle)]
pub extern "C" fn sodgravel_size(
    schema: &[u8],
    graph: &[u8],
    query: &[u8],
    a: &mut [u32],
    g: &mut [u32],
    p: &mut [u32],
    v: &mut [u32],
    ix: &mut [u32],
    q: &mut [u32],
    m: &mut [u64],
) -> Outcome
    ensures value { result ≡ sized_in (lent a.old g.old p.old v.old ix.old q.old) m.old (texts schema.now graph.now query.now) }
    ensures a_after { a.new ≡ cleared a.old }
    ensures g_after { g.new ≡ cleared g.old }
    ensures p_after { p.new ≡ cleared p.old }
    ensures v_after { v.new ≡ cleared v.old }
    ensures ix_after { ix.new ≡ cleared ix.old }
    ensures q_after { q.new ≡ cleared q.old }
    ensures m_after { m.new ≡ cleared m.old }
{
    sodgravel::size(schema, graph, query, a, g, p, v, ix, q, m)
}

// `answer`, under its C name.
#[unsafe(no_mangle)]
pub extern "C" fn sodgravel_answer(
    schema: &[u8],
    graph: &[u8],
    query: &[u8],
    a: &mut [u32],
    g: &mut [u32],
    p: &mut [u32],
    v: &mut [u32],
    ix: &mut [u32],
    q: &mut [u32],
    m: &mut [u64],
    room: u32,
    out: &mut [u32],
) -> Outcome
    ensures value { result ≡ answered_in (lent a.old g.old p.old v.old ix.old q.old) m.old (texts schema.now graph.now query.now) room out.old }
    ensures out_after { out.new ≡ buffer_in (lent a.old g.old p.old v.old ix.old q.old) m.old (texts schema.now graph.now query.now) room out.old }
    ensures a_after { a.new ≡ cleared a.old }
    ensures g_after { g.new ≡ cleared g.old }
    ensures p_after { p.new ≡ cleared p.old }
    ensures v_after { v.new ≡ cleared v.old }
    ensures ix_after { ix.new ≡ cleared ix.old }
    ensures q_after { q.new ≡ cleared q.old }
    ensures m_after { m.new ≡ cleared m.old }
{
    sodgravel::answer(schema, graph, query, a, g, p, v, ix, q, m, room, out)
}

// `shorten::judge`, under its C name.
#[unsafe(no_mangle)]
pub extern "C" fn sodgravel_judge(full: &[u32], shortened: &[u32]) -> Reply
    ensures { Judged full.now shortened.now result }
{
    shorten::judge(full, shortened)
}

// What the public calls do before they zero the areas: judging, sizing, holding the size against the room, and writing. Neither
// function asks anything of its caller.
#![tactic(auto)]

ghost use Rattle.std.specs.Prelude.{◌≡◌, leb};
ghost use Rattle.rules.specs.Answer.{space};
ghost use Rattle.judge.specs.Texts.{texts, lent};
ghost use Rattle.response.specs.Calls.{limited_in, refused_by, Measured, Responded};

// The areas are lent one by one, as C lends them; what reads them together takes them as one (`WorldTables`).
use query::QueryTable;
use rules::{Outcome, Refusal, Spot};
use world::WorldTables;

// A refusal at place 0.
fn refuse(number: u32) -> Outcome
    ensures { result ≡ refused_by number }
{
    Outcome::from(Refusal {
        number,
        spot: Spot { line: 0, field: 0 },
    })
}

// Whether a size fits the room, the smaller of the number given and the response buffer's length.
fn fits(size: u32, room: u32, out: &[u32]) -> bool
    ensures { result ≡ leb size (space room out.now) }
{
    size <= room && size as usize <= out.len()
}

// The outcome of answering, by that of sizing: a size that does not fit is 50.
fn limit(o: Outcome, room: u32, out: &[u32]) -> Outcome
    ensures { result ≡ limited_in room out.now o }
{
    if fits(o.size, room, out) {
        return o;
    }
    Outcome {
        number: 50,
        place: 0,
        ..o
    }
}

// The outcome of sizing. The areas are left as they are: where it is accepted, they hold the tables.
pub fn measure(
    schema: &[u8],
    graph: &[u8],
    query: &[u8],
    a: &mut [u32],
    g: &mut [u32],
    p: &mut [u32],
    v: &mut [u32],
    ix: &mut [u32],
    q: &mut [u32],
    m: &mut [u64],
) -> Outcome
    ensures { Measured (texts schema.now graph.now query.now) (lent a.old g.old p.old v.old ix.old q.old) (lent a.new g.new p.new v.new ix.new q.new) m.old result }
{
    if m.len() < 8192 {
        return refuse(2);
    }
    if let Err(refusal) = judge::judge(schema, graph, query, a, g, p, v, ix, q) {
        return Outcome::from(refusal);
    }
    let values = &v[..8200];
    let world = WorldTables {
        schema: a,
        nodes: g,
        properties: p,
        values,
        index: ix,
    };
    let t = sizing::size_query(&world, &QueryTable { area: q }, m);
    Outcome {
        number: 0,
        place: 0,
        size: t.size,
        visits: t.visits,
    }
}

// The outcome of answering, and the response: sizes first, and writes no token of a response that does not fit. The areas are
// left as they are.
pub fn respond(
    schema: &[u8],
    graph: &[u8],
    query: &[u8],
    a: &mut [u32],
    g: &mut [u32],
    p: &mut [u32],
    v: &mut [u32],
    ix: &mut [u32],
    q: &mut [u32],
    m: &mut [u64],
    room: u32,
    out: &mut [u32],
) -> Outcome
    ensures { Responded (texts schema.now graph.now query.now) (lent a.old g.old p.old v.old ix.old q.old) m.old room out.old out.new result }
{
    if 16384 < room {
        return refuse(1);
    }
    let s = measure(schema, graph, query, a, g, p, v, ix, q, m);
    let o = limit(s, room, out);
    if o.number != 0 {
        return o;
    }
    let values = &v[..8200];
    let world = WorldTables {
        schema: a,
        nodes: g,
        properties: p,
        values,
        index: ix,
    };
    let root = world.query_node();
    evaluate::selection(&world, &QueryTable { area: q }, 0, 0, root, out, 0);
    o
}

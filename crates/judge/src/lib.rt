// The verdict on three texts: of the schema's checks, the graph's and the query's the first that is offended. No call has to have
// been made before it.
#![tactic(auto)]

ghost use Rattle.std.specs.Prelude.{◌≡◌, ◌≤◌, length};
ghost use Rattle.masks.specs.Masks.{schema_needed};
ghost use Rattle.judge.specs.Texts.{texts, lent, too_short_of, Judged};

// The areas are lent one by one, as C lends them, and go on so as far as here.
use rules::Refusal;

// Whether an area is shorter than it has to be. One test after another: joined by `||` the paths meet again after each, which is no
// plainer to prove.
fn short(a: &[u32], g: &[u32], p: &[u32], v: &[u32], ix: &[u32], q: &[u32]) -> bool
    ensures { result ≡ too_short_of (lent a.now g.now p.now v.now ix.now q.now) }
{
    if a.len() < masks::SCHEMA_NEEDED {
        return true;
    }
    if g.len() < 15880 {
        return true;
    }
    if p.len() < 14344 {
        return true;
    }
    if v.len() < 8200 {
        return true;
    }
    if ix.len() < 3072 {
        return true;
    }
    q.len() < 3592
}

// The verdict on three texts where the areas are long enough, the values' exactly so.
fn judge_texts(
    schema: &[u8],
    graph: &[u8],
    query: &[u8],
    a: &mut [u32],
    g: &mut [u32],
    p: &mut [u32],
    v: &mut [u32],
    ix: &mut [u32],
    q: &mut [u32],
) -> Result<(), Refusal>
    requires schema_needed_in_bounds { schema_needed ≤ length a.old }
    requires in_bounds { 15880 ≤ length g.old }
    requires in_bounds_2 { 14344 ≤ length p.old }
    requires v_len { length v.old ≡ 8200 }
    requires in_bounds_3 { 3072 ≤ length ix.old }
    requires in_bounds_4 { 3592 ≤ length q.old }
    ensures { Judged (texts schema.now graph.now query.now) (lent a.old g.old p.old v.old ix.old q.old) (lent a.new g.new p.new v.new ix.new q.new) result }
{
    checks::judge_schema(schema, a)?;
    graph_text::judge_graph(graph, a, g, p, v, ix)?;
    query_text::judge_query(query, a, q)
}

// The verdict on any three texts in any areas. Where they are accepted, the areas hold the tables.
pub fn judge(
    schema: &[u8],
    graph: &[u8],
    query: &[u8],
    a: &mut [u32],
    g: &mut [u32],
    p: &mut [u32],
    v: &mut [u32],
    ix: &mut [u32],
    q: &mut [u32],
) -> Result<(), Refusal>
    ensures { Judged (texts schema.now graph.now query.now) (lent a.old g.old p.old v.old ix.old q.old) (lent a.new g.new p.new v.new ix.new q.new) result }
{
    if short(a, g, p, v, ix, q) {
        return checks::refuse(2);
    }
    judge_texts(schema, graph, query, a, g, p, &mut v[..8200], ix, q)
}

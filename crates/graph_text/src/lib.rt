// The verdict on a graph's text under an accepted schema: checks 20 to 27.
#![tactic(auto)]

ghost use Rattle.std.specs.Prelude.{◌≡◌, [], ◌∷◌, ◌<◌, ◌≤◌, length};
ghost use Rattle.rules.specs.Search.{first_line};
ghost use Rattle.rules.specs.Answer.{◌by◌};
ghost use Rattle.rules.specs.Text.{rows, lines};
ghost use Rattle.rules.specs.Graph.{nodes_of};
ghost use Rattle.rules.proofs.Clean.{Each};
ghost use Rattle.tables.specs.Fill.{Plain};
ghost use Rattle.tables.specs.Read.{schema_at};
ghost use Rattle.masks.specs.Masks.{Masked};
ghost use Rattle.schema.specs.Held.{SchemaHeld};
ghost use Rattle.graph.specs.Faults.{nodes_at};
ghost use Rattle.search.specs.Given.{areas_in};
ghost use Rattle.search.specs.Search.{graph_in, row_number, check_by, GraphReady, Indexed, IndexReady};
ghost use Rattle.checks.specs.Verdict.{judged};
ghost use Rattle.graph_text.specs.GraphVerdict.{alone_checks, joint_checks, GraphJudged};

use graph::NodeTables;
use rules::{Refusal, TextKind, TypeNo};
use search::{Areas, RowCheck};
use tables::FormedText;

// How many nodes are of a type.
fn count_nodes(g: &NodeTables, t: TypeNo) -> u32
    ensures { result ≡ length (nodes_of (nodes_at g.now.area.now) t) }
{
    let mut found: u32 = 0;
    for u in 0..g.area[0] {
        if g.type_of(u) == t {
            found += 1;
        }
    }
    found
}

// One of the checks 22 to 26 of a graph that is laid out. The index matters to 25 and 26.
fn judge_rows(check: RowCheck, s: &FormedText, x: &Areas) -> Result<(), Refusal>
    requires graph_ready { GraphReady (rows s.now.bytes.now) (areas_in x.now) }
    requires of_graph { 21 < row_number check }
    requires index_ready { IndexReady (row_number check) x.now.nodes.now x.now.properties.now x.now.index.now }
    ensures { result ≡ judged (row_number check by first_line (check_by (row_number check) (schema_at x.now.schema.now) (graph_in (areas_in x.now))) (rows s.now.bytes.now) ∷ []) }
{
    let offence = search::first_offence(check, s, x);
    checks::pass(check.number(), offence)
}

// Checks 22 to 24 of a graph that is laid out: those of a row by itself. What the index holds does not matter.
fn judge_alone(s: &FormedText, x: &Areas) -> Result<(), Refusal>
    requires graph_ready { GraphReady (rows s.now.bytes.now) (areas_in x.now) }
    ensures { result ≡ judged (alone_checks (schema_at x.now.schema.now) s.now.bytes.now) }
{
    judge_rows(RowCheck::GraphNumbers, s, x)?;
    judge_rows(RowCheck::NotOwned, s, x)?;
    judge_rows(RowCheck::WrongType, s, x)
}

// Checks 25 to 27 of a graph that is laid out, with its index: those of a row and the others.
fn judge_joint(s: &FormedText, x: &Areas) -> Result<(), Refusal>
    requires graph_ready { GraphReady (rows s.now.bytes.now) (areas_in x.now) }
    requires indexed { Indexed x.now.nodes.now x.now.properties.now x.now.index.now }
    ensures { result ≡ judged (joint_checks (schema_at x.now.schema.now) s.now.bytes.now) }
{
    judge_rows(RowCheck::SecondTarget, s, x)?;
    judge_rows(RowCheck::Twin, s, x)?;
    let nodes = NodeTables { area: x.nodes };
    if count_nodes(&nodes, x.schema_tables().query_type()) != 1 {
        return checks::refuse(27);
    }
    Ok(())
}

// The verdict on a graph's text. Where it is accepted, the areas hold it, with its index.
pub fn judge_graph(
    s: &[u8],
    a: &[u32],
    g: &mut [u32],
    p: &mut [u32],
    v: &mut [u32],
    ix: &mut [u32],
) -> Result<(), Refusal>
    requires schema_held { SchemaHeld a.now × Masked a.now }
    requires in_bounds { 15880 ≤ length g.old }
    requires in_bounds_2 { 14344 ≤ length p.old }
    requires in_bounds_3 { 8200 ≤ length v.old }
    requires v_len_bound { length v.old ≤ 16384 }
    requires in_bounds_4 { 3072 ≤ length ix.old }
    ensures { GraphJudged (schema_at a.now) s.now (length g.old) (length p.old) (length v.old) (length ix.old) g.new p.new v.new ix.new result }
{
    checks::judge_form(TextKind::Graph, s)?;
    let text = FormedText { bytes: s };
    tables::lay_graph(&text, g, p, v);
    let laid = Areas {
        schema: a,
        nodes: g,
        properties: p,
        values: v,
        ..Areas::default()
    };
    judge_alone(&text, &laid)?;
    index::lay_index(g, p, ix);
    let indexed = Areas {
        schema: a,
        nodes: g,
        properties: p,
        values: v,
        index: ix,
    };
    judge_joint(&text, &indexed)
}

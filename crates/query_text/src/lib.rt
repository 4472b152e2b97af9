// The verdict on a query's text under an accepted schema: checks 30 to 34.
#![tactic(auto)]

ghost use Rattle.std.specs.Prelude.{◌≡◌, [], ◌∷◌, ◌≤◌, length};
ghost use Rattle.rules.specs.Search.{first_line};
ghost use Rattle.rules.specs.Answer.{◌by◌};
ghost use Rattle.tables.specs.Read.{schema_at};
ghost use Rattle.schema.specs.Held.{SchemaHeld};
ghost use Rattle.query.specs.Entries.{entries_at};
ghost use Rattle.schema.specs.Stated.{stated};
ghost use Rattle.query.specs.Faults.{entry_number, check_for};
ghost use Rattle.checks.specs.Verdict.{judged};
ghost use Rattle.query_text.specs.QueryVerdict.{entry_checks, QueryJudged};

use query::{EntryCheck, QueryTable};
use rules::{Refusal, TextKind};
use schema::SchemaTables;
use tables::FormedText;

// The verdict of checks 32 to 34 on the entries that an area holds.
fn judge_entries(a: &SchemaTables, q: &QueryTable) -> Result<(), Refusal>
    ensures { result ≡ judged (entry_checks (stated a.now) (entries_at q.now.area.now)) }
{
    if q.is_empty() {
        return checks::refuse(EntryCheck::Depths.number());
    }
    judge_entry(EntryCheck::Depths, a, q)?;
    judge_entry(EntryCheck::Numbers, a, q)?;
    judge_entry(EntryCheck::Validity, a, q)
}

// One of these checks on the entries that an area holds.
fn judge_entry(check: EntryCheck, a: &SchemaTables, q: &QueryTable) -> Result<(), Refusal>
    ensures { result ≡ judged (entry_number check by first_line (check_for check (stated a.now)) (entries_at q.now.area.now) ∷ []) }
{
    checks::pass(check.number(), query::first_entry(check, a, q))
}

// The verdict on a query's text. Where it is accepted, the area holds it.
pub fn judge_query(s: &[u8], a: &[u32], q: &mut [u32]) -> Result<(), Refusal>
    requires schema_held { SchemaHeld a.now }
    requires in_bounds { 3592 ≤ length q.old }
    ensures { QueryJudged (schema_at a.now) s.now (length q.old) q.new result }
{
    checks::judge_form(TextKind::Query, s)?;
    let text = FormedText { bytes: s };
    tables::lay_query(&text, q);
    judge_entries(&schema::held::tables_in(a), &query::held::table_in(q))
}

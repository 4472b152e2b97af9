// The first two checks of any text, and the verdict on a schema's text: every check in ascending order, each over its whole text before the
// next. A verdict is a `Result`: nothing, or the refusal by the first check that is offended.
#![tactic(auto)]

ghost use Rattle.std.specs.Prelude.{◌≡◌, [], ◌∷◌, ◌+◌, ◌<◌, ◌≤◌, length};
ghost use Rattle.rules.specs.Search.{spot, first_line};
ghost use Rattle.rules.specs.Text.{rows, lines};
ghost use Rattle.rules.specs.Answer.{◌by◌};
ghost use Rattle.rules.proofs.Clean.{Each};
ghost use Rattle.tables.specs.Fill.{Plain};
ghost use Rattle.masks.specs.Masks.{schema_needed};
ghost use Rattle.checks.specs.Verdict.{refused_by, judged, form_checks, later_schema, SchemaJudged};
ghost use Rattle.rules.specs.Kinds.{first_check};
ghost use Rattle.search.specs.Search.{areas, graph_in, row_number, check_by, SchemaReady};
ghost use Rattle.tables.specs.Read.{schema_at};

use rules::{Refusal, Spot, TextKind};
use search::{Areas, RowCheck};
use tables::FormedText;

// The refusal by the check with a number at a spot, if it is offended there.
pub fn pass(number: u32, found: Option<Spot>) -> Result<(), Refusal>
    ensures { result ≡ judged (number by found ∷ []) }
{
    match found {
        Some(spot) => Err(Refusal { number, spot }),
        None => Ok(()),
    }
}

// Place 0, where a whole text offends.
pub fn nowhere() -> Spot
    ensures { result ≡ spot 0 0 }
{
    Spot { line: 0, field: 0 }
}

// The refusal by a check that the whole text offends.
pub fn refuse(number: u32) -> Result<(), Refusal>
    ensures { result ≡ refused_by number (spot 0 0) }
{
    let spot = nowhere();
    Err(Refusal { number, spot })
}

// The maxima of a text.
fn maxima(kind: TextKind) -> RowCheck
    ensures { row_number result ≡ first_check kind + 1 }
{
    match kind {
        TextKind::Schema => RowCheck::SchemaSize,
        TextKind::Graph => RowCheck::GraphSize,
        TextKind::Query => RowCheck::QuerySize,
    }
}

// The first two checks of a text, its form and its maxima. They look at no area.
pub fn judge_form(kind: TextKind, s: &[u8]) -> Result<(), Refusal>
    ensures { result ≡ judged (form_checks kind s.now) }
{
    let number = kind.first_check();
    if 65535 < s.len() {
        return refuse(number);
    }
    pass(number, form::first_broken(kind, s))?;
    let text = FormedText { bytes: s };
    let offence = search::first_offence(maxima(kind), &text, &Areas::default());
    pass(number + 1, offence)
}

// Check 12 to 15 of a schema that is laid out.
fn judge_schema_row(check: RowCheck, s: &FormedText, a: &[u32]) -> Result<(), Refusal>
    requires schema_ready { SchemaReady (rows s.now.bytes.now) (areas a.now [] [] []) }
    requires before_graph { row_number check < 20 }
    ensures { result ≡ judged (row_number check by first_line (check_by (row_number check) (schema_at a.now) (graph_in (areas a.now [] [] []))) (rows s.now.bytes.now) ∷ []) }
{
    let alone = Areas {
        schema: a,
        ..Areas::default()
    };
    pass(check.number(), search::first_offence(check, s, &alone))
}

// Checks 12 to 16 of a schema that is laid out.
fn judge_schema_rows(s: &FormedText, a: &[u32]) -> Result<(), Refusal>
    requires schema_ready { SchemaReady (rows s.now.bytes.now) (areas a.now [] [] []) }
    ensures { result ≡ judged (later_schema s.now.bytes.now) }
{
    judge_schema_row(RowCheck::SchemaNumbers, s, a)?;
    judge_schema_row(RowCheck::PairTwice, s, a)?;
    judge_schema_row(RowCheck::FieldMissing, s, a)?;
    judge_schema_row(RowCheck::EmptyUnion, s, a)?;
    if a[6] != 1 {
        return refuse(16);
    }
    Ok(())
}

// The verdict on a schema's text. Where it is accepted, the area holds it, with its masks.
pub fn judge_schema(s: &[u8], a: &mut [u32]) -> Result<(), Refusal>
    requires { schema_needed ≤ length a.old }
    ensures { SchemaJudged s.now (length a.old) a.new result }
{
    judge_form(TextKind::Schema, s)?;
    let text = FormedText { bytes: s };
    index::lay_schema(&text, a);
    judge_schema_rows(&text, a)?;
    masks::lay_masks(a);
    Ok(())
}

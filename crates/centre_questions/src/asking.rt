//! A question is put to a centre, and what that answers is copied.

ghost use Rattle.std.specs.Prelude.{◌≡◌, false, IfOk, IfErr};
ghost use Rattle.centre_questions.specs.Questions.{RefusesQuestion, Shows, reads_lines};
ghost use Rattle.centre_questions.specs.declared.question.Question.TheVariants as question_spec;

use crate::question::Question;
use crate::seen_value::SeenValue;
use cell_register::BscId;
use centre_core::centre::Centre;
use centre_events::refusal::Refusal;
use common::{Cell, Name};
use std::alloc::Global;
use warning_book::WarningId;

fn total(centre: &Centre, w: WarningId) -> Result<SeenValue, Refusal>
    ensures seen { IfOk result (Shows centre.now.known (question_spec.Total w)) }
    ensures refused { IfErr result (RefusesQuestion centre.now.known (question_spec.Total w)) }
{
    Ok(SeenValue::Numbers(centre.board_total(w)?))
}

fn area(centre: &Centre, w: WarningId, a: &Name) -> Result<SeenValue, Refusal>
    ensures seen { IfOk result (Shows centre.now.known (question_spec.Area w a.now)) }
    ensures refused { IfErr result (RefusesQuestion centre.now.known (question_spec.Area w a.now)) }
{
    Ok(SeenValue::Numbers(centre.board_area(w, a)?))
}

fn place(centre: &Centre, c: Cell) -> Result<SeenValue, Refusal>
    ensures seen { IfOk result (Shows centre.now.known (question_spec.Place c)) }
    ensures refused { IfErr result (RefusesQuestion centre.now.known (question_spec.Place c)) }
{
    Ok(SeenValue::Place(centre.place_of(c)?))
}

fn pending(centre: &Centre, b: BscId) -> Result<SeenValue, Refusal>
    ensures seen { IfOk result (Shows centre.now.known (question_spec.Pending b)) }
    ensures refused { IfErr result (RefusesQuestion centre.now.known (question_spec.Pending b)) }
{
    Ok(SeenValue::Pending(centre.pending_of(b)?))
}

fn table(centre: &mut Centre, b: BscId) -> Result<SeenValue, Refusal>
    ensures seen { IfOk result (Shows centre.old.known (question_spec.Table b)) }
    ensures refused { IfErr result (RefusesQuestion centre.old.known (question_spec.Table b)) }
    ensures unchanged { centre.new.known ≡ centre.old.known }
    ensures entries { centre.new.entries ≡ centre.old.entries }
{
    Ok(SeenValue::Table(centre.table_of(b)?))
}

fn in_flight(alloc: Global, centre: &Centre, b: BscId) -> Result<SeenValue, Refusal>
    ensures seen { IfOk result (Shows centre.now.known (question_spec.InFlight b)) }
    ensures refused { IfErr result (RefusesQuestion centre.now.known (question_spec.InFlight b)) }
{
    match centre.in_flight_of(b)? {
        Some(flight) => Ok(SeenValue::InFlight(Some(flight.copied(alloc)?))),
        None => Ok(SeenValue::InFlight(None)),
    }
}

fn bscs(centre: &Centre) -> Result<SeenValue, Refusal>
    ensures seen { IfOk result (Shows centre.now.known question_spec.Bscs) }
    ensures refused { IfErr result (RefusesQuestion centre.now.known question_spec.Bscs) }
{
    Ok(SeenValue::Bscs(centre.bscs()?))
}

fn cells(centre: &Centre, b: BscId) -> Result<SeenValue, Refusal>
    ensures seen { IfOk result (Shows centre.now.known (question_spec.Cells b)) }
    ensures refused { IfErr result (RefusesQuestion centre.now.known (question_spec.Cells b)) }
{
    Ok(SeenValue::Cells(centre.cells_of(b)?))
}

fn areas(centre: &Centre) -> Result<SeenValue, Refusal>
    ensures seen { IfOk result (Shows centre.now.known question_spec.Areas) }
    ensures refused { IfErr result (RefusesQuestion centre.now.known question_spec.Areas) }
{
    Ok(SeenValue::Areas(centre.areas()?))
}

fn selectors(centre: &Centre, a: &Name) -> Result<SeenValue, Refusal>
    ensures seen { IfOk result (Shows centre.now.known (question_spec.Selectors a.now)) }
    ensures refused { IfErr result (RefusesQuestion centre.now.known (question_spec.Selectors a.now)) }
{
    Ok(SeenValue::Selectors(centre.selectors_of(a)?))
}

fn warnings(centre: &Centre) -> Result<SeenValue, Refusal>
    ensures seen { IfOk result (Shows centre.now.known question_spec.Warnings) }
    ensures refused { IfErr result (RefusesQuestion centre.now.known question_spec.Warnings) }
{
    Ok(SeenValue::Warnings(centre.warnings()?))
}

fn warning(centre: &Centre, w: WarningId) -> Result<SeenValue, Refusal>
    ensures seen { IfOk result (Shows centre.now.known (question_spec.Warning w)) }
    ensures refused { IfErr result (RefusesQuestion centre.now.known (question_spec.Warning w)) }
{
    Ok(SeenValue::Warning(centre.warning_of(w)?))
}

fn failed(centre: &mut Centre, w: WarningId) -> Result<SeenValue, Refusal>
    ensures seen { IfOk result (Shows centre.old.known (question_spec.Failed w)) }
    ensures refused { IfErr result (RefusesQuestion centre.old.known (question_spec.Failed w)) }
    ensures unchanged { centre.new.known ≡ centre.old.known }
    ensures entries { centre.new.entries ≡ centre.old.entries }
{
    Ok(SeenValue::Failed(centre.failed_of(w)?))
}

/// Puts the question to the centre. What it is answered has memory of its own. `Stale`, then what the answer over the journal
/// refuses, then `Memory`, which comes only where the answer takes memory. Nothing changes but the meter of lines, and that
/// only where the question is for a table or for the cells in which a warning failed.
pub fn ask(alloc: Global, centre: &mut Centre, question: &Question) -> Result<SeenValue, Refusal>
    ensures seen { IfOk result (Shows centre.old.known question.now) }
    ensures refused { IfErr result (RefusesQuestion centre.old.known question.now) }
    ensures unchanged { centre.new.known ≡ centre.old.known }
    ensures entries { centre.new.entries ≡ centre.old.entries }
    ensures same { reads_lines question.now ≡ false → centre.new ≡ centre.old }
{
    match question {
        Question::Total(w) => total(centre, *w),
        Question::Area(w, a) => area(centre, *w, a),
        Question::Place(c) => place(centre, *c),
        Question::Pending(b) => pending(centre, *b),
        Question::Table(b) => table(centre, *b),
        Question::InFlight(b) => in_flight(alloc, centre, *b),
        Question::Bscs => bscs(centre),
        Question::Cells(b) => cells(centre, *b),
        Question::Areas => areas(centre),
        Question::Selectors(a) => selectors(centre, a),
        Question::Warnings => warnings(centre),
        Question::Warning(w) => warning(centre, *w),
        Question::Failed(w) => failed(centre, *w),
    }
}

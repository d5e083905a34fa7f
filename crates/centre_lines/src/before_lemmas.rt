//! Lemmas of the lines that are read before an event, as the contracts of calls that do nothing.

ghost use Rattle.std.specs.Prelude.{◌≡◌, List, ℕ};
ghost use Rattle.kept_tables.specs.declared.spot.Spot.{Spot};
ghost use Rattle.centre_lines.specs.Following.{WasRead, lines_before};
ghost use Rattle.centre_past.specs.IsKept.{IsKept};
ghost use Rattle.centre_events.specs.Past.{Past};
ghost use Rattle.centre_past.specs.Reach.{IsReach, reach_of};
ghost use Rattle.centre_events.specs.declared.answer.Answer.{Answer};
ghost use Rattle.centre_events.specs.declared.event.Event.TheVariants as event;
ghost use Rattle.coverage_plan.specs.declared.edit.Edit.{Edit};
ghost use Rattle.centre_lines.specs.declared.line_before.LineBefore.{LineBefore};
ghost use Rattle.centre_past.specs.declared.kept.Kept.{Kept};

#[tactic(auto, using(crate::proofs::BeforeLemmas::edit_was_reached))]
fn edit_was_reached()
    ensures { (past : Past) (s : Kept) (e : Edit) (a : Answer) (spots : List Spot) (numbers : List ℕ) (earlier : List LineBefore) → IsKept past s → IsReach (record { spots = spots; warnings = numbers }) (reach_of past (event.Edit e) a) → earlier ≡ lines_before e s.plan s.tables spots numbers → WasRead past (event.Edit e) a spots earlier }
{}

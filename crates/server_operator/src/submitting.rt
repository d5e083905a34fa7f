//! The events that lines ask for.

ghost use Rattle.std.specs.Prelude.{◌≡◌, IfErr};
ghost use Rattle.centre_events.specs.declared.event.Event.TheVariants as event_spec;
ghost use Rattle.centre_past.specs.Fits.{AnswerFits};
ghost use Rattle.centre_questions.specs.declared.question.Question.TheVariants as question_spec;
ghost use Rattle.console_text.specs.Texts.{ResponseFits};
ghost use Rattle.office.specs.Offices.{IsUnseenSomewhere};
ghost use Rattle.server_operator.specs.Submitting.{IsCutAnswer, IsSubmitAnswer, accepted_with, told_of};

use crate::downs::name_downs;
use crate::listed::bscs_in;
use crate::operator::Operator;
use crate::period_notices::name_periods;
use crate::periods::placed_by;
use crate::sequel::{Sequel, sequel_of};
use crate::server::Server;
use cell_register::BscId;
use centre_events::answer::Answer;
use centre_events::event::Event;
use centre_events::refusal::Refusal;
use console_text::response::Response;
use coverage_plan::Edit;
use office::desk::Desk;
use office::question::Question;
use office::receipt::Receipt;
use std::sync::Wait;
use std::sync::ledger::Ledger;
use std::time::Clock;

/// What is told of an answer.
fn told_of(answer: &Answer) -> Answer
    ensures told { result ≡ told_of answer.now }
    ensures fits { AnswerFits result }
{
    match answer {
        Answer::Issued(warning, serial) => Answer::Issued(*warning, *serial),
        Answer::Updated(serial) => Answer::Updated(*serial),
        _ => Answer::Done,
    }
}

/// How an event is answered that was accepted, by its receipt: its number, and what is told of its answer.
fn accepted(receipt: &Receipt) -> Response
    ensures told { result ≡ accepted_with receipt.now }
    ensures fits { ResponseFits result }
{
    Response::Accepted {
        number: receipt.place,
        answer: told_of(&receipt.answer),
    }
}

/// Submits an event.
#[tactic(auto, using(crate::proofs::SubmittingLemmas::accepted_by, crate::proofs::SubmittingLemmas::refused_by))]
pub(crate) fn submit<L: Ledger, S: Server, R: Wait>(
    rt: &R,
    operator: &Operator<'_, L, S>,
    desk: &mut Desk<L>,
    event: Event,
) -> Response
    ensures answer { IsSubmitAnswer desk.old event desk.new result }
    ensures fits { ResponseFits result }
{
    match operator.office.submit(rt, desk, event) {
        Ok(()) => accepted(desk.latest()),
        Err(refusal) => Response::Refused(refusal),
    }
}

/// Does what the desk's latest event calls for besides its answer.
fn follow<L: Ledger, S: Server, R: Wait + Clock>(
    rt: &R,
    operator: &Operator<'_, L, S>,
    desk: &Desk<L>,
) {
    let Some(receipt) = desk.receipts().last() else {
        return;
    };
    match sequel_of(&receipt.event) {
        Sequel::Nothing => {}
        Sequel::Added(b) => operator.server.added(rt, b),
        Sequel::Changed(warning) => name_downs(rt, operator, desk, warning),
    }
    if let Some(warning) = placed_by(&receipt.event, &receipt.answer) {
        name_periods(rt, operator, desk, warning);
    }
}

/// Submits an edit, and does what it calls for besides its answer where it is accepted.
pub(crate) fn edit<L: Ledger, S: Server, R: Wait + Clock>(
    rt: &R,
    operator: &Operator<'_, L, S>,
    desk: &mut Desk<L>,
    edit: Edit,
) -> Response
    ensures answer { IsSubmitAnswer desk.old (event_spec.Edit edit) desk.new result }
    ensures fits { ResponseFits result }
{
    let response = submit(rt, operator, desk, Event::Edit(edit));
    if let Response::Accepted { .. } = &response {
        follow(rt, operator, desk);
    }
    response
}

/// The generation of the latest link of the BSC; 0, which no link has, where there was none or the BSC isn't registered.
fn latest_link<L: Ledger, S: Server, R: Wait>(
    rt: &R,
    operator: &Operator<'_, L, S>,
    desk: &Desk<L>,
    b: BscId,
) -> Result<u64, Refusal>
    ensures { IfErr result (IsUnseenSomewhere desk.now question_spec.Bscs) }
{
    let seen = operator.office.look(rt, desk, Question::Bscs)?;
    Ok(match bscs_in(&seen.value).iter().find(|row| row.bsc == b) {
        Some(row) => row.last,
        None => 0,
    })
}

/// How often the loss of a link is submitted whose generation changes meanwhile.
const MOST_TRIES: u32 = 100;

/// Submits the loss of the link of that generation. Where it is accepted, the connection is shut.
fn cut_link<L: Ledger, S: Server, R: Wait>(
    rt: &R,
    operator: &Operator<'_, L, S>,
    desk: &mut Desk<L>,
    b: BscId,
    generation: u64,
) -> Response
    ensures answer { IsSubmitAnswer desk.old (event_spec.LinkDown b generation) desk.new result }
    ensures fits { ResponseFits result }
{
    let response = submit(rt, operator, desk, Event::LinkDown(b, generation));
    if let Response::Accepted { .. } = &response {
        operator.server.cut(rt, b, generation);
    }
    response
}

/// Ends the link of the BSC that is up, by hand: its loss is entered, and its connection is shut. The refusals are those of a loss
/// of the latest link, and of a question for the BSCs.
#[tactic(auto, using(crate::proofs::SubmittingLemmas::cut_by, crate::proofs::SubmittingLemmas::uncut_by))]
pub(crate) fn cut<L: Ledger, S: Server, R: Wait>(
    rt: &R,
    operator: &Operator<'_, L, S>,
    desk: &mut Desk<L>,
    b: BscId,
) -> Response
    ensures answer { IsCutAnswer desk.old b desk.new result }
    ensures fits { ResponseFits result }
{
    let mut generation = match latest_link(rt, operator, desk, b) {
        Ok(latest) => latest,
        Err(refusal) => return Response::Refused(refusal),
    };
    for _attempt in 1..MOST_TRIES {
        match cut_link(rt, operator, desk, b, generation) {
            Response::Refused(Refusal::StaleLink { now }) => generation = now,
            response => return response,
        }
    }
    cut_link(rt, operator, desk, b, generation)
}

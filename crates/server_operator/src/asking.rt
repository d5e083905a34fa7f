//! The questions that lines of the console ask.

ghost use Rattle.std.specs.Prelude.{◌≡◌};
ghost use Rattle.console_text.specs.Texts.{ResponseFits};
ghost use Rattle.server_operator.specs.Asking.{IsAskAnswer, told};

use crate::operator::Operator;
use crate::server::Server;
use console_text::response::Response;
use office::desk::Desk;
use office::question::Question;
use office::seen::SeenValue;
use std::sync::Wait;
use std::sync::ledger::Ledger;

/// What was seen, as an answer; no line of the console asks for anything else.
fn told(value: SeenValue) -> Response
    ensures told { result ≡ told value }
    ensures fits { ResponseFits result }
{
    match value {
        SeenValue::Numbers(numbers) => Response::Board(numbers),
        SeenValue::Pending(orders) => Response::Pending(orders),
        SeenValue::Table(keys) => Response::Table(keys),
        other => {
            drop(other);
            Response::Silence
        }
    }
}

/// What a line is answered that asks a question.
#[tactic(auto, using(crate::proofs::AskingLemmas::seen_told, crate::proofs::AskingLemmas::unseen_told))]
pub(crate) fn ask<L: Ledger, S: Server, R: Wait>(
    rt: &R,
    operator: &Operator<'_, L, S>,
    desk: &Desk<L>,
    question: Question,
) -> Response
    ensures answer { IsAskAnswer desk.now question result }
    ensures fits { ResponseFits result }
{
    match operator.office.look(rt, desk, question) {
        Ok(seen) => told(seen.value),
        Err(refusal) => Response::Refused(refusal),
    }
}

//! One run of the console: a centre, and the generations that its lines speak of.

ghost use Rattle.std.specs.Prelude.{◌≡◌};
ghost use Rattle.console.specs.Sessions.{IsToldInLine, link_up_of, told};
ghost use Rattle.console_text.specs.Texts.{ResponseFits};

use crate::generations::Generations;
use cell_register::BscId;
use centre_core::centre::Centre;
use centre_events::answer::Answer;
use centre_events::event::Event;
use centre_events::network::Network;
use centre_events::refusal::Refusal;
use centre_questions::asking::ask;
use centre_questions::question::Question;
use centre_questions::seen_value::SeenValue;
use common::Name;
use console_text::events::{event_of, link_of};
use console_text::grammar::read_line;
use console_text::line::Line;
use console_text::line_event::LineEvent;
use console_text::response::Response;
use console_text::words::{is_comment, split_words};
use std::alloc::{AllocError, Global};
use std::marker::Model;
use warning_book::WarningId;

/// The desk by which the console submits.
const DESK: u32 = 1;

/// A centre, and for each BSC the generation that the next line about its link speaks of.
pub struct Session {
    alloc: Global,
    centre: Centre,
    generations: Generations,
}

/// Written out, so that no crate above proves anew how its parts are dropped.
impl Drop for Session {
    fn drop(self) {
        let Session {
            alloc: _alloc,
            centre: _centre,
            generations: _generations,
        } = self;
    }
}

impl Model for Session {
    ghost use Rattle.console.specs.Sessions.{SessionState};

    ghost Value = { SessionState };

    ghost view = { λ s. record { centre = s.centre.known; kept = s.generations } };
}

impl Session {
    ghost use Rattle.std.specs.Prelude.{◌≡◌, ◌≤◌, IfOk};
    ghost use Rattle.console_text.specs.Events.{link_of};
    ghost use Rattle.console_text.specs.Texts.{ResponseFits};
    ghost use Rattle.console.specs.Generations.{kept_for};
    ghost use Rattle.console.specs.Replays.{new_session};
    ghost use Rattle.console.specs.Sessions.{AnswersOrStarves, AsksOrStarves, HasLine, Meets, MeetsOther, RespondsOrStarves, SubmitsOrStarves};
    ghost use Rattle.console_text.specs.declared.line.Line.TheVariants as request;
    ghost use Rattle.console_text.specs.declared.line_event.LineEvent.TheVariants as came;

    pub fn new(alloc: Global, network: Network, journal_limit: u32) -> Session
        requires { journal_limit ≤ 4000000 }
        ensures { result ≡ new_session network journal_limit }
    {
        Session {
            alloc,
            centre: Centre::new(alloc, network, journal_limit),
            generations: Generations::new(alloc),
        }
    }

    fn submit(&mut self, event: Event) -> Response
        ensures answer { SubmitsOrStarves self.old event result self.new }
        ensures fits { ResponseFits result }
    {
        match self.centre.accept(DESK, event) {
            Ok(answer) => Response::Accepted {
                number: self.centre.position(),
                answer,
            },
            Err(refusal) => Response::Refused(refusal),
        }
    }

    /// Puts a question to the centre.
    #[tactic(auto, using(crate::proofs::QuestionLemmas::in_line, crate::proofs::QuestionLemmas::asked_told, crate::proofs::QuestionLemmas::asked_refused))]
    fn ask_centre(&mut self, question: Question) -> Response
        requires line { HasLine question }
        ensures answer { AsksOrStarves self.old question result self.new }
        ensures fits { ResponseFits result }
    {
        match ask(self.alloc, &mut self.centre, &question) {
            Ok(value) => told(value),
            Err(refusal) => Response::Refused(refusal),
        }
    }

    #[tactic(auto, using(crate::proofs::QuestionLemmas::board_asked))]
    fn board(&mut self, warning: WarningId) -> Response
        ensures answer { RespondsOrStarves self.old (request.Board warning) result self.new }
        ensures fits { ResponseFits result }
    {
        self.ask_centre(Question::Total(warning))
    }

    #[tactic(auto, using(crate::proofs::QuestionLemmas::area_asked))]
    fn area_board(&mut self, warning: WarningId, area: Name) -> Response
        ensures answer { RespondsOrStarves self.old (request.AreaBoard warning area) result self.new }
        ensures fits { ResponseFits result }
    {
        self.ask_centre(Question::Area(warning, area))
    }

    fn bring_up(&mut self, bsc: BscId) -> Result<Response, AllocError>
        ensures answer { IfOk result (λ r. RespondsOrStarves self.old (request.Up bsc) r self.new) }
        ensures fits { IfOk result ResponseFits }
    {
        let response = self.submit(Event::LinkUp(bsc));
        match &response {
            Response::Accepted {
                number: _,
                answer: Answer::Link(generation),
            } => {
                let generation = *generation;
                match self.generations.keep(bsc, generation) {
                    Ok(()) => Ok(response),
                    Err(error) => {
                        drop(response);
                        Err(error)
                    }
                }
            }
            _ => Ok(response),
        }
    }

    /// Keeps the generation for the BSC, which need not be there.
    fn keep(&mut self, bsc: BscId, generation: u64) -> Result<Response, AllocError>
        ensures answer { IfOk result (λ r. RespondsOrStarves self.old (request.Keep bsc generation) r self.new) }
        ensures fits { IfOk result ResponseFits }
    {
        self.generations.keep(bsc, generation)?;
        Ok(Response::Set)
    }

    #[tactic(auto, using(crate::proofs::QuestionLemmas::pending_asked))]
    fn pending(&mut self, bsc: BscId) -> Response
        ensures answer { RespondsOrStarves self.old (request.Pending bsc) result self.new }
        ensures fits { ResponseFits result }
    {
        self.ask_centre(Question::Pending(bsc))
    }

    #[tactic(auto, using(crate::proofs::QuestionLemmas::table_asked))]
    fn table(&mut self, bsc: BscId) -> Response
        ensures answer { RespondsOrStarves self.old (request.Table bsc) result self.new }
        ensures fits { ResponseFits result }
    {
        self.ask_centre(Question::Table(bsc))
    }

    /// Makes the centre whole, if it is stale.
    fn rebuild(&mut self) -> Response
        ensures answer { RespondsOrStarves self.old request.Rebuild result self.new }
        ensures fits { ResponseFits result }
    {
        match self.centre.rebuild() {
            Ok(()) => Response::Rebuilt,
            Err(_) => Response::Refused(Refusal::Memory),
        }
    }

    /// Folds the entries of the journal.
    #[tactic(auto, using(crate::proofs::CheckpointLemmas::folded, crate::proofs::CheckpointLemmas::unfolded))]
    fn checkpoint(&mut self) -> Response
        ensures answer { RespondsOrStarves self.old request.Checkpoint result self.new }
        ensures fits { ResponseFits result }
    {
        match self.centre.checkpoint() {
            Ok(count) => Response::Folded(count),
            Err(refusal) => Response::Refused(refusal),
        }
    }

    /// The generation kept for the BSC whose link the line speaks of; 0 where it speaks of none.
    fn generation_for(&self, line: &Line) -> u64
        ensures { result ≡ kept_for self.now.kept (link_of line.now) }
    {
        match link_of(line) {
            Some(bsc) => self.generations.of(bsc),
            None => 0,
        }
    }

    /// Answers a line that stands for no event.
    fn respond_other(&mut self, line: Line) -> Result<Response, AllocError>
        ensures answer { IfOk result (λ r. MeetsOther self.old line r self.new) }
        ensures fits { IfOk result ResponseFits }
    {
        match line {
            Line::Keep(bsc, generation) => self.keep(bsc, generation),
            Line::Board(warning) => Ok(self.board(warning)),
            Line::AreaBoard(warning, area) => Ok(self.area_board(warning, area)),
            Line::Pending(bsc) => Ok(self.pending(bsc)),
            Line::Table(bsc) => Ok(self.table(bsc)),
            Line::Rebuild => Ok(self.rebuild()),
            Line::Checkpoint => Ok(self.checkpoint()),
            other => {
                drop(other);
                Ok(Response::BadLine)
            }
        }
    }

    /// Enters an event. The generation of a link that comes up is kept.
    #[tactic(auto, using(crate::proofs::LineLemmas::entered_link, crate::proofs::LineLemmas::entered_other))]
    fn enter(&mut self, event: Event) -> Result<Response, AllocError>
        ensures answer { IfOk result (λ r. Meets self.old (came.Event event) r self.new) }
        ensures fits { IfOk result ResponseFits }
    {
        match link_up_of(&event) {
            Some(bsc) => {
                drop(event);
                self.bring_up(bsc)
            }
            None => Ok(self.submit(event)),
        }
    }

    /// Answers a line that came to this.
    fn meet(&mut self, event: LineEvent) -> Result<Response, AllocError>
        ensures answer { IfOk result (λ r. Meets self.old event r self.new) }
        ensures fits { IfOk result ResponseFits }
    {
        match event {
            LineEvent::Event(event) => self.enter(event),
            LineEvent::Bad(fault) => Ok(fault.response()),
            LineEvent::Other(line) => self.respond_other(line),
        }
    }

    #[tactic(auto, using(crate::proofs::LineLemmas::responded))]
    fn respond(&mut self, line: Line) -> Result<Response, AllocError>
        ensures answer { IfOk result (λ r. RespondsOrStarves self.old line r self.new) }
        ensures fits { IfOk result ResponseFits }
    {
        let generation = self.generation_for(&line);
        let event = event_of(self.alloc, line, generation)?;
        self.meet(event)
    }

    /// Answers one line, given without its end. At an `Err` the line is not answered; its event may be entered.
    pub fn answer(&mut self, line: &[u8]) -> Result<Response, AllocError>
        ensures answer { IfOk result (λ r. AnswersOrStarves self.old line.now r self.new) }
        ensures fits { IfOk result ResponseFits }
    {
        let words = split_words(self.alloc, line)?;
        let [first, ..] = words.as_slice() else {
            return Ok(Response::Silence);
        };
        if is_comment(first.as_slice()) {
            return Ok(Response::Silence);
        }
        match read_line(self.alloc, &words)? {
            Some(line) => self.respond(line),
            None => Ok(Response::BadLine),
        }
    }
}

/// The BSC whose link the event brings up.
fn link_up_of(event: &Event) -> Option<BscId>
    ensures { result ≡ link_up_of event.now }
{
    match event {
        Event::LinkUp(bsc) => Some(*bsc),
        _ => None,
    }
}

/// What a question is answered, as a line tells it.
fn told(value: SeenValue) -> Response
    requires { IsToldInLine value }
    ensures told { result ≡ told value }
    ensures fits { ResponseFits result }
{
    match value {
        SeenValue::Numbers(numbers) => Response::Board(numbers),
        SeenValue::Pending(orders) => Response::Pending(orders),
        SeenValue::Table(keys) => Response::Table(keys),
        SeenValue::Place(_)
        | SeenValue::InFlight(_)
        | SeenValue::Bscs(_)
        | SeenValue::Cells(_)
        | SeenValue::Areas(_)
        | SeenValue::Selectors(_)
        | SeenValue::Warnings(_)
        | SeenValue::Warning(_)
        | SeenValue::Failed(_) => unreachable!(),
    }
}

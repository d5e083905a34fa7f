//! What is due for the link of a BSC is entered, in one step under the lock.

use crate::desk::Desk;
use crate::held::Held;
use crate::unsent::Unsent;
use crate::wake::Wake;
use cell_register::BscId;
use centre_events::event::Event;
use centre_events::refusal::Refusal;
use std::sync::ledger::Ledger;

impl<L: Ledger> Held<L> {
    ghost use Rattle.std.specs.Prelude.{◌≡◌};
    ghost use Rattle.office.specs.Sendings.{DoesDue, SendsDue, Submits};

    /// Enters what there is to do for the link of that generation, if there is something: an order by a Send of the desk, a query
    /// by an Ask. A query's wish is taken out, whatever its Ask is answered. Nothing is submitted where the link is over or the
    /// centre is stale. `Memory` may come before the centre looked at the event, where there is none for the receipt.
    pub fn send_due(
        &mut self,
        desk: &mut Desk<L>,
        b: BscId,
        generation: u64,
    ) -> Option<Result<(), Unsent>>
        ensures { SendsDue self.old desk.old b generation result self.new desk.new }
    {
        let wake = self.take_wake(b, generation)?;
        Some(self.enter_due(desk, b, generation, wake))
    }

    /// Enters what there is to do for the link of that generation.
    fn enter_due(
        &mut self,
        desk: &mut Desk<L>,
        b: BscId,
        generation: u64,
        wake: Wake,
    ) -> Result<(), Unsent>
        ensures { DoesDue b generation wake self.old desk.old result self.new desk.new }
    {
        match wake {
            Wake::Order => {
                let send = Event::Send(b, generation);
                self.submit_with_room(desk, send, Event::Send(b, generation))
            }
            Wake::Query(warning, after) => {
                let ask = Event::Ask(b, generation, warning, after);
                self.submit_with_room(desk, ask, Event::Ask(b, generation, warning, after))
            }
            Wake::Ended => Err(Unsent::Ended),
            Wake::StaleCentre => Err(Unsent::StaleCentre),
        }
    }

    /// Submits the event of the desk, of which the copy is kept on its receipt, once there is room for that.
    fn submit_with_room(
        &mut self,
        desk: &mut Desk<L>,
        event: Event,
        copy: Event,
    ) -> Result<(), Unsent>
        requires same { copy ≡ event }
        ensures { Submits event self.old desk.old result self.new desk.new }
    {
        if desk.reserve().is_err() {
            drop(event);
            drop(copy);
            return Err(Unsent::Refused(Refusal::Memory));
        }
        match self.submit(desk, event, copy) {
            Ok(()) => Ok(()),
            Err(refusal) => Err(Unsent::Refused(refusal)),
        }
    }
}

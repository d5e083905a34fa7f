//! The link of each BSC with what is in flight over it, kept beside the journal.

ghost use Rattle.std.specs.Prelude.{◌≡◌, true, IfOk, OnOk, OnErr, IsOk};
ghost use Rattle.std.specs.Option.{option_copied};
ghost use Rattle.centre_events.specs.InFlight.{sent_flight, asked_flight, is_replied};
ghost use Rattle.centre_events.specs.Kept.{is_edit};
ghost use Rattle.centre_events.specs.Past.{Past};
ghost use Rattle.centre_past.specs.Links.{AreLinksOf, flight_in, flight_kept, generation_of, link_in, links_after, links_edited, up_before, up_of, with_flight};

use crate::kept_links::KeptLinks;
use crate::up_or_down::UpOrDown;
use cell_register::BscId;
use centre_events::answer::Answer;
use centre_events::event::Event;
use centre_events::in_flight::InFlight;
use coverage_plan::Edit;
use std::alloc::{AllocError, Global};

/// Whether the link of the BSC is up.
pub fn is_up(links: &KeptLinks, b: BscId) -> bool
    ensures { result ≡ up_of (link_in links.now b) }
{
    match links.get(b) {
        Some(link) => link.state.is_up(),
        None => false,
    }
}

/// The generation of the BSC's latest link.
pub fn generation(links: &KeptLinks, b: BscId) -> u64
    ensures { result ≡ generation_of (link_in links.now b) }
{
    match links.get(b) {
        Some(link) => link.generation,
        None => 0,
    }
}

/// What is in flight to the BSC.
pub fn flight_in(links: &KeptLinks, b: BscId) -> Option<&InFlight>
    ensures { option_copied result ≡ flight_in links.now b }
{
    match links.get(b) {
        Some(link) => link.state.flight(),
        None => None,
    }
}

/// What is in flight to the BSC of an event that is no edit.
pub fn flight_of<'a>(links: &'a KeptLinks, event: &Event) -> Option<&'a InFlight>
    ensures { option_copied result ≡ flight_kept links.now event.now }
{
    match event.bsc() {
        Some(b) => flight_in(links, b),
        None => None,
    }
}

/// Whether the event brings up a link that is up already.
pub fn up_before(links: &KeptLinks, event: &Event) -> bool
    ensures { (past : Past) → AreLinksOf past links.now → result ≡ up_before past event.now }
{
    match event {
        Event::LinkUp(b) => is_up(links, *b),
        _ => false,
    }
}

/// Keeps that as what is in flight over the BSC's link, which is up, in the place of what was.
fn put_flight(links: &mut KeptLinks, b: BscId, flight: Option<InFlight>) -> Result<(), AllocError>
    ensures put { OnOk result (links.new ≡ with_flight b flight links.old) }
    ensures unchanged { OnErr result (links.new ≡ links.old) }
{
    let last = generation(links, b);
    links.put(b, last, UpOrDown::Up { flight })
}

/// Whether the answer is a reply's.
fn is_replied(answer: &Answer) -> bool
    ensures { result ≡ is_replied answer.now }
{
    matches!(answer, Answer::Replied(_))
}

/// What is in flight after a Send with that answer.
fn sent_flight(alloc: Global, answer: &Answer) -> Result<Option<InFlight>, AllocError>
    ensures { IfOk result (λ flight. flight ≡ sent_flight answer.now) }
{
    let Answer::Sent { order, message: _ } = answer else {
        return Ok(None);
    };
    let order = order.copied(alloc)?;
    Ok(Some(InFlight::Order(order)))
}

/// What is in flight after an Ask with that answer.
fn asked_flight(alloc: Global, answer: &Answer) -> Result<Option<InFlight>, AllocError>
    ensures { IfOk result (λ flight. flight ≡ asked_flight answer.now) }
{
    let Answer::Asked {
        message_id,
        serial,
        cells,
        message: _,
    } = answer
    else {
        return Ok(None);
    };
    let cells = cells.copied(alloc)?;
    Ok(Some(InFlight::Query {
        message_id: *message_id,
        serial: *serial,
        cells,
    }))
}

/// Puts what a Send was answered in flight to the BSC.
fn begin_order(
    alloc: Global,
    links: &mut KeptLinks,
    b: BscId,
    answer: &Answer,
) -> Result<(), AllocError>
    ensures begun { OnOk result (links.new ≡ with_flight b (sent_flight answer.now) links.old) }
    ensures unchanged { OnErr result (links.new ≡ links.old) }
{
    let flight = sent_flight(alloc, answer)?;
    put_flight(links, b, flight)
}

/// Puts what an Ask was answered in flight to the BSC.
fn begin_query(
    alloc: Global,
    links: &mut KeptLinks,
    b: BscId,
    answer: &Answer,
) -> Result<(), AllocError>
    ensures begun { OnOk result (links.new ≡ with_flight b (asked_flight answer.now) links.old) }
    ensures unchanged { OnErr result (links.new ≡ links.old) }
{
    let flight = asked_flight(alloc, answer)?;
    put_flight(links, b, flight)
}

/// The links after an edit.
fn follow_edit(links: &mut KeptLinks, edit: &Edit)
    ensures { links.new ≡ links_edited edit.now links.old }
{
    if let Edit::AddBsc(b) = edit {
        links.take_out(*b);
    }
}

/// The links after the event with that answer, whose entry has that number. An edit takes no memory.
pub fn follow(
    alloc: Global,
    links: &mut KeptLinks,
    event: &Event,
    answer: &Answer,
    place: u64,
) -> Result<(), AllocError>
    ensures followed { OnOk result (links.new ≡ links_after event.now answer.now place links.old) }
    ensures unchanged { OnErr result (links.new ≡ links.old) }
    ensures edits { is_edit event.now ≡ true → IsOk result }
{
    match event {
        Event::Edit(edit) => {
            follow_edit(links, edit);
            Ok(())
        }
        Event::LinkUp(b) => links.put(*b, place, UpOrDown::Up { flight: None }),
        Event::LinkDown(b, _) => {
            let last = generation(links, *b);
            links.put(*b, last, UpOrDown::Down)
        }
        Event::Send(b, _) => begin_order(alloc, links, *b, answer),
        Event::Ask(b, _, _, _) => begin_query(alloc, links, *b, answer),
        Event::Report(b, _, _) if is_replied(answer) => put_flight(links, *b, None),
        _ => Ok(()),
    }
}

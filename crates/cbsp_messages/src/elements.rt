//! The elements of a body by their identifiers.

ghost use Rattle.std.specs.Prelude.{◌≡◌, ◌≢◌, ◌⊎◌, true, false, not, None, Some, IsSome, OnOk, IfErr, is_some};
ghost use Rattle.std.specs.List.{find};
ghost use Rattle.cbsp_ie.specs.Element.{element_id_of};
ghost use Rattle.cbsp_messages.specs.Layout.{demanded_of, layout_at};
ghost use Rattle.cbsp_messages.specs.Parts.{no_parts, is_there, values_at, with_element};
ghost use Rattle.cbsp_messages.specs.Taken.{parts_taken};

use crate::fault::MessageFault;
use crate::layout::Layout;
use crate::message_type::MessageType;
use crate::page::Page;
use crate::pages::Pages;
use cbsp_ie::{Cause, CellList, CountList, Element, ElementId, FailureList, SecurityView};
use std::alloc::Global;

/// One place for each identifier, and the pages in their order. Lists are lent from the body.
#[derive(Drop)]
pub struct Elements<'a> {
    pub pages: Pages,
    pub old_serial: Option<u16>,
    pub new_serial: Option<u16>,
    pub cells: Option<CellList<'a>>,
    pub category: Option<u8>,
    pub period: Option<u16>,
    pub requested: Option<u16>,
    pub counts: Option<CountList<'a>>,
    pub failures: Option<FailureList<'a>>,
    pub cause: Option<Cause>,
    pub dcs: Option<u8>,
    pub recovery: Option<u8>,
    pub message_id: Option<u16>,
    pub emergency: Option<u8>,
    pub warning_type: Option<u16>,
    pub security: Option<SecurityView<'a>>,
    pub channel: Option<u8>,
    pub page_count: Option<u8>,
    pub kind: Option<u8>,
    pub warning_period: Option<u8>,
}

impl<'a> Elements<'a> {
    /// None.
    pub fn new(alloc: Global) -> Elements<'a>
        ensures { parts_taken result ≡ no_parts }
    {
        Elements {
            pages: Pages::new(alloc),
            old_serial: None,
            new_serial: None,
            cells: None,
            category: None,
            period: None,
            requested: None,
            counts: None,
            failures: None,
            cause: None,
            dcs: None,
            recovery: None,
            message_id: None,
            emergency: None,
            warning_type: None,
            security: None,
            channel: None,
            page_count: None,
            kind: None,
            warning_period: None,
        }
    }

    /// Whether an element with the identifier was put in.
    pub fn has(&self, id: ElementId) -> bool
        ensures { result ≡ is_there (parts_taken self.now) id }
    {
        match id {
            ElementId::MessageContent => self.pages.len() != 0,
            ElementId::OldSerialNumber => self.old_serial.is_some(),
            ElementId::NewSerialNumber => self.new_serial.is_some(),
            ElementId::CellList => self.cells.is_some(),
            ElementId::Category => self.category.is_some(),
            ElementId::RepetitionPeriod => self.period.is_some(),
            ElementId::BroadcastsRequested => self.requested.is_some(),
            ElementId::BroadcastsCompleted => self.counts.is_some(),
            ElementId::FailureList => self.failures.is_some(),
            ElementId::Cause => self.cause.is_some(),
            ElementId::DataCodingScheme => self.dcs.is_some(),
            ElementId::RecoveryIndication => self.recovery.is_some(),
            ElementId::MessageIdentifier => self.message_id.is_some(),
            ElementId::EmergencyIndicator => self.emergency.is_some(),
            ElementId::WarningType => self.warning_type.is_some(),
            ElementId::WarningSecurity => self.security.is_some(),
            ElementId::ChannelIndicator => self.channel.is_some(),
            ElementId::NumberOfPages => self.page_count.is_some(),
            ElementId::BroadcastMessageType => self.kind.is_some(),
            ElementId::WarningPeriod => self.warning_period.is_some(),
        }
    }

    /// Puts an element in its place, and a page behind the others. A second element with an
    /// identifier other than a page's is refused.
    pub fn put(&mut self, element: Element<'a>) -> Result<(), MessageFault>
        ensures ok { OnOk result (parts_taken self.new ≡ with_element (parts_taken self.old) element.entry) }
        ensures fresh { OnOk result (element_id_of element.entry ≢ ElementId.MessageContent → is_there (parts_taken self.old) (element_id_of element.entry) ≡ false) }
        ensures err { IfErr result (λ f. (f ≡ MessageFault.Memory) ⊎ ((element_id_of element.entry ≢ ElementId.MessageContent) × (is_there (parts_taken self.old) (element_id_of element.entry) ≡ true) × (f ≡ MessageFault.Repeated (element_id_of element.entry)))) }
    {
        match element {
            Element::MessageContent(page) => {
                self.pages.push(Page::of_view(&page))?;
                Ok(())
            }
            Element::OldSerialNumber(n) => fill(
                &mut self.old_serial,
                n,
                ElementId::OldSerialNumber,
            ),
            Element::NewSerialNumber(n) => fill(
                &mut self.new_serial,
                n,
                ElementId::NewSerialNumber,
            ),
            Element::CellList(cells) => fill(&mut self.cells, cells, ElementId::CellList),
            Element::Category(n) => fill(&mut self.category, n, ElementId::Category),
            Element::RepetitionPeriod(n) => fill(&mut self.period, n, ElementId::RepetitionPeriod),
            Element::BroadcastsRequested(n) => fill(
                &mut self.requested,
                n,
                ElementId::BroadcastsRequested,
            ),
            Element::BroadcastsCompleted(counts) => fill(
                &mut self.counts,
                counts,
                ElementId::BroadcastsCompleted,
            ),
            Element::FailureList(failures) => fill(
                &mut self.failures,
                failures,
                ElementId::FailureList,
            ),
            Element::Cause(cause) => fill(&mut self.cause, cause, ElementId::Cause),
            Element::DataCodingScheme(n) => fill(&mut self.dcs, n, ElementId::DataCodingScheme),
            Element::RecoveryIndication(n) => fill(
                &mut self.recovery,
                n,
                ElementId::RecoveryIndication,
            ),
            Element::MessageIdentifier(n) => fill(
                &mut self.message_id,
                n,
                ElementId::MessageIdentifier,
            ),
            Element::EmergencyIndicator(n) => fill(
                &mut self.emergency,
                n,
                ElementId::EmergencyIndicator,
            ),
            Element::WarningType(n) => fill(&mut self.warning_type, n, ElementId::WarningType),
            Element::WarningSecurity(octets) => fill(
                &mut self.security,
                octets,
                ElementId::WarningSecurity,
            ),
            Element::ChannelIndicator(n) => fill(&mut self.channel, n, ElementId::ChannelIndicator),
            Element::NumberOfPages(n) => fill(&mut self.page_count, n, ElementId::NumberOfPages),
            Element::BroadcastMessageType(n) => fill(
                &mut self.kind,
                n,
                ElementId::BroadcastMessageType,
            ),
            Element::WarningPeriod(n) => fill(
                &mut self.warning_period,
                n,
                ElementId::WarningPeriod,
            ),
        }
    }

    /// The layout of a body of the type with these elements.
    pub fn layout(&self, kind: MessageType) -> Layout
        ensures { result ≡ layout_at kind (values_at (parts_taken self.now)) }
    {
        match kind {
            MessageType::WriteReplace => match self.emergency {
                None => Layout::WriteReplace,
                Some(_) => Layout::WriteEmergency,
            },
            MessageType::WriteComplete => Layout::WriteComplete,
            MessageType::WriteFailure => Layout::WriteFailure,
            MessageType::Kill => Layout::Kill,
            MessageType::KillComplete => Layout::KillComplete,
            MessageType::KillFailure => Layout::KillFailure,
            MessageType::StatusQuery => Layout::StatusQuery,
            MessageType::StatusComplete => Layout::StatusComplete,
            MessageType::StatusFailure => Layout::StatusFailure,
            MessageType::Restart => Layout::Restart,
            MessageType::Failure => Layout::Failure,
            MessageType::ErrorIndication => Layout::ErrorIndication,
        }
    }

    /// The first element that the layout demands and that isn't there.
    pub fn first_missing(&self, layout: Layout) -> Option<ElementId>
        ensures { result ≡ find (λ id. not (is_there (parts_taken self.now) id)) (demanded_of layout) }
    {
        let demanded = layout.table().demanded;
        demanded.iter().copied().find(|id| !self.has(*id))
    }
}

/// Puts a value in an empty place.
fn fill<T: Drop>(place: &mut Option<T>, value: T, id: ElementId) -> Result<(), MessageFault>
    ensures ok { OnOk result ((is_some place.old ≡ false) × (place.new ≡ Some value)) }
    ensures err { IfErr result (λ f. (is_some place.old ≡ true) × (f ≡ MessageFault.Repeated id)) }
{
    if place.is_some() {
        return Err(MessageFault::Repeated { id });
    }
    *place = Some(value);
    Ok(())
}

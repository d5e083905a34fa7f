//! An information element.

ghost use Rattle.std.specs.Prelude.{◌≡◌};
ghost use Rattle.cbsp_ie.specs.Element.{element_id_of};

use crate::cause::Cause;
use crate::cell_list::CellList;
use crate::count_list::CountList;
use crate::element_id::ElementId;
use crate::failure_list::FailureList;
use crate::page_view::PageView;
use crate::security_view::SecurityView;

/// An information element with its value. Pages and lists are lent from the octets that they were
/// read from. A number of four bits is kept without the spare bits of its octet.
#[derive(Drop)]
pub enum Element<'a> {
    /// One page; a message has an element for each.
    MessageContent(PageView<'a>),
    /// The serial number of the message that is meant, or that is replaced.
    OldSerialNumber(u16),
    /// The serial number that a message is written with.
    NewSerialNumber(u16),
    /// The cells that are meant.
    CellList(CellList<'a>),
    /// 0 high priority, 1 background, 2 normal.
    Category(u8),
    /// In units of 1.883 s.
    RepetitionPeriod(u16),
    /// How often the message is to be broadcast, 0 until it is killed.
    BroadcastsRequested(u16),
    /// How often the message was broadcast in cells.
    BroadcastsCompleted(CountList<'a>),
    /// The cells in which an order failed, each with its cause.
    FailureList(FailureList<'a>),
    /// Why a message was not understood.
    Cause(Cause),
    /// The alphabet and the language of the pages, as one octet (3GPP TS 23.038, clause 5).
    DataCodingScheme(u8),
    /// 0 where the cells still have their messages, 1 where these are lost.
    RecoveryIndication(u8),
    /// The source and the kind of the message (3GPP TS 23.041, 9.4.1.2.2).
    MessageIdentifier(u16),
    /// An octet that is kept whole.
    EmergencyIndicator(u8),
    /// Two octets that are kept whole, the most significant first.
    WarningType(u16),
    /// 50 octets that are kept as they are.
    WarningSecurity(SecurityView<'a>),
    /// 0 the basic channel, 1 the extended one.
    ChannelIndicator(u8),
    /// How many pages the message has. Whether it has so many isn't looked at here.
    NumberOfPages(u8),
    /// 0 for broadcasts of the usual kind, 1 for emergencies.
    BroadcastMessageType(u8),
    /// An octet that is kept whole, a code for a time.
    WarningPeriod(u8),
}

impl<'a> Element<'a> {
    /// The identifier that stands in front of the value.
    pub fn id(&self) -> ElementId
        ensures { result ≡ element_id_of self.now }
    {
        match self {
            Element::MessageContent(_) => ElementId::MessageContent,
            Element::OldSerialNumber(_) => ElementId::OldSerialNumber,
            Element::NewSerialNumber(_) => ElementId::NewSerialNumber,
            Element::CellList(_) => ElementId::CellList,
            Element::Category(_) => ElementId::Category,
            Element::RepetitionPeriod(_) => ElementId::RepetitionPeriod,
            Element::BroadcastsRequested(_) => ElementId::BroadcastsRequested,
            Element::BroadcastsCompleted(_) => ElementId::BroadcastsCompleted,
            Element::FailureList(_) => ElementId::FailureList,
            Element::Cause(_) => ElementId::Cause,
            Element::DataCodingScheme(_) => ElementId::DataCodingScheme,
            Element::RecoveryIndication(_) => ElementId::RecoveryIndication,
            Element::MessageIdentifier(_) => ElementId::MessageIdentifier,
            Element::EmergencyIndicator(_) => ElementId::EmergencyIndicator,
            Element::WarningType(_) => ElementId::WarningType,
            Element::WarningSecurity(_) => ElementId::WarningSecurity,
            Element::ChannelIndicator(_) => ElementId::ChannelIndicator,
            Element::NumberOfPages(_) => ElementId::NumberOfPages,
            Element::BroadcastMessageType(_) => ElementId::BroadcastMessageType,
            Element::WarningPeriod(_) => ElementId::WarningPeriod,
        }
    }
}

//! The table of information elements.

ghost use Rattle.std.specs.Prelude.{◌≡◌};
ghost use Rattle.cbsp_ie.specs.ElementId.{NamesElement, code_of, extent_of};

use crate::extent::Extent;

/// The information elements of this profile (3GPP TS 48.049, 8.2.1), in the order of the octets that
/// name them.
#[derive(Clone, Copy, PartialEq, Eq, Debug)]
pub enum ElementId {
    MessageContent,
    OldSerialNumber,
    NewSerialNumber,
    CellList,
    Category,
    RepetitionPeriod,
    BroadcastsRequested,
    BroadcastsCompleted,
    FailureList,
    Cause,
    DataCodingScheme,
    RecoveryIndication,
    MessageIdentifier,
    EmergencyIndicator,
    WarningType,
    WarningSecurity,
    ChannelIndicator,
    NumberOfPages,
    BroadcastMessageType,
    WarningPeriod,
}

/// The octet names no element.
#[derive(Clone, Copy, PartialEq, Eq, Debug)]
pub struct UnknownElementId(pub u8);

impl ElementId {
    /// The octet that names the element.
    pub fn code(self) -> u8
        ensures { result ≡ code_of self }
    {
        match self {
            ElementId::MessageContent => 0x01,
            ElementId::OldSerialNumber => 0x02,
            ElementId::NewSerialNumber => 0x03,
            ElementId::CellList => 0x04,
            ElementId::Category => 0x05,
            ElementId::RepetitionPeriod => 0x06,
            ElementId::BroadcastsRequested => 0x07,
            ElementId::BroadcastsCompleted => 0x08,
            ElementId::FailureList => 0x09,
            ElementId::Cause => 0x0b,
            ElementId::DataCodingScheme => 0x0c,
            ElementId::RecoveryIndication => 0x0d,
            ElementId::MessageIdentifier => 0x0e,
            ElementId::EmergencyIndicator => 0x0f,
            ElementId::WarningType => 0x10,
            ElementId::WarningSecurity => 0x11,
            ElementId::ChannelIndicator => 0x12,
            ElementId::NumberOfPages => 0x13,
            ElementId::BroadcastMessageType => 0x16,
            ElementId::WarningPeriod => 0x17,
        }
    }

    /// How many octets its value has.
    pub fn extent(self) -> Extent
        ensures { result ≡ extent_of self }
    {
        match self {
            ElementId::MessageContent => Extent::Fixed(83),
            ElementId::OldSerialNumber => Extent::Fixed(2),
            ElementId::NewSerialNumber => Extent::Fixed(2),
            ElementId::CellList => Extent::Counted,
            ElementId::Category => Extent::Fixed(1),
            ElementId::RepetitionPeriod => Extent::Fixed(2),
            ElementId::BroadcastsRequested => Extent::Fixed(2),
            ElementId::BroadcastsCompleted => Extent::Counted,
            ElementId::FailureList => Extent::Counted,
            ElementId::Cause => Extent::Fixed(1),
            ElementId::DataCodingScheme => Extent::Fixed(1),
            ElementId::RecoveryIndication => Extent::Fixed(1),
            ElementId::MessageIdentifier => Extent::Fixed(2),
            ElementId::EmergencyIndicator => Extent::Fixed(1),
            ElementId::WarningType => Extent::Fixed(2),
            ElementId::WarningSecurity => Extent::Fixed(50),
            ElementId::ChannelIndicator => Extent::Fixed(1),
            ElementId::NumberOfPages => Extent::Fixed(1),
            ElementId::BroadcastMessageType => Extent::Fixed(1),
            ElementId::WarningPeriod => Extent::Fixed(1),
        }
    }
}

impl TryFrom<u8> for ElementId {
    type Error = UnknownElementId;

    ghost try_from_gives = { NamesElement };

    fn try_from(code: u8) -> Result<ElementId, UnknownElementId> {
        match code {
            0x01 => Ok(ElementId::MessageContent),
            0x02 => Ok(ElementId::OldSerialNumber),
            0x03 => Ok(ElementId::NewSerialNumber),
            0x04 => Ok(ElementId::CellList),
            0x05 => Ok(ElementId::Category),
            0x06 => Ok(ElementId::RepetitionPeriod),
            0x07 => Ok(ElementId::BroadcastsRequested),
            0x08 => Ok(ElementId::BroadcastsCompleted),
            0x09 => Ok(ElementId::FailureList),
            0x0b => Ok(ElementId::Cause),
            0x0c => Ok(ElementId::DataCodingScheme),
            0x0d => Ok(ElementId::RecoveryIndication),
            0x0e => Ok(ElementId::MessageIdentifier),
            0x0f => Ok(ElementId::EmergencyIndicator),
            0x10 => Ok(ElementId::WarningType),
            0x11 => Ok(ElementId::WarningSecurity),
            0x12 => Ok(ElementId::ChannelIndicator),
            0x13 => Ok(ElementId::NumberOfPages),
            0x16 => Ok(ElementId::BroadcastMessageType),
            0x17 => Ok(ElementId::WarningPeriod),
            _ => Err(UnknownElementId(code)),
        }
    }
}

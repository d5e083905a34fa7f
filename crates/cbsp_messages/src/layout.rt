//! The layouts of messages.

ghost use Rattle.std.specs.Prelude.{◌≡◌};
ghost use Rattle.cbsp_messages.specs.Layout.{demanded_of, optional_of, written_of};

use cbsp_ie::ElementId;

/// Which elements a message has, and in which order (3GPP TS 48.049, 8.1.3). Each type has one layout but
/// WRITE-REPLACE, which has a second one for an emergency warning.
#[derive(Clone, Copy, Debug, PartialEq, Eq)]
pub enum Layout {
    WriteReplace,
    WriteEmergency,
    WriteComplete,
    WriteFailure,
    Kill,
    KillComplete,
    KillFailure,
    StatusQuery,
    StatusComplete,
    StatusFailure,
    Restart,
    Failure,
    ErrorIndication,
}

/// The elements of a layout.
#[derive(Clone, Copy)]
pub struct Table {
    /// Those that have to be there, in the order in which one that is missing is named.
    pub demanded: &'static [ElementId],
    /// The others that are taken where they are there. An element of neither list is passed over.
    pub optional: &'static [ElementId],
    /// All of these, in the order in which they are written.
    pub written: &'static [ElementId],
}

impl Layout {
    /// The elements of the layout.
    pub fn table(self) -> Table
        ensures demanded { result.demanded.now ≡ demanded_of self }
        ensures optional { result.optional.now ≡ optional_of self }
        ensures written { result.written.now ≡ written_of self }
    {
        match self {
            Layout::WriteReplace => Table {
                demanded: &[
                    ElementId::MessageIdentifier,
                    ElementId::NewSerialNumber,
                    ElementId::CellList,
                    ElementId::Category,
                    ElementId::RepetitionPeriod,
                    ElementId::BroadcastsRequested,
                    ElementId::NumberOfPages,
                    ElementId::DataCodingScheme,
                    ElementId::MessageContent,
                ],
                optional: &[ElementId::OldSerialNumber, ElementId::ChannelIndicator],
                written: &[
                    ElementId::MessageIdentifier,
                    ElementId::NewSerialNumber,
                    ElementId::OldSerialNumber,
                    ElementId::CellList,
                    ElementId::ChannelIndicator,
                    ElementId::Category,
                    ElementId::RepetitionPeriod,
                    ElementId::BroadcastsRequested,
                    ElementId::NumberOfPages,
                    ElementId::DataCodingScheme,
                    ElementId::MessageContent,
                ],
            },
            Layout::WriteEmergency => Table {
                demanded: &[
                    ElementId::MessageIdentifier,
                    ElementId::NewSerialNumber,
                    ElementId::CellList,
                    ElementId::EmergencyIndicator,
                    ElementId::WarningType,
                    ElementId::WarningPeriod,
                    ElementId::WarningSecurity,
                ],
                optional: &[ElementId::OldSerialNumber],
                written: &[
                    ElementId::MessageIdentifier,
                    ElementId::NewSerialNumber,
                    ElementId::OldSerialNumber,
                    ElementId::CellList,
                    ElementId::EmergencyIndicator,
                    ElementId::WarningType,
                    ElementId::WarningPeriod,
                    ElementId::WarningSecurity,
                ],
            },
            Layout::WriteComplete => Table {
                demanded: &[ElementId::MessageIdentifier, ElementId::NewSerialNumber],
                optional: &[
                    ElementId::OldSerialNumber,
                    ElementId::BroadcastsCompleted,
                    ElementId::CellList,
                    ElementId::ChannelIndicator,
                ],
                written: &[
                    ElementId::MessageIdentifier,
                    ElementId::NewSerialNumber,
                    ElementId::OldSerialNumber,
                    ElementId::BroadcastsCompleted,
                    ElementId::CellList,
                    ElementId::ChannelIndicator,
                ],
            },
            Layout::WriteFailure => Table {
                demanded: &[
                    ElementId::MessageIdentifier,
                    ElementId::NewSerialNumber,
                    ElementId::FailureList,
                ],
                optional: &[
                    ElementId::OldSerialNumber,
                    ElementId::BroadcastsCompleted,
                    ElementId::CellList,
                    ElementId::ChannelIndicator,
                ],
                written: &[
                    ElementId::MessageIdentifier,
                    ElementId::NewSerialNumber,
                    ElementId::OldSerialNumber,
                    ElementId::FailureList,
                    ElementId::BroadcastsCompleted,
                    ElementId::CellList,
                    ElementId::ChannelIndicator,
                ],
            },
            Layout::Kill => Table {
                demanded: &[
                    ElementId::MessageIdentifier,
                    ElementId::OldSerialNumber,
                    ElementId::CellList,
                ],
                optional: &[ElementId::ChannelIndicator],
                written: &[
                    ElementId::MessageIdentifier,
                    ElementId::OldSerialNumber,
                    ElementId::CellList,
                    ElementId::ChannelIndicator,
                ],
            },
            Layout::KillComplete => Table {
                demanded: &[ElementId::MessageIdentifier, ElementId::OldSerialNumber],
                optional: &[
                    ElementId::BroadcastsCompleted,
                    ElementId::CellList,
                    ElementId::ChannelIndicator,
                ],
                written: &[
                    ElementId::MessageIdentifier,
                    ElementId::OldSerialNumber,
                    ElementId::BroadcastsCompleted,
                    ElementId::CellList,
                    ElementId::ChannelIndicator,
                ],
            },
            Layout::KillFailure => Table {
                demanded: &[
                    ElementId::MessageIdentifier,
                    ElementId::OldSerialNumber,
                    ElementId::FailureList,
                ],
                optional: &[
                    ElementId::BroadcastsCompleted,
                    ElementId::CellList,
                    ElementId::ChannelIndicator,
                ],
                written: &[
                    ElementId::MessageIdentifier,
                    ElementId::OldSerialNumber,
                    ElementId::FailureList,
                    ElementId::BroadcastsCompleted,
                    ElementId::CellList,
                    ElementId::ChannelIndicator,
                ],
            },
            Layout::StatusQuery => Table {
                demanded: &[
                    ElementId::MessageIdentifier,
                    ElementId::OldSerialNumber,
                    ElementId::CellList,
                ],
                optional: &[ElementId::ChannelIndicator],
                written: &[
                    ElementId::MessageIdentifier,
                    ElementId::OldSerialNumber,
                    ElementId::CellList,
                    ElementId::ChannelIndicator,
                ],
            },
            Layout::StatusComplete => Table {
                demanded: &[
                    ElementId::MessageIdentifier,
                    ElementId::OldSerialNumber,
                    ElementId::BroadcastsCompleted,
                ],
                optional: &[ElementId::ChannelIndicator],
                written: &[
                    ElementId::MessageIdentifier,
                    ElementId::OldSerialNumber,
                    ElementId::BroadcastsCompleted,
                    ElementId::ChannelIndicator,
                ],
            },
            Layout::StatusFailure => Table {
                demanded: &[
                    ElementId::MessageIdentifier,
                    ElementId::OldSerialNumber,
                    ElementId::FailureList,
                ],
                optional: &[ElementId::BroadcastsCompleted, ElementId::ChannelIndicator],
                written: &[
                    ElementId::MessageIdentifier,
                    ElementId::OldSerialNumber,
                    ElementId::FailureList,
                    ElementId::BroadcastsCompleted,
                    ElementId::ChannelIndicator,
                ],
            },
            Layout::Restart => Table {
                demanded: &[
                    ElementId::CellList,
                    ElementId::BroadcastMessageType,
                    ElementId::RecoveryIndication,
                ],
                optional: &[],
                written: &[
                    ElementId::CellList,
                    ElementId::BroadcastMessageType,
                    ElementId::RecoveryIndication,
                ],
            },
            Layout::Failure => Table {
                demanded: &[ElementId::FailureList, ElementId::BroadcastMessageType],
                optional: &[],
                written: &[ElementId::FailureList, ElementId::BroadcastMessageType],
            },
            Layout::ErrorIndication => Table {
                demanded: &[ElementId::Cause],
                optional: &[
                    ElementId::MessageIdentifier,
                    ElementId::NewSerialNumber,
                    ElementId::OldSerialNumber,
                    ElementId::ChannelIndicator,
                ],
                written: &[
                    ElementId::Cause,
                    ElementId::MessageIdentifier,
                    ElementId::NewSerialNumber,
                    ElementId::OldSerialNumber,
                    ElementId::ChannelIndicator,
                ],
            },
        }
    }
}

//! Why an order or a cell failed.

/// The cause of a failure (3GPP TS 48.049, 8.2.13). A value without a name here is kept as its number.
#[derive(Clone, Copy, PartialEq, Eq, Debug)]
pub struct Cause(pub u8);

impl Cause {
    /// An element is unknown.
    pub const PARAMETER_NOT_RECOGNISED: Cause = Cause(0);

    /// An element has a value that it may not have.
    pub const PARAMETER_VALUE_INVALID: Cause = Cause(1);

    /// No message has that Message Identifier and serial number.
    pub const MESSAGE_REFERENCE_NOT_IDENTIFIED: Cause = Cause(2);

    /// There is no such cell.
    pub const CELL_IDENTITY_NOT_VALID: Cause = Cause(3);

    /// The type of the message is unknown.
    pub const UNRECOGNISED_MESSAGE: Cause = Cause(4);

    /// An element that is demanded isn't there.
    pub const MISSING_MANDATORY_ELEMENT: Cause = Cause(5);

    /// The BSC has more to do than it can.
    pub const BSC_CAPACITY_EXCEEDED: Cause = Cause(6);

    /// The cell has no room for one message more.
    pub const CELL_MEMORY_EXCEEDED: Cause = Cause(7);

    /// The BSC has no room for one message more.
    pub const BSC_MEMORY_EXCEEDED: Cause = Cause(8);

    /// The cell has no cell broadcast.
    pub const CELL_BROADCAST_NOT_SUPPORTED: Cause = Cause(9);

    /// The cell's broadcast is down for now.
    pub const CELL_BROADCAST_NOT_OPERATIONAL: Cause = Cause(10);

    /// The parameters of discontinuous reception can't be met.
    pub const INCOMPATIBLE_DRX_PARAMETER: Cause = Cause(11);

    /// The cell has the basic channel alone.
    pub const EXTENDED_CHANNEL_NOT_SUPPORTED: Cause = Cause(12);

    /// A message with that Message Identifier and serial number is there already.
    pub const MESSAGE_REFERENCE_ALREADY_USED: Cause = Cause(13);

    /// None of the other causes says it.
    pub const UNSPECIFIED_ERROR: Cause = Cause(14);

    /// There is no such location area.
    pub const LAI_OR_LAC_NOT_VALID: Cause = Cause(15);
}

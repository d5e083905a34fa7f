//! One entry of a list of broadcasts completed.

ghost use Rattle.std.specs.Prelude.{◌≡◌, ◌++◌, OnOk, OnErr, take, length};
ghost use Rattle.cbsp_ie.specs.Counts.{IsCountEntry};
ghost use Rattle.cbsp_ie.specs.Written.{count_octets};

use crate::cell_id::CellId;
use std::alloc::AllocError;

/// How often a message was broadcast in the cells that an identification names.
#[derive(Clone, Copy, PartialEq, Eq)]
pub struct CountEntry {
    pub id: CellId,
    pub number: u16,
    /// 0 where the number is valid, and else why it is not (3GPP TS 48.049, 8.2.10).
    pub info: u8,
}

impl CountEntry {
    // Appends the octets of the entry, or at an `Err` perhaps a part of them.
    pub(crate) fn write(&self, out: &mut Vec<u8>) -> Result<(), AllocError>
        ensures ok { OnOk result (out.new.items ≡ out.old.items ++ count_octets self.now) }
        ensures err { OnErr result (take (length out.old.items) out.new.items ≡ out.old.items) }
    {
        self.id.write(out)?;
        let [high, low] = self.number.to_be_bytes();
        out.extend_from_slice(&[high, low, self.info % 16])
    }

    // That its numbers are in their ranges is known once they are read.
    pub(crate) fn ranges(&self)
        ensures { IsCountEntry self.now }
    {
        self.id.ranges();
        let _number = self.number;
        let _info = self.info;
    }
}

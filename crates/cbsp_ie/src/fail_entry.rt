//! One entry of a failure list.

ghost use Rattle.std.specs.Prelude.{◌≡◌, ◌++◌, OnOk, OnErr, take, length};
ghost use Rattle.cbsp_ie.specs.Failures.{IsFailEntry};
ghost use Rattle.cbsp_ie.specs.Written.{failure_octets};

use crate::cause::Cause;
use crate::cell_id::CellId;
use std::alloc::AllocError;

/// The cells that an identification names failed, and why.
#[derive(Clone, Copy, PartialEq, Eq)]
pub struct FailEntry {
    pub id: CellId,
    pub cause: Cause,
}

impl FailEntry {
    // Appends the octets of the entry, or at an `Err` perhaps a part of them.
    pub(crate) fn write(&self, out: &mut Vec<u8>) -> Result<(), AllocError>
        ensures ok { OnOk result (out.new.items ≡ out.old.items ++ failure_octets self.now) }
        ensures err { OnErr result (take (length out.old.items) out.new.items ≡ out.old.items) }
    {
        out.extend_from_slice(&[self.id.form().discriminator()])?;
        self.id.write(out)?;
        out.extend_from_slice(&[self.cause.0])
    }

    // That its numbers are in their ranges is known once they are read.
    pub(crate) fn ranges(&self)
        ensures { IsFailEntry self.now }
    {
        self.id.ranges();
        let _cause = self.cause.0;
    }
}

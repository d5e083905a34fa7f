//! A warning as it stood before an edit.

ghost use Rattle.std.specs.Prelude.{◌≡◌, IfOk};
ghost use Rattle.centre_lines.specs.Found.{WarningHead, head_of};

use common::Name;
use serials::Serial;
use smallvec::SmallVec;
use std::alloc::{AllocError, Global};
use std::marker::Model;
use std::rc::Rc;
use warning_book::Warning;

/// The serial numbers, in memory of their own. A few need no memory.
fn own_serials(alloc: Global, serials: &[Serial]) -> Result<SmallVec<Serial, 8>, AllocError>
    ensures { IfOk result (λ s. s.items ≡ serials.now) }
{
    let mut out = SmallVec::new(alloc);
    for serial in serials {
        out.push(*serial)?;
    }
    Ok(out)
}

/// The names, in memory of their own.
fn own_names(alloc: Global, names: &[Name]) -> Result<Vec<Name>, AllocError>
    ensures { IfOk result (λ n. n.items ≡ names.now) }
{
    let mut out = Vec::with_capacity(alloc, names.len())?;
    for name in names {
        out.push(name.copied(alloc)?)?;
    }
    Ok(out)
}

/// What is read of a warning.
#[derive(Drop)]
struct Head {
    message_id: u16,
    serials: SmallVec<Serial, 8>,
    areas: Vec<Name>,
    serial: Option<Serial>,
    active: bool,
}

/// What is read of a warning for its lines, as it was before an edit that may change it. Its lines share it in one place in
/// memory.
#[derive(Drop)]
pub(crate) struct WarningBefore {
    head: Rc<Head>,
}

impl Model for WarningBefore {
    ghost use Rattle.centre_lines.specs.Found.{WarningHead};

    ghost Value = { WarningHead };

    ghost view = { λ s. record { message_id = s.head.value.message_id; serials = s.head.value.serials.items; areas = s.head.value.areas.items; serial = s.head.value.serial; active = s.head.value.active } };
}

impl WarningBefore {
    /// What is read of the warning.
    pub(crate) fn of(alloc: Global, warning: &Warning) -> Result<WarningBefore, AllocError>
        ensures { IfOk result (λ s. s ≡ head_of warning.now) }
    {
        let head = Head {
            message_id: warning.message_id(),
            serials: own_serials(alloc, warning.serials())?,
            areas: own_names(alloc, warning.areas())?,
            serial: warning.serial(),
            active: warning.is_active(),
        };
        Ok(WarningBefore {
            head: Rc::new(alloc, head)?,
        })
    }

    /// The same, in the same place in memory. The only `Err` is that of a place that is shared 2^64 - 1 times.
    pub(crate) fn shared(&self) -> Result<WarningBefore, AllocError>
        ensures { IfOk result (λ s. s ≡ self.now) }
    {
        Ok(WarningBefore {
            head: self.head.clone()?,
        })
    }

    /// The message identifier (TS 23.041, 9.4.1.2.2).
    pub(crate) fn message_id(&self) -> u16
        ensures { result ≡ self.now.message_id }
    {
        self.head.message_id
    }

    /// The serial numbers of the versions, the current one last.
    pub(crate) fn serials(&self) -> &[Serial]
        ensures { result.now ≡ self.now.serials }
    {
        self.head.serials.as_slice()
    }

    /// The serial number of the current version.
    pub(crate) fn serial(&self) -> Option<Serial>
        ensures { result ≡ self.now.serial }
    {
        self.head.serial
    }

    /// The areas, in the order in which they were named.
    pub(crate) fn areas(&self) -> &[Name]
        ensures { result.now ≡ self.now.areas }
    {
        self.head.areas.as_slice()
    }

    /// Whether it was not stopped.
    pub(crate) fn is_active(&self) -> bool
        ensures { result ≡ self.now.active }
    {
        self.head.active
    }
}

//! A warning in the book.

use crate::kind::Kind;
use crate::version::Version;
use crate::versions::Versions;
use crate::warning_areas::WarningAreas;
use crate::warning_id::WarningId;
use common::Name;
use serials::Serial;
use std::alloc::AllocError;

/// A warning: its versions and its areas. It is active until it is stopped.
#[derive(Drop)]
pub struct Warning {
    pub(crate) number: WarningId,
    pub(crate) message_id: u16,
    pub(crate) versions: Versions,
    pub(crate) areas: WarningAreas,
    pub(crate) active: bool,
}

impl Clone for Warning {
    ghost use Rattle.std.specs.Prelude.{◌≡◌};

    ghost is_clone = { λ s t. t ≡ s };

    fn clone(&self) -> Result<Warning, AllocError> {
        Ok(Warning {
            number: self.number,
            message_id: self.message_id,
            versions: self.versions.clone()?,
            areas: self.areas.clone()?,
            active: self.active,
        })
    }
}

impl Warning {
    ghost use Rattle.std.specs.Prelude.{◌≡◌, map};
    ghost use Rattle.std.specs.Option.{option_map};
    ghost use Rattle.serials.specs.Serials.{next_of};
    ghost use Rattle.warning_book.specs.Book.{current_of, kind_of};

    pub fn number(&self) -> WarningId
        ensures { result ≡ self.now.number }
    {
        self.number
    }

    /// The message identifier (TS 23.041, 9.4.1.2.2).
    pub fn message_id(&self) -> u16
        ensures { result ≡ self.now.message_id }
    {
        self.message_id
    }

    /// The versions in the order in which they were issued, the current one last.
    pub fn versions(&self) -> &[Version]
        ensures { result.now ≡ self.now.versions }
    {
        self.versions.as_slice()
    }

    /// The serial numbers of its versions, the current one last.
    pub fn serials(&self) -> &[Serial]
        ensures { result.now ≡ map (λ v. v.serial) self.now.versions }
    {
        self.versions.serials()
    }

    /// The kind of its versions.
    pub fn kind(&self) -> Kind
        ensures { result ≡ kind_of self.now }
    {
        match self.versions.as_slice().first() {
            Some(version) => version.content.kind(),
            None => Kind::Cbs,
        }
    }

    /// The serial number of the current version.
    #[tactic(auto, using(crate::proofs::VersionLemmas::last_at))]
    pub fn serial(&self) -> Option<Serial>
        ensures { result ≡ current_of self.now }
    {
        self.versions
            .as_slice()
            .last()
            .map(|version| version.serial)
    }

    /// The serial number of the next version; `None` where there is no version.
    pub(crate) fn next_serial(&self) -> Option<Serial>
        ensures { result ≡ option_map next_of (current_of self.now) }
    {
        match self.serial() {
            Some(serial) => Some(serial.next()),
            None => None,
        }
    }

    /// The areas, in the order in which they were named.
    pub fn areas(&self) -> &[Name]
        ensures { result.now ≡ self.now.areas }
    {
        self.areas.as_slice()
    }

    /// Whether it was not stopped.
    pub fn is_active(&self) -> bool
        ensures { result ≡ self.now.active }
    {
        self.active
    }
}

//! A list of reported keys.

ghost use Rattle.std.specs.Prelude.{◌≡◌, IfOk};

use crate::reported::reported_key::ReportedKey;
use std::alloc::{AllocError, Global};
use std::marker::Model;

/// Reported keys by cell, message identifier and serial number.
#[derive(Debug)]
pub struct ReportedKeys {
    keys: Vec<ReportedKey>,
}

/// Written out, so that no crate above proves anew how its parts are dropped.
impl Drop for ReportedKeys {
    fn drop(self) {
        let ReportedKeys { keys: _keys } = self;
    }
}

impl Model for ReportedKeys {
    ghost use Rattle.std.specs.Prelude.{List};
    ghost use Rattle.centre_past.specs.declared.reported.reported_key.ReportedKey.{ReportedKey};

    ghost Value = { List ReportedKey };

    ghost view = { λ s. s.keys.items };
}

impl ReportedKeys {
    /// The keys of the vector, which is moved.
    pub fn from_vec(keys: Vec<ReportedKey>) -> ReportedKeys
        ensures { result ≡ keys.items }
    {
        ReportedKeys { keys }
    }

    pub fn as_slice(&self) -> &[ReportedKey]
        ensures { result.now ≡ self.now }
    {
        &self.keys
    }

    /// The keys as a vector, which is moved and not copied.
    pub fn into_vec(self) -> Vec<ReportedKey>
        ensures { result.items ≡ self }
    {
        let ReportedKeys { keys } = self;
        keys
    }

    /// The same keys in memory of their own.
    pub fn copied(&self, alloc: Global) -> Result<ReportedKeys, AllocError>
        ensures { IfOk result (λ copy. copy ≡ self.now) }
    {
        let keys = Vec::from_slice(alloc, self.as_slice())?;
        Ok(ReportedKeys::from_vec(keys))
    }
}

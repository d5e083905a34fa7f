//! The keys that are on air.

ghost use Rattle.std.specs.Prelude.{◌≡◌, [], IfOk, OnOk, OnErr};
ghost use Rattle.bsc_sim.specs.Keys.{has, with_key, without_key};

use crate::key::Key;
use std::alloc::{AllocError, Global};
use std::collections::BTreeSet;
use std::marker::Model;

/// Keys in ascending order, each once.
#[derive(Drop)]
pub(crate) struct Keys {
    keys: BTreeSet<Key>,
}

impl Model for Keys {
    ghost use Rattle.std.specs.Prelude.{List};
    ghost use Rattle.bsc_sim.specs.declared.key.Key.{Key};

    ghost Value = { List Key };

    ghost view = { λ s. s.keys.keys };
}

impl Keys {
    pub(crate) fn new(alloc: Global) -> Keys
        ensures { result ≡ [] }
    {
        Keys {
            keys: BTreeSet::new(alloc),
        }
    }

    pub(crate) fn has(&self, key: Key) -> bool
        ensures { result ≡ has self.now key }
    {
        self.keys.contains(&key)
    }

    /// Puts the key in its place, unless it is there. At an `Err` nothing changed.
    pub(crate) fn insert(&mut self, key: Key) -> Result<(), AllocError>
        ensures ok { OnOk result (self.new ≡ with_key self.old key) }
        ensures err { OnErr result (self.new ≡ self.old) }
    {
        self.keys.insert(key)?;
        Ok(())
    }

    pub(crate) fn remove(&mut self, key: Key)
        ensures { self.new ≡ without_key self.old key }
    {
        self.keys.remove(&key);
    }

    /// The same keys in memory of their own.
    pub(crate) fn copied(&self) -> Result<Keys, AllocError>
        ensures { IfOk result (λ copy. copy ≡ self.now) }
    {
        let keys = self.keys.clone()?;
        Ok(Keys { keys })
    }
}

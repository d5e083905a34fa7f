//! The link of a port.

ghost use Rattle.std.specs.Prelude.{◌≡◌, false};
ghost use Rattle.server_ports.specs.Causes.{shut_after};

use crate::connection::Connection;
use crate::shut::Shut;

/// The link of a port, from when its connection is taken until both its sides have ended.
#[derive(Drop)]
pub(crate) struct UpLink {
    pub(crate) connection: Connection,
    /// Its generation, once it has come up.
    pub(crate) generation: Option<u64>,
    /// Neither side has ended, and nobody has ended it.
    pub(crate) is_live: bool,
    /// Why this program ended it.
    pub(crate) shut: Option<Shut>,
}

impl UpLink {
    /// The link of a connection that was taken just now.
    pub(crate) fn new(connection: Connection) -> UpLink {
        UpLink {
            connection,
            generation: None,
            is_live: true,
            shut: None,
        }
    }

    /// Whether it has this generation, or isn't up yet.
    pub(crate) fn may_be(&self, generation: u64) -> bool {
        match self.generation {
            Some(own) => own == generation,
            None => true,
        }
    }

    /// Has both sides end. Why, is kept where nothing had ended it before.
    pub(crate) fn end(&mut self, shut: Option<Shut>)
        ensures why { self.new.shut ≡ shut_after self.old.is_live self.old.shut shut }
        ensures ended { self.new.is_live ≡ false }
        ensures link { self.new.generation ≡ self.old.generation }
    {
        if self.is_live && self.shut.is_none() {
            self.shut = shut;
        }
        self.is_live = false;
        self.connection.shut();
    }
}

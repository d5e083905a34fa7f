//! What the thread of a console waits for.

use crate::connection::Connection;
use std::alloc::Global;
use std::sync::Arc;

/// What has come for the thread of a console.
#[derive(Drop)]
pub(crate) enum Next {
    Connection(Arc<Connection, Global>),
    /// Nothing, for a while.
    Nothing,
    /// The consoles are closing.
    Closing,
}

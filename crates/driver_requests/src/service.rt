//! What serving a request comes to.
use board_devices::Kind;

/// What serving a request came to.
#[derive(Drop)]
pub struct Service {
    /// What its process is told.
    pub kind: Kind,
    /// Whether the request completed, so that the process waits no more.
    pub completed: bool,
}

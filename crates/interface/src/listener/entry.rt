//! A socket of a backlog.
use crate::listener::stage::Stage;
use iface_egress::SocketHandle;

/// A socket of a backlog: its handle, its stage, and when a refresh saw it come to this stage, in microseconds.
#[derive(Clone, Copy, Debug, PartialEq, Eq)]
pub struct Entry {
    pub handle: SocketHandle,
    pub stage: Stage,
    pub since: u64,
}

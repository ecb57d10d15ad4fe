//! Which segments are for a socket.
ghost use Rattle.std.specs.Prelude.{◌≡◌};
ghost use Rattle.tcp_state.specs.Endpoints.{is_connected_by};
ghost use Rattle.tcp_block.specs.Names.{accepts};

use crate::{State, Tcb};
use ip_wire::{IpRepr, TcpHeader};
use tcp_state::endpoints::{is_bare, takes_address};

impl Tcb {
    /// Whether a segment is for this socket: in LISTEN by the port and the address that it listens
    /// on, later by all four endpoint values.
    pub fn accepts(&self, ip_repr: &IpRepr, header: &TcpHeader) -> bool
        ensures { result ≡ accepts self.now ip_repr.now header.now }
    {
        match self.state {
            State::Closed => false,
            State::Listen => {
                self.names.listen.port == header.dst_port
                    && takes_address(self.names.listen.addr, &ip_repr.dst_addr())
                    && is_bare(header.ack_number, header.control)
            }
            _ => match self.names.pair {
                None => false,
                Some(pair) => pair.is_between(ip_repr, header),
            },
        }
    }
}

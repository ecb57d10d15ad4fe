//! What a socket sees of its host: of a connection, how long packets may be that go to its remote.
ghost use Rattle.std.specs.Prelude.{◌≡◌};
ghost use Rattle.interface.specs.Remote.{address_in, remote_of, end_by};

use iface_egress::InterfaceInner;
use iface_ingress::Socket;
use ip_wire::{IpAddress, IpEndpoint};
use net_base::Instant;

/// The one destination of all that a socket sends: a connection's remote.
pub fn remote_of(socket: &Socket) -> Option<IpAddress>
    ensures { result ≡ remote_of socket.now }
{
    match socket {
        Socket::Tcp(socket) => address_in(socket.remote_endpoint()),
        _ => None,
    }
}

fn address_in(endpoint: Option<IpEndpoint>) -> Option<IpAddress>
    ensures { result ≡ address_in endpoint }
{
    match endpoint {
        Some(endpoint) => Some(endpoint.addr),
        None => None,
    }
}

/// When what is known of the path to a socket's one destination ends.
pub fn end_by(inner: &InterfaceInner, remote: &Option<IpAddress>) -> Option<Instant>
    ensures { result ≡ end_by inner.now remote.now }
{
    match remote {
        Some(remote) => inner.path_end(remote),
        None => None,
    }
}

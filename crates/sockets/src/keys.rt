//! By which key a socket is found when something arrives for it.
ghost use Rattle.std.specs.Prelude.{◌≡◌, ◌<◌};
ghost use Rattle.sockets.specs.Keys.{key_with, of_cidr, of_clients, of_icmp, of_listeners, of_port, of_ports, of_raw};

use crate::tcp;

/// A key: a kind of sockets, an own port and a remote one.
fn key_with(kind: u64, own: u16, remote: u16) -> u64
    requires { kind < 8 }
    ensures { result ≡ key_with kind own remote }
{
    (kind * 65536 + own as u64) * 65536 + remote as u64
}

/// The key of raw sockets.
pub fn of_raw() -> u64
    ensures { result ≡ of_raw }
{
    key_with(0, 0, 0)
}

/// The key of ICMP sockets.
pub fn of_icmp() -> u64
    ensures { result ≡ of_icmp }
{
    key_with(1, 0, 0)
}

/// The key of the clients of DHCP and DNS.
pub fn of_clients() -> u64
    ensures { result ≡ of_clients }
{
    key_with(2, 0, 0)
}

/// The key of UDP sockets that are bound to this port.
pub fn of_port(own: u16) -> u64
    ensures { result ≡ of_port own }
{
    key_with(3, own, 0)
}

/// The key of TCP sockets that listen on this port.
pub fn of_listeners(own: u16) -> u64
    ensures { result ≡ of_listeners own }
{
    key_with(4, own, 0)
}

/// The key of connections between these ports.
pub fn of_ports(own: u16, remote: u16) -> u64
    ensures { result ≡ of_ports own remote }
{
    key_with(5, own, remote)
}

/// The key of a TCP socket.
pub(crate) fn of_connection(socket: &tcp::Socket) -> u64
    ensures { result ≡ of_cidr socket.now.tcb }
{
    if socket.is_listening() {
        return of_listeners(socket.listen_endpoint().port);
    }
    match (socket.local_endpoint(), socket.remote_endpoint()) {
        (Some(own), Some(remote)) => of_ports(own.port, remote.port),
        _ => of_ports(0, 0),
    }
}

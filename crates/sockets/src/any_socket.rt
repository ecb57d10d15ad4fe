//! What sockets of all kinds have in common, as a trait.
ghost use Rattle.std.specs.Prelude.{◌≡◌, IfOk, IfErr, Option, None, Some};
ghost use Rattle.std.specs.Option.{option_copied, option_copied_mut};
ghost use Rattle.std.specs.Borrow.{sem, LendsIf};
ghost use Rattle.sockets.specs.AnySocket.{as_raw, as_icmp, as_udp, as_tcp, as_dhcpv4, as_dns};
ghost use Rattle.sockets.specs.declared.socket.Socket as AnyKind;
ghost use Rattle.sockets.specs.declared.socket.Socket.TheVariants as Kind;
ghost use Rattle.sockets.specs.contracts.socket.Socket.{the_row};

use crate::boxed::Boxed;
use crate::socket::Socket;
use crate::{dhcp, dns, icmp, raw, tcp, udp};
use std::alloc::{AllocFailed, Global};

/// A socket of some kind.
pub trait AnySocket: Sized {
    /// the socket as one of any kind
    ghost upcast_of: { Self → AnyKind.Socket };

    /// the socket, if it is of this kind
    ghost downcast_of: { AnyKind.Socket → Option Self };

    /// The socket as one of any kind, in memory of its own, if there is any.
    fn upcast(self, alloc: Global) -> Result<Socket, AllocFailed<Self>>
        ensures ok { IfOk result (λ s. s ≡ upcast_of self) }
        ensures value_returned { IfErr result (λ e. e.value ≡ self) };

    /// The socket of this kind, if it is one.
    fn downcast(socket: &Socket) -> Option<&Self>
        ensures { option_copied result ≡ downcast_of socket.now };

    /// The socket of this kind for writing, if it is one.
    fn downcast_mut(socket: &mut Socket) -> Option<&mut Self>
        ensures* writes_back { sem 𝓛 (LendsIf the_row Self.row socket.entry result upcast_of socket.old) }
        ensures value { option_copied_mut result ≡ downcast_of socket.old };

    /// The socket of this kind out of its memory. One of another kind is handed back.
    fn take(socket: Socket) -> Result<Self, Socket>
        ensures taken { IfOk result (λ s. downcast_of socket ≡ Some s) }
        ensures handed_back { IfErr result (λ e. (e ≡ socket) × (downcast_of socket ≡ None)) };

    /// an upcast socket is downcast to itself
    ghost given_back: { (s : Self) → downcast_of (upcast_of s) ≡ Some s };
}

impl AnySocket for raw::Socket {
    ghost use Rattle.std.specs.Prelude.{refl};

    ghost upcast_of = { λ s. Kind.Raw s };

    ghost downcast_of = { as_raw };

    fn upcast(self, alloc: Global) -> Result<Socket, AllocFailed<raw::Socket>> {
        Ok(Socket::Raw(Boxed::new(alloc, self)?))
    }

    fn downcast(socket: &Socket) -> Option<&raw::Socket> {
        match socket {
            Socket::Raw(socket) => Some(socket),
            _ => None,
        }
    }

    fn downcast_mut(socket: &mut Socket) -> Option<&mut raw::Socket> {
        match socket {
            Socket::Raw(socket) => Some(socket),
            _ => None,
        }
    }

    fn take(socket: Socket) -> Result<raw::Socket, Socket> {
        match socket {
            Socket::Raw(socket) => Ok(socket.into_inner()),
            socket => Err(socket),
        }
    }

    ghost given_back = { λ s. refl };
}

impl AnySocket for icmp::Socket {
    ghost use Rattle.std.specs.Prelude.{refl};

    ghost upcast_of = { λ s. Kind.Icmp s };

    ghost downcast_of = { as_icmp };

    fn upcast(self, alloc: Global) -> Result<Socket, AllocFailed<icmp::Socket>> {
        Ok(Socket::Icmp(Boxed::new(alloc, self)?))
    }

    fn downcast(socket: &Socket) -> Option<&icmp::Socket> {
        match socket {
            Socket::Icmp(socket) => Some(socket),
            _ => None,
        }
    }

    fn downcast_mut(socket: &mut Socket) -> Option<&mut icmp::Socket> {
        match socket {
            Socket::Icmp(socket) => Some(socket),
            _ => None,
        }
    }

    fn take(socket: Socket) -> Result<icmp::Socket, Socket> {
        match socket {
            Socket::Icmp(socket) => Ok(socket.into_inner()),
            socket => Err(socket),
        }
    }

    ghost given_back = { λ s. refl };
}

impl AnySocket for udp::Socket {
    ghost use Rattle.std.specs.Prelude.{refl};

    ghost upcast_of = { λ s. Kind.Udp s };

    ghost downcast_of = { as_udp };

    fn upcast(self, alloc: Global) -> Result<Socket, AllocFailed<udp::Socket>> {
        Ok(Socket::Udp(Boxed::new(alloc, self)?))
    }

    fn downcast(socket: &Socket) -> Option<&udp::Socket> {
        match socket {
            Socket::Udp(socket) => Some(socket),
            _ => None,
        }
    }

    fn downcast_mut(socket: &mut Socket) -> Option<&mut udp::Socket> {
        match socket {
            Socket::Udp(socket) => Some(socket),
            _ => None,
        }
    }

    fn take(socket: Socket) -> Result<udp::Socket, Socket> {
        match socket {
            Socket::Udp(socket) => Ok(socket.into_inner()),
            socket => Err(socket),
        }
    }

    ghost given_back = { λ s. refl };
}

impl AnySocket for tcp::Socket {
    ghost use Rattle.std.specs.Prelude.{refl};

    ghost upcast_of = { λ s. Kind.Tcp s };

    ghost downcast_of = { as_tcp };

    fn upcast(self, alloc: Global) -> Result<Socket, AllocFailed<tcp::Socket>> {
        Ok(Socket::Tcp(Boxed::new(alloc, self)?))
    }

    fn downcast(socket: &Socket) -> Option<&tcp::Socket> {
        match socket {
            Socket::Tcp(socket) => Some(socket),
            _ => None,
        }
    }

    fn downcast_mut(socket: &mut Socket) -> Option<&mut tcp::Socket> {
        match socket {
            Socket::Tcp(socket) => Some(socket),
            _ => None,
        }
    }

    fn take(socket: Socket) -> Result<tcp::Socket, Socket> {
        match socket {
            Socket::Tcp(socket) => Ok(socket.into_inner()),
            socket => Err(socket),
        }
    }

    ghost given_back = { λ s. refl };
}

impl AnySocket for dhcp::Socket {
    ghost use Rattle.std.specs.Prelude.{refl};

    ghost upcast_of = { λ s. Kind.Dhcpv4 s };

    ghost downcast_of = { as_dhcpv4 };

    fn upcast(self, alloc: Global) -> Result<Socket, AllocFailed<dhcp::Socket>> {
        Ok(Socket::Dhcpv4(Boxed::new(alloc, self)?))
    }

    fn downcast(socket: &Socket) -> Option<&dhcp::Socket> {
        match socket {
            Socket::Dhcpv4(socket) => Some(socket),
            _ => None,
        }
    }

    fn downcast_mut(socket: &mut Socket) -> Option<&mut dhcp::Socket> {
        match socket {
            Socket::Dhcpv4(socket) => Some(socket),
            _ => None,
        }
    }

    fn take(socket: Socket) -> Result<dhcp::Socket, Socket> {
        match socket {
            Socket::Dhcpv4(socket) => Ok(socket.into_inner()),
            socket => Err(socket),
        }
    }

    ghost given_back = { λ s. refl };
}

impl AnySocket for dns::Socket {
    ghost use Rattle.std.specs.Prelude.{refl};

    ghost upcast_of = { λ s. Kind.Dns s };

    ghost downcast_of = { as_dns };

    fn upcast(self, alloc: Global) -> Result<Socket, AllocFailed<dns::Socket>> {
        Ok(Socket::Dns(Boxed::new(alloc, self)?))
    }

    fn downcast(socket: &Socket) -> Option<&dns::Socket> {
        match socket {
            Socket::Dns(socket) => Some(socket),
            _ => None,
        }
    }

    fn downcast_mut(socket: &mut Socket) -> Option<&mut dns::Socket> {
        match socket {
            Socket::Dns(socket) => Some(socket),
            _ => None,
        }
    }

    fn take(socket: Socket) -> Result<dns::Socket, Socket> {
        match socket {
            Socket::Dns(socket) => Ok(socket.into_inner()),
            socket => Err(socket),
        }
    }

    ghost given_back = { λ s. refl };
}

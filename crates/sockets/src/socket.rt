//! A socket of any kind.
ghost use Rattle.std.specs.Prelude.{◌≡◌};
ghost use Rattle.socket_context.specs.Packet.{option_value};
ghost use Rattle.sockets.specs.Socket.{Offers, offered_by, settled, poll_of, IfSendable};

use crate::boxed::Boxed;
use crate::{dhcp, dns, icmp, raw, tcp, udp};
use socket_context::{Context, Offer, Packet, PollAt};

/// A socket of any kind.
#[derive(Debug, Drop)]
pub enum Socket {
    Raw(Boxed<raw::Socket>),
    Icmp(Boxed<icmp::Socket>),
    Udp(Boxed<udp::Socket>),
    Tcp(Boxed<tcp::Socket>),
    Dhcpv4(Boxed<dhcp::Socket>),
    Dns(Boxed<dns::Socket>),
}

impl Socket {
    /// Asks the socket for a packet. Where there is one, `offered` lends it until `settle` says what became
    /// of it.
    pub fn offer<C: Context>(&mut self, cx: &C) -> Offer
        ensures offer { Offers (C.context cx.now) self.old result self.new }
        ensures sendable { IfSendable (offered_by self.new) }
    {
        match self {
            Socket::Raw(socket) => {
                raw::offered_fits();
                socket.offer(cx)
            }
            Socket::Icmp(socket) => {
                icmp::offered_fits();
                socket.offer(cx)
            }
            Socket::Udp(socket) => {
                udp::offered_fits();
                socket.offer(cx)
            }
            Socket::Tcp(socket) => socket.offer(cx),
            Socket::Dhcpv4(socket) => socket.offer(cx),
            Socket::Dns(socket) => socket.offer(cx),
        }
    }

    /// The packet of the open offer.
    pub fn offered(&self) -> Option<Packet<'_>>
        ensures { option_value result ≡ offered_by self.now }
    {
        match self {
            Socket::Raw(socket) => socket.offered(),
            Socket::Icmp(socket) => socket.offered(),
            Socket::Udp(socket) => socket.offered(),
            Socket::Tcp(socket) => socket.offered(),
            Socket::Dhcpv4(socket) => socket.offered(),
            Socket::Dns(socket) => socket.offered(),
        }
    }

    /// Says what became of the offered packet. A datagram that was sent leaves its queue, another one stays
    /// first; a segment that was sent is recorded, another one leaves all as it is; after a message that was sent a client
    /// waits for its answer.
    pub fn settle(&mut self, sent: bool)
        ensures { self.new ≡ settled sent self.old }
    {
        match self {
            Socket::Raw(socket) => socket.settle(sent),
            Socket::Icmp(socket) => socket.settle(sent),
            Socket::Udp(socket) => socket.settle(sent),
            Socket::Tcp(socket) => socket.settle(sent),
            Socket::Dhcpv4(socket) => socket.settle(sent),
            Socket::Dns(socket) => socket.settle(sent),
        }
    }

    /// When the socket wants to be polled.
    pub fn poll_at<C: Context>(&self, cx: &C) -> PollAt
        ensures { result ≡ poll_of (C.context cx.now) self.now }
    {
        match self {
            Socket::Raw(socket) => socket.poll_at(),
            Socket::Icmp(socket) => socket.poll_at(),
            Socket::Udp(socket) => socket.poll_at(),
            Socket::Tcp(socket) => socket.poll_at(cx),
            Socket::Dhcpv4(socket) => socket.poll_at(cx),
            Socket::Dns(socket) => socket.poll_at(cx),
        }
    }
}

//! What is sent at once in answer to a frame.
ghost use Rattle.std.specs.Prelude.{◌≡◌, IfSome};
ghost use Rattle.sockets.specs.Packet.{option_value, IsSendable};
ghost use Rattle.iface_ingress.specs.Arrives.{IfCanGo, told, answered, reply_of};

use ip_wire::ArpRepr;
use sockets::Packet;

/// What is sent at once in answer to a frame.
#[derive(Clone, Copy, Debug)]
pub enum Reply<'a> {
    Arp(ArpRepr),
    Packet(Packet<'a>),
}

/// An ARP packet that answers one.
pub(crate) fn arp_reply<'a>(packet: &Option<ArpRepr>) -> Option<Reply<'a>>
    ensures reply { reply_of result ≡ told packet.now }
    ensures sendable { IfCanGo (reply_of result) }
{
    match packet {
        Some(packet) => Some(Reply::Arp(*packet)),
        None => None,
    }
}

/// A packet that answers one.
pub(crate) fn packet_reply<'a>(packet: &Option<Packet<'a>>) -> Option<Reply<'a>>
    requires { IfSome (option_value packet.now) IsSendable }
    ensures reply { reply_of result ≡ answered (option_value packet.now) }
    ensures sendable { IfCanGo (reply_of result) }
{
    match packet {
        Some(packet) => Some(Reply::Packet(*packet)),
        None => None,
    }
}

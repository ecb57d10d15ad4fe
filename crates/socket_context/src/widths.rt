//! What the types of a packet say of its numbers: each has the width of its field. A caller that holds a packet calls the law, and then
//! it is known of the packet's value.
ghost use Rattle.ip_wire.specs.Ip as Ips;
ghost use Rattle.socket_context.specs.WellFormed.{HasWidths};
ghost use Rattle.socket_context.specs.Packet.{packet_value, payload_value};

mod headers;
mod messages;

use self::headers::{ip_widths, tcp_widths, udp_widths};
use self::messages::{icmpv4_widths, icmpv6_widths};
use crate::packet::{IpPayload, Packet};

/// Law: each field of a packet is a number of its width, since it is of that type, and a neighbour message carries no bytes. A caller
/// that holds the packet calls this, which does nothing.
pub fn fields_have_widths(packet: &Packet<'_>)
    ensures header { Ips.IsValue (packet_value packet.now).header }
    ensures payload { HasWidths (packet_value packet.now).payload }
{
    ip_widths(packet.ip_repr());
    payload_widths(packet.payload());
}

/// Each field of a payload is a number of its width.
fn payload_widths(payload: &IpPayload<'_>)
    ensures { HasWidths (payload_value payload.now) }
{
    match payload {
        IpPayload::Icmpv4(message) => icmpv4_widths(message),
        IpPayload::Icmpv6(message) => icmpv6_widths(message),
        IpPayload::Raw(_) => {}
        IpPayload::Udp(header, _) => udp_widths(*header),
        IpPayload::Tcp(header, _) => tcp_widths(*header),
    }
}

//! Laws of packets, whatever offers them.
ghost use Rattle.std.specs.Prelude.{◌≡◌, ◌↔◌, Bool, IsTrue, length};
ghost use Rattle.net_base.specs.ChecksumCapabilities.{ChecksumCapabilities};
ghost use Rattle.ip_wire.specs.Ip as Ips;
ghost use Rattle.ip_wire.specs.IpRepr.{IpRepr};
ghost use Rattle.socket_context.specs.Packet.{PayloadValue, PayloadFits, packet_value, payload_value, payload_len, payload_written};
ghost use Rattle.socket_context.specs.SegmentPayload.{payload_bytes};
ghost use Rattle.socket_context.specs.Widths.{IsPayload};
ghost use Rattle.socket_context.specs.declared.offer.Offer.{Offer};
ghost use Rattle.socket_context.specs.declared.packet.IpPayload.{IpPayload};
ghost use Rattle.socket_context.specs.declared.packet.Packet.{Packet};
ghost use Rattle.socket_context.specs.declared.poll_at.PollAt.{PollAt};
ghost use Rattle.socket_context.specs.declared.segment_payload.SegmentPayload.{SegmentPayload};

use crate::offer::Offer;
use crate::packet::{IpPayload, Packet};
use crate::poll_at::PollAt;
use crate::segment_payload::SegmentPayload;
use control_wire::{icmpv4_laws, icmpv6_laws};
use ip_wire::{ip_laws, tcp_laws, udp_laws};

/// Law: a header, and what can be sent after it, are written in as many bytes as their lengths say.
pub fn written_lengths()
    ensures header { (sealed : Bool) (v : IpRepr) → Ips.IsValue v → length (Ips.written sealed v) ≡ Ips.header_len_in v }
    ensures payload { (caps : ChecksumCapabilities) (ip : IpRepr) (v : PayloadValue)
        → PayloadFits ip v
        → IsPayload v
        → length (payload_written caps ip v) ≡ payload_len v }
{
    ip_laws::ip_written_len();
    udp_laws::udp_written_len();
    tcp_laws::tcp_written_len();
    icmpv4_laws::icmpv4_written_len();
    icmpv6_laws::icmpv6_written_len();
}

/// Law: `==` says of two answers to an offer, and of two instants to poll at, whether they are the
/// same, of two texts of segments whether they are the same bytes, and of two packets, and of what they carry, whether they have the same
/// value.
pub fn equal<'a>()
    ensures offers { (a b : Offer) → IsTrue (⟦<Offer as PartialEq>⟧.eq a b) ↔ (a ≡ b) }
    ensures due { (a b : PollAt) → IsTrue (⟦<PollAt as PartialEq>⟧.eq a b) ↔ (a ≡ b) }
    ensures texts { (a b : SegmentPayload) → IsTrue (⟦<SegmentPayload<'a> as PartialEq>⟧.eq a b)
        ↔ (payload_bytes a ≡ payload_bytes b) }
    ensures payloads { (a b : IpPayload) → IsTrue (⟦<IpPayload<'a> as PartialEq>⟧.eq a b)
        ↔ (payload_value a ≡ payload_value b) }
    ensures packets { (a b : Packet) → IsTrue (⟦<Packet<'a> as PartialEq>⟧.eq a b)
        ↔ (packet_value a ≡ packet_value b) }
{
    ip_laws::ip_equal();
    udp_laws::udp_equal();
    tcp_laws::tcp_equal();
    icmpv4_laws::icmpv4_messages_equated();
    icmpv6_laws::icmpv6_messages_equated();
}

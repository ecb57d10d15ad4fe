//! What follows from the definitions of what a host answers at once.
ghost use Rattle.std.specs.Prelude.{◌≡◌, ◌<◌, ℕ, Bool, false, true, List, length, get_or, Some};
ghost use Rattle.wire_icmpv4.specs.declared.message.Icmpv4DstUnreachable.{Icmpv4DstUnreachable};
ghost use Rattle.wire_icmpv4.specs.declared.header.Icmpv4Header.{Icmpv4Header};
ghost use Rattle.wire_icmpv6.specs.Icmpv6 as Icmpv6;
ghost use Rattle.ip_wire.specs.AddressTests.{is_unicast_v6, is_loopback_v6};
ghost use Rattle.ip_wire.specs.declared.arp.repr.ArpRepr.{ArpRepr};
ghost use Rattle.ip_wire.specs.EthernetAddress.{EthernetAddress};
ghost use Rattle.ip_wire.specs.Ip.{source_of, destination_of};
ghost use Rattle.ip_wire.specs.IpAddress.{IpAddress};
ghost use Rattle.ip_wire.specs.IpAddress.TheVariants as Address;
ghost use Rattle.ip_wire.specs.IpRepr.{IpRepr};
ghost use Rattle.ip_wire.specs.Ipv6Address.{Ipv6Address};
ghost use Rattle.ip_wire.specs.Ipv4Repr.{Ipv4Repr};
ghost use Rattle.ip_wire.specs.Ipv6Repr.{Ipv6Repr};
ghost use Rattle.ip_wire.specs.TcpHeader.{TcpHeader};
ghost use Rattle.sockets.specs.Packet.{PacketValue};
ghost use Rattle.sockets.specs.TcpSegments.{rst_reply};
ghost use Rattle.sockets.specs.Socket.{accepts_segment};
ghost use Rattle.iface_egress.specs.Inner.{InnerValue, is_local, is_for_us, is_loopback_in};
ghost use Rattle.iface_egress.specs.declared.socket_set.SocketStorage.{SocketStorage};
ghost use Rattle.sockets.specs.declared.socket.Socket.{Socket};
ghost use Rattle.iface_ingress.specs.Answering.{IsEchoV4, IsEchoV6, IsBetweenV4, IsBetweenV6, IsToldOf, sender_in};
ghost use Rattle.iface_ingress.specs.Arp.{arp_answer};
ghost use Rattle.wire_ipv6_headers.specs.declared.headers.Problem.{Problem};
ghost use Rattle.iface_ingress.specs.Delivered.{Slots, passes, first_slot, is_connected, segment_slot};
ghost use Rattle.iface_ingress.specs.Processed.{is_for_many, names_no_endpoint, segment_reply};
ghost use Rattle.iface_ingress.specs.Ndisc as Heard;
ghost use Rattle.iface_ingress.specs.Replies.{echo_v4, echo_v6, error_v4, error_v6, parameter_problem, reply_v4, reply_v6};

/// Law: a control message that isn't one of neighbours is answered by an echo reply or not at all: no error answers an error. An
/// echo reply has its request's data, identifier and number, and goes to who asked.
pub fn echoes_go_back()
    ensures ipv4 { (i : InnerValue) (header : Ipv4Repr) (message : Icmpv4Header) (bytes : List ℕ) (p : PacketValue)
        → echo_v4 i header message bytes ≡ Some p → IsEchoV4 header message bytes p }
    ensures ipv6 { (i : InnerValue) (header : Ipv6Repr) (message : Icmpv6.MessageValue) (bytes : List ℕ) (p : PacketValue)
        → echo_v6 i header message bytes ≡ Some p → IsEchoV6 header message bytes p }
{}

/// Law: no error and no reset answers a packet that wasn't sent to one host by one host, but where an unknown option asks that its
/// source is told whomever the packet is for. (A segment may come from 0.0.0.0 or to
/// it; that names nobody, too.)
pub fn errors_are_between_hosts()
    ensures ipv4 { (i : InnerValue) (header : Ipv4Repr) (reason : Icmpv4DstUnreachable) (payload : List ℕ) (p : PacketValue)
        → error_v4 i header reason payload ≡ Some p → IsBetweenV4 i header }
    ensures ipv6 { (i : InnerValue) (header : Ipv6Repr) (message : Icmpv6.MessageValue) (quoted : List ℕ) (p : PacketValue)
        → error_v6 i header message quoted ≡ Some p → IsBetweenV6 header }
    ensures headers { (i : InnerValue) (header : Ipv6Repr) (payload : List ℕ) (problem : Problem) (pointer : ℕ) (p : PacketValue)
        → parameter_problem i header payload problem pointer ≡ Some p → IsToldOf problem header }
    ensures segment { (i : InnerValue) (slots : Slots) (ip : IpRepr) (taken : Bool) (header : TcpHeader) (bytes : List ℕ) (p : PacketValue)
        → segment_reply i slots ip taken header bytes ≡ Some p → names_no_endpoint i ip ≡ false }
{}

/// Law: what a host answers at once to a packet that is for it leaves from a local address: an echo reply, an error, a reset, an ARP reply
/// and an advertisement. For the address of a packet for one host is an own one, `::1` apart, from and to which no packet is taken in
/// unless it is own. (An answer to an IPv6 group leaves from the address that is chosen for who asked, and what sockets send from the one
/// that they name, or from a chosen one: `interface::poll_laws::{sources_are_chosen, chosen_sources_are_local}`.)
pub fn answers_leave_from_local_addresses()
    ensures local { (i : InnerValue) (a : IpAddress)
        → is_for_us i a ≡ true → is_for_many i a ≡ false → is_loopback_in a ≡ false → is_local i a ≡ true }
    ensures ipv4 { (i : InnerValue) (header : Ipv4Repr) (message : Icmpv4Header) (bytes : List ℕ) (p : PacketValue)
        → is_for_us i (Address.Ipv4 header.dst_addr) ≡ true
        → reply_v4 i header message bytes ≡ Some p → is_local i (source_of p.header) ≡ true }
    ensures ipv6 { (i : InnerValue) (header : Ipv6Repr) (message : Icmpv6.MessageValue) (bytes : List ℕ)
        → is_for_us i (Address.Ipv6 header.dst_addr) ≡ true → is_unicast_v6 header.dst_addr ≡ true → is_loopback_v6 header.dst_addr ≡ false
        → is_local i (source_of (reply_v6 i header message bytes).header) ≡ true }
    ensures reset { (i : InnerValue) (ip : IpRepr) (header : TcpHeader) (size : ℕ)
        → is_for_us i (destination_of ip) ≡ true → names_no_endpoint i ip ≡ false → is_loopback_in (destination_of ip) ≡ false
        → is_local i (source_of (rst_reply ip header size).header) ≡ true }
    ensures arp { (i : InnerValue) (packet reply : ArpRepr)
        → arp_answer i packet ≡ Some reply → is_local i (Address.Ipv4 (sender_in reply)) ≡ true }
    ensures advertisement { (local : EthernetAddress) (i : InnerValue) (header : Ipv6Repr) (target : Ipv6Address) (p : PacketValue)
        → Heard.answer local i header target ≡ Some p → is_local i (source_of p.header) ≡ true }
{}

/// Law: a segment goes to a socket that accepts it, and where there is one that has its connection, to the first such.
pub fn connections_come_first()
    ensures accepted { (ip : IpRepr) (header : TcpHeader) (slots : Slots) (at : ℕ) (d : SocketStorage Socket)
        → segment_slot ip header slots ≡ Some at
        → (at < length slots) × (passes (λ s. accepts_segment s ip header) (get_or slots at d) ≡ true) }
    ensures connected { (ip : IpRepr) (header : TcpHeader) (slots : Slots) (at : ℕ)
        → first_slot (λ s. is_connected s ip header) slots ≡ Some at → segment_slot ip header slots ≡ Some at }
{}

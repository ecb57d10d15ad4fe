//! Laws of what the link does to frames. Each is a function that does nothing, whose clauses are the
//! law.
ghost use Rattle.std.specs.Prelude.{◌≡◌, ◌≢◌, ℕ, ◌+◌, ◌%◌, ◌^◌, ◌<◌, ◌≤◌, Bool, true, false, List, ◌++◌, length, Some};
ghost use Rattle.base_device.specs.Capabilities.{frame_header};
ghost use Rattle.base_device.specs.declared.capabilities.Medium.{Medium};
ghost use Rattle.base_device.specs.declared.capabilities.Medium.TheVariants.{Ethernet, Ip};
ghost use Rattle.wire_address.specs.Fields.{be16};
ghost use Rattle.wire_address.specs.declared.ip.IpAddress.{IpAddress};
ghost use Rattle.wire_address.specs.declared.ethernet.EthernetProtocol.TheVariants as ether;
ghost use Rattle.wire_ip.specs.Ipv4 as ipv4;
ghost use Rattle.wire_ip.specs.Ipv6 as ipv6;
ghost use Rattle.wire_ip.specs.declared.ipv4.repr.Ipv4Repr.{Ipv4Repr};
ghost use Rattle.wire_ip.specs.declared.ipv6.repr.Ipv6Repr.{Ipv6Repr};
ghost use Rattle.wire_tcp.specs.Tcp.{IsChecked, IsTcp};
ghost use Rattle.wire_tcp.specs.declared.header.TcpHeader.{TcpHeader};
ghost use Rattle.ip_wire.specs.Ethernet as ethernet;
ghost use Rattle.ip_wire.specs.declared.ethernet.repr.EthernetRepr.{EthernetRepr};
ghost use Rattle.sim_link.specs.PacketInFrame.{names_tcp_or_udp, IsNeither, IsNeitherFollowing};
ghost use Rattle.wire_ipv6_headers.specs.Headers.{go_through};
ghost use Rattle.sim_link.specs.Cuts.{ipv4_part, first_fragment, second_fragment};
ghost use Rattle.sim_link.specs.Parts.{bytes_at, damaged};
ghost use Rattle.sim_link.specs.Slices.{Slice, IsSliceOf, IsLinkHeader, frame_of_slice, front_of, back_of};
ghost use Rattle.sim_link.specs.declared.part.Part.{Part};

/// Law: bytes that name neither TCP nor UDP are no packet of either, on either medium, after extension headers either; and no fragment of
/// an IPv6 datagram.
pub fn names_neither()
    ensures ipv4 { (bytes : List ℕ) (tested : Bool) (v : Ipv4Repr)
        → names_tcp_or_udp Ip bytes ≡ false
        → ipv4.IsIpv4 tested bytes v
        → IsNeither v.next_header }
    ensures ipv6 { (bytes : List ℕ) (v : Ipv6Repr)
        → names_tcp_or_udp Ip bytes ≡ false
        → ipv6.IsIpv6 bytes v
        → IsNeitherFollowing (go_through v.next_header (ipv6.payload_of bytes)) }
    ensures ethernet_ipv4 { (bytes : List ℕ) (tested : Bool) (e : EthernetRepr) (v : Ipv4Repr)
        → names_tcp_or_udp Ethernet bytes ≡ false
        → ethernet.IsEthernet bytes e
        → e.ethertype ≡ ether.Ipv4
        → ipv4.IsIpv4 tested (ethernet.payload_of bytes) v
        → IsNeither v.next_header }
    ensures ethernet_ipv6 { (bytes : List ℕ) (e : EthernetRepr) (v : Ipv6Repr)
        → names_tcp_or_udp Ethernet bytes ≡ false
        → ethernet.IsEthernet bytes e
        → e.ethertype ≡ ether.Ipv6
        → ipv6.IsIpv6 (ethernet.payload_of bytes) v
        → IsNeitherFollowing (go_through v.next_header (ipv6.payload_of (ethernet.payload_of bytes))) }
{}

/// Law: a segment whose checksum holds isn't read once the link exchanged one of its words for a
/// number that isn't congruent to it modulo 65535. Nothing before the segment changes.
pub fn damaged_is_unread()
    ensures unread { (frame : List ℕ) (part : Part) (offset word : ℕ) (source destination : IpAddress) (v : TcpHeader)
        → part.at + part.len ≤ length frame
        → IsChecked source destination (bytes_at frame part)
        → offset % 2 ≡ 0
        → offset + 2 ≤ part.len
        → word < 2 ^ 16
        → be16 (bytes_at frame part) offset % 65535 ≢ word % 65535
        → ¬ (IsTcp source destination true (bytes_at (damaged frame part offset word) part) v) }
{}

/// Law: a frame that carries a slice of a datagram's payload, with any padding, can be cut within that slice, and both
/// fragments carry slices of the same payload, after the same headers. Their more-fragments is clear only where they end the
/// payload; so a fragment can be cut again.
pub fn fragments_are_slices()
    ensures part { (medium : Medium) (link padding payload : List ℕ) (header : Ipv4Repr) (s : Slice)
        → IsLinkHeader medium link → ipv4.IsValue header → 20 + length payload < 2 ^ 16 → IsSliceOf payload s → s.at % 8 ≡ 0
        → ipv4_part medium (frame_of_slice link header payload s ++ padding) ≡ Some (record { at = frame_header medium + 20; len = s.count }) }
    ensures first { (medium : Medium) (link padding payload : List ℕ) (header : Ipv4Repr) (s : Slice) (cut : ℕ)
        → IsLinkHeader medium link → ipv4.IsValue header → 20 + length payload < 2 ^ 16 → IsSliceOf payload s → s.at % 8 ≡ 0
        → cut ≤ s.count
        → IsSliceOf payload (front_of s cut)
        × (first_fragment medium (frame_of_slice link header payload s ++ padding) cut ≡ frame_of_slice link header payload (front_of s cut)) }
    ensures second { (medium : Medium) (link padding payload : List ℕ) (header : Ipv4Repr) (s : Slice) (cut : ℕ)
        → IsLinkHeader medium link → ipv4.IsValue header → 20 + length payload < 2 ^ 16 → IsSliceOf payload s → s.at % 8 ≡ 0
        → cut ≤ s.count
        → IsSliceOf payload (back_of s cut)
        × (second_fragment medium (frame_of_slice link header payload s ++ padding) cut ≡ frame_of_slice link header payload (back_of s cut)) }
{}

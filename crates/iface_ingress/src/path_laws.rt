//! What messages that tell of paths can do to a host, whoever wrote them.
ghost use Rattle.std.specs.Prelude.{◌≡◌, ◌<◌, ℕ, List, false};
ghost use Rattle.wire_icmpv4.specs.declared.header.Icmpv4Header.{Icmpv4Header};
ghost use Rattle.wire_icmpv6.specs.Icmpv6.{MessageValue};
ghost use Rattle.wire_address.specs.Fields.{be16};
ghost use Rattle.ip_wire.specs.IpAddress.{IpAddress};
ghost use Rattle.ip_wire.specs.IpProtocol.{IpProtocol};
ghost use Rattle.iface_egress.specs.Inner.{InnerValue, is_local};
ghost use Rattle.iface_ingress.specs.Delivered.{Slots};
ghost use Rattle.iface_ingress.specs.PathTold.{was_sent, told_host, told_by, plateau_below, path_host_v4, path_host_v6};

/// Law: a message that tells of a path changes nothing of a host but what it was told of paths; and nothing where the packet that it quotes
/// isn't from a local address, or is a segment that no connection has in flight (RFC 8201, section 4; RFC 5927, section 4.1).
pub fn messages_tell_of_paths_alone()
    ensures ipv4 { (i : InnerValue) (slots : Slots) (message : List ℕ) (header : Icmpv4Header) (bytes : List ℕ)
        → path_host_v4 i slots message header bytes ≡ record i { paths = (path_host_v4 i slots message header bytes).paths } }
    ensures ipv6 { (i : InnerValue) (slots : Slots) (message : MessageValue) (bytes : List ℕ)
        → path_host_v6 i slots message bytes ≡ record i { paths = (path_host_v6 i slots message bytes).paths } }
    ensures not_local { (i : InnerValue) (slots : Slots) (protocol : IpProtocol) (source destination : IpAddress) (bytes : List ℕ) (told : ℕ)
        → is_local i source ≡ false → told_host i slots protocol source destination bytes told ≡ i }
    ensures not_sent { (i : InnerValue) (slots : Slots) (protocol : IpProtocol) (source destination : IpAddress) (bytes : List ℕ) (told : ℕ)
        → was_sent slots protocol source destination bytes ≡ false → told_host i slots protocol source destination bytes told ≡ i }
{}

/// Law: where a router names no length, the path is taken to carry less than the packet that didn't pass, so that each message brings the
/// host nearer to what passes; and the next plateau at that, not the least (RFC 1191, sections 5 and 7.1).
pub fn old_routers_lower_the_path()
    ensures lower { (message : List ℕ) → be16 message 6 ≡ 0 → 68 < be16 message 10 → told_by message < be16 message 10 }
    ensures ethernet { plateau_below 1_500 ≡ 1_492 }
    ensures again { plateau_below 1_492 ≡ 1_006 }
    ensures lowest { plateau_below 68 ≡ 68 }
{}

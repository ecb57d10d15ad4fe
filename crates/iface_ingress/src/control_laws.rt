//! What follows from the definitions of neighbour messages that are heard.
ghost use Rattle.std.specs.Prelude.{◌≡◌, ◌≢◌, ℕ, IsTrue, true, false, List, Option, Some, None};
ghost use Rattle.wire_icmpv6.specs.Ndisc.{NeighborMessage, Advertisement, Solicitation};
ghost use Rattle.wire_icmpv6.specs.declared.ndisc_flags.NdiscNeighborFlags.{NdiscNeighborFlags};
ghost use Rattle.ip_wire.specs.AddressTests.{is_unspecified_v4};
ghost use Rattle.ip_wire.specs.EthernetAddress.{EthernetAddress};
ghost use Rattle.ip_wire.specs.HardwareAddress.TheVariants as Hardware;
ghost use Rattle.ip_wire.specs.Ip.{source_of, destination_of, hop_limit_in};
ghost use Rattle.ip_wire.specs.IpAddress.TheVariants as Address;
ghost use Rattle.ip_wire.specs.Ipv4Address.{Ipv4Address};
ghost use Rattle.ip_wire.specs.Ipv6Address.{Ipv6Address};
ghost use Rattle.ip_wire.specs.Ipv6Repr.{Ipv6Repr};
ghost use Rattle.ip_wire.specs.declared.arp.kinds.ArpOperation.{ArpOperation};
ghost use Rattle.ip_wire.specs.declared.arp.repr.ArpRepr.TheVariants as Arp;
ghost use Rattle.sockets.specs.Packet.{PacketValue};
ghost use Rattle.iface_egress.specs.Inner.{InnerValue, is_local};
ghost use Rattle.iface_ingress.specs.Arp.{arp_arrived};
ghost use Rattle.iface_ingress.specs.Ndisc.{neighbor_learned, heard, told_at, with_entries_of};
ghost use Rattle.iface_ingress.specs.Taught.{TellsOf};

/// Law: a neighbour message changes the entries of neighbours, and whom the host looks for, alone: settings, identification and
/// the time in which no neighbour is asked for stay as they were.
pub fn entries_alone()
    ensures { (i : InnerValue) (header : Ipv6Repr) (message : NeighborMessage)
        → (neighbor_learned i header message).inner ≡ with_entries_of (neighbor_learned i header message).inner i }
{}

/// Law: a message that a router passed on, or that came by a medium without hardware addresses,
/// changes nothing and isn't answered (RFC 4861, section 7.1).
pub fn only_neighbors_count()
    ensures passed_on { (i : InnerValue) (header : Ipv6Repr) (message : NeighborMessage)
        → header.hop_limit ≢ 255
        → neighbor_learned i header message ≡ heard i None }
    ensures medium { (i : InnerValue) (header : Ipv6Repr) (message : NeighborMessage)
        → i.hardware ≡ Hardware.Ip
        → neighbor_learned i header message ≡ heard i None }
{}

/// Law: a solicitation for an address that isn't own changes nothing and isn't answered (RFC 4861, section 7.2.3): whoever asks all
/// nodes of a link for another's address takes no room among a host's neighbours.
pub fn others_solicitations_teach_nothing()
    ensures { (i : InnerValue) (header : Ipv6Repr) (target : Ipv6Address) (link : Option (List ℕ))
        → is_local i (Address.Ipv6 target) ≡ false
        → neighbor_learned i header (Solicitation target link) ≡ heard i None }
{}

/// Law: an answer goes to the sender of the message, and to all nodes where the sender has no address yet; it goes from an own
/// address, and no router passes it on.
pub fn answers_the_sender()
    ensures { (i : InnerValue) (header : Ipv6Repr) (message : NeighborMessage) (p : PacketValue)
        → (neighbor_learned i header message).reply ≡ Some p
        → (destination_of p.header ≡ Address.Ipv6 (told_at header.src_addr))
        × IsTrue (is_local i (source_of p.header))
        × (hop_limit_in p.header ≡ 255) }
{}

/// Law: an advertisement tells of its target alone: it leaves the host as it was, or the target's link address is kept, which the
/// host asked for, or knew another of that is to be replaced (RFC 4861, section 7.2.5).
pub fn advertisements_tell_of_targets()
    ensures { (i : InnerValue) (header : Ipv6Repr) (flags : NdiscNeighborFlags) (target : Ipv6Address) (link : Option (List ℕ))
        → TellsOf i flags target link (neighbor_learned i header (Advertisement flags target link)).inner }
{}

/// Law: an ARP packet from 0.0.0.0, by which a hardware address looks whether an address is in use, leaves the host as it was (RFC 5227).
pub fn probes_teach_nothing()
    ensures { (i : InnerValue) (operation : ArpOperation) (hardware_addr other : EthernetAddress) (source target : Ipv4Address)
        → is_unspecified_v4 source ≡ true
        → arp_arrived i (Arp.EthernetIpv4 operation hardware_addr source other target) ≡ i }
{}

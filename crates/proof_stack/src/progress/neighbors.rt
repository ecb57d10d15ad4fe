//! A neighbour that isn't known is asked for, in its turn, answers, and is known.

ghost use Rattle.std.specs.Prelude.{◌≡◌, ℕ, ◌<◌, ℤ, pos, ◌+ℤ◌, ◌≤ℤ◌, Bool, true, false, List, ◌∷◌, ◌++◌, length, Option, None, Some, slice_get};
ghost use Rattle.std.specs.List.{AllByRecursion};
ghost use Rattle.net_base.specs.Packets.{contents};
ghost use Rattle.control_wire.specs.Ndisc.{Solicitation, Advertisement};
ghost use Rattle.ip_wire.specs.Address.{IsEthernetAddress};
ghost use Rattle.ip_wire.specs.AddressTests.{is_ethernet_unicast, is_unicast_v6};
ghost use Rattle.ip_wire.specs.Arp as Arps;
ghost use Rattle.ip_wire.specs.EthernetAddress.{EthernetAddress};
ghost use Rattle.ip_wire.specs.HardwareAddress.TheVariants as Hardware;
ghost use Rattle.wire_ip.specs.Ip.{destination_of};
ghost use Rattle.ip_wire.specs.IpAddress.{IpAddress};
ghost use Rattle.ip_wire.specs.IpAddress.TheVariants as Address;
ghost use Rattle.ip_wire.specs.Ipv4Address.{Ipv4Address};
ghost use Rattle.ip_wire.specs.Ipv6Address.{Ipv6Address};
ghost use Rattle.socket_datagram.specs.Udp.{UdpValue};
ghost use Rattle.socket_datagram.specs.declared.udp.UdpMetadata.{UdpMetadata};
ghost use Rattle.iface_ingress.specs.Packet.{PacketValue};
ghost use Rattle.iface_ingress.specs.Acquaintance.{knows, seeks};
ghost use Rattle.iface_ingress.specs.Ndisc.{advertisement, advertisement_header, flags_for, neighbor_learned, told_at};
ghost use Rattle.iface_ingress.specs.Sent.{AreSealed};
ghost use Rattle.iface_tables.specs.Inner.{InnerValue, at_instant, is_local, is_local_solicited_node, link_address};
ghost use Rattle.iface_tables.specs.Neighbor.{CacheValue, last_request, requested, silent_time};
ghost use Rattle.iface_tables.specs.declared.link.LinkAddress.TheVariants as Link;
ghost use Rattle.iface_egress.specs.Departure as Departures;
ghost use Rattle.iface_egress.specs.Departure.{Asks, solicitation_header, solicited_node};
ghost use Rattle.iface_egress.specs.IsTransmitted.{frame_of};
ghost use Rattle.iface_egress.specs.declared.frame.NeighborQuery.TheVariants as Query;
ghost use Rattle.iface_egress.specs.declared.socket_set.SocketStorage.{SocketStorage};
ghost use Rattle.iface_ingress.specs.Socket.{Socket};
ghost use Rattle.interface.specs.Awaited.{awaited_in, next_awaited, turn_of};
ghost use Rattle.interface.specs.declared.awaited.Awaited.{Awaited};
ghost use Rattle.interface.specs.Delivered.{IsNeighborQuery};
ghost use Rattle.interface.specs.Egress.{EgressStep};
ghost use Rattle.interface.specs.Ingress.{IngressStep};
ghost use Rattle.interface.specs.State.{State};
ghost use Rattle.interface.specs.Serve.{is_other};
ghost use Rattle.proof_stack.specs.Progress.Queued.{HasTurn};
ghost use Rattle.proof_stack.specs.Progress.NeighborResolution.{HasToAsk, AsksAtOnce, AsksFirst, IsNext, IsNeighbor, IsVia, Tells, arp_reply};
ghost use Rattle.proof_stack.specs.Progress.Exchanged.{AsksForIt};
ghost use Rattle.proof_stack.specs.Progress.Rounds.{AreRounds, IsOneOf, PassesOver, Round};

use net_base::Device;

/// Law: a neighbour that isn't known is asked for. Where the first datagram in the queue of a UDP socket that isn't waiting goes by a next hop
/// whose hardware address isn't known, and no socket waits for another neighbour whose turn it is, a question goes in that step of the egress path,
/// unless the device refuses in it: for that hop, where a socket waits for it, else for the first that a packet needs.
pub fn unknown_neighbors_are_asked_for<D: Device>()
    ensures { (t : ℤ) (s s' : State D) (answer : Option Bool) (n : ℕ) (v : UdpValue) (d : UdpMetadata × List ℕ)
        (more : List (UdpMetadata × List ℕ)) (hop : IpAddress) (p : PacketValue)
        → HasTurn (at_instant t s.host.inner) s.slots n v
        → contents v.queued ≡ d ∷ more
        → HasToAsk (at_instant t s.host.inner) v.settings d hop p
        → is_other (turn_of (at_instant t s.host.inner) s.slots) hop ≡ false
        → EgressStep D.moves t s answer s'
        → AsksAtOnce D.moves (at_instant t s.host.inner) (turn_of (at_instant t s.host.inner) s.slots) s.device s'.device }
{}

/// Law: and the datagram stays. In such a step the question is for its own next hop, where no socket waits for another neighbour whose turn it is,
/// and, where none waits for any, the sockets before this one need no other; and after the step the datagram still is the first of its socket,
/// which waits for its destination. Unless the device refuses.
pub fn a_datagram_waits_for_its_neighbor<D: Device>()
    ensures { (t : ℤ) (s s' : State D) (answer : Option Bool) (n : ℕ) (v : UdpValue) (d : UdpMetadata × List ℕ)
        (more : List (UdpMetadata × List ℕ)) (hop : IpAddress) (p : PacketValue)
        → AsksFirst (at_instant t s.host.inner) s.slots n v hop (destination_of p.header)
        → contents v.queued ≡ d ∷ more
        → HasToAsk (at_instant t s.host.inner) v.settings d hop p
        → EgressStep D.moves t s answer s'
        → AsksForIt D.moves (at_instant t s.host.inner) hop (destination_of p.header) n v d s.device s'.device s'.slots }
{}

/// Law: turns come round. Whoever's turn it is to be asked for again, each other neighbour that a socket waits for was asked for since: its last
/// request is to be answered no earlier. And of those that were never asked for the one is first that was waited for longest. A question counts:
/// the last request of that neighbour is then to be answered in a second. So while a socket waits for a neighbour that isn't asked for, fewer
/// questions go than there are neighbours that sockets wait for: of so many each is asked for within as many questions, which go a second apart
/// (`asks_a_second_apart`).
pub fn turns_come_round()
    ensures again { (i : InnerValue) (slots : List (SocketStorage Socket)) (n : ℕ) (slot : SocketStorage Socket) (a b : Awaited) (last : ℤ)
        → next_awaited i slots ≡ Some a
        → slice_get slots n ≡ Some slot
        → awaited_in i slot ≡ Some b
        → a.last_request ≡ Some last
        → (later : ℤ) × (b.last_request ≡ Some later) × (last ≤ℤ later) }
    ensures first { (i : InnerValue) (slots : List (SocketStorage Socket)) (n : ℕ) (slot : SocketStorage Socket) (a b : Awaited)
        → next_awaited i slots ≡ Some a
        → slice_get slots n ≡ Some slot
        → awaited_in i slot ≡ Some b
        → a.last_request ≡ None
        → b.last_request ≡ None
        → a.since ≤ℤ b.since }
    ensures counts { (c : CacheValue) (hop : IpAddress) (instant : ℤ)
        → last_request (requested c hop instant) hop ≡ Some (instant +ℤ pos silent_time) }
    ensures within { (rounds : List Round) (hops : List IpAddress) (hop : IpAddress) (last : Option ℤ)
        → AreRounds rounds
        → AllByRecursion (PassesOver hop last hops) rounds
        → IsOneOf hop hops
        → length rounds < length hops }
{}

/// Law: a host on Ethernet that reads an ARP request for an own address, from a host of one of its networks, answers to that host with its
/// own, unless the device refuses; and a host that reads such an answer for an own address sends what goes by the address that answered to the
/// host that did. Whatever padding follows.
pub fn neighbors_answer<D: Device>()
    ensures tells { (t : ℤ) (s s' : State D) (i : InnerValue) (padding : List ℕ) (own node : EthernetAddress) (a asked : Ipv4Address)
        → s.host.inner.hardware ≡ Hardware.Ethernet own
        → AreSealed i.checksums s.host.inner.checksums
        → is_local s.host.inner (Address.Ipv4 asked) ≡ true
        → IsNeighbor s.host.inner node a
        → IsNeighborQuery (Query.Arp node a asked)
        → IsNext D.moves t s.device (frame_of i (Asks (Query.Arp node a asked)) ++ padding)
        → IngressStep D.moves t s (Some true) s'
        → Tells D.moves s.host.inner (arp_reply own asked node a) s.device s'.device }
    ensures known { (t : ℤ) (s s' : State D) (i : InnerValue) (padding : List ℕ) (own node : EthernetAddress) (a asked : Ipv4Address) (to : IpAddress)
        → s.host.inner.hardware ≡ Hardware.Ethernet own
        → AreSealed i.checksums s.host.inner.checksums
        → is_local s.host.inner (Address.Ipv4 a) ≡ true
        → IsNeighbor s.host.inner node asked
        → Arps.IsValue (arp_reply node asked own a)
        → IsNext D.moves t s.device (frame_of i (Departures.Tells (arp_reply node asked own a)) ++ padding)
        → IngressStep D.moves t s (Some true) s'
        → IsVia (at_instant t s.host.inner) to (Address.Ipv4 asked)
        → link_address s'.host.inner to ≡ Link.Known (Hardware.Ethernet node) }
{}

/// Law: the same by neighbour messages of IPv6 (RFC 4861, section 7.2), of what is read in a packet. A host on Ethernet that hears a solicitation
/// for an own address, in whose group it is, from a host that has an address, answers to that; and a host that asks for an address and doesn't
/// know it sends what goes by that, once it hears such an answer, to the host that it tells of.
pub fn neighbors_answer_solicitations()
    ensures tells { (own node : EthernetAddress) (i : InnerValue) (source target : Ipv6Address)
        → is_ethernet_unicast node ≡ true
        → IsEthernetAddress node
        → i.hardware ≡ Hardware.Ethernet own
        → is_local i (Address.Ipv6 target) ≡ true
        → is_local_solicited_node i (solicited_node target) ≡ true
        → is_unicast_v6 target ≡ true
        → is_unicast_v6 source ≡ true
        → (neighbor_learned i (solicitation_header source target) (Solicitation target (Some node.0))).reply ≡ Some (advertisement i.host_requirements own target source) }
    ensures known { (own node : EthernetAddress) (i : InnerValue) (overrides : Bool) (a asked : Ipv6Address) (to : IpAddress)
        → is_ethernet_unicast node ≡ true
        → IsEthernetAddress node
        → i.hardware ≡ Hardware.Ethernet own
        → knows i (Address.Ipv6 asked) ≡ false
        → seeks i (Address.Ipv6 asked) ≡ true
        → is_unicast_v6 asked ≡ true
        → is_unicast_v6 a ≡ true
        → IsVia i to (Address.Ipv6 asked)
        → link_address (neighbor_learned i (advertisement_header asked (told_at a)) (Advertisement (flags_for overrides a) asked (Some node.0))).inner to
        ≡ Link.Known (Hardware.Ethernet node) }
{}

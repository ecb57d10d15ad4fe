//! A neighbour that sockets wait for has its turn within so many steps.

ghost use Rattle.std.specs.Prelude.{◌≡◌, ◌≤◌, ◌<◌, ◌+◌, ℕ, ℤ, int_lt, Bool, true, false, List, ◌∷◌, length, Option, Some};
ghost use Rattle.std.specs.List.{AllByRecursion};
ghost use Rattle.net_base.specs.Packets.{contents};
ghost use Rattle.ip_wire.specs.Ip.{destination_of};
ghost use Rattle.ip_wire.specs.IpAddress.{IpAddress};
ghost use Rattle.socket_datagram.specs.Udp.{TakesDatagram, UdpValue};
ghost use Rattle.socket_datagram.specs.declared.udp.UdpMetadata.{UdpMetadata};
ghost use Rattle.iface_ingress.specs.Packet.{PacketValue};
ghost use Rattle.iface_ingress.specs.Socket.TheVariants as Kind;
ghost use Rattle.iface_tables.specs.Inner.{InnerValue, at_instant, context_of, link_address};
ghost use Rattle.iface_tables.specs.Neighbor.{search_of};
ghost use Rattle.iface_tables.specs.declared.link.LinkAddress.TheVariants as Link;
ghost use Rattle.iface_tables.specs.declared.neighbor.Search.{Search};
ghost use Rattle.iface_egress.specs.Plan.{may_solicit, never_leaves};
ghost use Rattle.iface_egress.specs.declared.socket_meta.Meta.{Meta};
ghost use Rattle.interface.specs.Awaited.{next_awaited};
ghost use Rattle.interface.specs.declared.awaited.Awaited.{Awaited};
ghost use Rattle.interface.specs.Egress.{EgressStep};
ghost use Rattle.interface.specs.State.{State};
ghost use Rattle.interface.specs.Serve.{is_waiting};
ghost use Rattle.proof_stack.specs.Progress.NeighborResolution.{HasToAsk};
ghost use Rattle.proof_stack.specs.Progress.Parked.{IsAskedForAtOnce};
ghost use Rattle.proof_stack.specs.Progress.Queued.{HasTurn};
ghost use Rattle.proof_stack.specs.Progress.Rounds.{IsOneOf};
ghost use Rattle.proof_stack.specs.Progress.EgressSteps.{AreInOrder, AsksThen, GoesFreely, IsAskedFor, IsWaitedFor, OutStep, StillNeeds, host_in};

use net_base::Device;

/// Law: a UDP socket needs a next hop for as long as the first datagram in its queue does: whenever it may be asked for a packet, it offers that one.
pub fn a_queued_datagram_needs_its_hop()
    ensures { (i : InnerValue) (meta : Meta) (v : UdpValue) (d : UdpMetadata × List ℕ) (more : List (UdpMetadata × List ℕ)) (hop : IpAddress)
        (p : PacketValue)
        → is_waiting i meta ≡ false
        → contents v.queued ≡ d ∷ more
        → HasToAsk i v.settings d hop p
        → StillNeeds i hop (Some (record { meta = meta; socket = Kind.Udp v })) }
{}

/// Law: where sockets wait, of whatever kind they are, a step of the egress path asks for the neighbour whose turn it is, and of what the host knows of
/// neighbours that question alone changes something. So it is where each of them still needs its neighbour, which may be asked for now, the host keeps
/// count of fewer neighbours than it can, and the device refuses nothing.
pub fn waiting_sockets_ask_in_turn<D: Device>()
    ensures { (hops : List IpAddress) (x : OutStep D.moves) (a : Awaited)
        → GoesFreely D.moves hops x
        → next_awaited (host_in D.moves x) x.old.slots ≡ Some a
        → AsksThen D.moves x a.hop }
{}

/// Law: and nobody is asked for until that question's second is over: while the silence lasts a step of the egress path leaves what a host without
/// host requirements knows of neighbours, whatever the device does.
pub fn nobody_is_asked_for_in_silence<D: Device>()
    ensures { (t : ℤ) (s s' : State D) (answer : Option Bool)
        → s.host.inner.host_requirements ≡ false
        → int_lt t s.host.inner.neighbors.silent ≡ true
        → EgressStep D.moves t s answer s'
        → s'.host.inner.neighbors ≡ s.host.inner.neighbors }
{}

/// Law: with host requirements each neighbour has a silence of its own (RFC 1122, section 2.3.2.1; RFC 4861, section 7.2.2): one that was asked for, and
/// whose second to answer in isn't over, isn't asked for again, nor is its search given up, in a step of the egress path, whatever the device does.
pub fn nobody_is_asked_for_in_their_silence<D: Device>()
    ensures { (t : ℤ) (s s' : State D) (answer : Option Bool) (hop : IpAddress) (search : Search)
        → s.host.inner.host_requirements ≡ true
        → search_of s.host.inner.neighbors.searches hop ≡ Some search
        → int_lt t search.answer_by ≡ true
        → EgressStep D.moves t s answer s'
        → search_of s'.host.inner.neighbors.searches hop ≡ Some search }
{}

/// Law: and each is asked for at once, whoever else is: in one step of the egress path a question for the next hop of the first datagram in the queue
/// of a UDP socket goes, unless the device refuses in that step. The hop isn't known, and may be asked for now; and fewer are asked for than may be,
/// even if each packet that waits, and each socket before that one, asks for another one.
pub fn neighbors_are_asked_for_at_once<D: Device>()
    ensures { (t : ℤ) (s s' : State D) (answer : Option Bool) (n : ℕ) (v : UdpValue) (d : UdpMetadata × List ℕ)
        (more : List (UdpMetadata × List ℕ)) (hop : IpAddress) (p : PacketValue)
        → s.host.inner.host_requirements ≡ true
        → HasTurn (at_instant t s.host.inner) s.slots n v
        → contents v.queued ≡ d ∷ more
        → TakesDatagram (context_of (at_instant t s.host.inner)) v.settings d p
        → never_leaves (at_instant t s.host.inner) p.header ≡ false
        → link_address (at_instant t s.host.inner) (destination_of p.header) ≡ Link.Unknown hop
        → may_solicit (at_instant t s.host.inner) hop ≡ true
        → length s.host.inner.neighbors.searches + length s.host.inner.parking.packets + n < s.host.inner.neighbors.search_room
        → EgressStep D.moves t s answer s'
        → IsAskedForAtOnce D.moves (at_instant t s.host.inner) hop s.device s'.device }
{}

/// Law: a neighbour has its turn within as many steps as there are neighbours that sockets wait for. Of so many steps of the egress path, each of which
/// goes freely and finds a socket that waits for it, one asks for it, whoever else is waited for and in whatever order they came.
pub fn a_neighbor_has_its_turn<D: Device>()
    ensures { (hops : List IpAddress) (hop : IpAddress) (steps : List (OutStep D.moves))
        → AreInOrder D.moves steps
        → AllByRecursion (IsWaitedFor D.moves hop hops) steps
        → IsOneOf hop hops
        → length hops ≤ length steps
        → IsAskedFor D.moves hop steps }
{}

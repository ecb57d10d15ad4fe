//! What follows from the definitions, for whoever reasons about runs of hosts.
ghost use Rattle.std.specs.Prelude.{◌≡◌, ℕ, ◌+◌, ◌*◌, ℤ, Bool, true, false, List, length, Option, Some, None};
ghost use Rattle.std.specs.List.{filter_map, list_any};
ghost use Rattle.net_base.specs.Loopback.{LoopbackValue, LoopbackMove};
ghost use Rattle.ip_wire.specs.AddressTests.{is_same_address};
ghost use Rattle.ip_wire.specs.Ip.{source_of, destination_of};
ghost use Rattle.ip_wire.specs.HardwareAddress.{HardwareAddress};
ghost use Rattle.ip_wire.specs.IpAddress.{IpAddress};
ghost use Rattle.iface_egress.specs.Inner.{InnerValue, is_local, is_foreign_loopback, may_be_source};
ghost use Rattle.iface_egress.specs.Plan.{never_leaves, GoesDirect};
ghost use Rattle.iface_egress.specs.Source.{source_for};
ghost use Rattle.iface_egress.specs.Departure.{target_of};
ghost use Rattle.iface_egress.specs.declared.frame.NeighborQuery.{NeighborQuery};
ghost use Rattle.iface_egress.specs.Meta.{freed};
ghost use Rattle.iface_egress.specs.declared.plan.Plan.TheVariants as Way;
ghost use Rattle.iface_egress.specs.declared.socket_meta.Meta.{Meta};
ghost use Rattle.iface_egress.specs.declared.socket_set.Item.{Item};
ghost use Rattle.iface_egress.specs.declared.socket_set.SocketStorage.{SocketStorage};
ghost use Rattle.iface_egress.specs.declared.egress_path.Sent.TheVariants as Outcome;
ghost use Rattle.iface_ingress.specs.Offers.{IsSameButForSlots};
ghost use Rattle.iface_ingress.specs.Packet.{PacketValue};
ghost use Rattle.iface_ingress.specs.Socket.{Socket};
ghost use Rattle.iface_ingress.specs.Udp.{UdpValue, send_after};
ghost use Rattle.interface.specs.Awaited.{awaited_in, comes_before, next_awaited};
ghost use Rattle.interface.specs.Host.{Sender, sender};
ghost use Rattle.interface.specs.SendTo.{DatagramToSend, udp_item, MayLeave, LeavesAtOnce, LeavesInTurn};
ghost use Rattle.interface.specs.Serve.{held, keeps_source, sourced, passes_filter, Turns};
ghost use Rattle.interface.specs.declared.awaited.Awaited.{Awaited};
ghost use Rattle.interface.specs.declared.serve.Served.{Served};
ghost use Rattle.interface.specs.declared.serve.Served.TheVariants as Turn;
ghost use Rattle.iface_egress.specs.Departing.{HasSettingsOf};
ghost use Rattle.interface.specs.State.{State, state};
ghost use Rattle.interface.specs.BlackHoles.{checked};
ghost use Rattle.interface.specs.OwnWork.{OwnWork};
ghost use Rattle.interface.specs.Polls.{Polls, HostPolls};
ghost use Rattle.iface_egress.specs.Determined.{IsDetermined};
ghost use Rattle.interface.specs.Idents.{TakesIdents};
ghost use Rattle.interface.specs.Used.{most_parked, sockets_in};
ghost use Rattle.interface.specs.Steady.{IsSteady};
ghost use Rattle.interface.specs.Touches.{Traced, TracedAlone};

use iface_ingress::socket_laws::one_offer;
use net_base::Device;

/// Law: a poll changes no setting of its host: hardware address, MTU, checksums, addresses and routes.
pub fn polls_keep_settings<D: Device>()
    ensures { (t : ℤ) (budget : ℕ) (s s' : State D) (changed : Bool)
        → Polls D.moves t budget s changed s'
        → HasSettingsOf s.host.inner s'.host.inner }
{}

/// Law: what a host does of its own before a poll touches no socket and no setting. A host that tells nothing of multicast groups does nothing
/// without host requirements, and with them takes in what the timers of its connections tell of their paths, and nothing else.
pub fn own_work_stands_apart<D: Device>()
    ensures sockets { (t : ℤ) (s s' : State D) → OwnWork D.moves t s s' → s'.slots ≡ s.slots }
    ensures settings { (t : ℤ) (s s' : State D) → OwnWork D.moves t s s' → HasSettingsOf s.host.inner s'.host.inner }
    ensures none { (t : ℤ) (s s' : State D) → s.host.reports ≡ None → s.host.inner.host_requirements ≡ false → OwnWork D.moves t s s' → s' ≡ s }
    ensures paths { (t : ℤ) (s s' : State D) → s.host.reports ≡ None → s.host.inner.host_requirements ≡ true → OwnWork D.moves t s s'
        → s' ≡ state s.device (checked t s.host s.slots) s.slots }
    ensures silent { (t : ℤ) (budget : ℕ) (s s' : State D) (changed : Bool)
        → s.host.reports ≡ None
        → s.host.inner.host_requirements ≡ false
        → HostPolls D.moves t budget s changed s'
        → Polls D.moves t budget s changed s' × (s'.host.reports ≡ None) }
{}

/// Law: all that a poll asks of its device is a list of looks, leaves to send, and frames that are departures of the host: of these
/// at most so many as there are slots, and two more, for each step of its budget; and with host requirements as many more as packets wait
/// for their next hops at most. Without them a request among those that the device took is no earlier than the end of the silence. It begins
/// one of a second; nothing else in a poll begins or ends one.
pub fn asks_a_second_apart<D: Device>()
    ensures traced { (t : ℤ) (budget : ℕ) (s s' : State D) (changed : Bool)
        → Polls D.moves t budget s changed s'
        → Traced D.moves t (budget * (most_parked s.host.inner + (length s.slots + 2))) s.device s.host.inner s'.device s'.host.inner }
    ensures few { (t : ℤ) (budget : ℕ) (s s' : State D) (changed : Bool) → s.host.inner.host_requirements ≡ false
        → Polls D.moves t budget s changed s'
        → TracedAlone D.moves t (budget * (length s.slots + 2)) s.device s.host.inner s'.device s'.host.inner }
{}

/// Law: without host requirements, of the neighbours that sockets wait for none comes before the one whose turn it is to be asked for; and
/// while a socket waits, no socket's packet asks for another.
pub fn neighbors_are_asked_in_turn()
    ensures first { (i : InnerValue) (ps : List (SocketStorage Socket)) (a : Awaited)
        → next_awaited i ps ≡ Some a
        → list_any (λ b. comes_before b a) (filter_map (awaited_in i) ps) ≡ false }
    ensures in_turn { (hop : IpAddress) (m : Meta) (i : InnerValue) (to : IpAddress) (q : NeighborQuery)
        → held (Some hop) m i to (Way.Ask q) ≡ None
        → is_same_address hop (target_of q) ≡ true }
{}

/// Law: another source changes nothing else of a packet. A source that can be one stays, and so does a raw socket's; in place of
/// another comes the address that is chosen for the destination, and where none can be chosen it stays, and the packet never leaves
/// (`iface_egress::laws::sources_are_hosts`).
pub fn sources_are_chosen()
    ensures same { (i : InnerValue) (p : PacketValue)
        → (destination_of (sourced i p).header ≡ destination_of p.header) × ((sourced i p).payload ≡ p.payload) }
    ensures stays { (i : InnerValue) (p : PacketValue) → keeps_source i p ≡ true → sourced i p ≡ p }
    ensures chosen { (i : InnerValue) (p : PacketValue) (a : IpAddress)
        → keeps_source i p ≡ false
        → source_for i.addresses (destination_of p.header) ≡ Some a
        → source_of (sourced i p).header ≡ a }
    ensures none { (i : InnerValue) (p : PacketValue)
        → source_for i.addresses (destination_of p.header) ≡ None
        → sourced i p ≡ p }
{}

/// Law: a source that is chosen for a destination is a local address, unless a packet from it never leaves. So nothing leaves from an address
/// that isn't own, but from one that a socket names itself: what it was bound to, or what a raw socket's header says.
pub fn chosen_sources_are_local()
    ensures chosen { (i : InnerValue) (to a : IpAddress)
        → source_for i.addresses to ≡ Some a
        → may_be_source i a to ≡ true
        → is_foreign_loopback i to ≡ false
        → is_local i a ≡ true }
    ensures packet { (i : InnerValue) (p : PacketValue)
        → keeps_source i p ≡ false
        → never_leaves i (sourced i p).header ≡ false
        → is_local i (source_of (sourced i p).header) ≡ true }
{}

/// Law: a poll takes at most one identification for each frame that it may take and each turn of a socket: one for each step of its
/// budget, and one for each socket; and with host requirements one for each packet that waits for its next hop. A later fragment takes none.
pub fn identifications_of_a_poll<D: Device>()
    ensures taken { (t : ℤ) (budget : ℕ) (s s' : State D) (changed : Bool)
        → Polls D.moves t budget s changed s'
        → TakesIdents (budget * (most_parked s.host.inner + (1 + sockets_in s.slots))) s.host.inner s'.host.inner }
    ensures few { (t : ℤ) (budget : ℕ) (s s' : State D) (changed : Bool) → s.host.inner.host_requirements ≡ false
        → Polls D.moves t budget s changed s'
        → TakesIdents (budget * (1 + sockets_in s.slots)) s.host.inner s'.host.inner }
{}

/// Law: at a device that stays determined a poll has one end: device, host, sockets, and whether anything changed.
pub fn one_outcome<D: Device>()
    ensures { (longest : ℕ) (t : ℤ) (budget : ℕ) (s left right : State D) (changed other : Bool)
        → IsSteady D.moves longest
        → IsDetermined D.moves longest s.device
        → Polls D.moves t budget s changed left
        → Polls D.moves t budget s other right
        → (left ≡ right) × (changed ≡ other) }
{
    one_offer();
}

/// Law: a poll at a loopback that refuses no frame, for lack of memory, has one end.
pub fn polls_at_loopbacks_have_one_end()
    ensures { (t : ℤ) (budget : ℕ) (s left right : State LoopbackValue) (changed other : Bool)
        → left.device.refusals ≡ s.device.refusals
        → right.device.refusals ≡ s.device.refusals
        → Polls LoopbackMove t budget s changed left
        → Polls LoopbackMove t budget s other right
        → (left ≡ right) × (changed ≡ other) }
{
    one_offer();
}

/// Law: a datagram whose frame left at once left as in a turn of its socket with that datagram queued: the same packet goes the same way, and
/// the socket has an empty queue again, whose free storage may begin elsewhere. Where the device gives no leave or refuses the frame, the
/// turn ends the pass, and the datagram stays queued. Each turn of a socket of which a datagram could have left at once is such a turn.
pub fn sending_is_queueing_and_a_turn<D: Device>()
    ensures left { (turn : Option IpAddress) (s : Sender D) (m m' : Meta) (v : UdpValue) (q : DatagramToSend) (d : D) (i' : InnerValue)
        → LeavesAtOnce D.moves s m v q Outcome.Gone d i' m'
        → (v' : UdpValue) × Turns D.moves turn s (udp_item m (send_after v q.0 q.1)) (Turn.Next true) (sender d i' s.left) (udp_item m' v')
        × IsSameButForSlots v v' }
    ensures refused { (turn : Option IpAddress) (s : Sender D) (m m' : Meta) (v : UdpValue) (q : DatagramToSend) (d : D) (i' : InnerValue)
        → LeavesAtOnce D.moves s m v q Outcome.Refused d i' m'
        → (v' : UdpValue) × Turns D.moves turn s (udp_item m (send_after v q.0 q.1)) (Turn.Stop false) (sender d i' s.left)
        (udp_item (freed m (passes_filter s.inner m)) v')
        × IsSameButForSlots (send_after v q.0 q.1) v' }
    ensures turn { (turn : Option IpAddress) (s s' : Sender D) (m : Meta) (v : UdpValue) (q : DatagramToSend) (p : PacketValue) (to : HardwareAddress)
        (turned : Served) (item' : Item Socket)
        → MayLeave s m v q p
        → GoesDirect s.inner p.header to
        → Turns D.moves turn s (udp_item m (send_after v q.0 q.1)) turned s' item'
        → LeavesInTurn D.moves s m v q p to turned s' item' }
{}

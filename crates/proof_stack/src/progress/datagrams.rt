//! What is queued goes.

ghost use Rattle.std.specs.Prelude.{◌≡◌, ◌≢◌, ℕ, ◌<◌, ◌≤◌, ℤ, Bool, true, false, List, ◌∷◌, ◌++◌, length, slice_get, ◌⊎◌, Option, None, Some, is_some};
ghost use Rattle.std.specs.List.{AllByRecursion};
ghost use Rattle.net_base.specs.Packets.{contents};
ghost use Rattle.ip_wire.specs.HardwareAddress.{HardwareAddress};
ghost use Rattle.ip_wire.specs.Ip.{destination_of, payload_len_of};
ghost use Rattle.ip_wire.specs.IpAddress.{IpAddress};
ghost use Rattle.socket_datagram.specs.Udp.{TakesDatagram, UdpValue, UdpSettings};
ghost use Rattle.socket_datagram.specs.declared.udp.UdpMetadata.{UdpMetadata};
ghost use Rattle.iface_ingress.specs.Packet.{PacketValue};
ghost use Rattle.iface_ingress.specs.Socket.{Socket};
ghost use Rattle.iface_ingress.specs.Socket.TheVariants as Kind;
ghost use Rattle.iface_ingress.specs.WellFormed.{IsWellFormed};
ghost use Rattle.iface_tables.specs.Inner.{InnerValue, at_instant, context_of, mtu_to, next_hop};
ghost use Rattle.iface_tables.specs.Parking.{ParkedValue, is_holdable, parked_as};
ghost use Rattle.iface_egress.specs.Departure.{Whole};
ghost use Rattle.iface_egress.specs.IsTransmitted.{numbered};
ghost use Rattle.iface_egress.specs.Parked.{is_searched, packet_in};
ghost use Rattle.iface_egress.specs.Plan.{never_leaves, plan_of, total_len};
ghost use Rattle.iface_egress.specs.declared.socket_meta.Meta.{Meta};
ghost use Rattle.iface_egress.specs.declared.socket_set.SocketStorage.{SocketStorage};
ghost use Rattle.interface.specs.TransmittedFrame.{Reader, CanRead, HasWidths, IsRead};
ghost use Rattle.interface.specs.Egress.{EgressStep};
ghost use Rattle.interface.specs.Host.{Sender};
ghost use Rattle.interface.specs.Polls.{Polls};
ghost use Rattle.interface.specs.QuietPoll.{HasNoFrame};
ghost use Rattle.interface.specs.Serve.{ServesSlot, is_waiting};
ghost use Rattle.interface.specs.State.{State};
ghost use Rattle.interface.specs.declared.serve.Served.{Served};
ghost use Rattle.interface.specs.declared.serve.Served.TheVariants as Turn;
ghost use Rattle.proof_stack.specs.Progress.Parked.{GoesFromThere, IsParkedLast, LeavesQueue};
ghost use Rattle.proof_stack.specs.Progress.Queued.{CanGo, HasWay, HasTurn, GoesAtOnce, GoesInTurn, frame_under, with_ident, FindsDatagram};
ghost use Rattle.proof_stack.specs.Progress.Segments.{CanTransmit};

use net_base::Device;

/// Law: in one step of the egress path the first datagram in the queue of a UDP socket goes, whatever other sockets wait for and whatever they
/// send, unless the device refuses in that step; the socket then has the datagrams after it. And in a poll that finds no frame at its device
/// each datagram goes that has fewer before it in the queue than the poll has steps. The host knows the hardware address of the next hop of
/// those datagrams, each fits one frame and the path to its destination, and the socket isn't waiting for another neighbour.
pub fn queued_datagrams_go<D: Device>()
    ensures at_once { (t : ℤ) (s s' : State D) (answer : Option Bool) (n : ℕ) (v : UdpValue) (d : UdpMetadata × List ℕ)
        (more : List (UdpMetadata × List ℕ)) (to : HardwareAddress) (p : PacketValue)
        → HasTurn (at_instant t s.host.inner) s.slots n v
        → contents v.queued ≡ d ∷ more
        → CanGo (at_instant t s.host.inner) v.settings d to p
        → EgressStep D.moves t s answer s'
        → GoesAtOnce D.moves (at_instant t s.host.inner) n v to p s.device s'.device answer s'.slots }
    ensures in_turn { (t : ℤ) (budget : ℕ) (s s' : State D) (changed : Bool) (n : ℕ) (v : UdpValue) (before : List (UdpMetadata × List ℕ))
        (d : UdpMetadata × List ℕ) (more : List (UdpMetadata × List ℕ)) (to : HardwareAddress) (p : PacketValue)
        → HasTurn (at_instant t s.host.inner) s.slots n v
        → contents v.queued ≡ before ++ d ∷ more
        → length before < budget
        → AllByRecursion (HasWay (at_instant t s.host.inner) v.settings) before
        → CanGo (at_instant t s.host.inner) v.settings d to p
        → HasNoFrame D.moves t s.device
        → Polls D.moves t budget s changed s'
        → GoesInTurn D.moves (at_instant t s.host.inner) to p s.device s'.device }
{}

/// Law: with host requirements no queue stands still for a neighbour (RFC 1122, section 2.3.2.2): in one step of the egress path the first datagram
/// in the queue of a UDP socket leaves it, whoever its next hop is, and whether that one is known, is asked for or doesn't answer, unless the
/// device refuses in that step. The datagram may leave its host, and fits one frame and the path to its destination.
pub fn no_queue_stands_still<D: Device>()
    ensures { (t : ℤ) (s s' : State D) (answer : Option Bool) (n : ℕ) (v : UdpValue) (d : UdpMetadata × List ℕ)
        (more : List (UdpMetadata × List ℕ)) (p : PacketValue)
        → s.host.inner.host_requirements ≡ true
        → HasTurn (at_instant t s.host.inner) s.slots n v
        → contents v.queued ≡ d ∷ more
        → TakesDatagram (context_of (at_instant t s.host.inner)) v.settings d p
        → never_leaves (at_instant t s.host.inner) p.header ≡ false
        → total_len p.header ≤ mtu_to (at_instant t s.host.inner) (destination_of p.header)
        → EgressStep D.moves t s answer s'
        → LeavesQueue D.moves n v s.device s'.device answer s'.slots }
{}

/// Law: and one whose next hop is searched for waits beside the search, the last of those that do, and so the last to make room for others, unless
/// the device refuses. So it is at the turn of its socket, where its bytes have room by themselves.
pub fn what_has_to_wait_is_parked<D: Device>()
    ensures { (x x' : Sender D) (slot : SocketStorage Socket) (turned : Served) (meta : Meta) (v : UdpValue) (d : UdpMetadata × List ℕ)
        (more : List (UdpMetadata × List ℕ)) (hop : IpAddress) (p : PacketValue)
        → x.inner.host_requirements ≡ true
        → is_waiting x.inner meta ≡ false
        → contents v.queued ≡ d ∷ more
        → TakesDatagram (context_of x.inner) v.settings d p
        → never_leaves x.inner p.header ≡ false
        → is_searched (plan_of x.inner (is_some x.left) p.header) ≡ true
        → next_hop x.inner (destination_of p.header) ≡ Some hop
        → is_holdable x.inner.parking.room (payload_len_of p.header) ≡ true
        → ServesSlot D.moves None x (record { inner = Some (record { meta = meta; socket = Kind.Udp v }) }) turned x' slot
        → ((b : Bool) × (turned ≡ Turn.Stop b)) ⊎ IsParkedLast x.inner hop p turned x'.inner }
{}

/// Law: and a packet that waits beside the search for its next hop goes in one step of the egress path once the hardware address of that hop is
/// known, whatever else waits, unless the device refuses in that step. It may leave its host, and fits one frame and the path to its
/// destination. Its frame is the one that the packet would have gone in at once.
pub fn what_waits_goes_once_its_hop_is_known<D: Device>()
    ensures goes { (t : ℤ) (s s' : State D) (answer : Option Bool) (n : ℕ) (k : ParkedValue) (to : HardwareAddress)
        → s.host.inner.host_requirements ≡ true
        → slice_get s.host.inner.parking.packets n ≡ Some k
        → CanTransmit (at_instant t s.host.inner) to (packet_in k)
        → EgressStep D.moves t s answer s'
        → GoesFromThere D.moves (at_instant t s.host.inner) to (packet_in k) s.device s'.device }
    ensures frame { (i : InnerValue) (ident : ℕ) (to : HardwareAddress) (hop : IpAddress) (p : PacketValue)
        → frame_under i ident to (packet_in (parked_as i.checksums hop p)) ≡ frame_under i ident to p }
{}

/// Law: another host of the same medium that is handed the frame of such a packet, whatever padding follows, reads the packet in its normal
/// form, and after its header the datagram: the port that the socket is bound to, the port that it was sent to, and the bytes that were
/// queued. It tests no checksum that the sender leaves out.
pub fn their_frames_are_read()
    ensures packet { (i : InnerValue) (ident : ℕ) (settings : UdpSettings) (d : UdpMetadata × List ℕ) (to : HardwareAddress) (p : PacketValue)
        (reader : Reader)
        → HasWidths (with_ident i ident)
        → CanGo i settings d to p
        → IsWellFormed p
        → CanRead i to reader
        → IsRead (with_ident i ident) (Whole to (numbered (with_ident i ident) p)) reader }
    ensures datagram { (i : InnerValue) (ident : ℕ) (settings : UdpSettings) (d : UdpMetadata × List ℕ) (to : HardwareAddress) (p : PacketValue)
        (reader : Reader)
        → HasWidths (with_ident i ident)
        → CanGo i settings d to p
        → IsWellFormed p
        → CanRead i to reader
        → d.0.endpoint.port ≢ 0
        → FindsDatagram (with_ident i ident) settings d (numbered (with_ident i ident) p) reader }
{}

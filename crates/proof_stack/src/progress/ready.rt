//! A socket that expects a datagram as a poll begins still does when the frame with it is next.

ghost use Rattle.std.specs.Prelude.{◌≡◌, ◌≢◌, ℕ, ◌<◌, ◌≤◌, ℤ, Bool, List, ◌∷◌, ◌++◌, length, Option};
ghost use Rattle.std.specs.List.{AllByRecursion};
ghost use Rattle.net_base.specs.Packets.{contents};
ghost use Rattle.wire_ip.specs.Ip.{source_of};
ghost use Rattle.wire_ip.specs.declared.ip.repr.IpRepr.{IpRepr};
ghost use Rattle.wire_ip.specs.declared.udp.repr.UdpRepr.{UdpRepr};
ghost use Rattle.ip_wire.specs.HardwareAddress.{HardwareAddress};
ghost use Rattle.socket_datagram.specs.Udp.{UdpValue, UdpSettings};
ghost use Rattle.socket_datagram.specs.declared.udp.UdpMetadata.{UdpMetadata};
ghost use Rattle.iface_ingress.specs.Packet.{PacketValue};
ghost use Rattle.iface_tables.specs.Inner.{InnerValue, at_instant};
ghost use Rattle.iface_egress.specs.declared.socket_meta.Meta.{Meta};
ghost use Rattle.interface.specs.Ingress.{IngressStep};
ghost use Rattle.interface.specs.Polls.{Polls};
ghost use Rattle.interface.specs.QuietPoll.{HasNoFrame};
ghost use Rattle.interface.specs.State.{State};
ghost use Rattle.interface.specs.TransmittedFrame.{CanRead, HasWidths};
ghost use Rattle.proof_stack.specs.PeerHost.Datagrams.{IsUdpAt};
ghost use Rattle.lan.specs.Worlds.PollSteps.{Reaches};
ghost use Rattle.proof_stack.specs.Progress.Delivered.{RefusesNothing, as_received, reader_of};
ghost use Rattle.proof_stack.specs.Progress.Inbox.{BringsAmong, IsInbox, IsReady, WaitsAmongThem};
ghost use Rattle.proof_stack.specs.Progress.Queued.{CanGo, HasTurn, HasWay, ports_of};
ghost use Rattle.proof_stack.specs.Progress.Ready.{HasOneMoreAtMost, HasRoomFollowing, HasRoomThroughout, IsExpectedThroughout, IsStillExpected};

use net_base::Device;

/// Law: a datagram that a UDP socket expects as a poll begins is expected by that socket wherever the poll has come: by addresses and ports it stays
/// for this host, no socket before it comes to accept it, and the socket stays bound as it was. So where the host reads what the other one sends, and
/// the socket has room throughout, it is ready for the frame whenever that is next.
pub fn expected_datagrams_stay_expected<E: Device>()
    ensures still { (u : ℤ) (r x : State E) (to : HardwareAddress) (header : IpRepr) (ports : UdpRepr) (m : ℕ) (meta : Meta) (w : UdpValue)
        → IsExpectedThroughout (at_instant u r.host.inner) r.slots to header ports m meta w
        → Reaches E.moves u r x
        → IsStillExpected (at_instant u x.host.inner) x.slots to header ports m w }
    ensures ready { (frames_at : E → List (List ℕ)) (u : ℤ) (r : State E) (i : InnerValue) (to : HardwareAddress) (p : PacketValue)
        (settings : UdpSettings) (d : UdpMetadata × List ℕ) (m : ℕ) (meta : Meta) (w : UdpValue)
        → IsExpectedThroughout (at_instant u r.host.inner) r.slots to p.header (ports_of settings d) m meta w
        → CanRead i to (reader_of r.host.inner)
        → HasRoomThroughout E.moves frames_at u r i to p (length d.1) m
        → IsReady E.moves frames_at u r i to p settings d m }
{}

/// Law: a step of the ingress path leaves at most one datagram more at a UDP socket, after those that waited there, which is bound as it was: so the frames that
/// come before one need room for as many datagrams.
pub fn frames_bring_one_datagram_at_most<E: Device>()
    ensures { (u : ℤ) (r r' : State E) (answer : Option Bool) (m : ℕ) (w : UdpValue)
        → IsUdpAt r.slots m w
        → IngressStep E.moves u r answer r'
        → HasOneMoreAtMost r'.slots m w }
{}

/// Law: within two polls, by what can be seen as each begins: one poll of the one sends the datagram, and one poll of the other, at whose device the
/// frames wait in order, ends with it at the UDP socket that expects it as that poll begins, after those that waited there, among others that came. Its
/// frame waits after fewer others than `count`, the poll has as many steps, and the socket has room for it after what so many frames may bring.
pub fn a_queued_datagram_arrives_where_there_is_room<D: Device, E: Device>()
    ensures { (frames_at : E → List (List ℕ)) (t u : ℤ) (budget count steps : ℕ) (s s' : State D) (r r' : State E)
        (changed changed' : Bool) (n m : ℕ) (meta : Meta) (v w : UdpValue) (before : List (UdpMetadata × List ℕ)) (d : UdpMetadata × List ℕ)
        (more : List (UdpMetadata × List ℕ)) (to : HardwareAddress) (p : PacketValue)
        → IsInbox E.moves frames_at
        → HasWidths (at_instant t s.host.inner)
        → HasTurn (at_instant t s.host.inner) s.slots n v
        → contents v.queued ≡ before ++ d ∷ more
        → length before < budget
        → AllByRecursion (HasWay (at_instant t s.host.inner) v.settings) before
        → d.0.endpoint.port ≢ 0
        → CanGo (at_instant t s.host.inner) v.settings d to p
        → HasNoFrame D.moves t s.device
        → Polls D.moves t budget s changed s'
        → RefusesNothing D.moves s.device s'.device
        → BringsAmong D.moves frames_at (at_instant t s.host.inner) to p s.device s'.device r.device count
        → count ≤ steps
        → CanRead (at_instant t s.host.inner) to (reader_of r.host.inner)
        → IsExpectedThroughout (at_instant u r.host.inner) r.slots to p.header (ports_of v.settings d) m meta w
        → HasRoomFollowing (frames_at r.device) r.host.assemblers w.received count (length d.1)
        → Polls E.moves u steps r changed' r'
        → WaitsAmongThem r'.slots m w (as_received (source_of p.header) v.settings d) }
{}

//! A datagram that is queued at one host comes to wait at another.

ghost use Rattle.std.specs.Prelude.{◌≡◌, ◌≢◌, ℕ, ◌<◌, ◌≤◌, ℤ, Bool, true, false, List, ◌∷◌, ◌++◌, length, Option, Some};
ghost use Rattle.std.specs.List.{AllByRecursion};
ghost use Rattle.net_base.specs.Packets.{contents, is_full_for};
ghost use Rattle.ip_wire.specs.EthernetAddress.{EthernetAddress};
ghost use Rattle.ip_wire.specs.HardwareAddress.{HardwareAddress};
ghost use Rattle.ip_wire.specs.HardwareAddress.TheVariants as Hardware;
ghost use Rattle.ip_wire.specs.IpAddress.TheVariants as Address;
ghost use Rattle.ip_wire.specs.Ipv4Address.{Ipv4Address};
ghost use Rattle.wire_ip.specs.Ip.{destination_of, source_of};
ghost use Rattle.socket_datagram.specs.Udp.{UdpValue};
ghost use Rattle.socket_datagram.specs.declared.udp.UdpMetadata.{UdpMetadata};
ghost use Rattle.iface_ingress.specs.Packet.{PacketValue};
ghost use Rattle.iface_tables.specs.Inner.{at_instant, mtu_to, next_hop};
ghost use Rattle.iface_egress.specs.Plan.{total_len};
ghost use Rattle.iface_egress.specs.declared.socket_meta.Meta.{Meta};
ghost use Rattle.interface.specs.Egress.{EgressStep};
ghost use Rattle.interface.specs.Ingress.{IngressStep};
ghost use Rattle.interface.specs.Polls.{Polls};
ghost use Rattle.interface.specs.QuietPoll.{HasNoFrame};
ghost use Rattle.interface.specs.State.{State};
ghost use Rattle.interface.specs.TransmittedFrame.{CanRead, HasWidths};
ghost use Rattle.proof_stack.specs.Progress.NeighborResolution.{AsksFirst, HasToAsk};
ghost use Rattle.proof_stack.specs.Progress.Exchanged.{AreNeighbors, Exchange, IsServed};
ghost use Rattle.proof_stack.specs.Progress.Delivered.{Brings, IsExpected, RefusesNothing, WaitsFollowing, as_received, reader_of};
ghost use Rattle.proof_stack.specs.PeerHost.Datagrams.{IsUdpAt};
ghost use Rattle.proof_stack.specs.Progress.Inbox.{BringsAmong, IsInbox, IsReady, WaitsAmongThem};
ghost use Rattle.proof_stack.specs.Progress.Queued.{CanGo, HasTurn, HasWay, ports_of};

use net_base::Device;

/// Law: of two hosts on one medium, where the first datagram in the queue of a UDP socket of the one is to go to a known hardware address, a step
/// of the egress path of the one, in which its device refuses nothing, and after it a step of the ingress path of the other, at whose device what went
/// comes next, leave the datagram at the UDP socket that it is for: after those that waited there, with the endpoint that it came from and the
/// address that it was sent to.
pub fn a_datagram_arrives<D: Device, E: Device>()
    ensures { (t u : ℤ) (s s' : State D) (r r' : State E) (answer : Option Bool) (n m : ℕ) (v w : UdpValue) (d : UdpMetadata × List ℕ)
        (more : List (UdpMetadata × List ℕ)) (to : HardwareAddress) (p : PacketValue) (meta : Meta)
        → HasWidths (at_instant t s.host.inner)
        → HasTurn (at_instant t s.host.inner) s.slots n v
        → contents v.queued ≡ d ∷ more
        → d.0.endpoint.port ≢ 0
        → CanGo (at_instant t s.host.inner) v.settings d to p
        → EgressStep D.moves t s answer s'
        → RefusesNothing D.moves s.device s'.device
        → Brings D.moves E.moves (at_instant t s.host.inner) to p s.device s'.device u r.device
        → CanRead (at_instant t s.host.inner) to (reader_of r.host.inner)
        → IsExpected (at_instant u r.host.inner) r.slots to p.header (ports_of v.settings d) m meta w
        → is_full_for w.received (length d.1) ≡ false
        → IngressStep E.moves u r (Some true) r'
        → WaitsFollowing r'.slots m meta w (as_received (source_of p.header) v.settings d) }
{}

/// Law: so do the datagrams after it, in their turn: in a poll of the one that finds no frame, and in which its device refuses nothing, each datagram
/// goes that has fewer before it in the queue than the poll has steps, and a step of the ingress path of the other, at whose device its frame comes next,
/// leaves it at the UDP socket that it is for. Whatever other sockets of the one wait for and send.
pub fn a_queued_datagram_arrives_in_turn<D: Device, E: Device>()
    ensures { (t u : ℤ) (budget : ℕ) (s s' : State D) (r r' : State E) (changed : Bool) (n m : ℕ) (v w : UdpValue)
        (before : List (UdpMetadata × List ℕ)) (d : UdpMetadata × List ℕ) (more : List (UdpMetadata × List ℕ)) (to : HardwareAddress)
        (p : PacketValue) (meta : Meta)
        → HasWidths (at_instant t s.host.inner)
        → HasTurn (at_instant t s.host.inner) s.slots n v
        → contents v.queued ≡ before ++ d ∷ more
        → length before < budget
        → AllByRecursion (HasWay (at_instant t s.host.inner) v.settings) before
        → d.0.endpoint.port ≢ 0
        → CanGo (at_instant t s.host.inner) v.settings d to p
        → HasNoFrame D.moves t s.device
        → Polls D.moves t budget s changed s'
        → RefusesNothing D.moves s.device s'.device
        → Brings D.moves E.moves (at_instant t s.host.inner) to p s.device s'.device u r.device
        → CanRead (at_instant t s.host.inner) to (reader_of r.host.inner)
        → IsExpected (at_instant u r.host.inner) r.slots to p.header (ports_of v.settings d) m meta w
        → is_full_for w.received (length d.1) ≡ false
        → IngressStep E.moves u r (Some true) r'
        → WaitsFollowing r'.slots m meta w (as_received (source_of p.header) v.settings d) }
{}

/// Law: within two polls: where the other host's device has the frames in order, with its frame after fewer others than that host's poll has steps,
/// one poll of the one sends the datagram, and one poll of the other ends with it at the UDP socket that it is for, after those that waited there,
/// among others that came. Wherever that poll has come when its frame is next, the socket expects the datagram, and has room for it.
pub fn a_queued_datagram_arrives_within_a_poll<D: Device, E: Device>()
    ensures { (frames_at : E → List (List ℕ)) (t u : ℤ) (budget steps : ℕ) (s s' : State D) (r r' : State E)
        (changed changed' : Bool) (n m : ℕ) (v w : UdpValue) (before : List (UdpMetadata × List ℕ)) (d : UdpMetadata × List ℕ) (more : List (UdpMetadata × List ℕ))
        (to : HardwareAddress) (p : PacketValue)
        → IsInbox E.moves frames_at
        → HasWidths (at_instant t s.host.inner)
        → HasTurn (at_instant t s.host.inner) s.slots n v
        → contents v.queued ≡ before ++ d ∷ more
        → length before < budget
        → AllByRecursion (HasWay (at_instant t s.host.inner) v.settings) before
        → d.0.endpoint.port ≢ 0
        → CanGo (at_instant t s.host.inner) v.settings d to p
        → HasNoFrame D.moves t s.device
        → Polls D.moves t budget s changed s'
        → RefusesNothing D.moves s.device s'.device
        → BringsAmong D.moves frames_at (at_instant t s.host.inner) to p s.device s'.device r.device steps
        → IsUdpAt r.slots m w
        → IsReady E.moves frames_at u r (at_instant t s.host.inner) to p v.settings d m
        → Polls E.moves u steps r changed' r'
        → WaitsAmongThem r'.slots m w (as_received (source_of p.header) v.settings d) }
{}

/// Law: the same over IPv4 on Ethernet where the next hop isn't known yet, and the other host is that hop: the one asks for it, the other answers,
/// the one reads the answer and sends at that instant, and the other reads the datagram. No device refuses anything in these steps, and question,
/// answer and packet each come next at the other device. No socket of the one waits for another neighbour whose turn it is; and where none waits
/// for any, those before this one need no other.
pub fn a_datagram_to_an_unknown_neighbor_arrives<D: Device, E: Device>()
    ensures { (x : Exchange D.moves E.moves) (n m : ℕ) (v w : UdpValue) (d : UdpMetadata × List ℕ) (more : List (UdpMetadata × List ℕ))
        (own node : EthernetAddress) (a asked : Ipv4Address) (p : PacketValue) (meta : Meta)
        → HasWidths (at_instant x.asked x.s0.host.inner)
        → AreNeighbors x.s0.host.inner x.r0.host.inner own node a asked
        → AsksFirst (at_instant x.asked x.s0.host.inner) x.s0.slots n v (Address.Ipv4 asked) (destination_of p.header)
        → contents v.queued ≡ d ∷ more
        → d.0.endpoint.port ≢ 0
        → HasToAsk (at_instant x.asked x.s0.host.inner) v.settings d (Address.Ipv4 asked) p
        → next_hop (at_instant x.heard x.s0.host.inner) (destination_of p.header) ≡ Some (Address.Ipv4 asked)
        → total_len p.header ≤ mtu_to (at_instant x.heard x.s0.host.inner) (destination_of p.header)
        → IsExpected (at_instant x.read x.r0.host.inner) x.r0.slots (Hardware.Ethernet node) p.header (ports_of v.settings d) m meta w
        → is_full_for w.received (length d.1) ≡ false
        → IsServed x own node a asked p
        → WaitsFollowing x.r3.slots m meta w (as_received (source_of p.header) v.settings d) }
{}

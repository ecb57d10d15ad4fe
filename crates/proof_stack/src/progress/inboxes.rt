//! Devices at which frames wait in order.

ghost use Rattle.std.specs.Prelude.{◌≡◌, ◌≢◌, ℕ, ◌<◌, ◌≤◌, ℤ, Bool, IsTrue, List, [], ◌∷◌, ◌++◌, length, option_to_list};
ghost use Rattle.std.specs.List.{AllByRecursion};
ghost use Rattle.net_base.specs.Device.{gives_tokens};
ghost use Rattle.net_base.specs.Loopback.{LoopbackValue, LoopbackMove};
ghost use Rattle.net_base.specs.Packets.{contents};
ghost use Rattle.wire_ip.specs.Ip.{source_of};
ghost use Rattle.ip_wire.specs.HardwareAddress.{HardwareAddress};
ghost use Rattle.socket_datagram.specs.Udp.{UdpValue};
ghost use Rattle.socket_datagram.specs.declared.udp.UdpMetadata.{UdpMetadata};
ghost use Rattle.iface_ingress.specs.Packet.{PacketValue};
ghost use Rattle.iface_tables.specs.Inner.{InnerValue, at_instant};
ghost use Rattle.iface_egress.specs.declared.socket_meta.Meta.{Meta};
ghost use Rattle.interface.specs.Polls.{Polls};
ghost use Rattle.interface.specs.QuietPoll.{HasNoFrame};
ghost use Rattle.interface.specs.State.{State};
ghost use Rattle.interface.specs.TransmittedFrame.{CanRead, HasWidths};
ghost use Rattle.sim_link.specs.Port.{PortValue, PortMove, has_tx_token};
ghost use Rattle.app_tun_services.specs.Link.Drain.{DrainValue, DrainMove};
ghost use Rattle.proof_stack.specs.Progress.Delivered.{RefusesNothing, as_received, reader_of};
ghost use Rattle.proof_stack.specs.Progress.Inbox.{BringsAmong, IsInbox, WaitsAmongThem};
ghost use Rattle.proof_stack.specs.Progress.Leave.{BringsWhatWent, IsInboxWhile};
ghost use Rattle.proof_stack.specs.Progress.Numerals.{QueueMove};
ghost use Rattle.proof_stack.specs.Progress.Queued.{CanGo, HasTurn, HasWay, ports_of};
ghost use Rattle.proof_stack.specs.Progress.Ready.{HasRoomFollowing, IsExpectedThroughout};

use net_base::Device;

/// Law: while it gives leave to send, a port of the simulated link has the frames that wait at it in order: a look finds the first and takes it alone,
/// what is transmitted leaves them, and no move of a port gives it leave.
pub fn ports_are_inboxes()
    ensures { IsInboxWhile PortMove (λ (p : PortValue). has_tx_token p.link) (λ (p : PortValue). p.link.waiting) }
{}

/// Law: a port refuses nothing on its way to where it counts no refusal more and still gives leave; and it has no frame while none waits.
pub fn ports_refuse_nothing()
    ensures refuses { (old new : PortValue) → new.link.refusals ≡ old.link.refusals → IsTrue (has_tx_token new.link) → RefusesNothing PortMove old new }
    ensures no_frame { (t : ℤ) (p : PortValue) → p.link.waiting ≡ [] → HasNoFrame PortMove t p }
{}

/// Law: the link brings a port's packet where it brings whatever that port sent.
pub fn what_went_is_brought()
    ensures { (i : InnerValue) (to : HardwareAddress) (p : PacketValue) (old new other : PortValue) (count : ℕ)
        → BringsWhatWent old new other count
        → BringsAmong PortMove (λ (p : PortValue). p.link.waiting) i to p old new other count }
{}

/// Law: why leave is asked for: each frame that a port takes costs it room, and without room it hands out no frame; so whatever frames are named as those
/// that a look at a port always finds, there are none.
pub fn no_port_is_an_inbox_without_leave()
    ensures { (frames_at : PortValue → List (List ℕ)) (p : PortValue) → IsInbox PortMove frames_at → frames_at p ≡ [] }
{}

/// Law: of a queue of frames that gives leave whatever comes it is so, with all its frames: so the laws that ask for an inbox ask for something.
pub fn a_queue_is_an_inbox()
    ensures { IsInbox QueueMove (λ (frames : List (List ℕ)). frames) }
{}

/// Law: while it gives leave, a drain, the device between a reader and a writer, has its one packet so: a look finds it, and what is transmitted leaves it.
pub fn drains_are_inboxes()
    ensures { IsInboxWhile DrainMove (λ (d : DrainValue). gives_tokens d.refusals) (λ (d : DrainValue). option_to_list d.waiting) }
{}

/// Law: of a loopback that isn't so, whatever leave it gives: what is transmitted comes in, after what waits.
pub fn a_loopback_is_no_inbox()
    ensures { (gives_tx_token : LoopbackValue → Bool) → IsInboxWhile LoopbackMove gives_tx_token (λ (l : LoopbackValue). l.queue) → ⊥ }
{}

/// Law: within two polls a queued datagram arrives at a device that gives leave to the end of the second poll: one poll of the one host sends the
/// datagram, and one poll of the other, at whose device the frames wait in order while it gives leave, ends with it at the UDP socket that expects it as
/// that poll begins, after those that waited there, among others that came. Its frame waits after fewer others than `count`, the poll has as many
/// steps, and the socket has room for it after what so many frames may bring.
pub fn a_queued_datagram_arrives_while_there_is_leave<D: Device, E: Device>()
    ensures { (gives_tx_token : E → Bool) (frames_at : E → List (List ℕ)) (t u : ℤ) (budget count steps : ℕ) (s s' : State D) (r r' : State E)
        (changed changed' : Bool) (n m : ℕ) (meta : Meta) (v w : UdpValue) (before : List (UdpMetadata × List ℕ)) (d : UdpMetadata × List ℕ)
        (more : List (UdpMetadata × List ℕ)) (to : HardwareAddress) (p : PacketValue)
        → IsInboxWhile E.moves gives_tx_token frames_at
        → IsTrue (gives_tx_token r'.device)
        → HasWidths (at_instant t s.host.inner)
        → HasTurn (at_instant t s.host.inner) s.slots n v
        → contents v.queued ≡ before ++ d ∷ more
        → length before < budget
        → AllByRecursion (HasWay (at_instant t s.host.inner) v.settings) before
        → d.0.endpoint.port ≢ 0
        → CanGo (at_instant t s.host.inner) v.settings d to p
        → HasNoFrame D.moves t s.device
        → Polls D.moves t budget s changed s'
        → RefusesNothing D.moves s.device s'.device
        → BringsAmong D.moves frames_at (at_instant t s.host.inner) to p s.device s'.device r.device count
        → count ≤ steps
        → CanRead (at_instant t s.host.inner) to (reader_of r.host.inner)
        → IsExpectedThroughout (at_instant u r.host.inner) r.slots to p.header (ports_of v.settings d) m meta w
        → HasRoomFollowing (frames_at r.device) r.host.assemblers w.received count (length d.1)
        → Polls E.moves u steps r changed' r'
        → WaitsAmongThem r'.slots m w (as_received (source_of p.header) v.settings d) }
{}

/// Law: of two hosts at ports of the simulated link it arrives by what each port holds: no frame waits at the one, which counts no refusal in its poll and gives
/// leave to its end; the link brings whatever it sent in that poll; and the other gives leave to the end of its own poll.
pub fn a_queued_datagram_arrives_between_ports()
    ensures { (t u : ℤ) (budget count steps : ℕ) (s s' r r' : State PortValue) (changed changed' : Bool) (n m : ℕ) (meta : Meta) (v w : UdpValue)
        (before : List (UdpMetadata × List ℕ)) (d : UdpMetadata × List ℕ) (more : List (UdpMetadata × List ℕ)) (to : HardwareAddress) (p : PacketValue)
        → HasWidths (at_instant t s.host.inner)
        → HasTurn (at_instant t s.host.inner) s.slots n v
        → contents v.queued ≡ before ++ d ∷ more
        → length before < budget
        → AllByRecursion (HasWay (at_instant t s.host.inner) v.settings) before
        → d.0.endpoint.port ≢ 0
        → CanGo (at_instant t s.host.inner) v.settings d to p
        → s.device.link.waiting ≡ []
        → Polls PortMove t budget s changed s'
        → s'.device.link.refusals ≡ s.device.link.refusals
        → IsTrue (has_tx_token s'.device.link)
        → BringsWhatWent s.device s'.device r.device count
        → count ≤ steps
        → CanRead (at_instant t s.host.inner) to (reader_of r.host.inner)
        → IsExpectedThroughout (at_instant u r.host.inner) r.slots to p.header (ports_of v.settings d) m meta w
        → HasRoomFollowing r.device.link.waiting r.host.assemblers w.received count (length d.1)
        → Polls PortMove u steps r changed' r'
        → IsTrue (has_tx_token r'.device.link)
        → WaitsAmongThem r'.slots m w (as_received (source_of p.header) v.settings d) }
{}

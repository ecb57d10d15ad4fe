//! A segment that a TCP socket of one host offers comes to a socket of another.

ghost use Rattle.std.specs.Prelude.{◌≡◌, ℕ, suc, ◌≤◌, ℤ, Bool, true, IsTrue, List, [], slice_get, Option, Some, None};
ghost use Rattle.wire_ip.specs.Ip.{destination_of};
ghost use Rattle.wire_ip.specs.declared.ip.repr.IpRepr.{IpRepr};
ghost use Rattle.ip_wire.specs.HardwareAddress.{HardwareAddress};
ghost use Rattle.ip_wire.specs.HardwareAddress.TheVariants as Hardware;
ghost use Rattle.ip_wire.specs.TcpHeader.{TcpHeader};
ghost use Rattle.tcp_block.specs.Settled.{settled};
ghost use Rattle.tcp_block.specs.Value.{TcpValue};
ghost use Rattle.iface_ingress.specs.Packet.{Segment, packet_of};
ghost use Rattle.iface_ingress.specs.Socket.TheVariants as Kind;
ghost use Rattle.iface_ingress.specs.WellFormed.{IsWellFormed};
ghost use Rattle.iface_tables.specs.Inner.{InnerValue, at_instant, mtu_to};
ghost use Rattle.iface_egress.specs.Plan.{total_len};
ghost use Rattle.iface_egress.specs.Set.{unmarked};
ghost use Rattle.iface_egress.specs.declared.socket_meta.Meta.{Meta};
ghost use Rattle.interface.specs.Egress.{EgressStep};
ghost use Rattle.interface.specs.Ingress.{IngressStep};
ghost use Rattle.interface.specs.Polls.{Polls, Repeats};
ghost use Rattle.interface.specs.QuietPoll.{HasNoFrame};
ghost use Rattle.interface.specs.State.{State};
ghost use Rattle.interface.specs.TransmittedFrame.{CanRead, HasWidths};
ghost use Rattle.proof_stack.specs.PeerHost.Streams.{IsTcpAt};
ghost use Rattle.proof_stack.specs.Progress.Delivered.{Brings, RefusesNothing, reader_of};
ghost use Rattle.lan.specs.declared.at_link.history.event.Side.TheVariants.{B};
ghost use Rattle.sim_link.specs.Port.{PortValue, PortMove, has_tx_token};
ghost use Rattle.proof_stack.specs.Progress.Inbox.{BringsAmong};
ghost use Rattle.proof_stack.specs.Progress.Leave.{BringsWhatWent, IsInboxWhile, LiesAmong};
ghost use Rattle.proof_stack.specs.Progress.Numerals.{now};
ghost use Rattle.proof_stack.specs.Progress.Queued.{GoesInTurn, frame_under, with_ident};
ghost use Rattle.proof_stack.specs.Progress.SegmentNumerals.{awaiting, header, offering, packet, push, reached, reader, sender, sent, writing};
ghost use Rattle.proof_stack.specs.Progress.Segments.{CanTransmit, ComesAmong, HasComeTo, HasConnection, IsAwaited, IsAwaitedThroughout};
ghost use Rattle.proof_stack.specs.Progress.Segments.{IsAwaitedWhenNext, IsItsTurn, LeavesAtOnce, OffersSegment, asked_by};
ghost use Rattle.proof_stack.specs.Worlds.Hosts.{text};
ghost use Rattle.proof_stack.specs.Worlds.Open.{idle};

use net_base::Device;

/// Law: in one step of the egress path the segment that a TCP socket offers goes, whatever other sockets wait for and whatever they send, unless the device
/// refuses in that step; and the socket is told that it went. The host knows the hardware address of the next hop, the segment fits one frame and the path
/// to its destination, and the socket isn't waiting for another neighbour. So it goes in the egress path of a poll that comes to such a socket, whatever came
/// in before, unless the device refuses in one of its steps.
pub fn offered_segments_go<D: Device>()
    ensures at_once { (t : ℤ) (s s' : State D) (answer : Option Bool) (n : ℕ) (v : TcpValue) (ip : IpRepr) (header : TcpHeader) (bytes : List ℕ)
        (to : HardwareAddress)
        → IsItsTurn (at_instant t s.host.inner) s.slots n (Kind.Tcp v)
        → OffersSegment (at_instant t s.host.inner) v ip header bytes
        → CanTransmit (at_instant t s.host.inner) to (packet_of ip (Segment header bytes))
        → EgressStep D.moves t s answer s'
        → LeavesAtOnce D.moves (at_instant t s.host.inner) n (Kind.Tcp (asked_by (at_instant t s.host.inner) v)) to (packet_of ip (Segment header bytes))
        s.device s'.device answer s'.slots }
    ensures egress { (t : ℤ) (budget : ℕ) (s s' : State D) (before changed : Bool) (n : ℕ) (v : TcpValue) (ip : IpRepr) (header : TcpHeader) (bytes : List ℕ)
        (to : HardwareAddress)
        → IsItsTurn (at_instant t s.host.inner) s.slots n (Kind.Tcp v)
        → OffersSegment (at_instant t s.host.inner) v ip header bytes
        → CanTransmit (at_instant t s.host.inner) to (packet_of ip (Segment header bytes))
        → Repeats (EgressStep D.moves t) (suc budget) s before s' changed
        → GoesInTurn D.moves (at_instant t s.host.inner) to (packet_of ip (Segment header bytes)) s.device s'.device }
{}

/// Law: such a segment fits the path to its remote, and so one frame, where that carries 80 bytes: an IPv6 header and a SYN with all its options.
pub fn offered_segments_fit_their_path()
    ensures { (i : InnerValue) (v : TcpValue) (ip : IpRepr) (header : TcpHeader) (bytes : List ℕ)
        → OffersSegment i v ip header bytes
        → 80 ≤ mtu_to i (destination_of ip)
        → total_len ip ≤ mtu_to i (destination_of ip) }
{}

/// Law: of two hosts on one medium, where a TCP socket of the one has its turn and offers a segment that can go to a known hardware address, a step of the
/// egress path of the one, in which its device refuses nothing, tells that socket that its segment went; and after it a step of the ingress path of the other, at
/// whose device what went comes next, brings the segment, with the header and the bytes that were offered, to the TCP socket that it is for: the one of its
/// connection, or else the first listener.
pub fn a_segment_arrives<D: Device, E: Device>()
    ensures goes { (t : ℤ) (s s' : State D) (answer : Option Bool) (n : ℕ) (v : TcpValue) (ip : IpRepr) (header : TcpHeader) (bytes : List ℕ)
        (to : HardwareAddress)
        → IsItsTurn (at_instant t s.host.inner) s.slots n (Kind.Tcp v)
        → OffersSegment (at_instant t s.host.inner) v ip header bytes
        → CanTransmit (at_instant t s.host.inner) to (packet_of ip (Segment header bytes))
        → EgressStep D.moves t s answer s'
        → RefusesNothing D.moves s.device s'.device
        → slice_get s'.slots n ≡ Some (unmarked (Kind.Tcp (settled true (asked_by (at_instant t s.host.inner) v)))) }
    ensures comes { (t u : ℤ) (s s' : State D) (r r' : State E) (answer : Option Bool) (n m : ℕ) (v w : TcpValue) (ip : IpRepr) (header : TcpHeader)
        (bytes : List ℕ) (to : HardwareAddress) (meta : Meta)
        → HasWidths (at_instant t s.host.inner)
        → IsItsTurn (at_instant t s.host.inner) s.slots n (Kind.Tcp v)
        → OffersSegment (at_instant t s.host.inner) v ip header bytes
        → CanTransmit (at_instant t s.host.inner) to (packet_of ip (Segment header bytes))
        → EgressStep D.moves t s answer s'
        → RefusesNothing D.moves s.device s'.device
        → Brings D.moves E.moves (at_instant t s.host.inner) to (packet_of ip (Segment header bytes)) s.device s'.device u r.device
        → CanRead (at_instant t s.host.inner) to (reader_of r.host.inner)
        → IsAwaited (at_instant u r.host.inner) r.slots to ip header m meta w
        → IngressStep E.moves u r (Some true) r'
        → HasComeTo (at_instant u r.host.inner) r'.slots ip header bytes m meta w }
{}

/// Law: a segment of a TCP socket whose frame waits comes to the socket of its connection: a poll of the other host, at whose device the frame waits after
/// fewer others than the poll has steps, and which gives leave to its end, brings it to a socket that has its connection as the poll begins and ends,
/// wherever offers and the segments before have led that. The packet can be sent, and went under this identification. So it comes to whatever TCP socket
/// awaits it wherever that poll has come when the frame is next, as a listener does a SYN.
pub fn a_segment_that_waits_comes<E: Device>()
    ensures connected { (gives_tx_token : E → Bool) (frames_at : E → List (List ℕ)) (u : ℤ) (count steps : ℕ) (i : InnerValue) (ident : ℕ) (r r' : State E)
        (changed : Bool) (m : ℕ) (meta : Meta) (v w : TcpValue) (ip : IpRepr) (header : TcpHeader) (bytes : List ℕ) (to : HardwareAddress)
        → IsInboxWhile E.moves gives_tx_token frames_at
        → IsTrue (gives_tx_token r'.device)
        → HasWidths (with_ident i ident)
        → OffersSegment i v ip header bytes
        → CanTransmit i to (packet_of ip (Segment header bytes))
        → IsWellFormed (packet_of ip (Segment header bytes))
        → LiesAmong (frames_at r.device) count (frame_under i ident to (packet_of ip (Segment header bytes)))
        → count ≤ steps
        → CanRead i to (reader_of r.host.inner)
        → IsAwaitedThroughout (at_instant u r.host.inner) r.slots to ip header m meta w
        → Polls E.moves u steps r changed r'
        → HasConnection r'.slots m
        → ComesAmong E.moves u r r' ip header bytes m w }
    ensures awaited { (gives_tx_token : E → Bool) (frames_at : E → List (List ℕ)) (u : ℤ) (count steps : ℕ) (i : InnerValue) (ident : ℕ) (r r' : State E)
        (changed : Bool) (m : ℕ) (v w : TcpValue) (ip : IpRepr) (header : TcpHeader) (bytes : List ℕ) (to : HardwareAddress)
        → IsInboxWhile E.moves gives_tx_token frames_at
        → IsTrue (gives_tx_token r'.device)
        → HasWidths (with_ident i ident)
        → OffersSegment i v ip header bytes
        → CanTransmit i to (packet_of ip (Segment header bytes))
        → IsWellFormed (packet_of ip (Segment header bytes))
        → LiesAmong (frames_at r.device) count (frame_under i ident to (packet_of ip (Segment header bytes)))
        → count ≤ steps
        → IsTcpAt r.slots m w
        → IsAwaitedWhenNext E.moves frames_at u r count i to ip header bytes m
        → Polls E.moves u steps r changed r'
        → ComesAmong E.moves u r r' ip header bytes m w }
{}

/// Law: within two polls it comes to a socket that has its connection as the second poll begins and ends, at a device that gives leave to the end of that
/// poll: one poll of the one host sends the segment, and one poll of the other, at whose device the frames wait in order while it gives leave, after fewer
/// others than the poll has steps, brings it to the socket, wherever offers and the segments before have led that.
pub fn a_segment_arrives_while_there_is_leave<D: Device, E: Device>()
    ensures { (gives_tx_token : E → Bool) (frames_at : E → List (List ℕ)) (t u : ℤ) (budget count steps : ℕ) (s s' : State D) (r r' : State E)
        (changed changed' : Bool) (n m : ℕ) (meta : Meta) (v w : TcpValue) (ip : IpRepr) (header : TcpHeader) (bytes : List ℕ) (to : HardwareAddress)
        → IsInboxWhile E.moves gives_tx_token frames_at
        → IsTrue (gives_tx_token r'.device)
        → HasWidths (at_instant t s.host.inner)
        → IsItsTurn (at_instant t s.host.inner) s.slots n (Kind.Tcp v)
        → OffersSegment (at_instant t s.host.inner) v ip header bytes
        → CanTransmit (at_instant t s.host.inner) to (packet_of ip (Segment header bytes))
        → HasNoFrame D.moves t s.device
        → Polls D.moves t (suc budget) s changed s'
        → RefusesNothing D.moves s.device s'.device
        → BringsAmong D.moves frames_at (at_instant t s.host.inner) to (packet_of ip (Segment header bytes)) s.device s'.device r.device count
        → count ≤ steps
        → CanRead (at_instant t s.host.inner) to (reader_of r.host.inner)
        → IsAwaitedThroughout (at_instant u r.host.inner) r.slots to ip header m meta w
        → Polls E.moves u steps r changed' r'
        → HasConnection r'.slots m
        → ComesAmong E.moves u r r' ip header bytes m w }
{}

/// Law: of two hosts at ports of the simulated link it comes by what each port holds: no frame waits at the one, which counts no refusal in its poll and gives
/// leave to its end; the link brings whatever it sent in that poll; and the other gives leave to the end of its own poll.
pub fn a_segment_arrives_between_ports()
    ensures { (t u : ℤ) (budget count steps : ℕ) (s s' r r' : State PortValue) (changed changed' : Bool) (n m : ℕ) (meta : Meta) (v w : TcpValue)
        (ip : IpRepr) (header : TcpHeader) (bytes : List ℕ) (to : HardwareAddress)
        → HasWidths (at_instant t s.host.inner)
        → IsItsTurn (at_instant t s.host.inner) s.slots n (Kind.Tcp v)
        → OffersSegment (at_instant t s.host.inner) v ip header bytes
        → CanTransmit (at_instant t s.host.inner) to (packet_of ip (Segment header bytes))
        → s.device.link.waiting ≡ []
        → Polls PortMove t (suc budget) s changed s'
        → s'.device.link.refusals ≡ s.device.link.refusals
        → IsTrue (has_tx_token s'.device.link)
        → BringsWhatWent s.device s'.device r.device count
        → count ≤ steps
        → CanRead (at_instant t s.host.inner) to (reader_of r.host.inner)
        → IsAwaitedThroughout (at_instant u r.host.inner) r.slots to ip header m meta w
        → Polls PortMove u steps r changed' r'
        → IsTrue (has_tx_token r'.device.link)
        → HasConnection r'.slots m
        → ComesAmong PortMove u r r' ip header bytes m w }
{}

/// Law: there are two hosts at ports of the simulated link, on a medium of bare packets, that meet all that `a_segment_arrives_between_ports`,
/// `a_segment_that_waits_comes` and `offered_segments_fit_their_path` ask for: between their sockets a connection is open, abc is offered at the one, goes
/// in one step of its poll, and comes in one step of the other's.
pub fn two_hosts_meet_what_a_segment_asks_for()
    ensures widths { HasWidths sender }
    ensures turn { IsItsTurn sender offering.slots 0 (Kind.Tcp writing) }
    ensures offers { OffersSegment sender writing header push text }
    ensures path { 80 ≤ mtu_to sender (destination_of header) }
    ensures goes { CanTransmit sender Hardware.Ip packet }
    ensures bare { offering.device.link.waiting ≡ [] }
    ensures sends { Polls PortMove now 1 offering true sent }
    ensures refuses { sent.device.link.refusals ≡ offering.device.link.refusals }
    ensures leave { IsTrue (has_tx_token sent.device.link) }
    ensures brings { BringsWhatWent offering.device sent.device awaiting.device 1 }
    ensures reads { CanRead sender Hardware.Ip (reader_of awaiting.host.inner) }
    ensures awaits { IsAwaitedThroughout reader awaiting.slots Hardware.Ip header push 0 (record { waiting = None }) (idle B) }
    ensures formed { IsWellFormed packet }
    ensures lies { LiesAmong awaiting.device.link.waiting 1 (frame_under sender sender.ident Hardware.Ip packet) }
    ensures awaits_next { IsAwaitedWhenNext PortMove (λ (p : PortValue). p.link.waiting) now awaiting 1 sender Hardware.Ip header push text 0 }
    ensures hears { Polls PortMove now 1 awaiting true reached }
    ensures their_leave { IsTrue (has_tx_token reached.device.link) }
    ensures connection { HasConnection reached.slots 0 }
    ensures arrives { ComesAmong PortMove now awaiting reached header push text 0 (idle B) }
{}

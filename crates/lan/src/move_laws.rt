//! What one host does, in a poll and alongside it, is a run of moves over packets.
ghost use Rattle.std.specs.Prelude.{◌≡◌, ◌∷◌, ◌++◌, Bool, IfSome, List, Option, Some, slice_get, ℕ};
ghost use Rattle.socket_datagram.specs.Raw as Raws;
ghost use Rattle.socket_datagram.specs.Raw.{RawValue};
ghost use Rattle.lan.specs.Worlds.Link.Made.{CarriesNone, bytes_of};
ghost use Rattle.interface.specs.Ip.{normal};
ghost use Rattle.interface.specs.IpRepr.{IpRepr};
ghost use Rattle.lan.specs.Worlds.AtLink.Arrives.{Answers, Arrived, Brings};
ghost use Rattle.lan.specs.Worlds.AtLink.Delivered.{Slots};
ghost use Rattle.lan.specs.Worlds.AtLink.Processed.{handed_reply};
ghost use Rattle.lan.specs.Worlds.AtLink.Incoming.{IncomingValue, IsContent};
ghost use Rattle.lan.specs.Worlds.AtLink.Inner.{InnerValue};
ghost use Rattle.sockets.specs.Socket.{Offers, offered_by};
ghost use Rattle.sockets.specs.declared.socket.Socket.{Socket};
ghost use Rattle.sim_link.specs.PacketInFrame.{names_tcp_or_udp};
ghost use Rattle.lan.specs.Worlds.Moves.Fit.{AreFit, IsFit};
ghost use Rattle.lan.specs.Worlds.Moves.Follows.{Comes, IsNetOf, IsNoPoll};
ghost use Rattle.lan.specs.Worlds.Moves.Joined.{first_net};
ghost use Rattle.lan.specs.Worlds.Moves.Made.{BringsMade, IsWide};
ghost use Rattle.lan.specs.Worlds.Moves.Protocols.{NamesItsPayload};
ghost use Rattle.lan.specs.Worlds.Moves.Raws.{OfEach, QueuesForeign};
ghost use Rattle.lan.specs.Worlds.AtLink.History.{Entry};
ghost use Rattle.lan.specs.Worlds.AtLink.Kinds.{kind_of, other};
ghost use Rattle.lan.specs.Worlds.AtLink.Moves.{Step, IsRun, run};
ghost use Rattle.lan.specs.Worlds.AtLink.Side.{Side};
ghost use Rattle.lan.specs.Worlds.AtLink.Parties.{Net, party};
ghost use Rattle.lan.specs.Worlds.Events.{AreTyped};
ghost use Rattle.lan.specs.Worlds.ReassembledDatagram.{taken_next};
ghost use Rattle.lan.specs.Worlds.Still.{MovePlainly, StillRun};
ghost use Rattle.lan.specs.Worlds.AtLink.Initial.{IsInitialWorld};
ghost use Rattle.lan.specs.Worlds.AtLink.Runs.{Leads, Starts, WorldRun, unused_both};
ghost use Rattle.lan.specs.Worlds.AtLink.Node.{Nodes, node};
ghost use Rattle.sim_link.specs.Medium.TheVariants as Medium;
ghost use Rattle.sockets.specs.WellFormed.{IsWellFormed};
ghost use Rattle.sockets.specs.Context.{ContextValue};
ghost use Rattle.sockets.specs.Packet.{PacketValue, PayloadValue};
ghost use Rattle.sockets.specs.Offer as Answer;
ghost use Rattle.sockets.specs.declared.socket.Socket.TheVariants as Is;

/// Law: each event that is taken, but for a poll, is a move: a call is one of the socket at its slot, and any other event leaves every
/// socket as it was.
#[tactic(auto, using(crate::proofs::Worlds::Moves::Worlds::rest_comes))]
pub fn events_are_moves()
    ensures { (net : Net) (old new : Nodes) (past : List Entry) (e : Entry)
        → IsNetOf net old past
        → IsNoPoll (kind_of e.event)
        → Leads past old e new
        → Comes (names_tcp_or_udp Medium.Ip) net new (e ∷ past) }
{}

/// Law: wherever events led two new hosts, moves over packets led their sockets there; and each segment and each datagram that a frame
/// which waits for a host brings when the host takes it next, whole or reassembled of fragments, the other host had made: a TCP segment field by
/// field, between the addresses of its packet, with these bytes, and with the header that a reader has of the one that was written, its
/// window and its options with it.
#[tactic(auto, using(crate::proofs::Worlds::Whole::worlds_made))]
pub fn what_a_frame_brings_was_made_whole()
    ensures { (starts : Starts) (history : List Entry) (hosts : Nodes)
        → IsInitialWorld starts
        → AreTyped history
        → WorldRun history (unused_both starts) hosts
        → (steps : List Step) × IsRun (names_tcp_or_udp Medium.Ip) (first_net starts) steps
        × IsNetOf (run (first_net starts) steps) hosts history
        × ((side : Side) (slot : ℕ) (frame : List ℕ) (content : Option IncomingValue)
        → slice_get (node hosts side).link.waiting slot ≡ Some frame
        → IsContent (node hosts side).host.inner.hardware (node hosts side).host.inner.checksums frame content
        → BringsMade (party (run (first_net starts) steps) (other side)) (node hosts side).host.inner.checksums
        (taken_next (node hosts side) content)) }
{}

/// Law: wherever two hosts came from a new start, no raw socket of theirs has a packet of TCP or UDP in its queue, nor a fragment of an
/// IPv6 datagram. A packet that such a socket offers is neither to whoever reads it, after extension headers either.
pub fn raw_sockets_send_no_tcp_or_udp()
    ensures queues { (starts : Starts) (history : List Entry) (hosts : Nodes) (side : Side)
        → IsInitialWorld starts
        → WorldRun history (unused_both starts) hosts
        → OfEach QueuesForeign (node hosts side).slots }
    ensures offers { (cx : ContextValue) (v v' : RawValue) (answer : Answer.Offer) (p : PacketValue)
        → QueuesForeign (Is.Raw v)
        → Raws.Offers cx v answer v'
        → v'.offered ≡ Some p
        → CarriesNone (normal p.header) (bytes_of p) }
{}

/// Law: the header of each packet that a socket offers, and of each that a host answers, names what the packet carries: TCP, UDP, or the
/// control messages of its family.
pub fn packets_name_what_they_carry()
    ensures offered { (cx : ContextValue) (s s' : Socket) (answer : Answer.Offer) (p : PacketValue)
        → Offers cx s answer s'
        → offered_by s' ≡ Some p
        → NamesItsPayload p }
    ensures answered { (i : InnerValue) (slots : Slots) (ip : IpRepr) (payload : List ℕ) (taken : Bool) (carried : Option PayloadValue)
        → IfSome (handed_reply i slots ip payload taken carried) NamesItsPayload }
{}

/// Law: wherever two hosts came from a new start, each of their sockets is fit to send: no raw packet that it queues is of TCP or UDP, no
/// datagram that it queues goes to port 0, and no end of its connection has that port.
pub fn sockets_stay_fit()
    ensures { (starts : Starts) (history : List Entry) (hosts : Nodes)
        → IsInitialWorld starts
        → WorldRun history (unused_both starts) hosts
        → AreFit hosts }
{}

/// Law: what a fit socket offers, and what answers a frame, another host can read, since a poll sends well-formed packets alone: the header
/// names what is carried, and each field is a number of its width.
pub fn packets_can_be_read()
    ensures offered { (cx : ContextValue) (s s' : Socket) (answer : Answer.Offer) (p : PacketValue)
        → IsFit s
        → Offers cx s answer s'
        → offered_by s' ≡ Some p
        → IsWellFormed p
        → IsWide p }
    ensures answered { (i : InnerValue) (slots : Slots) (content : Option IncomingValue) (a : Arrived) (p : PacketValue)
        → Brings i slots content a
        → a.reply ≡ Some (Answers p)
        → IsWellFormed p
        → IsWide p }
{}

/// Law: where both hosts stay as they showed themselves to their sockets at first, plain moves led their sockets to where they were before some last
/// events, and on to where they are: an offer leaves from its own address, a segment comes whole, and no host makes a reset itself. Each
/// move shows the sockets of any two slots their hosts, whose clocks never go back.
#[tactic(auto, using(crate::proofs::Worlds::StillRuns::still_hosts_move_plainly))]
pub fn still_hosts_move_plainly()
    ensures { (starts : Starts) (past more : List Entry) (hosts : Nodes)
        → IsInitialWorld starts
        → AreTyped (more ++ past)
        → StillRun starts (more ++ past) hosts
        → (between : Nodes) × StillRun starts past between × MovePlainly starts past between (more ++ past) hosts }
{}

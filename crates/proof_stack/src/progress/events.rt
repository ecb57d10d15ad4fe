//! The events of a world are moves of its hosts.

ghost use Rattle.std.specs.Prelude.{◌≡◌, ◌∷◌, ◌++◌, ℕ, ℤ, pos, ◌+ℤ◌, ◌≤ℤ◌, Bool, true, false, IsTrue, List, Some};
ghost use Rattle.wire_ip.specs.declared.ip.repr.IpRepr.{IpRepr};
ghost use Rattle.ip_wire.specs.HardwareAddress.{HardwareAddress};
ghost use Rattle.ip_wire.specs.IpAddress.{IpAddress};
ghost use Rattle.ip_wire.specs.TcpHeader.{TcpHeader};
ghost use Rattle.tcp_block.specs.Offers.{offer_of, offered_packet};
ghost use Rattle.tcp_block.specs.Value.{TcpValue};
ghost use Rattle.tcp_liveness.specs.Arrivals.{is_synchronized};
ghost use Rattle.iface_egress.specs.Plan.{never_leaves};
ghost use Rattle.iface_ingress.specs.Context.{ContextValue};
ghost use Rattle.iface_ingress.specs.Packet.{Segment, packet_of};
ghost use Rattle.iface_ingress.specs.WellFormed.{IsWellFormed};
ghost use Rattle.interface.specs.TransmittedFrame.{CanRead, HasWidths};
ghost use Rattle.iface_tables.specs.Inner.{InnerValue};
ghost use Rattle.lan.specs.declared.at_link.history.event.Side.{Side};
ghost use Rattle.lan.specs.declared.at_link.history.event.Side.TheVariants.{A, B};
ghost use Rattle.lan.specs.Worlds.AtLink.Initial.{IsInitialWorld};
ghost use Rattle.lan.specs.Worlds.AtLink.Happening.{Happening};
ghost use Rattle.lan.specs.Worlds.AtLink.History.{Entry};
ghost use Rattle.lan.specs.Worlds.AtLink.Kinds.{kind_of};
ghost use Rattle.lan.specs.Worlds.AtLink.Kinds.Act.{Polls};
ghost use Rattle.lan.specs.Worlds.AtLink.Kinds.Kind.{OfHost};
ghost use Rattle.lan.specs.Worlds.AtLink.Moves.{IsRun, Step, run};
ghost use Rattle.lan.specs.Worlds.AtLink.Moves.Move.{Offers};
ghost use Rattle.lan.specs.Worlds.AtLink.Paired.{AreNew, HaveKeys, NewSocket, Seat};
ghost use Rattle.lan.specs.Worlds.AtLink.Parties.{Net};
ghost use Rattle.lan.specs.Worlds.AtLink.PeerSides.{ArePartners};
ghost use Rattle.lan.specs.Worlds.AtLink.Runs.{Leads, Starts};
ghost use Rattle.lan.specs.Worlds.AtLink.Node.{Nodes, node};
ghost use Rattle.lan.specs.Worlds.Events.{AreTyped};
ghost use Rattle.lan.specs.Worlds.Moves.Follows.{IsNetOf};
ghost use Rattle.lan.specs.Worlds.Moves.Joined.{first_net};
ghost use Rattle.lan.specs.Worlds.Still.{IsStill, StillRun, seats_of};
ghost use Rattle.sim_link.specs.PacketInFrame.{names_tcp_or_udp};
ghost use Rattle.sim_link.specs.Medium.TheVariants as Medium;
ghost use Rattle.sim_link.specs.Port.{has_tx_token};
ghost use Rattle.proof_stack.specs.Progress.ByEvents.{ProceedByEvents};
ghost use Rattle.proof_stack.specs.Progress.Delivered.{reader_of};
ghost use Rattle.proof_stack.specs.Progress.Events.{HappensBy, MoveBy, MoveByEvents, clock_in};
ghost use Rattle.proof_stack.specs.Progress.TransmittedSegment.{GoesInFrame};
ghost use Rattle.proof_stack.specs.Progress.Leave.{LiesAmong};
ghost use Rattle.proof_stack.specs.Progress.Moving.{AreAsked, AreAtInstants, AreLetGo, IsReadInTime};
ghost use Rattle.proof_stack.specs.Progress.OneClock.{KeepOneClock, timed};
ghost use Rattle.proof_stack.specs.Progress.PeerSides.{HoldText};
ghost use Rattle.proof_stack.specs.Progress.Patience.{ArePatient};
ghost use Rattle.proof_stack.specs.Progress.Queued.{frame_under, with_ident};
ghost use Rattle.proof_stack.specs.Progress.Segments.{CanTransmit, OffersSegment};
ghost use Rattle.proof_stack.specs.Progress.Serving.{AreServed, GiveTxToken, IsAtHost, IsIdle, IsQuietPoll, IsReadOften, WaitsForNone, with_rest};
ghost use Rattle.proof_stack.specs.Progress.Takings.{ComesBy, IsForHost, IsOfConnection};

use super::inboxes::ports_refuse_nothing;
use super::peer_sides::{moves_proceed, peer_sides_are_reached, peer_sides_proceed};
use super::reach::what_stays_in_reach_is_linked;
use super::received::{
    what_links_hand_over_arrives_in_time, what_links_hand_over_is_heard,
    without_timestamps_nothing_is_old,
};

/// Law: in a world whose hosts stay as they showed themselves to their sockets at first, each event is plain moves of its host: those of a poll
/// show its instant, that of a call what the clock of its host shows, and no other event moves a socket. So the moves of a history are those of its
/// events, one after the other.
pub fn events_are_plain_moves()
    ensures { (starts : Starts) (past more : List Entry) (hosts : Nodes) → IsInitialWorld starts → AreTyped (more ++ past)
        → (still : StillRun starts (more ++ past) hosts)
        → (between : Nodes) × StillRun starts past between × MoveByEvents starts past between more hosts still }
{}

/// Law: where the events keep one clock, their moves are at instants of it.
pub fn moves_of_events_keep_one_clock()
    ensures { (starts : Starts) (net : Net) (past more : List Entry) (hosts : Nodes) (moves : List (ℤ × Happening)) (seats : Side → Seat)
        (clocks : Side → ℤ) (still : StillRun starts (more ++ past) hosts) → MoveBy starts net past more hosts still (timed moves)
        → KeepOneClock starts (λ side. (seats side).slot) past more → AreAtInstants seats clocks (clock_in past) moves }
{}

/// Law: where hosts are polled when their sockets want to be asked, until these are at rest, the moves of the events ask the sockets in time.
pub fn sockets_that_are_served_are_asked()
    ensures { (starts : Starts) (net : Net) (past more : List Entry) (hosts : Nodes) (still : StillRun starts (more ++ past) hosts)
        (slots : Side → ℕ) (moves : List (ℤ × Happening)) (wait : ℕ) (rested : Side → ℤ)
        → MoveBy starts net past more hosts still (timed moves) → KeepOneClock starts slots past more
        → AreServed starts slots wait past more hosts still rested → AreAsked (seats_of starts slots) wait (clock_in past) net moves }
{}

/// Law: where a user reads often, the moves of the events read in time.
pub fn users_that_read_often_read_in_time()
    ensures { (starts : Starts) (net : Net) (past more : List Entry) (hosts : Nodes) (still : StillRun starts (more ++ past) hosts)
        (seats : Side → Seat) (moves : List (ℤ × Happening)) (side : Side) (read : ℕ) (last : ℤ)
        → MoveBy starts net past more hosts still (timed moves) → KeepOneClock starts (λ s. (seats s).slot) past more
        → IsReadOften (seats side).slot read side past more last → IsReadInTime seats read (clock_in past) net side moves }
{}

/// Law: over a medium that has no hardware addresses, where each link gives leave to send after each poll of its host, whatever two TCP sockets offer in
/// the moves of the events goes: no neighbour is asked for, and no segment is too long for a frame. Links give leave while they have room.
pub fn offers_go_while_links_give_leave()
    ensures { (starts : Starts) (net : Net) (past more : List Entry) (hosts : Nodes) (still : StillRun starts (more ++ past) hosts)
        (seats : Side → Seat) (moves : List (ℤ × Happening)) → IsInitialWorld starts → starts.a.capabilities.medium ≡ Medium.Ip
        → MoveBy starts net past more hosts still (timed moves) → GiveTxToken starts past more hosts still → AreLetGo seats moves }
{}

/// Law: over such a medium, where the link of a host gives leave to send after its poll, each segment that a TCP socket offers in a move of the poll, and
/// that may leave the host, goes in a frame: it is one of those that the link took in the poll. Its host was so when the socket offered it, and its packet can
/// be sent.
pub fn what_goes_leaves_in_a_frame()
    ensures { (starts : Starts) (past : List Entry) (e : Entry) (hosts : Nodes) (net : Net) (before following : List Step) (side : Side) (t : ℤ)
        (budget slot : ℕ) (cx : ContextValue) (v : TcpValue) (from : IpAddress) (sent : Bool) (ip : IpRepr) (header : TcpHeader) (bytes : List ℕ)
        → IsInitialWorld starts
        → starts.a.capabilities.medium ≡ Medium.Ip
        → AreTyped past
        → (still : StillRun starts (e ∷ past) hosts)
        → HappensBy starts past e still.0 hosts net (before ++ record { side = side; move = Offers slot cx v from sent } ∷ following)
        → kind_of e.event ≡ OfHost side (Polls t budget)
        → IsTrue (has_tx_token (node hosts side).link)
        → offered_packet (offer_of cx v).socket ≡ Some (packet_of ip (Segment header bytes))
        → never_leaves (node still.0 side).host.inner ip ≡ false
        → GoesInFrame (node still.0 side).host.inner (node still.0 side).link (node hosts side).link v ip header bytes }
{}

/// Law: where a frame waits for a host, after fewer others than its poll has steps, and its link gives leave to send after that poll, the segment in the
/// frame comes by one of the moves of that poll to the TCP socket of its connection, which has it before and after the poll. The packet can be sent by its
/// host, and went under this identification; this host can read it, and takes it in.
pub fn a_segment_that_waits_comes_by_a_move()
    ensures { (starts : Starts) (so_far steps : List Step) (past : List Entry) (old new : Nodes) (e : Entry) (side : Side) (t : ℤ)
        (budget slot : ℕ) (i : InnerValue) (ident : ℕ) (v : TcpValue) (ip : IpRepr) (header : TcpHeader) (bytes : List ℕ) (to : HardwareAddress)
        → IsInitialWorld starts
        → IsRun (names_tcp_or_udp Medium.Ip) (first_net starts) so_far
        → IsNetOf (run (first_net starts) so_far) old past
        → HappensBy starts past e old new (run (first_net starts) so_far) steps
        → Leads past old e new
        → kind_of e.event ≡ OfHost side (Polls t budget)
        → IsTrue (has_tx_token (node new side).link)
        → HasWidths (with_ident i ident)
        → OffersSegment i v ip header bytes
        → CanTransmit i to (packet_of ip (Segment header bytes))
        → IsWellFormed (packet_of ip (Segment header bytes))
        → LiesAmong (node old side).link.waiting budget (frame_under i ident to (packet_of ip (Segment header bytes)))
        → CanRead i to (reader_of (node old side).host.inner)
        → IsForHost (node old side).host.inner to ip
        → IsAtHost slot (node old side) (IsOfConnection ip header)
        → IsAtHost slot (node new side) (λ w. is_synchronized w.tcb.state ≡ true)
        → ComesBy side slot t ip header bytes steps }
{}

/// Law: after a poll in which nothing happens any more each TCP socket of its host is at rest that waits for no neighbor, where no socket has a user
/// timeout of 0.
pub fn sockets_rest_following_a_quiet_poll()
    ensures { (first : InnerValue) (past : List Entry) (old new : Nodes) (e : Entry) (side : Side) (t : ℤ) (budget slot : ℕ)
        → Leads past old e new → kind_of e.event ≡ OfHost side (Polls t budget)
        → IsQuietPoll budget e.answer (node old side) (node new side) → ArePatient (node old side).slots
        → IsStill first (node new side).host.inner → WaitsForNone slot (node new side)
        → IsIdle t slot (node new side) }
{
    ports_refuse_nothing();
}

/// Law: such a poll, no later than `wait` after each socket was seen at rest, goes on in time what was in time so far. So whoever polls both hosts in
/// turn, often enough and until nothing happens any more, serves their sockets.
pub fn quiet_polls_proceed_in_time()
    ensures { (starts : Starts) (slots : Side → ℕ) (wait : ℕ) (past more : List Entry) (e : Entry) (hosts : Nodes)
        (still : StillRun starts (e ∷ more ++ past) hosts) (rested : Side → ℤ) (side : Side) (t : ℤ) (budget : ℕ)
        → KeepOneClock starts slots past more → AreServed starts slots wait past more still.0 still.1 rested
        → kind_of e.event ≡ OfHost side (Polls t budget) → clock_in (more ++ past) ≤ℤ t
        → ((s : Side) → t ≤ℤ (rested s +ℤ pos wait)) → IsQuietPoll budget e.answer (node still.0 side) (node hosts side)
        → ArePatient (node still.0 side).slots → WaitsForNone (slots side) (node hosts side)
        → KeepOneClock starts slots past (e ∷ more) × AreServed starts slots wait past (e ∷ more) hosts still (with_rest rested side t) }
{
    sockets_rest_following_a_quiet_poll();
}

/// Law: in such a world two TCP sockets that were peers before some last events go on by the moves of those events. So one can ask of the events
/// themselves whether they come in time: of hosts, that they are polled in time, of links, that they give leave to send, and of users, that they read. Of
/// the moves nothing else is asked than that each segment is heard in time, or one that equals it, or only comes, wherever it lies, where both users read
/// and close no empty stream; and, where hosts ask for hardware addresses, that what the sockets offer goes. Over links that bring what is sent in time
/// each comes: then no more is asked of the moves than that no segment which comes is older than TS.Recent says; and where no timestamps were agreed on
/// nothing is. Peers that are open, and stay, are connected over such links where their hosts reach each other.
pub fn peer_sides_proceed_by_their_events()
    ensures { (starts : Starts) (past more : List Entry) (hosts : Nodes) (slots : Side → ℕ) (news : Side → NewSocket)
        → IsInitialWorld starts → AreTyped (more ++ past) → (still : StillRun starts (more ++ past) hosts)
        → AreNew (seats_of starts slots) news (first_net starts) → HaveKeys (seats_of starts slots) → HoldText (seats_of starts slots)
        → ArePartners past A (slots A) (slots B)
        → (between : Nodes) × ProceedByEvents starts past between more hosts still slots }
{
    peer_sides_are_reached();
    peer_sides_proceed();
    moves_proceed();
    events_are_plain_moves();
    moves_of_events_keep_one_clock();
    sockets_that_are_served_are_asked();
    users_that_read_often_read_in_time();
    offers_go_while_links_give_leave();
    what_links_hand_over_arrives_in_time();
    what_links_hand_over_is_heard();
    without_timestamps_nothing_is_old();
    what_stays_in_reach_is_linked();
}

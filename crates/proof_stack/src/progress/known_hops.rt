//! Hosts that know each other's hardware address throughout their polls: what their sockets offer goes, and comes in time.

ghost use Rattle.std.specs.Prelude.{◌≡◌, ◌∷◌, ◌++◌, ℕ, ℤ, Bool, false, IsTrue, List, Some};
ghost use Rattle.wire_ip.specs.Ip.{destination_of};
ghost use Rattle.wire_ip.specs.declared.ip.repr.IpRepr.{IpRepr};
ghost use Rattle.ip_wire.specs.HardwareAddress.{HardwareAddress};
ghost use Rattle.ip_wire.specs.IpAddress.{IpAddress};
ghost use Rattle.ip_wire.specs.TcpHeader.{TcpHeader};
ghost use Rattle.tcp_state.specs.declared.endpoints.FourTuple.{FourTuple};
ghost use Rattle.tcp_block.specs.Offers.{offer_of, offered_packet};
ghost use Rattle.tcp_block.specs.Value.{TcpValue};
ghost use Rattle.iface_egress.specs.Plan.{never_leaves};
ghost use Rattle.iface_ingress.specs.Context.{ContextValue};
ghost use Rattle.iface_ingress.specs.Packet.{Segment, packet_of};
ghost use Rattle.iface_ingress.specs.WellFormed.{IsWellFormed};
ghost use Rattle.interface.specs.TransmittedFrame.{CanRead, HasWidths};
ghost use Rattle.iface_tables.specs.Inner.{InnerValue};
ghost use Rattle.lan.specs.declared.at_link.history.event.Side.{Side};
ghost use Rattle.lan.specs.declared.at_link.history.event.Side.TheVariants.{A, B};
ghost use Rattle.lan.specs.Worlds.AtLink.Initial.{IsInitialWorld};
ghost use Rattle.lan.specs.Worlds.AtLink.Happening.{Happening};
ghost use Rattle.lan.specs.Worlds.AtLink.History.{Entry};
ghost use Rattle.lan.specs.Worlds.AtLink.Kinds.{kind_of};
ghost use Rattle.lan.specs.Worlds.AtLink.Kinds.Act.{Polls};
ghost use Rattle.lan.specs.Worlds.AtLink.Kinds.Kind.{OfHost};
ghost use Rattle.lan.specs.Worlds.AtLink.Moves.{IsRun, Step, run};
ghost use Rattle.lan.specs.Worlds.AtLink.Moves.Move.{Offers};
ghost use Rattle.lan.specs.Worlds.AtLink.Parties.{Net};
ghost use Rattle.lan.specs.Worlds.AtLink.PeerSides.{ArePartners};
ghost use Rattle.lan.specs.Worlds.AtLink.Runs.{Starts};
ghost use Rattle.lan.specs.Worlds.AtLink.Node.{NodeValue, Nodes, node};
ghost use Rattle.lan.specs.Worlds.Events.{AreTyped};
ghost use Rattle.lan.specs.Worlds.Moves.HopLimit.{FrameTellsAtMost};
ghost use Rattle.lan.specs.Worlds.Moves.Joined.{first_net};
ghost use Rattle.lan.specs.Worlds.Still.{StillRun, seats_of};
ghost use Rattle.sim_link.specs.PacketInFrame.{names_tcp_or_udp};
ghost use Rattle.sim_link.specs.Medium.TheVariants as Medium;
ghost use Rattle.sim_link.specs.Port.{has_tx_token};
ghost use Rattle.proof_stack.specs.Progress.Acquainted.{AreAcquainted};
ghost use Rattle.proof_stack.specs.Progress.Delivered.{reader_of};
ghost use Rattle.proof_stack.specs.Progress.Ends.{AreConnected};
ghost use Rattle.proof_stack.specs.Progress.Events.{HappensBy, MoveBy};
ghost use Rattle.proof_stack.specs.Progress.TransmittedSegment.{GoesInFrame};
ghost use Rattle.proof_stack.specs.Progress.Hearing.{AreSo};
ghost use Rattle.proof_stack.specs.Progress.KnownHopLimit.{IsMarkedForKnown, IsUnmarkedAt, KnowEachOther, KnowsThroughout};
ghost use Rattle.proof_stack.specs.Progress.Linked.{AreLinked};
ghost use Rattle.proof_stack.specs.Progress.Moving.{AreHeard, AreLetGo, ComeInitial, IsInitialFor, IsHeardBy};
ghost use Rattle.proof_stack.specs.Progress.OneClock.{timed};
ghost use Rattle.proof_stack.specs.Progress.Queued.{frame_under, with_ident};
ghost use Rattle.proof_stack.specs.Progress.Reach.{hosts_before};
ghost use Rattle.proof_stack.specs.Progress.Segments.{CanTransmit, OffersSegment};
ghost use Rattle.proof_stack.specs.Progress.Serving.{GiveTxToken, WaitsForNone};

/// Law: on any medium, where in each poll a host knows throughout that the frames for the remote address of its connection go to the other host, and its link
/// gives leave to send after it, whatever two connected TCP sockets offer in the moves of the events goes.
pub fn offers_go_where_hosts_know_each_other()
    ensures { (starts : Starts) (net : Net) (past more : List Entry) (hosts : Nodes) (still : StillRun starts (more ++ past) hosts)
        (slots : Side → ℕ) (own : Side → HardwareAddress) (pairs : Side → FourTuple) (moves : List (ℤ × Happening))
        → MoveBy starts net past more hosts still (timed moves) → GiveTxToken starts past more hosts still
        → AreConnected starts slots pairs past more hosts still → KnowEachOther own pairs starts past more hosts still
        → AreLetGo (seats_of starts slots) moves }
{}

/// Law: where the host knows throughout a poll to which hardware address the frames for a destination go, and its link gives leave to send after the poll,
/// each segment that a TCP socket offers in a move of the poll for that destination, and that may leave the host, goes in a frame to that hardware address.
pub fn what_goes_to_a_known_hop_leaves_in_a_frame()
    ensures { (starts : Starts) (past : List Entry) (e : Entry) (hosts : Nodes) (net : Net) (before following : List Step) (side : Side) (t : ℤ)
        (budget slot : ℕ) (cx : ContextValue) (v : TcpValue) (from : IpAddress) (sent : Bool) (ip : IpRepr) (header : TcpHeader) (bytes : List ℕ)
        (hop : HardwareAddress)
        → IsInitialWorld starts
        → AreTyped past
        → (still : StillRun starts (e ∷ past) hosts)
        → HappensBy starts past e still.0 hosts net (before ++ record { side = side; move = Offers slot cx v from sent } ∷ following)
        → kind_of e.event ≡ OfHost side (Polls t budget)
        → IsTrue (has_tx_token (node hosts side).link)
        → KnowsThroughout t (node still.0 side) (node hosts side) (destination_of ip) hop
        → offered_packet (offer_of cx v).socket ≡ Some (packet_of ip (Segment header bytes))
        → never_leaves (node still.0 side).host.inner ip ≡ false
        → (frame : GoesInFrame (node still.0 side).host.inner (node still.0 side).link (node hosts side).link v ip header bytes)
        × (frame.to ≡ hop) }
{}

/// Law: on a medium that has no hardware addresses, linked hosts know each other throughout.
pub fn linked_hosts_know_each_other()
    ensures { (starts : Starts) (slots : Side → ℕ) (delay : ℕ) (past more : List Entry) (hosts : Nodes) (still : StillRun starts (more ++ past) hosts)
        → IsInitialWorld starts → AreTyped (more ++ past) → AreLinked starts slots delay past more hosts still
        → AreAcquainted starts slots delay past more hosts still }
{}

/// Law: on any medium, between hosts that know each other throughout, where each frame that a host sends is taken in time by a poll of the other, and each link
/// gives leave to send after each poll of its host, each segment that one end of a connection sends in the moves of the events comes to the other end in
/// time: what its socket offers, and what it answers. It is no older than TS.Recent says where no segment that comes is.
pub fn what_goes_between_known_hosts_arrives_in_time()
    ensures { (starts : Starts) (so_far : List Step) (past more : List Entry) (hosts : Nodes) (still : StillRun starts (more ++ past) hosts)
        (slots : Side → ℕ) (moves : List (ℤ × Happening)) (delay : ℕ)
        → IsInitialWorld starts
        → AreTyped (more ++ past)
        → IsRun (names_tcp_or_udp Medium.Ip) (first_net starts) so_far
        → ArePartners past A (slots A) (slots B)
        → MoveBy starts (run (first_net starts) so_far) past more hosts still (timed moves)
        → AreAcquainted starts slots delay past more hosts still
        → AreSo IsInitialFor (seats_of starts slots) moves
        → ComeInitial (seats_of starts slots) delay (run (first_net starts) so_far) moves }
{}

/// Law: so each is heard in time where each that comes is heard.
pub fn what_goes_between_known_hosts_is_heard()
    ensures { (starts : Starts) (so_far : List Step) (past more : List Entry) (hosts : Nodes) (still : StillRun starts (more ++ past) hosts)
        (slots : Side → ℕ) (moves : List (ℤ × Happening)) (delay : ℕ)
        → IsInitialWorld starts
        → AreTyped (more ++ past)
        → IsRun (names_tcp_or_udp Medium.Ip) (first_net starts) so_far
        → ArePartners past A (slots A) (slots B)
        → MoveBy starts (run (first_net starts) so_far) past more hosts still (timed moves)
        → AreAcquainted starts slots delay past more hosts still
        → AreSo IsHeardBy (seats_of starts slots) moves
        → AreHeard (seats_of starts slots) delay (run (first_net starts) so_far) moves }
{}

/// Law: a socket waits for no neighbor where its host knows the one that it is marked for, if it is.
pub fn nobody_waits_for_a_known_neighbor()
    ensures { (s : NodeValue) (slot : ℕ) → IsMarkedForKnown slot s → WaitsForNone slot s }
{}

/// Law: a frame of a segment that a TCP socket offers tells nothing of hardware addresses, whatever it is padded with.
pub fn segments_tell_of_no_neighbor()
    ensures { (i j : InnerValue) (ident : ℕ) (v : TcpValue) (ip : IpRepr) (header : TcpHeader) (bytes : List ℕ) (to : HardwareAddress)
        (padding : List ℕ) (hop : IpAddress) (told : HardwareAddress)
        → HasWidths (with_ident i ident)
        → OffersSegment i v ip header bytes
        → CanTransmit i to (packet_of ip (Segment header bytes))
        → IsWellFormed (packet_of ip (Segment header bytes))
        → CanRead i to (reader_of j)
        → FrameTellsAtMost j hop told (frame_under i ident to (packet_of ip (Segment header bytes)) ++ padding) }
{}

/// Law: where hosts know each other throughout, a connected socket that wasn't marked before is marked for no neighbor after any later event, and so waits for
/// none.
pub fn nobody_waits_where_hosts_know_each_other()
    ensures { (starts : Starts) (past more : List Entry) (hosts : Nodes) (still : StillRun starts (more ++ past) hosts) (slots : Side → ℕ)
        (own : Side → HardwareAddress) (pairs : Side → FourTuple)
        → AreConnected starts slots pairs past more hosts still
        → KnowEachOther own pairs starts past more hosts still
        → ((side : Side) → IsUnmarkedAt (slots side) (node (hosts_before starts past more hosts still) side))
        → (side : Side)
        → WaitsForNone (slots side) (node hosts side) }
{}

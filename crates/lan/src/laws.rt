//! Each event keeps the link between the hosts, so worlds are safe.
ghost use Rattle.std.specs.Prelude.{◌≡◌, ℕ, List, None};
ghost use Rattle.sockets.specs.Packet.{PacketValue};
ghost use Rattle.lan.specs.Worlds.AtLink.Port.{PortValue, PortMove};
ghost use Rattle.lan.specs.Worlds.AtLink.History.{Entry};
ghost use Rattle.lan.specs.Worlds.Hosts.Damage.{DamageIsHarmless, IsHarmlessFrom};
ghost use Rattle.lan.specs.Worlds.AtLink.Kinds.{Origin, Setting, other, kind_of};
ghost use Rattle.lan.specs.Worlds.AtLink.Kinds.LinkAct.{Hands};
ghost use Rattle.lan.specs.Worlds.AtLink.Tables.{first_refusal};
ghost use Rattle.lan.specs.Worlds.AtLink.Refusals.{link_tests};
ghost use Rattle.lan.specs.Worlds.AtLink.Answer.{Answer};
ghost use Rattle.lan.specs.Worlds.AtLink.Side.{Side};
ghost use Rattle.lan.specs.Worlds.AtLink.Side.TheVariants.{A, B};
ghost use Rattle.lan.specs.Worlds.AtLink.Parties.{Party, Net, party};
ghost use Rattle.lan.specs.Worlds.AtLink.Origins.{medium_of};
ghost use Rattle.lan.specs.Worlds.AtLink.Runs.{Leads, Starts, WorldRun, start, unused_both};
ghost use Rattle.lan.specs.Worlds.AtLink.Sets.{Configures};
ghost use Rattle.lan.specs.Worlds.AtLink.Node.{Nodes, node};
ghost use Rattle.lan.specs.Worlds.Moves.Link.{IsLink};
ghost use Rattle.lan.specs.Worlds.Moves.Made.{Grows};
ghost use Rattle.lan.specs.Worlds.Events.{HasRange, HasWord, IsTyped, AreTyped};
ghost use Rattle.lan.specs.Worlds.Joins.{AreJoined, IsPlain};
ghost use Rattle.lan.specs.Worlds.AtLink.PacketsSafe.{IsSafe};
ghost use Rattle.lan.specs.Worlds.AtLink.Initial.{IsInitialWorld};
ghost use Rattle.lan.specs.Worlds.AtLink.Safe.{first_port, net_of};
ghost use Rattle.lan.specs.Worlds.Linked.{IsOther, IsLinked};
ghost use Rattle.lan.specs.Worlds.ReassembledDatagram.{ReassembledWasMade};
ghost use Rattle.lan.specs.Worlds.FragmentFacts.{ReassembledWasSent, by_side};
ghost use Rattle.lan.specs.Worlds.Hosts.HostRuns.{IsHostRun};
ghost use Rattle.lan.specs.Worlds.Hosts.Wire.{FramesAreApart};
ghost use Rattle.lan.specs.Worlds.Link.Frames.{Outgoing};

/// Law: while a host polls at its port, each thing that the poll does keeps what is said of its frames and of those that wait, and each
/// frame that it takes brings only what the other host made, of which fewer than 65,536 are packets that have a number. A packet's egress path counts one
/// more at most, and each that is counted has its first frame.
pub fn polls_take_what_was_made()
    ensures { (q : Party) (others base : List Outgoing) (before : List (List ℕ)) (first start next : ℕ)
        → IsOther q start next others
        → IsLink PortMove q (λ n s p. IsLinked q others base first before n s p) }
{}

/// Law: what is said of both hosts and their link is kept by each event that isn't a poll: a call of an application, a setting, room, the
/// question when to poll, a frame that the link hands over (padded, damaged, or noise), and a cut. It stays where more was made.
pub fn events_keep_the_link()
    ensures plain { (firsts most : Side → ℕ) (old new : Nodes) (net : Net) (past : List Entry) (e : Entry)
        → AreJoined firsts most old net
        → IsPlain (kind_of e.event)
        → IsTyped (kind_of e.event)
        → Leads past old e new
        → AreJoined firsts most new net }
    ensures setting { (firsts most : Side → ℕ) (old new : Nodes) (net : Net) (side : Side) (setting : Setting) (answer : Answer)
        → AreJoined firsts most old net
        → HasRange setting
        → Configures (node old side) setting answer (node new side)
        → node new (other side) ≡ node old (other side)
        → AreJoined firsts most new net }
    ensures grows { (firsts most : Side → ℕ) (hosts : Nodes) (net next : Net)
        → AreJoined firsts most hosts net
        → ((side : Side) → Grows (party net side) (party next side))
        → AreJoined firsts most hosts next }
{}

/// Law: a damaged frame that the link hands over, where it isn't refused, does no harm to whichever host of the medium takes it, whenever
/// that is.
pub fn damage_does_no_harm()
    ensures { (firsts most : Side → ℕ) (hosts : Nodes) (net : Net) (origin : Origin)
        → AreJoined firsts most hosts net
        → HasWord origin
        → first_refusal (link_tests hosts (Hands origin)) ≡ None
        → IsHarmlessFrom hosts origin }
{}

/// Law, the headline: wherever events led two new hosts at a link that may lose, repeat, reorder, pad, damage and cut frames, and add
/// some, their sockets are safe. What a socket took in begins what its peer wrote, only bytes that were taken in are freed, a socket
/// without a peer has nothing, the end of a stream means closed and complete, and each datagram read was accepted with these bytes
/// and ports.
pub fn worlds_are_safe()
    ensures { (starts : Starts) (history : List Entry) (hosts : Nodes)
        → IsInitialWorld starts
        → AreTyped history
        → WorldRun history (unused_both starts) hosts
        → IsSafe (first_port starts) (net_of (record { hosts = hosts; starts = starts; history = history })) }
{}

/// Law: wherever events led two new hosts, whatever TCP or UDP datagram a host reassembles, in any poll, when it takes a frame that waits
/// for it, its payload is that of one packet, whose segment or datagram the other host made.
pub fn reassembled_was_made()
    ensures { (starts : Starts) (history : List Entry) (hosts : Nodes)
        → IsInitialWorld starts
        → AreTyped history
        → WorldRun history (unused_both starts) hosts
        → ReassembledWasMade (record { hosts = hosts; starts = starts; history = history }) }
{}

/// Law: wherever events led two new hosts, whatever TCP or UDP datagram a host reassembles, in any poll, when it takes a frame that waits
/// for it was sent: what the other host's turns sent with that identification, those addresses and that protocol, whole or in fragments, is this
/// payload, all of it and nothing else.
pub fn reassembled_was_sent()
    ensures { (starts : Starts) (history : List Entry) (hosts : Nodes)
        → IsInitialWorld starts
        → AreTyped history
        → WorldRun history (unused_both starts) hosts
        → (a : IsHostRun (record { hosts = hosts; starts = starts; history = history }) A)
        (b : IsHostRun (record { hosts = hosts; starts = starts; history = history }) B)
        → ReassembledWasSent (record { hosts = hosts; starts = starts; history = history }) (by_side a.turns b.turns) }
{}

/// Law: wherever events led two new hosts, each frame that the link damaged does no harm: it touches no TCP and no UDP socket of
/// whichever host takes it, and has no reply.
pub fn damage_was_harmless()
    ensures { (starts : Starts) (history : List Entry) (hosts : Nodes)
        → IsInitialWorld starts
        → AreTyped history
        → WorldRun history (unused_both starts) hosts
        → DamageIsHarmless hosts history }
{}

/// Law: wherever events led a new host, the frames that it sent and that ask for a neighbour, by their bytes and whatever the host calls
/// them, are a second apart: ARP requests of any host, and requests and solicitations together of one whose sockets are of TCP and UDP.
pub fn frames_are_apart()
    ensures { (starts : Starts) (history : List Entry) (hosts : Nodes) (side : Side)
        → IsInitialWorld starts
        → AreTyped history
        → WorldRun history (unused_both starts) hosts
        → (r : IsHostRun (record { hosts = hosts; starts = starts; history = history }) side)
        → FramesAreApart (medium_of (node hosts side)) (start starts side).slots r.turns }
{}

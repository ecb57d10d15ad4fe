//! What the headline excludes: worlds of which no field of what is promised of every world may hold. Each law is of a field by itself;
//! `excluded` has those of the sockets' field.
ghost use Rattle.std.specs.Prelude.{◌≡◌, ◌≢◌, ◌+◌, ◌≤◌, ◌<◌, ℕ, ℤ, pos, List, [], ◌∷◌, length, slice_get, Option, Some, None};
ghost use Rattle.lan.specs.Worlds.FragKey.{FragKey};
ghost use Rattle.lan.specs.Worlds.IpProtocol.TheVariants as Protocol;
ghost use Rattle.net_base.specs.Medium.{Medium};
ghost use Rattle.lan.specs.Worlds.Address.{IsEthernetAddress, IsIpv6Address};
ghost use Rattle.lan.specs.Worlds.EthernetAddress.{EthernetAddress};
ghost use Rattle.lan.specs.Worlds.HardwareAddress.TheVariants as Hardware;
ghost use Rattle.lan.specs.Worlds.Ipv4Address.{Ipv4Address};
ghost use Rattle.lan.specs.Worlds.Ipv6Address.{Ipv6Address};
ghost use Rattle.lan.specs.Worlds.NeighborQuery.{NeighborQuery};
ghost use Rattle.lan.specs.Worlds.NeighborQuery.TheVariants as Query;
ghost use Rattle.lan.specs.Worlds.AtLink.Departure.{Asks, Tells, Whole, arp_request, solicitation, solicited_hardware_addr};
ghost use Rattle.lan.specs.Worlds.AtLink.Arrives.{Arrived, ReplyValue};
ghost use Rattle.lan.specs.Worlds.AtLink.Delivered.{Slots};
ghost use Rattle.lan.specs.Worlds.FragmentStored.{with_ports};
ghost use Rattle.lan.specs.Worlds.AtLink.Reassembled.{Assemblers};
ghost use Rattle.lan.specs.Worlds.AtLink.Inner.{InnerValue};
ghost use Rattle.lan.specs.Worlds.AtLink.History.{Entry};
ghost use Rattle.lan.specs.Worlds.AtLink.Kinds.{other};
ghost use Rattle.lan.specs.declared.at_link.history.answer.Answer.TheVariants as To;
ghost use Rattle.lan.specs.declared.at_link.history.event.Side.{Side};
ghost use Rattle.lan.specs.declared.at_link.history.event.Side.TheVariants.{A};
ghost use Rattle.lan.specs.Worlds.AtLink.Origins.{medium_of};
ghost use Rattle.lan.specs.Worlds.AtLink.Runs.{Starts, WorldValue, WorldRun, start, unused_both};
ghost use Rattle.lan.specs.Worlds.AtLink.Node.{NodeValue, Nodes, node};
ghost use Rattle.lan.specs.Worlds.Hosts.RequestSilence.{requests, AreApart};
ghost use Rattle.lan.specs.Worlds.Hosts.Damage.{DamageIsHarmless};
ghost use Rattle.lan.specs.Worlds.Hosts.HostRuns.{IsHostRun, frames_sent};
ghost use Rattle.lan.specs.Worlds.Hosts.Machine.{Turn};
ghost use Rattle.lan.specs.Worlds.Hosts.Quiet.{PollsWereQuiet};
ghost use Rattle.lan.specs.Worlds.Hosts.Wire.{FramesAreApart, HasPorts};
ghost use Rattle.lan.specs.Worlds.Moves.Raws.{OfEach, HasNoUdp};
ghost use Rattle.lan.specs.Worlds.ReassembledDatagram.{Rebuilds, ReassembledWasMade, protocol_in, room_before};
ghost use Rattle.lan.specs.Worlds.FragmentFacts.{ByteAt, EndsAt, IsSaid, ReassembledWasSent};
ghost use Rattle.proof_stack.specs.Worlds.BadWorlds.{after, Delivers, Damages, IsAsked, GetsRoom, sent_by_a, asked, polled, asking, leaving, AreOfOther, IsRebuilt, IsTaken};

/// `run`: a host sent a frame though nothing happened; a frame was handed over that wasn't sent yet; a question when to poll was answered as
/// a call is.
pub fn bad_runs_are_excluded()
    ensures sent_unbidden { (starts : Starts) (hosts : Nodes) (frame : List ℕ) (more : List (List ℕ))
        → hosts.a.link.sent ≡ frame ∷ more
        → WorldRun [] (unused_both starts) hosts → ⊥ }
    ensures not_sent_yet { (starts : Starts) (hosts : Nodes) (past : List Entry) (e : Entry) (k : ℕ) (padding : List ℕ)
        → Delivers k padding e
        → e.before.sent_a ≤ k
        → WorldRun (e ∷ past) (unused_both starts) hosts → ⊥ }
    ensures other_answer { (starts : Starts) (hosts : Nodes) (past : List Entry) (e : Entry) (instant : ℤ)
        → IsAsked instant e
        → e.answer ≡ To.Done
        → WorldRun (e ∷ past) (unused_both starts) hosts → ⊥ }
{}

/// `run_a` and `run_b`: a host sent a frame though it did nothing, or though it was only given room; a frame waits for it that the link
/// didn't hand over; it isn't what it was, though it did nothing.
pub fn bad_hosts_are_excluded()
    ensures sent_unbidden { (starts : Starts) (hosts : Nodes) (frame : List ℕ) (more : List (List ℕ))
        → hosts.a.link.sent ≡ frame ∷ more
        → IsHostRun (after starts [] hosts) A → ⊥ }
    ensures sent_without_a_poll { (starts : Starts) (hosts : Nodes) (e : Entry) (room : ℕ) (frame : List ℕ) (more : List (List ℕ))
        → GetsRoom room e
        → e.before.sent_a ≡ 0
        → hosts.a.link.sent ≡ frame ∷ more
        → IsHostRun (after starts (e ∷ []) hosts) A → ⊥ }
    ensures not_handed_over { (starts : Starts) (hosts : Nodes) (frame : List ℕ) (more : List (List ℕ))
        → hosts.a.link.waiting ≡ frame ∷ more
        → IsHostRun (after starts [] hosts) A → ⊥ }
    ensures other_host { (starts : Starts) (hosts : Nodes)
        → hosts.a.host.timeout ≢ starts.a.host.timeout
        → IsHostRun (after starts [] hosts) A → ⊥ }
{}

/// `quiet`: a host was asked when to poll, was polled undisturbed before that instant, and sent a frame; it answered that it never wants
/// to be polled, and sent one.
pub fn bad_polls_are_excluded()
    ensures before_the_instant { (starts : Starts)
        → starts.a.host.inner.routes ≡ []
        → PollsWereQuiet starts (polled ∷ asked (Some (pos 10)) ∷ []) (sent_by_a 1) → ⊥ }
    ensures never { (starts : Starts)
        → starts.a.host.inner.routes ≡ []
        → PollsWereQuiet starts (polled ∷ asked None ∷ []) (sent_by_a 1) → ⊥ }
{}

/// `asks_a` and `asks_b`: a host asked for a neighbour twice at one instant, in one turn or in two; and again a microsecond before the
/// second was over.
pub fn bad_questions_are_excluded()
    ensures in_one_turn { (q r : NeighborQuery) → AreApart (requests (asking (pos 0) (q ∷ r ∷ []) ∷ [])) → ⊥ }
    ensures in_two_turns { (q r : NeighborQuery) → AreApart (requests (asking (pos 0) (q ∷ []) ∷ asking (pos 0) (r ∷ []) ∷ [])) → ⊥ }
    ensures too_early { (q r : NeighborQuery) → AreApart (requests (asking (pos 999_999) (q ∷ []) ∷ asking (pos 0) (r ∷ []) ∷ [])) → ⊥ }
{}

/// `frames_a` and `frames_b`: a host asked for a neighbour, and half a second later the same frame left under another name, which the labels
/// let pass: an ARP request as an answer in ARP, or a neighbour solicitation as a packet, of a host with TCP and UDP sockets alone.
pub fn bad_frames_are_excluded()
    ensures told { (i : InnerValue) (slots : Slots) (own : EthernetAddress) (source target : Ipv4Address)
        → IsEthernetAddress own
        → FramesAreApart Medium.Ethernet slots
        (leaving (pos 500_000) i (Tells (arp_request own source target)) ∷ leaving (pos 0) i (Asks (Query.Arp own source target)) ∷ []) → ⊥ }
    ensures whole { (i : InnerValue) (slots : Slots) (own : EthernetAddress) (source target : Ipv6Address)
        → i.hardware ≡ Hardware.Ethernet own
        → IsEthernetAddress own
        → IsIpv6Address source
        → IsIpv6Address target
        → OfEach HasPorts slots
        → FramesAreApart Medium.Ethernet slots
        (leaving (pos 500_000) i (Whole (Hardware.Ethernet (solicited_hardware_addr target)) (solicitation own source target))
        ∷ leaving (pos 0) i (Asks (Query.Neighbor own source target)) ∷ []) → ⊥ }
    ensures labels { (i : InnerValue) (own : EthernetAddress) (source target : Ipv4Address)
        → AreApart (requests
        (leaving (pos 500_000) i (Tells (arp_request own source target)) ∷ leaving (pos 0) i (Asks (Query.Arp own source target)) ∷ [])) }
{}

/// `reassembled`: a host reassembles a datagram of either family of which the other host sent nothing; or only frames of another identification; or another byte at
/// a slot, between polls or within one; or one more byte; or an end at another slot.
pub fn bad_payloads_are_excluded()
    ensures never_sent { (w : WorldValue) (turns : Side → List Turn) (side : Side) (key : FragKey) (bytes : List ℕ)
        → Rebuilds (node w.hosts side) key bytes
        → frames_sent (turns (other side)) ≡ []
        → ReassembledWasSent w turns → ⊥ }
    ensures other_identification { (w : WorldValue) (turns : Side → List Turn) (side : Side) (key : FragKey) (bytes : List ℕ)
        → Rebuilds (node w.hosts side) key bytes
        → AreOfOther (medium_of (node w.hosts (other side))) (frames_sent (turns (other side))) key
        → ReassembledWasSent w turns → ⊥ }
    ensures other_byte { (w : WorldValue) (turns : Side → List Turn) (side : Side) (key : FragKey) (bytes : List ℕ) (slot byte : ℕ)
        → Rebuilds (node w.hosts side) key bytes
        → IsSaid (medium_of (node w.hosts (other side))) (frames_sent (turns (other side))) key (ByteAt slot byte)
        → slice_get bytes slot ≢ Some byte
        → ReassembledWasSent w turns → ⊥ }
    ensures other_end { (w : WorldValue) (turns : Side → List Turn) (side : Side) (key : FragKey) (bytes : List ℕ) (slot : ℕ)
        → Rebuilds (node w.hosts side) key bytes
        → IsSaid (medium_of (node w.hosts (other side))) (frames_sent (turns (other side))) key (EndsAt slot)
        → slot ≢ length bytes
        → ReassembledWasSent w turns → ⊥ }
    ensures other_byte_in_a_poll { (w : WorldValue) (turns : Side → List Turn) (side : Side) (key : FragKey) (bytes : List ℕ) (slot byte : ℕ)
        → IsRebuilt (node w.hosts side) key bytes
        → IsSaid (medium_of (node w.hosts (other side))) (frames_sent (turns (other side))) key (ByteAt slot byte)
        → slice_get bytes slot ≢ Some byte
        → ReassembledWasSent w turns → ⊥ }
{}

/// Law: every datagram that a host rebuilds as it is polled is one of which `reassembled` and `made` speak, also where all of its fragments
/// came with that poll.
pub fn what_polls_rebuild_is_seen()
    ensures { (s : NodeValue) (key : FragKey) (bytes : List ℕ) → IsRebuilt s key bytes → Rebuilds s key bytes }
{}

/// `made`: a host reassembles a UDP datagram though the other host never had a UDP socket; or a payload too short for a datagram, or of TCP too
/// short for a segment, which no socket makes, whatever bytes a raw socket queued. In IPv6 eight bytes of a fragment header stand before it.
pub fn bad_makers_are_excluded()
    ensures without_a_socket { (w : WorldValue) (side : Side) (key : FragKey) (bytes : List ℕ)
        → Rebuilds (node w.hosts side) key bytes
        → protocol_in key bytes ≡ Protocol.Udp
        → OfEach HasNoUdp (start w.starts (other side)).slots
        → ReassembledWasMade w → ⊥ }
    ensures too_short { (w : WorldValue) (side : Side) (key : FragKey) (bytes : List ℕ)
        → Rebuilds (node w.hosts side) key bytes
        → length bytes < room_before key + 8
        → ReassembledWasMade w → ⊥ }
    ensures no_segment { (w : WorldValue) (side : Side) (key : FragKey) (bytes : List ℕ)
        → Rebuilds (node w.hosts side) key bytes
        → protocol_in key bytes ≡ Protocol.Tcp
        → length bytes < room_before key + 20
        → ReassembledWasMade w → ⊥ }
{}

/// `damage`: a frame that the link damaged is answered by a host that takes it, or touches a TCP or UDP socket there.
pub fn bad_damage_is_excluded()
    ensures answered { (hosts : Nodes) (past : List Entry) (e : Entry) (k slot word : ℕ) (padding : List ℕ) (i : InnerValue) (timeout : ℕ)
        (assemblers after : Assemblers) (slots : Slots) (a : Arrived) (reply : ReplyValue)
        → Damages k slot word padding e
        → IsTaken hosts k slot word padding i timeout assemblers after slots a
        → a.reply ≡ Some reply
        → DamageIsHarmless hosts (e ∷ past) → ⊥ }
    ensures heard { (hosts : Nodes) (past : List Entry) (e : Entry) (k slot word : ℕ) (padding : List ℕ) (i : InnerValue) (timeout : ℕ)
        (assemblers after : Assemblers) (slots : Slots) (a : Arrived)
        → Damages k slot word padding e
        → IsTaken hosts k slot word padding i timeout assemblers after slots a
        → with_ports a.slots ≢ with_ports slots
        → DamageIsHarmless hosts (e ∷ past) → ⊥ }
{}

//! What the laws of queued datagrams ask for is met, on numerals.

ghost use Rattle.std.specs.Prelude.{◌≡◌, ◌≢◌, pos, true, false, IsTrue, List, [], ◌∷◌, ◌++◌, length, slice_get, None, Some};
ghost use Rattle.std.specs.List.{AllByRecursion};
ghost use Rattle.net_base.specs.Packets.{contents};
ghost use Rattle.wire_ip.specs.Ip.{source_of};
ghost use Rattle.ip_wire.specs.HardwareAddress.TheVariants as Hardware;
ghost use Rattle.ip_wire.specs.IpAddress.TheVariants as Address;
ghost use Rattle.iface_egress.specs.Meta.{has_waited};
ghost use Rattle.interface.specs.Egress.{EgressStep};
ghost use Rattle.interface.specs.Polls.{Polls};
ghost use Rattle.interface.specs.TransmittedFrame.{CanRead, HasWidths};
ghost use Rattle.interface.specs.Serve.{crowded_time};
ghost use Rattle.iface_tables.specs.Inner.{at_instant};
ghost use Rattle.lan.specs.declared.at_link.history.event.Side.TheVariants.{A, B};
ghost use Rattle.sim_link.specs.Port.{PortMove, has_tx_token};
ghost use Rattle.proof_stack.specs.Progress.Delivered.{WaitsFollowing, as_received, reader_of};
ghost use Rattle.proof_stack.specs.Progress.Inbox.{WaitsAmongThem};
ghost use Rattle.proof_stack.specs.Progress.InARow.{both_gone, both_reached, expecting_both, next_datagram, next_packet, queued_both, queuing_both, roomy};
ghost use Rattle.proof_stack.specs.Progress.Leave.{BringsWhatWent};
ghost use Rattle.proof_stack.specs.Progress.Numerals.{datagram, expecting, now, packet, queuing, reached, relieved, sender};
ghost use Rattle.proof_stack.specs.Progress.OnEthernet as Ethernet;
ghost use Rattle.proof_stack.specs.Progress.OnEthernet.{FourSteps, TwoSteps, datagram_to, exchange_of, for_b, hops, in_vain, knowing_nobody, second, node};
ghost use Rattle.proof_stack.specs.Progress.OnEthernet.{knowing_b, steps_of, tenth};
ghost use Rattle.proof_stack.specs.Progress.Queued.{CanGo, HasTurn, HasWay, ports_of};
ghost use Rattle.proof_stack.specs.Progress.Ready.{HasRoomFollowing, IsExpectedThroughout};
ghost use Rattle.proof_stack.specs.Progress.Rounds.{AreRounds, IsOneOf, PassesOver, Round};
ghost use Rattle.proof_stack.specs.Progress.Served.{CanDeliver, WaitsForHop, first_of};
ghost use Rattle.proof_stack.specs.Progress.EgressSteps.{AreInOrder, IsAskedFor, IsWaitedFor};
ghost use Rattle.proof_stack.specs.Worlds.Datagrams.{bound_b, queued_a};
ghost use Rattle.proof_stack.specs.Worlds.Hosts.{address};

/// Law: there are two hosts at ports of the simulated link, on a medium of bare packets, that meet all that `a_queued_datagram_arrives_between_ports` asks
/// for: abc is queued at the one, goes in one step of its poll, and is read in one step of the other's, where it then waits.
pub fn two_hosts_meet_what_a_queued_datagram_asks_for()
    ensures widths { HasWidths sender }
    ensures turn { HasTurn sender queuing.slots 0 queued_a }
    ensures queued { contents queued_a.queued ≡ datagram ∷ [] }
    ensures port { datagram.0.endpoint.port ≢ 0 }
    ensures goes { CanGo sender queued_a.settings datagram Hardware.Ip packet }
    ensures bare { queuing.device.link.waiting ≡ [] }
    ensures sends { Polls PortMove now 1 queuing true relieved }
    ensures refuses { relieved.device.link.refusals ≡ queuing.device.link.refusals }
    ensures leave { IsTrue (has_tx_token relieved.device.link) }
    ensures brings { BringsWhatWent queuing.device relieved.device expecting.device 1 }
    ensures reads { CanRead sender Hardware.Ip (reader_of expecting.host.inner) }
    ensures expected { IsExpectedThroughout (at_instant now expecting.host.inner) expecting.slots Hardware.Ip packet.header
        (ports_of queued_a.settings datagram) 0 (record { waiting = None }) bound_b }
    ensures room { HasRoomFollowing expecting.device.link.waiting expecting.host.assemblers bound_b.received 1 (length datagram.1) }
    ensures hears { Polls PortMove now 1 expecting true reached }
    ensures their_leave { IsTrue (has_tx_token reached.device.link) }
    ensures arrives { WaitsAmongThem reached.slots 0 bound_b (as_received (source_of packet.header) queued_a.settings datagram) }
{}

/// Law: so do two hosts where a datagram is queued before: abc and de go in two steps of the one's poll, and are read in two of the other's, whose socket
/// has room for both whatever so many frames and slots for fragments may bring.
pub fn two_hosts_meet_what_a_datagram_following_another_asks_for()
    ensures turn { HasTurn sender queuing_both.slots 0 queued_both }
    ensures queued { contents queued_both.queued ≡ (datagram ∷ []) ++ next_datagram ∷ [] }
    ensures ways { AllByRecursion (HasWay sender queued_both.settings) (datagram ∷ []) }
    ensures port { next_datagram.0.endpoint.port ≢ 0 }
    ensures goes { CanGo sender queued_both.settings next_datagram Hardware.Ip next_packet }
    ensures sends { Polls PortMove now 2 queuing_both true both_gone }
    ensures brings { BringsWhatWent queuing_both.device both_gone.device expecting_both.device 2 }
    ensures reads { CanRead sender Hardware.Ip (reader_of expecting_both.host.inner) }
    ensures expected { IsExpectedThroughout (at_instant now expecting_both.host.inner) expecting_both.slots Hardware.Ip next_packet.header
        (ports_of queued_both.settings next_datagram) 0 (record { waiting = None }) roomy }
    ensures room { HasRoomFollowing expecting_both.device.link.waiting expecting_both.host.assemblers roomy.received 2 (length next_datagram.1) }
    ensures hears { Polls PortMove now 2 expecting_both true both_reached }
    ensures arrives { WaitsAmongThem both_reached.slots 0 roomy (as_received (source_of next_packet.header) queued_both.settings next_datagram) }
{}

/// Law: there are hosts on one Ethernet that meet what `a_neighbor_has_its_turn` and `a_waiting_datagram_arrives` ask of the steps of the one: two of its
/// sockets wait, the first for B, whose first question was lost, the other for an address that nobody has, which comes first. So do the rounds of
/// `turns_come_round`; and the first socket hasn't waited for long (`a_waiting_datagram_stays_first`).
pub fn a_host_meets_what_waiting_datagrams_ask_for()
    ensures begins { EgressStep PortMove (second 0) knowing_nobody None in_vain }
    ensures steps { TwoSteps }
    ensures order { (t : TwoSteps) → AreInOrder PortMove (steps_of t) }
    ensures waited { (t : TwoSteps) → AllByRecursion (IsWaitedFor PortMove (Address.Ipv4 (address B)) hops) (steps_of t) }
    ensures waits { (t : TwoSteps)
        → AllByRecursion (WaitsForHop PortMove hops 0 for_b (datagram_to (address B)) (Address.Ipv4 (address B)) Ethernet.packet) (steps_of t) }
    ensures patient { has_waited (record { waiting = Some (record { neighbor = Address.Ipv4 (address B); since = pos 0; silent_until = second 1 }) })
        (Address.Ipv4 (address B)) crowded_time (second 1) ≡ false }
    ensures ours { IsOneOf (Address.Ipv4 (address B)) hops }
    ensures asks { (t : TwoSteps) → IsAskedFor PortMove (Address.Ipv4 (address B)) (steps_of t) }
    ensures rounds { (rounds : List Round) × (length rounds ≡ 1) × AreRounds rounds
        × AllByRecursion (PassesOver (Address.Ipv4 (address B)) (Some (second 1)) hops) rounds }
{}

/// Law: and what `a_waiting_datagram_arrives` asks of an exchange is met by one that begins with the second of these steps: B answers, and reads abc.
pub fn a_neighbor_meets_what_an_exchange_asks_for()
    ensures steps { FourSteps }
    ensures among { (t : TwoSteps) (f : FourSteps) → slice_get (steps_of t) 1 ≡ Some (first_of (exchange_of t f)) }
    ensures delivers { (t : TwoSteps) (f : FourSteps)
        → CanDeliver (exchange_of t f) (node A) (node B) (address A) (address B) Ethernet.packet for_b.settings (datagram_to (address B)) 0
        (record { waiting = None }) bound_b }
    ensures arrives { WaitsFollowing Ethernet.reached.slots 0 (record { waiting = None }) bound_b
        (as_received (source_of Ethernet.packet.header) for_b.settings (datagram_to (address B))) }
{}

/// Law: as soon as A knows B, both meet on Ethernet what `a_queued_datagram_arrives_between_ports` asks for, too.
pub fn neighbors_meet_what_a_queued_datagram_asks_for()
    ensures widths { HasWidths (at_instant (tenth 2) knowing_b.host.inner) }
    ensures turn { HasTurn (at_instant (tenth 2) knowing_b.host.inner) knowing_b.slots 0 for_b }
    ensures queued { contents for_b.queued ≡ datagram_to (address B) ∷ [] }
    ensures port { (datagram_to (address B)).0.endpoint.port ≢ 0 }
    ensures goes { CanGo (at_instant (tenth 2) knowing_b.host.inner) for_b.settings (datagram_to (address B)) (Hardware.Ethernet (node B)) Ethernet.packet }
    ensures bare { knowing_b.device.link.waiting ≡ [] }
    ensures sends { Polls PortMove (tenth 2) 1 knowing_b true Ethernet.relieved }
    ensures refuses { Ethernet.relieved.device.link.refusals ≡ knowing_b.device.link.refusals }
    ensures leave { IsTrue (has_tx_token Ethernet.relieved.device.link) }
    ensures brings { BringsWhatWent knowing_b.device Ethernet.relieved.device Ethernet.expecting.device 1 }
    ensures reads { CanRead (at_instant (tenth 2) knowing_b.host.inner) (Hardware.Ethernet (node B)) (reader_of Ethernet.expecting.host.inner) }
    ensures expected { IsExpectedThroughout (at_instant (tenth 3) Ethernet.expecting.host.inner) Ethernet.expecting.slots (Hardware.Ethernet (node B))
        Ethernet.packet.header (ports_of for_b.settings (datagram_to (address B))) 0 (record { waiting = None }) bound_b }
    ensures room { HasRoomFollowing Ethernet.expecting.device.link.waiting Ethernet.expecting.host.assemblers bound_b.received 1 (length (datagram_to (address B)).1) }
    ensures hears { Polls PortMove (tenth 3) 1 Ethernet.expecting true Ethernet.reached }
    ensures their_leave { IsTrue (has_tx_token Ethernet.reached.device.link) }
    ensures arrives { WaitsAmongThem Ethernet.reached.slots 0 bound_b
        (as_received (source_of Ethernet.packet.header) for_b.settings (datagram_to (address B))) }
{}

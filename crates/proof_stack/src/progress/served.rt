//! A datagram comes to wait at another host, whoever else the sockets of the one wait for.

ghost use Rattle.std.specs.Prelude.{◌≡◌, ◌≢◌, ℕ, ◌≤◌, ℤ, Bool, true, false, List, length, Option, is_some};
ghost use Rattle.std.specs.List.{AllByRecursion, Any};
ghost use Rattle.wire_ip.specs.Ip.{destination_of};
ghost use Rattle.ip_wire.specs.EthernetAddress.{EthernetAddress};
ghost use Rattle.ip_wire.specs.IpAddress.{IpAddress};
ghost use Rattle.ip_wire.specs.IpAddress.TheVariants as Address;
ghost use Rattle.ip_wire.specs.Ipv4Address.{Ipv4Address};
ghost use Rattle.socket_datagram.specs.Udp.{UdpSettings, UdpValue};
ghost use Rattle.socket_datagram.specs.declared.udp.UdpMetadata.{UdpMetadata};
ghost use Rattle.iface_ingress.specs.Packet.{PacketValue};
ghost use Rattle.iface_tables.specs.Inner.{InnerValue, at_instant, is_crowded, link_address};
ghost use Rattle.iface_tables.specs.declared.link.LinkAddress.TheVariants as Link;
ghost use Rattle.iface_egress.specs.Meta.{has_waited};
ghost use Rattle.interface.specs.Egress.{EgressStep};
ghost use Rattle.interface.specs.State.{State};
ghost use Rattle.interface.specs.Serve.{crowded_time};
ghost use Rattle.lan.specs.Worlds.PollSteps.{Reaches};
ghost use Rattle.proof_stack.specs.Progress.NeighborResolution.{HasToAsk, MayAsk};
ghost use Rattle.proof_stack.specs.Progress.Exchanged.{IsStillFirst};
ghost use Rattle.proof_stack.specs.Progress.Rounds.{IsOneOf};
ghost use Rattle.proof_stack.specs.Progress.Served.{ArrivesFrom, WaitsForHop};
ghost use Rattle.proof_stack.specs.Progress.EgressSteps.{AreInOrder, OutStep};

use net_base::Device;

/// Law: whoever is asked for in a step of the egress path, and whatever the device refuses, a datagram whose next hop isn't known stays: it still is the
/// first of its socket, and where the socket waited for its destination, it does so after the step. Its packet hasn't waited for half a minute, after
/// which one is given up while the host asks for as many neighbours as it can. So of steps between which the socket isn't used this has to be asked of
/// the first alone.
pub fn a_waiting_datagram_stays_first<D: Device>()
    ensures { (t : ℤ) (s s' : State D) (answer : Option Bool) (n : ℕ) (v : UdpValue) (d : UdpMetadata × List ℕ) (hop : IpAddress) (p : PacketValue)
        → HasToAsk (at_instant t s.host.inner) v.settings d hop p
        → (before : IsStillFirst s.slots n v d (destination_of p.header))
        → has_waited before.meta (destination_of p.header) crowded_time t ≡ false
        → EgressStep D.moves t s answer s'
        → (following : IsStillFirst s'.slots n v d (destination_of p.header)) × (is_some before.meta.waiting ≡ true → is_some following.meta.waiting ≡ true) }
{}

/// Law: that a packet takes the datagram, may leave the host, and its next hop may be asked for, is so wherever a poll has come, at whatever instant: by the
/// settings of the host, which no poll changes. With that the next hop has to be asked for where its hardware address isn't known, and the host keeps
/// count of fewer neighbours than it can: so for a host without host requirements, which parks no packets.
pub fn a_packet_may_leave_throughout<E: Device>()
    ensures stays { (t u now : ℤ) (s x : State E) (settings : UdpSettings) (d : UdpMetadata × List ℕ) (hop : IpAddress) (p : PacketValue)
        → MayAsk (at_instant t s.host.inner) settings d hop p
        → Reaches E.moves u s x
        → MayAsk (at_instant now x.host.inner) settings d hop p }
    ensures asks { (i : InnerValue) (settings : UdpSettings) (d : UdpMetadata × List ℕ) (hop : IpAddress) (p : PacketValue)
        → MayAsk i settings d hop p
        → link_address i (destination_of p.header) ≡ Link.Unknown hop
        → i.host_requirements ≡ false
        → is_crowded i ≡ false
        → HasToAsk i settings d hop p }
{}

/// Law: a datagram whose next hop isn't known arrives, whoever else is waited for, over IPv4 on Ethernet. Of as many steps of the egress path as there are
/// neighbours that sockets wait for, in each of which the first datagram of a UDP socket waits for this next hop, one asks for it. And if from that
/// step on the link brings question, answer and packet, the datagram waits at the UDP socket of the other host that it is for.
pub fn a_waiting_datagram_arrives<D: Device, E: Device>()
    ensures { (hops : List IpAddress) (n : ℕ) (v : UdpValue) (d : UdpMetadata × List ℕ) (own node : EthernetAddress) (a asked : Ipv4Address)
        (p : PacketValue) (steps : List (OutStep D.moves))
        → AreInOrder D.moves steps
        → AllByRecursion (WaitsForHop D.moves hops n v d (Address.Ipv4 asked) p) steps
        → IsOneOf (Address.Ipv4 asked) hops
        → length hops ≤ length steps
        → d.0.endpoint.port ≢ 0
        → Any (ArrivesFrom D.moves E.moves own node a asked p v.settings d) steps }
{}

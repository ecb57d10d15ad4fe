//! What follows from the definitions of what is transmitted.
ghost use Rattle.std.specs.Prelude.{◌≡◌, ℕ, ◌+◌, ◌*◌, ◌/◌, ◌%◌, ◌^◌, ◌<◌, ◌≤◌, Bool, false, List, ◌++◌, length, take, drop, int_lt, Option, Some, IfSome, IsTrue};
ghost use Rattle.std.specs.List.{AllByRecursion, flat_map};
ghost use Rattle.net_base.specs.Capabilities.{computes};
ghost use Rattle.net_base.specs.ChecksumCapabilities.{ChecksumCapabilities};
ghost use Rattle.ip_wire.specs.Address.{IsEthernetAddress};
ghost use Rattle.ip_wire.specs.Arp as Arps;
ghost use Rattle.ip_wire.specs.declared.arp.repr.ArpRepr.{ArpRepr};
ghost use Rattle.ip_wire.specs.Ethernet as Ethernet;
ghost use Rattle.ip_wire.specs.Fragment as Fragment;
ghost use Rattle.ip_wire.specs.EthernetAddress.{EthernetAddress};
ghost use Rattle.ip_wire.specs.HardwareAddress.{HardwareAddress};
ghost use Rattle.ip_wire.specs.HardwareAddress.TheVariants as Hardware;
ghost use Rattle.ip_wire.specs.Ip as Ips;
ghost use Rattle.ip_wire.specs.Ipv4 as Ipv4;
ghost use Rattle.ip_wire.specs.Ipv6 as Ipv6;
ghost use Rattle.ip_wire.specs.IpRepr.{IpRepr};
ghost use Rattle.ip_wire.specs.Ipv4Repr.{Ipv4Repr};
ghost use Rattle.ip_wire.specs.Ipv6Repr.{Ipv6Repr};
ghost use Rattle.socket_context.specs.Packet.{PacketValue, IsSendable, payload_len, payload_written};
ghost use Rattle.iface_tables.specs.Inner.{InnerValue};
ghost use Rattle.iface_tables.specs.FragmentList.{FragmentPart, IsSliceOf};
ghost use Rattle.iface_egress.specs.Departure.{Departure, Tells, ether_for, ether_in, packet_frame, fragment_v6, fragment_header, fragment_frame, arp_link, arp_frame};
ghost use Rattle.iface_egress.specs.Fragments.{LeftValue, fragment_room, departure_from, fragments_from};
ghost use Rattle.iface_egress.specs.Plan.{never_leaves, plan_of};
ghost use Rattle.iface_egress.specs.IsTransmitted.{IsTransmitted, FragmentIsTransmitted, frame_len_of};
ghost use Rattle.iface_egress.specs.Departing.{departure_by, link_room, ident_after, silent_after, SendsOnce, was_taken, host_after, left_following};
ghost use Rattle.iface_egress.specs.Departing.{HasSettingsOf, number_in};
ghost use Rattle.iface_egress.specs.Determined.{IsDetermined};
ghost use Rattle.iface_egress.specs.declared.egress_path.Sent.{Sent};
ghost use Rattle.iface_egress.specs.declared.frame.CutHeader.{CutHeader};
ghost use Rattle.iface_egress.specs.declared.frame.CutHeader.TheVariants as Cut;
ghost use Rattle.iface_egress.specs.declared.frame.NeighborQuery.{NeighborQuery};
ghost use Rattle.iface_egress.specs.declared.plan.Plan.TheVariants as Way;

use net_base::Device;

/// Law: no frame is longer than the device's: not the one that a plan sends, nor that of a later fragment, nor an ARP packet.
pub fn frames_are_short()
    ensures planned { (i : InnerValue) (busy : Bool) (p : PacketValue) (d : Departure) → 576 ≤ i.mtu
        → Ips.payload_len_of p.header ≡ payload_len p.payload
        → departure_by i p (plan_of i busy p.header) ≡ Some d
        → frame_len_of i d ≤ link_room i.hardware + i.mtu }
    ensures fragment { (i : InnerValue) (l : LeftValue) → 576 ≤ i.mtu
        → frame_len_of i (departure_from i l) ≤ link_room i.hardware + i.mtu }
    ensures arp { (i : InnerValue) (local : EthernetAddress) (packet : ArpRepr) → 576 ≤ i.mtu → i.hardware ≡ Hardware.Ethernet local
        → frame_len_of i (Tells packet) ≤ link_room i.hardware + i.mtu }
{}

/// Law: the fragments that are left of a datagram are slices of its payload, which begin at multiples of 8 bytes, and in turn they
/// are all that is left.
pub fn fragments_are_slices()
    ensures slices { (mtu n : ℕ) (l : LeftValue) → l.at ≤ length l.payload
        → AllByRecursion (IsSliceOf l.payload) (fragments_from n mtu (Some l)) }
    ensures units { (mtu n : ℕ) (l : LeftValue) → l.at % 8 ≡ 0
        → AllByRecursion (λ p. p.offset % 8 ≡ 0) (fragments_from n mtu (Some l)) }
    ensures in_turn { (mtu n : ℕ) (l : LeftValue) → length l.payload ≤ l.at + n * fragment_room l.header mtu
        → flat_map (λ p. p.bytes) (fragments_from n mtu (Some l)) ≡ drop l.at l.payload }
{}

/// Law: one packet's egress path asks the device for one send at most, that of its plan's frame. Of the host its next identification
/// and its silence alone change; and what is left to send changes only where a first fragment went.
pub fn one_send_at_most<D: Device>()
    ensures device { (old new : D) (i i' : InnerValue) (l l' : Option LeftValue) (busy : Bool) (p : PacketValue) (sent : Sent)
        → IsTransmitted D.moves old i l p (plan_of i busy p.header) sent new i' l'
        → SendsOnce D.moves old i (departure_by i p (plan_of i busy p.header)) (was_taken sent) new }
    ensures fragment { (old new : D) (i : InnerValue) (l : LeftValue) (l' : Option LeftValue) (taken : Bool)
        → FragmentIsTransmitted D.moves old i l taken new l'
        → SendsOnce D.moves old i (Some (departure_from i l)) taken new }
    ensures host { (old new : D) (i i' : InnerValue) (l l' : Option LeftValue) (busy : Bool) (p : PacketValue) (sent : Sent)
        → IsTransmitted D.moves old i l p (plan_of i busy p.header) sent new i' l'
        → i' ≡ host_after (plan_of i busy p.header) sent p.header i }
    ensures settings { (old new : D) (i i' : InnerValue) (l l' : Option LeftValue) (busy : Bool) (p : PacketValue) (sent : Sent)
        → IsTransmitted D.moves old i l p (plan_of i busy p.header) sent new i' l'
        → HasSettingsOf i i' }
    ensures left { (old new : D) (i i' : InnerValue) (l l' : Option LeftValue) (busy : Bool) (p : PacketValue) (sent : Sent)
        → IsTransmitted D.moves old i l p (plan_of i busy p.header) sent new i' l'
        → l' ≡ left_following i p (plan_of i busy p.header) sent l }
{}

/// Law: at a device whose next move is determined, a packet's egress path has one outcome, and so has a later fragment's.
pub fn one_outcome<D: Device>()
    ensures packet { (old : D) (i : InnerValue) (l : Option LeftValue) (busy : Bool) (p : PacketValue) → 576 ≤ i.mtu
        → Ips.payload_len_of p.header ≡ payload_len p.payload
        → IsDetermined D.moves (link_room i.hardware + i.mtu) old
        → (s t : Sent) (new other : D) (j j' : InnerValue) (k k' : Option LeftValue)
        → IsTransmitted D.moves old i l p (plan_of i busy p.header) s new j k
        → IsTransmitted D.moves old i l p (plan_of i busy p.header) t other j' k'
        → (s ≡ t) × (new ≡ other) × (j ≡ j') × (k ≡ k') }
    ensures fragment { (old : D) (i : InnerValue) (l : LeftValue) → 576 ≤ i.mtu
        → IsDetermined D.moves (link_room i.hardware + i.mtu) old
        → (x y : Bool) (new other : D) (k k' : Option LeftValue)
        → FragmentIsTransmitted D.moves old i l x new k → FragmentIsTransmitted D.moves old i l y other k'
        → (x ≡ y) × (new ≡ other) × (k ≡ k') }
{}

/// Law: nothing is sent for a packet that never leaves: none goes from a broadcast, from a group, from a loopback address to
/// another, or to a loopback address of a family of which the host has none.
pub fn sources_are_hosts()
    ensures { (i : InnerValue) (busy : Bool) (p : PacketValue) (d : Departure)
        → departure_by i p (plan_of i busy p.header) ≡ Some d
        → never_leaves i p.header ≡ false }
{}

/// Law: a packet that leaves with an identification has the host's next one.
pub fn next_number_goes()
    ensures { (i : InnerValue) (busy : Bool) (p : PacketValue) (d : Departure)
        → departure_by i p (plan_of i busy p.header) ≡ Some d
        → IfSome (number_in d) (λ n. n ≡ i.ident) }
{}

/// Law: an IPv4 packet takes the next identification as its frame, or its first fragment, is accepted, and an IPv6 packet as its first
/// fragment is accepted; nothing else takes one.
pub fn numbers_step<D: Device>()
    ensures { (old new : D) (i i' : InnerValue) (l l' : Option LeftValue) (busy : Bool) (p : PacketValue) (sent : Sent)
        → IsTransmitted D.moves old i l p (plan_of i busy p.header) sent new i' l'
        → i'.ident ≡ ident_after (plan_of i busy p.header) sent p.header i.ident }
{}

/// Law: fewer than 65,536 identifications in a row differ.
pub fn numbers_differ()
    ensures { (first j k : ℕ) → j < 2 ^ 16 → k < 2 ^ 16 → (first + j) % 2 ^ 16 ≡ (first + k) % 2 ^ 16 → j ≡ k }
{}

/// Law: where one silence is for all, a neighbour is asked for only where it is over; and a request that the device accepted begins one
/// of a second. Nothing else on egress begins or ends one.
pub fn asks_a_second_apart<D: Device>()
    ensures asked { (i : InnerValue) (busy : Bool) (header : IpRepr) (neighbor_query : NeighborQuery)
        → plan_of i busy header ≡ Way.Ask neighbor_query
        → i.host_requirements ≡ false
        → int_lt i.instant i.neighbors.silent ≡ false }
    ensures silence { (old new : D) (i i' : InnerValue) (l l' : Option LeftValue) (busy : Bool) (p : PacketValue) (sent : Sent)
        → IsTransmitted D.moves old i l p (plan_of i busy p.header) sent new i' l'
        → i'.neighbors.silent ≡ silent_after (plan_of i busy p.header) sent i }
{}

/// Law: what was sent in a frame is read in it, whatever padding follows: on Ethernet the link header and after it what stands
/// in a bare frame; there the packet's header in its canonical form and its payload. A checksum that is tested has to be written.
pub fn frames_read_back()
    ensures link { (caps : ChecksumCapabilities) (local to : EthernetAddress) (p : PacketValue) (padding : List ℕ)
        → IsEthernetAddress local → IsEthernetAddress to
        → Ethernet.IsEthernet (packet_frame caps (Hardware.Ethernet local) (Hardware.Ethernet to) p ++ padding)
        (record { src_addr = local; dst_addr = to; ethertype = ether_for p.header })
        × (Ethernet.payload_of (packet_frame caps (Hardware.Ethernet local) (Hardware.Ethernet to) p ++ padding)
        ≡ packet_frame caps Hardware.Ip Hardware.Ip p ++ padding) }
    ensures packet { (caps : ChecksumCapabilities) (tested : Bool) (p : PacketValue) (padding : List ℕ)
        → IsSendable p → Ips.IsValue p.header → length (payload_written caps p.header p.payload) ≡ payload_len p.payload
        → (IsTrue tested → IsTrue (computes caps.ipv4))
        → Ips.IsIp tested (packet_frame caps Hardware.Ip Hardware.Ip p ++ padding) (Ips.normal p.header)
        × (take (payload_len p.payload) (drop (Ips.header_len_in p.header) (packet_frame caps Hardware.Ip Hardware.Ip p ++ padding))
        ≡ payload_written caps p.header p.payload) }
    ensures fragment_link { (caps : ChecksumCapabilities) (local to : EthernetAddress) (header : CutHeader) (p : FragmentPart) (padding : List ℕ)
        → IsEthernetAddress local → IsEthernetAddress to
        → Ethernet.IsEthernet (fragment_frame caps (Hardware.Ethernet local) (Hardware.Ethernet to) header p ++ padding)
        (record { src_addr = local; dst_addr = to; ethertype = ether_in header })
        × (Ethernet.payload_of (fragment_frame caps (Hardware.Ethernet local) (Hardware.Ethernet to) header p ++ padding)
        ≡ fragment_frame caps Hardware.Ip Hardware.Ip header p ++ padding) }
    ensures fragment { (caps : ChecksumCapabilities) (tested : Bool) (header : Ipv4Repr) (p : FragmentPart) (padding : List ℕ)
        → Ipv4.IsValue header → 20 + length p.bytes < 2 ^ 16 → p.offset < 2 ^ 16 → p.offset % 8 ≡ 0
        → (IsTrue tested → IsTrue (computes caps.ipv4))
        → Ipv4.IsIpv4 tested (fragment_frame caps Hardware.Ip Hardware.Ip (Cut.Ipv4 header) p ++ padding)
        (Ipv4.normal (record header { payload_len = length p.bytes }))
        × (Ipv4.fragment_of (fragment_frame caps Hardware.Ip Hardware.Ip (Cut.Ipv4 header) p ++ padding) ≡ record { offset = p.offset; more = p.more })
        × (Ipv4.payload_of (fragment_frame caps Hardware.Ip Hardware.Ip (Cut.Ipv4 header) p ++ padding) ≡ p.bytes) }
    ensures fragment_v6 { (caps : ChecksumCapabilities) (header : Ipv6Repr) (number : ℕ) (p : FragmentPart) (padding : List ℕ)
        → Ipv6.IsValue header → number < 2 ^ 32 → 8 + length p.bytes < 2 ^ 16 → p.offset < 2 ^ 16
        → Ipv6.IsIpv6 (fragment_frame caps Hardware.Ip Hardware.Ip (Cut.Ipv6 header number) p ++ padding) (Ipv6.normal (fragment_v6 header p))
        × (Ipv6.payload_of (fragment_frame caps Hardware.Ip Hardware.Ip (Cut.Ipv6 header number) p ++ padding)
        ≡ fragment_header header.next_header number p ++ p.bytes)
        × Fragment.IsFragment (drop 2 (fragment_header header.next_header number p ++ p.bytes))
        (record { frag_offset = p.offset / 8; more_frags = p.more; ident = number }) }
    ensures arp { (packet : ArpRepr) (padding : List ℕ) → Arps.IsValue packet
        → Ethernet.IsEthernet (arp_frame packet ++ padding) (arp_link packet)
        × Arps.IsArp (Ethernet.payload_of (arp_frame packet ++ padding)) (Arps.normal packet) }
{}

//! What another host of the same medium reads in the frames that a host sends.
ghost use Rattle.std.specs.Prelude.{◌≡◌, ℕ, Bool, true, List, ◌++◌, Option, Some, IfSome};
ghost use Rattle.net_base.specs.ChecksumCapabilities.{ChecksumCapabilities};
ghost use Rattle.iface_ingress.specs.Address.{IsIpAddress};
ghost use Rattle.iface_ingress.specs.HardwareAddress.{HardwareAddress};
ghost use Rattle.wire_ip.specs.Ip.{destination_of};
ghost use Rattle.socket_context.specs.Packet.{PacketValue};
ghost use Rattle.iface_egress.specs.Inner.{InnerValue};
ghost use Rattle.iface_ingress.specs.Incoming.{IncomingValue, IsContent};
ghost use Rattle.iface_ingress.specs.Sent.{AreSealed, CanBeRead};
ghost use Rattle.iface_egress.specs.Departure.{Departure, Asks, Tells, Whole};
ghost use Rattle.iface_egress.specs.Fragments.{LeftValue, departure_from, left_after};
ghost use Rattle.iface_egress.specs.Plan.{plan_of};
ghost use Rattle.iface_egress.specs.IsTransmitted.{IsTransmitted, FragmentIsTransmitted, Departs, frame_of, numbered, cut_of};
ghost use Rattle.iface_egress.specs.declared.frame.NeighborQuery.{NeighborQuery};
ghost use Rattle.iface_egress.specs.declared.egress_path.Sent.TheVariants as Outcome;
ghost use Rattle.iface_egress.specs.declared.plan.Plan.TheVariants as Way;
ghost use Rattle.iface_ingress.specs.ArpRepr.{ArpRepr};
ghost use Rattle.iface_egress.specs.Arp as Arps;
ghost use Rattle.interface.specs.Delivered.{IsOfMedium, AreOfOneMedium, CanArrive, IsOnEthernet, IsNeighborQuery, read_of, protocol_read, protocol_sent};
ghost use Rattle.interface.specs.Delivered.{HasNoPorts, SendsNoPorts};
ghost use Rattle.interface.specs.Medium.{KnowsItsMedium};
ghost use Rattle.interface.specs.TransmittedFrame.{Reader, CanRead, Arrives, IsCarriedTo, HasWidths, IsOffered, IsHalfSent};

use net_base::Device;

/// Law: what left in a frame is read in it by another host of the same medium, whatever padding follows: a packet in its normal
/// form, a fragment at its slot, a question, or an ARP packet. No byte of the padding is in what is read. A checksum that the
/// receiver tests has to be written.
pub fn departures_arrive()
    ensures { (i : InnerValue) (other : HardwareAddress) (receiver : ChecksumCapabilities) (d : Departure) (padding : List ℕ)
        → AreSealed i.checksums receiver
        → CanArrive i.hardware other d
        → IsContent other receiver (frame_of i d ++ padding) (Some (read_of i d)) }
{}

/// Law: an IP packet in a departure's frame has the protocol of the packet that left, and an ARP packet has none. So a frame
/// carries neither TCP nor UDP where its packet doesn't, and no question and no answer to one carries them.
pub fn protocols_are_those_sent()
    ensures same { (i : InnerValue) (other : HardwareAddress) (receiver : ChecksumCapabilities) (d : Departure) (padding : List ℕ) (v : IncomingValue)
        → AreSealed i.checksums receiver
        → CanArrive i.hardware other d
        → IsContent other receiver (frame_of i d ++ padding) (Some v)
        → protocol_read v ≡ protocol_sent d }
    ensures no_ports { (i : InnerValue) (other : HardwareAddress) (receiver : ChecksumCapabilities) (d : Departure) (padding : List ℕ) (v : IncomingValue)
        → AreSealed i.checksums receiver
        → CanArrive i.hardware other d
        → SendsNoPorts i.checksums d
        → IsContent other receiver (frame_of i d ++ padding) (Some v)
        → HasNoPorts v }
{}

/// Law: an offered packet arrives. Where it went, the device took its frame, which another host of the same medium reads, whatever
/// padding follows, as the packet with the host's next identification, in its canonical form; and after its header what was sent
/// there.
pub fn offered_packets_arrive<D: Device>()
    ensures whole { (old new : D) (i i' : InnerValue) (l l' : Option LeftValue) (busy : Bool) (p : PacketValue) (to : HardwareAddress) (reader : Reader)
        → HasWidths i
        → IsOffered p
        → plan_of i busy p.header ≡ Way.Go to
        → IsTransmitted D.moves old i l p (plan_of i busy p.header) Outcome.Gone new i' l'
        → CanRead i to reader
        → Arrives D.moves old i (Whole to (numbered i p)) reader new }
    ensures carried { (i : InnerValue) (busy : Bool) (p : PacketValue) (to : HardwareAddress) (reader : Reader)
        → HasWidths i
        → IsOffered p
        → plan_of i busy p.header ≡ Way.Go to
        → CanRead i to reader
        → CanBeRead p.header p.payload
        → IsCarriedTo i (numbered i p) reader }
{}

/// Law: the fragments of an offered packet that is too long arrive, the first one as it is cut and the others in turn, each at its
/// slot in the payload, with the datagram's identification, and whether more follow.
pub fn fragments_arrive<D: Device>()
    ensures first { (old new : D) (i i' : InnerValue) (l l' : Option LeftValue) (busy : Bool) (p : PacketValue) (to : HardwareAddress)
        (reader : Reader)
        → HasWidths i
        → IsOffered p
        → plan_of i busy p.header ≡ Way.Cut to
        → IsTransmitted D.moves old i l p (plan_of i busy p.header) Outcome.Gone new i' l'
        → CanRead i to reader
        → Arrives D.moves old i (departure_from i (cut_of i to p)) reader new }
    ensures later { (old new : D) (i : InnerValue) (l : LeftValue) (l' : Option LeftValue) (reader : Reader)
        → IsHalfSent l
        → FragmentIsTransmitted D.moves old i l true new l'
        → CanRead i l.to reader
        → Arrives D.moves old i (departure_from i l) reader new }
    ensures begun { (i : InnerValue) (busy : Bool) (p : PacketValue) (to : HardwareAddress)
        → HasWidths i
        → IsOffered p
        → plan_of i busy p.header ≡ Way.Cut to
        → IsHalfSent (cut_of i to p) }
    ensures left { (mtu : ℕ) (l : LeftValue) → IsHalfSent l → IfSome (left_after mtu l) IsHalfSent }
{}

/// Law: a question that went arrives, and so does an answer.
pub fn neighbor_queries_arrive<D: Device>()
    ensures neighbor_query { (old new : D) (i i' : InnerValue) (l l' : Option LeftValue) (busy : Bool) (p : PacketValue) (neighbor_query : NeighborQuery) (reader : Reader)
        → plan_of i busy p.header ≡ Way.Ask neighbor_query
        → IsTransmitted D.moves old i l p (plan_of i busy p.header) Outcome.Waits new i' l'
        → IsNeighborQuery neighbor_query
        → IsOnEthernet reader.hardware
        → AreSealed i.checksums reader.checksums
        → Arrives D.moves old i (Asks neighbor_query) reader new }
    ensures answer { (old new : D) (i : InnerValue) (packet : ArpRepr) (reader : Reader)
        → Departs D.moves old i (Tells packet) true new
        → Arps.IsValue packet
        → IsOnEthernet reader.hardware
        → AreSealed i.checksums reader.checksums
        → Arrives D.moves old i (Tells packet) reader new }
{}

/// Law: a host whose neighbours have hardware addresses of its medium sends to such addresses alone. So each host of that medium
/// is one that may read its frames.
pub fn frames_stay_on_the_medium()
    ensures whole { (i : InnerValue) (busy : Bool) (p : PacketValue) (to : HardwareAddress)
        → KnowsItsMedium i
        → IsIpAddress (destination_of p.header)
        → plan_of i busy p.header ≡ Way.Go to
        → IsOfMedium i.hardware to }
    ensures cut { (i : InnerValue) (busy : Bool) (p : PacketValue) (to : HardwareAddress)
        → KnowsItsMedium i
        → IsIpAddress (destination_of p.header)
        → plan_of i busy p.header ≡ Way.Cut to
        → IsOfMedium i.hardware to }
    ensures readers { (local to other : HardwareAddress) → IsOfMedium other local → IsOfMedium local to → AreOfOneMedium local to other }
{}

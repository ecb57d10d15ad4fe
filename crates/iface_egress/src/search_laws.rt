//! What follows for neighbours that are asked for on a network of many, and for packets that wait for them.
ghost use Rattle.std.specs.Prelude.{◌≡◌, ℤ, pos, ◌+ℤ◌, int_lt, Bool, true, false, List, [], ◌++◌};
ghost use Rattle.ip_wire.specs.IpAddress.{IpAddress};
ghost use Rattle.ip_wire.specs.IpRepr.{IpRepr};
ghost use Rattle.socket_context.specs.Packet.{PacketValue};
ghost use Rattle.iface_tables.specs.Inner.{InnerValue, silence_of, with_request};
ghost use Rattle.iface_tables.specs.Neighbor.{silent_time};
ghost use Rattle.iface_tables.specs.Parking.{ParkedValue};
ghost use Rattle.iface_egress.specs.Departure.{target_of};
ghost use Rattle.iface_egress.specs.Parked.{is_searched, is_segment, outcome_of, parks, waits, IsPartOf, ServesEach};
ghost use Rattle.iface_egress.specs.Plan.{plan_of};
ghost use Rattle.iface_egress.specs.Sender.{Sender};
ghost use Rattle.iface_egress.specs.declared.egress_path.Sent.{Sent};
ghost use Rattle.iface_egress.specs.declared.frame.NeighborQuery.{NeighborQuery};
ghost use Rattle.iface_egress.specs.declared.plan.Plan.{Plan};
ghost use Rattle.iface_egress.specs.declared.plan.Plan.TheVariants as Way;

use net_base::Device;

/// Law: a neighbour is asked for only where the silence that counts for it is over; and on a network of many a request begins one of a
/// second for its address.
pub fn each_is_asked_a_second_apart()
    ensures asked { (i : InnerValue) (busy : Bool) (header : IpRepr) (neighbor_query : NeighborQuery)
        → plan_of i busy header ≡ Way.Ask neighbor_query
        → int_lt i.instant (silence_of i (target_of neighbor_query)) ≡ false }
    ensures silence { (i : InnerValue) (hop : IpAddress) → i.host_requirements ≡ true
        → silence_of (with_request i hop) hop ≡ i.instant +ℤ pos silent_time }
{}

/// Law: on a network of many a packet whose next hop is searched for doesn't stand before others, but for a segment; else none is put aside.
pub fn a_search_holds_up_nobody()
    ensures many { (i : InnerValue) (p : PacketValue) (plan : Plan) (sent : Sent) → i.host_requirements ≡ true
        → is_searched plan ≡ true → is_segment p.payload ≡ false
        → waits (outcome_of (parks i p plan sent) sent) ≡ false }
    ensures few { (i : InnerValue) (p : PacketValue) (plan : Plan) (sent : Sent) → i.host_requirements ≡ false
        → parks i p plan sent ≡ false }
{}

/// Law: packets that wait keep the order in which they came, and none waits twice.
pub fn those_that_wait_keep_their_order<D: Device>()
    ensures { (packets left : List ParkedValue) (x x' : Sender D) (all : Bool)
        → ServesEach D.moves packets [] x all x' left
        → IsPartOf left packets }
{}

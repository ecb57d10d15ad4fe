//! What `==` says of the values of an interface: two are equal exactly where they are the same value.
ghost use Rattle.std.specs.Prelude.{◌≡◌, ◌↔◌, IsTrue, Some};
ghost use Rattle.std.specs.Hash as fed;
ghost use Rattle.std.specs.Ordering.{nat_cmp};
ghost use Rattle.iface_egress.specs.declared.frame.FragmentPart.{FragmentPart};

use iface_egress::{
    ArpFrame, Cut, CutHeader, FragmentPart, Left, NeighborQuery, Plan, Sent, SocketHandle,
};
use iface_tables::{
    Answer, AssemblerError, AssemblerFullError, HardwareAddrError, LinkAddress, NewError,
    NotUnicast, RouteTableFull,
};
use ip_wire::{address_laws, arp_laws, ipv4_laws, ipv6_laws};
use net_base::device_laws;
use std::hash::Hash;

/// Law: `==` says of two refusals whether they have the same reason.
pub fn refusals_are_equated()
    ensures new { (a b : NewError) → IsTrue (⟦<NewError as PartialEq>⟧.eq a b) ↔ (a ≡ b) }
    ensures hardware { (a b : HardwareAddrError) → IsTrue (⟦<HardwareAddrError as PartialEq>⟧.eq a b) ↔ (a ≡ b) }
    ensures unicast { (a b : NotUnicast) → IsTrue (⟦<NotUnicast as PartialEq>⟧.eq a b) ↔ (a ≡ b) }
    ensures full { (a b : RouteTableFull) → IsTrue (⟦<RouteTableFull as PartialEq>⟧.eq a b) ↔ (a ≡ b) }
    ensures fragments { (a b : AssemblerError) → IsTrue (⟦<AssemblerError as PartialEq>⟧.eq a b) ↔ (a ≡ b) }
    ensures assemblers { (a b : AssemblerFullError) → IsTrue (⟦<AssemblerFullError as PartialEq>⟧.eq a b) ↔ (a ≡ b) }
{}

/// Law: `==` says of what is known of a hardware address, of a neighbour or a next hop, whether it is the same.
pub fn known_addresses_are_equated()
    ensures neighbors { (a b : Answer) → IsTrue (⟦<Answer as PartialEq>⟧.eq a b) ↔ (a ≡ b) }
    ensures links { (a b : LinkAddress) → IsTrue (⟦<LinkAddress as PartialEq>⟧.eq a b) ↔ (a ≡ b) }
{
    address_laws::hardware_tests();
    address_laws::address_tests();
}

/// Law: handles are equal where their slots are, their order is that of their slots, their hashes are fed those, and the
/// default is the first place.
pub fn handles_are_slots()
    ensures equal { (a b : SocketHandle) → IsTrue (⟦<SocketHandle as PartialEq>⟧.eq a b) ↔ (a ≡ b) }
    ensures order { (a b : SocketHandle) → ⟦<SocketHandle as Ord>⟧.cmp a b ≡ nat_cmp a.0 b.0 }
    ensures partial_order { (a b : SocketHandle) → ⟦<SocketHandle as PartialOrd>⟧.partial_cmp a b ≡ Some (nat_cmp a.0 b.0) }
    ensures hashed { (a : SocketHandle) → ⟦<SocketHandle as Hash>⟧.hash_input a ≡ fed.usize a.0 }
    ensures first { (a : SocketHandle) → ⟦<SocketHandle as Default>⟧.is_default a → a.0 ≡ 0 }
{}

/// Law: `==` says of what became of two packets, of two plans and of two questions whether they are the same.
pub fn plans_are_equated()
    ensures sent { (a b : Sent) → IsTrue (⟦<Sent as PartialEq>⟧.eq a b) ↔ (a ≡ b) }
    ensures questions { (a b : NeighborQuery) → IsTrue (⟦<NeighborQuery as PartialEq>⟧.eq a b) ↔ (a ≡ b) }
    ensures plans { (a b : Plan) → IsTrue (⟦<Plan as PartialEq>⟧.eq a b) ↔ (a ≡ b) }
{
    address_laws::hardware_tests();
}

/// Law: `==` says of two frames with ARP packets, of how two datagrams are cut, of their headers, and of what is left of them,
/// whether they are the same.
pub fn cuts_are_equated()
    ensures arp { (a b : ArpFrame) → IsTrue (⟦<ArpFrame as PartialEq>⟧.eq a b) ↔ (a ≡ b) }
    ensures cuts { (a b : Cut) → IsTrue (⟦<Cut as PartialEq>⟧.eq a b) ↔ (a ≡ b) }
    ensures headers { (a b : CutHeader) → IsTrue (⟦<CutHeader as PartialEq>⟧.eq a b) ↔ (a ≡ b) }
    ensures left { (a b : Left) → IsTrue (⟦<Left as PartialEq>⟧.eq a b) ↔ (a ≡ b) }
{
    address_laws::hardware_tests();
    arp_laws::arp_equal();
    ipv4_laws::ipv4_equal();
    ipv6_laws::ipv6_equal();
    device_laws::capabilities_are_equated();
}

/// Law: `==` says of two frames that carry a fragment whether they go between the same addresses and carry the same,
/// with the same checksums.
pub fn frames_are_equated<'a>()
    ensures fragment { (a b : FragmentPart) → IsTrue (⟦<FragmentPart<'a> as PartialEq>⟧.eq a b)
        ↔ ((a.from ≡ b.from) × ((a.to ≡ b.to) × ((a.header ≡ b.header) × ((a.offset ≡ b.offset) × ((a.more ≡ b.more)
        × ((a.bytes.now ≡ b.bytes.now) × (a.checksums ≡ b.checksums))))))) }
{
    address_laws::hardware_tests();
    ipv4_laws::ipv4_equal();
    ipv6_laws::ipv6_equal();
    device_laws::capabilities_are_equated();
}

//! Values of `control_wire`, by its own path: what their comparisons mean.
ghost use Rattle.std.specs.Prelude.{◌≡◌, ◌↔◌, IsTrue};
ghost use Rattle.wire_address.specs.Order.{Agree};
ghost use Rattle.control_wire.specs.Icmpv4.{header_of, payload_of};
ghost use Rattle.control_wire.specs.Icmpv4Header.{Icmpv4Header};
ghost use Rattle.control_wire.specs.Icmpv4Repr.{Icmpv4Repr};
ghost use Rattle.control_wire.specs.Icmpv6 as Six;
ghost use Rattle.control_wire.specs.Icmpv6Header.{Icmpv6Header};
ghost use Rattle.control_wire.specs.Icmpv6Repr.{Icmpv6Repr};
ghost use Rattle.control_wire.specs.Ndisc.{neighbor_message};
ghost use Rattle.control_wire.specs.NdiscRepr.{NdiscRepr};

use control_wire::{
    Icmpv4DstUnreachable, Icmpv4Header, Icmpv4Message, Icmpv4Repr, Icmpv4TimeExceeded,
    Icmpv6DstUnreachable, Icmpv6Header, Icmpv6Message, Icmpv6ParamProblem, Icmpv6Repr,
    Icmpv6TimeExceeded, NdiscNeighborFlags, NdiscRepr, icmpv4_laws, icmpv6_laws,
};
use ip_wire::address_laws::{Comparison, compare};

/// Law: `==` of messages under the names that the crate passes on says whether they have the same value.
pub fn messages_are_equated<'a>()
    ensures icmpv4_header { (a b : Icmpv4Header) → IsTrue (⟦<Icmpv4Header as PartialEq>⟧.eq a b) ↔ (a ≡ b) }
    ensures icmpv4 { (a b : Icmpv4Repr) → IsTrue (⟦<Icmpv4Repr<'a> as PartialEq>⟧.eq a b)
        ↔ ((header_of a ≡ header_of b) × (payload_of a ≡ payload_of b)) }
    ensures neighbor { (a b : NdiscRepr) → IsTrue (⟦<NdiscRepr as PartialEq>⟧.eq a b)
        ↔ (neighbor_message a ≡ neighbor_message b) }
    ensures icmpv6_header { (a b : Icmpv6Header) → IsTrue (⟦<Icmpv6Header as PartialEq>⟧.eq a b)
        ↔ (Six.value_of a ≡ Six.value_of b) }
    ensures icmpv6 { (a b : Icmpv6Repr) → IsTrue (⟦<Icmpv6Repr<'a> as PartialEq>⟧.eq a b)
        ↔ ((Six.value_of (Six.header_of a) ≡ Six.value_of (Six.header_of b)) × (Six.carried_by a ≡ Six.carried_by b)) }
{
    icmpv4_laws::icmpv4_messages_equated();
    icmpv6_laws::icmpv6_messages_equated();
}

/// Compares types of ICMPv4: a known number by its variant and as `Unknown` are two values.
pub fn compare_icmpv4_messages(a: &Icmpv4Message, b: &Icmpv4Message) -> Comparison
    ensures { Agree a.now b.now result }
{
    compare(a, b)
}

/// Compares why a destination of IPv4 can't be reached.
pub fn compare_icmpv4_unreachable(a: &Icmpv4DstUnreachable, b: &Icmpv4DstUnreachable) -> Comparison
    ensures { Agree a.now b.now result }
{
    compare(a, b)
}

/// Compares which time was exceeded over IPv4.
pub fn compare_icmpv4_exceeded(a: &Icmpv4TimeExceeded, b: &Icmpv4TimeExceeded) -> Comparison
    ensures { Agree a.now b.now result }
{
    compare(a, b)
}

/// Compares types of ICMPv6.
pub fn compare_icmpv6_messages(a: &Icmpv6Message, b: &Icmpv6Message) -> Comparison
    ensures { Agree a.now b.now result }
{
    compare(a, b)
}

/// Compares why a destination of IPv6 can't be reached.
pub fn compare_icmpv6_unreachable(a: &Icmpv6DstUnreachable, b: &Icmpv6DstUnreachable) -> Comparison
    ensures { Agree a.now b.now result }
{
    compare(a, b)
}

/// Compares which time was exceeded over IPv6.
pub fn compare_icmpv6_exceeded(a: &Icmpv6TimeExceeded, b: &Icmpv6TimeExceeded) -> Comparison
    ensures { Agree a.now b.now result }
{
    compare(a, b)
}

/// Compares what is wrong with a packet.
pub fn compare_icmpv6_problems(a: &Icmpv6ParamProblem, b: &Icmpv6ParamProblem) -> Comparison
    ensures { Agree a.now b.now result }
{
    compare(a, b)
}

/// Compares the flags of neighbour advertisements.
pub fn compare_neighbor_flags(a: &NdiscNeighborFlags, b: &NdiscNeighborFlags) -> Comparison
    ensures { Agree a.now b.now result }
{
    compare(a, b)
}

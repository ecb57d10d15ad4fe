//! Laws of the rules.

ghost use Rattle.std.specs.Prelude.{◌≡◌, ◌+◌, ◌^◌, ◌≤◌, ℕ, true, false};
ghost use Rattle.ip_wire.specs.Ipv4Address.{Ipv4Address};
ghost use Rattle.ip_wire.specs.Ipv6Address.{Ipv6Address};
ghost use Rattle.ip_wire.specs.SeqNumber.{SeqNumber};
ghost use Rattle.tcp_state.specs.Context.{ContextValue};
ghost use Rattle.tcp_state.specs.Offers.{IsBefore, offered_as};
ghost use Rattle.tcp_state.specs.Offer.TheVariants as Answer;
ghost use Rattle.tcp_ranges.specs.Numbers.{wire, nearest};
ghost use Rattle.tcp_state.specs.Endpoints.{ip_header_len};
ghost use Rattle.tcp_state.specs.declared.endpoints.AddressPair.TheVariants as Pair;
ghost use Rattle.tcp_state.specs.declared.endpoints.FourTuple.{FourTuple};
ghost use Rattle.tcp_block.specs.Due.{poll_open, poll_of};
ghost use Rattle.tcp_block.specs.Offers.{offer_of};
ghost use Rattle.tcp_block.specs.Opening.{mss_over};
ghost use Rattle.tcp_state.specs.Offsets.{distance_after, distance_before};
ghost use Rattle.tcp_block.specs.Quiet.{IsQuiet};
ghost use Rattle.tcp_block.specs.Settled.{settled};
ghost use Rattle.tcp_block.specs.Value.{TcpValue};

/// Silence: before the due instant an offer is silent and changes nothing but an open offer, so the due instant stays the same at each
/// later instant before it; and it depends on nothing of the context but the longest packet.
#[tactic(auto, using(crate::proofs::Waits::silence, crate::proofs::Waits::silence_stays))]
pub fn nothing_is_offered_before_the_due_instant()
    ensures silent { (cx : ContextValue) (v : TcpValue) → IsBefore cx.instant (poll_of cx.ip_mtu v)
        → offer_of cx v ≡ offered_as (Answer.Silent false) (settled false v) }
    ensures stays { (cx : ContextValue) (v : TcpValue) → IsBefore cx.instant (poll_of cx.ip_mtu v)
        → poll_of cx.ip_mtu (offer_of cx v).socket ≡ poll_of cx.ip_mtu v }
{}

/// And the due instant comes no earlier than that: an offer that is silent and changes nothing but an open offer comes before it. So it
/// is the first instant at which an offer does anything.
#[tactic(auto, using(crate::proofs::Idle::idle))]
pub fn something_is_done_at_the_due_instant()
    ensures idle { (cx : ContextValue) (v : TcpValue) → offer_of cx v ≡ offered_as (Answer.Silent false) (settled false v)
        → IsBefore cx.instant (poll_of cx.ip_mtu v) }
{}

/// Of each rule: before the due instant it doesn't apply, and it sets no instant.
#[tactic(auto, using(crate::proofs::Waits::is_quiet))]
pub fn no_rule_applies_before_the_due_instant()
    ensures quiet { (cx : ContextValue) (v : TcpValue) (pair : FourTuple)
        → IsBefore cx.instant (poll_open cx.ip_mtu v pair) → IsQuiet cx v pair }
{}

/// What the definitions read of a number, so far past the reference or so far before it, is the position nearest to the reference,
/// whatever positions have these numbers.
#[tactic(auto, using(crate::proofs::Positions::offsets_nearest))]
pub fn offsets_are_positions()
    ensures positions { (r : ℕ) (reference number : SeqNumber) → 2 ^ 31 ≤ r → reference.0 ≡ wire r
        → nearest r number.0 + distance_before reference number ≡ r + distance_after reference number }
{}

/// A remote that names no segment size takes what its headers leave of a packet that each host takes: of 576 bytes over IPv4 and of 1,280 over
/// IPv6 (RFC 9293, 3.7.1).
pub fn no_default_segment_is_longer_than_each_host_takes()
    ensures v4 { (local remote : Ipv4Address) → mss_over (Pair.Ipv4 local remote) + (ip_header_len (Pair.Ipv4 local remote) + 20) ≡ 576 }
    ensures v6 { (local remote : Ipv6Address) → mss_over (Pair.Ipv6 local remote) + (ip_header_len (Pair.Ipv6 local remote) + 20) ≡ 1280 }
{}

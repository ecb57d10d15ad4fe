//! Laws of the client.
ghost use Rattle.std.specs.Prelude.{◌≡◌, ℕ, ℤ, List, Option, Bool, true, false};
ghost use Rattle.ip_wire.specs.IpAddress.{IpAddress};
ghost use Rattle.ip_wire.specs.IpRepr.{IpRepr};
ghost use Rattle.ip_wire.specs.UdpRepr.{UdpRepr};
ghost use Rattle.socket_context.specs.Context.{ContextValue};
ghost use Rattle.socket_context.specs.Offers.{IsBefore};
ghost use Rattle.socket_context.specs.declared.offer.Offer.{Offer};
ghost use Rattle.socket_context.specs.declared.offer.Offer.TheVariants as Answer;
ghost use Rattle.socket_datagram.specs.DnsClient.Laws.{AreGiven, AreDenied};
ghost use Rattle.socket_datagram.specs.DnsClient.Offers.{Offers};
ghost use Rattle.socket_datagram.specs.DnsClient.Processed.{Processed};
ghost use Rattle.socket_datagram.specs.DnsClient.Turns.{poll_of};
ghost use Rattle.socket_datagram.specs.DnsClient.Value.{DnsValue, settled};
ghost use Rattle.socket_datagram.specs.declared.dns.state.State.TheVariants.{Completed, Failed};

/// Law: addresses come from the answer to the client's query alone, and belong to the name that it asked for.
pub fn addresses_are_given()
    ensures { (now : ℤ) (v v' : DnsValue) (ip : IpRepr) (repr : UdpRepr) (payload : List ℕ)
        → Processed now v ip repr payload v'
        → AreGiven v ip repr payload v' }
{}

/// Law: under the host requirements a query fails by a whole answer of the server that was asked alone, which says that there is no such
/// name, or no address: not by a refusal, and not by silence.
pub fn failures_are_given()
    ensures arrived { (now : ℤ) (v v' : DnsValue) (ip : IpRepr) (repr : UdpRepr) (payload : List ℕ)
        → Processed now v ip repr payload v'
        → AreDenied v ip repr payload v' }
    ensures offered { (cx : ContextValue) (v v' : DnsValue) (answer : Offer)
        → v.host_requirements ≡ true
        → Offers cx v answer v'
        → v'.state ≡ Failed
        → v.state ≡ Failed }
{}

/// Law: no offer gives addresses, and settling one, either way, gives none.
pub fn offers_give_no_addresses()
    ensures offered { (cx : ContextValue) (v v' : DnsValue) (answer : Offer) (found : List (Option IpAddress))
        → Offers cx v answer v'
        → v'.state ≡ Completed found
        → v.state ≡ Completed found }
    ensures settled { (v : DnsValue) (sent : Bool) (found : List (Option IpAddress))
        → (settled sent v).state ≡ Completed found
        → v.state ≡ Completed found }
{}

/// Law: where the client doesn't want to be polled at an instant yet, an offer at that instant is silent and changes nothing, but
/// that an open offer is settled as not sent.
pub fn silence()
    ensures { (cx : ContextValue) (v v' : DnsValue) (answer : Offer) → IsBefore cx.instant (poll_of v.state)
        → Offers cx v answer v'
        → (answer ≡ Answer.Silent false) × (v' ≡ settled false v) }
{}

/// Law: what a datagram leaves is determined.
pub fn one_arrival()
    ensures { (now : ℤ) (v left right : DnsValue) (ip : IpRepr) (repr : UdpRepr) (payload : List ℕ)
        → Processed now v ip repr payload left
        → Processed now v ip repr payload right
        → left ≡ right }
{}

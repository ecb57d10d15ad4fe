//! Laws of the client.
ghost use Rattle.std.specs.Prelude.{◌≡◌, ◌⊎◌, ◌≤ℤ◌, ◌<ℤ◌, ◌+ℤ◌, pos, ℤ, ℕ, List, Bool, true, false, Some};
ghost use Rattle.ip_wire.specs.IpRepr.{IpRepr};
ghost use Rattle.ip_wire.specs.UdpRepr.{UdpRepr};
ghost use Rattle.socket_context.specs.Context.{ContextValue};
ghost use Rattle.socket_context.specs.Offers.{IsBefore};
ghost use Rattle.socket_context.specs.declared.offer.Offer.{Offer};
ghost use Rattle.socket_context.specs.declared.offer.Offer.TheVariants as Answer;
ghost use Rattle.socket_datagram.specs.DhcpClient.Answers.{Processed};
ghost use Rattle.socket_datagram.specs.DhcpClient.Events.{event_of, initial};
ghost use Rattle.socket_datagram.specs.DhcpClient.Laws.{IsGiven, IsKept, Comes, IsFirstRequest};
ghost use Rattle.socket_datagram.specs.DhcpClient.Offers.{Offers};
ghost use Rattle.socket_datagram.specs.DhcpClient.States.{lease_of, poll_of};
ghost use Rattle.socket_datagram.specs.DhcpClient.Value.{DhcpValue, begun, settled};
ghost use Rattle.socket_datagram.specs.declared.dhcpv4.config.Config.{Config};
ghost use Rattle.socket_datagram.specs.declared.dhcpv4.config.Event.TheVariants as Told;
ghost use Rattle.socket_datagram.specs.declared.dhcpv4.lease.Lease.{Lease};

/// Law: where the client doesn't want to be polled at an instant yet, an offer at that instant is silent and changes nothing, but
/// that an open offer is settled as not sent.
pub fn silence()
    ensures { (cx : ContextValue) (v v' : DhcpValue) (answer : Offer) → IsBefore cx.instant (poll_of v.state)
        → Offers cx v answer v'
        → (answer ≡ Answer.Silent false) × (v' ≡ settled false v) }
{}

/// Law: a lease comes from an acknowledgement of the client's request alone, and is of an address that a host can have.
pub fn leases_are_given()
    ensures { (now : ℤ) (v v' : DhcpValue) (ip : IpRepr) (repr : UdpRepr) (payload : List ℕ)
        → Processed now v ip repr payload v'
        → IsGiven now v ip repr payload v' }
{}

/// Law: an offer, and what becomes of it, give no lease; where it is settled either way, the lease is the same.
pub fn offers_give_no_lease()
    ensures offered { (cx : ContextValue) (v v' : DhcpValue) (answer : Offer) → Offers cx v answer v' → IsKept v v' }
    ensures settled { (cx : ContextValue) (v v' : DhcpValue) (answer : Offer) (sent : Bool)
        → Offers cx v answer v'
        → lease_of (settled sent v').state ≡ lease_of v'.state }
{}

/// Law: at its end a lease is given up, by an offer and by a call for what happened.
pub fn leases_end()
    ensures offered { (cx : ContextValue) (v v' : DhcpValue) (answer : Offer) (lease : Lease)
        → lease_of v.state ≡ Some lease
        → lease.expires_at ≤ℤ cx.instant
        → Offers cx v answer v'
        → v' ≡ begun v }
    ensures told { (now : ℤ) (v : DhcpValue) (lease : Lease)
        → lease_of v.state ≡ Some lease
        → lease.expires_at ≤ℤ now
        → event_of (initial now v) ≡ Some Told.Deconfigured }
{}

/// Law: under the host requirements at least a second lies between two messages of a client, whatever comes between, but before the first
/// request for an offer.
pub fn messages_are_apart()
    ensures { (cx later : ContextValue) (v v' w w' : DhcpValue)
        → v.settings.host_requirements ≡ true
        → Offers cx v (Answer.Packet false) v'
        → Comes cx.instant (settled true v') w
        → Offers later w (Answer.Packet false) w'
        → ((cx.instant +ℤ pos 1_000_000) ≤ℤ later.instant) ⊎ IsFirstRequest w.state }
{}

/// Law: what is told as configured is a lease that isn't over at that instant.
pub fn told_leases_last()
    ensures { (now : ℤ) (v : DhcpValue) (config : Config)
        → event_of (initial now v) ≡ Some (Told.Configured config)
        → (lease : Lease) × (lease_of v.state ≡ Some lease) × (lease.config ≡ config) × (now <ℤ lease.expires_at) }
{}

/// Law: what a datagram leaves is determined.
pub fn one_arrival()
    ensures { (now : ℤ) (v left right : DhcpValue) (ip : IpRepr) (repr : UdpRepr) (payload : List ℕ)
        → Processed now v ip repr payload left
        → Processed now v ip repr payload right
        → left ≡ right }
{}

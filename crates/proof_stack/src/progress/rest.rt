//! A socket that was silent is done for the instant.

ghost use Rattle.std.specs.Prelude.{◌≡◌, false};
ghost use Rattle.iface_ingress.specs.Context.{ContextValue};
ghost use Rattle.iface_ingress.specs.Offer.TheVariants as Offer;
ghost use Rattle.iface_ingress.specs.Polling.{IsBefore};
ghost use Rattle.iface_ingress.specs.Socket.{Socket};
ghost use Rattle.iface_ingress.specs.Sockets.{Offers, poll_of};
ghost use Rattle.proof_stack.specs.Progress.Patience.{IsPatient};

/// Law: a socket that offers nothing and says that nothing changed doesn't want to be polled any more at that instant: it wants that later, or
/// once a packet comes. (The silence law says the other way round that a socket which doesn't want to be polled yet is silent.)
pub fn a_silent_socket_rests()
    ensures { (cx : ContextValue) (s s' : Socket) → IsPatient s → Offers cx s (Offer.Silent false) s' → IsBefore cx.instant (poll_of cx s') }
{}

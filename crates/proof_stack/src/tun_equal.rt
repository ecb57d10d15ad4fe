//! What `==` says of the values of a host over a reader and a writer, and of its services: two are equal exactly where they are
//! the same value.
ghost use Rattle.std.specs.Prelude.{◌≡◌, ◌↔◌, IsTrue};
ghost use Rattle.app_tun_services.specs.contracts.slot.ServicePartialEq.TheImpl as Services;
ghost use Rattle.app_tun_services.specs.declared.slot.Service.{Service};

use app_tun_services::link::TurnError;
use app_tun_services::{ServeError, Verdict};

/// Law: `==` says of why two turns aren't taken, of why two hosts ended, and of two verdicts on requests whether they are the
/// same.
pub fn errors_are_equated()
    ensures turns { (a b : TurnError) → IsTrue (⟦<TurnError as PartialEq>⟧.eq a b) ↔ (a ≡ b) }
    ensures ends { (a b : ServeError) → IsTrue (⟦<ServeError as PartialEq>⟧.eq a b) ↔ (a ≡ b) }
    ensures verdicts { (a b : Verdict) → IsTrue (⟦<Verdict as PartialEq>⟧.eq a b) ↔ (a ≡ b) }
{}

/// Law: `==` says of what two sockets are for whether it is the same.
pub fn services_are_equated()
    ensures { (a b : Service) → IsTrue (Services.ghosts.eq a b) ↔ (a ≡ b) }
{}

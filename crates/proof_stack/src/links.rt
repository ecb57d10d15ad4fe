//! Of the link of `app_tun_services`, and of its services.
ghost use Rattle.std.specs.Prelude.{◌≡◌, ◌↔◌, IsTrue};
ghost use Rattle.app_tun_services.specs.declared.request.Verdict.{Verdict};
ghost use Rattle.app_tun_services.specs.declared.link.turn.TurnError.{TurnError};

use app_tun_services::Verdict;
use app_tun_services::link::{HEAD_LEN, TurnError};

/// Law: `==` says of two verdicts, and of two reasons why a turn isn't taken, whether they are the same.
pub fn answers_are_equated()
    ensures verdict { (a b : Verdict) → IsTrue (⟦<Verdict as PartialEq>⟧.eq a b) ↔ (a ≡ b) }
    ensures turn { (a b : TurnError) → IsTrue (⟦<TurnError as PartialEq>⟧.eq a b) ↔ (a ≡ b) }
{}

/// Law: before a turn's packet stand its length, two bytes, and the instant, eight.
pub fn constants()
    ensures { HEAD_LEN ≡ 10 }
{}

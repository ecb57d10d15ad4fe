//! What sockets offer, by the path of `socket_context`.
ghost use Rattle.std.specs.Prelude.{◌≡◌, Bool};
ghost use Rattle.socket_context.specs.declared.offer.Offer.{Offer};
ghost use Rattle.socket_context.specs.declared.poll_at.PollAt.{PollAt};

use socket_context::{Offer, PollAt};

/// Law: a clone is the value.
pub fn clones()
    ensures offers { (a b : Offer) → ⟦<Offer as Clone>⟧.is_clone a b → b ≡ a }
    ensures due { (a b : PollAt) → ⟦<PollAt as Clone>⟧.is_clone a b → b ≡ a }
{}

//! The device between a reader and a writer as that of an interface.
ghost use Rattle.std.specs.Prelude.{◌≡◌, ℕ, ℤ, Bool};
ghost use Rattle.interface.specs.Polls.{Polls};
ghost use Rattle.interface.specs.State.{State};
ghost use Rattle.app_tun_services.specs.Link.Drain.{DrainValue, DrainMove};

use sockets::laws::one_offer;

/// Law: a poll at a drain that refuses no packet, for lack of memory, has one end.
pub fn polls_at_drains_have_one_end()
    ensures { (t : ℤ) (budget : ℕ) (s left right : State DrainValue) (changed other : Bool)
        → left.device.refusals ≡ s.device.refusals
        → right.device.refusals ≡ s.device.refusals
        → Polls DrainMove t budget s changed left
        → Polls DrainMove t budget s other right
        → (left ≡ right) × (changed ≡ other) }
{
    one_offer();
}

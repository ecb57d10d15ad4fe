//! Polls are of use.

ghost use Rattle.std.specs.Prelude.{◌≡◌, ℕ, ◌≤◌, ℤ, false};
ghost use Rattle.iface_tables.specs.Inner.{at_instant};
ghost use Rattle.interface.specs.Instant.{poll_instant};
ghost use Rattle.interface.specs.Polls.{Polls};
ghost use Rattle.interface.specs.State.{State};
ghost use Rattle.proof_stack.specs.Progress.OfUse.{IsOfUse, IsDue, Acts, ActsOrDrops};
ghost use Rattle.proof_stack.specs.Progress.Patience.{ArePatient};

use net_base::Device;

/// Law: where a poll of at least one step says that no socket and no queue changed, a frame went, or the device refused (it gave no leave to
/// send, or took no frame), or the host wants to be polled later than at that instant: whoever polls whenever a host wants it never goes round
/// for nothing. And where the host wanted to be polled at that instant or before, such a poll sends, is refused, or leaves some socket, its
/// offer or its mark other than it was; with host requirements it may drop packets that waited for their next hops, too. No socket has a user
/// timeout of 0.
pub fn polls_are_of_use<D: Device>()
    ensures rests { (t : ℤ) (budget : ℕ) (s s' : State D)
        → 1 ≤ budget
        → ArePatient s.slots
        → Polls D.moves t budget s false s'
        → IsOfUse D.moves t s.device s'.device (poll_instant s'.host.inner s'.host.left s'.slots) }
    ensures acts { (t : ℤ) (budget : ℕ) (s s' : State D)
        → s.host.inner.host_requirements ≡ false
        → 1 ≤ budget
        → ArePatient s.slots
        → IsDue t (poll_instant (at_instant t s.host.inner) s.host.left s.slots)
        → Polls D.moves t budget s false s'
        → Acts D.moves s.device s'.device s.slots s'.slots }
    ensures drops { (t : ℤ) (budget : ℕ) (s s' : State D)
        → 1 ≤ budget
        → ArePatient s.slots
        → IsDue t (poll_instant (at_instant t s.host.inner) s.host.left s.slots)
        → Polls D.moves t budget s false s'
        → ActsOrDrops D.moves s s' }
{}

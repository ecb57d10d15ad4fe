//! A simulated link's port as the device of an interface: its moves are determined.
ghost use Rattle.std.specs.Prelude.{◌≡◌, ◌-◌, ℕ, ℤ, Bool, ◌<◌, ◌≤◌, List, length};
ghost use Rattle.sim_link.specs.Device.{Emitted, Denied};
ghost use Rattle.lan.specs.Worlds.AtLink.Port.{PortValue, PortMove};
ghost use Rattle.lan.specs.Worlds.AtLink.Determined.{IsDetermined};
ghost use Rattle.interface.specs.Polls.{Polls};
ghost use Rattle.interface.specs.State.{State};

use sockets::laws::one_offer;

/// Law: each move of a port is determined while a buffer lies ready that fits the longest frame. Such a port refuses no frame, and
/// a frame that it takes costs one of its ready buffers at most.
pub fn ports_are_determined()
    ensures determined { (port : PortValue) (longest : ℕ) → 0 < port.ready → longest ≤ port.size
        → IsDetermined PortMove longest port }
    ensures takes { (port new : PortValue) (len : ℕ) → 0 < port.ready → len ≤ port.size
        → PortMove port (Denied len) new → ⊥ }
    ensures ready { (port new : PortValue) (frame : List ℕ) → PortMove port (Emitted frame) new
        → (port.ready - 1 ≤ new.ready) × (new.size ≡ port.size) }
{}

/// Law: a poll at a port that refuses no frame has one end, however many buffers lie ready.
pub fn polls_at_ports_have_one_end()
    ensures { (t : ℤ) (budget : ℕ) (s left right : State PortValue) (changed other : Bool)
        → left.device.link.refusals ≡ s.device.link.refusals
        → right.device.link.refusals ≡ s.device.link.refusals
        → Polls PortMove t budget s changed left
        → Polls PortMove t budget s other right
        → (left ≡ right) × (changed ≡ other) }
{
    one_offer();
}

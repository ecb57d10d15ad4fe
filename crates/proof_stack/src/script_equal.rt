//! What `==` says of what a script's lines name: two are equal exactly where they are the same value.
ghost use Rattle.std.specs.Prelude.{◌≡◌, ◌↔◌, IsTrue};

use sim_link::{QueueSizes, Side, SocketSpec, StreamSizes};

/// Law: `==` says of two sides, sizes and sockets that are asked for whether they are the same.
pub fn sockets_are_equated()
    ensures sides { (a b : Side) → IsTrue (⟦<Side as PartialEq>⟧.eq a b) ↔ (a ≡ b) }
    ensures queues { (a b : QueueSizes) → IsTrue (⟦<QueueSizes as PartialEq>⟧.eq a b) ↔ (a ≡ b) }
    ensures streams { (a b : StreamSizes) → IsTrue (⟦<StreamSizes as PartialEq>⟧.eq a b) ↔ (a ≡ b) }
    ensures sockets { (a b : SocketSpec) → IsTrue (⟦<SocketSpec as PartialEq>⟧.eq a b) ↔ (a ≡ b) }
{}

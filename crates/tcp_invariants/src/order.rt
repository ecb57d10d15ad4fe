//! Each socket that events lead to is in order.

ghost use Rattle.std.specs.Prelude.{ℕ, List};
ghost use Rattle.net_base.specs.Ring.{Ring};
ghost use Rattle.tcp_block.specs.Value.{TcpValue, new_socket};
ghost use Rattle.tcp_invariants.specs.Events.{Event, led};
ghost use Rattle.tcp_invariants.specs.InOrder.{IsInOrder, sending_of};

/// Whatever comes, however it is asked and whatever its user calls: a new socket is led to states alone that are in order, and so is
/// one that was.
pub fn every_socket_is_in_order()
    ensures new { (capacity : ℕ) (queued : Ring ℕ) (events : List Event) → IsInOrder (sending_of (led (new_socket capacity queued) events)) }
    ensures led { (v : TcpValue) (events : List Event) → IsInOrder (sending_of v) → IsInOrder (sending_of (led v events)) }
{}

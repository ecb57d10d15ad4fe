//! The right edge of the window that a socket announces.

ghost use Rattle.std.specs.Prelude.{ℕ, ◌≤◌, ◌^◌, List};
ghost use Rattle.net_base.specs.Ring.{Ring};
ghost use Rattle.tcp_block.specs.Value.{new_socket};
ghost use Rattle.tcp_invariants.specs.RcvAdvMoves.{MovesFar};
ghost use Rattle.tcp_invariants.specs.Edges.{KeepEdges};
ghost use Rattle.tcp_invariants.specs.Events.{Event};

/// Of all segments that a socket sends within a connection, whatever comes, however it is asked and whatever its user calls, none
/// announces a right edge left of one that was announced before, but by less than a unit of its window field: roundings don't add up.
pub fn an_announced_rcv_adv_stays()
    ensures edges { (capacity : ℕ) (queued : Ring ℕ) (events : List Event) → capacity ≤ 2 ^ 30 → KeepEdges (new_socket capacity queued) 0 events }
{}

/// While something waits to be read, the right edge that a socket's segments tell moves right within a connection only by half of the
/// buffer or by the payload that its own SYN named, whatever comes, however it is asked and whatever its user calls: no small window is
/// announced bit by bit. There is an edge that moves so, and each segment tells it as its field can, rounded down.
pub fn an_announced_rcv_adv_moves_far()
    ensures moves { (capacity : ℕ) (queued : Ring ℕ) (events : List Event) → capacity ≤ 2 ^ 30 → MovesFar (new_socket capacity queued) 0 0 events }
{}

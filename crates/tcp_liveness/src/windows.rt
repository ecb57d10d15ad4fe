//! That each side keeps to the other's window.

ghost use Rattle.std.specs.Prelude.{◌≡◌, ℕ, ◌+◌, ◌≤◌, true, false, Some};
ghost use Rattle.ip_wire.specs.Seq.{distance_of};
ghost use Rattle.tcp_invariants.specs.FourTuple.{FourTuple};
ghost use Rattle.tcp_invariants.specs.Ends.{Proceeds};
ghost use Rattle.tcp_invariants.specs.States.{is_closed};
ghost use Rattle.tcp_refinement.specs.Context.{ContextValue};
ghost use Rattle.tcp_refinement.specs.PollAt.TheVariants as At;
ghost use Rattle.tcp_block.specs.Due.{poll_of};
ghost use Rattle.tcp_block.specs.Offers.{offer_of};
ghost use Rattle.tcp_refinement.specs.Pair.Sides.{at, other};
ghost use Rattle.tcp_block.specs.Value.{TcpValue, room_of};
ghost use Rattle.tcp_refinement.specs.Pair.Values.{PairValue};
ghost use Rattle.tcp_refinement.specs.declared.pair.event.Side.{Side};
ghost use Rattle.tcp_liveness.specs.Arrivals.{is_synchronized};
ghost use Rattle.tcp_liveness.specs.Exchange.{IsOpen};
ghost use Rattle.tcp_liveness.specs.Pair.{socket_of};
ghost use Rattle.tcp_liveness.specs.Reached.{IsReached};
ghost use Rattle.tcp_liveness.specs.Windows.{HasTold, KeepsToWindow, OwesUpdate, TellsSpace};

/// Whatever happened to two sockets: no segment of a side announces more than its receive buffer holds; and the other sends no further past
/// SND.UNA than that buffer reaches, but for a byte that probes it, the SYN and the FIN. So what a side took, past all that the other knows
/// of, is no longer than its buffer, a SYN and a FIN.
pub fn a_side_keeps_to_the_windows()
    ensures told { (p : PairValue) (side : Side) → IsReached p → HasTold (at p.sides side) }
    ensures keeps { (p : PairValue) (side : Side) → IsReached p → KeepsToWindow (socket_of p side) (socket_of p (other side)) }
    ensures near { (p : PairValue) (side : Side) → IsReached p → IsOpen (socket_of p side).tcb
        → is_synchronized (socket_of p (other side)).tcb.state ≡ true → 1 ≤ room_of (socket_of p (other side)).received
        → distance_of (socket_of p side).tcb.sender.una (socket_of p (other side)).tcb.receiver.next
        ≤ room_of (socket_of p (other side)).received + 2 }
{}

/// Space that came free and is worth telling is told: a socket whose connection lasts wants to be asked at once, and then whatever goes
/// tells all of it.
pub fn space_that_is_worth_telling_is_told()
    ensures asks { (ip_mtu : ℕ) (v : TcpValue) (pair : FourTuple) → v.tcb.names.pair ≡ Some pair → is_closed v.tcb.state ≡ false
        → OwesUpdate v → poll_of ip_mtu v ≡ At.Now }
    ensures tells { (cx : ContextValue) (v : TcpValue) (pair : FourTuple) → v.tcb.names.pair ≡ Some pair → Proceeds cx v → OwesUpdate v
        → TellsSpace v (offer_of cx v).socket }
{}

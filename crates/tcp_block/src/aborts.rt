//! Laws of the reset that a socket owes its remote.

ghost use Rattle.std.specs.Prelude.{◌≡◌, ℕ, ℤ, Bool, true, false, List, Option, Some, None, IfSome, is_some};
ghost use Rattle.ip_wire.specs.IpRepr.{IpRepr};
ghost use Rattle.ip_wire.specs.TcpHeader.{TcpHeader};
ghost use Rattle.tcp_state.specs.Context.{ContextValue};
ghost use Rattle.tcp_state.specs.Offer.TheVariants as Answer;
ghost use Rattle.tcp_state.specs.PollAt.TheVariants as At;
ghost use Rattle.tcp_state.specs.Moments.{is_due};
ghost use Rattle.tcp_state.specs.declared.endpoints.FourTuple.{FourTuple};
ghost use Rattle.tcp_block.specs.Aborts.{OwesReset, IsResetOf};
ghost use Rattle.tcp_block.specs.Arrival.{arrives};
ghost use Rattle.tcp_block.specs.Calls.{send_after, recv_after, close_after, abort_after};
ghost use Rattle.tcp_state.specs.States.{is_closed, is_time_wait};
ghost use Rattle.tcp_block.specs.Checks.{falls_back};
ghost use Rattle.tcp_block.specs.Due.{poll_of};
ghost use Rattle.tcp_block.specs.Names.{accepts};
ghost use Rattle.tcp_block.specs.Offers.{offer_of};
ghost use Rattle.tcp_block.specs.Retries.{gives_up};
ghost use Rattle.tcp_block.specs.Rules.{time_wait_end};
ghost use Rattle.tcp_block.specs.Settings.{with_settings};
ghost use Rattle.tcp_block.specs.Settled.{settled};
ghost use Rattle.tcp_block.specs.Timeout.{timeout_end};
ghost use Rattle.tcp_block.specs.Value.{TcpValue, queued_in};
ghost use Rattle.tcp_block.specs.declared.tcb.Settings.{Settings};

/// An abort owes the remote a reset, and so do the user timeout and a connection that gives up. Where
/// there is no remote endpoint, or the connection was in TIME-WAIT, nothing is owed.
#[tactic(auto, using(crate::proofs::Resets::owing))]
pub fn an_abort_owes_a_reset()
    ensures abort { (v : TcpValue) (pair : FourTuple) → v.tcb.names.pair ≡ Some pair → is_time_wait v.tcb.state ≡ false
        → OwesReset (abort_after v) pair }
    ensures timeout { (cx : ContextValue) (v : TcpValue) (pair : FourTuple) → v.tcb.names.pair ≡ Some pair
        → is_due cx.instant (time_wait_end v.tcb) ≡ false → is_due cx.instant (timeout_end v.tcb (queued_in v)) ≡ true
        → OwesReset (offer_of cx v).socket pair }
    ensures giving_up { (cx : ContextValue) (v : TcpValue) (pair : FourTuple) → v.tcb.names.pair ≡ Some pair
        → is_due cx.instant (time_wait_end v.tcb) ≡ false → is_due cx.instant (timeout_end v.tcb (queued_in v)) ≡ false
        → is_closed v.tcb.state ≡ false → gives_up cx.instant v.tcb (queued_in v) ≡ true → falls_back v.tcb ≡ false
        → OwesReset (offer_of cx v).socket pair }
    ensures time_wait { (ip_mtu : ℕ) (v : TcpValue) → is_time_wait v.tcb.state ≡ true → poll_of ip_mtu (abort_after v) ≡ At.Ingress }
    ensures nowhere { (ip_mtu : ℕ) (v : TcpValue) → v.tcb.names.pair ≡ None → poll_of ip_mtu (abort_after v) ≡ At.Ingress }
{}

/// What is owed is due at once, and the next offer makes it, whatever the instant.
#[tactic(auto, using(crate::proofs::Resets::due_now, crate::proofs::Resets::is_offered, crate::proofs::Resets::is_reset))]
pub fn the_next_offer_makes_the_reset()
    ensures due { (ip_mtu : ℕ) (v : TcpValue) (pair : FourTuple) → OwesReset v pair → poll_of ip_mtu v ≡ At.Now }
    ensures answer { (cx : ContextValue) (v : TcpValue) (pair : FourTuple) → OwesReset v pair
        → (offer_of cx v).answer ≡ Answer.Packet false }
    ensures offered { (cx : ContextValue) (v : TcpValue) (pair : FourTuple) → OwesReset v pair
        → is_some (offer_of cx v).socket.offered ≡ true }
    ensures reset { (cx : ContextValue) (v : TcpValue) (pair : FourTuple) → OwesReset v pair
        → IfSome (offer_of cx v).socket.offered (IsResetOf v.tcb pair) }
{}

/// It is owed until it was sent, whatever comes or is called but an OPEN; then nothing is due, and the
/// endpoints are forgotten.
#[tactic(auto, using(crate::proofs::Resets::owed_on))]
pub fn a_reset_is_owed_until_it_is_sent()
    ensures segments { (v : TcpValue) (pair : FourTuple) (ip : IpRepr) (header : TcpHeader) → OwesReset v pair
        → accepts v.tcb ip header ≡ false }
    ensures arrivals { (cx : ContextValue) (v : TcpValue) (pair : FourTuple) (ip : IpRepr) (header : TcpHeader) (bytes : List ℕ)
        → OwesReset v pair → OwesReset (arrives cx v ip header bytes).socket pair }
    ensures close { (v : TcpValue) (pair : FourTuple) → OwesReset v pair → OwesReset (close_after v) pair }
    ensures abort { (v : TcpValue) (pair : FourTuple) → OwesReset v pair → OwesReset (abort_after v) pair }
    ensures send { (v : TcpValue) (pair : FourTuple) (bytes : List ℕ) → OwesReset v pair → OwesReset (send_after v bytes) pair }
    ensures recv { (v : TcpValue) (pair : FourTuple) (count : ℕ) → OwesReset v pair → OwesReset (recv_after v count) pair }
    ensures settings { (v : TcpValue) (pair : FourTuple) (settings : Settings) → OwesReset v pair
        → OwesReset (with_settings v settings) pair }
    ensures unsent { (cx : ContextValue) (v : TcpValue) (pair : FourTuple) → OwesReset v pair
        → OwesReset (settled false (offer_of cx v).socket) pair }
    ensures sent { (cx : ContextValue) (v : TcpValue) (pair : FourTuple) (ip_mtu : ℕ) → OwesReset v pair
        → poll_of ip_mtu (settled true (offer_of cx v).socket) ≡ At.Ingress }
    ensures forgotten { (cx : ContextValue) (v : TcpValue) (pair : FourTuple) → OwesReset v pair
        → (settled true (offer_of cx v).socket).tcb.names.pair ≡ None }
{}

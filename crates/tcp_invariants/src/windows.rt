//! The bounds of the congestion window.

ghost use Rattle.std.specs.Prelude.{◌≡◌, ◌+◌, ◌*◌, ◌^◌, ◌<◌, ◌≤◌, ◌==◌, ℕ, max, true, false, List, Some, is_some};
ghost use Rattle.net_base.specs.Ring.{Ring};
ghost use Rattle.tcp_state.specs.declared.offer.OfferKind.TheVariants as Kind;
ghost use Rattle.tcp_state.specs.declared.offer.OpenOffer.{OpenOffer};
ghost use Rattle.tcp_block.specs.Context.{ContextValue};
ghost use Rattle.tcp_block.specs.LossRecovery.{pipe};
ghost use Rattle.tcp_block.specs.Offers.{offer_of};
ghost use Rattle.tcp_block.specs.Rules.{beyond};
ghost use Rattle.tcp_block.specs.Settled.{settled};
ghost use Rattle.tcp_block.specs.Value.{TcpValue, new_socket};
ghost use Rattle.tcp_block.specs.declared.tcb.Tcb.{Tcb};
ghost use Rattle.tcp_invariants.specs.Events.{Event, led};
ghost use Rattle.tcp_invariants.specs.Room.{is_limited, HasRoom, HasHoleRoom};
ghost use Rattle.tcp_invariants.specs.Windows.{runs_cubic};

/// Of each socket that events lead to, with Reno and with CUBIC: once its SYN is acknowledged its congestion window holds a segment at
/// least, of a size that 16 bits name, and 2^30 bytes at most; the slow start threshold is no less than two segments, and 2^30 at most;
/// and the control that runs is the one that its user set, whatever was lost and undone.
pub fn the_window_keeps_to_its_bounds()
    ensures segment { (capacity : ℕ) (queued : Ring ℕ) (events : List Event)
        → (led (new_socket capacity queued) events).tcb.sender.syn_unacked ≡ false
        → (led (new_socket capacity queued) events).tcb.reno.mss < 2 ^ 16
        → (led (new_socket capacity queued) events).tcb.reno.mss ≤ (led (new_socket capacity queued) events).tcb.reno.cwnd }
    ensures most { (capacity : ℕ) (queued : Ring ℕ) (events : List Event) → (led (new_socket capacity queued) events).tcb.reno.mss < 2 ^ 16
        → (led (new_socket capacity queued) events).tcb.reno.cwnd ≤ 2 ^ 30 }
    ensures threshold { (capacity : ℕ) (queued : Ring ℕ) (events : List Event) → (led (new_socket capacity queued) events).tcb.reno.mss < 2 ^ 16
        → (2 * (led (new_socket capacity queued) events).tcb.reno.mss ≤ (led (new_socket capacity queued) events).tcb.reno.ssthresh)
        × ((led (new_socket capacity queued) events).tcb.reno.ssthresh ≤ 2 ^ 30) }
    ensures control { (capacity : ℕ) (queued : Ring ℕ) (events : List Event)
        → is_some (led (new_socket capacity queued) events).tcb.reno.cubic
        ≡ runs_cubic (led (new_socket capacity queued) events).tcb.settings.congestion_control }
{}

/// What is offered fits the congestion window, where congestion control is on. New payload has room alongside Pipe, as selective acknowledgements
/// tell it, and without them alongside what is in flight, but for limited transmit: two segments at most, and none until more than `recover` is
/// acknowledged. What goes into a hole has a segment's room alongside Pipe, or was let go by a partial acknowledgement and has it alongside what
/// was retransmitted. What the window doesn't limit is the segment at SND.UNA where it is to go at once, the last one as a probe, and the FIN.
pub fn what_goes_fits_the_congestion_window()
    ensures payload { (cx : ContextValue) (v : TcpValue) (o : OpenOffer) → (offer_of cx v).socket.offered ≡ Some o → o.kind ≡ Kind.Payload
        → is_limited (offer_of cx v).socket.tcb.settings.congestion_control ≡ true → HasRoom (offer_of cx v).socket.tcb o.len }
    ensures further { (b : Tcb) → (beyond b ≤ 2 * b.reno.mss) × ((b.sender.recover == 0) ≡ false → beyond b ≡ 0) }
    ensures hole { (cx : ContextValue) (v : TcpValue) (o : OpenOffer) → (offer_of cx v).socket.offered ≡ Some o → o.kind ≡ Kind.FastRetransmission
        → (offer_of cx v).socket.tcb.sender.resend ≡ false → (offer_of cx v).socket.tcb.loss.probes ≡ false
        → HasHoleRoom (offer_of cx v).socket.tcb }
{}

/// Of each socket that events lead to, where selective acknowledgements tell what is on its way: after payload that went Pipe is no more than
/// the congestion window or what it was before, and one position for a FIN, in recovery and outside of it, also where SND.NXT moves past
/// what is held after that payload.
pub fn pipe_stays_within_the_congestion_window()
    ensures payload { (capacity : ℕ) (queued : Ring ℕ) (events : List Event) (cx : ContextValue) (o : OpenOffer)
        → (offer_of cx (led (new_socket capacity queued) events)).socket.offered ≡ Some o → o.kind ≡ Kind.Payload
        → (offer_of cx (led (new_socket capacity queued) events)).socket.tcb.sender.syn_unacked ≡ false
        → (offer_of cx (led (new_socket capacity queued) events)).socket.tcb.sender.flight_size < 2 ^ 32
        → (offer_of cx (led (new_socket capacity queued) events)).socket.tcb.peer.sack ≡ true
        → is_limited (offer_of cx (led (new_socket capacity queued) events)).socket.tcb.settings.congestion_control ≡ true
        → pipe (settled true (offer_of cx (led (new_socket capacity queued) events)).socket).tcb
        ≤ max (offer_of cx (led (new_socket capacity queued) events)).socket.tcb.reno.cwnd
        (pipe (offer_of cx (led (new_socket capacity queued) events)).socket.tcb)
        + 1 }
{}

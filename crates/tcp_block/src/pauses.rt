//! Laws of the answers that segments draw which aren't accepted.

ghost use Rattle.std.specs.Prelude.{◌≡◌, ◌≤◌, ℕ, ℤ, pos, ◌+ℤ◌, Bool, true, false, not, ◌||◌, List, length, Option, Some, is_some};
ghost use Rattle.ip_wire.specs.IpRepr.{IpRepr};
ghost use Rattle.ip_wire.specs.TcpHeader.{TcpHeader};
ghost use Rattle.ip_wire.specs.TcpTimestampGenerator.{TcpTimestampGenerator};
ghost use Rattle.tcp_state.specs.Context.{ContextValue};
ghost use Rattle.tcp_block.specs.Answers.{may_challenge};
ghost use Rattle.tcp_state.specs.Controls.{is_rst};
ghost use Rattle.tcp_state.specs.States.{accepts_data, is_closed};
ghost use Rattle.tcp_block.specs.Acknowledged.{tcb_acknowledged};
ghost use Rattle.tcp_block.specs.Arrival.{arrives, is_void_syn, checked, is_repeated, challenges_first};
ghost use Rattle.tcp_block.specs.Calls.{send_after, recv_after, close_after, abort_after};
ghost use Rattle.tcp_block.specs.Checks.Check.{Passes, Old};
ghost use Rattle.tcp_block.specs.Checks.{acknowledgement_check, is_in_window};
ghost use Rattle.tcp_block.specs.Pauses.{Happening, IsOneConnection, AreApart, drawn_instants, is_drawing, draws_by, pause_of, IsAnsweredAtOnce};
ghost use Rattle.tcp_block.specs.Segments.{segment_len};
ghost use Rattle.tcp_block.specs.Settings.{set_timeout, set_keep_alive, set_congestion_control, with_settings};
ghost use Rattle.tcp_block.specs.Settled.{settled};
ghost use Rattle.tcp_block.specs.Value.{TcpValue, queued_in, free_in};
ghost use Rattle.tcp_block.specs.declared.tcb.Tcb.{Tcb};
ghost use Rattle.tcp_block.specs.declared.tcb.CongestionControl.{CongestionControl};
ghost use Rattle.tcp_block.specs.declared.tcb.Settings.{Settings};

/// A segment that elicits an answer gets it where the pause is over, and begins a pause of a second.
#[tactic(auto, using(crate::proofs::Drawing::drawn_after_pause, crate::proofs::Drawing::pause_begins))]
pub fn a_drawn_answer_begins_a_pause()
    ensures answered { (cx : ContextValue) (v : TcpValue) (ip : IpRepr) (header : TcpHeader) (bytes : List ℕ)
        → is_drawing cx v header bytes ≡ true
        → is_some (arrives cx v ip header bytes).answer ≡ may_challenge cx.instant (pause_of v) }
    ensures pause { (cx : ContextValue) (v : TcpValue) (ip : IpRepr) (header : TcpHeader) (bytes : List ℕ)
        → is_drawing cx v header bytes ≡ true → is_some (arrives cx v ip header bytes).answer ≡ true
        → pause_of (arrives cx v ip header bytes).socket ≡ Some (cx.instant +ℤ pos 1_000_000) }
{}

/// As long as a connection lasts at least a second lies between two drawn answers, whatever comes, in
/// whatever order, and whatever is called.
#[tactic(auto, using(crate::proofs::Drawing::drawn_apart))]
pub fn drawn_answers_are_a_second_apart()
    ensures apart { (v : TcpValue) (run : List Happening) → IsOneConnection v run → AreApart (drawn_instants v run) }
{}

/// A segment with payload or a FIN that arrives again is answered at once, whatever the pause, unless its
/// acknowledgement ends LAST-ACK: the answer to it may be lost, and its sender would wait for a timer. It
/// draws nothing, and leaves the pause as it was.
pub fn what_comes_again_is_answered_at_once()
    ensures passes { (cx : ContextValue) (v : TcpValue) (ip : IpRepr) (header : TcpHeader) (bytes : List ℕ) (by : ℕ)
        → acknowledgement_check v.tcb header.ack_number ≡ Passes by → is_repeated v header (length bytes) ≡ true
        → is_closed (tcb_acknowledged v.tcb by (queued_in v) cx.instant).state ≡ false
        → IsAnsweredAtOnce v (checked (Passes by) cx v ip header bytes) }
    ensures old { (cx : ContextValue) (v : TcpValue) (ip : IpRepr) (header : TcpHeader) (bytes : List ℕ)
        → is_repeated v header (length bytes) ≡ true → is_closed v.tcb.state ≡ false → IsAnsweredAtOnce v (checked Old cx v ip header bytes) }
    ensures undrawn { (cx : ContextValue) (v : TcpValue) (header : TcpHeader) (bytes : List ℕ) (by : ℕ) → is_repeated v header (length bytes) ≡ true
        → (draws_by (Passes by) cx v header (length bytes) ≡ false) × (draws_by Old cx v header (length bytes) ≡ false) }
{}

/// No segment that has length is in a closed window. So one with payload that comes where the user reads
/// nothing, as a probe does, elicits an answer, if it doesn't arrive again.
#[tactic(auto, using(crate::proofs::Drawing::nothing_meets))]
pub fn a_closed_window_takes_nothing()
    ensures outside { (b : Tcb) (header : TcpHeader) (size : ℕ) → 1 ≤ segment_len header size → is_in_window b 0 header size ≡ false }
    ensures drawn { (cx : ContextValue) (v : TcpValue) (header : TcpHeader) (bytes : List ℕ) (by : ℕ) → accepts_data v.tcb.state ≡ true → free_in v ≡ 0
        → 1 ≤ segment_len header (length bytes) → is_rst header.control ≡ false → is_void_syn header ≡ false
        → acknowledgement_check v.tcb header.ack_number ≡ Passes by
        → is_drawing cx v header bytes ≡ (challenges_first v.tcb header cx.instant || not (is_repeated v header (length bytes))) }
{}

/// Of the calls only an OPEN ends the pause.
#[tactic(auto, using(crate::proofs::Drawing::send_pause, crate::proofs::Drawing::close_pause, crate::proofs::Drawing::settled_pause))]
pub fn calls_leave_the_pause()
    ensures send { (v : TcpValue) (bytes : List ℕ) → pause_of (send_after v bytes) ≡ pause_of v }
    ensures recv { (v : TcpValue) (count : ℕ) → pause_of (recv_after v count) ≡ pause_of v }
    ensures close { (v : TcpValue) → pause_of (close_after v) ≡ pause_of v }
    ensures abort { (v : TcpValue) → pause_of (abort_after v) ≡ pause_of v }
    ensures settings { (v : TcpValue) (settings : Settings) → pause_of (with_settings v settings) ≡ pause_of v }
    ensures timeout { (v : TcpValue) (duration : Option ℕ) → pause_of (set_timeout v duration) ≡ pause_of v }
    ensures keep_alive { (v : TcpValue) (interval : Option ℕ) → pause_of (set_keep_alive v interval) ≡ pause_of v }
    ensures congestion { (v : TcpValue) (control : CongestionControl) → pause_of (set_congestion_control v control) ≡ pause_of v }
    ensures settled { (v : TcpValue) (sent : Bool) → pause_of (settled sent v) ≡ pause_of v }
{}

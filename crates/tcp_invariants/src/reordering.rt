//! What may only be late is waited for (RFC 8985, 6.2).

ghost use Rattle.std.specs.Prelude.{◌≡◌, ◌≤◌, ◌*◌, ◌==◌, ◌||◌, ◌+◌, min, ◌<ℤ◌, ◌≤ℤ◌, ℕ, ℤ, Bool, true, false, List, Some, None};
ghost use Rattle.ip_wire.specs.TcpHeader.{TcpHeader};
ghost use Rattle.net_base.specs.Ring.{Ring};
ghost use Rattle.tcp_state.specs.Reno.{reduced};
ghost use Rattle.tcp_state.specs.RoundTrip.{RoundTripValue, late_wait, srtt};
ghost use Rattle.tcp_state.specs.Scoreboard.{is_empty};
ghost use Rattle.tcp_state.specs.States.{may_send_data};
ghost use Rattle.tcp_state.specs.declared.endpoints.AddressPair.{AddressPair};
ghost use Rattle.tcp_state.specs.declared.offer.OfferKind.TheVariants as Kind;
ghost use Rattle.tcp_state.specs.declared.offer.OpenOffer.{OpenOffer};
ghost use Rattle.tcp_block.specs.Acknowledged.{begins_recovery, counted, is_lost_since, is_missed};
ghost use Rattle.tcp_block.specs.TcbRules.{past_snd_max};
ghost use Rattle.tcp_block.specs.LossRecovery.{loss_lowered, loss_probed_by};
ghost use Rattle.tcp_block.specs.Rules.{backed_off_now, resends};
ghost use Rattle.tcp_block.specs.Settled.{sent_as};
ghost use Rattle.tcp_block.specs.Undone.{undone, reordering_hinted};
ghost use Rattle.tcp_block.specs.declared.tcb.Tcb.{Tcb};
ghost use Rattle.tcp_block.specs.declared.tcb.Loss.{Loss};
ghost use Rattle.tcp_block.specs.declared.tcb.Undo.{Undo};
ghost use Rattle.tcp_invariants.specs.Reordering.{AreBefore, IsMissing, Lapses, late_instant, trips};
ghost use Rattle.tcp_invariants.specs.Undoing.{Between, with_all};

/// Once a segment came late, a segment that duplicates or ranges say is missing doesn't are retransmitted until an instant that is set once, whatever
/// goes and comes before it, and no loss halves the congestion window. Where SND.UNA rises until then nothing was lost, and nothing was retransmitted.
pub fn what_may_be_late_is_waited_for()
    ensures again { (b : Tcb) (count : ℕ) (now : ℤ) (between : List Between) (addresses : AddressPair) (ip_mtu : ℕ) (queued : Ring ℕ)
        → IsMissing b count → AreBefore (late_instant b now) between
        → resends (with_all between (counted b count now)) addresses ip_mtu queued ≡ false }
    ensures window { (b : Tcb) (count : ℕ) (now : ℤ) (between : List Between) → IsMissing b count → AreBefore (late_instant b now) between
        → Lapses b.reno (with_all between (counted b count now)).reno }
{}

/// The wait is a quarter of the shortest round trip for each time that one was too short, but never longer than SRTT. Then the recovery begins
/// as it would have begun without it, whatever went and came meanwhile: it isn't put off.
pub fn the_wait_ends_in_a_recovery()
    ensures never_longer { (r : RoundTripValue) (quarters : ℕ) → late_wait r quarters ≤ srtt r }
    ensures quarter { late_wait (trips 40_000 44_000) 1 ≡ 10_000 }
    ensures three { late_wait (trips 40_000 44_000) 3 ≡ 30_000 }
    ensures most { late_wait (trips 40_000 44_000) 16 ≡ 44_000 }
    ensures ends { (b : Tcb) (count : ℕ) (now : ℤ) (between : List Between) (at : ℤ) → IsMissing b count → AreBefore (late_instant b now) between
        → late_instant b now ≤ℤ at → may_send_data (with_all between (counted b count now)).state ≡ true
        → (with_all between (counted b count now)).sender.syn_unacked ≡ false
        → ((with_all between (counted b count now)).sender.flight_size == 0) ≡ false
        → ((loss_probed_by at (with_all between (counted b count now))).sender.resend ≡ true)
        × ((loss_probed_by at (with_all between (counted b count now))).sender.recover ≡ past_snd_max (with_all between (counted b count now)))
        × ((loss_probed_by at (with_all between (counted b count now))).reno
        ≡ reduced (with_all between (counted b count now)).reno (with_all between (counted b count now)).sender.flight_size)
        × ((loss_probed_by at (with_all between (counted b count now))).loss.reorder_until ≡ None) }
{}

/// Where nothing came late nothing is waited for: a recovery begins where RFC 6675 begins it. And nothing came late where SND.UNA rises over
/// all that is held, or over what was retransmitted.
pub fn nothing_waits_where_nothing_arrived_late()
    ensures begins { (b : Tcb) (count : ℕ) → b.loss.reo_wnd_mult ≡ 0 → begins_recovery b count ≡ (is_missed b count || is_lost_since b) }
    ensures stays { (b : Tcb) (count : ℕ) (now : ℤ) → b.loss.reo_wnd_mult ≡ 0 → (counted b count now).loss.reorder_until ≡ b.loss.reorder_until }
    ensures in_order { (l : Loss) (by : ℕ) (partial : Bool) → is_empty l.board.runs ≡ true → (loss_lowered l by partial).reo_wnd_mult ≡ l.reo_wnd_mult }
    ensures again { (l : Loss) (by : ℕ) (partial : Bool) → (l.mark == 0) ≡ false → (loss_lowered l by partial).reo_wnd_mult ≡ l.reo_wnd_mult }
    ensures was_sent { (b : Tcb) (o : OpenOffer) (queued : ℕ) → (sent_as Kind.FastRetransmission b o queued).loss.mark ≡ b.sender.snd_max }
    ensures out { (b : Tcb) → (backed_off_now b).loss.mark ≡ b.sender.snd_max }
    ensures late { (l : Loss) (by : ℕ) (partial : Bool) → l.mark ≡ 0 → is_empty l.board.runs ≡ false → 1 ≤ (loss_lowered l by partial).reo_wnd_mult }
{}

/// Undoing raises patience only where a recovery was undone that began while something was held, so something that was sent later came earlier: at no
/// other undo, as of a recovery without ranges or of the timer (RFC 8985, 6.2, step 4).
pub fn patience_rises_only_where_something_was_held()
    ensures empty { (b : Tcb) (header : TcpHeader) (by queued : ℕ) → is_empty b.loss.board.runs ≡ true
        → (undone b header by queued).loss.reo_wnd_mult ≡ b.loss.reo_wnd_mult }
    ensures outside { (b : Tcb) (header : TcpHeader) (by queued : ℕ) → b.reno.recovers ≡ false
        → (undone b header by queued).loss.reo_wnd_mult ≡ b.loss.reo_wnd_mult }
{}

/// An acknowledgement that comes sooner behind what was retransmitted than the shortest round trip raises the reordering window, to sixteen
/// quarters at most, and nothing else: a path that became faster explains it as well. Nothing is raised outside of a recovery, where nothing
/// is held, or once the shortest round trip went by (RFC 8985, 6.2, step 2).
pub fn a_hint_raises_the_reordering_window_alone()
    ensures alone { (b : Tcb) (by : ℕ) (now : ℤ)
        → reordering_hinted b by now ≡ record b { loss = record b.loss { reo_wnd_mult = (reordering_hinted b by now).loss.reo_wnd_mult } } }
    ensures within { (b : Tcb) (by : ℕ) (now : ℤ) → b.loss.reo_wnd_mult ≤ 16
        → (b.loss.reo_wnd_mult ≤ (reordering_hinted b by now).loss.reo_wnd_mult) × ((reordering_hinted b by now).loss.reo_wnd_mult ≤ 16) }
    ensures raises { (b : Tcb) (by : ℕ) (now : ℤ) (u : Undo) (instant : ℤ) → b.loss.undo ≡ Some u → u.answers_from ≡ Some instant
        → (by == 0) ≡ false → b.reno.recovers ≡ true → is_empty b.loss.board.runs ≡ false → now <ℤ instant
        → (reordering_hinted b by now).loss.reo_wnd_mult ≡ min b.loss.reo_wnd_mult 15 + 1 }
    ensures late { (b : Tcb) (by : ℕ) (now : ℤ) (u : Undo) (instant : ℤ) → b.loss.undo ≡ Some u → u.answers_from ≡ Some instant
        → instant ≤ℤ now → reordering_hinted b by now ≡ b }
    ensures outside { (b : Tcb) (by : ℕ) (now : ℤ) → b.reno.recovers ≡ false → reordering_hinted b by now ≡ b }
    ensures empty { (b : Tcb) (by : ℕ) (now : ℤ) → is_empty b.loss.board.runs ≡ true → reordering_hinted b by now ≡ b }
{}

//! What is retransmitted that isn't lost, and recoveries that don't begin again.

ghost use Rattle.std.specs.Prelude.{◌≡◌, ◌+◌, ◌<◌, ◌==◌, ℕ, ℤ, min, true, false, List, length, Some};
ghost use Rattle.net_base.specs.Ring.{Ring};
ghost use Rattle.tcp_state.specs.declared.endpoints.AddressPair.{AddressPair};
ghost use Rattle.tcp_state.specs.declared.endpoints.FourTuple.{FourTuple};
ghost use Rattle.tcp_state.specs.declared.offer.OfferKind.TheVariants as Kind;
ghost use Rattle.tcp_state.specs.declared.offer.OpenOffer.{OpenOffer};
ghost use Rattle.tcp_block.specs.Acknowledged.{begins_recovery, counted};
ghost use Rattle.tcp_block.specs.Context.{ContextValue};
ghost use Rattle.tcp_block.specs.LossRecovery.{fills_hole, is_passed, is_rescue};
ghost use Rattle.tcp_block.specs.Offers.{offer_of};
ghost use Rattle.tcp_block.specs.Rules.{resend_choice, sent_count};
ghost use Rattle.tcp_block.specs.Settled.{end_of, sent_as};
ghost use Rattle.tcp_block.specs.Value.{TcpValue, new_socket};
ghost use Rattle.tcp_block.specs.declared.tcb.Tcb.{Tcb};
ghost use Rattle.tcp_invariants.specs.Early.{GoesLast, RescueOnce};
ghost use Rattle.tcp_invariants.specs.Events.{Event};

/// NextSeg's order (RFC 6675, 4, rules 1 to 4, and 5, step C): what isn't lost is retransmitted only in a recovery, where both SYNs permitted
/// selective acknowledgements, no payload may go, nothing that is lost is to go, and the window has room for a segment alongside Pipe. It is the
/// next hole below what is held, or else a rescue, the last segment.
pub fn what_is_not_lost_goes_last()
    ensures order { (cx : ContextValue) (v : TcpValue) (pair : FourTuple) (o : OpenOffer) → v.tcb.names.pair ≡ Some pair
        → (offer_of cx v).socket.offered ≡ Some o → o.kind ≡ Kind.FastRetransmission → (offer_of cx v).socket.tcb.sender.resend ≡ false
        → (offer_of cx v).socket.tcb.loss.probes ≡ false → fills_hole (offer_of cx v).socket.tcb ≡ false
        → GoesLast (offer_of cx v).socket.tcb (offer_of cx v).socket.queued pair.addresses cx.ip_mtu }
{}

/// A rescue goes once in a recovery (RFC 6675, 4, NextSeg, rule 4): of all rescues that go, whatever comes, however a socket is asked and
/// whatever its user calls, none follows another without a recovery that begins between them, or the retransmission timer that runs out. None
/// goes before SND.UNA passes the segment that was retransmitted first (5, step 4.3), and it leaves HighRxt. It ends with the last byte that was sent of
/// the send queue.
pub fn a_rescue_goes_once_in_a_recovery()
    ensures once { (capacity : ℕ) (queued : Ring ℕ) (events : List Event) → RescueOnce (new_socket capacity queued) false events }
    ensures passed { (b : Tcb) → is_rescue b ≡ true → b.loss.rescue_rxt ≡ 0 }
    ensures waits { (b : Tcb) (o : OpenOffer) (queued : ℕ) → b.reno.recovers ≡ true → b.sender.resend ≡ true → end_of b o < 4_294_967_295
        → end_of b o < (sent_as Kind.FastRetransmission b o queued).loss.rescue_rxt }
    ensures leaves { (b : Tcb) (o : OpenOffer) (queued : ℕ) → is_rescue b ≡ true
        → (sent_as Kind.FastRetransmission b o queued).loss.resent ≡ b.loss.resent }
    ensures ends { (b : Tcb) (addresses : AddressPair) (ip_mtu : ℕ) (queued : Ring ℕ) → is_rescue b ≡ true
        → (resend_choice b addresses ip_mtu queued).offset + (resend_choice b addresses ip_mtu queued).len
        ≡ min (sent_count b) (length queued.queue) }
{}

/// A recovery that ended isn't begun again by what was retransmitted in it: until so much is held of what was first sent after it, neither the third
/// duplicate nor ranges begin a recovery, and nothing is retransmitted for them, nor is anything waited for (RFC 6675, 5; RFC 6582, 3.2, step 2).
pub fn a_recovery_that_ended_is_not_begun_again()
    ensures begins { (b : Tcb) (count : ℕ) → b.sender.recover ≡ 0 → (b.loss.resent == 0) ≡ false → is_passed b b.loss.mark ≡ false
        → begins_recovery b count ≡ false }
    ensures again { (b : Tcb) (count : ℕ) (now : ℤ) → b.sender.recover ≡ 0 → (b.loss.resent == 0) ≡ false → is_passed b b.loss.mark ≡ false
        → (counted b count now).sender.resend ≡ b.sender.resend }
    ensures waits { (b : Tcb) (count : ℕ) (now : ℤ) → b.sender.recover ≡ 0 → (b.loss.resent == 0) ≡ false → is_passed b b.loss.mark ≡ false
        → (counted b count now).loss.reorder_until ≡ b.loss.reorder_until }
{}

//! Which segments are acceptable, and how much a socket sends at once.

ghost use Rattle.std.specs.Prelude.{◌≡◌, ◌≢◌, ◌↔◌, ◌+◌, ◌-◌, ◌^◌, ◌≤◌, ℕ, max, true, false, List};
ghost use Rattle.ip_wire.specs.IpRepr.{IpRepr};
ghost use Rattle.ip_wire.specs.TcpHeader.{TcpHeader};
ghost use Rattle.net_base.specs.Ring.{Ring};
ghost use Rattle.tcp_block.specs.Context.{ContextValue};
ghost use Rattle.tcp_theory.specs.Numbers.{wire, IsNear};
ghost use Rattle.tcp_block.specs.AddressPair.{AddressPair};
ghost use Rattle.tcp_block.specs.declared.tcb.Tcb.{Tcb};
ghost use Rattle.tcp_block.specs.declared.tcb.CongestionControl.TheVariants as Congestion;
ghost use Rattle.tcp_block.specs.Arrival.{arrives};
ghost use Rattle.tcp_block.specs.Checks.{is_in_window};
ghost use Rattle.tcp_block.specs.Controls.{is_rst};
ghost use Rattle.tcp_block.specs.Endpoints.{ip_header_len};
ghost use Rattle.tcp_block.specs.Rules.{payload_choice, resend_choice, timestamps_len, congestion_room};
ghost use Rattle.tcp_block.specs.Segments.{segment_len};
ghost use Rattle.tcp_block.specs.Value.{TcpValue};
ghost use Rattle.tcp_refinement.specs.Acceptance.{Meets, reset_counts, IsIgnored};

/// The window test is that of RFC 9293, 3.4, whatever positions have these numbers.
#[tactic(auto, using(crate::proofs::AcceptLaws::window_meets))]
pub fn segments_meet_the_window()
    ensures window { (b : Tcb) (header : TcpHeader) (size space next at : ℕ) → 2 ^ 31 ≤ next → b.receiver.next.0 ≡ wire next
        → header.seq_number.0 ≡ wire at → IsNear next at
        → (is_in_window b space header size ≡ true) ↔ Meets next at (segment_len header size) space }
{}

/// A reset that doesn't count changes nothing but when an answer may be drawn again: it is dropped, or elicits an acknowledgement. So past
/// SYN-RECEIVED none does whose number isn't RCV.NXT, wherever in the window it lies.
#[tactic(auto, using(crate::proofs::AcceptLaws::reset_ignored))]
pub fn other_resets_are_ignored()
    ensures ignored { (cx : ContextValue) (v : TcpValue) (ip : IpRepr) (header : TcpHeader) (bytes : List ℕ)
        → is_rst header.control ≡ true → reset_counts v header ≡ false
        → IsIgnored cx v ip header (arrives cx v ip header bytes) }
{}

/// Payload keeps to the remote's window and to what the congestion window leaves alongside what is on its way; it and what is retransmitted keep to the
/// remote's largest payload less the options that the segment carries, and to the longest packet where that holds the headers, but a byte
/// always fits.
#[tactic(auto, using(crate::proofs::AcceptLaws::payload_fits))]
pub fn payload_keeps_to_the_limits()
    ensures remote { (b : Tcb) (addresses : AddressPair) (mtu : ℕ) (queued : Ring ℕ)
        → (payload_choice b addresses mtu queued).len ≤ b.peer.window - b.sender.flight_size }
    ensures congestion { (b : Tcb) (addresses : AddressPair) (mtu : ℕ) (queued : Ring ℕ)
        → b.settings.congestion_control ≢ Congestion.None
        → (payload_choice b addresses mtu queued).len ≤ congestion_room b }
    ensures payload { (b : Tcb) (addresses : AddressPair) (mtu : ℕ) (queued : Ring ℕ)
        → (payload_choice b addresses mtu queued).len ≤ max 1 (b.peer.mss - timestamps_len b) }
    ensures packet { (b : Tcb) (addresses : AddressPair) (mtu : ℕ) (queued : Ring ℕ)
        → (payload_choice b addresses mtu queued).len ≤ max 1 (mtu - (ip_header_len addresses + 20 + timestamps_len b)) }
    ensures payload_again { (b : Tcb) (addresses : AddressPair) (mtu : ℕ) (queued : Ring ℕ)
        → (resend_choice b addresses mtu queued).len ≤ max 1 (b.peer.mss - timestamps_len b) }
    ensures packet_again { (b : Tcb) (addresses : AddressPair) (mtu : ℕ) (queued : Ring ℕ)
        → (resend_choice b addresses mtu queued).len ≤ max 1 (mtu - (ip_header_len addresses + 20 + timestamps_len b)) }
{}

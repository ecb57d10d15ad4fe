//! A segment whose payload is gone through once.
ghost use Rattle.std.specs.Prelude.{◌≡◌, ◌&&◌, ◌||◌, ◌==◌, ◌+◌, ◌≤◌, ◌<◌, ◌^◌, not, nat_le, length, false, None, IfOk, IfSome, OnOk, OnErr, OnSome, true, is_ok, is_some};
ghost use Rattle.socket_context.specs.Packet.{IsSendable};
ghost use Rattle.ip_wire.specs.Seq.{distance_of};
ghost use Rattle.ip_wire.specs.Sum.{word_sum, folded};
ghost use Rattle.net_base.specs.Time.{IsMoment};
ghost use Rattle.tcp_block.specs.Acknowledged.{tcb_acknowledged};
ghost use Rattle.tcp_block.specs.Arrival.{challenges_first, arrives};
ghost use Rattle.tcp_block.specs.Checks.{acknowledgement_check};
ghost use Rattle.tcp_block.specs.Checks.Check.{Passes};
ghost use Rattle.tcp_block.specs.Controls.{is_syn, is_rst};
ghost use Rattle.tcp_block.specs.Payload.{has_out_of_order};
ghost use Rattle.tcp_socket.specs.Answering.{answer_of};
ghost use Rattle.tcp_socket.specs.FastPath.{is_established, is_passed, arrives_next, is_in_fast_path, is_calm, names_no_range, tells_no_rtt};
ghost use Rattle.tcp_socket.specs.FastPath.{window_taken};
ghost use Rattle.tcp_socket.specs.Replies.{packet_in};

use crate::Socket;
use crate::on_segment::{ArrivedSegment, Due};
use ip_wire::{IpRepr, SeqNumber, TcpHeader};
use net_base::Instant;
use socket_context::Context;
use tcp_block::{State, Tcb, Verdict, is_rst, is_syn};

/// A segment wasn't taken in one pass, and nothing changed: `on_segment` takes it, where its checksum holds.
#[derive(Clone, Copy, Debug, PartialEq, Eq)]
pub struct NotInFastPath;

impl Socket {
    /// Takes in a segment for the socket whose checksum wasn't tested: its payload is copied after what waits to be read and summed by
    /// that, and where the checksum holds the segment is taken as `on_segment` takes it. `rest` is the sum of all else that the
    /// checksum covers: the pseudo header and the header. It is for segments that come next in an open connection; any other is
    /// refused, and so is one whose checksum doesn't hold. Then nothing changes.
    pub fn on_segment_fast<C: Context>(
        &mut self,
        cx: &C,
        ip_repr: &IpRepr,
        header: &TcpHeader,
        bytes: &[u8],
        rest: u16,
    ) -> Result<Option<Due>, NotInFastPath>
        ensures taken { is_ok result ≡
            (is_in_fast_path (C.context cx.now).instant self.old header.now bytes.now && (folded (rest + word_sum bytes.now) == 65535)) }
        ensures refused { OnErr result (self.new ≡ self.old) }
        ensures sum { OnOk result (folded (rest + word_sum bytes.now) ≡ 65535) }
        ensures answer { IfOk result (λ due. answer_of due (C.context cx.now).instant self.new ip_repr.now header.now (length bytes.now) ≡
            (arrives (C.context cx.now) self.old ip_repr.now header.now bytes.now).answer) }
        ensures sendable { IfOk result (λ due. IfSome (answer_of due (C.context cx.now).instant self.new ip_repr.now header.now (length bytes.now))
            (λ reply. IsSendable (packet_in reply))) }
        ensures socket { OnOk result (self.new ≡ (arrives (C.context cx.now) self.old ip_repr.now header.now bytes.now).socket) }
        ensures quiet { OnOk result ((arrives (C.context cx.now) self.old ip_repr.now header.now bytes.now).draws ≡ false) }
    {
        let Some(by) = self.acks_in_fast_path(header, bytes, cx.now()) else {
            return Err(NotInFastPath);
        };
        let incoming = ArrivedSegment {
            ip_repr,
            header,
            bytes,
        };
        let Ok(stored) = self.received.store_tested(bytes, rest) else {
            return Err(NotInFastPath);
        };
        Ok(self.take(cx, &incoming, by, stored))
    }

    /// How far past SND.UNA a segment acknowledges, where it goes in one pass.
    fn acks_in_fast_path(&self, header: &TcpHeader, bytes: &[u8], now: Instant) -> Option<u32>
        ensures test { is_some result ≡ is_in_fast_path now self.now header.now bytes.now }
        ensures by { IfSome result (λ by. acknowledgement_check self.now.tcb header.now.ack_number ≡ Passes by) }
        ensures next { OnSome result (distance_of self.now.tcb.receiver.next header.now.seq_number ≡ 0) }
    {
        if !self.is_socket_idle()
            || !self.arrives_next(header, bytes)
            || !self.is_plain(header, now)
        {
            return None;
        }
        match self.tcb.check_acknowledgement(header.ack_number) {
            Verdict::Passes(by) => Some(by),
            _ => None,
        }
    }

    /// Whether the connection is open, no offer is, and no payload is held early.
    fn is_socket_idle(&self) -> bool
        ensures { result ≡ (is_established self.now.tcb.state && (not (is_some self.now.offered) && not (has_out_of_order self.now))) }
    {
        matches!(self.tcb.state, State::Established)
            && self.offered.is_none()
            && !self.received.has_out_of_order()
    }

    /// Whether a segment begins at RCV.NXT, and there is room for all of its payload, and for a byte.
    fn arrives_next(&self, header: &TcpHeader, bytes: &[u8]) -> bool
        ensures test { result ≡ arrives_next self.now header.now bytes.now }
        ensures next { result ≡ true → distance_of self.now.tcb.receiver.next header.now.seq_number ≡ 0 }
    {
        is_same(self.tcb.receiver.next, header.seq_number)
            && self.received.window() != 0
            && bytes.len() <= self.received.window()
    }

    /// Whether a segment is no SYN or reset, and isn't stale.
    fn is_plain(&self, header: &TcpHeader, now: Instant) -> bool
        ensures { result ≡ (not (is_syn header.now.control || is_rst header.now.control) && not (challenges_first self.now.tcb header.now now)) }
    {
        !is_syn(header.control) && !is_rst(header.control) && !self.tcb.is_stale(header, now)
    }
}

/// Whether both are one number, which is no distance from itself.
fn is_same(a: SeqNumber, b: SeqNumber) -> bool
    ensures test { result ≡ (a.0 == b.0) }
    ensures distance { result ≡ true → distance_of a b ≡ 0 }
{
    a == b
}

/// Takes the acknowledgement of an accepted segment. A connection that is open stays open.
#[tactic(auto, using(crate::proofs::Calm::open_moved))]
pub(crate) fn acknowledge_tcb(tcb: &mut Tcb, by: u32, queued: usize, now: Instant)
    requires instant { IsMoment now }
    requires queued { queued ≤ 2 ^ 30 }
    ensures { tcb.new ≡ tcb_acknowledged tcb.old by queued now }
{
    if matches!(tcb.state, State::Established) {
        tcb.move_una(by, queued, now);
        return;
    }
    tcb.acknowledge(by, queued, now);
}

/// Takes the window of an accepted segment, and what its ranges name. It is so many duplicates in a row.
pub(crate) fn take_window(
    tcb: &mut Tcb,
    header: &TcpHeader,
    duplicates: u8,
    queued: usize,
    now: Instant,
)
    requires instant { IsMoment now }
    requires queued { queued ≤ 2 ^ 30 }
    ensures { tcb.new ≡ window_taken tcb.old header.now duplicates queued now }
{
    tcb.set_window(header, now);
    if duplicates == 0 && is_calm(tcb, header) {
        tcb.sender.duplicates = 0;
        tcb.timers.timeout_since = None;
        return;
    }
    tcb.on_sack_blocks(header, now);
    tcb.count(duplicates, now);
    tcb.skip_sacked(queued);
    tcb.restart_timeout(now, queued);
}

/// Whether a segment of this header that is no duplicate leaves loss recovery and the user timeout as they are: no range is named or
/// held, nothing is being recovered, and no timeout is set.
fn is_calm(tcb: &Tcb, header: &TcpHeader) -> bool
    ensures { result ≡ is_calm tcb.now header.now }
{
    names_no_range(&header.options.sack_ranges)
        && tcb.sender.recover == 0
        && !tcb.reno.recovers()
        && tcb.settings.timeout.is_none()
        && tcb.loss.board.is_empty()
}

/// Whether no range is named.
fn names_no_range(ranges: &[Option<(u32, u32)>; 3]) -> bool
    ensures { result ≡ names_no_range ranges.now }
{
    let [first, second, third] = *ranges;
    first.is_none() && second.is_none() && third.is_none()
}

/// Whether no acknowledgement tells of a round trip by its timestamp, or that a loss was none.
pub(crate) fn tells_no_rtt(tcb: &Tcb) -> bool
    ensures { result ≡ tells_no_rtt tcb.now }
{
    !tcb.peer.timestamps && tcb.loss.undo.is_none()
}

//! A segment comes.
ghost use Rattle.std.specs.Prelude.{◌≡◌, ◌≤◌, ◌<◌, ◌^◌, ◌&&◌, not, [], length, IfSome, false, Option, Some, None, is_some, if◌then◌else◌};
ghost use Rattle.net_base.specs.Time.{IsMoment};
ghost use Rattle.socket_context.specs.Context.{ContextValue};
ghost use Rattle.socket_context.specs.Packet.{IsSendable};
ghost use Rattle.ip_wire.specs.Tcp.{header_of};
ghost use Rattle.tcp_block.specs.Acknowledged.{acknowledged};
ghost use Rattle.tcp_block.specs.Answers.{ack_recorded, acked, drawn, ack_due, sack_blocks, answers_at_once, answer_for};
ghost use Rattle.tcp_block.specs.Arrival.{waiting_anew, outside, is_before_window, is_repeated, passed_outside, finished, told};
ghost use Rattle.tcp_block.specs.Arrival.{tsecr_heard, inside, checked, challenges_reset};
ghost use Rattle.tcp_block.specs.Arrival.{reset_arrives, challenges_first, received, is_void_syn, arrives_in, arrives};
ghost use Rattle.tcp_block.specs.Checks.{acknowledgement_check, taken_down};
ghost use Rattle.tcp_block.specs.Checks.Check.{Passes, Old};
ghost use Rattle.tcp_block.specs.Controls.{is_zero};
ghost use Rattle.tcp_block.specs.Names.{accepts};
ghost use Rattle.tcp_block.specs.Opening.{acks_syn, is_first_syn, opens, syn_answered, takes_answer};
ghost use Rattle.tcp_block.specs.Segments.{rst_reply, no_ranges};
ghost use Rattle.tcp_block.specs.Payload.{data_stored, with_fin};
ghost use Rattle.tcp_block.specs.Timeout.{timeout_restarted};
ghost use Rattle.tcp_block.specs.Value.{ended, queued_in, room_of, window_of, with_tcb};
ghost use Rattle.tcp_socket.specs.Replies.{replies_in, packet_in, packet_with};
ghost use Rattle.tcp_socket.specs.Answering.{acknowledgement, reply_of, answer_of, next_at};
ghost use Rattle.tcp_socket.specs.FastPath.{taken_by, rest_by, content_by};

use crate::Socket;
use crate::ends::end_event;
use crate::fast_path::{acknowledge_tcb, take_window, tells_no_rtt};
use crate::payload::Payload;
use ip_wire::{IpRepr, SeqNumber, TcpHeader, TcpRepr};
use net_base::Instant;
use socket_context::Context;
use tcp_block::{
    AddressPair, FourTuple, Reply, State, Verdict, has_length, is_fin, is_first_syn, is_rst,
    is_syn, is_void_syn, isn, next_challenge_from, numbers_of, reply_to, rst_reply, time_wait_from,
};

/// A segment with what it came in.
#[derive(Clone, Copy)]
pub(crate) struct ArrivedSegment<'a> {
    pub(crate) ip_repr: &'a IpRepr,
    pub(crate) header: &'a TcpHeader,
    pub(crate) bytes: &'a [u8],
}

impl Socket {
    /// Whether this segment is for the socket.
    pub fn accepts<C: Context>(&self, _cx: &C, ip_repr: &IpRepr, repr: &TcpRepr<'_>) -> bool
        ensures { result ≡ accepts self.now.tcb ip_repr.now (header_of repr.now) }
    {
        self.accepts_header(ip_repr, &repr.header())
    }

    /// The reset that answers a segment which no socket takes.
    pub fn rst_reply(ip_repr: &IpRepr, repr: &TcpRepr<'_>) -> (IpRepr, TcpRepr<'static>)
        ensures bare { result.1.payload.now ≡ [] }
        ensures sendable { IsSendable (packet_with result) }
        ensures answer { replies_in (Some result) ≡ Some (rst_reply ip_repr.now (header_of repr.now) (length repr.now.payload.now)) }
    {
        replied(&rst_reply(ip_repr, &repr.header(), repr.payload.len()))
    }

    /// A segment for the socket comes. The answer is the segment that is to be sent back at once.
    pub fn process<C: Context>(
        &mut self,
        cx: &mut C,
        ip_repr: &IpRepr,
        repr: &TcpRepr<'_>,
    ) -> Option<(IpRepr, TcpRepr<'static>)>
        ensures bare { IfSome result (λ r. r.1.payload.now ≡ []) }
        ensures sendable { IfSome result (λ r. IsSendable (packet_with r)) }
        ensures answer { replies_in result ≡ (arrives (C.context cx.old) self.old ip_repr.now (header_of repr.now) repr.now.payload.now).answer }
        ensures socket { self.new ≡ (arrives (C.context cx.old) self.old ip_repr.now (header_of repr.now) repr.now.payload.now).socket }
        ensures drawn { cx.new ≡
            (if (arrives (C.context cx.old) self.old ip_repr.now (header_of repr.now) repr.now.payload.now).draws then C.drawn cx.old else cx.old) }
    {
        let header = repr.header();
        let now = cx.now();
        match self.on_segment(cx, ip_repr, &header, repr.payload) {
            None => None,
            Some(due) => {
                let size = repr.payload.len();
                Some(replied(&self.answer_due(due, now, ip_repr, &header, size)))
            }
        }
    }

    /// Whether a segment of this header is for the socket.
    pub fn accepts_header(&self, ip_repr: &IpRepr, header: &TcpHeader) -> bool
        ensures { result ≡ accepts self.now.tcb ip_repr.now header.now }
    {
        self.tcb.accepts(ip_repr, header)
    }

    /// Takes in a segment for the socket, as `process` does, and says which answer is due. `answer_due`
    /// makes that: so nothing as large as a segment is handed up where none is.
    pub fn on_segment<C: Context>(
        &mut self,
        cx: &mut C,
        ip_repr: &IpRepr,
        header: &TcpHeader,
        bytes: &[u8],
    ) -> Option<Due>
        ensures answer { answer_of result (C.context cx.old).instant self.new ip_repr.now header.now (length bytes.now) ≡
            (arrives (C.context cx.old) self.old ip_repr.now header.now bytes.now).answer }
        ensures sendable { IfSome (answer_of result (C.context cx.old).instant self.new ip_repr.now header.now (length bytes.now))
            (λ reply. IsSendable (packet_in reply)) }
        ensures socket { self.new ≡ (arrives (C.context cx.old) self.old ip_repr.now header.now bytes.now).socket }
        ensures drawn { cx.new ≡
            (if (arrives (C.context cx.old) self.old ip_repr.now header.now bytes.now).draws then C.drawn cx.old else cx.old) }
    {
        let incoming = ArrivedSegment {
            ip_repr,
            header,
            bytes,
        };
        self.arrive(cx, &incoming)
    }

    /// The answer that is due to a segment with so many bytes, which was taken in just before.
    pub fn answer_due(
        &self,
        due: Due,
        now: Instant,
        ip_repr: &IpRepr,
        header: &TcpHeader,
        size: usize,
    ) -> Reply
        requires { IsMoment now }
        ensures { result ≡ reply_of due now self.now ip_repr.now header.now size }
    {
        match due {
            Due::Reset => rst_reply(ip_repr, header, size),
            Due::Ack(window) => self.acknowledgement(now, ip_repr, header, window, [None; 3]),
            Due::AckWithSack(window, offset) => {
                self.acknowledgement(now, ip_repr, header, window, self.sack_blocks(offset))
            }
        }
    }

    /// The acknowledgement that answers a segment, with this window field and these ranges that are held
    /// out of order.
    fn acknowledgement(
        &self,
        now: Instant,
        ip_repr: &IpRepr,
        header: &TcpHeader,
        window: u16,
        sack_ranges: [Option<(u32, u32)>; 3],
    ) -> Reply
        requires { IsMoment now }
        ensures { result ≡ acknowledgement now self.now ip_repr.now header.now window sack_ranges }
    {
        let pair = FourTuple::of_segment(ip_repr, header);
        let segment = self.tcb.sack_segment(&pair, now, window, sack_ranges);
        reply_to(ip_repr, self.tcb.hop_limit(), segment)
    }

    fn arrive<C: Context>(&mut self, cx: &mut C, incoming: &ArrivedSegment<'_>) -> Option<Due>
        ensures answer { answer_of result (C.context cx.old).instant self.new incoming.now.ip_repr.now incoming.now.header.now (length incoming.now.bytes.now) ≡
            (arrives (C.context cx.old) self.old incoming.now.ip_repr.now incoming.now.header.now incoming.now.bytes.now).answer }
        ensures socket { self.new ≡ (arrives (C.context cx.old) self.old incoming.now.ip_repr.now incoming.now.header.now incoming.now.bytes.now).socket }
        ensures drawn { cx.new ≡
            (if (arrives (C.context cx.old) self.old incoming.now.ip_repr.now incoming.now.header.now incoming.now.bytes.now).draws then C.drawn cx.old
            else cx.old) }
    {
        self.unoffer();
        if is_void_syn(incoming.header) {
            None
        } else {
            let before = self.tcb.state;
            let due = self.arrive_in_state(cx, incoming);
            self.note_end(end_event(incoming.header), before);
            due
        }
    }

    /// A segment comes that isn't a SYN with an MSS of 0.
    fn arrive_in_state<C: Context>(
        &mut self,
        cx: &mut C,
        incoming: &ArrivedSegment<'_>,
    ) -> Option<Due>
        requires unoffered { self.old.offered ≡ None }
        requires sized { is_void_syn incoming.now.header.now ≡ false }
        ensures answer { answer_of result (C.context cx.old).instant self.new incoming.now.ip_repr.now incoming.now.header.now (length incoming.now.bytes.now) ≡
            (arrives_in self.old.tcb.state (C.context cx.old) self.old incoming.now.ip_repr.now incoming.now.header.now incoming.now.bytes.now).answer }
        ensures socket { self.new ≡
            (arrives_in self.old.tcb.state (C.context cx.old) self.old incoming.now.ip_repr.now incoming.now.header.now incoming.now.bytes.now).socket }
        ensures drawn { cx.new ≡
            (if (arrives_in self.old.tcb.state (C.context cx.old) self.old incoming.now.ip_repr.now incoming.now.header.now incoming.now.bytes.now).draws
            then C.drawn cx.old else cx.old) }
    {
        match self.tcb.state {
            State::Closed => None,
            State::Listen => self.on_segment_listen(cx, incoming),
            State::SynSent => self.on_segment_syn_sent(&*cx, incoming),
            _ => self.receive(&*cx, incoming),
        }
    }

    /// LISTEN: a SYN is taken, and answered later.
    fn on_segment_listen<C: Context>(
        &mut self,
        cx: &mut C,
        incoming: &ArrivedSegment<'_>,
    ) -> Option<Due>
        requires unoffered { self.old.offered ≡ None }
        requires sized { is_void_syn incoming.now.header.now ≡ false }
        ensures answer { answer_of result (C.context cx.old).instant self.new incoming.now.ip_repr.now incoming.now.header.now (length incoming.now.bytes.now) ≡
            (opens (C.context cx.old) self.old incoming.now.ip_repr.now incoming.now.header.now).answer }
        ensures socket { self.new ≡ (opens (C.context cx.old) self.old incoming.now.ip_repr.now incoming.now.header.now).socket }
        ensures drawn { cx.new ≡ (if (opens (C.context cx.old) self.old incoming.now.ip_repr.now incoming.now.header.now).draws then C.drawn cx.old else cx.old) }
    {
        if !is_first_syn(incoming.header) {
            return None;
        }
        let pair = FourTuple::of_segment(incoming.ip_repr, incoming.header);
        let now = cx.now();
        let number = isn(cx, &pair);
        self.tcb
            .answer_syn(incoming.ip_repr, incoming.header, number);
        self.tcb.refresh_recent(now);
        self.tcb.restart_timeout(now, 0);
        None
    }

    /// SYN-SENT: a reset counts if it acknowledges the SYN; then an acknowledgement of anything else is
    /// answered by a reset; then a SYN is taken.
    fn on_segment_syn_sent<C: Context>(
        &mut self,
        cx: &C,
        incoming: &ArrivedSegment<'_>,
    ) -> Option<Due>
        requires unoffered { self.old.offered ≡ None }
        requires sized { is_void_syn incoming.now.header.now ≡ false }
        ensures answer { answer_of result (C.context cx.now).instant self.new incoming.now.ip_repr.now incoming.now.header.now (length incoming.now.bytes.now) ≡
            (takes_answer (C.context cx.now) self.old incoming.now.ip_repr.now incoming.now.header.now incoming.now.bytes.now).answer }
        ensures socket { self.new ≡ (takes_answer (C.context cx.now) self.old incoming.now.ip_repr.now incoming.now.header.now incoming.now.bytes.now).socket }
    {
        let header = incoming.header;
        if is_rst(header.control) {
            self.on_reset_syn_sent(header.ack_number);
            None
        } else if self.acks_another(header.ack_number) {
            Some(Due::Reset)
        } else if is_syn(header.control) {
            self.on_syn(header, cx.now());
            None
        } else {
            None
        }
    }

    /// SYN-SENT: whether anything but the own SYN is acknowledged.
    fn acks_another(&self, ack_number: Option<SeqNumber>) -> bool
        ensures { result ≡ is_some ack_number && not (acks_syn self.now.tcb.sender.una ack_number) }
    {
        ack_number.is_some() && !self.tcb.is_syn_acked(ack_number)
    }

    /// SYN-SENT: a reset comes.
    fn on_reset_syn_sent(&mut self, ack_number: Option<SeqNumber>)
        requires unoffered { self.old.offered ≡ None }
        ensures { self.new ≡ (if acks_syn self.old.tcb.sender.una ack_number then ended self.old else self.old) }
    {
        if self.tcb.is_syn_acked(ack_number) {
            self.tcb.forget();
        }
    }

    /// SYN-SENT: a SYN comes.
    fn on_syn(&mut self, header: &TcpHeader, now: Instant)
        requires unoffered { self.old.offered ≡ None }
        requires instant { IsMoment now }
        requires sized { is_zero header.now.options.max_seg_size ≡ false }
        ensures { self.new ≡ with_tcb self.old (timeout_restarted (syn_answered self.old.tcb header.now now) now (queued_in self.old)) }
    {
        self.tcb.on_segment_syn_sent(header, now);
        self.tcb.restart_timeout(now, self.queued.len());
    }

    /// From SYN-RECEIVED on.
    fn receive<C: Context>(&mut self, cx: &C, incoming: &ArrivedSegment<'_>) -> Option<Due>
        requires unoffered { self.old.offered ≡ None }
        ensures answer { answer_of result (C.context cx.now).instant self.new incoming.now.ip_repr.now incoming.now.header.now (length incoming.now.bytes.now) ≡
            (received (C.context cx.now) self.old incoming.now.ip_repr.now incoming.now.header.now incoming.now.bytes.now).answer }
        ensures socket { self.new ≡ (received (C.context cx.now) self.old incoming.now.ip_repr.now incoming.now.header.now incoming.now.bytes.now).socket }
    {
        if is_rst(incoming.header.control) {
            self.on_reset(cx, incoming)
        } else if self.challenges_first(incoming.header, cx.now()) {
            self.draw(cx, incoming)
        } else {
            self.check(cx, incoming)
        }
    }

    /// Whether a segment elicits an acknowledgement before its own is looked at.
    fn challenges_first(&self, header: &TcpHeader, now: Instant) -> bool
        ensures { result ≡ challenges_first self.now.tcb header.now now }
    {
        self.tcb.is_stale(header, now) || self.tcb.challenges_syn(header)
    }

    /// A reset counts at RCV.NXT alone. Elsewhere in the window it is challenged.
    fn on_reset<C: Context>(&mut self, cx: &C, incoming: &ArrivedSegment<'_>) -> Option<Due>
        requires unoffered { self.old.offered ≡ None }
        ensures answer { answer_of result (C.context cx.now).instant self.new incoming.now.ip_repr.now incoming.now.header.now (length incoming.now.bytes.now) ≡
            (reset_arrives (C.context cx.now) self.old incoming.now.ip_repr.now incoming.now.header.now (length incoming.now.bytes.now)).answer }
        ensures socket { self.new ≡
            (reset_arrives (C.context cx.now) self.old incoming.now.ip_repr.now incoming.now.header.now (length incoming.now.bytes.now)).socket }
    {
        if self.tcb.takes_reset(incoming.header) {
            self.take_down();
            None
        } else if self.challenges_reset(incoming.header, incoming.bytes.len()) {
            self.draw(cx, incoming)
        } else {
            None
        }
    }

    /// Whether a reset that doesn't count elicits an acknowledgement.
    fn challenges_reset(&self, header: &TcpHeader, size: usize) -> bool
        requires { size < 2 ^ 63 }
        ensures { result ≡ challenges_reset self.now header.now size }
    {
        !(self.tcb.state.is_time_wait() || self.tcb.state.is_answering())
            && self.tcb.is_in_window(self.received.window(), header, size)
    }

    /// What is no reset, by its acknowledgement.
    fn check<C: Context>(&mut self, cx: &C, incoming: &ArrivedSegment<'_>) -> Option<Due>
        requires unoffered { self.old.offered ≡ None }
        ensures answer { answer_of result (C.context cx.now).instant self.new incoming.now.ip_repr.now incoming.now.header.now (length incoming.now.bytes.now) ≡
            (checked (acknowledgement_check self.old.tcb incoming.now.header.now.ack_number) (C.context cx.now) self.old incoming.now.ip_repr.now
            incoming.now.header.now incoming.now.bytes.now).answer }
        ensures socket { self.new ≡
            (checked (acknowledgement_check self.old.tcb incoming.now.header.now.ack_number) (C.context cx.now) self.old incoming.now.ip_repr.now
            incoming.now.header.now incoming.now.bytes.now).socket }
    {
        match self.tcb.check_acknowledgement(incoming.header.ack_number) {
            Verdict::Passes(by) => self.on_acceptable_ack(cx, incoming, by),
            Verdict::Old => self.on_old_ack(cx, incoming),
            Verdict::Drops => None,
            Verdict::Draws => self.draw(cx, incoming),
            Verdict::Resets => Some(Due::Reset),
        }
    }

    /// A segment whose acknowledgement passes, so far past SND.UNA.
    fn on_acceptable_ack<C: Context>(
        &mut self,
        cx: &C,
        incoming: &ArrivedSegment<'_>,
        by: u32,
    ) -> Option<Due>
        requires unoffered { self.old.offered ≡ None }
        ensures answer { answer_of result (C.context cx.now).instant self.new incoming.now.ip_repr.now incoming.now.header.now (length incoming.now.bytes.now) ≡
            (checked (Passes by) (C.context cx.now) self.old incoming.now.ip_repr.now incoming.now.header.now incoming.now.bytes.now).answer }
        ensures socket { self.new ≡
            (checked (Passes by) (C.context cx.now) self.old incoming.now.ip_repr.now incoming.now.header.now incoming.now.bytes.now).socket }
    {
        let free = self.received.window();
        if self
            .tcb
            .is_in_window(free, incoming.header, incoming.bytes.len())
        {
            self.on_inside_window(cx, incoming, by)
        } else {
            self.on_outside_window(cx, incoming, by)
        }
    }

    /// A segment whose acknowledgement is old: its payload and its FIN are taken.
    fn on_old_ack<C: Context>(&mut self, cx: &C, incoming: &ArrivedSegment<'_>) -> Option<Due>
        requires unoffered { self.old.offered ≡ None }
        ensures answer { answer_of result (C.context cx.now).instant self.new incoming.now.ip_repr.now incoming.now.header.now (length incoming.now.bytes.now) ≡
            (checked Old (C.context cx.now) self.old incoming.now.ip_repr.now incoming.now.header.now incoming.now.bytes.now).answer }
        ensures socket { self.new ≡ (checked Old (C.context cx.now) self.old incoming.now.ip_repr.now incoming.now.header.now incoming.now.bytes.now).socket }
    {
        let free = self.received.window();
        if self
            .tcb
            .is_in_window(free, incoming.header, incoming.bytes.len())
        {
            self.tcb.hear();
            self.tcb.take_tsval(incoming.header, cx.now());
            self.on_content(cx, incoming, None)
        } else {
            let again = self.is_repeated(incoming);
            self.answer_outside(cx, incoming, again)
        }
    }

    /// Outside the window. The acknowledgement of a segment that lies just before the window is taken.
    fn on_outside_window<C: Context>(
        &mut self,
        cx: &C,
        incoming: &ArrivedSegment<'_>,
        by: u32,
    ) -> Option<Due>
        requires unoffered { self.old.offered ≡ None }
        ensures answer { answer_of result (C.context cx.now).instant self.new incoming.now.ip_repr.now incoming.now.header.now (length incoming.now.bytes.now) ≡
            (passed_outside (C.context cx.now) self.old incoming.now.ip_repr.now incoming.now.header.now (length incoming.now.bytes.now) by).answer }
        ensures socket { self.new ≡
            (passed_outside (C.context cx.now) self.old incoming.now.ip_repr.now incoming.now.header.now (length incoming.now.bytes.now) by).socket }
    {
        if self.is_before_window(incoming.header, incoming.bytes.len()) {
            self.acknowledge(incoming.header, by, cx.now());
            let again = has_length(incoming.header, incoming.bytes.len());
            self.answer_outside(cx, incoming, again)
        } else {
            self.answer_outside(cx, incoming, false)
        }
    }

    /// Whether a segment with payload or a FIN lies just before the window.
    fn is_repeated(&self, incoming: &ArrivedSegment<'_>) -> bool
        ensures { result ≡ is_repeated self.now incoming.now.header.now (length incoming.now.bytes.now) }
    {
        let (header, size) = (incoming.header, incoming.bytes.len());
        self.is_before_window(header, size) && has_length(header, size)
    }

    /// Whether a segment outside the window lies just before it, past SYN-RECEIVED.
    fn is_before_window(&self, header: &TcpHeader, size: usize) -> bool
        requires { size < 2 ^ 63 }
        ensures { result ≡ is_before_window self.now header.now size }
    {
        !self.tcb.state.is_answering()
            && self.tcb.lies_before(self.received.capacity(), header, size)
    }

    /// Outside the window an answer may be drawn. What arrives again is answered at once.
    fn answer_outside<C: Context>(
        &mut self,
        cx: &C,
        incoming: &ArrivedSegment<'_>,
        again: bool,
    ) -> Option<Due>
        requires unoffered { self.old.offered ≡ None }
        ensures answer { answer_of result (C.context cx.now).instant self.new incoming.now.ip_repr.now incoming.now.header.now (length incoming.now.bytes.now) ≡
            (outside (C.context cx.now) self.old incoming.now.ip_repr.now incoming.now.header.now again).answer }
        ensures socket { self.new ≡ (outside (C.context cx.now) self.old incoming.now.ip_repr.now incoming.now.header.now again).socket }
    {
        if self.tcb.state.is_closed() {
            None
        } else {
            self.restart_time_wait(incoming.header, cx.now());
            self.challenge_or_acknowledge(cx, incoming, again)
        }
    }

    /// An answer may be drawn. What arrives again is answered at once.
    fn challenge_or_acknowledge<C: Context>(
        &mut self,
        cx: &C,
        incoming: &ArrivedSegment<'_>,
        again: bool,
    ) -> Option<Due>
        requires unoffered { self.old.offered ≡ None }
        ensures answer { answer_of result (C.context cx.now).instant self.new incoming.now.ip_repr.now incoming.now.header.now (length incoming.now.bytes.now) ≡
            (if again then acked (C.context cx.now) self.old incoming.now.ip_repr.now incoming.now.header.now no_ranges
            else drawn (C.context cx.now) self.old incoming.now.ip_repr.now incoming.now.header.now).answer }
        ensures socket { self.new ≡
            (if again then acked (C.context cx.now) self.old incoming.now.ip_repr.now incoming.now.header.now no_ranges
            else drawn (C.context cx.now) self.old incoming.now.ip_repr.now incoming.now.header.now).socket }
    {
        if again {
            Some(Due::Ack(self.acknowledge_all()))
        } else {
            self.draw(cx, incoming)
        }
    }

    /// A FIN that arrives again in TIME-WAIT restarts it.
    fn restart_time_wait(&mut self, header: &TcpHeader, now: Instant)
        requires unoffered { self.old.offered ≡ None }
        requires instant { IsMoment now }
        ensures { self.new ≡ waiting_anew self.old header.now now }
    {
        if self.tcb.state.is_time_wait() && is_fin(header.control) {
            self.tcb.timers.time_wait_ends = Some(time_wait_from(now));
        }
    }

    /// Inside the window: a SYN, or a segment to take.
    fn on_inside_window<C: Context>(
        &mut self,
        cx: &C,
        incoming: &ArrivedSegment<'_>,
        by: u32,
    ) -> Option<Due>
        requires unoffered { self.old.offered ≡ None }
        ensures answer { answer_of result (C.context cx.now).instant self.new incoming.now.ip_repr.now incoming.now.header.now (length incoming.now.bytes.now) ≡
            (inside (C.context cx.now) self.old incoming.now.ip_repr.now incoming.now.header.now incoming.now.bytes.now by).answer }
        ensures socket { self.new ≡ (inside (C.context cx.now) self.old incoming.now.ip_repr.now incoming.now.header.now incoming.now.bytes.now by).socket }
    {
        if is_syn(incoming.header.control) {
            self.draw(cx, incoming)
        } else {
            self.take(cx, incoming, by, None)
        }
    }

    /// Takes the socket down: a listener back to LISTEN, any other to CLOSED.
    fn take_down(&mut self)
        requires unoffered { self.old.offered ≡ None }
        ensures { self.new ≡ taken_down self.old }
    {
        if self.tcb.falls_back() {
            self.listen_on(self.tcb.names.listen);
        } else {
            self.tcb.forget();
        }
    }

    /// An accepted segment. Of its payload so many bytes may be stored already, by which RCV.NXT is to rise.
    pub(crate) fn take<C: Context>(
        &mut self,
        cx: &C,
        incoming: &ArrivedSegment<'_>,
        by: u32,
        stored: Option<usize>,
    ) -> Option<Due>
        requires unoffered { self.old.offered ≡ None }
        requires small { IfSome stored (λ n. n ≤ 2 ^ 30) }
        ensures answer { answer_of result (C.context cx.now).instant self.new incoming.now.ip_repr.now incoming.now.header.now (length incoming.now.bytes.now) ≡
            (taken_by stored (C.context cx.now) self.old incoming.now.ip_repr.now incoming.now.header.now incoming.now.bytes.now by).answer }
        ensures socket { self.new ≡
            (taken_by stored (C.context cx.now) self.old incoming.now.ip_repr.now incoming.now.header.now incoming.now.bytes.now by).socket }
    {
        let duplicates = self
            .tcb
            .duplicates_after(incoming.header, incoming.bytes.len(), by);
        self.acknowledge(incoming.header, by, cx.now());
        self.take_rest(cx, duplicates, incoming, stored)
    }

    /// What is left of a segment whose acknowledgement was taken, and which is so many duplicates in a
    /// row.
    fn take_rest<C: Context>(
        &mut self,
        cx: &C,
        duplicates: u8,
        incoming: &ArrivedSegment<'_>,
        stored: Option<usize>,
    ) -> Option<Due>
        requires unoffered { self.old.offered ≡ None }
        requires small { IfSome stored (λ n. n ≤ 2 ^ 30) }
        ensures answer { answer_of result (C.context cx.now).instant self.new incoming.now.ip_repr.now incoming.now.header.now (length incoming.now.bytes.now) ≡
            (rest_by stored (C.context cx.now) duplicates self.old incoming.now.ip_repr.now incoming.now.header.now incoming.now.bytes.now).answer }
        ensures socket { self.new ≡
            (rest_by stored (C.context cx.now) duplicates self.old incoming.now.ip_repr.now incoming.now.header.now incoming.now.bytes.now).socket }
    {
        if self.tcb.state.is_closed() {
            return None;
        }
        self.on_window(incoming.header, duplicates, cx.now());
        self.on_content(cx, incoming, stored)
    }

    /// The window of a segment and what its ranges name. It is so many duplicates in a row.
    fn on_window(&mut self, header: &TcpHeader, duplicates: u8, now: Instant)
        requires unoffered { self.old.offered ≡ None }
        requires instant { IsMoment now }
        ensures { self.new ≡ told self.old header.now duplicates now }
    {
        let queued = self.queued.len();
        take_window(&mut self.tcb, header, duplicates, queued, now);
    }

    /// The echo of a segment is taken that makes SND.UNA rise by so much. A loss that it says was none is
    /// undone first; how soon it comes may hint at reordering.
    fn sample_rtt(&mut self, header: &TcpHeader, by: u32, now: Instant)
        requires unoffered { self.old.offered ≡ None }
        requires instant { IsMoment now }
        ensures { self.new ≡ tsecr_heard self.old header.now by now }
    {
        if by == 0 || tells_no_rtt(&self.tcb) {
            return;
        }
        let queued = self.queued.len();
        self.tcb.undo_loss(header, by, queued);
        self.tcb.take_rtt_of_tsecr(header, by, now);
        self.tcb.hint_reordering(by, now);
    }

    /// The echo of a segment is taken, SND.UNA rises by so much, and what is acknowledged is freed.
    fn acknowledge(&mut self, header: &TcpHeader, by: u32, now: Instant)
        requires unoffered { self.old.offered ≡ None }
        requires instant { IsMoment now }
        ensures { self.new ≡ acknowledged (tsecr_heard self.old header.now by now) by now }
    {
        self.sample_rtt(header, by, now);
        let queued = self.queued.len();
        let freed = self.tcb.freed_by(by, queued);
        acknowledge_tcb(&mut self.tcb, by, queued, now);
        self.queued.dequeue_allocated(freed);
    }

    /// The payload and the FIN of an accepted segment, and what answers it.
    fn on_content<C: Context>(
        &mut self,
        cx: &C,
        incoming: &ArrivedSegment<'_>,
        stored: Option<usize>,
    ) -> Option<Due>
        requires unoffered { self.old.offered ≡ None }
        requires small { IfSome stored (λ n. n ≤ 2 ^ 30) }
        ensures answer { answer_of result (C.context cx.now).instant self.new incoming.now.ip_repr.now incoming.now.header.now (length incoming.now.bytes.now) ≡
            (content_by stored (C.context cx.now) self.old incoming.now.ip_repr.now incoming.now.header.now incoming.now.bytes.now).answer }
        ensures socket { self.new ≡
            (content_by stored (C.context cx.now) self.old incoming.now.ip_repr.now incoming.now.header.now incoming.now.bytes.now).socket }
    {
        let next = self.tcb.receiver.next;
        let payload = self.take_payload(incoming.header, incoming.bytes, stored);
        self.finish(cx, next, &payload, incoming)
    }

    /// The FIN of a segment whose payload was taken, and what answers it. RCV.NXT was `next` before that.
    fn finish<C: Context>(
        &mut self,
        cx: &C,
        next: SeqNumber,
        payload: &Payload,
        incoming: &ArrivedSegment<'_>,
    ) -> Option<Due>
        requires unoffered { self.old.offered ≡ None }
        requires small { payload.now.advance ≤ 2 ^ 30 }
        ensures answer { answer_of result (C.context cx.now).instant self.new incoming.now.ip_repr.now incoming.now.header.now (length incoming.now.bytes.now) ≡
            (finished (C.context cx.now) (next_at self.old.tcb next) (data_stored self.old payload.now.advance payload.now.fills payload.now.early) incoming.now.ip_repr.now
            incoming.now.header.now (length incoming.now.bytes.now)).answer }
        ensures socket { self.new ≡
            (finished (C.context cx.now) (next_at self.old.tcb next) (data_stored self.old payload.now.advance payload.now.fills payload.now.early) incoming.now.ip_repr.now
            incoming.now.header.now (length incoming.now.bytes.now)).socket }
    {
        let (now, size) = (cx.now(), incoming.bytes.len());
        self.on_fin(next, incoming.header, size, payload.advance, now);
        self.tcb.keep_probe(self.queued.len());
        self.answer(cx, incoming, payload.fills, payload.early)
    }

    /// Takes the FIN of a segment whose payload made RCV.NXT rise by so much from `next`.
    fn on_fin(
        &mut self,
        next: SeqNumber,
        header: &TcpHeader,
        size: usize,
        advance: usize,
        now: Instant,
    )
        requires unoffered { self.old.offered ≡ None }
        requires instant { IsMoment now }
        requires small { advance ≤ 2 ^ 30 }
        ensures { self.new ≡ with_tcb self.old (with_fin self.old.tcb (next_at self.old.tcb next) header.now size advance now) }
    {
        if is_fin(header.control) {
            let mut before = self.tcb;
            before.receiver.next = next;
            self.tcb.on_fin(&before, header, size, advance, now);
        }
    }

    /// Payload that is held early is acknowledged at once; else the payload or the FIN that was taken may be.
    fn answer<C: Context>(
        &mut self,
        cx: &C,
        incoming: &ArrivedSegment<'_>,
        fills: bool,
        early: Option<usize>,
    ) -> Option<Due>
        requires unoffered { self.old.offered ≡ None }
        ensures answer { answer_of result (C.context cx.now).instant self.new incoming.now.ip_repr.now incoming.now.header.now (length incoming.now.bytes.now) ≡
            (answer_for (C.context cx.now) self.old incoming.now.ip_repr.now incoming.now.header.now (length incoming.now.bytes.now) fills early).answer }
        ensures socket { self.new ≡
            (answer_for (C.context cx.now) self.old incoming.now.ip_repr.now incoming.now.header.now (length incoming.now.bytes.now) fills early).socket }
    {
        match early {
            Some(offset) => Some(Due::AckWithSack(self.acknowledge_all(), offset)),
            None => self.answer_taken(cx, incoming, fills),
        }
    }

    /// What was taken is acknowledged at once where as much came as two full segments take; else an
    /// acknowledgement may become due.
    fn answer_taken<C: Context>(
        &mut self,
        cx: &C,
        incoming: &ArrivedSegment<'_>,
        fills: bool,
    ) -> Option<Due>
        requires unoffered { self.old.offered ≡ None }
        ensures answer { answer_of result (C.context cx.now).instant self.new incoming.now.ip_repr.now incoming.now.header.now (length incoming.now.bytes.now) ≡
            (answer_for (C.context cx.now) self.old incoming.now.ip_repr.now incoming.now.header.now (length incoming.now.bytes.now) fills None).answer }
        ensures socket { self.new ≡
            (answer_for (C.context cx.now) self.old incoming.now.ip_repr.now incoming.now.header.now (length incoming.now.bytes.now) fills None).socket }
    {
        if self.answers_at_once(cx, incoming) {
            Some(Due::Ack(self.acknowledge_all()))
        } else {
            self.delay_ack(incoming.header, incoming.bytes.len(), fills, cx.now());
            None
        }
    }

    /// Whether a segment with payload or a FIN was taken, and as much came since the last acknowledgement
    /// as two full segments take.
    fn answers_at_once<C: Context>(&self, cx: &C, incoming: &ArrivedSegment<'_>) -> bool
        ensures { result ≡ answers_at_once (C.context cx.now) self.now.tcb incoming.now.ip_repr.now incoming.now.header.now (length incoming.now.bytes.now) }
    {
        has_length(incoming.header, incoming.bytes.len())
            && self
                .tcb
                .arrived_twice(&AddressPair::of_packet(incoming.ip_repr), cx.ip_mtu())
    }

    /// An acknowledgement of a segment with so many bytes becomes due, if it isn't already.
    fn delay_ack(&mut self, header: &TcpHeader, size: usize, fills: bool, now: Instant)
        requires unoffered { self.old.offered ≡ None }
        requires instant { IsMoment now }
        ensures { self.new ≡ with_tcb self.old (ack_due self.old.tcb header.now size fills now) }
    {
        self.tcb.ack_due(header, size, fills, now);
    }

    /// What is told of the runs that are held, where the first byte of a segment is held at an offset, if
    /// both SYNs permitted it: the run with this byte, and then the two highest others.
    fn sack_blocks(&self, offset: usize) -> [Option<(u32, u32)>; 3]
        ensures { result ≡ sack_blocks self.now offset }
    {
        if !self.tcb.peer.sack {
            return [None; 3];
        }
        let next = self.tcb.receiver.next;
        let [highest, second] = self.received.others_than(offset);
        [
            numbers_of(next, self.received.run_at(offset)),
            numbers_of(next, highest),
            numbers_of(next, second),
        ]
    }

    /// An acknowledgement that answers a segment which isn't acceptable, at most one a second.
    fn draw<C: Context>(&mut self, cx: &C, incoming: &ArrivedSegment<'_>) -> Option<Due>
        requires unoffered { self.old.offered ≡ None }
        ensures answer { answer_of result (C.context cx.now).instant self.new incoming.now.ip_repr.now incoming.now.header.now (length incoming.now.bytes.now) ≡
            (drawn (C.context cx.now) self.old incoming.now.ip_repr.now incoming.now.header.now).answer }
        ensures socket { self.new ≡ (drawn (C.context cx.now) self.old incoming.now.ip_repr.now incoming.now.header.now).socket }
    {
        if self.tcb.may_challenge(cx.now()) {
            self.tcb.timers.challenges_from = Some(next_challenge_from(cx.now()));
            Some(Due::Ack(self.acknowledge_all()))
        } else {
            None
        }
    }

    /// An acknowledgement of all that came answers a segment. Returns its window field: what is recorded
    /// of it may change the next one.
    fn acknowledge_all(&mut self) -> u16
        requires unoffered { self.old.offered ≡ None }
        ensures window { result ≡ window_of self.old }
        ensures socket { self.new ≡ with_tcb self.old (ack_recorded self.old.tcb (room_of self.old.received) (window_of self.old)) }
    {
        let window = self.window();
        self.tcb.record_ack(self.received.capacity(), window);
        window
    }

    /// The window field, but on a SYN.
    pub(crate) fn window(&self) -> u16
        ensures { result ≡ window_of self.now }
    {
        let (capacity, free) = (self.received.capacity(), self.received.window());
        let space = self.tcb.announced(capacity, free, self.received.len());
        self.tcb.window_field(capacity, space)
    }
}

/// Which answer to a segment is due.
#[derive(Clone, Copy, Debug)]
pub enum Due {
    Reset,
    /// An acknowledgement with this window field.
    Ack(u16),
    /// One that tells of the run which is held with its first byte at this offset.
    AckWithSack(u16, usize),
}

/// A reply as it is handed out.
fn replied(reply: &Reply) -> (IpRepr, TcpRepr<'static>)
    ensures bare { result.1.payload.now ≡ [] }
    ensures reply { replies_in (Some result) ≡ Some reply.now }
{
    (reply.header, TcpRepr::new(&reply.segment, &[]))
}

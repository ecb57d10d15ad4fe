//! The segments that a socket makes.
ghost use Rattle.std.specs.Prelude.{◌≡◌, ◌+◌, ◌≤◌, ◌<◌, ◌^◌, List, ℕ, Option};
ghost use Rattle.net_base.specs.Time.{IsMoment};
ghost use Rattle.tcp_block.specs.Segments.{hop_limit_of, tsval_by, tsval_of, segment, ack_segment, sack_segment, mss_for, syn_options, next_if_heard, syn_segment};
ghost use Rattle.tcp_block.specs.Segments.{reset_segment, keep_alive_segment, segment_len, reply_to, reset_seq, reset_ack, reset_for, rst_reply};

use super::initial::{field_of, local_scale};
use crate::{AddressPair, FourTuple, Reply, Tcb};
use ip_wire::{
    IpRepr, SeqNumber, TcpControl, TcpHeader, TcpOptions, TcpTimestampGenerator, TcpTimestampRepr,
};
use net_base::Instant;
use tcp_state::offsets::advanced_by;

const DEFAULT_HOP_LIMIT: u8 = 64;

/// The length of a TCP header without options.
const HEADER_LEN: usize = 20;

const NO_OPTIONS: TcpOptions = TcpOptions {
    max_seg_size: None,
    window_scale: None,
    sack_permitted: false,
    sack_ranges: [None; 3],
    timestamp: None,
};

/// The generator's value at an instant, with the last value that came.
fn tsval_by(
    generator: Option<TcpTimestampGenerator>,
    now: Instant,
    recent: u32,
) -> Option<TcpTimestampRepr>
    requires { IsMoment now }
    ensures { result ≡ tsval_by generator now recent }
{
    match generator {
        None => None,
        Some(generator) => Some(TcpTimestampRepr {
            tsval: generator.value_at(now),
            tsecr: recent,
        }),
    }
}

/// The largest payload that an IP packet holds after a header without options.
fn mss_for(ip_mtu: usize, ip_header_len: usize) -> u16
    ensures { result ≡ mss_for ip_mtu ip_header_len }
{
    ip_mtu
        .saturating_sub(ip_header_len)
        .saturating_sub(HEADER_LEN)
        .min(u16::MAX as usize) as u16
}

impl Tcb {
    /// The hop limit that is set, or 64.
    pub fn hop_limit(&self) -> u8
        ensures { result ≡ hop_limit_of self.now.settings.hop_limit }
    {
        match self.settings.hop_limit {
            None => DEFAULT_HOP_LIMIT,
            Some(hop_limit) => hop_limit,
        }
    }

    /// The timestamps of a segment, if both SYNs have them.
    pub fn tsval(&self, now: Instant) -> Option<TcpTimestampRepr>
        requires { IsMoment now }
        ensures { result ≡ tsval_of self.now now }
    {
        if self.peer.timestamps {
            tsval_by(self.stamps.generator, now, self.peer.recent)
        } else {
            None
        }
    }

    /// A segment between these endpoints that acknowledges all that came.
    pub fn segment(
        &self,
        pair: &FourTuple,
        now: Instant,
        window: u16,
        control: TcpControl,
        seq_number: SeqNumber,
    ) -> TcpHeader
        requires { IsMoment now }
        ensures { result ≡ segment self.now pair.now now window control seq_number }
    {
        let timestamp = self.tsval(now);
        TcpHeader {
            src_port: pair.local_port,
            dst_port: pair.remote_port,
            control,
            seq_number,
            ack_number: Some(self.receiver.next),
            window_len: window,
            options: TcpOptions {
                timestamp,
                ..NO_OPTIONS
            },
        }
    }

    /// A bare acknowledgement, past all that was ever sent.
    pub fn ack_segment(&self, pair: &FourTuple, now: Instant, window: u16) -> TcpHeader
        requires { IsMoment now }
        ensures { result ≡ ack_segment self.now pair.now now window }
    {
        self.segment(pair, now, window, TcpControl::None, self.snd_max())
    }

    /// The same with ranges that are held out of order.
    pub fn sack_segment(
        &self,
        pair: &FourTuple,
        now: Instant,
        window: u16,
        sack_ranges: [Option<(u32, u32)>; 3],
    ) -> TcpHeader
        requires { IsMoment now }
        ensures { result ≡ sack_segment self.now pair.now now window sack_ranges }
    {
        let header = self.ack_segment(pair, now, window);
        TcpHeader {
            options: TcpOptions {
                sack_ranges,
                ..header.options
            },
            ..header
        }
    }

    /// The options of a SYN: a first one asks for all, and an answer only for what the other SYN had.
    fn syn_options(&self, mss: u16, now: Instant, scale: u8) -> TcpOptions
        requires { IsMoment now }
        ensures { result ≡ syn_options self.now mss now scale }
    {
        let is_first = !self.receiver.took_syn;
        TcpOptions {
            max_seg_size: Some(mss),
            window_scale: if is_first || self.peer.scale.is_some() {
                Some(scale)
            } else {
                None
            },
            sack_permitted: is_first || self.peer.sack,
            sack_ranges: [None; 3],
            timestamp: if is_first || self.peer.timestamps {
                tsval_by(self.generator(), now, self.peer.recent)
            } else {
                None
            },
        }
    }

    /// RCV.NXT, where a SYN was taken.
    fn next_if_heard(&self) -> Option<SeqNumber>
        ensures { result ≡ next_if_heard self.now }
    {
        if self.receiver.took_syn {
            Some(self.receiver.next)
        } else {
            None
        }
    }

    /// The own SYN, for a receive buffer of this capacity and so much free space.
    pub fn syn_segment(
        &self,
        pair: &FourTuple,
        now: Instant,
        ip_mtu: usize,
        capacity: usize,
        free: usize,
    ) -> TcpHeader
        requires { IsMoment now }
        ensures { result ≡ syn_segment self.now pair.now now ip_mtu capacity free }
    {
        let mss = mss_for(ip_mtu, pair.addresses.ip_header_len());
        TcpHeader {
            src_port: pair.local_port,
            dst_port: pair.remote_port,
            control: TcpControl::Syn,
            seq_number: self.sender.una,
            ack_number: self.next_if_heard(),
            window_len: field_of(free),
            options: self.syn_options(mss, now, local_scale(capacity)),
        }
    }

    /// The reset after an abort or a user timeout, past all that was ever sent.
    pub fn reset_segment(&self, pair: &FourTuple, now: Instant, window: u16) -> TcpHeader
        requires { IsMoment now }
        ensures { result ≡ reset_segment self.now pair.now now window }
    {
        let mut header = self.segment(pair, now, window, TcpControl::Rst, self.snd_max());
        header.ack_number = self.next_if_heard();
        header
    }

    /// One byte below SND.UNA.
    pub fn keep_alive_segment(&self, pair: &FourTuple, now: Instant, window: u16) -> TcpHeader
        requires { IsMoment now }
        ensures { result ≡ keep_alive_segment self.now pair.now now window }
    {
        let below = advanced_by(self.sender.una, u32::MAX as usize);
        self.segment(pair, now, window, TcpControl::None, below)
    }
}

/// The packet that answers one that came, after its header and between its endpoints, exchanged.
pub fn reply_to(ip_repr: &IpRepr, hop_limit: u8, segment: TcpHeader) -> Reply
    ensures { result ≡ reply_to ip_repr.now hop_limit segment }
{
    Reply {
        header: AddressPair::of_packet(ip_repr).header_for(hop_limit, segment.header_len()),
        segment,
    }
}

/// A reset's sequence number: the acknowledgement that it answers, or 0.
fn reset_seq(ack_number: Option<SeqNumber>) -> SeqNumber
    ensures { result ≡ reset_seq ack_number }
{
    match ack_number {
        None => SeqNumber(0),
        Some(number) => number,
    }
}

/// What a reset acknowledges: the end of a segment that came without ACK.
fn reset_ack(header: &TcpHeader, size: usize) -> Option<SeqNumber>
    ensures { result ≡ reset_ack header.now.ack_number header.now.control header.now.seq_number size }
{
    match header.ack_number {
        None => Some(advanced_by(advanced_by(header.seq_number, size), header.control.len())),
        Some(_) => None,
    }
}

/// The reset that answers a segment with so many bytes.
fn reset_for(header: &TcpHeader, size: usize) -> TcpHeader
    ensures { result ≡ reset_for header.now size }
{
    TcpHeader {
        src_port: header.dst_port,
        dst_port: header.src_port,
        control: TcpControl::Rst,
        seq_number: reset_seq(header.ack_number),
        ack_number: reset_ack(header, size),
        window_len: 0,
        options: NO_OPTIONS,
    }
}

/// The reset that answers a segment which no socket takes, or whose acknowledgement can't be.
pub fn rst_reply(ip_repr: &IpRepr, header: &TcpHeader, size: usize) -> Reply
    ensures { result ≡ rst_reply ip_repr.now header.now size }
{
    reply_to(ip_repr, DEFAULT_HOP_LIMIT, reset_for(header, size))
}

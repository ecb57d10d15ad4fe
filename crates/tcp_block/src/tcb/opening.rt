//! A segment comes in LISTEN or SYN-SENT.
ghost use Rattle.std.specs.Prelude.{◌≡◌, ◌≤◌, ◌^◌, ◌==◌, ◌&&◌, not, false};
ghost use Rattle.net_base.specs.Time.{IsMoment};
ghost use Rattle.tcp_state.specs.Controls.{is_syn, is_fin, is_rst, or_mss, is_zero, or_recent};
ghost use Rattle.tcp_block.specs.Opening.{default_mss, send_mss, paired, peer_of, took_syn, is_first_syn, answering, acks_syn, connected, crossed, syn_answered};
ghost use Rattle.tcp_block.specs.Arrival.{is_void_syn};
ghost use Rattle.tcp_block.specs.Segments.{has_length};

use super::acknowledged::or_number;
use super::initial::{DEFAULT_MSS, DEFAULT_MSS_V6};
use crate::{AddressPair, FourTuple, Peer, Sender, State, Tcb};
use ip_wire::{IpRepr, SeqNumber, TcpControl, TcpHeader, TcpTimestampRepr};
use net_base::Instant;
use tcp_state::controls::{is_fin, is_rst, is_syn};
use tcp_state::offsets::advanced_by;

/// Whether a segment is a SYN that names an MSS of 0.
pub fn is_void_syn(header: &TcpHeader) -> bool
    ensures { result ≡ is_void_syn header.now }
{
    is_syn(header.control) && is_zero(header.options.max_seg_size)
}

/// Whether a segment has payload or a FIN.
pub fn has_length(header: &TcpHeader, size: usize) -> bool
    ensures { result ≡ has_length header.now size }
{
    size != 0 || header.control.len() != 0
}

fn is_zero(mss: Option<u16>) -> bool
    ensures { result ≡ is_zero mss }
{
    match mss {
        None => false,
        Some(mss) => mss == 0,
    }
}

/// Whether a segment is a SYN without ACK.
pub fn is_first_syn(header: &TcpHeader) -> bool
    ensures { result ≡ is_first_syn header.now }
{
    is_syn(header.control) && header.ack_number.is_none()
}

/// The largest payload that the remote takes.
pub fn or_mss(mss: Option<u16>) -> u16
    ensures { result ≡ or_mss mss }
{
    match mss {
        None => DEFAULT_MSS,
        Some(mss) => mss,
    }
}

/// The largest payload that a remote takes which names none.
fn default_mss(pair: Option<FourTuple>) -> u16
    ensures { result ≡ default_mss pair }
{
    match pair {
        None => DEFAULT_MSS,
        Some(pair) => match pair.addresses {
            AddressPair::Ipv4 { .. } => DEFAULT_MSS,
            AddressPair::Ipv6 { .. } => DEFAULT_MSS_V6,
        },
    }
}

/// The largest payload that goes to a remote.
fn send_mss(pair: Option<FourTuple>, mss: Option<u16>) -> u16
    ensures { result ≡ send_mss pair mss }
{
    match mss {
        None => default_mss(pair),
        Some(mss) => mss,
    }
}

/// The timestamp that came last.
pub fn or_recent(tsval: Option<TcpTimestampRepr>, recent: u32) -> u32
    ensures { result ≡ or_recent tsval recent }
{
    match tsval {
        None => recent,
        Some(tsval) => tsval.tsval,
    }
}

impl Peer {
    /// What the remote's SYN says of it.
    fn of_syn(pair: Option<FourTuple>, header: &TcpHeader) -> Peer
        ensures { result ≡ peer_of pair header.now }
    {
        Peer {
            window: header.window_len as u32,
            largest_window: header.window_len as u32,
            snd_wl1: header.seq_number,
            snd_wl2: or_number(SeqNumber(0), header.ack_number),
            mss: send_mss(pair, header.options.max_seg_size),
            scale: header.options.window_scale,
            sack: header.options.sack_permitted,
            timestamps: header.options.timestamp.is_some(),
            recent: or_recent(header.options.timestamp, 0),
        }
    }
}

impl Tcb {
    /// Takes the remote's SYN.
    fn on_syn(&mut self, header: &TcpHeader)
        requires { is_zero header.now.options.max_seg_size ≡ false }
        ensures { self.new ≡ took_syn self.old header.now }
    {
        self.receiver.next = advanced_by(header.seq_number, 1);
        self.receiver.took_syn = true;
        self.receiver.last_ack = self.receiver.next;
        self.peer = Peer::of_syn(self.names.pair, header);
        self.reno.set_mss(self.peer.mss);
    }

    /// LISTEN takes a SYN; its own initial sequence number is this.
    pub fn answer_syn(&mut self, ip_repr: &IpRepr, header: &TcpHeader, number: u32)
        requires { is_zero header.now.options.max_seg_size ≡ false }
        ensures { self.new ≡ answering self.old ip_repr.now header.now number }
    {
        self.names.pair = Some(FourTuple::of_segment(ip_repr, header));
        self.on_syn(header);
        self.state = State::SynReceived;
        self.sender = Sender::new(SeqNumber(number), true);
    }

    /// Whether this acknowledges the own SYN and nothing else.
    pub fn is_syn_acked(&self, ack_number: Option<SeqNumber>) -> bool
        ensures { result ≡ acks_syn self.now.sender.una ack_number }
    {
        match ack_number {
            None => false,
            Some(number) => self.sender.una.distance(number) == 1,
        }
    }

    /// SYN-SENT takes a SYN, which acknowledges its own, or crosses it.
    pub fn on_segment_syn_sent(&mut self, header: &TcpHeader, now: Instant)
        requires instant { IsMoment now }
        requires mss { is_zero header.now.options.max_seg_size ≡ false }
        ensures { self.new ≡ syn_answered self.old header.now now }
    {
        self.on_syn(header);
        if header.ack_number.is_some() {
            self.take_rtt_of_tsecr(header, 1, now);
            self.move_una(1, 0, now);
            self.state = State::Established;
            self.timers.ack_at = Some(now);
            self.refresh_recent(now);
        } else {
            self.hear();
            self.state = State::SynReceived;
            self.refresh_recent(now);
        }
    }
}

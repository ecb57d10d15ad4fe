//! The TCB of a connection (RFC 9293, section 3.3.1): all that a socket knows but for its bytes.
use crate::{FourTuple, Reno, RoundTrip, Scoreboard, State};
use ip_wire::{IpListenEndpoint, SeqNumber, TcpTimestampGenerator};
use net_base::{Duration, Instant};

/// What the socket is named by.
#[derive(Clone, Copy, Debug, PartialEq, Eq)]
pub struct Names {
    /// What it listens on, or listened on before a SYN came; port 0 for nothing.
    pub listen: IpListenEndpoint,
    pub pair: Option<FourTuple>,
}

/// The egress path. Counts are distances from `una`.
#[derive(Clone, Copy, Debug, PartialEq, Eq)]
pub struct Sender {
    /// SND.UNA, the first sequence number that isn't acknowledged.
    pub una: SeqNumber,
    /// How far it lies past ISS, as far as 32 bits tell.
    pub past_iss: u32,
    /// Whether it is the SYN's.
    pub syn_unacked: bool,
    /// SND.NXT less SND.UNA.
    pub flight_size: u32,
    /// How far past SND.UNA the highest position lies, and one more, that was ever sent.
    pub snd_max: u32,
    /// Duplicate acknowledgements of SND.UNA in a row, at most 4.
    pub duplicates: u8,
    /// How far past SND.UNA the highest position lies that a SACK range named.
    pub sacked: u32,
    /// Whether the segment at SND.UNA is to be retransmitted at once, since the third duplicate came, or a partial
    /// acknowledgement.
    pub resend: bool,
    /// How much is to be acknowledged until it is more than `recover` (RFC 6582), the highest position that
    /// was sent when fast recovery began, or the timer ran out.
    pub recover: u32,
    /// Whether a blind partial acknowledgement came since fast recovery began.
    pub partial: bool,
    /// Whether a SYN of its own was retransmitted.
    pub syn_lost: bool,
    /// Timeouts of the retransmission timer in a row.
    pub timeouts: u8,
    /// Probes of a closed window and keep-alives in a row without an answer.
    pub unanswered: u8,
    /// Whether a reset is to go.
    pub reset_due: bool,
}

/// The ingress path.
#[derive(Clone, Copy, Debug, PartialEq, Eq)]
pub struct Receiver {
    /// RCV.NXT, the next number to receive.
    pub next: SeqNumber,
    pub took_syn: bool,
    pub took_fin: bool,
    /// How far past RCV.NXT the furthest right edge lies of the windows that were announced.
    pub rcv_adv: u32,
    /// The largest payload of a segment, as the own SYN named it.
    pub mss: u16,
    /// Last.ACK.sent, RCV.NXT as the last acknowledgement named it.
    pub last_ack: SeqNumber,
}

/// What the remote said of itself.
#[derive(Clone, Copy, Debug, PartialEq, Eq)]
pub struct Peer {
    /// SND.WND, scaled already.
    pub window: u32,
    /// The largest window that it named.
    pub largest_window: u32,
    /// SND.WL1, the sequence number of the segment that set the window last.
    pub snd_wl1: SeqNumber,
    /// SND.WL2, its acknowledgement.
    pub snd_wl2: SeqNumber,
    /// The largest payload that it takes.
    pub mss: u16,
    /// The shift of its window fields, if its SYN had the option.
    pub scale: Option<u8>,
    /// Whether its SYN permitted selective acknowledgements.
    pub sack: bool,
    /// Whether its SYN had timestamps.
    pub timestamps: bool,
    /// TS.Recent, the timestamp that came last.
    pub recent: u32,
}

/// The timestamps of a connection (RFC 7323).
#[derive(Clone, Copy, Debug, PartialEq, Eq)]
pub struct Stamps {
    /// The clock of the own ones, as the first SYN had it.
    pub generator: Option<TcpTimestampGenerator>,
    /// What it said when that SYN went.
    pub first: u32,
    /// Until when TS.Recent counts.
    pub recent_valid_until: Option<Instant>,
}

/// The instants at which something is due.
#[derive(Clone, Copy, Debug, PartialEq, Eq)]
pub struct Timers {
    pub retransmit_at: Option<Instant>,
    /// The next probe of a closed window.
    pub probe_at: Option<Instant>,
    /// The acknowledgement that is due.
    pub ack_at: Option<Instant>,
    /// Whether a segment with payload waits for it.
    pub data_unacked: bool,
    /// When an answer to a segment that isn't acceptable may be drawn again.
    pub challenges_from: Option<Instant>,
    /// When a probe or a keep-alive counts again as one without an answer.
    pub counts_from: Option<Instant>,
    pub time_wait_ends: Option<Instant>,
    /// Since when the user timeout runs.
    pub timeout_since: Option<Instant>,
}

/// How what is sent is held back where congestion may be.
#[derive(Clone, Copy, Debug, PartialEq, Eq)]
pub enum CongestionControl {
    /// Not at all.
    None,
    /// As RFC 5681 says.
    Reno,
    /// As RFC 9438 says.
    Cubic,
}

/// Loss recovery by selective acknowledgements (RFC 6675; RFC 8985). Counts are distances from SND.UNA.
#[derive(Clone, Copy, Debug, PartialEq, Eq)]
pub struct Loss {
    /// What the remote holds.
    pub board: Scoreboard,
    /// HighRxt: where what was retransmitted in this recovery, or in the last one, ends, but for what is held.
    pub resent: u32,
    /// How many segments more go into holes for the last partial acknowledgement (RFC 6937, 3).
    pub credit: u8,
    /// The highest position that was sent, and one more, when something last was retransmitted.
    pub mark: u32,
    /// Whether one run that is held says that what lies before it is lost: a probe went after what isn't
    /// acknowledged, so the order on the way doesn't explain it.
    pub dupthresh_one: bool,
    /// Whether the last segment that was sent is to be retransmitted, as a probe.
    pub probes: bool,
    /// Whether a probe went, and nothing new was acknowledged since.
    pub probed: bool,
    /// RescueRxt, and one more: SND.UNA has to be there for the last segment to be retransmitted though nothing says that
    /// it is lost (RFC 6675, 4, NextSeg, and 5).
    pub rescue_rxt: u32,
    /// When a probe goes, if nothing new is acknowledged.
    pub probe_at: Option<Instant>,
    /// For how many quarters of the shortest round trip what is missing is waited for, since it may only be
    /// late, at most 16; none before anything came late (reo_wnd_mult of RFC 8985, 6.2).
    pub reo_wnd_mult: u8,
    /// Until when it is: then a recovery begins.
    pub reorder_until: Option<Instant>,
    /// What the window was before this loss, until something new is acknowledged.
    pub undo: Option<Undo>,
}

/// What is undone where a loss wasn't one (RFC 4015).
#[derive(Clone, Copy, Debug, PartialEq, Eq)]
pub struct Undo {
    pub reno: Reno,
    /// The timestamp of what first was retransmitted since then. None where nothing did.
    pub tsval: Option<u32>,
    /// The shortest round trip after that: from then on an answer to it may come.
    pub answers_from: Option<Instant>,
}

/// How the congestion window is used (RFC 7661).
#[derive(Clone, Copy, Debug, PartialEq, Eq)]
pub struct Validation {
    /// What was in flight when payload last went.
    pub flight: u32,
    /// Since when it isn't known that the window is used, at most: the last acknowledgement that validated
    /// it, or the end of a period without one. None before the connection is there.
    pub since: Option<Instant>,
}

/// What the user set. A new connection keeps it.
#[derive(Clone, Copy, Debug, PartialEq, Eq)]
pub struct Settings {
    /// The user timeout.
    pub timeout: Option<Duration>,
    pub ack_delay: Option<Duration>,
    pub keep_alive: Option<Duration>,
    /// When a keep-alive is due.
    pub keep_alive_at: Option<Instant>,
    pub nagle: bool,
    /// The hop limit, if it isn't 64.
    pub hop_limit: Option<u8>,
    pub timestamps: Option<TcpTimestampGenerator>,
    pub congestion_control: CongestionControl,
    /// Whether the answer to a SYN waits.
    pub synack_paused: bool,
    /// How many timeouts end a connection that is being opened.
    pub opening_retries: Option<u8>,
    /// How many end one that is open.
    pub retries: Option<u8>,
    /// The least retransmission timeout that is asked for.
    pub min_rto: Duration,
    /// Whether round trips are taken in microseconds.
    pub fine_timer: bool,
}

/// The TCB.
#[derive(Clone, Copy, Debug, PartialEq, Eq)]
pub struct Tcb {
    pub state: State,
    pub names: Names,
    pub sender: Sender,
    pub receiver: Receiver,
    pub peer: Peer,
    pub stamps: Stamps,
    pub timers: Timers,
    pub round_trip: RoundTrip,
    pub reno: Reno,
    pub loss: Loss,
    pub validation: Validation,
    pub settings: Settings,
}

mod acknowledged;
mod checks;
mod due;
mod endpoints;
mod initial;
mod loss_recovery;
mod opening;
mod payload;
mod retries;
mod rules;
mod segments;
mod timeout;
mod timestamps;
mod transmitted;
mod undoing;
mod validating;

pub use checks::Verdict;
pub use opening::{has_length, is_first_syn, is_void_syn};
pub use payload::numbers_of;
pub use rules::{PROBE, Part};
pub use segments::{reply_to, rst_reply};

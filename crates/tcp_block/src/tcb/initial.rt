//! A new TCB, and what follows from its fields.
ghost use Rattle.std.specs.Prelude.{◌≡◌, ◌+◌, ◌*◌, ◌≤◌, ◌^◌};
ghost use Rattle.tcp_block.specs.TcbRules.{default_settings, initial_window, initial_sender, initial_tcb, forgotten, unacked, snd_max, past_snd_max};
ghost use Rattle.tcp_block.specs.TcbRules.{local_scale, scale_for, field_of, local_shift, window_field, told_of, least_step, is_worth_telling, rcv_adv_after, announced};

use crate::{
    CongestionControl, Loss, Names, Peer, Receiver, Reno, RoundTrip, Sender, Settings, Stamps,
    State, Tcb, Timers, Validation,
};
use ip_wire::{IpListenEndpoint, MAX_WINDOW_SCALE, SeqNumber};
use net_base::Duration;
use tcp_state::offsets::advanced_by;

/// The delay of an acknowledgement, if no other is set, in microseconds.
const ACK_DELAY: u64 = 10_000;

/// How many timeouts end a connection that is being opened, if nothing else is set: more than three
/// minutes.
const OPENING_RETRIES: u8 = 9;

/// How many end one that is open.
const RETRIES: u8 = 16;

/// The least retransmission timeout, if no other is set, in microseconds.
const MIN_RTO: u64 = 1_000_000;

/// The largest payload that a remote takes over IPv4 that names none.
pub const DEFAULT_MSS: u16 = 536;

/// And over IPv6.
pub const DEFAULT_MSS_V6: u16 = 1220;

impl Names {
    /// No names.
    pub const NONE: Names = Names {
        listen: IpListenEndpoint {
            addr: None,
            port: 0,
        },
        pair: None,
    };
}

impl Sender {
    /// A sender whose SYN will have this number, or without one.
    pub const fn new(una: SeqNumber, syn_unacked: bool) -> Sender
        ensures { result ≡ initial_sender una syn_unacked }
    {
        Sender {
            una,
            past_iss: 0,
            syn_unacked,
            flight_size: 0,
            snd_max: 0,
            duplicates: 0,
            sacked: 0,
            resend: false,
            recover: 0,
            partial: false,
            syn_lost: false,
            timeouts: 0,
            unanswered: 0,
            reset_due: false,
        }
    }
}

impl Receiver {
    /// Nothing came.
    const NONE: Receiver = Receiver {
        next: SeqNumber(0),
        took_syn: false,
        took_fin: false,
        rcv_adv: 0,
        mss: 0,
        last_ack: SeqNumber(0),
    };
}

impl Peer {
    /// A remote of which nothing is known.
    const UNKNOWN: Peer = Peer {
        window: 0,
        largest_window: 0,
        snd_wl1: SeqNumber(0),
        snd_wl2: SeqNumber(0),
        mss: DEFAULT_MSS,
        scale: None,
        sack: false,
        timestamps: false,
        recent: 0,
    };
}

impl Stamps {
    /// No timestamps.
    const NONE: Stamps = Stamps {
        generator: None,
        first: 0,
        recent_valid_until: None,
    };
}

impl Timers {
    /// No timer runs.
    const NONE: Timers = Timers {
        retransmit_at: None,
        probe_at: None,
        ack_at: None,
        data_unacked: false,
        challenges_from: None,
        counts_from: None,
        time_wait_ends: None,
        timeout_since: None,
    };
}

impl Settings {
    /// What holds where nothing is set.
    pub const fn new() -> Settings
        ensures { result ≡ default_settings }
    {
        Settings {
            timeout: None,
            ack_delay: Some(Duration::from_micros(ACK_DELAY)),
            keep_alive: None,
            keep_alive_at: None,
            nagle: true,
            hop_limit: None,
            timestamps: None,
            congestion_control: CongestionControl::Reno,
            synack_paused: false,
            opening_retries: Some(OPENING_RETRIES),
            retries: Some(RETRIES),
            min_rto: Duration::from_micros(MIN_RTO),
            fine_timer: false,
        }
    }
}

impl CongestionControl {
    /// Congestion control as it starts.
    pub const fn initial_window(self) -> Reno
        ensures { result ≡ initial_window self }
    {
        match self {
            CongestionControl::None | CongestionControl::Reno => Reno::new(),
            CongestionControl::Cubic => Reno::with_cubic(),
        }
    }
}

impl Tcb {
    /// No connection, and nothing left of an earlier one.
    pub fn new(settings: Settings) -> Tcb
        ensures { result ≡ initial_tcb settings }
    {
        let mut round_trip = RoundTrip::new();
        round_trip.set_least(settings.min_rto);
        Tcb {
            state: State::Closed,
            names: Names::NONE,
            sender: Sender::new(SeqNumber(0), false),
            receiver: Receiver::NONE,
            peer: Peer::UNKNOWN,
            stamps: Stamps::NONE,
            timers: Timers::NONE,
            round_trip,
            reno: settings.congestion_control.initial_window(),
            loss: Loss::NONE,
            validation: Validation::NONE,
            settings,
        }
    }

    /// Ends in CLOSED, with the endpoints forgotten and no reset due.
    pub fn forget(&mut self)
        ensures { self.new ≡ forgotten self.old }
    {
        self.state = State::Closed;
        self.names = Names::NONE;
        self.sender.reset_due = false;
    }

    /// How far past SND.UNA the last position lies that may be acknowledged, where so many bytes are
    /// queued.
    pub fn unacked(&self, queued: usize) -> usize
        requires { queued ≤ 2 ^ 30 }
        ensures { result ≡ unacked self.now queued }
    {
        self.sender.syn_unacked as usize + queued + self.state.owes_fin() as usize
    }

    /// How much is to be acknowledged until it is more than was ever sent.
    pub fn past_snd_max(&self) -> u32
        ensures { result ≡ past_snd_max self.now }
    {
        self.sender.snd_max.saturating_add(1)
    }

    /// The number one past the highest position that was ever sent.
    pub fn snd_max(&self) -> SeqNumber
        ensures { result ≡ snd_max self.now }
    {
        advanced_by(self.sender.una, self.sender.snd_max as usize)
    }

    /// The shift of the own window fields, but on a SYN, with a receive buffer of this capacity.
    pub fn local_shift(&self, capacity: usize) -> u8
        ensures value { result ≡ local_shift self.now capacity }
        ensures small { result ≤ 14 }
    {
        match self.peer.scale {
            None => 0,
            Some(_) => local_scale(capacity),
        }
    }

    /// The window field for so much space, but on a SYN.
    pub fn window_field(&self, capacity: usize, space: usize) -> u16
        ensures { result ≡ window_field self.now capacity space }
    {
        field_of(space >> self.local_shift(capacity))
    }

    /// How much of so much space a window field can tell.
    fn told_of(&self, capacity: usize, space: usize) -> u32
        ensures { result ≡ told_of self.now capacity space }
    {
        (self.window_field(capacity, space) as u32) << self.local_shift(capacity)
    }

    /// By how much the right edge of the window moves at least.
    fn least_step(&self, capacity: usize) -> usize
        requires { capacity ≤ 2 ^ 30 }
        ensures value { result ≡ least_step self.now capacity }
        ensures small { result ≤ 65_535 }
    {
        capacity.div_ceil(2).min(self.receiver.mss as usize).max(1)
    }

    /// Whether so much free space is worth telling.
    pub fn is_worth_telling(&self, capacity: usize, free: usize) -> bool
        requires { capacity ≤ 2 ^ 30 }
        ensures { result ≡ is_worth_telling self.now capacity free }
    {
        let rcv_adv = self.receiver.rcv_adv as usize + self.least_step(capacity);
        rcv_adv <= self.told_of(capacity, free) as usize
    }

    /// The right edge after a segment with this window field. What its rounding leaves out stays
    /// announced.
    pub(crate) fn rcv_adv_after(&self, capacity: usize, window: u16) -> u32
        ensures { result ≡ rcv_adv_after self.now capacity (window * 2 ^ local_shift self.now capacity) }
    {
        let shift = self.local_shift(capacity);
        let told = (window as u32) << shift;
        self.receiver
            .rcv_adv
            .min(told + ((1 << shift) - 1))
            .max(told)
    }

    /// The space that a segment announces, where so many bytes wait to be read: the right edge stays,
    /// unless it moves far enough or nothing waits.
    pub fn announced(&self, capacity: usize, free: usize, waiting: usize) -> usize
        requires { capacity ≤ 2 ^ 30 }
        ensures { result ≡ announced self.now capacity free waiting }
    {
        if waiting == 0 || self.is_worth_telling(capacity, free) {
            free
        } else {
            free.min(self.receiver.rcv_adv as usize)
        }
    }
}

/// What a window field says of so much space.
pub fn field_of(space: usize) -> u16
    ensures { result ≡ field_of space }
{
    space.min(u16::MAX as usize) as u16
}

/// The shift of the own window fields, if both SYNs have the option.
pub fn local_scale(capacity: usize) -> u8
    ensures value { result ≡ local_scale capacity }
    ensures small { result ≤ 14 }
{
    scale_for(MAX_WINDOW_SCALE, capacity)
}

/// The least shift, at most so large, that brings a count into 16 bits.
fn scale_for(most: u8, count: usize) -> u8
    ensures value { result ≡ scale_for most count }
    ensures small { result ≤ most }
{
    if most == 0 || count < 1 << 16 {
        0
    } else {
        1 + scale_for(most - 1, count / 2)
    }
}

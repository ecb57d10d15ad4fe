//! What a user may set. Each setting first settles an open offer as not sent.
ghost use Rattle.std.specs.Prelude.{◌≡◌, ◌≢◌, Some};
ghost use Rattle.tcp_block.specs.Settings.{with_timeout_kept, set_timeout, set_keep_alive, set_ack_delay, set_nagle_enabled, set_hop_limit};
ghost use Rattle.tcp_block.specs.Settings.{set_tsval_generator, pause_synack, set_retries, set_min_rto, set_fine_timer, set_congestion_control};
ghost use Rattle.tcp_block.specs.Value.{unoffered};

use crate::Socket;
use ip_wire::TcpTimestampGenerator;
use net_base::{Duration, Instant};
use tcp_block::CongestionControl;

impl Socket {
    /// Forgets the start of the user timeout where it doesn't run any more.
    fn keep_timeout(&mut self)
        ensures { self.new ≡ with_timeout_kept (unoffered self.old) }
    {
        self.offered = None;
        self.tcb.keep_timeout(self.queued.len());
    }

    /// Sets the user timeout: how long the remote may be silent while something waits for it.
    pub fn set_timeout(&mut self, duration: Option<Duration>)
        ensures { self.new ≡ set_timeout self.old duration }
    {
        self.offered = None;
        self.tcb.settings.timeout = duration;
        self.keep_timeout();
    }

    /// Sets the delay of an acknowledgement.
    pub fn set_ack_delay(&mut self, duration: Option<Duration>)
        ensures { self.new ≡ set_ack_delay self.old duration }
    {
        self.offered = None;
        self.tcb.settings.ack_delay = duration;
    }

    /// Sets whether small segments wait while others are in flight.
    pub fn set_nagle_enabled(&mut self, enabled: bool)
        ensures { self.new ≡ set_nagle_enabled self.old enabled }
    {
        self.offered = None;
        self.tcb.settings.nagle = enabled;
    }

    /// Sets the interval of keep-alives. With one, a keep-alive is due at once.
    pub fn set_keep_alive(&mut self, interval: Option<Duration>)
        ensures { self.new ≡ set_keep_alive self.old interval }
    {
        self.offered = None;
        let first = if interval.is_some() {
            Some(Instant::ZERO)
        } else {
            None
        };
        self.tcb.settings.keep_alive = interval;
        self.tcb.settings.keep_alive_at = first;
        self.keep_timeout();
    }

    /// Sets the hop limit. A limit is not 0.
    pub fn set_hop_limit(&mut self, hop_limit: Option<u8>)
        requires { hop_limit ≢ Some 0 }
        ensures { self.new ≡ set_hop_limit self.old hop_limit }
    {
        self.offered = None;
        self.tcb.settings.hop_limit = hop_limit;
    }

    /// Sets where timestamps come from.
    pub fn set_tsval_generator(&mut self, generator: Option<TcpTimestampGenerator>)
        ensures { self.new ≡ set_tsval_generator self.old generator }
    {
        self.offered = None;
        self.tcb.settings.timestamps = generator;
    }

    /// Sets after how many timeouts without an answer the connection gives up: `None` for never. As long
    /// as nothing is set it is 9 while the connection is opened, and 16 later.
    pub fn set_retries(&mut self, limit: Option<u8>)
        ensures { self.new ≡ set_retries self.old limit }
    {
        self.offered = None;
        self.tcb.settings.opening_retries = limit;
        self.tcb.settings.retries = limit;
    }

    /// Sets the least retransmission timeout. It counts in whole milliseconds, of which the rest is
    /// dropped, and as 10 ms where it is less, as a minute where it is more. It is a second as long as
    /// nothing is set. One that is higher than the timeout of a connection counts at once, another from
    /// its next round trip on; the first timeout of a connection is a second at least. What is shorter
    /// than the remote's delay of an acknowledgement makes segments go twice without need.
    pub fn set_min_rto(&mut self, duration: Duration)
        ensures { self.new ≡ set_min_rto self.old duration }
    {
        self.offered = None;
        self.tcb.settings.min_rto = duration;
        self.tcb.round_trip.set_least(duration);
    }

    /// Sets whether round trips are taken in microseconds, from the next one on. As long as nothing is set
    /// it is whole milliseconds, of which the rest is dropped: round trips of less than one count as none.
    pub fn set_fine_timer(&mut self, fine: bool)
        ensures { self.new ≡ set_fine_timer self.old fine }
    {
        self.offered = None;
        self.tcb.settings.fine_timer = fine;
    }

    /// Sets whether the answer to a SYN waits.
    pub fn pause_synack(&mut self, pause: bool)
        ensures { self.new ≡ pause_synack self.old pause }
    {
        self.offered = None;
        self.tcb.settings.synack_paused = pause;
    }

    /// Sets how what is sent is held back where congestion may be, and starts that again.
    pub fn set_congestion_control(&mut self, congestion_control: CongestionControl)
        ensures { self.new ≡ set_congestion_control self.old congestion_control }
    {
        self.offered = None;
        self.tcb.settings.congestion_control = congestion_control;
        let mut reno = congestion_control.initial_window();
        if self.tcb.receiver.took_syn {
            reno.set_mss(self.tcb.peer.mss);
            if !self.tcb.sender.syn_unacked {
                reno.start(false);
            }
        }
        self.tcb.reno = reno;
        self.tcb.loss.undo = None;
    }
}

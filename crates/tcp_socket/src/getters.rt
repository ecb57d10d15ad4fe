//! What a socket tells of itself.
ghost use Rattle.std.specs.Prelude.{◌≡◌, ◌+◌, length, is_some};
ghost use Rattle.tcp_block.specs.TcbRules.{unacked};
ghost use Rattle.tcp_block.specs.Probing.{probe_deadline};
ghost use Rattle.tcp_block.specs.States.{takes_writes, is_listening};
ghost use Rattle.tcp_block.specs.Settings.{is_open, is_active, can_send, can_recv, may_recv};
ghost use Rattle.tcp_block.specs.Value.{room_of, queued_in};
ghost use Rattle.tcp_socket.specs.Socket.{local_in, remote_in, is_pair, is_unacked_at, has_sent, times_out_after};

use crate::Socket;
use ip_wire::{IpEndpoint, IpListenEndpoint, SeqNumber};
use net_base::{Duration, Instant};
use socket_context::addresses::is_same_address;
use tcp_block::{
    CongestionControl, FourTuple, State, Tcb, distance_after, distance_before, is_due,
};

impl Socket {
    /// The state of the connection.
    pub fn state(&self) -> State
        ensures { result ≡ self.now.tcb.state }
    {
        self.tcb.state
    }

    /// What the socket listens on, or listened on before a SYN came. Its port is 0 for nothing.
    pub fn listen_endpoint(&self) -> IpListenEndpoint
        ensures { result ≡ self.now.tcb.names.listen }
    {
        self.tcb.names.listen
    }

    /// The own endpoint of the connection.
    pub fn local_endpoint(&self) -> Option<IpEndpoint>
        ensures { result ≡ local_in self.now.tcb.names.pair }
    {
        match self.tcb.names.pair {
            None => None,
            Some(pair) => Some(IpEndpoint {
                addr: pair.addresses.local(),
                port: pair.local_port,
            }),
        }
    }

    /// The remote's endpoint of the connection.
    pub fn remote_endpoint(&self) -> Option<IpEndpoint>
        ensures { result ≡ remote_in self.now.tcb.names.pair }
    {
        match self.tcb.names.pair {
            None => None,
            Some(pair) => Some(IpEndpoint {
                addr: pair.addresses.remote(),
                port: pair.remote_port,
            }),
        }
    }

    /// Whether the socket listens.
    pub fn is_listening(&self) -> bool
        ensures { result ≡ is_listening self.now.tcb.state }
    {
        self.tcb.state.is_listening()
    }

    /// Whether the socket may take segments of a connection: in all states but CLOSED and TIME-WAIT.
    pub fn is_open(&self) -> bool
        ensures { result ≡ is_open self.now.tcb.state }
    {
        !matches!(self.tcb.state, State::Closed | State::TimeWait)
    }

    /// Whether a connection exists or is being opened.
    pub fn is_active(&self) -> bool
        ensures { result ≡ is_active self.now.tcb.state }
    {
        !matches!(
            self.tcb.state,
            State::Closed | State::TimeWait | State::Listen
        )
    }

    /// Whether the user may send.
    pub fn may_send(&self) -> bool
        ensures { result ≡ takes_writes self.now.tcb.state }
    {
        self.tcb.state.takes_writes()
    }

    /// Whether bytes may still come, or wait to be read.
    pub fn may_recv(&self) -> bool
        ensures { result ≡ may_recv self.now }
    {
        self.tcb.state.accepts_data() || self.can_recv()
    }

    /// Whether bytes can be queued.
    pub fn can_send(&self) -> bool
        ensures { result ≡ can_send self.now }
    {
        self.tcb.state.takes_writes() && self.queued.window() != 0
    }

    /// Whether bytes wait to be read.
    pub fn can_recv(&self) -> bool
        ensures { result ≡ can_recv self.now }
    {
        self.received.len() != 0
    }

    /// How many bytes are queued that aren't acknowledged.
    pub fn send_queue(&self) -> usize
        ensures { result ≡ length self.now.queued.queue }
    {
        self.queued.len()
    }

    /// How many positions aren't acknowledged, sent or not: the own SYN, the queued bytes, and the FIN once
    /// the user has closed.
    pub fn unacked(&self) -> usize
        ensures { result ≡ unacked self.now.tcb (queued_in self.now) }
    {
        self.tcb.unacked(self.queued.len())
    }

    /// The instant at which the retransmission timer runs out, if it runs.
    pub fn retransmit_at(&self) -> Option<Instant>
        ensures { result ≡ self.now.tcb.timers.retransmit_at }
    {
        self.tcb.timers.retransmit_at
    }

    /// Whether the retransmission timer of a connection has run out by now, after it did so many times with nothing acknowledged since.
    pub fn times_out_after(&self, count: u8, now: Instant) -> bool
        ensures { result ≡ times_out_after count now self.now.tcb }
    {
        self.tcb.names.pair.is_some()
            && !self.tcb.state.is_closed()
            && count <= self.tcb.sender.timeouts
            && is_due(now, self.tcb.timers.retransmit_at)
    }

    /// How many sequence numbers are in flight.
    pub fn flight_size(&self) -> u32
        ensures { result ≡ self.now.tcb.sender.flight_size }
    {
        self.tcb.sender.flight_size
    }

    /// The instant at which what is queued goes though a closed or small window holds it back, if one does and
    /// that instant is set.
    pub fn probe_at(&self) -> Option<Instant>
        ensures { result ≡ probe_deadline self.now.tcb (queued_in self.now) }
    {
        self.tcb.probe_deadline(self.queued.len())
    }

    /// How many bytes wait to be read.
    pub fn recv_queue(&self) -> usize
        ensures { result ≡ length self.now.received.waiting }
    {
        self.received.len()
    }

    /// How many bytes can be queued at most.
    pub fn send_capacity(&self) -> usize
        ensures { result ≡ length self.now.queued.queue + length self.now.queued.free }
    {
        self.queued.capacity()
    }

    /// How many bytes can wait to be read at most.
    pub fn recv_capacity(&self) -> usize
        ensures { result ≡ room_of self.now.received }
    {
        self.received.capacity()
    }

    /// The user timeout.
    pub fn timeout(&self) -> Option<Duration>
        ensures { result ≡ self.now.tcb.settings.timeout }
    {
        self.tcb.settings.timeout
    }

    /// The delay of an acknowledgement.
    pub fn ack_delay(&self) -> Option<Duration>
        ensures { result ≡ self.now.tcb.settings.ack_delay }
    {
        self.tcb.settings.ack_delay
    }

    /// The least retransmission timeout, as it counts.
    pub fn min_rto(&self) -> Duration
        ensures { result ≡ self.now.tcb.round_trip.least }
    {
        self.tcb.round_trip.least()
    }

    /// Whether round trips are taken in microseconds.
    pub fn fine_timer(&self) -> bool
        ensures { result ≡ self.now.tcb.settings.fine_timer }
    {
        self.tcb.settings.fine_timer
    }

    /// Whether small segments wait while others are in flight.
    pub fn nagle_enabled(&self) -> bool
        ensures { result ≡ self.now.tcb.settings.nagle }
    {
        self.tcb.settings.nagle
    }

    /// The interval of keep-alives.
    pub fn keep_alive(&self) -> Option<Duration>
        ensures { result ≡ self.now.tcb.settings.keep_alive }
    {
        self.tcb.settings.keep_alive
    }

    /// The hop limit that was set. Without one it is 64.
    pub fn hop_limit(&self) -> Option<u8>
        ensures { result ≡ self.now.tcb.settings.hop_limit }
    {
        self.tcb.settings.hop_limit
    }

    /// How what is sent is held back where congestion may be.
    pub fn congestion_control(&self) -> CongestionControl
        ensures { result ≡ self.now.tcb.settings.congestion_control }
    {
        self.tcb.settings.congestion_control
    }

    /// Whether there is a generator of timestamps.
    pub fn timestamp_enabled(&self) -> bool
        ensures { result ≡ is_some self.now.tcb.settings.timestamps }
    {
        self.tcb.settings.timestamps.is_some()
    }

    /// Whether a segment that begins at this number was sent between these endpoints, and isn't acknowledged.
    pub fn has_sent(&self, local: &IpEndpoint, remote: &IpEndpoint, number: SeqNumber) -> bool
        ensures { result ≡ has_sent self.now.tcb local.now remote.now number }
    {
        is_pair(&self.tcb.names.pair, local, remote) && is_unacked_at(&self.tcb, number)
    }
}

/// Whether a connection is between these endpoints.
fn is_pair(pair: &Option<FourTuple>, local: &IpEndpoint, remote: &IpEndpoint) -> bool
    ensures { result ≡ is_pair pair.now local.now remote.now }
{
    match pair {
        Some(pair) => {
            is_same_address(&pair.addresses.local(), &local.addr)
                && is_same_address(&pair.addresses.remote(), &remote.addr)
                && pair.local_port == local.port
                && pair.remote_port == remote.port
        }
        None => false,
    }
}

/// Whether a segment that begins at this number was sent and isn't acknowledged.
fn is_unacked_at(tcb: &Tcb, number: SeqNumber) -> bool
    ensures { result ≡ is_unacked_at tcb.now number }
{
    distance_before(tcb.sender.una, number) == 0
        && distance_after(tcb.sender.una, number) < tcb.sender.snd_max
}

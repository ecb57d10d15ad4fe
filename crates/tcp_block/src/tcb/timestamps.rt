//! The timestamps of a connection (RFC 7323).
ghost use Rattle.std.specs.Prelude.{◌≡◌};
ghost use Rattle.net_base.specs.Time.{IsMoment};
ghost use Rattle.tcp_block.specs.Timestamps.{generator_of, value_by, stamps_begun, uses_stamps, is_older, is_recent_valid, arrives_older, is_outdated};
ghost use Rattle.tcp_block.specs.Timestamps.{names_recent, believed, tsval_taken, is_stale, gap, elapsed, elapsed_by, rtt_of_tsecr, tsecr_taken};

use super::opening::or_recent;
use crate::Tcb;
use ip_wire::{SeqNumber, TcpHeader, TcpTimestampGenerator, TcpTimestampRepr};
use net_base::Instant;
use tcp_state::instants::{is_over, tsval_end_from};
use tcp_state::offsets::distance_after;

/// What a clock says, 0 without one.
pub(super) fn value_by(generator: Option<TcpTimestampGenerator>, now: Instant) -> u32
    requires { IsMoment now }
    ensures { result ≡ value_by generator now }
{
    match generator {
        None => 0,
        Some(generator) => generator.value_at(now),
    }
}

/// Whether a timestamp is older than another, by less than 2^31.
pub(super) fn is_older(tsval: u32, than: u32) -> bool
    ensures { result ≡ is_older tsval than }
{
    distance_after(SeqNumber(tsval), SeqNumber(than)) != 0
}

fn arrives_older(tsval: Option<TcpTimestampRepr>, recent: u32) -> bool
    ensures { result ≡ arrives_older tsval recent }
{
    match tsval {
        None => false,
        Some(tsval) => is_older(tsval.tsval, recent),
    }
}

/// How far a timestamp lies past another.
fn gap(from: u32, to: u32) -> u32
    ensures { result ≡ gap from to }
{
    SeqNumber(from).distance(SeqNumber(to))
}

/// The milliseconds since the own timestamp that is echoed, if it lies between the first one and the
/// present.
fn elapsed(first: u32, present: u32, tsecr: u32) -> Option<u32>
    ensures { result ≡ elapsed first present tsecr }
{
    if gap(first, tsecr) <= gap(first, present) {
        Some(gap(tsecr, present))
    } else {
        None
    }
}

impl Tcb {
    /// The clock of the own timestamps: that of the first SYN, before it went the one that is set.
    pub(crate) fn generator(&self) -> Option<TcpTimestampGenerator>
        ensures { result ≡ generator_of self.now }
    {
        if self.sender.snd_max == 0 {
            self.settings.timestamps
        } else {
            self.stamps.generator
        }
    }

    /// A SYN goes: the first one begins the own timestamps.
    pub(crate) fn begin_stamps(&mut self, now: Instant)
        requires { IsMoment now }
        ensures { self.new ≡ record self.old { stamps = stamps_begun self.old now } }
    {
        if self.sender.snd_max == 0 {
            self.stamps.generator = self.settings.timestamps;
            self.stamps.first = value_by(self.settings.timestamps, now);
        }
    }

    /// Whether both SYNs have timestamps.
    pub fn uses_stamps(&self) -> bool
        ensures { result ≡ uses_stamps self.now }
    {
        self.peer.timestamps && self.stamps.generator.is_some()
    }

    /// Whether TS.Recent was set less than 24 days ago.
    fn is_recent_valid(&self, now: Instant) -> bool
        ensures { result ≡ is_recent_valid self.now now }
    {
        !is_over(now, self.stamps.recent_valid_until)
    }

    /// Whether a segment has a timestamp that is older than TS.Recent.
    fn is_outdated(&self, header: &TcpHeader, now: Instant) -> bool
        ensures { result ≡ is_outdated self.now header.now now }
    {
        self.is_recent_valid(now) && arrives_older(header.options.timestamp, self.peer.recent)
    }

    /// Whether TS.Recent is set by a segment: it begins at the last acknowledgement that was sent or
    /// before it, and isn't older.
    fn names_recent(&self, header: &TcpHeader, now: Instant) -> bool
        ensures { result ≡ names_recent self.now header.now now }
    {
        header.options.timestamp.is_some()
            && distance_after(self.receiver.last_ack, header.seq_number) == 0
            && !self.is_outdated(header, now)
    }

    /// TS.Recent counts from now.
    pub fn refresh_recent(&mut self, now: Instant)
        requires { IsMoment now }
        ensures { self.new ≡ believed self.old now }
    {
        self.stamps.recent_valid_until = Some(tsval_end_from(now));
    }

    /// Takes the timestamp of an accepted segment, if it sets TS.Recent.
    pub fn take_tsval(&mut self, header: &TcpHeader, now: Instant)
        requires { IsMoment now }
        ensures { self.new ≡ tsval_taken self.old header.now now }
    {
        if self.names_recent(header, now) {
            self.peer.recent = or_recent(header.options.timestamp, self.peer.recent);
            self.refresh_recent(now);
        }
    }

    /// Whether a segment isn't acceptable since its timestamp is too old.
    pub fn is_stale(&self, header: &TcpHeader, now: Instant) -> bool
        ensures { result ≡ is_stale self.now header.now now }
    {
        self.uses_stamps() && self.is_outdated(header, now)
    }

    /// The round trip that the echo of a segment tells of.
    fn rtt_of_tsecr(&self, header: &TcpHeader, now: Instant) -> Option<u32>
        requires { IsMoment now }
        ensures { result ≡ rtt_of_tsecr self.now header.now now }
    {
        if !self.peer.timestamps {
            return None;
        }
        let generator = self.stamps.generator?;
        let tsval = header.options.timestamp?;
        elapsed(self.stamps.first, generator.value_at(now), tsval.tsecr)
    }

    /// Takes the round trip that a segment tells of which makes SND.UNA rise by so much.
    pub fn take_rtt_of_tsecr(&mut self, header: &TcpHeader, by: u32, now: Instant)
        requires { IsMoment now }
        ensures { self.new ≡ tsecr_taken self.old header.now by now }
    {
        if by == 0 {
            return;
        }
        if let Some(millis) = self.rtt_of_tsecr(header, now) {
            self.round_trip
                .take_rtt_of_tsecr(by, millis, self.settings.fine_timer);
        }
    }
}

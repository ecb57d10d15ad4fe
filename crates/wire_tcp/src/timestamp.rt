//! The timestamps option's two values (RFC 7323, section 3.2), and where a sender's come from.
ghost use Rattle.std.specs.Prelude.{◌≡◌};
ghost use Rattle.base_time.specs.Time.{IsMoment};
ghost use Rattle.wire_tcp.specs.Timestamp.{value_at, reply_to};

use base_time::Instant;

/// A clock for the timestamps that a sender writes: the milliseconds of the stack's time, from an
/// offset that hides how long the host has run.
#[derive(Clone, Copy, Debug, PartialEq, Eq)]
pub struct TcpTimestampGenerator(pub u32);

impl TcpTimestampGenerator {
    /// The timestamp at an instant: the offset and the instant's whole milliseconds, modulo 2^32.
    pub fn value_at(&self, now: Instant) -> u32
        requires { IsMoment now }
        ensures { result ≡ value_at self.now now }
    {
        let millis = now.total_micros() as u64 / 1000;
        self.0.wrapping_add((millis % (1 << 32)) as u32)
    }
}

/// The timestamps of a segment: the sender's clock, and the last such value that it had from the
/// other side.
#[derive(Clone, Copy, Debug, PartialEq, Eq)]
pub struct TcpTimestampRepr {
    pub tsval: u32,
    pub tsecr: u32,
}

impl TcpTimestampRepr {
    pub const fn new(tsval: u32, tsecr: u32) -> TcpTimestampRepr
        ensures { result ≡ record { tsval = tsval; tsecr = tsecr } }
    {
        TcpTimestampRepr { tsval, tsecr }
    }

    /// The timestamps of the answer, where the stack has a clock for them.
    pub fn generate_reply(
        &self,
        generator: Option<TcpTimestampGenerator>,
        now: Instant,
    ) -> Option<TcpTimestampRepr>
        requires { IsMoment now }
        ensures { result ≡ reply_to self.now generator now }
    {
        match generator {
            Some(generator) => Some(self.generate_reply_with_tsval(generator.value_at(now))),
            None => None,
        }
    }

    /// The timestamps of an answer whose own is `tsval`.
    pub const fn generate_reply_with_tsval(&self, tsval: u32) -> TcpTimestampRepr
        ensures { result ≡ record { tsval = tsval; tsecr = self.now.tsval } }
    {
        TcpTimestampRepr::new(tsval, self.tsval)
    }
}

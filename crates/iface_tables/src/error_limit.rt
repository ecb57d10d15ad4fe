//! How often a host answers what nobody takes, by an error or a reset (RFC 1812, section 4.3.2.8; RFC 4443, section 2.4 f;
//! RFC 5961, section 7).
ghost use Rattle.std.specs.Prelude.{◌≡◌, true};
ghost use Rattle.std.specs.Int.{int_max};
ghost use Rattle.net_base.specs.Time.{IsMoment};
ghost use Rattle.iface_tables.specs.ErrorLimit.{answered_at, may_answer};

use net_base::{Duration, Instant};

/// What one answer counts for, in milliseconds: eight go in a second.
const ANSWER_MILLIS: u64 = 125;

/// How far ahead answers are counted, in milliseconds: sixteen go at once.
const BURST_MILLIS: u64 = 2_000;

/// Whether an answer may go now, where those that went are counted until then.
pub(crate) fn may_answer(until: Instant, now: Instant) -> bool
    requires { IsMoment now }
    ensures { result ≡ may_answer until now }
{
    !(now + Duration::from_millis(BURST_MILLIS - ANSWER_MILLIS) < until)
}

/// Until when answers are counted after one that goes now.
pub(crate) fn answered_at(until: Instant, now: Instant) -> Instant
    requires instant { IsMoment now }
    requires may { may_answer until now ≡ true }
    ensures { result ≡ answered_at until now }
{
    later(until, now) + Duration::from_millis(ANSWER_MILLIS)
}

/// The later one of two instants.
fn later(a: Instant, b: Instant) -> Instant
    ensures { result ≡ int_max a b }
{
    if b < a { a } else { b }
}

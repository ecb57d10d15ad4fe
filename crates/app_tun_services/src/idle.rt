//! Connections of the page on which nothing happens: each ends after a while, and earlier where all sockets are taken.
ghost use Rattle.std.specs.Prelude.{◌≡◌, length, count_by, fold, take};
ghost use Rattle.interface.specs.Backlog.Calls.{micros_of};
ghost use Rattle.app_tun_services.specs.Site.{talk};
ghost use Rattle.app_tun_services.specs.Idle.{sight, is_like, seen_since, limit, watched, is_taken, taken_count, since_of, oldest, patience, moment_at};

use crate::counts::Counts;
use crate::site::{Seen, Session};
use interface::listener::{Entry, Stage};
use net_base::Instant;
use sockets::tcp;

/// How long nothing may happen on a connection of which nothing of a request came, in microseconds.
const FIRST_LIMIT: u64 = 10_000_000;

/// How long within a request, and between two.
const REQUEST_LIMIT: u64 = 30_000_000;

/// How long while an answer waits to be read.
const ANSWER_LIMIT: u64 = 60_000_000;

/// How long at least, however many wait for a socket.
const LEAST_LIMIT: u64 = 1_000_000;

/// What all connections of a turn are served by.
#[derive(Clone, Copy, Debug, PartialEq, Eq)]
pub struct Moment {
    /// In microseconds.
    pub instant: u64,
    /// How long nothing may happen on a connection of the page, whatever it waits for, in microseconds.
    pub patience: u64,
    /// What the page of counts says.
    pub counts: Counts,
}

/// The instant in microseconds, 0 for one before the start.
fn micros_of(instant: Instant) -> u64
    ensures { result ≡ micros_of instant }
{
    u64::try_from(instant.total_micros()).unwrap_or(0)
}

/// What is seen of a connection now.
fn sight(socket: &tcp::Socket, session: &Session, now: u64) -> Seen
    ensures { result ≡ sight now (talk socket.now session.now) }
{
    Seen {
        request: socket.recv_queue().min(1),
        queued: socket.send_queue(),
        left: session.left,
        since: now,
    }
}

/// Whether nothing happened between the two.
fn is_like(before: Seen, seen: Seen) -> bool
    ensures { result ≡ is_like before seen }
{
    before.request == seen.request && before.queued == seen.queued && before.left == seen.left
}

/// What is seen, since when it has been so.
fn seen_since(before: Option<Seen>, seen: Seen) -> Seen
    ensures { result ≡ seen_since before seen }
{
    match before {
        Some(before) => { if is_like(before, seen) { before } else { seen } }
        None => seen,
    }
}

/// How long nothing may happen on such a connection.
fn limit(seen: Seen, was_asked: bool) -> u64
    ensures { result ≡ limit seen was_asked }
{
    if seen.queued > 0 || seen.left > 0 {
        ANSWER_LIMIT
    } else if was_asked || seen.request > 0 {
        REQUEST_LIMIT
    } else {
        FIRST_LIMIT
    }
}

/// An open connection on which nothing happened for so long is reset.
pub fn watch(socket: &mut tcp::Socket, session: &mut Session, moment: &Moment)
    ensures { talk socket.new session.new ≡ watched moment.now (talk socket.old session.old) }
{
    if !socket.may_send() {
        return;
    }
    let seen = seen_since(session.seen, sight(socket, session, moment.instant));
    session.seen = Some(seen);
    let limit = limit(seen, session.was_asked).min(moment.patience);
    if moment.instant.saturating_sub(seen.since) >= limit {
        socket.abort();
    }
}

/// Whether a socket has a connection that is, was or is about to be accepted.
fn is_taken(stage: Stage) -> bool
    ensures { result ≡ is_taken stage }
{
    matches!(stage, Stage::Open | Stage::Accepted | Stage::Ending)
}

fn taken_count(entries: &[Entry]) -> usize
    ensures { result ≡ taken_count entries.now }
{
    entries.iter().filter(|entry| is_taken(entry.stage)).count()
}

/// Since when nothing has happened on a connection.
fn since_of(session: &Session, now: u64) -> u64
    ensures { result ≡ since_of now session.now }
{
    match session.seen {
        Some(seen) => seen.since,
        None => now,
    }
}

/// Since when nothing has happened on that on which nothing happened for longest.
fn oldest(sessions: &[Session], now: u64) -> u64
    ensures { result ≡ oldest now sessions.now }
{
    let mut oldest = now;
    for i in 0..sessions.len() {
        oldest = oldest.min(since_of(&sessions[i], now));
    }
    oldest
}

/// How long nothing may happen on a connection of the page, whatever it waits for. Where each socket has one, that on which nothing
/// happened for longest gives way.
fn patience(entries: &[Entry], sessions: &[Session], now: u64) -> u64
    ensures { result ≡ patience now entries.now sessions.now }
{
    if taken_count(entries) == entries.len() {
        now.saturating_sub(oldest(sessions, now)).max(LEAST_LIMIT)
    } else {
        ANSWER_LIMIT
    }
}

/// What the connections of a turn are served by, with the page's as they stand.
pub fn moment_at(now: Instant, entries: &[Entry], sessions: &[Session], counts: Counts) -> Moment
    ensures { result ≡ moment_at now entries.now sessions.now counts }
{
    let instant = micros_of(now);
    Moment {
        instant,
        patience: patience(entries, sessions, instant),
        counts,
    }
}

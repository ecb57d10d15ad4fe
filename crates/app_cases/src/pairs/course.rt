//! A side that says all that it has to say, and a link that is good.
use crate::pairs::lines::Todo;
use crate::pairs::played::Played;
use net_base::{Duration, Instant};
use sockets::PollAt;
use std::alloc::{AllocError, Global};
use tcp_pair::{PairEvent, PairRefused, Side};

/// How many segments a side is asked for at most at a time.
const MOST_SEGMENTS: usize = 40;

/// How often both sides are asked at most on a good link.
const MOST_ROUNDS: usize = 400;

/// How many bytes a user reads at most at a time.
const MOST_READ: usize = 1 << 30;

/// How many segments of each side came.
#[derive(Clone, Copy)]
struct Link {
    of_a: usize,
    of_b: usize,
}

impl Played {
    /// Hands the segments from this number to that one to the other side, as one run: which of them is refused, if one is.
    pub fn burst(
        &mut self,
        alloc: Global,
        side: Side,
        first: usize,
        last: usize,
    ) -> Result<(), (usize, PairRefused)> {
        let sent = self.pair.sent(side).len();
        // The run ends at the first segment that was never sent.
        let end = last.min(sent.max(first)).saturating_add(1);
        let events = match deliveries(alloc, side, first, end) {
            Ok(events) => events,
            Err(AllocError) => return Err((first, PairRefused::Memory)),
        };
        let ended = self.pair.run(events);
        let ended = ended.map_err(|(slot, refused)| (first.saturating_add(slot), refused));
        let taken = match ended {
            Ok(()) => end,
            Err((number, _)) => number,
        };
        for k in first..taken {
            self.tell(&Todo::Deliver(side, k));
        }
        ended
    }

    /// Asks the side at this instant until it has nothing more to say: how many segments it sent.
    pub fn ask(
        &mut self,
        alloc: Global,
        side: Side,
        instant: Instant,
    ) -> Result<usize, PairRefused> {
        let before = self.pair.sent(side).len();
        for _ in 0..MOST_SEGMENTS {
            let count = self.pair.sent(side).len();
            self.step(alloc, &Todo::Offer(side, instant, true))?;
            if self.pair.sent(side).len() == count {
                break;
            }
        }
        Ok(self.pair.sent(side).len().saturating_sub(before))
    }

    /// What was sent before is lost; from now on each segment comes once and in order, both sides are asked when one of them wants to be,
    /// and both users read. Whether all is read within this span.
    pub fn settle(&mut self, alloc: Global, span: Duration) -> Result<bool, PairRefused> {
        let start = self.users.now();
        let mut link = Link {
            of_a: self.pair.sent(Side::A).len(),
            of_b: self.pair.sent(Side::B).len(),
        };
        for _ in 0..MOST_ROUNDS {
            self.step(alloc, &Todo::Recv(Side::A, MOST_READ))?;
            self.step(alloc, &Todo::Recv(Side::B, MOST_READ))?;
            let Some(due) = self.due() else {
                break;
            };
            if self.users.have_read_all() {
                break;
            }
            self.ask(alloc, Side::A, due)?;
            self.ask(alloc, Side::B, due)?;
            self.carry(alloc, &mut link)?;
        }
        let most = i64::try_from(span.total_micros()).unwrap_or(i64::MAX);
        let last = start.total_micros().saturating_add(most);
        Ok(self.users.have_read_all() && self.users.now().total_micros() <= last)
    }

    /// Carries what is on the link, and what is sent in answer to it, three times over.
    fn carry(&mut self, alloc: Global, link: &mut Link) -> Result<(), PairRefused> {
        for _ in 0..3 {
            link.of_a = self.hand(alloc, Side::A, link.of_a)?;
            link.of_b = self.hand(alloc, Side::B, link.of_b)?;
        }
        Ok(())
    }

    /// Hands the side's segments from this one on to the other side: how many there are.
    fn hand(&mut self, alloc: Global, side: Side, from: usize) -> Result<usize, PairRefused> {
        let count = self.pair.sent(side).len();
        for k in from..count {
            self.step(alloc, &Todo::Deliver(side, k))?;
        }
        Ok(count)
    }

    /// When a side wants to be asked next, if one does.
    fn due(&self) -> Option<Instant> {
        let a = self.a.poll_at(self.pair.socket(Side::A));
        let b = self.b.poll_at(self.pair.socket(Side::B));
        match (self.instant(a), self.instant(b)) {
            (Some(one), Some(other)) => Some(one.min(other)),
            (one, other) => one.or(other),
        }
    }

    fn instant(&self, at: PollAt) -> Option<Instant> {
        let now = self.users.now();
        match at {
            PollAt::Now => Some(now),
            PollAt::Time(instant) => Some(now.max(instant)),
            PollAt::Ingress => None,
        }
    }
}

/// Deliveries of the side's segments from the first number to the one before the end.
fn deliveries(
    alloc: Global,
    side: Side,
    first: usize,
    end: usize,
) -> Result<Vec<PairEvent>, AllocError> {
    let mut events = Vec::new(alloc);
    for k in first..end {
        events.push(PairEvent::Deliver(side, k))?;
    }
    Ok(events)
}

//! What a host has to ask, and whom.
ghost use Rattle.net_base.specs.Time.{IsMoment};

use crate::boot::orders::Question;
use crate::boot::page::Page;
use ip_wire::Ipv4Address;
use net_base::{Duration, Instant};

#[derive(Drop)]
pub struct Plan {
    pub router: Option<Ipv4Address>,
    /// When the router is pinged next, if it hasn't answered.
    pub ping_at: Option<Instant>,
    pub count: u16,
    pub questions: Vec<Question>,
    pub asked: Option<Question>,
    pub page: Option<Page>,
}

impl Plan {
    /// Nothing is asked yet.
    pub fn new(questions: Vec<Question>) -> Plan {
        Plan {
            router: None,
            ping_at: None,
            count: 0,
            questions,
            asked: None,
            page: None,
        }
    }

    /// A router was told of, which is pinged, or there is none.
    pub fn turn_to(&mut self, router: Option<Ipv4Address>, now: Instant) {
        self.router = router;
        self.ping_at = router.map(|_| now);
    }

    /// The router and the number of a ping that is due: the next one is a second later.
    pub fn ping(&mut self, now: Instant) -> Option<(Ipv4Address, u16)>
        requires { IsMoment now }
    {
        let (router, at, number) = (self.router?, self.ping_at?, self.count);
        if now < at {
            return None;
        }
        let wait = Duration::from_secs(1);
        self.count = number.wrapping_add(1);
        self.ping_at = if now.fits_add(wait) {
            Some(now + wait)
        } else {
            None
        };
        Some((router, number))
    }

    /// The next question, if a router is known and nothing is asked.
    pub fn next(&mut self) -> Option<&Question> {
        if self.router.is_some() && self.asked.is_none() {
            self.asked = self.questions.pop();
            return self.asked.as_ref();
        }
        None
    }
}

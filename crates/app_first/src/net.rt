//! Two hosts on a wire, each with its application, and their clock.
ghost use Rattle.std.specs.Prelude.{IfSome};
ghost use Rattle.net_base.specs.Time.{IsMoment};

use crate::host::Host;
use crate::tap::{carry, has_frame};
use anyhow::Result;
use interface::earlier;
use net_base::{Duration, Instant};

/// How many turns are taken at most while time passes.
const TURNS: u32 = 1000;

/// A host with its application.
pub trait End {
    fn host(&mut self) -> &mut Host;

    /// What the application does whenever its host was polled.
    fn act(&mut self, now: Instant);
}

/// A client and a server on a wire.
#[derive(Drop)]
pub struct Net<C, S> {
    pub client: C,
    pub server: S,
    now: Instant,
    ghost now_is_a_moment: { IsMoment now },
}

/// The instant that is so much later, if the stack takes it.
pub fn later(instant: Instant, by: Duration) -> Option<Instant>
    ensures { IfSome result IsMoment }
{
    if !instant.fits_add(by) {
        return None;
    }
    let sum = instant + by;
    if sum.is_moment() { Some(sum) } else { None }
}

/// A host takes in what came, its application acts, and the host sends what that wrote.
fn turn<E: End>(end: &mut E, now: Instant)
    requires { IsMoment now }
{
    end.host().poll(now);
    end.act(now);
    end.host().poll(now);
}

/// When a host wants its next turn: now where a frame came.
fn due<E: End>(end: &mut E, now: Instant) -> Option<Instant>
    requires { IsMoment now }
{
    let host = end.host();
    if has_frame(&host.wire) {
        return Some(now);
    }
    host.poll_at(now)
}

impl<C: End + Drop, S: End + Drop> Net<C, S> {
    /// Both ends at the beginning, if both could be made.
    pub fn new(client: Result<C>, server: Result<S>) -> Result<Net<C, S>> {
        Ok(Net {
            client: client?,
            server: server?,
            now: Instant::ZERO,
        })
    }

    /// Each end has its turn, and the wire carries their frames.
    fn turn(&mut self) -> Result<()> {
        turn(&mut self.client, self.now);
        turn(&mut self.server, self.now);
        let (client, server) = (self.client.host(), self.server.host());
        carry(&mut client.wire, &mut server.wire)?;
        carry(&mut server.wire, &mut client.wire)?;
        Ok(())
    }

    /// When the next turn is due.
    fn next(&mut self) -> Option<Instant> {
        earlier(
            due(&mut self.client, self.now),
            due(&mut self.server, self.now),
        )
    }

    /// Lets time pass, and takes each turn that is due.
    pub fn pass(&mut self, time: Duration) -> Result<()> {
        let Some(end) = later(self.now, time) else {
            return Ok(());
        };
        for _ in 0..TURNS {
            self.turn()?;
            match self.next() {
                Some(instant) if instant <= end => self.wait_until(instant),
                _ => break,
            }
        }
        self.now = end;
        Ok(())
    }

    /// Nothing is due before this instant.
    fn wait_until(&mut self, instant: Instant) {
        if self.now < instant && instant.is_moment() {
            self.now = instant;
        }
    }
}

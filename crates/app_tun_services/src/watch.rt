//! Who watches a host's link.
ghost use Rattle.net_base.specs.Time.{IsMoment};
ghost use Rattle.interface.specs.Polls.{HostPolls, is_change};
ghost use Rattle.interface.specs.Set.{slots};
ghost use Rattle.interface.specs.State.{state};
ghost use Rattle.app_tun_services.specs.Link.Drain.{DrainMove};

use crate::link::Drain;
use interface::{Interface, PollResult, SocketSet};
use net_base::Instant;
use sockets::Socket;

/// Who watches a host's link: it polls the host over what watches the device, and that is a poll over the device itself.
pub trait Watch {
    /// Polls the host.
    fn poll(
        &mut self,
        interface: &mut Interface,
        drain: &mut Drain,
        sockets: &mut SocketSet<Socket>,
        now: Instant,
        budget: u16,
    ) -> PollResult
        requires { IsMoment now }
        ensures { HostPolls DrainMove now budget (state drain.old interface.old (slots sockets.old)) (is_change result)
            (state drain.new interface.new (slots sockets.new)) };
}

/// Nobody does.
#[derive(Debug, Drop)]
pub struct Unwatched {}

impl Watch for Unwatched {
    fn poll(
        &mut self,
        interface: &mut Interface,
        drain: &mut Drain,
        sockets: &mut SocketSet<Socket>,
        now: Instant,
        budget: u16,
    ) -> PollResult {
        interface.poll(now, drain, sockets, budget)
    }
}

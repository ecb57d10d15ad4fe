//! Polling.
ghost use Rattle.std.specs.Prelude.{◌≡◌, false, List, None};
ghost use Rattle.iface_egress.specs.declared.socket_set.SocketStorage.{SocketStorage};
ghost use Rattle.iface_ingress.specs.Socket.{Socket};
ghost use Rattle.net_base.specs.Time.{IsMoment};
ghost use Rattle.iface_egress.specs.Inner.{InnerValue, at_instant};
ghost use Rattle.iface_egress.specs.Set.{slots, is_fixed};
ghost use Rattle.interface.specs.Host.{sender, host_at, maintained};
ghost use Rattle.iface_egress.specs.Departing.{HasSettingsOf};
ghost use Rattle.interface.specs.EgressPath.{Egress};
ghost use Rattle.interface.specs.Pass.{passed};
ghost use Rattle.interface.specs.Instant.{poll_instant, host_instant};
ghost use Rattle.interface.specs.Reports.{reports_at};
ghost use Rattle.interface.specs.BlackHoles.{checked_if, paths_checked};
ghost use Rattle.interface.specs.OwnWork.{HasBegun, OwnWork, TellsIf};
ghost use Rattle.interface.specs.QuietStep.{AreUnchanged, IsEarlier, IsEarly, IsQuiet};
ghost use Rattle.interface.specs.SameHost.{IsSameHost};
ghost use Rattle.interface.specs.Made.{time_until, delay_by};
ghost use Rattle.interface.specs.State.{state, host, KeepsSettings};
ghost use Rattle.interface.specs.Egress.{EgressStep, if_changed};
ghost use Rattle.interface.specs.Ingress.{IngressStep, Takes};
ghost use Rattle.interface.specs.Polls.{Repeats, Polls, HostPolls, HostSends, answer_of, single_answer, is_change};
ghost use Rattle.interface.specs.QuietPoll.{HasNoFrame, IsQuietPoll};

use crate::arrival::ingress;
use crate::black_holes::check_paths;
use crate::due_instant::{earlier, poll_instant};
use crate::host::Interface;
use crate::round::either;
use crate::step::egress;
use iface_egress::{Slots, SocketSet};
use iface_ingress::Socket;
use iface_ingress::socket_laws::due_as_before;
use iface_reports::Reporter;
use net_base::{Device, Duration, Instant};

/// What a poll did to the sockets.
#[derive(Clone, Copy, Debug, PartialEq, Eq)]
pub enum PollResult {
    /// No socket's state or queue changed.
    None,
    /// A socket's state or a queue may have changed.
    SocketStateChanged,
}

/// What one step of the ingress path did to the sockets.
#[derive(Clone, Copy, Debug, PartialEq, Eq)]
pub enum PollIngressSingleResult {
    /// No frame came.
    None,
    /// A frame came that is too short or too long to be read.
    PacketProcessed,
    /// A frame was read: a socket's state or a queue may have changed.
    SocketStateChanged,
}

impl Interface {
    /// Takes in frames and answers them, until none comes, and then sends what the sockets have, until no socket changes; each
    /// at most so many times.
    pub fn poll<D: Device>(
        &mut self,
        timestamp: Instant,
        device: &mut D,
        sockets: &mut SocketSet<Socket>,
        budget: u16,
    ) -> PollResult
        requires { IsMoment timestamp }
        ensures steps { HostPolls D.moves timestamp budget (state device.old self.old (slots sockets.old)) (is_change result)
            (state device.new self.new (slots sockets.new)) }
        ensures silent { self.old.reports ≡ None → self.new.reports ≡ None }
        ensures unchanged { result ≡ PollResult.None → AreUnchanged (slots sockets.old) (slots sockets.new) }
        ensures quiet { (asked : InnerValue) → self.old.inner ≡ at_instant self.old.inner.instant asked
            → IsEarly asked self.old.left (slots sockets.old) timestamp → IsEarlier timestamp (reports_at self.old.reports) → HasNoFrame D.moves timestamp device.old
            → IsQuietPoll D.moves asked timestamp (state device.old self.old (slots sockets.old)) (is_change result)
            (state device.new self.new (slots sockets.new)) }
        ensures settings { HasSettingsOf self.old.inner self.new.inner }
        ensures kind { is_fixed sockets.new ≡ is_fixed sockets.old }
        ensures capabilities { D.described device.new ≡ D.described device.old }
    {
        self.begin(timestamp, device, &sockets.slots);
        due_as_before();
        if self.poll_all(timestamp, device, sockets, budget) {
            PollResult::SocketStateChanged
        } else {
            PollResult::None
        }
    }

    /// Takes in the next frame, and answers it.
    pub fn poll_ingress_single<D: Device>(
        &mut self,
        timestamp: Instant,
        device: &mut D,
        sockets: &mut SocketSet<Socket>,
    ) -> PollIngressSingleResult
        requires { IsMoment timestamp }
        ensures step { IngressStep D.moves timestamp (state device.old self.old (slots sockets.old)) (single_answer result)
            (state device.new self.new (slots sockets.new)) }
        ensures none { result ≡ PollIngressSingleResult.None → slots sockets.new ≡ slots sockets.old }
        ensures processed { result ≡ PollIngressSingleResult.PacketProcessed → slots sockets.new ≡ slots sockets.old }
        ensures settings { HasSettingsOf self.old.inner self.new.inner }
        ensures kind { is_fixed sockets.new ≡ is_fixed sockets.old }
        ensures capabilities { D.described device.new ≡ D.described device.old }
    {
        match self.receive(timestamp, device, sockets) {
            None => PollIngressSingleResult::None,
            Some(false) => PollIngressSingleResult::PacketProcessed,
            Some(true) => PollIngressSingleResult::SocketStateChanged,
        }
    }

    /// Sends at most one fragment of the datagram that is half sent, and then at most one packet of each socket.
    pub fn poll_egress<D: Device>(
        &mut self,
        timestamp: Instant,
        device: &mut D,
        sockets: &mut SocketSet<Socket>,
    ) -> PollResult
        requires { IsMoment timestamp }
        ensures step { HostSends D.moves timestamp (state device.old self.old (slots sockets.old)) (answer_of result)
            (state device.new self.new (slots sockets.new)) }
        ensures unchanged { result ≡ PollResult.None → AreUnchanged (slots sockets.old) (slots sockets.new) }
        ensures host { IsSameHost (paths_checked (at_instant timestamp self.old.inner) (slots sockets.old)) self.new.inner }
        ensures kind { is_fixed sockets.new ≡ is_fixed sockets.old }
        ensures capabilities { D.described device.new ≡ D.described device.old }
    {
        self.begin(timestamp, device, &sockets.slots);
        if self.send(timestamp, device, sockets) {
            PollResult::SocketStateChanged
        } else {
            PollResult::None
        }
    }

    /// Gives up the datagrams in fragments whose time has passed.
    pub fn poll_maintenance(&mut self, timestamp: Instant)
        requires { IsMoment timestamp }
        ensures { self.new ≡ maintained timestamp self.old }
    {
        self.inner.set_now(timestamp);
        self.assemblers.remove_expired(timestamp);
    }

    /// When the interface wants to be polled; nothing has to be done before, unless a frame comes or a socket is called.
    pub fn poll_at(&mut self, timestamp: Instant, sockets: &SocketSet<Socket>) -> Option<Instant>
        requires { IsMoment timestamp }
        ensures value { result ≡ host_instant (host_at timestamp self.old) (slots sockets.now) }
        ensures after { self.new ≡ host_at timestamp self.old }
    {
        self.inner.set_now(timestamp);
        let first = poll_instant(&self.inner, &self.fragmenter, &sockets.slots);
        earlier(reports_at(&self.reporter), first)
    }

    /// How long it is until the interface wants to be polled.
    pub fn poll_delay(
        &mut self,
        timestamp: Instant,
        sockets: &SocketSet<Socket>,
    ) -> Option<Duration>
        requires { IsMoment timestamp }
        ensures value { result ≡ delay_by timestamp (host_instant (host_at timestamp self.old) (slots sockets.now)) }
        ensures after { self.new ≡ host_at timestamp self.old }
    {
        match self.poll_at(timestamp, sockets) {
            Some(instant) => Some(time_until(timestamp, instant)),
            None => None,
        }
    }
}

/// Steps.
impl Interface {
    /// What the host does of its own as a call that polls begins.
    fn begin<D: Device>(&mut self, timestamp: Instant, device: &mut D, slots: &Slots<Socket>)
        requires { IsMoment timestamp }
        ensures work { OwnWork D.moves timestamp (state device.old self.old slots.now) (state device.new self.new slots.now) }
        ensures host { at_instant timestamp self.new.inner ≡ paths_checked (at_instant timestamp self.old.inner) slots.now }
        ensures silent { self.old.reports ≡ None → self.new.reports ≡ None }
        ensures quiet { (asked : InnerValue) → self.old.inner ≡ at_instant self.old.inner.instant asked
            → IsEarly asked self.old.left slots.now timestamp → IsEarlier timestamp (reports_at self.old.reports)
            → (device.new ≡ device.old) × HasBegun timestamp self.old self.new }
        ensures settings { HasSettingsOf self.old.inner self.new.inner }
        ensures capabilities { D.described device.new ≡ D.described device.old }
    {
        self.tell_reports(timestamp, device);
        self.check_paths(timestamp, slots);
    }

    /// With host requirements, takes in what the timers of connections tell of their paths.
    fn check_paths(&mut self, timestamp: Instant, slots: &Slots<Socket>)
        requires { IsMoment timestamp }
        ensures { self.new ≡ checked_if self.old.inner.host_requirements timestamp self.old slots.now }
    {
        if self.inner.host_requirements() {
            self.inner.set_now(timestamp);
            check_paths(&mut self.inner, slots);
        }
    }

    /// Tells of multicast groups what is due.
    fn tell_reports<D: Device>(&mut self, timestamp: Instant, device: &mut D)
        requires { IsMoment timestamp }
        ensures tells { (slots : List (SocketStorage Socket))
            → TellsIf D.moves timestamp self.old.reports (state device.old self.old slots) (state device.new self.new slots) }
        ensures silent { self.old.reports ≡ None → self.new.reports ≡ None }
        ensures quiet { IsEarlier timestamp (reports_at self.old.reports) → (device.new ≡ device.old) × HasBegun timestamp self.old self.new }
        ensures settings { HasSettingsOf self.old.inner self.new.inner }
        ensures capabilities { D.described device.new ≡ D.described device.old }
    {
        if let Some(reporter) = &mut self.reporter {
            self.inner.set_now(timestamp);
            let _ = reporter.transmit(&self.inner, device);
        }
    }

    /// A poll. Says whether a socket's state or a queue may have changed.
    fn poll_all<D: Device>(
        &mut self,
        timestamp: Instant,
        device: &mut D,
        sockets: &mut SocketSet<Socket>,
        budget: u16,
    ) -> bool
        requires { IsMoment timestamp }
        ensures steps { Polls D.moves timestamp budget (state device.old self.old (slots sockets.old)) result
            (state device.new self.new (slots sockets.new)) }
        ensures settings { HasSettingsOf self.old.inner self.new.inner }
        ensures kind { is_fixed sockets.new ≡ is_fixed sockets.old }
        ensures capabilities { D.described device.new ≡ D.described device.old }
    {
        self.poll_maintenance(timestamp);
        let changed = self.ingress_all(timestamp, device, sockets, budget);
        self.egress_all(timestamp, device, sockets, budget, changed)
    }

    /// Steps of the ingress path, until no frame comes.
    fn ingress_all<D: Device>(
        &mut self,
        timestamp: Instant,
        device: &mut D,
        sockets: &mut SocketSet<Socket>,
        budget: u16,
    ) -> bool
        requires { IsMoment timestamp }
        ensures steps { Repeats (IngressStep D.moves timestamp) budget (state device.old self.old (slots sockets.old)) false
            (state device.new self.new (slots sockets.new)) result }
        ensures settings { HasSettingsOf self.old.inner self.new.inner }
        ensures kind { is_fixed sockets.new ≡ is_fixed sockets.old }
        ensures capabilities { D.described device.new ≡ D.described device.old }
    {
        let mut left = budget;
        let mut changed = false;
        while left > 0 {
            match self.receive(timestamp, device, sockets) {
                Some(more) => changed = either(changed, more),
                None => return changed,
            }
            left -= 1;
        }
        changed
    }

    /// Steps of the egress path, until one changes nothing. `changed` says whether anything changed before.
    fn egress_all<D: Device>(
        &mut self,
        timestamp: Instant,
        device: &mut D,
        sockets: &mut SocketSet<Socket>,
        budget: u16,
        changed: bool,
    ) -> bool
        requires { IsMoment timestamp }
        ensures steps { Repeats (EgressStep D.moves timestamp) budget (state device.old self.old (slots sockets.old)) changed
            (state device.new self.new (slots sockets.new)) result }
        ensures settings { HasSettingsOf self.old.inner self.new.inner }
        ensures kind { is_fixed sockets.new ≡ is_fixed sockets.old }
        ensures capabilities { D.described device.new ≡ D.described device.old }
    {
        let mut left = budget;
        let mut any = changed;
        while left > 0 {
            if !self.send(timestamp, device, sockets) {
                return any;
            }
            any = either(any, true);
            left -= 1;
        }
        any
    }

    /// One step of the ingress path. Answers nothing where no frame came, else whether it was read.
    fn receive<D: Device>(
        &mut self,
        timestamp: Instant,
        device: &mut D,
        sockets: &mut SocketSet<Socket>,
    ) -> Option<bool>
        requires { IsMoment timestamp }
        ensures step { IngressStep D.moves timestamp (state device.old self.old (slots sockets.old)) result (state device.new self.new (slots sockets.new)) }
        ensures settings { KeepsSettings (at_instant timestamp self.old.inner) self.new.inner }
        ensures kind { is_fixed sockets.new ≡ is_fixed sockets.old }
        ensures capabilities { D.described device.new ≡ D.described device.old }
    {
        self.inner.set_now(timestamp);
        self.assemblers.remove_expired(timestamp);
        ingress(
            &mut self.inner,
            &mut self.fragmenter,
            &mut self.assemblers,
            self.timeout,
            &mut self.reporter,
            device,
            &mut sockets.slots,
        )
    }

    /// One step of the egress path. Says whether a socket's state or a queue changed.
    fn send<D: Device>(
        &mut self,
        timestamp: Instant,
        device: &mut D,
        sockets: &mut SocketSet<Socket>,
    ) -> bool
        requires { IsMoment timestamp }
        ensures step { EgressStep D.moves timestamp (state device.old self.old (slots sockets.old)) (if_changed result)
            (state device.new self.new (slots sockets.new)) }
        ensures unchanged { result ≡ false → AreUnchanged (slots sockets.old) (slots sockets.new) }
        ensures host { IsSameHost (at_instant timestamp self.old.inner) self.new.inner }
        ensures kind { is_fixed sockets.new ≡ is_fixed sockets.old }
        ensures capabilities { D.described device.new ≡ D.described device.old }
    {
        self.inner.set_now(timestamp);
        egress(
            &mut self.inner,
            &mut self.fragmenter,
            device,
            &mut sockets.slots,
        )
    }
}

/// When something has to be told of multicast groups next.
fn reports_at(reporter: &Option<Reporter>) -> Option<Instant>
    ensures { result ≡ reports_at reporter.now }
{
    match reporter {
        Some(reporter) => reporter.due_at(),
        None => None,
    }
}

/// How long it is until an instant, nothing where that has come.
fn time_until(now: Instant, instant: Instant) -> Duration
    ensures { result ≡ time_until now instant }
{
    if now < instant {
        instant - now
    } else {
        Duration::ZERO
    }
}

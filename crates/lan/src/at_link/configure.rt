//! Settings, questions and polls of a host, with what they give.
ghost use Rattle.std.specs.Prelude.{◌≡◌, IfOk, OnErr};
ghost use Rattle.net_base.specs.Time.{IsMoment};
ghost use Rattle.lan.specs.Worlds.AtLink.Kinds as acts;
ghost use Rattle.lan.specs.Worlds.AtLink.Kinds.Act.{Sets, Opens, Asks, Polls};
ghost use Rattle.lan.specs.declared.at_link.history.answer.Answer.TheVariants as to;
ghost use Rattle.lan.specs.Worlds.AtLink.Acting.{ActsSo};
ghost use Rattle.lan.specs.Worlds.AtLink.Answers.{IsTwice};

use crate::at_link::answer::{Brief, Taken, Twins, give, give_twice};
use crate::at_link::history::Answer;
use crate::at_link::host::Host;
use crate::at_link::settings;
use arrayvec::ArrayVec;
use ip_wire::{EthernetAddress, IpAddress, IpCidr};
use net_base::{Duration, Instant};
use std::alloc::AllocError;

fn instant_twice(due_instant: Option<Instant>) -> Twins
    ensures { IsTwice result (to.At due_instant) }
{
    match due_instant {
        Some(instant) => (Answer::At(Some(instant)), Answer::At(Some(instant))),
        None => (Answer::At(None), Answer::At(None)),
    }
}

impl Host {
    /// Sets the hardware address.
    pub fn set_hardware_addr(&mut self, address: EthernetAddress) -> Taken
        ensures { ActsSo self.old (Sets (acts.HardwareAddr address)) result self.new }
    {
        give(
            settings::set_hardware_addr(&mut self.interface, address),
            None,
        )
    }

    /// Sets the own addresses, in place of those that the host had.
    pub fn set_addrs(&mut self, blocks: &ArrayVec<IpCidr, 4>) -> Taken
        ensures { ActsSo self.old (Sets (acts.Addrs blocks.now.items)) result self.new }
    {
        give(settings::set_addrs(&mut self.interface, blocks), None)
    }

    /// Sets the router of all destinations of its family.
    pub fn set_route(&mut self, router: IpAddress) -> Taken
        ensures { ActsSo self.old (Sets (acts.Route router)) result self.new }
    {
        give(settings::set_route(&mut self.interface, router), None)
    }

    /// Sets whether every address counts as an own one.
    pub fn set_any_ip(&mut self, any: bool) -> Taken
        ensures { ActsSo self.old (Sets (acts.AnyIp any)) result self.new }
    {
        give(settings::set_any_ip(&mut self.interface, any), None)
    }

    /// Sets how long the fragments of a datagram are waited for.
    pub fn set_reassembly_timeout(&mut self, timeout: Duration) -> Taken
        ensures { ActsSo self.old (Sets (acts.ReassemblyTimeout timeout)) result self.new }
    {
        give(
            settings::set_reassembly_timeout(&mut self.interface, timeout),
            None,
        )
    }

    /// Room for so many frames more in its device.
    pub fn open_room(&mut self, room: usize) -> Taken
        ensures { ActsSo self.old (Opens room) result self.new }
    {
        self.set_room(room);
        give(Brief::Done, None)
    }

    /// Asks when the host wants to be polled.
    pub fn ask(&mut self, instant: Instant) -> Taken
        requires { IsMoment instant }
        ensures { ActsSo self.old (Asks instant) result self.new }
    {
        give_twice(instant_twice(self.poll_at(instant)))
    }

    /// Polls the host, with room made first.
    pub fn polled(&mut self, instant: Instant, budget: u16) -> Result<Taken, AllocError>
        requires { IsMoment instant }
        ensures done { IfOk result (λ t. ActsSo self.old (Polls instant budget) t self.new) }
        ensures unchanged { OnErr result (self.new ≡ self.old) }
    {
        let changed = self.poll(instant, budget)?;
        Ok(give_twice((Answer::Poll(changed), Answer::Poll(changed))))
    }
}

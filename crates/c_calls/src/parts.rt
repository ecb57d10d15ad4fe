//! The parts of a host, lent: a call of one part needn't take the host apart.
ghost use Rattle.std.specs.Prelude.{◌≡◌};
ghost use Rattle.std.specs.Borrow.{sem};
ghost use Rattle.c_calls.specs.BorrowEnds.{LendsLink, LendsSockets, LendsInterface, LendsListeners, LendsLeases, LendsNames, LendsCounters};

use crate::host::{Counters, Host};
use crate::link::FrameLink;
use crate::slots::Slots;
use interface::{Interface, Listener};
use sockets::{dhcp, dns};
use std::alloc::Global;

impl Host {
    /// What its memory comes from.
    pub(crate) fn alloc(&self) -> Global {
        self.alloc
    }

    /// Its link.
    pub(crate) fn seen_link(&self) -> &FrameLink
        ensures { result.now ≡ self.now.link }
    {
        &self.link
    }

    /// Lends its link.
    pub(crate) fn link(&mut self) -> &mut FrameLink
        ensures* lends { sem 𝓛 (LendsLink self.entry result) }
        ensures value { result.now ≡ self.old.link }
    {
        &mut self.link
    }

    /// Lends what it counted.
    pub(crate) fn counted(&mut self) -> &mut Counters
        ensures* lends { sem 𝓛 (LendsCounters self.entry result) }
        ensures value { result.now ≡ self.old.counters }
    {
        &mut self.counters
    }

    /// Its sockets.
    pub(crate) fn seen_sockets(&self) -> &Slots
        ensures { result.now ≡ self.now.slots }
    {
        &self.sockets
    }

    /// Lends its sockets.
    pub(crate) fn sockets(&mut self) -> &mut Slots
        ensures* lends { sem 𝓛 (LendsSockets self.entry result) }
        ensures value { result.now ≡ self.old.slots }
    {
        &mut self.sockets
    }

    /// Its interface.
    pub(crate) fn seen_interface(&self) -> &Interface
        ensures { result.now ≡ self.now.host }
    {
        &self.interface
    }

    /// Lends its interface, alongside its sockets.
    pub(crate) fn interface_beside(&mut self) -> (&mut Interface, &Slots)
        ensures* lends { sem 𝓛 (LendsInterface self.entry result.0) }
        ensures value { (result.0.now ≡ self.old.host) × (result.1.now ≡ self.old.slots) }
    {
        (&mut self.interface, &self.sockets)
    }

    /// Lends its interface.
    pub(crate) fn interface(&mut self) -> &mut Interface
        ensures* lends { sem 𝓛 (LendsInterface self.entry result) }
        ensures value { result.now ≡ self.old.host }
    {
        &mut self.interface
    }

    /// Its listeners.
    pub(crate) fn seen_listeners(&self) -> &[Option<Listener>]
        ensures { result.now ≡ self.now.listeners }
    {
        self.listeners.as_slice()
    }

    /// Lends its listeners.
    pub(crate) fn listeners(&mut self) -> &mut Vec<Option<Listener>>
        ensures* lends { sem 𝓛 (LendsListeners self.entry result) }
        ensures value { result.now.items ≡ self.old.listeners }
    {
        &mut self.listeners
    }

    /// Its client of DHCP.
    pub(crate) fn seen_leases(&self) -> &Option<dhcp::Socket>
        ensures { result.now ≡ self.now.dhcp }
    {
        &self.dhcp
    }

    /// Lends its client of DHCP, alongside its interface.
    pub(crate) fn leases_beside(&mut self) -> (&mut Option<dhcp::Socket>, &Interface)
        ensures* lends { sem 𝓛 (LendsLeases self.entry result.0) }
        ensures value { (result.0.now ≡ self.old.dhcp) × (result.1.now ≡ self.old.host) }
    {
        (&mut self.dhcp, &self.interface)
    }

    /// Lends its client of DHCP.
    pub(crate) fn leases(&mut self) -> &mut Option<dhcp::Socket>
        ensures* lends { sem 𝓛 (LendsLeases self.entry result) }
        ensures value { result.now ≡ self.old.dhcp }
    {
        &mut self.dhcp
    }

    /// Its client of DNS.
    pub(crate) fn seen_names(&self) -> &Option<dns::Socket>
        ensures { result.now ≡ self.now.dns }
    {
        &self.dns
    }

    /// Lends its client of DNS, alongside its interface.
    pub(crate) fn names_beside(&mut self) -> (&mut Option<dns::Socket>, &Interface)
        ensures* lends { sem 𝓛 (LendsNames self.entry result.0) }
        ensures value { (result.0.now ≡ self.old.dns) × (result.1.now ≡ self.old.host) }
    {
        (&mut self.dns, &self.interface)
    }

    /// Lends its client of DNS.
    pub(crate) fn names(&mut self) -> &mut Option<dns::Socket>
        ensures* lends { sem 𝓛 (LendsNames self.entry result) }
        ensures value { result.now ≡ self.old.dns }
    {
        &mut self.dns
    }
}

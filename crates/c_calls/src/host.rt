//! A host: its link, its interface and its sockets.
ghost use Rattle.std.specs.Prelude.{◌≡◌, length};
ghost use Rattle.c_calls.specs.Link.{next_len, fetch_answer, fetched};
ghost use Rattle.c_calls.specs.Codes.{coded};
ghost use Rattle.c_calls.specs.Calls.{counted, NewHost, TakesFrame, fetched_from, or_empty, PollsAt, AsksAt, device_of, initial_config, config_of};
ghost use Rattle.c_calls.specs.Added.{MakesSocket};
ghost use Rattle.c_calls.specs.Backlogs.{may_be_removed, removed_by};
ghost use Rattle.c_calls.specs.Codes.{of_fetch};
ghost use Rattle.c_calls.specs.Numbers.{is_some_socket, socket_named, user_at, with_user_at};

use crate::backlogs::{is_in_backlog, refresh_all};
use crate::code::{Code, of_fetch, of_new, of_push};
use crate::link::FrameLink;
use crate::slots::{Slots, slot_of};
use interface::{Config, Interface, Listener};
use ip_wire::{EthernetAddress, HardwareAddress};
use net_base::{ChecksumCapabilities, Device, DeviceCapabilities, Instant, Medium};
use sockets::{AnySocket, dhcp, dns};
use std::alloc::Global;
use std::marker::Model;

/// What a host is made with.
#[derive(Clone, Copy)]
pub struct Settings {
    /// The hardware address's address, on a medium that has such addresses.
    pub hardware: Option<EthernetAddress>,
    /// How many bytes the longest frame has, with its Ethernet header where there is one.
    pub mtu: usize,
    /// What its random words begin with.
    pub seed: u64,
    /// The key of TCP's initial sequence numbers (RFC 6528); without one they are random words.
    pub isn_key: Option<[u8; 16]>,
    /// How many frames may wait each way.
    pub frames: usize,
    /// Whether it does what is asked of a host on a network of many, where smoltcp does otherwise; with a table of 256 neighbours.
    pub host_requirements: bool,
    /// Whether routers and switches are told which multicast groups it listens to.
    pub multicast_reports: bool,
}

/// What a host has counted since it was made, each up to the largest number.
#[derive(Clone, Copy)]
pub struct Counters {
    /// Frames that came, and were taken in.
    pub frames_in: u64,
    /// Frames that came, and were refused: too long, too many, or without memory.
    pub frames_dropped: u64,
    /// Frames that were fetched.
    pub frames_out: u64,
    /// Polls.
    pub polls: u64,
}

/// A host.
#[derive(Drop)]
pub struct Host {
    pub(crate) alloc: Global,
    pub(crate) link: FrameLink,
    pub(crate) interface: Interface,
    pub(crate) sockets: Slots,
    pub(crate) listeners: Vec<Option<Listener>>,
    pub(crate) dhcp: Option<dhcp::Socket>,
    pub(crate) dns: Option<dns::Socket>,
    pub(crate) counters: Counters,
}

impl Model for Host {
    ghost use Rattle.c_calls.specs.Host.{StackValue};

    ghost Value = { StackValue };

    ghost view = { λ h. record {
      link = h.link;
      host = h.interface;
      slots = h.sockets;
      listeners = h.listeners.items;
      dhcp = h.dhcp;
      dns = h.dns;
      counters = h.counters;
    } };
}

/// What its device says of itself.
fn capabilities(settings: &Settings) -> DeviceCapabilities
    ensures { result ≡ device_of settings.now }
{
    DeviceCapabilities {
        medium: match settings.hardware {
            Some(_) => Medium::Ethernet,
            None => Medium::Ip,
        },
        max_transmission_unit: settings.mtu,
        checksum: ChecksumCapabilities::default(),
    }
}

fn initial_config(host_requirements: bool, hardware_addr: HardwareAddress) -> Config
    ensures { result ≡ initial_config host_requirements hardware_addr }
{
    if host_requirements {
        Config::with_host_requirements(hardware_addr)
    } else {
        Config::new(hardware_addr)
    }
}

fn config(settings: &Settings) -> Config
    ensures { result ≡ config_of settings.now }
{
    let hardware_addr = match settings.hardware {
        Some(address) => HardwareAddress::Ethernet(address),
        None => HardwareAddress::Ip,
    };
    Config {
        random_seed: settings.seed,
        isn_key: settings.isn_key,
        multicast_reports: settings.multicast_reports,
        ..initial_config(settings.host_requirements, hardware_addr)
    }
}

fn one_more(count: u64) -> u64
    ensures { result ≡ counted count }
{
    count.saturating_add(1)
}

fn frame_arrived(counters: &mut Counters)
    ensures { counters.new ≡ record counters.old { frames_in = counted counters.old.frames_in } }
{
    counters.frames_in = one_more(counters.frames_in);
}

fn frame_dropped(counters: &mut Counters)
    ensures { counters.new ≡ record counters.old { frames_dropped = counted counters.old.frames_dropped } }
{
    counters.frames_dropped = one_more(counters.frames_dropped);
}

pub(crate) fn frame_went(counters: &mut Counters)
    ensures { counters.new ≡ record counters.old { frames_out = counted counters.old.frames_out } }
{
    counters.frames_out = one_more(counters.frames_out);
}

impl Host {
    /// A host without addresses, routes and sockets, from this instant on.
    pub fn new(alloc: Global, settings: &Settings, now: Instant) -> Result<Host, Code>
        ensures { NewHost settings.now now result }
    {
        let link = FrameLink::new(alloc, capabilities(settings), settings.frames);
        match Interface::new(alloc, &config(settings), &link, now) {
            Ok(interface) => Ok(Host {
                alloc,
                link,
                interface,
                sockets: Slots::new(alloc),
                listeners: Vec::new(alloc),
                dhcp: None,
                dns: None,
                counters: Counters {
                    frames_in: 0,
                    frames_dropped: 0,
                    frames_out: 0,
                    polls: 0,
                },
            }),
            Err(error) => Err(of_new(error)),
        }
    }

    /// A frame comes, and waits for a poll.
    pub fn frame_in(&mut self, frame: &[u8]) -> Result<(), Code>
        ensures { TakesFrame frame.now self.old result self.new }
    {
        match self.link().push(frame) {
            Ok(()) => {
                frame_arrived(self.counted());
                Ok(())
            }
            Err(error) => {
                frame_dropped(self.counted());
                Err(of_push(error))
            }
        }
    }

    /// Copies the first frame that is to go to the front of the slice, and answers its length.
    pub fn frame_out(&mut self, out: &mut [u8]) -> Result<usize, Code>
        ensures answer { result ≡ coded of_fetch (fetch_answer self.old.link.sent (length out.old)) }
        ensures after { self.new ≡ fetched_from self.old (length out.old) }
        ensures bytes { out.new ≡ fetched self.old.link.sent out.old }
    {
        match self.link().fetch(out) {
            Ok(count) => {
                frame_went(self.counted());
                Ok(count)
            }
            Err(error) => Err(of_fetch(error)),
        }
    }

    /// How many bytes the first frame has that is to go.
    pub fn frame_out_len(&self) -> Result<usize, Code>
        ensures { result ≡ or_empty (next_len self.now.link.sent) }
    {
        match self.seen_link().next_len() {
            Some(count) => Ok(count),
            None => Err(Code::Empty),
        }
    }

    /// Takes in what came and sends what is to be sent, each at most so many times. Answers whether a socket's state or queue may have
    /// changed.
    pub fn poll(&mut self, now: Instant, budget: u16) -> Result<bool, Code>
        ensures { PollsAt now budget self.old result self.new }
    {
        if !now.is_moment() {
            return Err(Code::Moment);
        }
        self.counters.polls = one_more(self.counters.polls);
        let changed = self
            .sockets
            .poll(now, budget, &mut self.interface, &mut self.link);
        refresh_all(self.listeners.as_mut_slice(), &mut self.sockets, now);
        Ok(changed)
    }

    /// When the host wants to be polled: nothing has to be done before, unless a frame comes or a socket is called.
    pub fn poll_at(&mut self, now: Instant) -> Result<Option<Instant>, Code>
        ensures { AsksAt now self.old result self.new }
    {
        if !now.is_moment() {
            return Err(Code::Moment);
        }
        let (interface, sockets) = self.interface_beside();
        Ok(sockets.poll_at(now, interface))
    }

    /// What its frames begin with.
    pub fn medium(&self) -> Medium
        ensures { result ≡ self.now.link.capabilities.medium }
    {
        self.link.capabilities().medium
    }

    /// What was counted.
    pub fn counters(&self) -> Counters
        ensures { result ≡ self.now.counters }
    {
        self.counters
    }

    /// Takes the socket of this number out, and gives its memory back. The number names nothing then.
    pub fn remove(&mut self, socket: usize) -> Result<(), Code>
        ensures answer { result ≡ may_be_removed self.old socket }
        ensures after { self.new ≡ removed_by (may_be_removed self.old socket) self.old socket }
    {
        if self.seen_sockets().is_free(socket) {
            return Err(Code::NoSocket);
        }
        if is_in_backlog(self.seen_listeners(), slot_of(socket)) {
            return Err(Code::InBacklog);
        }
        self.sockets().give_up(socket);
        Ok(())
    }

    /// What the user set at the socket, 0 before. The host makes nothing of it.
    pub fn socket_user(&self, socket: usize) -> Result<usize, Code>
        ensures { result ≡ user_at self.now.slots socket }
    {
        self.seen_sockets().user(socket)
    }

    /// Sets it.
    pub fn socket_set_user(&mut self, socket: usize, user: usize) -> Result<(), Code>
        ensures answer { result ≡ is_some_socket (socket_named self.old.slots socket) }
        ensures after { self.new ≡ record self.old { slots = with_user_at self.old.slots socket user } }
    {
        self.sockets().set_user(socket, user)
    }

    /// Puts a socket at the first free slot, and answers its number.
    pub(crate) fn add<K: AnySocket + Drop>(&mut self, socket: K) -> Result<usize, Code>
        ensures { MakesSocket (K.upcast_of socket) self.old result self.new }
    {
        self.sockets().add(socket)
    }
}

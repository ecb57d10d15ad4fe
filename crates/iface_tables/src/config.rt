//! How a host is made, and what its settings refuse.
ghost use Rattle.std.specs.Prelude.{◌≡◌, ◌≤◌, None, IfOk};
ghost use Rattle.net_base.specs.Time.{IsMoment};
ghost use Rattle.net_base.specs.Capabilities.{ip_mtu};
ghost use Rattle.iface_tables.specs.Refusals.{new_error_text, hardware_addr_error_text};
ghost use Rattle.iface_tables.specs.Settings.{default_config, network_config, is_of_medium, is_unicast_hardware, is_mtu, refusal, neighbors_for};
ghost use Rattle.iface_tables.specs.Neighbor as Neighbors;
ghost use Rattle.iface_tables.specs.Parking.{empty_parking, parking_size, room_for_many};

use crate::groups::GROUP_ROOM;
use crate::neighbor::Cache;
use crate::parking::{PARKING_SIZE, Parking};
use ip_wire::{HardwareAddress, IPV4_MIN_MTU};
use net_base::{DeviceCapabilities, Instant, Medium};
use std::alloc::{AllocError, Global};
use std::fmt;

/// How many local addresses a host keeps, and how many neighbours and routes where its configuration names no other number.
pub const TABLE_ROOM: usize = 4;

/// How many neighbours a host keeps on a network of many.
const NETWORK_NEIGHBORS: usize = 256;

/// The longest IPv4 packet.
const MAX_MTU: usize = 65_535;

/// What a host is made with.
#[derive(Clone, Copy, Debug)]
pub struct Config {
    /// What the random words begin with.
    pub random_seed: u64,
    /// `Ip` on a medium that has no hardware addresses.
    pub hardware_addr: HardwareAddress,
    /// The key by which the initial sequence numbers of TCP connections are told; without one they are random
    /// words.
    pub isn_key: Option<[u8; 16]>,
    /// How many neighbours are kept at a time. At least one is: 0 counts as 1.
    pub neighbor_cache_count: usize,
    /// How many routes are kept at a time.
    pub max_route_count: usize,
    /// Whether the host does what RFC 1122 and the standards after it ask of a host on a network of many, where smoltcp does otherwise.
    pub host_requirements: bool,
    /// Whether routers and switches are told which multicast groups are listened to (RFC 3376, RFC 3810).
    pub multicast_reports: bool,
    /// How many multicast groups are joined at a time, at most `GROUP_ROOM`.
    pub max_group_count: usize,
}

impl Config {
    /// This hardware address, random words of the seed 0, no key, tables of four neighbours and four routes, smoltcp's ways, no reports of
    /// multicast groups, and as many groups as there is room for.
    pub fn new(hardware_addr: HardwareAddress) -> Config
        ensures { result ≡ default_config hardware_addr }
    {
        Config {
            random_seed: 0,
            hardware_addr,
            isn_key: None,
            neighbor_cache_count: TABLE_ROOM,
            max_route_count: TABLE_ROOM,
            host_requirements: false,
            multicast_reports: false,
            max_group_count: GROUP_ROOM,
        }
    }

    /// The same, but for a network of many: with host requirements, a table of 256 neighbours, and reports of multicast groups.
    pub fn with_host_requirements(hardware_addr: HardwareAddress) -> Config
        ensures { result ≡ network_config hardware_addr }
    {
        Config {
            neighbor_cache_count: NETWORK_NEIGHBORS,
            host_requirements: true,
            multicast_reports: true,
            ..Config::new(hardware_addr)
        }
    }
}

/// Why no interface is made.
#[derive(Clone, Copy, Debug, PartialEq, Eq)]
pub enum NewError {
    /// The device's medium has other hardware addresses.
    Medium,
    /// The hardware address isn't that of one hardware address.
    NotUnicast,
    /// The longest IP packet of a frame is below 576 or above 65,535 bytes.
    Mtu,
    /// The instant is none that the stack's calls take.
    Moment,
    /// There is no memory for its buffers.
    Memory,
}

impl fmt::Display for NewError {
    ghost use Rattle.std.specs.Prelude.{Some};
    ghost use Rattle.iface_tables.specs.Refusals.{new_error_text};

    ghost output = { λ error. Some (new_error_text error) };

    fn fmt<W: fmt::Write>(&self, f: &mut fmt::Formatter<W>) -> fmt::Result {
        f.write_str(new_error_text(*self))
    }
}

impl std::error::Error for NewError {}

fn new_error_text(error: NewError) -> &'static str
    ensures { result.now ≡ new_error_text error }
{
    match error {
        NewError::Medium => "the device's medium has other hardware addresses",
        NewError::NotUnicast => "the hardware address isn't that of one station",
        NewError::Mtu => "the IP MTU is out of 576 to 65535 bytes",
        NewError::Moment => "the moment is out of range",
        NewError::Memory => "out of memory",
    }
}

/// Why a hardware address isn't set.
#[derive(Clone, Copy, Debug, PartialEq, Eq)]
pub enum HardwareAddrError {
    /// The medium has no such addresses.
    Medium,
    /// It isn't the address of one hardware address.
    NotUnicast,
}

impl fmt::Display for HardwareAddrError {
    ghost use Rattle.std.specs.Prelude.{Some};
    ghost use Rattle.iface_tables.specs.Refusals.{hardware_addr_error_text};

    ghost output = { λ error. Some (hardware_addr_error_text error) };

    fn fmt<W: fmt::Write>(&self, f: &mut fmt::Formatter<W>) -> fmt::Result {
        f.write_str(hardware_addr_error_text(*self))
    }
}

impl std::error::Error for HardwareAddrError {}

fn hardware_addr_error_text(error: HardwareAddrError) -> &'static str
    ensures { result.now ≡ hardware_addr_error_text error }
{
    match error {
        HardwareAddrError::Medium => "the medium has no such hardware addresses",
        HardwareAddrError::NotUnicast => "the hardware address isn't that of one station",
    }
}

/// One of the addresses is neither that of one host nor unspecified.
#[derive(Clone, Copy, Debug, PartialEq, Eq)]
pub struct NotUnicast;

impl fmt::Display for NotUnicast {
    ghost use Rattle.std.specs.Prelude.{Some, codes};

    ghost output = { λ _. Some (codes "an address isn't that of one host") };

    fn fmt<W: fmt::Write>(&self, f: &mut fmt::Formatter<W>) -> fmt::Result {
        write!(f, "an address isn't that of one host")
    }
}

impl std::error::Error for NotUnicast {}

/// The first reason why no interface is made of these, if there is one.
pub fn refusal(config: &Config, device: &DeviceCapabilities, now: Instant) -> Option<NewError>
    ensures reason { result ≡ refusal config.now device.now now }
    ensures none { result ≡ None → IsMoment now × (576 ≤ ip_mtu device.now) × (ip_mtu device.now ≤ 65535) }
{
    if !is_of_medium(&config.hardware_addr, device.medium) {
        Some(NewError::Medium)
    } else if !is_unicast_hardware(&config.hardware_addr) {
        Some(NewError::NotUnicast)
    } else if !is_mtu(device.ip_mtu()) {
        Some(NewError::Mtu)
    } else if !now.is_moment() {
        Some(NewError::Moment)
    } else {
        None
    }
}

fn is_of_medium(address: &HardwareAddress, medium: Medium) -> bool
    ensures { result ≡ is_of_medium address.now medium }
{
    match (address, medium) {
        (HardwareAddress::Ip, Medium::Ip) => true,
        (HardwareAddress::Ethernet(_), Medium::Ethernet) => true,
        _ => false,
    }
}

fn is_unicast_hardware(address: &HardwareAddress) -> bool
    ensures { result ≡ is_unicast_hardware address.now }
{
    match address {
        HardwareAddress::Ip => true,
        HardwareAddress::Ethernet(address) => address.is_unicast(),
    }
}

fn is_mtu(size: usize) -> bool
    ensures { result ≡ is_mtu size }
{
    IPV4_MIN_MTU <= size && size <= MAX_MTU
}

/// How many bytes of packets wait for their next hops: on a network of many alone.
fn parking_size(config: &Config) -> usize
    ensures room { result ≡ room_for_many config.now.host_requirements }
    ensures in_range { result ≤ parking_size }
{
    if config.host_requirements {
        PARKING_SIZE
    } else {
        0
    }
}

/// No neighbour is known. On a network of many more are searched for at a time.
pub(crate) fn cache_for(alloc: Global, config: &Config) -> Result<Cache, AllocError>
    ensures { IfOk result (λ c. c ≡ neighbors_for config.now.host_requirements (Neighbors.initial (Neighbors.cache_room config.now.neighbor_cache_count))) }
{
    let mut cache = Cache::new(alloc, config.neighbor_cache_count)?;
    if config.host_requirements {
        cache.search_many();
    }
    Ok(cache)
}

/// No packet waits for its next hop.
pub(crate) fn parking_for(alloc: Global, config: &Config) -> Result<Parking, AllocError>
    ensures { IfOk result (λ p. p ≡ empty_parking (room_for_many config.now.host_requirements)) }
{
    Parking::new(alloc, parking_size(config))
}

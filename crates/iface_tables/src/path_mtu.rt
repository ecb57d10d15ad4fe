//! How long a packet to a destination may be, as messages from the way there told (RFC 8201, sections 4 and 5.3; RFC 1191, sections 3
//! and 6.3).
ghost use Rattle.std.specs.Prelude.{◌≡◌, ◌≤◌, ◌<◌, [], length};
ghost use Rattle.std.specs.Option.{ForSome};
ghost use Rattle.net_base.specs.Time.{IsMoment};
ghost use Rattle.iface_tables.specs.PathMtu.{least_mtu, path_index_of, path_to, narrowed, mtu_towards, end_towards, victim, entered, heard_of, lowered, counts, some_count};

use arrayvec::ArrayVec;
use ip_wire::{IpAddress, Ipv4Address};
use net_base::{Duration, Instant};
use socket_context::addresses::is_same_address;
use std::marker::Model;

/// Of how many destinations a host keeps this.
const PATH_ROOM: usize = 8;

/// How long what was told counts, in seconds.
const PATH_SECS: u64 = 600;

/// How long a packet every host of IPv4 takes.
const IPV4_LEAST: usize = 576;

/// How long a packet every link of IPv6 carries.
const IPV6_LEAST: usize = 1_280;

/// What was told of the path to a destination: how long a packet it carries, and until when that counts.
#[derive(Clone, Copy, Debug)]
pub struct Path {
    pub destination: IpAddress,
    pub told: usize,
    pub until: Instant,
}

/// What stands in an unused place of a table.
impl Default for Path {
    ghost use Rattle.iface_tables.specs.PathMtu.{no_path};

    ghost is_default = { λ p. p ≡ no_path };

    fn default() -> Path {
        Path {
            destination: IpAddress::Ipv4(Ipv4Address::UNSPECIFIED),
            told: 0,
            until: Instant::ZERO,
        }
    }
}

/// What was told of the paths to a few destinations.
#[derive(Debug, Drop)]
pub struct Paths {
    entries: ArrayVec<Path, PATH_ROOM>,
}

impl Model for Paths {
    ghost use Rattle.std.specs.Prelude.{List};
    ghost use Rattle.iface_tables.specs.declared.path_mtu.Path.{Path};

    ghost Value = { List Path };

    ghost view = { λ p. p.entries.items };
}

impl Paths {
    /// Nothing was told of any path.
    pub fn new() -> Paths
        ensures { result ≡ [] }
    {
        Paths {
            entries: ArrayVec::new(),
        }
    }

    /// How long a packet to this destination may be, where a frame carries `whole` bytes.
    #[tactic(auto, unfolding(crate::specs::PathMtu::mtu_towards))]
    pub fn mtu_towards(&self, address: &IpAddress, now: Instant, whole: usize) -> usize
        ensures { result ≡ mtu_towards self.now address.now now whole }
    {
        match path_to(self.entries.as_slice(), address) {
            Some(path) if now < path.until => narrowed(address, path.told, whole),
            _ => whole,
        }
    }

    /// When what is known of the path to this destination ends, if something is.
    #[tactic(auto, unfolding(crate::specs::PathMtu::end_towards))]
    pub fn end_towards(&self, address: &IpAddress, now: Instant) -> Option<Instant>
        ensures { result ≡ end_towards self.now address.now now }
    {
        match path_to(self.entries.as_slice(), address) {
            Some(path) if now < path.until => Some(path.until),
            _ => None,
        }
    }

    /// Whether what was told of some path counts.
    pub fn some_count(&self, now: Instant) -> bool
        ensures { result ≡ some_count self.now now }
    {
        self.entries.as_slice().iter().any(|path| counts(now, path))
    }

    /// Takes in that the path to this destination carries a packet of so many bytes, where that is less than was known.
    #[tactic(auto, unfolding(crate::specs::PathMtu::lowered))]
    pub fn lower(&mut self, address: IpAddress, told: usize, now: Instant, whole: usize)
        requires { IsMoment now }
        ensures { self.new ≡ lowered self.old address told now whole }
    {
        if narrowed(&address, told, whole) < self.mtu_towards(&address, now, whole) {
            self.enter(Path {
                destination: address,
                told,
                until: now + Duration::from_secs(PATH_SECS),
            });
        }
    }

    /// Enters what was told. An entry of the destination is replaced where it stands; in a full table the one that ends first makes
    /// room.
    fn enter(&mut self, path: Path)
        ensures { self.new ≡ entered self.old path }
    {
        if let Some(at) = path_index_of(self.entries.as_slice(), &path.destination) {
            self.entries[at] = path;
            return;
        }
        if self.entries.is_full() {
            let at = victim(self.entries.as_slice());
            self.entries.remove(at);
        }
        self.entries.push(path);
    }
}

/// Whether what was told of a path counts.
fn counts(now: Instant, path: &Path) -> bool
    ensures { result ≡ counts now path.now }
{
    now < path.until
}

/// The least that a path to this destination is taken to carry.
fn least_mtu(address: &IpAddress) -> usize
    ensures { result ≡ least_mtu address.now }
{
    match address {
        IpAddress::Ipv4(_) => IPV4_LEAST,
        IpAddress::Ipv6(_) => IPV6_LEAST,
    }
}

/// How long a packet may be whose path was told to carry so many bytes.
fn narrowed(address: &IpAddress, told: usize, whole: usize) -> usize
    ensures { result ≡ narrowed address.now told whole }
{
    whole.min(least_mtu(address).max(told))
}

/// Where the entry of this destination stands.
fn path_index_of(paths: &[Path], address: &IpAddress) -> Option<usize>
    ensures index { result ≡ path_index_of paths.now address.now }
    ensures in_range { ForSome result (λ at. at < length paths.now) }
{
    paths
        .iter()
        .position(|path| is_same_address(&path.destination, address))
}

/// The entry of this destination.
fn path_to(paths: &[Path], address: &IpAddress) -> Option<Path>
    ensures { result ≡ path_to paths.now address.now }
{
    match path_index_of(paths, address) {
        Some(at) => Some(paths[at]),
        None => None,
    }
}

/// Where the entry stands that ends first, of several the first.
fn victim(paths: &[Path]) -> usize
    requires { 0 < length paths.now }
    ensures index { result ≡ victim paths.now }
    ensures in_range { result < length paths.now }
{
    let mut at = 0;
    for i in 1..paths.len() {
        if paths[i].until < paths[at].until {
            at = i;
        }
    }
    at
}

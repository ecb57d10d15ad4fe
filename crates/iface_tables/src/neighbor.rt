//! Which hardware address each neighbour has (RFC 826; RFC 4861, section 5.1).
ghost use Rattle.std.specs.Prelude.{◌≡◌, ◌≤◌, ◌<◌, ◌+◌, if◌then◌else◌, [], pos, ◌+ℤ◌, length, nat_lt, not, slice_get, Some, None, IfOk};
ghost use Rattle.std.specs.Option.{ForSome};
ghost use Rattle.net_base.specs.Time.{IsMoment};
ghost use Rattle.ip_wire.specs.AddressTests.{is_same_hardware};
ghost use Rattle.iface_tables.specs.Neighbor.{initial, lookup, filled, filled_at, renewed, renewed_entry, silenced, requested, searched_at, one_more, first_search};
ghost use Rattle.iface_tables.specs.Neighbor.{count_after, search_index, search_of, oldest_search, ended, is_failed, has_failed_by, has_failed};
ghost use Rattle.iface_tables.specs.Neighbor.{last_request, flushed, is_found, is_known_by, victim, for_many, own_silence, entry_lifetime, silent_time, cache_room};

use crate::indexed::{index_for, index_from, index_in};
use arrayvec::ArrayVec;
use base_index::Index;
use ip_wire::{HardwareAddress, IpAddress, Ipv4Address};
use net_base::{Duration, Instant};
use socket_context::addresses::is_same_address;
use std::alloc::{AllocError, Global};
use std::marker::Model;

/// How long no other request is transmitted after one, and how long an entry is believed, in milliseconds.
pub(crate) const SILENT_MILLIS: u64 = 1_000;

const LIFETIME_MILLIS: u64 = 60_000;

/// How often a neighbour is asked for (RFC 4861, section 10), and how long it counts as without answer then, in milliseconds.
const MOST_REQUESTS: u8 = 3;

const FAILED_MILLIS: u64 = 3_000;

/// How many neighbours are asked for at a time, and on a network of many.
const SEARCH_ROOM: usize = 8;

const SEARCH_ROOM_OF_MANY: usize = 64;

/// A neighbour: its hardware address, and the instant from which on that isn't believed any more.
#[derive(Clone, Copy, Debug)]
pub struct Neighbor {
    pub protocol_addr: IpAddress,
    pub hardware_addr: HardwareAddress,
    pub expires_at: Instant,
}

impl Neighbor {
    /// Believes the entry for its lifetime from this instant on, where it has this hardware address.
    fn renew(&mut self, hardware_addr: &HardwareAddress, timestamp: Instant)
        requires { IsMoment timestamp }
        ensures { self.new ≡ renewed_entry self.old hardware_addr.now timestamp }
    {
        if !is_same_hardware(&self.hardware_addr, hardware_addr) {
            return;
        }
        self.expires_at = timestamp + Duration::from_millis(LIFETIME_MILLIS);
    }
}

/// What an unused place holds in a table of places that are all filled.
impl Default for Neighbor {
    ghost use Rattle.iface_tables.specs.Neighbor.{blank};

    ghost is_default = { λ n. n ≡ blank };

    fn default() -> Neighbor {
        Neighbor {
            protocol_addr: IpAddress::Ipv4(Ipv4Address::UNSPECIFIED),
            hardware_addr: HardwareAddress::Ip,
            expires_at: Instant::ZERO,
        }
    }
}

/// A neighbour that was asked for and hasn't answered.
#[derive(Clone, Copy, Debug)]
pub struct Search {
    pub protocol_addr: IpAddress,
    /// How often it was asked for.
    pub requests: u8,
    /// Until when the last request is to be answered.
    pub answer_by: Instant,
    /// Until when the address counts as without answer, once all requests are made.
    pub failed_until: Instant,
}

impl Search {
    /// A search that begins with a request at this instant.
    fn new(protocol_addr: IpAddress, timestamp: Instant) -> Search
        requires { IsMoment timestamp }
        ensures { result ≡ first_search protocol_addr timestamp }
    {
        Search {
            protocol_addr,
            requests: 1,
            answer_by: timestamp + Duration::from_millis(SILENT_MILLIS),
            failed_until: timestamp + Duration::from_millis(SILENT_MILLIS + FAILED_MILLIS),
        }
    }

    /// The search after one more request at this instant.
    fn one_more(&self, timestamp: Instant) -> Search
        requires { IsMoment timestamp }
        ensures { result ≡ one_more self.now timestamp }
    {
        Search {
            requests: count_after(self.requests),
            ..Search::new(self.protocol_addr, timestamp)
        }
    }

    /// Whether all requests stayed without an answer, a short while ago.
    fn has_failed(&self, timestamp: Instant) -> bool
        ensures { result ≡ is_failed self.now timestamp }
    {
        !(self.requests < MOST_REQUESTS)
            && !(timestamp < self.answer_by)
            && timestamp < self.failed_until
    }
}

/// What stands in an unused place of a table.
impl Default for Search {
    ghost use Rattle.iface_tables.specs.Neighbor.{no_search};

    ghost is_default = { λ s. s ≡ no_search };

    fn default() -> Search {
        Search {
            protocol_addr: IpAddress::Ipv4(Ipv4Address::UNSPECIFIED),
            requests: 0,
            answer_by: Instant::ZERO,
            failed_until: Instant::ZERO,
        }
    }
}

/// What a cache answers about an address.
#[derive(Clone, Copy, Debug, PartialEq, Eq)]
pub enum Answer {
    /// The neighbour's hardware address.
    Found(HardwareAddress),
    /// It isn't known, and may be asked for.
    NotFound,
    /// It isn't known, and a neighbour was asked for less than `silent_time` ago.
    RateLimited,
    /// It was asked for three times in vain, and counts as without answer for a while.
    Unanswered,
}

impl Answer {
    /// Whether the hardware address is known.
    pub fn found(&self) -> bool
        ensures { result ≡ is_found self.now }
    {
        matches!(self, Answer::Found(_))
    }
}

/// The hardware addresses of a number of neighbours, those that are asked for, and when the next may be. Its memory is taken when it is
/// made. Among more than a few a neighbour is found by a key of its address, without a look at the others.
#[derive(Debug, Drop)]
pub struct Cache {
    storage: Vec<Neighbor>,
    positions: Index,
    silent_until: Instant,
    searches: ArrayVec<Search, SEARCH_ROOM_OF_MANY>,
    search_room: usize,
}

impl Model for Cache {
    ghost use Rattle.std.specs.Prelude.{◌≤◌, length, vec_len, vec_capacity};
    ghost use Rattle.iface_tables.specs.Indexed.{AreIndexed};
    ghost use Rattle.iface_tables.specs.Neighbor.{CacheValue, search_room_of_many};

    ghost Value = { CacheValue };

    ghost view = { λ c. record { entries = c.storage.items; room = vec_capacity c.storage; silent = c.silent_until; searches = c.searches.items; search_room = c.search_room } };

    ghost invariant = { λ c. (1 ≤ vec_capacity c.storage) × (vec_len c.storage ≤ vec_capacity c.storage)
        × (vec_capacity c.storage ≤ length c.positions) × AreIndexed c.storage.items c.positions
        × (1 ≤ c.search_room) × (c.search_room ≤ search_room_of_many) × (length c.searches.items ≤ c.search_room) };
}

impl Cache {
    /// How long no other request is transmitted after one.
    pub fn silent_time() -> Duration
        ensures { result ≡ silent_time }
    {
        Duration::from_millis(SILENT_MILLIS)
    }

    /// How long an entry is believed.
    pub fn entry_lifetime() -> Duration
        ensures { result ≡ entry_lifetime }
    {
        Duration::from_millis(LIFETIME_MILLIS)
    }

    /// An empty cache for so many neighbours, and for one if the number is 0.
    pub fn new(alloc: Global, count: usize) -> Result<Cache, AllocError>
        ensures { IfOk result (λ c. c ≡ initial (cache_room count)) }
    {
        let room = count.max(1);
        let storage = Vec::with_capacity(alloc, room)?;
        let positions = index_for(alloc, room)?;
        Ok(Cache {
            storage,
            positions,
            silent_until: Instant::ZERO,
            searches: ArrayVec::new(),
            search_room: SEARCH_ROOM,
        })
    }

    /// What is known of an address at an instant.
    pub fn lookup(&self, protocol_addr: &IpAddress, timestamp: Instant) -> Answer
        ensures { result ≡ lookup self.now protocol_addr.now timestamp }
    {
        self.lookup_silent(protocol_addr, timestamp, self.silent_until)
    }

    /// The same where no request for the address goes until another instant.
    pub fn lookup_silent(
        &self,
        protocol_addr: &IpAddress,
        timestamp: Instant,
        silent_until: Instant,
    ) -> Answer
        ensures { result ≡ lookup (record self.now { silent = silent_until }) protocol_addr.now timestamp }
    {
        if let Some(at) = index_in(self.storage.as_slice(), &self.positions, protocol_addr) {
            let neighbor = &self.storage[at];
            if timestamp < neighbor.expires_at {
                return Answer::Found(neighbor.hardware_addr);
            }
        }
        if self.has_failed(protocol_addr, timestamp) {
            Answer::Unanswered
        } else if timestamp < silent_until {
            Answer::RateLimited
        } else {
            Answer::NotFound
        }
    }

    /// Whether an address counts as without answer at an instant.
    fn has_failed(&self, protocol_addr: &IpAddress, timestamp: Instant) -> bool
        ensures { result ≡ has_failed self.now protocol_addr.now timestamp }
    {
        match search_of(self.searches.as_slice(), protocol_addr) {
            Some(search) => search.has_failed(timestamp),
            None => false,
        }
    }

    /// Until when the last request for an address is to be answered, if it is asked for.
    pub fn last_request(&self, protocol_addr: &IpAddress) -> Option<Instant>
        ensures { result ≡ last_request self.now protocol_addr.now }
    {
        match search_of(self.searches.as_slice(), protocol_addr) {
            Some(search) => Some(search.answer_by),
            None => None,
        }
    }

    /// Whether as many neighbours are asked for as are kept count of.
    pub fn is_crowded(&self) -> bool
        ensures { result ≡ not (nat_lt (length self.now.searches) self.now.search_room) }
    {
        self.searches.len() >= self.search_room
    }

    /// From now on as many neighbours are asked for at a time as on a network of many.
    pub fn search_many(&mut self)
        ensures { self.new ≡ for_many self.old }
    {
        self.search_room = SEARCH_ROOM_OF_MANY;
    }

    /// Until when no request for an address goes that has a silence of its own: until its last one is to be answered; where as many are asked
    /// for as may, until the oldest of them is.
    pub fn own_silence(&self, protocol_addr: &IpAddress) -> Instant
        ensures { result ≡ own_silence (last_request self.now protocol_addr.now) self.now }
    {
        if let Some(until) = self.last_request(protocol_addr) {
            return until;
        }
        if !self.is_crowded() {
            return Instant::ZERO;
        }
        let searches = self.searches.as_slice();
        search_at(searches, oldest_search(searches)).answer_by
    }

    /// Until when no neighbour is asked for.
    pub fn silent_until(&self) -> Instant
        ensures { result ≡ self.now.silent }
    {
        self.silent_until
    }

    /// Enters a neighbour that was heard at this instant. It is believed for `entry_lifetime`.
    pub fn fill(
        &mut self,
        protocol_addr: IpAddress,
        hardware_addr: HardwareAddress,
        timestamp: Instant,
    )
        requires { IsMoment timestamp }
        ensures { self.new ≡ filled self.old (record {
          protocol_addr = protocol_addr;
          hardware_addr = hardware_addr;
          expires_at =
              timestamp +ℤ pos entry_lifetime;
        }) }
    {
        self.fill_with_expiration(
            protocol_addr,
            hardware_addr,
            timestamp + Duration::from_millis(LIFETIME_MILLIS),
        );
    }

    /// Enters a neighbour that is believed until this instant, and isn't asked for any more. An entry of this address is replaced
    /// where it stands; in a full cache the one that expires first makes room, of several the one that has stood longest.
    pub fn fill_with_expiration(
        &mut self,
        protocol_addr: IpAddress,
        hardware_addr: HardwareAddress,
        expires_at: Instant,
    )
        ensures { self.new ≡ filled self.old (record { protocol_addr = protocol_addr; hardware_addr = hardware_addr; expires_at = expires_at }) }
    {
        let neighbor = Neighbor {
            protocol_addr,
            hardware_addr,
            expires_at,
        };
        self.end_search(&protocol_addr);
        match index_in(self.storage.as_slice(), &self.positions, &protocol_addr) {
            Some(at) => self.storage[at] = neighbor,
            None => self.add(neighbor),
        }
    }

    /// Enters a neighbour after the others. In a full cache one makes room.
    #[tactic(auto, using(crate::proofs::Places::before_last, crate::proofs::Places::before_removed))]
    fn add(&mut self, neighbor: Neighbor)
        ensures { self.new ≡ record self.old { entries = filled_at None self.old.room self.old.entries neighbor } }
    {
        if self.storage.len() < self.storage.capacity() {
            let last = self.storage.len();
            self.storage.push_reserved(neighbor);
            index_from(self.storage.as_slice(), &mut self.positions, last);
        } else {
            let at = victim(self.storage.as_slice());
            self.storage.remove(at);
            self.storage.push_reserved(neighbor);
            index_from(self.storage.as_slice(), &mut self.positions, at);
        }
    }

    /// Believes an entry for `entry_lifetime` from this instant on, where it has this hardware address.
    pub fn reset_expiry_if_existing(
        &mut self,
        protocol_addr: IpAddress,
        source_hardware_addr: HardwareAddress,
        timestamp: Instant,
    )
        requires { IsMoment timestamp }
        ensures { self.new ≡ renewed self.old protocol_addr source_hardware_addr timestamp }
    {
        if let Some(at) = index_in(self.storage.as_slice(), &self.positions, &protocol_addr) {
            let known = is_known_at(self.storage.as_slice(), at, &source_hardware_addr);
            self.end_search_if(known, &protocol_addr);
            self.storage[at].renew(&source_hardware_addr, timestamp);
        }
    }

    /// A neighbour isn't asked for any more, where it was heard.
    fn end_search_if(&mut self, heard: bool, protocol_addr: &IpAddress)
        ensures { self.new ≡ record self.old { searches = if heard then ended self.old.searches protocol_addr.now else self.old.searches } }
    {
        if heard {
            self.end_search(protocol_addr);
        }
    }

    /// A neighbour isn't asked for any more.
    fn end_search(&mut self, protocol_addr: &IpAddress)
        ensures { self.new ≡ record self.old { searches = ended self.old.searches protocol_addr.now } }
    {
        if let Some(at) = search_index(self.searches.as_slice(), protocol_addr) {
            self.searches.remove(at);
        }
    }

    /// Begins the time in which no neighbour is asked for.
    pub fn limit_rate(&mut self, timestamp: Instant)
        requires { IsMoment timestamp }
        ensures { self.new ≡ silenced self.old timestamp }
    {
        self.silent_until = timestamp + Duration::from_millis(SILENT_MILLIS);
    }

    /// Counts a request for a neighbour, and begins the time in which none is asked for. In a full table the address makes room that
    /// was asked for longest ago.
    pub fn request(&mut self, protocol_addr: IpAddress, timestamp: Instant)
        requires { IsMoment timestamp }
        ensures { self.new ≡ requested self.old protocol_addr timestamp }
    {
        self.limit_rate(timestamp);
        if let Some(at) = search_index(self.searches.as_slice(), &protocol_addr) {
            let search = search_at(self.searches.as_slice(), at);
            self.searches[at] = search.one_more(timestamp);
            return;
        }
        if self.is_crowded() {
            let at = oldest_search(self.searches.as_slice());
            self.searches.remove(at);
        }
        self.searches.push(Search::new(protocol_addr, timestamp));
    }

    /// Forgets every neighbour. A time of silence goes on.
    pub fn flush(&mut self)
        ensures { self.new ≡ flushed self.old }
    {
        self.storage.clear();
        self.searches.clear();
    }
}

/// Whether the entry at a place has this hardware address.
fn is_known_at(entries: &[Neighbor], at: usize, hardware_addr: &HardwareAddress) -> bool
    requires { at < length entries.now }
    ensures { result ≡ is_known_by (slice_get entries.now at) hardware_addr.now }
{
    is_same_hardware(&entries[at].hardware_addr, hardware_addr)
}

fn search_at(searches: &[Search], at: usize) -> Search
    requires { at < length searches.now }
    ensures { slice_get searches.now at ≡ Some result }
{
    searches[at]
}

/// Where the search for this address stands.
fn search_index(searches: &[Search], address: &IpAddress) -> Option<usize>
    ensures index { result ≡ search_index searches.now address.now }
    ensures in_range { ForSome result (λ at. at < length searches.now) }
{
    searches
        .iter()
        .position(|search| is_same_address(&search.protocol_addr, address))
}

/// The search for this address.
fn search_of(searches: &[Search], address: &IpAddress) -> Option<Search>
    ensures { result ≡ search_of searches.now address.now }
{
    match search_index(searches, address) {
        Some(at) => Some(searches[at]),
        None => None,
    }
}

/// How often a neighbour was asked for after one more request.
fn count_after(requests: u8) -> u8
    ensures { result ≡ count_after requests }
{
    if requests < MOST_REQUESTS {
        requests + 1
    } else {
        1
    }
}

/// Where the search stands that was asked for longest ago, of several the first.
fn oldest_search(searches: &[Search]) -> usize
    requires { 0 < length searches.now }
    ensures index { result ≡ oldest_search searches.now }
    ensures in_range { result < length searches.now }
{
    let mut at = 0;
    for i in 1..searches.len() {
        if searches[i].answer_by < searches[at].answer_by {
            at = i;
        }
    }
    at
}

/// Where the entry stands that expires first, of several the first.
fn victim(entries: &[Neighbor]) -> usize
    requires { 0 < length entries.now }
    ensures index { result ≡ victim entries.now }
    ensures in_range { result < length entries.now }
{
    let mut at = 0;
    for i in 1..entries.len() {
        if entries[i].expires_at < entries[at].expires_at {
            at = i;
        }
    }
    at
}

/// Whether the two are one hardware address.
fn is_same_hardware(one: &HardwareAddress, other: &HardwareAddress) -> bool
    ensures { result ≡ is_same_hardware one.now other.now }
{
    match (one, other) {
        (HardwareAddress::Ip, HardwareAddress::Ip) => true,
        (HardwareAddress::Ethernet(one), HardwareAddress::Ethernet(other)) => one.0 == other.0,
        _ => false,
    }
}

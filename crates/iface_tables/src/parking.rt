//! Packets that wait for their next hop beside its search, on a network of many (RFC 1122, section 2.3.2.2; RFC 4861, section 7.2.2).
ghost use Rattle.std.specs.Prelude.{◌≡◌, ◌<◌, ◌≤◌, ◌+◌, ◌^◌, ◌∷◌, ◌++◌, [], true, length, take, drop, remove, slice_get, filter, position, Some, IfOk};
ghost use Rattle.std.specs.Option.{ForSome};
ghost use Rattle.ip_wire.specs.Ip as Ips;
ghost use Rattle.socket_context.specs.Packet.{packet_value, payload_len, payload_written, PayloadFits};
ghost use Rattle.wire_address.specs.AddressTests.{is_same_address};
ghost use Rattle.iface_tables.specs.Parking.{empty_parking, has_room, headers_of, is_holdable, parked_as, parking_size, place_to_go, total_len, with_parked, with_place_for, with_room_for};

use ip_wire::{IpAddress, IpRepr};
use net_base::ChecksumCapabilities;
use socket_context::Packet;
use socket_context::addresses::is_same_address;
use std::alloc::{AllocError, Global};
use std::marker::Model;

/// How many packets wait at a time, and how many for one next hop.
pub const PARKING_PLACES: usize = 16;

const HOP_PLACES: usize = 4;

/// How many bytes after their headers they have together at most.
pub const PARKING_SIZE: usize = 32_768;

/// A packet that waits for its next hop: its header, and how many bytes follow it.
#[derive(Clone, Copy, Debug)]
pub struct ParkedHeader {
    pub hop: IpAddress,
    pub header: IpRepr,
    pub len: usize,
}

/// The packets that wait, in the order in which they came: their headers, and their bytes one after another.
#[derive(Debug, Drop)]
pub struct Parking {
    bytes: Vec<u8>,
    headers: Vec<ParkedHeader>,
}

impl Model for Parking {
    ghost use Rattle.std.specs.Prelude.{length, ◌<◌, ◌≤◌, vec_capacity, All};
    ghost use Rattle.iface_tables.specs.Parking.{IsMeasured, ParkingValue, parked_values, parking_places, parking_size, total_len};

    ghost Value = { ParkingValue };

    ghost view = { λ p. record { packets = parked_values p.headers.items p.bytes.items; room = length p.bytes.items } };

    ghost invariant = { λ p. (total_len p.headers.items ≤ length p.bytes.items) × (0 < length p.bytes.items → parking_places ≤ vec_capacity p.headers)
        × All IsMeasured p.headers.items × (length p.bytes.items ≤ parking_size) };
}

impl Parking {
    /// No packet waits, and so many bytes have room.
    pub fn new(alloc: Global, size: usize) -> Result<Parking, AllocError>
        requires { size ≤ parking_size }
        ensures { IfOk result (λ p. p ≡ empty_parking size) }
    {
        Ok(Parking {
            bytes: vec![in alloc; 0; size]?,
            headers: Vec::with_capacity(alloc, PARKING_PLACES)?,
        })
    }

    /// Without room for any packet. It takes no memory.
    pub fn without_room(alloc: Global) -> Parking
        ensures { result ≡ empty_parking 0 }
    {
        Parking {
            bytes: Vec::new(alloc),
            headers: Vec::new(alloc),
        }
    }

    /// What gives memory for its bytes.
    pub fn allocator(&self) -> Global {
        *self.bytes.allocator()
    }

    /// How many packets wait.
    pub fn len(&self) -> usize
        ensures { result ≡ length self.now.packets }
    {
        self.headers.as_slice().len()
    }

    /// The headers of those that wait.
    pub fn headers(&self) -> &[ParkedHeader]
        ensures { result.now ≡ headers_of self.now.packets }
    {
        self.headers.as_slice()
    }

    /// The packet at a place: its header, and the bytes after it.
    pub fn packet(&self, at: usize) -> (ParkedHeader, &[u8])
        requires { at < length self.now.packets }
        ensures packet { slice_get self.now.packets at ≡ Some (record { hop = result.0.hop; header = result.0.header; payload = result.1.now }) }
        ensures measured { Ips.payload_len_of result.0.header ≡ length result.1.now }
    {
        let headers = self.headers.as_slice();
        let header = header_at(headers, at);
        let start = start_of(headers, at);
        (header, part_of(self.bytes.as_slice(), start, header.len))
    }

    /// Lets a packet wait for its next hop, after the others. Where as many wait for that hop as may, the oldest of them is given up; then,
    /// where as many wait as may, or their bytes leave no room for its own, the oldest of all, until there is room. A packet that has no
    /// room by itself is dropped.
    pub fn park(&mut self, hop: IpAddress, packet: &Packet<'_>, checksums: &ChecksumCapabilities)
        requires measured { Ips.payload_len_of (packet_value packet.now).header ≡ payload_len (packet_value packet.now).payload }
        requires fits { Ips.Fits (packet_value packet.now).header → PayloadFits (packet_value packet.now).header (packet_value packet.now).payload }
        ensures { self.new ≡ with_parked (parked_as checksums.now hop (packet_value packet.now)) self.old }
    {
        let len = packet.payload().buffer_len();
        if !self.is_holdable(len) {
            return;
        }
        self.make_place(&hop);
        self.make_room(len);
        self.add(hop, packet, len, checksums);
    }

    /// Whether a packet of so many bytes has room by itself.
    fn is_holdable(&self, len: usize) -> bool
        ensures value { result ≡ is_holdable self.now.room len }
        ensures short { result ≡ true → len ≤ parking_size }
    {
        self.bytes.len() != 0 && len <= self.bytes.len()
    }

    /// Whether one more packet of so many bytes has room.
    fn has_room(&self, len: usize) -> bool
        requires { len ≤ self.now.room }
        ensures { result ≡ has_room self.now.room len self.now.packets }
    {
        let headers = self.headers.as_slice();
        let room = self.bytes.as_slice().len() - len;
        let total = used(headers);
        headers.len() < PARKING_PLACES && total <= room
    }

    /// Takes the packet at a place out.
    pub fn remove(&mut self, at: usize)
        requires { at < length self.old.packets }
        ensures { self.new ≡ record self.old { packets = remove self.old.packets at } }
    {
        let headers = self.headers.as_slice();
        let start = start_of(headers, at);
        let end = end_of(headers, at);
        let total = used(headers);
        self.bytes.copy_within(end..total, start);
        self.headers.remove(at);
    }

    /// Gives up the oldest packet for a next hop, where as many wait for it as may.
    fn make_place(&mut self, hop: &IpAddress)
        ensures { self.new ≡ record self.old { packets = with_place_for hop.now self.old.packets } }
    {
        if let Some(at) = self.place_to_go(hop) {
            self.remove(at);
        }
    }

    /// Where the oldest packet for a next hop stands, where as many wait for it as may.
    fn place_to_go(&self, hop: &IpAddress) -> Option<usize>
        ensures index { result ≡ place_to_go hop.now self.now.packets }
        ensures in_range { ForSome result (λ at. at < length self.now.packets) }
    {
        let headers = self.headers.as_slice();
        if waiting_for(headers, hop) < HOP_PLACES {
            return None;
        }
        first_for(headers, hop)
    }

    /// Gives up the oldest packets until one more of so many bytes has room.
    fn make_room(&mut self, len: usize)
        requires { is_holdable self.old.room len ≡ true }
        ensures after { self.new ≡ record self.old { packets = with_room_for self.old.room len self.old.packets } }
        ensures room { has_room self.new.room len self.new.packets ≡ true }
    {
        while !self.has_room(len) {
            self.remove(0);
        }
    }

    /// Writes a packet after the others, where it has room.
    fn add(
        &mut self,
        hop: IpAddress,
        packet: &Packet<'_>,
        len: usize,
        checksums: &ChecksumCapabilities,
    )
        requires measured { Ips.payload_len_of (packet_value packet.now).header ≡ payload_len (packet_value packet.now).payload }
        requires fits { PayloadFits (packet_value packet.now).header (packet_value packet.now).payload }
        requires len { len ≡ payload_len (packet_value packet.now).payload }
        requires some { 0 < self.old.room }
        requires room { has_room self.old.room len self.old.packets ≡ true }
        ensures { self.new ≡ record self.old { packets = self.old.packets ++ parked_as checksums.now hop (packet_value packet.now) ∷ [] } }
    {
        let start = used(self.headers.as_slice());
        write_at(self.bytes.as_mut_slice(), start, packet, checksums);
        self.headers.push_reserved(ParkedHeader {
            hop,
            header: packet.ip_repr(),
            len,
        });
    }
}

/// The header at a place.
fn header_at(headers: &[ParkedHeader], at: usize) -> ParkedHeader
    requires { at < length headers.now }
    ensures { slice_get headers.now at ≡ Some result }
{
    headers[at]
}

/// Where the bytes of the packet at a place begin.
fn start_of(headers: &[ParkedHeader], at: usize) -> usize
    requires within { at ≤ length headers.now }
    requires fits { total_len headers.now < 2 ^ 64 }
    ensures { result ≡ total_len (take at headers.now) }
{
    let mut start = 0;
    for i in 0..at {
        start += header_at(headers, i).len;
    }
    start
}

/// Where they end.
fn end_of(headers: &[ParkedHeader], at: usize) -> usize
    requires within { at < length headers.now }
    requires fits { total_len headers.now < 2 ^ 64 }
    ensures { result ≡ total_len (take (at + 1) headers.now) }
{
    start_of(headers, at + 1)
}

/// How many bytes all have.
fn used(headers: &[ParkedHeader]) -> usize
    requires { total_len headers.now < 2 ^ 64 }
    ensures { result ≡ total_len headers.now }
{
    start_of(headers, headers.len())
}

/// So many bytes from a place on.
fn part_of(bytes: &[u8], start: usize, len: usize) -> &[u8]
    requires { start + len ≤ length bytes.now }
    ensures { result.now ≡ take len (drop start bytes.now) }
{
    let (_before, rest) = bytes.split_at(start);
    let (part, _after) = rest.split_at(len);
    part
}

/// Writes what a packet carries at a place among these bytes.
fn write_at(bytes: &mut [u8], start: usize, packet: &Packet<'_>, checksums: &ChecksumCapabilities)
    requires room { start + payload_len (packet_value packet.now).payload ≤ length bytes.old }
    requires fits { PayloadFits (packet_value packet.now).header (packet_value packet.now).payload }
    ensures len { length bytes.new ≡ length bytes.old }
    ensures before { take start bytes.new ≡ take start bytes.old }
    ensures written { take (payload_len (packet_value packet.now).payload) (drop start bytes.new)
        ≡ payload_written checksums.now (packet_value packet.now).header (packet_value packet.now).payload }
{
    let (_before, rest) = bytes.split_at_mut(start);
    let (place, _after) = rest.split_at_mut(packet.payload().buffer_len());
    packet.emit_payload(place, checksums);
}

/// How many packets wait for a next hop.
fn waiting_for(headers: &[ParkedHeader], hop: &IpAddress) -> usize
    ensures { result ≡ length (filter (λ h. is_same_address h.hop hop.now) headers.now) }
{
    headers
        .iter()
        .filter(|packet| is_same_address(&packet.hop, hop))
        .count()
}

/// Where the oldest of them stands.
fn first_for(headers: &[ParkedHeader], hop: &IpAddress) -> Option<usize>
    ensures index { result ≡ position (λ h. is_same_address h.hop hop.now) headers.now }
    ensures in_range { ForSome result (λ at. at < length headers.now) }
{
    headers
        .iter()
        .position(|packet| is_same_address(&packet.hop, hop))
}

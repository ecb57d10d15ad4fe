//! Entries of a cache by their addresses: among more than a few, they are found by a key and not by a look at all.
ghost use Rattle.std.specs.Prelude.{◌≡◌, ◌≤◌, ◌<◌, length, IfOk};
ghost use Rattle.std.specs.Option.{ForSome};
ghost use Rattle.iface_tables.specs.Neighbor as Neighbors;
ghost use Rattle.iface_tables.specs.Indexed.{number, key_of, AreIndexedBefore, AreIndexed};

use crate::neighbor::Neighbor;
use base_index::Index;
use ip_wire::IpAddress;
use socket_context::addresses::is_same_address;
use std::alloc::{AllocError, Global};

/// Places for so many entries, each with some key.
pub fn index_for(alloc: Global, count: usize) -> Result<Index, AllocError>
    ensures { IfOk result (λ keys. length keys ≡ count) }
{
    let mut keys = Index::new(alloc);
    keys.reserve(count)?;
    for at in 0..count {
        if !keys.note(at, at as u64) {
            return Err(AllocError);
        }
    }
    Ok(keys)
}

/// Up to so many entries a look at each of them costs less than a key does.
const FEW: usize = 4;

/// Where the entry of this address stands.
pub fn index_in(entries: &[Neighbor], keys: &Index, address: &IpAddress) -> Option<usize>
    requires { AreIndexed entries.now keys.now }
    ensures index { result ≡ Neighbors.neighbor_index_of entries.now address.now }
    ensures in_range { ForSome result (λ at. at < length entries.now) }
{
    if entries.len() <= FEW {
        neighbor_index_of(entries, address)
    } else {
        index_by_key(entries, keys, address)
    }
}

/// The same by a look at each.
fn neighbor_index_of(entries: &[Neighbor], address: &IpAddress) -> Option<usize>
    ensures index { result ≡ Neighbors.neighbor_index_of entries.now address.now }
    ensures in_range { ForSome result (λ at. at < length entries.now) }
{
    entries
        .iter()
        .position(|entry| is_same_address(&entry.protocol_addr, address))
}

/// The same by the key of the address.
fn index_by_key(entries: &[Neighbor], keys: &Index, address: &IpAddress) -> Option<usize>
    requires { AreIndexed entries.now keys.now }
    ensures index { result ≡ Neighbors.neighbor_index_of entries.now address.now }
    ensures in_range { ForSome result (λ at. at < length entries.now) }
{
    let mut link = keys.first(key_of(address));
    while let Some(at) = link {
        if at >= entries.len() {
            return None;
        }
        if is_same_address(&entries[at].protocol_addr, address) {
            return Some(at);
        }
        link = keys.next(at);
    }
    None
}

/// Gives the places of the entries from this one on the keys of their addresses.
pub fn index_from(entries: &[Neighbor], keys: &mut Index, from: usize)
    requires room { length entries.now ≤ length keys.old }
    requires before { AreIndexedBefore from entries.now keys.old }
    ensures indexed { AreIndexed entries.now keys.new }
    ensures room { length keys.new ≡ length keys.old }
{
    for at in from..entries.len() {
        let _ = keys.note(at, key_of(&entries[at].protocol_addr));
    }
}

fn key_of(address: &IpAddress) -> u64
    ensures { result ≡ key_of address.now }
{
    match address {
        IpAddress::Ipv4(address) => {
            let [a, b, c, d] = address.0;
            number(a, b, c, d)
        }
        IpAddress::Ipv6(address) => {
            number(address.0[12], address.0[13], address.0[14], address.0[15])
        }
    }
}

fn number(a: u8, b: u8, c: u8, d: u8) -> u64
    ensures { result ≡ number a b c d }
{
    ((u64::from(a) * 256 + u64::from(b)) * 256 + u64::from(c)) * 256 + u64::from(d)
}

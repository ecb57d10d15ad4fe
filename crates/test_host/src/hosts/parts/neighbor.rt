//! What a cache of neighbours has alongside what a host asks of it.
ghost use Rattle.net_base.specs.Time.{IsMoment};

use crate::cases::{Goes, Life, all, all_live, first_wrong};
use iface_tables::{Answer, Cache};
use ip_wire::{EthernetAddress, HardwareAddress, IpAddress};
use net_base::{Duration, Instant};
use std::alloc::Global;

const HARDWARE_A: HardwareAddress = HardwareAddress::Ethernet(EthernetAddress([0, 0, 0, 0, 0, 1]));

const HARDWARE_B: HardwareAddress = HardwareAddress::Ethernet(EthernetAddress([0, 0, 0, 0, 0, 2]));

/// So many microseconds after the start.
fn at(micros: u32) -> Instant
    ensures { IsMoment result }
{
    Instant::from_micros(i64::from(micros))
}

fn host(last: u8) -> IpAddress {
    IpAddress::v4(10, 0, 0, last)
}

/// A call about the neighbour whose address ends so, at so many microseconds, and what it must answer.
enum Step {
    /// It is known until then.
    Fills(u8, u32, HardwareAddress),
    /// It is heard again.
    Renews(u8, u32, HardwareAddress),
    /// It is found.
    Finds(u8, u32, HardwareAddress),
    /// It isn't found.
    Misses(u8, u32),
}

use Step::{Fills, Finds, Misses, Renews};

impl Goes<Cache> for Step {
    fn goes(&self, _alloc: Global, cache: &mut Cache) -> bool {
        match self {
            Fills(last, until, hardware) => {
                cache.fill_with_expiration(host(*last), *hardware, at(*until));
                true
            }
            Renews(last, now, hardware) => {
                cache.reset_expiry_if_existing(host(*last), *hardware, at(*now));
                true
            }
            Finds(last, now, hardware) => {
                cache.lookup(&host(*last), at(*now)) == Answer::Found(*hardware)
            }
            Misses(last, now) => cache.lookup(&host(*last), at(*now)) == Answer::NotFound,
        }
    }
}

/// A cache, from its beginning on.
struct Cached(&'static [Step]);

impl Life for Cached {
    fn stops_at(&self, alloc: Global) -> Option<usize> {
        match Cache::new(alloc, 4) {
            Ok(mut cache) => first_wrong(alloc, &mut cache, self.0),
            Err(_) => Some(0),
        }
    }
}

/// An expiry of its own, and a renewal for the same hardware address alone.
static RENEWED: [Cached; 1] = [Cached(&[
    Fills(1, 1_000, HARDWARE_A),
    Misses(1, 1_000),
    Renews(1, 1_000, HARDWARE_B),
    Misses(1, 1_000),
    Renews(1, 1_000, HARDWARE_A),
    Finds(1, 1_000, HARDWARE_A),
    Finds(1, 60_000_999, HARDWARE_A),
    Renews(2, 1_000, HARDWARE_A),
    Misses(2, 1_000),
])];

#[test]
fn renews(rt: HostRuntime) {
    all_live(&rt, &RENEWED);
}

#[test]
fn times_are_a_second_and_a_minute(rt: HostRuntime) {
    let (silent, lifetime) = (Cache::silent_time(), Cache::entry_lifetime());
    all(
        &rt,
        &[
            silent == Duration::from_micros(1_000_000),
            lifetime == Duration::from_micros(60_000_000),
        ],
    );
}

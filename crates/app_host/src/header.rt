//! The header of a script: what the host is made of.
ghost use Rattle.std.specs.Prelude.{◌<◌, IfSome};

use crate::host::Host;
use crate::made::{add_all, read_socket};
use crate::refusal_text::Refusal;
use crate::stop::{Class, Order, Stop};
use crate::wire::Wire;
use crate::words::Words;
use arrayvec::ArrayVec;
use interface::{Config, Interface, NewError, SocketSet, TABLE_ROOM};
use ip_wire::{EthernetAddress, HardwareAddress, IpAddress, IpCidr};
use net_base::{ChecksumCapabilities, DeviceCapabilities, Instant, ManagedSlice, Medium};
use sim_link::SocketSpec;
use std::alloc::Global;

/// The lines between `world` and `start`.
#[derive(Clone, Copy)]
pub enum Verb {
    Socket,
    Seed,
    Begins,
    Mac,
    IsnKey,
    Checksums,
    HostRequirements,
    Reports,
}

/// What a script asks for before its line `start`.
#[derive(Drop)]
pub struct Header {
    device: DeviceCapabilities,
    seed: u64,
    hardware: HardwareAddress,
    begins: Instant,
    isn_key: Option<[u8; 16]>,
    host_requirements: bool,
    multicast_reports: bool,
    specs: Vec<SocketSpec>,
}

impl Header {
    /// Reads what stands after `world`.
    pub fn read(alloc: Global, words: &mut Words<'_>) -> Option<Header> {
        let medium = medium(words);
        let longest = words.size();
        words.end();
        if !words.is_taken() {
            return None;
        }
        Some(Header {
            device: DeviceCapabilities {
                medium,
                max_transmission_unit: longest,
                checksum: ChecksumCapabilities::default(),
            },
            seed: 1,
            hardware: match medium {
                Medium::Ethernet => HardwareAddress::Ethernet(EthernetAddress([2, 0, 0, 0, 0, 1])),
                Medium::Ip => HardwareAddress::Ip,
            },
            begins: Instant::ZERO,
            isn_key: None,
            host_requirements: false,
            multicast_reports: false,
            specs: Vec::new(alloc),
        })
    }

    /// Takes a line of the header, if there is memory for it.
    pub fn take(&mut self, verb: Verb, words: &mut Words<'_>) -> bool {
        match verb {
            Verb::Socket => return self.socket(words),
            Verb::Seed => {
                words.host();
                self.seed = words.number();
            }
            Verb::Begins => {
                words.host();
                self.begins = Instant::from_micros(words.signed_micros());
            }
            Verb::Mac => {
                words.host();
                self.hardware = hardware(words);
            }
            Verb::IsnKey => {
                words.host();
                self.isn_key = Some(isn_key(words));
            }
            Verb::Checksums => {
                words.host();
                self.device.checksum = checksums(words);
            }
            Verb::HostRequirements => {
                words.host();
                self.host_requirements = words.switch();
            }
            Verb::Reports => {
                words.host();
                self.multicast_reports = words.switch();
            }
        }
        words.end();
        words.is_taken()
    }

    /// One socket more. Those of a host B, which isn't there, are passed over.
    fn socket(&mut self, words: &mut Words<'_>) -> bool {
        let is_local = match words.word(Class::Host) {
            "A" => true,
            "B" => false,
            _ => {
                words.wrong(Class::Host);
                false
            }
        };
        let spec = read_socket(words);
        words.end();
        if words.is_taken() && is_local {
            self.specs.push(spec).is_ok()
        } else {
            words.is_taken()
        }
    }

    /// The host that was asked for, at 192.168.1.1/24 and fd00::1/64.
    pub fn start(&self, alloc: Global, words: &mut Words<'_>) -> Option<Box<Host>> {
        let mut host = self.bare(alloc, words)?;
        if fill(alloc, &mut host, self.specs.as_slice(), words) {
            Some(host)
        } else {
            None
        }
    }

    // The host without its sockets and addresses. (It is on the heap before it gets them: to lend it makes a short proof there.)
    fn bare(&self, alloc: Global, words: &mut Words<'_>) -> Option<Box<Host>> {
        let wire = Wire::new(alloc, self.device);
        let interface = self.interface(alloc, &wire, words)?;
        let sockets = SocketSet::new(ManagedSlice::Owned(Vec::new(alloc)));
        let host = Host {
            interface,
            sockets,
            wire,
        };
        boxed(alloc, host)
    }

    fn interface(&self, alloc: Global, wire: &Wire, words: &mut Words<'_>) -> Option<Interface> {
        let config = Config {
            random_seed: self.seed,
            isn_key: self.isn_key,
            host_requirements: self.host_requirements,
            multicast_reports: self.multicast_reports,
            ..Config::new(self.hardware)
        };
        match Interface::new(alloc, &config, wire, self.begins) {
            Ok(interface) => Some(interface),
            Err(error) => {
                words.note(Stop::Refused(refusal_of(error)));
                None
            }
        }
    }
}

// A value on the heap. (Of a value of any type the proof is short.)
fn boxed<T: Drop>(alloc: Global, value: T) -> Option<Box<T>> {
    Box::new(alloc, value).ok()
}

// Gives the host its sockets and addresses.
fn fill(alloc: Global, host: &mut Host, specs: &[SocketSpec], words: &mut Words<'_>) -> bool {
    let _ = host
        .interface
        .update_ip_addrs(|addresses| put_blocks(addresses));
    add_all(alloc, &mut host.sockets, specs, words)
}

fn medium(words: &mut Words<'_>) -> Medium {
    match words.word(Class::Medium) {
        "eth" => Medium::Ethernet,
        "ip" => Medium::Ip,
        _ => {
            words.wrong(Class::Medium);
            Medium::Ip
        }
    }
}

fn put_blocks(addresses: &mut ArrayVec<IpCidr, TABLE_ROOM>) {
    let _ = addresses.try_push(IpCidr::new(IpAddress::v4(192, 168, 1, 1), 24));
    let _ = addresses.try_push(IpCidr::new(IpAddress::v6(0xfd00, 0, 0, 0, 0, 0, 0, 1), 64));
}

/// A hardware address, or `none` of a medium that has none.
pub fn hardware(words: &mut Words<'_>) -> HardwareAddress {
    let found = match words.word(Class::HardwareAddress) {
        "none" => return HardwareAddress::Ip,
        word => word.parse::<EthernetAddress>(),
    };
    match found {
        Ok(hardware_addr) => HardwareAddress::Ethernet(hardware_addr),
        Err(_) => {
            words.wrong(Class::HardwareAddress);
            HardwareAddress::Ip
        }
    }
}

/// A key of 16 bytes.
fn isn_key(words: &mut Words<'_>) -> [u8; 16] {
    match read_key(words.word(Class::Key).as_bytes()) {
        Some(key) => key,
        None => {
            words.wrong(Class::Key);
            [0; 16]
        }
    }
}

/// The bytes that 32 hexadecimal digits say.
fn read_key(digits: &[u8]) -> Option<[u8; 16]> {
    if digits.len() != 32 {
        return None;
    }
    let mut key = [0; 16];
    for at in 0..16 {
        key[at] = 16 * digit(digits[2 * at])? + digit(digits[2 * at + 1])?;
    }
    Some(key)
}

fn digit(code: u8) -> Option<u8>
    ensures { IfSome result (λ n. n < 16) }
{
    match code {
        b'0'..=b'9' => Some(code - b'0'),
        b'a'..=b'f' => Some(code - b'a' + 10),
        _ => None,
    }
}

/// Whether the host verifies and computes checksums, or leaves them to the device.
fn checksums(words: &mut Words<'_>) -> ChecksumCapabilities {
    if words.switch() {
        ChecksumCapabilities::default()
    } else {
        ChecksumCapabilities::ignored()
    }
}

fn refusal_of(error: NewError) -> Refusal {
    match error {
        NewError::Medium => Refusal::Medium,
        NewError::NotUnicast => Refusal::NotUnicast,
        NewError::Mtu => Refusal::Mtu,
        NewError::Moment => Refusal::Moment,
        NewError::Memory => Refusal::Memory,
    }
}

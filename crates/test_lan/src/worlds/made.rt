//! Which two hosts make a world.
use crate::worlds::common::tell;
use interface::{Config, Interface, SocketSet};
use ip_wire::{EthernetAddress, HardwareAddress};
use lan::{Host, Port, World, WorldError};
use net_base::{ChecksumCapabilities, DeviceCapabilities, Instant, ManagedSlice, Medium};
use std::alloc::Global;
use std::mem::replace;
use std::test::Fail;

/// A device of this medium, whose longest IP packet has so many bytes.
fn capabilities(medium: Medium, ip_mtu: u16) -> DeviceCapabilities {
    let header = match medium {
        Medium::Ethernet => 14,
        Medium::Ip => 0,
    };
    DeviceCapabilities {
        medium,
        max_transmission_unit: usize::from(ip_mtu) + header,
        checksum: ChecksumCapabilities::default(),
    }
}

/// The device of A, which is as B's but for what is wrong with it.
fn described(wrong: &str) -> DeviceCapabilities {
    let medium = match wrong {
        "its medium" | "its medium and its checksums" => Medium::Ethernet,
        _ => Medium::Ip,
    };
    let mut described = capabilities(medium, 1_500);
    if wrong == "its checksums" || wrong == "its medium and its checksums" {
        described.checksum = ChecksumCapabilities::ignored();
    }
    described
}

/// The settings of host n.
fn config(n: u8, medium: Medium) -> Config {
    let hardware_addr = match medium {
        Medium::Ethernet => HardwareAddress::Ethernet(EthernetAddress([2, 0, 0, 0, 0, n])),
        Medium::Ip => HardwareAddress::Ip,
    };
    Config {
        random_seed: u64::from(n),
        ..Config::new(hardware_addr)
    }
}

/// The interface of host n at its port, without addresses.
fn interface(alloc: Global, n: u8, port: &Port, medium: Medium) -> Option<Interface> {
    Interface::new(alloc, &config(n, medium), port, Instant::ZERO).ok()
}

/// Host n over this device, without sockets.
fn host(alloc: Global, n: u8, described: DeviceCapabilities) -> Option<Host> {
    let port = Port::new(alloc, described);
    let interface = interface(alloc, n, &port, described.medium)?;
    if interface.multicast_reports() || interface.host_requirements() {
        return None;
    }
    Some(Host {
        interface,
        sockets: SocketSet::new(ManagedSlice::Owned(Vec::new(alloc))),
        port,
    })
}

/// Makes of A what is wrong with it, but for its device; not where there is no memory for that.
fn spoil(alloc: Global, a: &mut Host, wrong: &str) -> bool {
    match wrong {
        // The device of the port needn't be that over which the interface was made.
        "its MTU" => {
            drop(replace(
                &mut a.port,
                Port::new(alloc, capabilities(Medium::Ip, 1_499)),
            ));
            true
        }
        "a frame waits" => a.port.push(Vec::new(alloc)).is_ok(),
        "any IP" => {
            a.interface.set_any_ip(true);
            true
        }
        _ => true,
    }
}

fn host_a(alloc: Global, wrong: &str) -> Option<Host> {
    let mut a = host(alloc, 1, described(wrong))?;
    if spoil(alloc, &mut a, wrong) {
        Some(a)
    } else {
        None
    }
}

fn host_b(alloc: Global) -> Option<Host> {
    host(alloc, 2, capabilities(Medium::Ip, 1_500))
}

/// Why the two make no world, if they don't: also where there was no memory for them.
fn refusal(alloc: Global, wrong: &str) -> Option<WorldError> {
    let Some((a, b)) = host_a(alloc, wrong).zip(host_b(alloc)) else {
        return Some(WorldError::Memory);
    };
    World::new(alloc, a, b).err()
}

/// The same; made again where an allocation is refused.
fn refused(rt: &HostRuntime, wrong: &str) -> Result<Option<WorldError>, Fail> {
    match refusal(rt.alloc(), wrong) {
        Some(WorldError::Memory) => {
            tell(rt, "hosts are made again")?;
            Ok(refusal(rt.alloc(), wrong))
        }
        refusal => Ok(refusal),
    }
}

/// What is wrong with A, and why the two make no world, if they don't. (Scripts have the bounds of an MTU and of buffers.)
static HOSTS: [(&str, Option<WorldError>); 7] = [
    ("nothing", None),
    ("its medium", Some(WorldError::Media)),
    ("its checksums", Some(WorldError::Checksums)),
    ("its medium and its checksums", Some(WorldError::Media)),
    ("its MTU", Some(WorldError::Mtu)),
    ("any IP", Some(WorldError::NotFresh)),
    ("a frame waits", Some(WorldError::NotFresh)),
];

#[test]
fn initial_hosts_alone_make_a_world(rt: HostRuntime) -> Result<(), Fail> {
    for (wrong, wanted) in &HOSTS {
        assert!(rt; refused(&rt, wrong)? == *wanted, "{wrong}");
    }
    Ok(())
}

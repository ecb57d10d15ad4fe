//! An interface as it is made: where it finds no memory, and how long it waits for fragments.
use crate::hosts::polls::common::at;
use crate::hosts::polls::wire::capabilities;
use interface::{Config, Interface, NewError};
use ip_wire::HardwareAddress;
use net_base::{Duration, Medium};
use sim_link::Port;
use std::alloc::Global;
use std::test::Fail;

/// An interface at a device of packets.
fn made(alloc: Global) -> Result<Interface, NewError> {
    let port = Port::new(alloc, capabilities(Medium::Ip));
    let config = Config::new(HardwareAddress::Ip);
    Interface::new(alloc, &config, &port, at(0))
}

/// Why there is none.
fn tried(alloc: Global) -> Option<NewError> {
    made(alloc).err()
}

/// With ample memory there is an interface. Where a request for memory is refused, whichever it is, the answer says so, and the next
/// try has that memory: `tools/try-proved-without-memory` has each one refused in turn.
#[test]
fn want_of_memory_has_its_name(rt: HostRuntime) -> Result<(), Fail> {
    let alloc = rt.alloc();
    match tried(alloc) {
        Some(NewError::Memory) => {
            println!(rt; "no memory: an interface is made again")?;
            let again = tried(alloc);
            assert_eq!(rt; again, None);
        }
        answer => assert_eq!(rt; answer, None),
    }
    Ok(())
}

/// How long fragments are waited for, and how long when 5 s are set.
fn timeouts(interface: &mut Interface) -> (Duration, Duration) {
    let first = interface.reassembly_timeout();
    interface.set_reassembly_timeout(Duration::from_secs(5));
    (first, interface.reassembly_timeout())
}

/// The same of a new interface.
fn first_timeouts(alloc: Global) -> Option<(Duration, Duration)> {
    match made(alloc) {
        Ok(mut interface) => Some(timeouts(&mut interface)),
        Err(_) => None,
    }
}

/// Fragments of a datagram are waited for 60 s, if nothing else was set.
#[test]
fn fragments_are_waited_for(rt: HostRuntime) {
    let wanted = (Duration::from_secs(60), Duration::from_secs(5));
    assert!(rt; first_timeouts(rt.alloc()) == Some(wanted));
}

//! The devices of hosts.
use net_base::{ChecksumCapabilities, DeviceCapabilities, Medium};
use sim_link::Port;
use std::alloc::Global;
use std::test::Fail;

/// A device of this medium whose longest packet has 1500 bytes, and which leaves all checksums to the host.
pub fn capabilities(medium: Medium) -> DeviceCapabilities {
    let header = match medium {
        Medium::Ethernet => 14,
        Medium::Ip => 0,
    };
    DeviceCapabilities {
        medium,
        max_transmission_unit: 1_500 + header,
        checksum: ChecksumCapabilities::default(),
    }
}

/// A port of this medium, with buffers for twelve frames.
pub fn prepared(alloc: Global, medium: Medium) -> Result<Port, Fail> {
    let mut port = Port::new(alloc, capabilities(medium));
    port.prepare(12, 1_514)?;
    Ok(port)
}

//! Hardware addresses, their texts and their kinds.
use crate::cases::{Case, all, all_hold, prints};
use ip_wire::{Error, EthernetAddress, HardwareAddress, RawHardwareAddress};
use net_base::Medium;
use std::alloc::Global;

const HARDWARE_ADDR: EthernetAddress = EthernetAddress([0xde, 0xad, 0xbe, 0xef, 0x00, 0x09]);

/// Raw addresses of that hardware address, of two bytes and of none.
fn raw_addresses() -> (RawHardwareAddress, RawHardwareAddress, RawHardwareAddress) {
    (
        RawHardwareAddress::from(HARDWARE_ADDR),
        RawHardwareAddress::from_bytes(&[0x0a, 0xff]),
        RawHardwareAddress::from(HardwareAddress::Ip),
    )
}

#[test]
fn prints_and_reads_hardware_addresses(rt: HostRuntime) {
    let alloc = rt.alloc();
    let (raw, few, none) = raw_addresses();
    let hardware_addr = HardwareAddress::Ethernet(HARDWARE_ADDR);
    all(
        &rt,
        &[
            prints(alloc, &HARDWARE_ADDR, "de-ad-be-ef-00-09"),
            prints(alloc, &hardware_addr, "de-ad-be-ef-00-09"),
            prints(alloc, &HardwareAddress::Ip, "no hardware addr"),
            prints(alloc, &raw, "de:ad:be:ef:00:09"),
            prints(alloc, &few, "0a:ff"),
            prints(alloc, &none, ""),
            reads(&raw, Ok(hardware_addr)),
            reads(&few, Err(Error)),
            reads(&none, Err(Error)),
            none.is_empty(),
            few.len() == 2,
            few.as_bytes() == [0x0a, 0xff].as_slice(),
        ],
    );
}

/// Whether the address is read so by either medium.
fn reads(raw: &RawHardwareAddress, ethernet: Result<HardwareAddress, Error>) -> bool {
    raw.parse(Medium::Ethernet) == ethernet && raw.parse(Medium::Ip) == Err(Error)
}

/// An address, and whether it is one hardware address's, a group's, all hardware addresses'.
struct AddressKinds(EthernetAddress, bool, bool, bool);

impl Case for AddressKinds {
    fn holds(&self, _alloc: Global) -> bool {
        let either = HardwareAddress::from(self.0);
        kinds(&self.0) == (self.1, self.2, self.3)
            && either_kinds(&either) == (self.1, self.3, self.0.as_bytes())
    }
}

const GROUP: EthernetAddress = EthernetAddress([1, 0, 0x5e, 0, 0, 1]);

const STATIONS: [AddressKinds; 3] = [
    AddressKinds(HARDWARE_ADDR, true, false, false),
    AddressKinds(GROUP, false, true, false),
    AddressKinds(EthernetAddress::BROADCAST, false, true, true),
];

#[test]
fn tells_hardware_addresses_apart(rt: HostRuntime) {
    all_hold(&rt, &STATIONS);
    let none: &[u8] = &[];
    all(
        &rt,
        &[
            is_local(&HARDWARE_ADDR),
            !is_local(&GROUP),
            EthernetAddress::from_bytes(&GROUP.0) == GROUP,
            either_kinds(&HardwareAddress::Ip) == (false, false, none),
        ],
    );
}

/// Whether the address is one hardware address's, a group's, all hardware addresses'.
fn kinds(address: &EthernetAddress) -> (bool, bool, bool) {
    (
        address.is_unicast(),
        address.is_multicast(),
        address.is_broadcast(),
    )
}

/// Whether the address is one hardware address's, all hardware addresses', and its bytes.
fn either_kinds(address: &HardwareAddress) -> (bool, bool, &[u8]) {
    (
        address.is_unicast(),
        address.is_broadcast(),
        address.as_bytes(),
    )
}

fn is_local(address: &EthernetAddress) -> bool {
    address.is_local()
}

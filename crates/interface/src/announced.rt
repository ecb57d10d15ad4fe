//! A new hardware address is told of.
ghost use Rattle.std.specs.Prelude.{◌≡◌, ◌≤◌, length};
ghost use Rattle.std.specs.List.{filter_map};
ghost use Rattle.ip_wire.specs.AddressTests.{is_loopback};
ghost use Rattle.ip_wire.specs.HardwareAddress.TheVariants as Hardware;
ghost use Rattle.iface_egress.specs.Announcement.{announcement};
ghost use Rattle.iface_egress.specs.Settings.{hardware_refusal, with_hardware};
ghost use Rattle.interface.specs.Announced.{is_announced, announcement_of, announcements, GoesIf, GoInTurn, TellsUnless};
ghost use Rattle.interface.specs.Made.{with_inner};

use crate::host::Interface;
use iface_egress::{HardwareAddrError, InterfaceInner, announce};
use iface_ingress::Context;
use ip_wire::{EthernetAddress, HardwareAddress, IpAddress, IpCidr};
use net_base::{Device, Instant};

impl Interface {
    /// Sets the hardware address, as `set_hardware_addr` does, and tells all neighbours of it, for one local address after the other, until
    /// the device gives no leave or refuses a frame. Says for how many they were told. What is known of neighbours stays.
    pub fn update_hardware_addr<D: Device>(
        &mut self,
        timestamp: Instant,
        device: &mut D,
        addr: HardwareAddress,
    ) -> Result<usize, HardwareAddrError>
        ensures tells { TellsUnless D.moves timestamp (with_hardware self.old.inner addr) (hardware_refusal self.old.inner.hardware addr)
            device.old result device.new }
        ensures after { self.new ≡ with_inner self.old (with_hardware self.old.inner addr) }
        ensures capabilities { D.described device.new ≡ D.described device.old }
    {
        self.inner.set_hardware_addr(addr)?;
        Ok(tell_all(timestamp, device, &self.inner))
    }
}

/// Tells of all local addresses, until the device takes no more.
fn tell_all<D: Device>(timestamp: Instant, device: &mut D, inner: &InterfaceInner) -> usize
    ensures told { GoInTurn D.moves timestamp inner.now (announcements inner.now.hardware inner.now.addresses) device.old result device.new }
    ensures capabilities { D.described device.new ≡ D.described device.old }
{
    match inner.hardware_addr() {
        HardwareAddress::Ip => 0,
        HardwareAddress::Ethernet(local) => tell(
            timestamp,
            device,
            inner,
            &local,
            inner.ip_addrs(),
        ),
    }
}

/// Tells of these addresses, until the device takes no more.
fn tell<D: Device>(
    timestamp: Instant,
    device: &mut D,
    inner: &InterfaceInner,
    local: &EthernetAddress,
    blocks: &[IpCidr],
) -> usize
    requires { inner.now.hardware ≡ Hardware.Ethernet local.now }
    ensures told { GoInTurn D.moves timestamp inner.now (filter_map (announcement_of local.now) blocks.now) device.old result device.new }
    ensures few { result ≤ length blocks.now }
    ensures capabilities { D.described device.new ≡ D.described device.old }
{
    let Some((tcb, rest)) = blocks.split_first() else {
        return 0;
    };
    let address = tcb.address();
    if !is_announced(&address) {
        return tell(timestamp, device, inner, local, rest);
    }
    if !tell_of(timestamp, device, inner, local, &address) {
        return 0;
    }
    1 + tell(timestamp, device, inner, local, rest)
}

/// Tells of this address. Says whether the device took it.
fn tell_of<D: Device>(
    timestamp: Instant,
    device: &mut D,
    inner: &InterfaceInner,
    local: &EthernetAddress,
    address: &IpAddress,
) -> bool
    requires { inner.now.hardware ≡ Hardware.Ethernet local.now }
    ensures told { GoesIf D.moves timestamp inner.now device.old (announcement local.now address.now) result device.new }
    ensures capabilities { D.described device.new ≡ D.described device.old }
{
    let Some(token) = device.transmit(timestamp) else {
        return false;
    };
    announce(device, token, local, address, &inner.checksum_caps())
}

/// Whether neighbours may know this address: it is one host's, and no loopback one.
fn is_announced(address: &IpAddress) -> bool
    ensures { result ≡ is_announced address.now }
{
    address.is_unicast() && !is_loopback(address)
}

fn is_loopback(address: &IpAddress) -> bool
    ensures { result ≡ is_loopback address.now }
{
    match address {
        IpAddress::Ipv4(address) => address.is_loopback(),
        IpAddress::Ipv6(address) => address.is_loopback(),
    }
}

//! The header of a script, and the world that it asks for.
ghost use Rattle.std.specs.Prelude.{◌≡◌, ◌⊎◌, ◌++◌, ◌∷◌, [], Some, None, false, pos, IfOk, OnOk, IfErr};
ghost use Rattle.lan.specs.Worlds.Made.{Makes};
ghost use Rattle.lan.specs.Worlds.Set.{slots};
ghost use Rattle.lan.specs.declared.at_link.history.answer.Refused.TheVariants.{Memory};
ghost use Rattle.lan.specs.declared.at_link.history.event.Side.TheVariants.{A, B};
ghost use Rattle.sim_link.specs.Port.{unused_end};
ghost use Rattle.lan.specs.declared.end.End.TheVariants.{Refusal};
ghost use Rattle.lan.specs.Hosts.{number, hardware_of, cidr_v4, cidr_v6, config_of, device_of, interface_of, with_sockets, host_of, first_world, first_of};
ghost use Rattle.lan.specs.Hosts.{no_interface, no_sockets, no_world, no_start};

use crate::at_link::{Config, Host, Interface, NewError, Side, SocketSet};
use crate::end::End;
use crate::own_sockets::own_sockets_of;
use crate::world::World;
use arrayvec::ArrayVec;
use net_base::{ChecksumCapabilities, DeviceCapabilities, Instant, Medium};
use sim_link::{Port, SocketSpec};
use sockets::Socket;
use std::alloc::{AllocError, Global};
use std::marker::Model;
use wire_address::{EthernetAddress, HardwareAddress, IpAddress, IpCidr};

/// What the header of a script has asked for so far; `start` makes the world. `replay` does so by itself: this is for a loop of one's own.
#[derive(Drop)]
pub struct Header {
    medium: Medium,
    mtu: usize,
    sockets: Vec<(Side, SocketSpec)>,
}

impl Model for Header {
    ghost use Rattle.lan.specs.Hosts.{HeaderValue};

    ghost Value = { HeaderValue };

    ghost view = { λ h. record { medium = h.medium; mtu = h.mtu; sockets = h.sockets.items } };
}

impl Header {
    /// The header after its first line.
    pub fn new(alloc: Global, medium: Medium, mtu: usize) -> Header
        ensures { result ≡ record { medium = medium; mtu = mtu; sockets = [] } }
    {
        Header {
            medium,
            mtu,
            sockets: Vec::new(alloc),
        }
    }

    /// One socket more.
    pub fn push(&mut self, side: Side, spec: SocketSpec) -> Result<(), AllocError>
        ensures { OnOk result (self.new ≡ record self.old { sockets = self.old.sockets ++ (side, spec) ∷ [] }) }
    {
        self.sockets.push((side, spec))?;
        Ok(())
    }

    /// The two hosts in a new world: the interface of A is made, that of B, the sockets of A, and those of B.
    pub fn start(&self, alloc: Global) -> Result<World, End>
        ensures world { IfOk result (λ world. world ≡ first_world (host_of self.now A) (host_of self.now B)) }
        ensures allowed { OnOk result (no_start self.now ≡ None) }
        ensures ends { IfErr result (λ end. (no_start self.now ≡ Some end) ⊎ (end ≡ Refusal Memory)) }
    {
        let (interface_a, interface_b) = self.interfaces(alloc)?;
        let (sockets_a, sockets_b) = self.socket_sets(alloc)?;
        let a = self.host(alloc, interface_a, sockets_a);
        let b = self.host(alloc, interface_b, sockets_b);
        begin(alloc, a, b)
    }

    // The interface of A, and that of B.
    fn interfaces(&self, alloc: Global) -> Result<(Interface, Interface), End>
        ensures a { IfOk result (λ made. made.0 ≡ interface_of self.now.medium self.now.mtu A) }
        ensures b { IfOk result (λ made. made.1 ≡ interface_of self.now.medium self.now.mtu B) }
        ensures a_allowed { OnOk result (no_interface self.now.medium self.now.mtu A ≡ None) }
        ensures b_allowed { OnOk result (no_interface self.now.medium self.now.mtu B ≡ None) }
        ensures ends { IfErr result (λ end. (no_start self.now ≡ Some end) ⊎ (end ≡ Refusal Memory)) }
    {
        let a = interface(alloc, self.medium, self.mtu, Side::A)?;
        let b = interface(alloc, self.medium, self.mtu, Side::B)?;
        Ok((a, b))
    }

    // The sockets of A, and those of B.
    fn socket_sets(&self, alloc: Global) -> Result<(SocketSet<Socket>, SocketSet<Socket>), End>
        ensures a { IfOk result (λ made. slots made.0 ≡ with_sockets A [] self.now.sockets) }
        ensures b { IfOk result (λ made. slots made.1 ≡ with_sockets B [] self.now.sockets) }
        ensures a_allowed { OnOk result (no_sockets A self.now.sockets ≡ None) }
        ensures b_allowed { OnOk result (no_sockets B self.now.sockets ≡ None) }
        ensures ends { IfErr result
            (λ end. (first_of (no_sockets A self.now.sockets ∷ no_sockets B self.now.sockets ∷ no_world (host_of self.now A) (host_of self.now B) ∷ []) ≡
            Some end) ⊎ (end ≡ Refusal Memory)) }
    {
        let a = own_sockets_of(alloc, Side::A, self.sockets.as_slice())?;
        let b = own_sockets_of(alloc, Side::B, self.sockets.as_slice())?;
        Ok((a, b))
    }

    // A host of this interface and these sockets, at a device that wasn't used.
    fn host(&self, alloc: Global, interface: Interface, sockets: SocketSet<Socket>) -> Host
        requires silent { interface.reports ≡ None }
        requires alone { interface.inner.host_requirements ≡ false }
        ensures { result ≡ record { host = interface; slots = slots sockets; link = unused_end (device_of self.now.medium self.now.mtu) } }
    {
        Host {
            interface,
            sockets,
            port: Port::new(alloc, device_of(self.medium, self.mtu)),
        }
    }
}

// A world of these hosts.
#[tactic(auto, using(crate::proofs::Beginnings::begins))]
fn begin(alloc: Global, a: Host, b: Host) -> Result<World, End>
    ensures world { IfOk result (λ world. world ≡ first_world a b) }
    ensures allowed { OnOk result (no_world a b ≡ None) }
    ensures ends { IfErr result (λ end. (no_world a b ≡ Some end) ⊎ (end ≡ Refusal Memory)) }
{
    Ok(World::new(alloc, a, b)?)
}

// What both devices say of themselves.
fn device_of(medium: Medium, mtu: usize) -> DeviceCapabilities
    ensures { result ≡ device_of medium mtu }
{
    DeviceCapabilities {
        medium,
        max_transmission_unit: mtu,
        checksum: ChecksumCapabilities::default(),
    }
}

// The number that stands in each place of a host's seed and addresses.
fn number(side: Side) -> u8
    ensures { result ≡ number side }
{
    match side {
        Side::A => 1,
        Side::B => 2,
    }
}

fn config_of(medium: Medium, side: Side) -> Config
    ensures { result ≡ config_of medium side }
{
    let n = number(side);
    let hardware_addr = match medium {
        Medium::Ethernet => HardwareAddress::Ethernet(EthernetAddress([2, 0, 0, 0, 0, n])),
        Medium::Ip => HardwareAddress::Ip,
    };
    Config {
        random_seed: n as u64,
        ..Config::new(hardware_addr)
    }
}

// An interface as a script starts it, at instant 0.
fn interface(alloc: Global, medium: Medium, mtu: usize, side: Side) -> Result<Interface, End>
    ensures made { IfOk result (λ interface. interface ≡ interface_of medium mtu side) }
    ensures allowed { OnOk result (no_interface medium mtu side ≡ None) }
    ensures ends { IfErr result (λ end. (no_interface medium mtu side ≡ Some end) ⊎ (end ≡ Refusal Memory)) }
{
    let mut interface = bare_interface(alloc, medium, mtu, side)?;
    let _ = interface.update_ip_addrs(|addresses| put_blocks(addresses, side));
    Ok(interface)
}

// The same without its addresses.
fn bare_interface(
    alloc: Global,
    medium: Medium,
    mtu: usize,
    side: Side,
) -> Result<Interface, NewError>
    ensures { Makes (config_of medium side) (device_of medium mtu) (pos 0) result }
{
    let port = Port::new(alloc, device_of(medium, mtu));
    Interface::new(alloc, &config_of(medium, side), &port, Instant::ZERO)
}

// The addresses of a host with their networks, in place of those that were there.
fn put_blocks(addresses: &mut ArrayVec<IpCidr, 4>, side: Side)
    ensures { addresses.new.items ≡ cidr_v4 side ∷ cidr_v6 side ∷ [] }
{
    addresses.clear();
    let _ = addresses.try_push(cidr_v4(side));
    let _ = addresses.try_push(cidr_v6(side));
}

fn cidr_v4(side: Side) -> IpCidr
    ensures { result ≡ cidr_v4 side }
{
    IpCidr::new(IpAddress::v4(192, 168, 1, number(side)), 24)
}

fn cidr_v6(side: Side) -> IpCidr
    ensures { result ≡ cidr_v6 side }
{
    IpCidr::new(
        IpAddress::v6(0xfd00, 0, 0, 0, 0, 0, 0, number(side) as u16),
        64,
    )
}

//! Values as C has them.
ghost use Rattle.std.specs.Prelude.{◌≡◌};
ghost use Rattle.zemplovir_c.specs.Hosts.{IsCidrBy, IsCidrOf};
ghost use Rattle.zemplovir_c.specs.Values.{v4_in, optional_in, required_in, endpoint_in, address_out, address_or_none, endpoint_out, listens_at};

use c_calls::Code;
use ip_wire::{IpAddress, IpCidr, IpEndpoint, IpListenEndpoint, Ipv4Address, Ipv6Address};

/// A pointer of the user's, as a number: nothing is read behind it.
pub type User = usize;

/// An address: its family, 4 or 6, 0 for none; and its bytes, of which the first 4 count where the family is 4.
#[repr(C)]
#[derive(Clone, Copy)]
pub struct Address {
    pub family: u8,
    pub bytes: [u8; 16],
}

/// The address of a hardware address.
#[repr(C)]
#[derive(Clone, Copy)]
pub struct Hardware {
    pub bytes: [u8; 6],
}

/// An address with a port.
#[repr(C)]
#[derive(Clone, Copy)]
pub struct Endpoint {
    pub address: Address,
    pub port: u16,
}

/// What a host is made with.
#[repr(C)]
#[derive(Clone, Copy)]
pub struct Settings {
    /// 1 for Ethernet, 2 for IP packets with nothing before them.
    pub medium: u8,
    pub hardware: [u8; 6],
    pub mtu: usize,
    pub seed: u64,
    pub frames: usize,
    /// 0 for no key.
    pub keyed: u8,
    pub isn_key: [u8; 16],
    /// 0 for a host that does what RFC 1122 and the standards after it ask on a network of many.
    pub without_host_requirements: u8,
    /// 0 for a host that tells routers and switches which multicast groups it listens to.
    pub without_multicast_reports: u8,
}

/// What a host has counted.
#[repr(C)]
#[derive(Clone, Copy)]
pub struct Counters {
    pub frames_in: u64,
    pub frames_dropped: u64,
    pub frames_out: u64,
    pub polls: u64,
}

/// What a client of DHCP tells.
#[repr(C)]
#[derive(Clone, Copy)]
pub struct Lease {
    /// 0 where nothing happened, 1 where there is a lease of what follows, 2 where there is none.
    pub event: u8,
    /// How many bits the address's network has.
    pub prefix: u8,
    pub address: Address,
    /// Family 0 for none.
    pub router: Address,
    pub server: Address,
    /// Servers of names, family 0 for none.
    pub names: [Address; 3],
}

/// The addresses of a name, without gaps, and family 0 for none.
#[repr(C)]
#[derive(Clone, Copy)]
pub struct Addresses {
    pub at: [Address; 4],
}

/// No address.
pub(crate) const NO_ADDRESS: Address = Address {
    family: 0,
    bytes: [0; 16],
};

fn v4_in(bytes: &[u8; 16]) -> Ipv4Address
    ensures { result ≡ v4_in bytes.now }
{
    Ipv4Address([bytes[0], bytes[1], bytes[2], bytes[3]])
}

/// The address, or none where the family is 0.
pub(crate) fn optional(address: &Address) -> Result<Option<IpAddress>, Code>
    ensures { result ≡ optional_in address.now }
{
    match address.family {
        0 => Ok(None),
        4 => Ok(Some(IpAddress::Ipv4(v4_in(&address.bytes)))),
        6 => {
            let bytes = address.bytes;
            Ok(Some(IpAddress::Ipv6(Ipv6Address(bytes))))
        }
        _ => Err(Code::BadArgument),
    }
}

/// The address.
pub(crate) fn required(address: &Address) -> Result<IpAddress, Code>
    ensures { result ≡ required_in address.now }
{
    match optional(address) {
        Ok(Some(address)) => Ok(address),
        Ok(None) => Err(Code::BadArgument),
        Err(code) => Err(code),
    }
}

/// The address with the port.
pub(crate) fn required_endpoint(endpoint: &Endpoint) -> Result<IpEndpoint, Code>
    ensures { result ≡ endpoint_in endpoint.now }
{
    match required(&endpoint.address) {
        Ok(addr) => Ok(IpEndpoint {
            addr,
            port: endpoint.port,
        }),
        Err(code) => Err(code),
    }
}

/// A port of one own address, or of any.
pub(crate) fn listens_at(address: Option<IpAddress>, port: u16) -> IpListenEndpoint
    ensures { result ≡ listens_at address port }
{
    IpListenEndpoint {
        addr: address,
        port,
    }
}

fn cidr_of(address: IpAddress, prefix: u8) -> Result<IpCidr, Code>
    ensures { IsCidrOf address prefix result }
{
    let width = match address {
        IpAddress::Ipv4(_) => 32,
        IpAddress::Ipv6(_) => 128,
    };
    if prefix <= width {
        Ok(IpCidr::new(address, prefix))
    } else {
        Err(Code::BadArgument)
    }
}

/// The block of an address with a prefix of so many bits.
pub(crate) fn cidr(address: &Address, prefix: u8) -> Result<IpCidr, Code>
    ensures { IsCidrBy (required_in address.now) prefix result }
{
    match required(address) {
        Ok(address) => cidr_of(address, prefix),
        Err(code) => Err(code),
    }
}

/// The address as C has it.
pub(crate) fn said(address: IpAddress) -> Address
    ensures { result ≡ address_out address }
{
    match address {
        IpAddress::Ipv4(address) => Address {
            family: 4,
            bytes: [
                address.0[0],
                address.0[1],
                address.0[2],
                address.0[3],
                0,
                0,
                0,
                0,
                0,
                0,
                0,
                0,
                0,
                0,
                0,
                0,
            ],
        },
        IpAddress::Ipv6(address) => {
            let bytes = address.0;
            Address { family: 6, bytes }
        }
    }
}

/// The address as C has it, family 0 for none.
pub(crate) fn said_or_none(address: Option<IpAddress>) -> Address
    ensures { result ≡ address_or_none address }
{
    match address {
        Some(address) => said(address),
        None => NO_ADDRESS,
    }
}

/// The endpoint as C has it.
pub(crate) fn said_endpoint(endpoint: IpEndpoint) -> Endpoint
    ensures { result ≡ endpoint_out endpoint }
{
    Endpoint {
        address: said(endpoint.addr),
        port: endpoint.port,
    }
}

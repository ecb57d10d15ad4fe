//! The header of a packet as a value.
ghost use Rattle.std.specs.Prelude.{◌≡◌, ◌+◌, ◌≤◌, ◌<◌, ◌^◌, IfOk, ◌++◌, length, drop};
ghost use Rattle.wire_address.specs.Address.{version_of};
ghost use Rattle.base_device.specs.Capabilities.{verifies, computes};
ghost use Rattle.wire_ip.specs.Ip.{version_in, source_of, destination_of, carried_in, payload_len_of, hop_limit_in, IsUnnumbered, header_len_in, with_payload_len};
ghost use Rattle.wire_ip.specs.Ip.{IsIp, Fits, written};
ghost use Rattle.wire_ip.specs.declared.ip.repr.IpRepr.{IpRepr};
ghost use Rattle.wire_ip.specs.declared.ip.repr.IpRepr.TheVariants as Either;

use crate::{Ipv4Packet, Ipv4PacketMut, Ipv4Repr, Ipv6Packet, Ipv6PacketMut, Ipv6Repr};
use base_device::ChecksumCapabilities;
use wire_address::{Error, IpAddress, IpProtocol, IpVersion};

/// The header of an IP packet of either family.
#[derive(Clone, Copy, Debug, PartialEq, Eq)]
pub enum IpRepr {
    Ipv4(Ipv4Repr),
    Ipv6(Ipv6Repr),
}

impl IpRepr {
    /// The header of the packet in the bytes, of the family that their first four bits say. IPv4's
    /// checksum is tested where the capabilities say that the stack does so.
    pub fn parse(packet: &[u8], checksum_caps: &ChecksumCapabilities) -> Result<IpRepr, Error>
        ensures found { IfOk result
            (λ v. IsIp (verifies checksum_caps.now.ipv4) packet.now v) }
        ensures only { (v : IpRepr)
            → IsIp (verifies checksum_caps.now.ipv4) packet.now v
            → result ≡ Ok v }
    {
        match IpVersion::of_packet(packet)? {
            IpVersion::Ipv4 => {
                let header = Ipv4Repr::parse(&Ipv4Packet::new_unchecked(packet), checksum_caps)?;
                Ok(IpRepr::Ipv4(header))
            }
            IpVersion::Ipv6 => {
                let header = Ipv6Repr::parse(&Ipv6Packet::new_unchecked(packet))?;
                Ok(IpRepr::Ipv6(header))
            }
        }
    }

    /// The header of the family of both addresses; an IPv4 one has identification 0 and may be
    /// cut.
    pub const fn new(
        src_addr: IpAddress,
        dst_addr: IpAddress,
        next_header: IpProtocol,
        payload_len: usize,
        hop_limit: u8,
    ) -> IpRepr
        requires { version_of src_addr ≡ version_of dst_addr }
        ensures source { source_of result ≡ src_addr }
        ensures destination { destination_of result ≡ dst_addr }
        ensures protocol { carried_in result ≡ next_header }
        ensures payload { payload_len_of result ≡ payload_len }
        ensures hop_limit { hop_limit_in result ≡ hop_limit }
        ensures unnumbered { IsUnnumbered result }
    {
        match (src_addr, dst_addr) {
            (IpAddress::Ipv4(src_addr), IpAddress::Ipv4(dst_addr)) => IpRepr::Ipv4(Ipv4Repr {
                src_addr,
                dst_addr,
                next_header,
                payload_len,
                hop_limit,
                ident: 0,
                dont_frag: false,
            }),
            (IpAddress::Ipv6(src_addr), IpAddress::Ipv6(dst_addr)) => IpRepr::Ipv6(Ipv6Repr {
                src_addr,
                dst_addr,
                next_header,
                payload_len,
                hop_limit,
            }),
            _ => unreachable!(),
        }
    }

    /// The family.
    pub const fn version(&self) -> IpVersion
        ensures { result ≡ version_in self.now }
    {
        match self {
            IpRepr::Ipv4(_) => IpVersion::Ipv4,
            IpRepr::Ipv6(_) => IpVersion::Ipv6,
        }
    }

    pub const fn src_addr(&self) -> IpAddress
        ensures { result ≡ source_of self.now }
    {
        match self {
            IpRepr::Ipv4(header) => IpAddress::Ipv4(header.src_addr),
            IpRepr::Ipv6(header) => IpAddress::Ipv6(header.src_addr),
        }
    }

    pub const fn dst_addr(&self) -> IpAddress
        ensures { result ≡ destination_of self.now }
    {
        match self {
            IpRepr::Ipv4(header) => IpAddress::Ipv4(header.dst_addr),
            IpRepr::Ipv6(header) => IpAddress::Ipv6(header.dst_addr),
        }
    }

    /// What the packet carries.
    pub const fn next_header(&self) -> IpProtocol
        ensures { result ≡ carried_in self.now }
    {
        match self {
            IpRepr::Ipv4(header) => header.next_header,
            IpRepr::Ipv6(header) => header.next_header,
        }
    }

    pub const fn payload_len(&self) -> usize
        ensures { result ≡ payload_len_of self.now }
    {
        match self {
            IpRepr::Ipv4(header) => header.payload_len,
            IpRepr::Ipv6(header) => header.payload_len,
        }
    }

    pub fn set_payload_len(&mut self, length: usize)
        ensures { self.new ≡ with_payload_len self.old length }
    {
        match self {
            IpRepr::Ipv4(header) => header.payload_len = length,
            IpRepr::Ipv6(header) => header.payload_len = length,
        }
    }

    pub const fn hop_limit(&self) -> u8
        ensures { result ≡ hop_limit_in self.now }
    {
        match self {
            IpRepr::Ipv4(header) => header.hop_limit,
            IpRepr::Ipv6(header) => header.hop_limit,
        }
    }

    /// The length of the header that is written.
    pub const fn header_len(&self) -> usize
        ensures { result ≡ header_len_in self.now }
    {
        match self {
            IpRepr::Ipv4(header) => header.buffer_len(),
            IpRepr::Ipv6(header) => header.buffer_len(),
        }
    }

    /// The length of header and payload.
    pub const fn buffer_len(&self) -> usize
        requires { header_len_in self.now + payload_len_of self.now < 2 ^ 64 }
        ensures { result ≡ header_len_in self.now + payload_len_of self.now }
    {
        self.header_len() + self.payload_len()
    }

    /// Writes the header at the front of the buffer, and leaves what lies after it. IPv4's
    /// checksum is written where the capabilities say that the stack computes it.
    pub fn emit(&self, buffer: &mut [u8], checksum_caps: &ChecksumCapabilities)
        requires room { header_len_in self.now ≤ length buffer.old }
        requires fits { Fits self.now }
        ensures bytes { buffer.new
            ≡ written (computes checksum_caps.now.ipv4) self.now ++ drop (header_len_in self.now) buffer.old }
        ensures exact { length buffer.old ≡ header_len_in self.now
            → buffer.new ≡ written (computes checksum_caps.now.ipv4) self.now }
    {
        match self {
            IpRepr::Ipv4(header) => {
                header.emit(&mut Ipv4PacketMut::new_unchecked(buffer), checksum_caps);
            }
            IpRepr::Ipv6(header) => header.emit(&mut Ipv6PacketMut::new_unchecked(buffer)),
        }
    }
}

impl From<Ipv4Repr> for IpRepr {
    ghost from_gives = { λ header all. all ≡ Either.Ipv4 header };

    fn from(header: Ipv4Repr) -> IpRepr {
        IpRepr::Ipv4(header)
    }
}

impl From<Ipv6Repr> for IpRepr {
    ghost from_gives = { λ header all. all ≡ Either.Ipv6 header };

    fn from(header: Ipv6Repr) -> IpRepr {
        IpRepr::Ipv6(header)
    }
}

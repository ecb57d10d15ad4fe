//! What the client sends.
ghost use Rattle.std.specs.Prelude.{◌≡◌, ◌≤◌};
ghost use Rattle.wire_dhcp.specs.Written.{Fits, buffer_len};
ghost use Rattle.socket_datagram.specs.DhcpClient.Requests.{IsRequest, type_for, client_for, broadcast_for, requested_for, server_for, size_for, header_between, header_for};
ghost use Rattle.wire_dhcp.specs.Normal.{IsAddress};
ghost use Rattle.ip_wire.specs.Address.{IsIpv4Address, IsEthernetAddress};

use crate::dhcpv4::extras::Extras;
use crate::dhcpv4::lease::Lease;
use crate::dhcpv4::state::Requesting;
use ip_wire::{EthernetAddress, IpProtocol, IpRepr, Ipv4Address, Ipv4Repr, UDP_HEADER_LEN};
use wire_dhcp::{DhcpMessageType, DhcpRepr, MAX_DNS_SERVER_COUNT};

/// What may stand before a message in an IP packet, in bytes: the longest IPv4 header, and that of UDP.
const HEADERS_LEN: usize = 68;
/// The shortest length that a client may name (RFC 2132, section 9.10).
const LEAST_SIZE: usize = 576;
/// How long the client's messages are at most: what each server takes (RFC 2131, section 2).
pub(crate) const MESSAGE_LEN: usize = 548;
/// The hop limit of the packets.
const HOP_LIMIT: u8 = 64;

/// A message to send.
#[derive(Clone, Copy, Debug)]
pub enum Kind {
    /// To all: who has an address?
    Discover,
    /// To all: the client takes what this server offered.
    Request(Requesting),
    /// To the server of the lease: more of it.
    Renew(Lease),
    /// To all: more of the lease.
    Rebind(Lease),
}

impl Kind {
    /// The message of a hardware address, with what it carries alongside: the answers name its number.
    pub(crate) fn message<'a>(
        &self,
        link_addr: EthernetAddress,
        transaction_id: u32,
        mtu: usize,
        extras: &'a Extras,
    ) -> DhcpRepr<'a>
        ensures request { IsRequest self.now link_addr transaction_id mtu extras.now.parameters extras.now.options result }
        ensures fits { Fits result }
        ensures len { buffer_len result ≤ 548 }
    {
        let requested_ip = self.requested_ip();
        let server_identifier = self.server_identifier();
        has_six_bytes(link_addr);
        let parameter_request_list = extras.parameters();
        let additional_options = extras.options();
        DhcpRepr {
            message_type: self.message_type(),
            transaction_id,
            secs: 0,
            client_hardware_address: link_addr,
            client_ip: self.client_ip(),
            your_ip: Ipv4Address::UNSPECIFIED,
            server_ip: Ipv4Address::UNSPECIFIED,
            relay_agent_ip: Ipv4Address::UNSPECIFIED,
            broadcast: self.asks_broadcast(),
            router: None,
            subnet_mask: None,
            requested_ip,
            client_identifier: Some(link_addr),
            server_identifier,
            parameter_request_list,
            host_name: None,
            dns_servers: [None; MAX_DNS_SERVER_COUNT],
            max_size: Some(size_for(mtu)),
            lease_duration: None,
            renew_duration: None,
            rebind_duration: None,
            additional_options,
        }
    }

    fn message_type(&self) -> DhcpMessageType
        ensures { result ≡ type_for self.now }
    {
        match self {
            Kind::Discover => DhcpMessageType::Discover,
            Kind::Request(_) => DhcpMessageType::Request,
            Kind::Renew(_) => DhcpMessageType::Request,
            Kind::Rebind(_) => DhcpMessageType::Request,
        }
    }

    /// The address of a client that has one.
    fn client_ip(&self) -> Ipv4Address
        ensures { result ≡ client_for self.now }
    {
        match self {
            Kind::Renew(lease) => lease.config.address.address(),
            Kind::Rebind(lease) => lease.config.address.address(),
            Kind::Discover => Ipv4Address::UNSPECIFIED,
            Kind::Request(_) => Ipv4Address::UNSPECIFIED,
        }
    }

    /// Whether the answer is to be a broadcast: the client has no address.
    fn asks_broadcast(&self) -> bool
        ensures { result ≡ broadcast_for self.now }
    {
        match self {
            Kind::Discover => true,
            Kind::Request(_) => true,
            Kind::Renew(_) => false,
            Kind::Rebind(_) => false,
        }
    }

    /// The address that a server offered.
    fn requested_ip(&self) -> Option<Ipv4Address>
        ensures value { result ≡ requested_for self.now }
        ensures width { IsAddress result }
    {
        match self {
            Kind::Request(state) => {
                has_four_bytes(state.requested_ip);
                Some(state.requested_ip)
            }
            Kind::Discover => None,
            Kind::Renew(_) => None,
            Kind::Rebind(_) => None,
        }
    }

    /// The server that offered it.
    fn server_identifier(&self) -> Option<Ipv4Address>
        ensures value { result ≡ server_for self.now }
        ensures width { IsAddress result }
    {
        match self {
            Kind::Request(state) => {
                has_four_bytes(state.server.identifier);
                Some(state.server.identifier)
            }
            Kind::Discover => None,
            Kind::Renew(_) => None,
            Kind::Rebind(_) => None,
        }
    }

    /// The header of its packet, for a message of so many bytes.
    pub(crate) fn header(&self, len: usize) -> IpRepr
        requires { len ≤ 548 }
        ensures { result ≡ header_for self.now len }
    {
        match self {
            Kind::Discover => {
                header_between(Ipv4Address::UNSPECIFIED, Ipv4Address::BROADCAST, len)
            }
            Kind::Request(_) => {
                header_between(Ipv4Address::UNSPECIFIED, Ipv4Address::BROADCAST, len)
            }
            Kind::Renew(lease) => header_between(
                lease.config.address.address(),
                lease.config.server.identifier,
                len,
            ),
            Kind::Rebind(lease) => {
                header_between(lease.config.address.address(), Ipv4Address::BROADCAST, len)
            }
        }
    }
}

/// An IPv4 address has four bytes.
fn has_four_bytes(address: Ipv4Address)
    ensures { IsIpv4Address address }
{}

/// An Ethernet address has six bytes.
fn has_six_bytes(link_addr: EthernetAddress)
    ensures { IsEthernetAddress link_addr }
{}

/// The longest message that fits a packet.
fn size_for(mtu: usize) -> u16
    ensures { result ≡ size_for mtu }
{
    let size = mtu.saturating_sub(HEADERS_LEN).max(LEAST_SIZE);
    size.min(65_535) as u16
}

/// The header of the packet of a message of so many bytes between these addresses.
fn header_between(src_addr: Ipv4Address, dst_addr: Ipv4Address, len: usize) -> IpRepr
    requires { len ≤ 548 }
    ensures { result ≡ header_between src_addr dst_addr len }
{
    IpRepr::Ipv4(Ipv4Repr {
        src_addr,
        dst_addr,
        next_header: IpProtocol::Udp,
        payload_len: UDP_HEADER_LEN + len,
        hop_limit: HOP_LIMIT,
        ident: 0,
        dont_frag: false,
    })
}

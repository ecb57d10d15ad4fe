//! A message as a value.
ghost use Rattle.std.specs.Prelude.{◌≡◌, ◌↔◌, ◌≤◌, ◌<◌, ℕ, Bool, IsTrue, IsOk, IfOk, Option, Some, None, List, [], length, slice_index};
ghost use Rattle.wire_dhcp.specs.Options.{seen};
ghost use Rattle.wire_dhcp.specs.Packet.{IsWhole, bytes_of, option_of};
ghost use Rattle.wire_dhcp.specs.Dhcp.{AreLengths, are_network_lengths, are_server_lengths, are_time_lengths, IsEthernet, HasOpcode, IsMessage, IsDhcp};
ghost use Rattle.wire_dhcp.specs.Dhcp.{type_in};
ghost use Rattle.wire_dhcp.specs.MessageType.{op_number, opcode_of};
ghost use Rattle.wire_dhcp.specs.declared.message_type.DhcpMessageType.{DhcpMessageType as MessageType};

use crate::field;
use crate::message_type::DhcpMessageType;
use crate::packet::DhcpPacket;
use crate::values::{
    address_in, hardware_addr_in, has_addresses, has_length, number16_in, number32_in, servers_in,
};
use wire_address::{Error, EthernetAddress, Ipv4Address};

/// How many servers of names a message tells of; more are left out.
pub const MAX_DNS_SERVER_COUNT: usize = 3;

/// What a message about an Ethernet hardware address says.
#[derive(Clone, Copy, Debug, PartialEq, Eq)]
pub struct DhcpRepr<'a> {
    pub message_type: DhcpMessageType,
    /// The number by which a client knows the answers to its own messages.
    pub transaction_id: u32,
    /// The seconds since the client began.
    pub secs: u16,
    pub client_hardware_address: EthernetAddress,
    /// The client's address, where it has one that it answers to.
    pub client_ip: Ipv4Address,
    /// The address that the server gives.
    pub your_ip: Ipv4Address,
    /// The server to boot from next.
    pub server_ip: Ipv4Address,
    /// The agent that passes the message on.
    pub relay_agent_ip: Ipv4Address,
    /// Whether answers are to be broadcast.
    pub broadcast: bool,
    /// The first router of the list.
    pub router: Option<Ipv4Address>,
    pub subnet_mask: Option<Ipv4Address>,
    /// The address that the client asks for.
    pub requested_ip: Option<Ipv4Address>,
    /// The client's identifier, where it is an Ethernet address.
    pub client_identifier: Option<EthernetAddress>,
    /// The server that speaks, or that is spoken to.
    pub server_identifier: Option<Ipv4Address>,
    /// The codes of the options that the client asks for.
    pub parameter_request_list: Option<&'a [u8]>,
    /// The name of the client.
    pub host_name: Option<&'a [u8]>,
    /// The first servers of names.
    pub dns_servers: [Option<Ipv4Address>; MAX_DNS_SERVER_COUNT],
    /// The longest message that the client takes, with its headers.
    pub max_size: Option<u16>,
    /// The lease in seconds, of which all ones has no end.
    pub lease_duration: Option<u32>,
    /// After how many seconds the client asks its server for more.
    pub renew_duration: Option<u32>,
    /// After how many seconds the client asks any server for more.
    pub rebind_duration: Option<u32>,
    /// The bytes of further options, each its code, its length and what is inside, without pads and end. They go after
    /// the others. What is read has none here.
    pub additional_options: &'a [u8],
}

impl<'a> DhcpRepr<'a> {
    /// What the message in the bytes says. Its names stay where they are.
    pub fn parse(packet: &DhcpPacket<'a>) -> Result<DhcpRepr<'a>, Error>
        ensures found { IfOk result (λ v. IsDhcp (bytes_of packet.now) v) }
        ensures plain { IfOk result (λ v. v.additional_options.now ≡ []) }
        ensures only { IsMessage (bytes_of packet.now) → IsOk result }
    {
        packet.check_len()?;
        if !is_ethernet(packet) || !are_lengths(packet) {
            return Err(Error);
        }
        let message_type = message_type(packet)?;
        Ok(read(packet, message_type))
    }
}

/// Whether the message is about an Ethernet hardware address and has the magic number.
fn is_ethernet(packet: &DhcpPacket) -> bool
    requires { 240 ≤ length (bytes_of packet.now) }
    ensures { IsTrue result ↔ IsEthernet (bytes_of packet.now) }
{
    packet.hardware_type() == field::HTYPE_ETHERNET
        && packet.hardware_len() == 6
        && packet.magic_number() == field::DHCP_MAGIC_NUMBER
}

/// Whether each option that is read has its length.
fn are_lengths(packet: &DhcpPacket) -> bool
    requires { IsWhole (bytes_of packet.now) }
    ensures { IsTrue result ↔ AreLengths (bytes_of packet.now) }
{
    are_network_lengths(packet) && are_server_lengths(packet) && are_time_lengths(packet)
}

/// Whether those of the network have it.
fn are_network_lengths(packet: &DhcpPacket) -> bool
    requires { IsWhole (bytes_of packet.now) }
    ensures { result ≡ are_network_lengths (bytes_of packet.now) }
{
    has_length(4, packet.option(field::OPT_SUBNET_MASK))
        && has_addresses(packet.option(field::OPT_ROUTER))
        && has_addresses(packet.option(field::OPT_DOMAIN_NAME_SERVER))
}

/// Whether those that client and server agree on have it.
fn are_server_lengths(packet: &DhcpPacket) -> bool
    requires { IsWhole (bytes_of packet.now) }
    ensures { result ≡ are_server_lengths (bytes_of packet.now) }
{
    has_length(4, packet.option(field::OPT_REQUESTED_IP))
        && has_length(4, packet.option(field::OPT_SERVER_IDENTIFIER))
        && has_length(2, packet.option(field::OPT_MAX_DHCP_MESSAGE_SIZE))
}

/// Whether those of times have it.
fn are_time_lengths(packet: &DhcpPacket) -> bool
    requires { IsWhole (bytes_of packet.now) }
    ensures { result ≡ are_time_lengths (bytes_of packet.now) }
{
    has_length(4, packet.option(field::OPT_IP_LEASE_TIME))
        && has_length(4, packet.option(field::OPT_RENEWAL_TIME_VALUE))
        && has_length(4, packet.option(field::OPT_REBINDING_TIME_VALUE))
}

/// The type of the message, whose sender is the one that the first field names.
fn message_type(packet: &DhcpPacket) -> Result<DhcpMessageType, Error>
    requires { IsWhole (bytes_of packet.now) }
    ensures found { IfOk result (λ t. Some t ≡ type_in (option_of 53 (bytes_of packet.now))) }
    ensures only { IsOk result
        ↔ HasOpcode (slice_index (bytes_of packet.now) 0) (type_in (option_of 53 (bytes_of packet.now))) }
{
    let Some(message_type) = type_in(packet.option(field::OPT_DHCP_MESSAGE_TYPE)) else {
        return Err(Error);
    };
    if packet.opcode() != message_type.opcode().number() {
        return Err(Error);
    }
    Ok(message_type)
}

/// The type that is inside an option.
fn type_in(option: Option<&[u8]>) -> Option<DhcpMessageType>
    ensures { result ≡ type_in (seen option.entry) }
{
    match option {
        Some([number]) => DhcpMessageType::from_number(*number),
        _ => None,
    }
}

/// The message of this type, whose options have their lengths.
fn read<'a>(packet: &DhcpPacket<'a>, message_type: DhcpMessageType) -> DhcpRepr<'a>
    requires is_message { IsMessage (bytes_of packet.now) }
    requires type_is { Some message_type ≡ type_in (option_of 53 (bytes_of packet.now)) }
    ensures read { IsDhcp (bytes_of packet.now) result }
    ensures plain { result.additional_options.now ≡ [] }
{
    DhcpRepr {
        message_type,
        transaction_id: packet.transaction_id(),
        secs: packet.secs(),
        client_hardware_address: packet.client_hardware_address(),
        client_ip: packet.client_ip(),
        your_ip: packet.your_ip(),
        server_ip: packet.server_ip(),
        relay_agent_ip: packet.relay_agent_ip(),
        broadcast: packet.is_broadcast(),
        router: address_in(packet.option(field::OPT_ROUTER)),
        subnet_mask: address_in(packet.option(field::OPT_SUBNET_MASK)),
        requested_ip: address_in(packet.option(field::OPT_REQUESTED_IP)),
        client_identifier: hardware_addr_in(packet.option(field::OPT_CLIENT_ID)),
        server_identifier: address_in(packet.option(field::OPT_SERVER_IDENTIFIER)),
        parameter_request_list: packet.option(field::OPT_PARAMETER_REQUEST_LIST),
        host_name: packet.option(field::OPT_HOST_NAME),
        dns_servers: servers_in(packet.option(field::OPT_DOMAIN_NAME_SERVER)),
        max_size: number16_in(packet.option(field::OPT_MAX_DHCP_MESSAGE_SIZE)),
        lease_duration: number32_in(packet.option(field::OPT_IP_LEASE_TIME)),
        renew_duration: number32_in(packet.option(field::OPT_RENEWAL_TIME_VALUE)),
        rebind_duration: number32_in(packet.option(field::OPT_REBINDING_TIME_VALUE)),
        additional_options: &[],
    }
}

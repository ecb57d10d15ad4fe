//! The server: it has one address to give, and one name to tell of.
ghost use Rattle.wire_dhcp.specs.Written.{Fits};

use crate::buffers::datagrams;
use crate::host::{Host, add, configure};
use crate::net::End;
use anyhow::Result;
use interface::{SocketHandle, SocketsByKind};
use ip_wire::{IpAddress, IpEndpoint, Ipv4Address};
use net_base::Instant;
use sockets::dhcp::{DhcpMessageType, DhcpPacket, DhcpRepr};
use sockets::udp;
use sockets::udp::UdpMetadata;
use std::alloc::Global;

/// Its own address.
const ADDRESS: Ipv4Address = Ipv4Address([192, 168, 1, 1]);
/// The address that it gives.
const GIVEN: Ipv4Address = Ipv4Address([192, 168, 1, 50]);
/// What stands after the question of an answer: one record of the name that was asked for, with the address 192.168.1.80 for a
/// minute.
const RECORD: [u8; 16] = [0xc0, 12, 0, 1, 0, 1, 0, 0, 0, 60, 0, 4, 192, 168, 1, 80];

/// A host with a socket for each kind of client.
#[derive(Drop)]
pub struct Server {
    host: Box<Host>,
    dhcp: SocketHandle,
    dns: SocketHandle,
}

impl Server {
    /// A server with one address.
    pub fn new(alloc: Global) -> Result<Server> {
        let mut host = Host::new(alloc, 1, 0)?;
        fill(alloc, &mut host).map(|(dhcp, dns)| Server { host, dhcp, dns })
    }
}

impl End for Server {
    fn host(&mut self) -> &mut Host {
        &mut self.host
    }

    /// Answers what came.
    fn act(&mut self, _now: Instant) {
        if let Some(socket) = self.host.sockets.get_mut_as(self.dhcp) {
            give(socket);
        }
        if let Some(socket) = self.host.sockets.get_mut_as(self.dns) {
            tell(socket);
        }
    }
}

/// Gives a host its address, and a socket for the clients of DHCP and one for those of DNS.
fn fill(alloc: Global, host: &mut Host) -> Result<(SocketHandle, SocketHandle)> {
    configure(&mut host.interface, 1)?;
    let dhcp = add(&mut host.sockets, datagrams(alloc, 67)?)?;
    let dns = add(&mut host.sockets, datagrams(alloc, 53)?)?;
    Ok((dhcp, dns))
}

/// Offers the address to a client that asks for offers, and acknowledges it to one that takes it.
fn give(socket: &mut udp::Socket) {
    let mut request = [0; 600];
    let Ok((len, _)) = socket.recv_slice(&mut request) else {
        return;
    };
    let (request, _) = request.split_at(len.min(600));
    let Ok(message) = DhcpRepr::parse(&DhcpPacket::new_unchecked(request)) else {
        return;
    };
    let mut reply = [0; 300];
    let answer = answer_to(&message);
    if answer.buffer_len() == 300 {
        answer.emit(&mut reply);
        let _ = socket.send_slice(&reply, to(Ipv4Address::BROADCAST, 68));
    }
}

/// What is answered to a client.
fn answer_to<'a>(message: &DhcpRepr<'_>) -> DhcpRepr<'a>
    ensures { Fits result }
{
    DhcpRepr {
        message_type: match message.message_type {
            DhcpMessageType::Discover => DhcpMessageType::Offer,
            _ => DhcpMessageType::Ack,
        },
        transaction_id: message.transaction_id,
        secs: 0,
        client_hardware_address: message.client_hardware_address,
        client_ip: Ipv4Address::UNSPECIFIED,
        your_ip: GIVEN,
        server_ip: ADDRESS,
        relay_agent_ip: Ipv4Address::UNSPECIFIED,
        broadcast: true,
        router: Some(ADDRESS),
        subnet_mask: Some(Ipv4Address([255, 255, 255, 0])),
        requested_ip: None,
        client_identifier: None,
        server_identifier: Some(ADDRESS),
        parameter_request_list: None,
        host_name: None,
        dns_servers: [Some(ADDRESS), None, None],
        max_size: None,
        lease_duration: Some(600),
        renew_duration: None,
        rebind_duration: None,
        additional_options: &[],
    }
}

/// Answers a query with the record.
fn tell(socket: &mut udp::Socket) {
    let mut message = [0; 316];
    let (query, _) = message.split_at_mut(300);
    let Ok((len, from)) = socket.recv_slice(query) else {
        return;
    };
    if len < 12 || len > 300 {
        return;
    }
    message[2] = 0x81;
    message[3] = 0x80;
    message[7] = 1;
    message[len..len + 16].copy_from_slice(&RECORD);
    let (answer, _) = message.split_at(len + 16);
    let _ = socket.send_slice(answer, from);
}

/// Where an answer goes.
fn to(address: Ipv4Address, port: u16) -> UdpMetadata {
    UdpMetadata::from(IpEndpoint {
        addr: IpAddress::Ipv4(address),
        port,
    })
}

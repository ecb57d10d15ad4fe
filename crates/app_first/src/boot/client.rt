//! A host that configures itself.
use crate::host::{Host, add, set_address, set_router};
use crate::net::End;
use anyhow::{Context, Result};
use interface::{SocketHandle, SocketSet, SocketsByKind};
use ip_wire::{EthernetAddress, IpAddress, IpCidr, Ipv4Address};
use net_base::Instant;
use sockets::Socket;
use sockets::dhcp::{self, Config, Event};
use sockets::dns::{self, DnsQueryType};
use std::alloc::Global;

/// The Ethernet address of the host.
const HARDWARE_ADDR: EthernetAddress = EthernetAddress([2, 0, 0, 0, 0, 2]);

/// A host with a client of DHCP and one of DNS among its sockets.
#[derive(Drop)]
pub struct Client {
    host: Box<Host>,
    dhcp: SocketHandle,
    dns: SocketHandle,
}

impl End for Client {
    fn host(&mut self) -> &mut Host {
        &mut self.host
    }

    /// Configures the host by what the client of DHCP tells.
    fn act(&mut self, now: Instant) {
        match self.event(now) {
            Some(Event::Configured(config)) => self.begin(&config),
            Some(Event::Deconfigured) => {
                set_address(&mut self.host.interface, None);
                self.set_servers(&[]);
            }
            None => {}
        }
    }
}

impl Client {
    /// A host without an address, and with so much room for what is seen of its frames.
    pub fn new(alloc: Global, room: usize) -> Result<Client> {
        let mut host = Host::new(alloc, 2, room)?;
        add_both(&mut host.sockets).map(|(dhcp, dns)| Client { host, dhcp, dns })
    }

    /// What the client of DHCP tells.
    fn event(&mut self, now: Instant) -> Option<Event> {
        let socket: &mut dhcp::Socket = self.host.sockets.get_mut_as(self.dhcp)?;
        socket.poll(now)
    }

    /// Sets the address, the router and the servers of names.
    fn begin(&mut self, config: &Config) {
        set_address(&mut self.host.interface, Some(IpCidr::Ipv4(config.address)));
        if let Some(router) = config.router {
            set_router(&mut self.host.interface, router);
        }
        if let Some(server) = config.dns_servers[0] {
            self.set_servers(&[IpAddress::Ipv4(server)]);
        }
    }

    /// Which servers the client of DNS asks.
    fn set_servers(&mut self, servers: &[IpAddress]) {
        if let Some(socket) = self.client() {
            socket.update_servers(servers);
        }
    }

    /// Its client of DNS.
    fn client(&mut self) -> Option<&mut dns::Socket> {
        self.host.sockets.get_mut_as(self.dns)
    }

    /// Asks for the address of a name.
    pub fn ask(&mut self, name: &str) -> Result<()> {
        let host: &mut Host = &mut self.host;
        let socket: Option<&mut dns::Socket> = host.sockets.get_mut_as(self.dns);
        let socket = socket.context("no client of DNS")?;
        Ok(socket.start_query(&mut host.interface, name, DnsQueryType::A)?)
    }

    /// The first address that was found.
    pub fn found(&mut self) -> Result<Option<IpAddress>> {
        let socket = self.client().context("no client of DNS")?;
        Ok(socket.get_query_result()?[0])
    }

    /// The address of the host.
    pub fn address(&self) -> Option<Ipv4Address> {
        self.host.interface.ipv4_addr()
    }
}

/// Adds a client of DHCP, and one of DNS.
fn add_both(sockets: &mut SocketSet<Socket>) -> Result<(SocketHandle, SocketHandle)> {
    let dhcp = add(sockets, dhcp::Socket::new(HARDWARE_ADDR, 1))?;
    let dns = add(sockets, dns::Socket::new(&[]))?;
    Ok((dhcp, dns))
}

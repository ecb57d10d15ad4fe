//! What a host does in a turn: what its clients tell is done, and what is due is asked.
ghost use Rattle.net_base.specs.Time.{IsMoment};

use crate::boot::client::Handles;
use crate::boot::page::{self, Page};
use crate::boot::pings::{ping, pong};
use crate::boot::plan::Plan;
use anyhow::Result;
use interface::{Interface, SocketHandle, SocketSet, SocketsByKind};
use ip_wire::{IpAddress, IpCidr};
use net_base::Instant;
use sockets::dhcp::{self, Config, Event};
use sockets::dns::{self, GetQueryResultError};
use sockets::{Socket, icmp, tcp};

/// All of them, in this order.
pub fn act<R: Eprint>(
    rt: &R,
    interface: &mut Interface,
    sockets: &mut SocketSet<Socket>,
    handles: Handles,
    plan: &mut Plan,
    now: Instant,
) -> Result<()>
    requires { IsMoment now }
{
    configure(rt, interface, sockets, handles, plan, now)?;
    hear(rt, sockets, handles.pings, plan, now)?;
    tell(rt, interface, sockets, handles, plan, now)?;
    read(rt, sockets, handles.stream, plan, now)?;
    ask_router(sockets, handles.pings, plan, now);
    ask_name(interface, sockets, handles.dns, plan);
    Ok(())
}

/// What the client of DHCP tells.
fn event(sockets: &mut SocketSet<Socket>, handle: SocketHandle, now: Instant) -> Option<Event> {
    let socket: &mut dhcp::Socket = sockets.get_mut_as(handle)?;
    socket.poll(now)
}

/// Does what the client of DHCP tells.
fn configure<R: Eprint>(
    rt: &R,
    interface: &mut Interface,
    sockets: &mut SocketSet<Socket>,
    handles: Handles,
    plan: &mut Plan,
    now: Instant,
) -> Result<()> {
    match event(sockets, handles.dhcp, now) {
        Some(Event::Configured(config)) => {
            say_configured(rt, &config, now)?;
            begin(interface, &config);
            if let Some(server) = config.dns_servers[0] {
                set_servers(sockets, handles.dns, &[IpAddress::Ipv4(server)]);
            }
            if config.router.is_some() {
                plan.turn_to(config.router, now);
            }
            Ok(())
        }
        Some(Event::Deconfigured) => {
            eprintln!(rt; "{now} deconfigured")?;
            set_address(interface, None);
            set_servers(sockets, handles.dns, &[]);
            plan.turn_to(None, now);
            Ok(())
        }
        None => Ok(()),
    }
}

fn say_configured<R: Eprint>(rt: &R, config: &Config, now: Instant) -> Result<()> {
    let (address, server) = (config.address, config.server.identifier);
    eprintln!(rt; "{now} configured {address} by {server}")?;
    Ok(())
}

/// Takes an address, and a route by the router.
fn begin(interface: &mut Interface, config: &Config) {
    set_address(interface, Some(IpCidr::Ipv4(config.address)));
    if let Some(router) = config.router {
        let _ = interface.update_routes(|routes| routes.add_default_ipv4_route(router));
    }
}

/// Sets the one address of an interface, or none.
fn set_address(interface: &mut Interface, address: Option<IpCidr>) {
    let _ = interface.update_ip_addrs(|addresses| {
        addresses.clear();
        if let Some(address) = address {
            let _ = addresses.try_push(address);
        }
    });
}

/// The client of DNS.
fn client(sockets: &mut SocketSet<Socket>, handle: SocketHandle) -> Option<&mut dns::Socket> {
    sockets.get_mut_as(handle)
}

fn set_servers(sockets: &mut SocketSet<Socket>, handle: SocketHandle, servers: &[IpAddress]) {
    if let Some(socket) = client(sockets, handle) {
        socket.update_servers(servers);
    }
}

/// Whether the router answered.
fn hear<R: Eprint>(
    rt: &R,
    sockets: &mut SocketSet<Socket>,
    handle: SocketHandle,
    plan: &mut Plan,
    now: Instant,
) -> Result<()> {
    let socket: Option<&mut icmp::Socket> = sockets.get_mut_as(handle);
    let heard = match socket {
        Some(socket) => pong(socket),
        None => false,
    };
    if heard && plan.ping_at.is_some() {
        plan.ping_at = None;
        eprintln!(rt; "{now} the router answers")?;
    }
    Ok(())
}

/// What was found of a name that was asked for.
fn tell<R: Eprint>(
    rt: &R,
    interface: &mut Interface,
    sockets: &mut SocketSet<Socket>,
    handles: Handles,
    plan: &mut Plan,
    now: Instant,
) -> Result<()> {
    let Some(question) = &plan.asked else {
        return Ok(());
    };
    let Some(socket) = client(sockets, handles.dns) else {
        return Ok(());
    };
    let name = question.name.as_str();
    let found = socket.get_query_result();
    match &found {
        Err(GetQueryResultError::Pending) => return Ok(()),
        Err(GetQueryResultError::Failed) => eprintln!(rt; "{now} {name} has no address")?,
        Err(why) => eprintln!(rt; "{now} {name}: {why}")?,
        Ok(found) => {
            for address in found.iter().flatten() {
                eprintln!(rt; "{now} {name} is {address}")?;
            }
        }
    }
    if let (true, Ok(found)) = (question.fetches, found) {
        if let Some(address) = found[0] {
            if fetches(interface, sockets, handles.stream, address) {
                plan.page = Some(Page::NEW);
            }
        }
    }
    plan.asked = None;
    Ok(())
}

/// Turns to the host whose page is fetched.
fn fetches(
    interface: &mut Interface,
    sockets: &mut SocketSet<Socket>,
    handle: SocketHandle,
    address: IpAddress,
) -> bool {
    let socket: Option<&mut tcp::Socket> = sockets.get_mut_as(handle);
    match socket {
        Some(socket) => socket
            .connect(interface, (address, page::PORT), page::OWN_PORT)
            .is_ok(),
        None => false,
    }
}

/// What came of a page.
fn read<R: Eprint>(
    rt: &R,
    sockets: &mut SocketSet<Socket>,
    handle: SocketHandle,
    plan: &mut Plan,
    now: Instant,
) -> Result<()> {
    let Some(page) = &mut plan.page else {
        return Ok(());
    };
    let socket: Option<&mut tcp::Socket> = sockets.get_mut_as(handle);
    let Some(socket) = socket else {
        return Ok(());
    };
    if let Some(count) = page.read(socket) {
        plan.page = None;
        eprintln!(rt; "{now} the page has {count} bytes")?;
    }
    Ok(())
}

/// Pings the router where that is due.
fn ask_router(sockets: &mut SocketSet<Socket>, handle: SocketHandle, plan: &mut Plan, now: Instant)
    requires { IsMoment now }
{
    let Some((router, number)) = plan.ping(now) else {
        return;
    };
    let socket: Option<&mut icmp::Socket> = sockets.get_mut_as(handle);
    if let Some(socket) = socket {
        let _ = ping(socket, router, number);
    }
}

/// Asks for the next name.
fn ask_name(
    interface: &mut Interface,
    sockets: &mut SocketSet<Socket>,
    handle: SocketHandle,
    plan: &mut Plan,
) {
    let Some(question) = plan.next() else {
        return;
    };
    if let Some(socket) = client(sockets, handle) {
        let _ = socket.start_query(interface, question.name.as_str(), question.kind);
    }
}

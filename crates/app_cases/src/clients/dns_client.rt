//! A client of DNS.
use crate::clients::host::{ADDRESS_V4, ADDRESS_V6, Host};
use crate::clients::packets::{say, say_offer, v4_header, v6_header};
use ip_wire::{IpAddress, IpRepr, Ipv4Address, Ipv6Address, UdpRepr};
use sockets::dns::{DnsQueryType, Socket};
use std::alloc::{AllocError, Global};

/// A client of two servers.
pub(crate) fn new() -> Socket {
    Socket::new(&[server(1), server(2)])
}

/// A server by its number: those from 100 on have an address of IPv6.
fn server(number: u8) -> IpAddress {
    if number < 100 {
        IpAddress::Ipv4(Ipv4Address::new(10, 7, 0, number))
    } else {
        IpAddress::Ipv6(Ipv6Address([0xfd, 0, 0, 0, 0, 0, 0, 0, 0, 0, 0, 0, 0, 0, 0, number]))
    }
}

/// Answers a line: a word, for most an instant in microseconds, and more. False: no line begins with that word.
pub(crate) fn answer(
    alloc: Global,
    word: &str,
    rest: &str,
    host: &mut Host,
    client: &mut Socket,
    out: &mut String,
) -> Result<bool, AllocError> {
    let (first, more) = rest.split_once(' ').unwrap_or((rest, ""));
    let micros = first.parse::<u64>().unwrap_or(0);
    let said = match word {
        "a" => start(micros, more, DnsQueryType::A, host, client, out),
        "aaaa" => start(micros, more, DnsQueryType::Aaaa, host, client, out),
        "offer" => {
            host.set_now(micros);
            let offer = client.offer(host);
            say_offer(alloc, offer, client.offered(), ' ', out)
        }
        "result" => result(client, out),
        "when" => say(&client.poll_at(host), out),
        "arrives" => {
            host.set_now(micros);
            arrives(alloc, host, client, more);
            Ok(())
        }
        _ => return Ok(tell(word, rest, client)),
    };
    said.map(|()| true)
}

/// Asks for a name.
fn start(
    micros: u64,
    name: &str,
    type_: DnsQueryType,
    host: &mut Host,
    client: &mut Socket,
    out: &mut String,
) -> Result<(), AllocError> {
    host.set_now(micros);
    match client.start_query(host, name, type_) {
        Ok(()) => writeln!(out, "started"),
        Err(why) => writeln!(out, "{why}"),
    }
}

/// A datagram arrives: the number of the server, the port that it comes from, the one that it goes to, and its bytes.
fn arrives(alloc: Global, host: &Host, client: &mut Socket, line: &str) {
    let (number, rest) = line.split_once(' ').unwrap_or((line, ""));
    let (source, rest) = rest.split_once(' ').unwrap_or((rest, ""));
    let (destination, digits) = rest.split_once(' ').unwrap_or((rest, ""));
    let Ok(bytes) = hex::decode(alloc, digits) else {
        return;
    };
    let ports = UdpRepr {
        src_port: source.parse::<u16>().unwrap_or(0),
        dst_port: destination.parse::<u16>().unwrap_or(0),
    };
    let header = header_from(server(number.parse::<u8>().unwrap_or(0)), bytes.len());
    if client.accepts(host, &header, &ports) {
        client.process(host, &header, &ports, bytes.as_slice());
    }
}

/// The header of a datagram from a server with so many bytes.
fn header_from(server: IpAddress, len: usize) -> IpRepr {
    match server {
        IpAddress::Ipv4(address) => v4_header(address, ADDRESS_V4, len),
        IpAddress::Ipv6(address) => v6_header(address, ADDRESS_V6, len),
    }
}

/// Says what was found.
fn result(client: &mut Socket, out: &mut String) -> Result<(), AllocError> {
    match client.get_query_result() {
        Ok(found) => {
            write!(out, "found")?;
            for slot in &found {
                if let Some(address) = slot {
                    write!(out, " {address}")?;
                }
            }
            writeln!(out)
        }
        Err(why) => writeln!(out, "{why}"),
    }
}

/// Tells the client what became of a packet, to ask no longer, or which servers there are. False: no line begins with that word.
fn tell(word: &str, rest: &str, client: &mut Socket) -> bool {
    match word {
        "sent" => client.settle(true),
        "unsent" => client.settle(false),
        "cancel" => client.cancel_query(),
        "server" => {
            let number = rest.parse::<u8>().unwrap_or(0);
            client.update_servers(&[server(number)]);
        }
        "servers" => client.update_servers(&[]),
        "requirements" => client.set_host_requirements(true),
        _ => return false,
    }
    true
}

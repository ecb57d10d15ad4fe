//! A client of DHCP.
use crate::clients::host::Host;
use crate::clients::packets::{say, say_offer, v4_header};
use ip_wire::{EthernetAddress, Ipv4Address, UdpRepr};
use net_base::Duration;
use sockets::dhcp::{DhcpOption, OptionsError, RetryConfig, Socket};
use std::alloc::{AllocError, Global};

/// A client whose random words come from a seed.
pub(crate) fn new(seed: u64) -> Socket {
    Socket::new(EthernetAddress([2, 0, 0, 0, 0, 7]), seed)
}

/// Answers a line: a word, for most an instant in microseconds, and more. False: no line begins with that word.
pub(crate) fn answer(
    alloc: Global,
    word: &str,
    rest: &str,
    host: &mut Host,
    client: &mut Socket,
    out: &mut String,
) -> Result<bool, AllocError> {
    let (first, more) = rest.split_once(' ').unwrap_or((rest, ""));
    let micros = first.parse::<u64>().unwrap_or(0);
    let said = match word {
        "offer" => {
            host.set_now(micros);
            let offer = client.offer(host);
            say_offer(alloc, offer, client.offered(), ':', out)
        }
        "poll" => {
            host.set_now(micros);
            say(&client.poll(host.now), out)
        }
        "when" => say(&client.poll_at(host), out),
        "state" => say(&client.state(), out),
        "ask" => {
            let codes = bytes_of(alloc, rest);
            say(&client.set_parameter_request_list(codes.as_slice()), out)
        }
        "options" => say(&options(alloc, rest, client), out),
        "arrives" => {
            host.set_now(micros);
            arrives(alloc, host, client, more);
            Ok(())
        }
        _ => return Ok(tell(word, micros, first, more, client)),
    };
    said.map(|()| true)
}

/// Tells the client something. False: no line begins with that word.
fn tell(word: &str, micros: u64, first: &str, more: &str, client: &mut Socket) -> bool {
    match word {
        "ports" => client.set_ports(port(first), port(more)),
        "retries" => client.set_retry_config(retries(micros)),
        "longest" => client.set_max_lease_duration(Some(Duration::from_micros(micros))),
        "ignore" => client.set_ignore_naks(true),
        "requirements" => client.set_host_requirements(true),
        "reset" => client.reset(),
        "sent" => client.settle(true),
        "unsent" => client.settle(false),
        _ => return false,
    }
    true
}

/// Sets up to two options: of each the code, and what is inside in hexadecimal digits.
fn options(alloc: Global, text: &str, client: &mut Socket) -> Result<(), OptionsError> {
    let (code, rest) = text.split_once(' ').unwrap_or((text, ""));
    let (digits, rest) = rest.split_once(' ').unwrap_or((rest, ""));
    let (other, more) = rest.split_once(' ').unwrap_or((rest, ""));
    let (first, second) = (bytes_of(alloc, digits), bytes_of(alloc, more));
    let one = option_of(code, first.as_slice());
    let two = option_of(other, second.as_slice());
    if code.is_empty() {
        return client.set_outgoing_options(&[]);
    }
    if other.is_empty() {
        return client.set_outgoing_options(&[one]);
    }
    client.set_outgoing_options(&[one, two])
}

/// An option of the code that a text says, and of 0 where it says none.
fn option_of<'a>(code: &str, data: &'a [u8]) -> DhcpOption<'a> {
    DhcpOption {
        kind: code.parse::<u8>().unwrap_or(0),
        data,
    }
}

/// The bytes of hexadecimal digits, and none of any other text.
fn bytes_of(alloc: Global, digits: &str) -> Vec<u8> {
    match hex::decode(alloc, digits) {
        Ok(bytes) => bytes,
        Err(_) => Vec::new(alloc),
    }
}

/// A port by its number, and 0 for any other text.
fn port(text: &str) -> u16 {
    text.parse::<u16>().unwrap_or(0)
}

/// Four seconds at first, and so many requests.
fn retries(count: u64) -> RetryConfig {
    RetryConfig {
        discover_timeout: Duration::from_secs(4),
        initial_request_timeout: Duration::from_secs(4),
        request_retries: count.min(9) as u16,
        min_renew_timeout: Duration::from_secs(60),
        max_renew_timeout: Duration::from_secs(3600),
    }
}

/// A message from 10.7.0.1 arrives.
fn arrives(alloc: Global, host: &Host, client: &mut Socket, digits: &str) {
    let Ok(bytes) = hex::decode(alloc, digits) else {
        return;
    };
    let source = Ipv4Address::new(10, 7, 0, 1);
    let header = v4_header(source, Ipv4Address::BROADCAST, bytes.len());
    let ports = UdpRepr {
        src_port: 67,
        dst_port: 68,
    };
    if client.accepts(host, &header, &ports) {
        client.process(host, &header, &ports, bytes.as_slice());
    }
}

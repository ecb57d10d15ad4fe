//! What a line begins with.
use crate::{datagrams, device_lines, header, host_lines, polls, streams};

/// The lines by the modules that play them.
#[derive(Clone, Copy)]
pub enum Line {
    World,
    Start,
    Header(header::Verb),
    Stream(streams::Verb),
    Datagram(datagrams::Verb),
    Host(host_lines::Verb),
    Poll(polls::Verb),
    Device(device_lines::Verb),
    Set,
    Get,
    Ask,
    Unknown,
}

impl Line {
    /// The line that begins with this word.
    pub fn of(word: &str) -> Line {
        match word {
            "world" => Line::World,
            "start" => Line::Start,
            "set" => Line::Set,
            "get" => Line::Get,
            "ask" => Line::Ask,
            _ => of_socket(word),
        }
    }
}

/// One of a socket.
fn of_socket(word: &str) -> Line {
    match word {
        "listen" => Line::Stream(streams::Verb::Listen),
        "connect" => Line::Stream(streams::Verb::Connect),
        "send" => Line::Stream(streams::Verb::Send),
        "recv" => Line::Stream(streams::Verb::Recv),
        "close" => Line::Stream(streams::Verb::Close),
        "abort" => Line::Stream(streams::Verb::Abort),
        "state" => Line::Stream(streams::Verb::State),
        "bind" => Line::Datagram(datagrams::Verb::Bind),
        "ident" => Line::Datagram(datagrams::Verb::Ident),
        "errors" => Line::Datagram(datagrams::Verb::Errors),
        "sendto" => Line::Datagram(datagrams::Verb::SendTo),
        "sendicmp" => Line::Datagram(datagrams::Verb::SendIcmp),
        "sendraw" => Line::Datagram(datagrams::Verb::SendRaw),
        "sendany" => Line::Datagram(datagrams::Verb::SendAny),
        "recvfrom" => Line::Datagram(datagrams::Verb::RecvFrom),
        "peek" => Line::Datagram(datagrams::Verb::Peek),
        _ => of_host(word),
    }
}

/// One that sets what a host has.
fn of_host(word: &str) -> Line {
    match word {
        "addrs" => Line::Host(host_lines::Verb::Addrs),
        "hw" => Line::Host(host_lines::Verb::Hw),
        "announce" => Line::Host(host_lines::Verb::Announce),
        "any_ip" => Line::Host(host_lines::Verb::AnyIp),
        "join" => Line::Host(host_lines::Verb::Join),
        "leave" => Line::Host(host_lines::Verb::Leave),
        "reassembly" => Line::Host(host_lines::Verb::Reassembly),
        "slots" => Line::Host(host_lines::Verb::Assemblers),
        "route" => Line::Host(host_lines::Verb::Route),
        "exchange_route" => Line::Host(host_lines::Verb::ExchangeRoute),
        "add_route" => Line::Host(host_lines::Verb::AddRoute),
        "drop_route" => Line::Host(host_lines::Verb::DropRoute),
        "no_routes" => Line::Host(host_lines::Verb::NoRoutes),
        "no_route_v4" => Line::Host(host_lines::Verb::NoRouteV4),
        "no_route_v6" => Line::Host(host_lines::Verb::NoRouteV6),
        _ => of_poll(word),
    }
}

/// One that polls a host, or is of its device.
fn of_poll(word: &str) -> Line {
    match word {
        "poll" => Line::Poll(polls::Verb::Poll),
        "egress" => Line::Poll(polls::Verb::Egress),
        "ingress" => Line::Poll(polls::Verb::Ingress),
        "maintain" => Line::Poll(polls::Verb::Maintain),
        "pollat" => Line::Poll(polls::Verb::PollAt),
        "delay" => Line::Poll(polls::Verb::Delay),
        "frame" => Line::Device(device_lines::Verb::Frame),
        "noise" => Line::Device(device_lines::Verb::Noise),
        "room" => Line::Device(device_lines::Verb::Room),
        "refuse" => Line::Device(device_lines::Verb::Refuse),
        "refused" => Line::Device(device_lines::Verb::Refused),
        _ => of_header(word),
    }
}

/// One of the header.
fn of_header(word: &str) -> Line {
    match word {
        "socket" => Line::Header(header::Verb::Socket),
        "seed" => Line::Header(header::Verb::Seed),
        "begins" => Line::Header(header::Verb::Begins),
        "mac" => Line::Header(header::Verb::Mac),
        "isn_key" => Line::Header(header::Verb::IsnKey),
        "checksums" => Line::Header(header::Verb::Checksums),
        "host_requirements" => Line::Header(header::Verb::HostRequirements),
        "reports" => Line::Header(header::Verb::Reports),
        _ => Line::Unknown,
    }
}

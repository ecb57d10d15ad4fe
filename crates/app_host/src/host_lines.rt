//! Lines that set what a host has.
use crate::answer::Answer;
use crate::header::hardware;
use crate::host::Host;
use crate::refusal_text::{Refusal, Said};
use crate::stop::Class;
use crate::words::Words;
use interface::{HardwareAddrError, Interface, MulticastError, Route, Routes};
use ip_wire::IpAddress;
use net_base::{Duration, Instant};
use std::alloc::Global;

/// The lines that set something of a host.
#[derive(Clone, Copy)]
pub enum Verb {
    Addrs,
    Hw,
    Announce,
    AnyIp,
    Join,
    Leave,
    Reassembly,
    Assemblers,
    Route,
    ExchangeRoute,
    AddRoute,
    DropRoute,
    NoRoutes,
    NoRouteV4,
    NoRouteV6,
}

/// Plays one of these lines.
pub fn play(alloc: Global, host: &mut Host, verb: Verb, words: &mut Words<'_>) -> Answer {
    words.host();
    let interface = &mut host.interface;
    match verb {
        Verb::Announce => announce(host, words),
        Verb::Addrs => set_addresses(interface, words),
        Verb::Hw => set_hardware(interface, words),
        Verb::AnyIp => set_any_ip(interface, words),
        Verb::Join | Verb::Leave => change_group(interface, verb, words),
        Verb::Reassembly => set_reassembly_timeout(interface, words),
        Verb::Assemblers => set_reassembly_slots(alloc, interface, words),
        Verb::Route => set_router(interface, false, words),
        Verb::ExchangeRoute => set_router(interface, true, words),
        Verb::AddRoute => add_route(interface, words),
        Verb::DropRoute => drop_route(interface, words),
        Verb::NoRoutes | Verb::NoRouteV4 | Verb::NoRouteV6 => drop_routes(interface, verb, words),
    }
}

fn set_addresses(interface: &mut Interface, words: &mut Words<'_>) -> Answer {
    let blocks = words.blocks();
    if !words.is_taken() {
        return Answer::Done;
    }
    match interface.update_ip_addrs(|addresses| *addresses = blocks) {
        Ok(()) => Answer::Done,
        Err(_) => Answer::Error(Refusal::NotUnicast),
    }
}

fn set_any_ip(interface: &mut Interface, words: &mut Words<'_>) -> Answer {
    let any = words.last_switch();
    if words.is_taken() {
        interface.set_any_ip(any);
    }
    Answer::Done
}

fn change_group(interface: &mut Interface, verb: Verb, words: &mut Words<'_>) -> Answer {
    let group = words.address();
    words.end();
    if !words.is_taken() {
        return Answer::Done;
    }
    let answer = match verb {
        Verb::Join => interface.join_multicast_group(group),
        _ => interface.leave_multicast_group(group),
    };
    match answer {
        Ok(()) => Answer::Done,
        Err(MulticastError::GroupTableFull) => Answer::Error(Refusal::GroupTableFull),
        Err(MulticastError::Unaddressable) => Answer::Error(Refusal::Unaddressable),
    }
}

fn set_hardware(interface: &mut Interface, words: &mut Words<'_>) -> Answer {
    let address = hardware(words);
    words.end();
    if !words.is_taken() {
        return Answer::Done;
    }
    match interface.set_hardware_addr(address) {
        Ok(()) => Answer::Done,
        Err(error) => Answer::Error(refusal_of(error)),
    }
}

/// Sets the hardware address, and tells the neighbours of it.
fn announce(host: &mut Host, words: &mut Words<'_>) -> Answer {
    let now = Instant::from_micros(words.micros());
    let address = hardware(words);
    words.end();
    if !words.is_taken() {
        return Answer::Done;
    }
    match host
        .interface
        .update_hardware_addr(now, &mut host.wire, address)
    {
        Ok(told) => Answer::Number(Said::Told, told as u64),
        Err(error) => Answer::Error(refusal_of(error)),
    }
}

fn refusal_of(error: HardwareAddrError) -> Refusal {
    match error {
        HardwareAddrError::Medium => Refusal::Medium,
        HardwareAddrError::NotUnicast => Refusal::NotUnicast,
    }
}

fn set_reassembly_timeout(interface: &mut Interface, words: &mut Words<'_>) -> Answer {
    let span = words.span();
    words.end();
    match span {
        Some(micros) if words.is_taken() => {
            interface.set_reassembly_timeout(Duration::from_micros(micros));
        }
        Some(_) => {}
        None => words.wrong(Class::Number),
    }
    Answer::Done
}

fn set_reassembly_slots(alloc: Global, interface: &mut Interface, words: &mut Words<'_>) -> Answer {
    let count = words.size();
    words.end();
    if words.is_taken() && interface.set_reassembly_slots(alloc, count).is_err() {
        return words.refuse(Refusal::Memory);
    }
    Answer::Done
}

/// The router of all other packets of its family: whether there was room, or the one that it takes the place of.
fn set_router(interface: &mut Interface, exchanges: bool, words: &mut Words<'_>) -> Answer {
    let router = words.address();
    words.end();
    if words.is_taken() {
        interface.update_routes(|routes| default_route(routes, router, exchanges))
    } else {
        Answer::Done
    }
}

fn drop_route(interface: &mut Interface, words: &mut Words<'_>) -> Answer {
    let slot = words.size();
    words.end();
    if words.is_taken() {
        interface.update_routes(|routes| dropped(routes.remove(slot)))
    } else {
        Answer::Done
    }
}

fn drop_routes(interface: &mut Interface, verb: Verb, words: &mut Words<'_>) -> Answer {
    words.end();
    if words.is_taken() {
        interface.update_routes(|routes| no_route(routes, verb))
    } else {
        Answer::Done
    }
}

fn add_route(interface: &mut Interface, words: &mut Words<'_>) -> Answer {
    let (cidr, via_router) = (words.cidr(), words.address());
    let expires_at = words.until().map(Instant::from_micros);
    words.end();
    if !words.is_taken() {
        return Answer::Done;
    }
    let route = Route {
        cidr,
        via_router,
        preferred_until: None,
        expires_at,
    };
    interface.update_routes(|routes| added(routes.push(route).is_ok()))
}

fn default_route(routes: &mut Routes, router: IpAddress, exchanges: bool) -> Answer {
    let answer = match router {
        IpAddress::Ipv4(router) => routes.add_default_ipv4_route(router),
        IpAddress::Ipv6(router) => routes.add_default_ipv6_route(router),
    };
    match answer {
        Ok(old) if exchanges => dropped(old),
        Ok(_) => Answer::Done,
        Err(_) => Answer::Error(Refusal::RouteTableFull),
    }
}

fn added(is_added: bool) -> Answer {
    if is_added {
        Answer::Done
    } else {
        Answer::Error(Refusal::RouteTableFull)
    }
}

/// The router of the route that was taken out.
fn dropped(route: Option<Route>) -> Answer {
    match route {
        Some(route) => Answer::Address(Said::Is, route.via_router),
        None => Answer::Says(Said::Nothing),
    }
}

/// Takes out the default routes of a family, or all routes.
fn no_route(routes: &mut Routes, verb: Verb) -> Answer {
    match verb {
        Verb::NoRouteV4 => dropped(routes.remove_default_ipv4_route()),
        Verb::NoRouteV6 => dropped(routes.remove_default_ipv6_route()),
        _ => {
            routes.clear();
            Answer::Done
        }
    }
}

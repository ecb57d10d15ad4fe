//! A table of 64 routes with prefixes of many lengths: who is the router of which destination. The answers are worked out by Python's
//! module `ipaddress`: of the prefixes that hold an address the longest, of equal ones the last added.
ghost use Rattle.net_base.specs.Time.{IsMoment};

use crate::hosts::parts::prefix_lines::LINES;
use iface_tables::{Route, Routes};
use ip_wire::{IpAddress, IpCidr};
use net_base::Instant;
use std::alloc::Global;

/// So many microseconds after the start.
fn at(micros: u32) -> Instant
    ensures { IsMoment result }
{
    Instant::from_micros(i64::from(micros))
}

fn instant(word: &str) -> Option<Instant> {
    match word.parse::<u32>() {
        Ok(micros) => Some(at(micros)),
        Err(_) => None,
    }
}

fn address(word: &str) -> Option<IpAddress> {
    word.parse::<IpAddress>().ok()
}

/// A route to this block by this router, up to this instant or for ever.
fn route(tcb: &str, router: &str, until: &str) -> Option<Route> {
    let cidr = tcb.parse::<IpCidr>().ok()?;
    let via_router = address(router)?;
    Some(Route {
        cidr,
        via_router,
        preferred_until: None,
        expires_at: instant(until),
    })
}

fn adds(routes: &mut Routes, route: Option<Route>, answer: &str) -> bool {
    match route {
        Some(route) => routes.push(route).is_ok() == (answer == "ok"),
        None => false,
    }
}

fn removes(routes: &mut Routes, slot: &str, answer: &str) -> bool {
    let Ok(slot) = slot.parse::<usize>() else {
        return false;
    };
    match routes.remove(slot) {
        Some(route) => address(answer) == Some(route.via_router),
        None => answer == "none",
    }
}

fn leads(routes: &Routes, destination: &str, now: &str, answer: &str) -> bool {
    match (address(destination), instant(now)) {
        (Some(destination), Some(now)) => routes.lookup(&destination, now) == address(answer),
        _ => false,
    }
}

/// Whether a line goes as it says: `add BLOCK ROUTER UNTIL ok`, or `full`; `remove SLOT ROUTER`, or `none`; `look ADDRESS NOW ROUTER`, or `none`.
fn goes(routes: &mut Routes, line: &str) -> bool {
    let mut words = line.split(' ');
    let verb = words.next().unwrap_or("");
    let first = words.next().unwrap_or("");
    let second = words.next().unwrap_or("");
    let third = words.next().unwrap_or("");
    let fourth = words.next().unwrap_or("");
    match verb {
        "add" => adds(routes, route(first, second, third), fourth),
        "remove" => removes(routes, first, second),
        "look" => leads(routes, first, second, third),
        _ => false,
    }
}

/// The place of the first line that goes otherwise than it says, counted from 0.
fn first_wrong(routes: &mut Routes, text: &str) -> Option<usize> {
    for (slot, line) in text.lines().enumerate() {
        if !goes(routes, line) {
            return Some(slot);
        }
    }
    None
}

/// The same of a table of 64 routes, from its beginning on.
fn stops_at(alloc: Global, text: &str) -> Option<usize> {
    match Routes::new(alloc, 64) {
        Ok(mut routes) => first_wrong(&mut routes, text),
        Err(_) => Some(0),
    }
}

#[test]
fn the_longest_prefix_leads(rt: HostRuntime) {
    assert_eq!(rt; stops_at(rt.alloc(), LINES), None);
}

//! Lines that ask for what a host has.
use crate::answer::Answer;
use crate::host::Host;
use crate::refusal_text::Said;
use crate::stop::{Class, Stop};
use crate::words::Words;
use iface_tables::{Answer as Neighbor, LinkAddress};
use interface::InterfaceInner;
use ip_wire::IpAddress;
use net_base::Device;
use sockets::Context;

/// Plays `ask H WHAT`, after which an address may stand.
pub fn play(host: &mut Host, words: &mut Words<'_>) -> Answer {
    words.host();
    let name = words.word(Class::NeighborQuery);
    let inner = host.interface.context();
    let answer = match name {
        "fresh" => Answer::is(host.interface.is_fresh()),
        "any_ip" => Answer::is(host.interface.any_ip()),
        "ident" => Answer::Number(Said::Is, u64::from(inner.ident())),
        "mtu" => Answer::Number(Said::Is, inner.ip_mtu() as u64),
        "slots" => Answer::Number(Said::Is, host.interface.reassembly_slots() as u64),
        "hw" => Answer::HardwareAddr(inner.hardware_addr()),
        "waiting" => Answer::Number(Said::Is, host.wire.waiting() as u64),
        "refusals" => Answer::Number(Said::Is, host.wire.refusals()),
        _ => ask_of(inner, name, words),
    };
    words.end();
    answer
}

/// Plays a question about an address.
fn ask_of(inner: &InterfaceInner, name: &str, words: &mut Words<'_>) -> Answer {
    let number = words.count();
    let address = words.address();
    match about(inner, name, &address) {
        Some(answer) => answer,
        None => {
            words.note(Stop::Wrong(Class::NeighborQuery, number));
            Answer::Done
        }
    }
}

/// What a host says of an address.
fn about(inner: &InterfaceInner, name: &str, address: &IpAddress) -> Option<Answer> {
    Some(match name {
        "own" => Answer::is(inner.has_ip_addr(address)),
        "broadcast" => Answer::is(inner.is_broadcast(address)),
        "group" => Answer::is(inner.has_multicast_group(address)),
        "ours" => Answer::is(inner.is_for_us(address)),
        "source" => named(inner.get_source_address(address)),
        "hop" => named(inner.route(address)),
        "link" => link(inner.link_address(address)),
        "reachable" => Answer::is(inner.has_neighbor(address)),
        "neighbor" => neighbor(inner.lookup_neighbor(address)),
        _ => return None,
    })
}

fn named(address: Option<IpAddress>) -> Answer {
    match address {
        Some(address) => Answer::Address(Said::Is, address),
        None => Answer::Says(Said::Nothing),
    }
}

fn link(link: LinkAddress) -> Answer {
    match link {
        LinkAddress::Known(hardware_addr) => Answer::HardwareAddr(hardware_addr),
        LinkAddress::NoRoute => Answer::Says(Said::NoRoute),
        LinkAddress::Silent => Answer::Says(Said::Silent),
        LinkAddress::Unanswered => Answer::Says(Said::WithoutAnswer),
        LinkAddress::Unknown(hop) => Answer::Address(Said::Unknown, hop),
    }
}

fn neighbor(neighbor: Neighbor) -> Answer {
    match neighbor {
        Neighbor::Found(hardware_addr) => Answer::HardwareAddr(hardware_addr),
        Neighbor::NotFound => Answer::Says(Said::NotFound),
        Neighbor::RateLimited => Answer::Says(Said::Silent),
        Neighbor::Unanswered => Answer::Says(Said::WithoutAnswer),
    }
}

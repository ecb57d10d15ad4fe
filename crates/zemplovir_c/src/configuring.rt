//! The clients of DHCP and DNS.
ghost use Rattle.std.specs.Prelude.{◌≡◌};
ghost use Rattle.c_calls.specs.Leases.{dhcp_answer, dhcp_made, told_answer, told_after};
ghost use Rattle.c_calls.specs.Leases as Leases;
ghost use Rattle.c_calls.specs.Names.{query_made, found_answer, found_after};
ghost use Rattle.c_calls.specs.Names as Names;
ghost use Rattle.c_calls.specs.Configuring.{LeaseArrives, LeaseGoes, AnswerArrives, QueryGoes};
ghost use Rattle.zemplovir_c.specs.Answers.{all_done, answer_by, after_by, given_by, mapped, number_by, checked_answer, checked, Acts, Where};
ghost use Rattle.zemplovir_c.specs.Configuring.{v4_out, v4_or_none, configured_out, lease_out, addresses_out, due_out, kind_of, servers_of, NameIsAsked};
ghost use Rattle.zemplovir_c.specs.Configuring.{carried, Carries, count_given, remote_given, local_given};
ghost use Rattle.zemplovir_c.specs.Values.{endpoint_in, optional_in, required_in, is_on};

use crate::answers::{NO_HOST, OK, done, given};
use crate::handle::Handle;
use crate::types::{
    Address, Addresses, Endpoint, Lease, NO_ADDRESS, optional, required, required_endpoint, said,
    said_endpoint, said_or_none,
};
use c_calls::{Code, Host, Sending};
use ip_wire::{IpAddress, Ipv4Address};
use net_base::Instant;
use sockets::PollAt;
use sockets::dhcp::{Config, Event};
use sockets::dns::{self, DnsQueryType};
use std::alloc::Global;

/// Nothing happened.
const NOTHING: Lease = Lease {
    event: 0,
    prefix: 0,
    address: NO_ADDRESS,
    router: NO_ADDRESS,
    server: NO_ADDRESS,
    names: [NO_ADDRESS; 3],
};

fn said_v4(address: Ipv4Address) -> Address
    ensures { result ≡ v4_out address }
{
    said(IpAddress::Ipv4(address))
}

fn said_v4_or_none(address: Option<Ipv4Address>) -> Address
    ensures { result ≡ v4_or_none address }
{
    match address {
        Some(address) => said_v4(address),
        None => NO_ADDRESS,
    }
}

fn lease_of(config: &Config) -> Lease
    ensures { result ≡ configured_out config.now }
{
    Lease {
        event: 1,
        prefix: config.address.prefix_len(),
        address: said_v4(config.address.address()),
        router: said_v4_or_none(config.router),
        server: said_v4(config.server.address),
        names: [
            said_v4_or_none(config.dns_servers[0]),
            said_v4_or_none(config.dns_servers[1]),
            said_v4_or_none(config.dns_servers[2]),
        ],
    }
}

fn told(answer: Result<Option<Event>, Code>) -> Result<Lease, Code>
    ensures { result ≡ mapped lease_out answer }
{
    match answer {
        Ok(None) => Ok(NOTHING),
        Ok(Some(Event::Configured(config))) => Ok(lease_of(&config)),
        Ok(Some(Event::Deconfigured)) => Ok(Lease {
            event: 2,
            ..NOTHING
        }),
        Err(code) => Err(code),
    }
}

/// The instant, 0 for now, and the largest number for never.
fn instant_of(at: PollAt) -> i64
    ensures { result ≡ due_out at }
{
    match at {
        PollAt::Now => 0,
        PollAt::Time(instant) => instant.total_micros(),
        PollAt::Ingress => i64::MAX,
    }
}

fn due(answer: Result<PollAt, Code>) -> Result<i64, Code>
    ensures { result ≡ mapped due_out answer }
{
    match answer {
        Ok(at) => Ok(instant_of(at)),
        Err(code) => Err(code),
    }
}

/// A datagram goes: how many bytes it has, where to, and from where.
fn sending(
    answer: Result<Sending, Code>,
    count: &mut usize,
    remote: &mut Endpoint,
    local: &mut Endpoint,
) -> u32
    ensures number { result ≡ number_by answer }
    ensures count { count.new ≡ count_given answer count.old }
    ensures remote { remote.new ≡ remote_given answer remote.old }
    ensures local { local.new ≡ local_given answer local.old }
{
    match answer {
        Ok(sending) => {
            *count = sending.len;
            *remote = said_endpoint(sending.remote);
            *local = said_endpoint(sending.local);
            OK
        }
        Err(code) => code.number(),
    }
}

/// Begins a client of DHCP for this hardware address, in place of one that there was.
#[unsafe(no_mangle)]
pub extern "C" fn zv_dhcp_new(alloc: Global, handle: &mut Handle, seed: u64) -> u32
    ensures answer { result ≡ answer_by handle.old.inside (λ host. dhcp_answer host.host.inner.hardware) }
    ensures after { handle.new.inside ≡
        after_by handle.old.inside (λ host. record host { dhcp = dhcp_made host.host.inner.hardware seed host.host.inner.host_requirements host.dhcp }) }
{
    let Some(mut host) = handle.take(alloc) else {
        return NO_HOST;
    };
    let answer = host.dhcp_new(seed);
    handle.put(host);
    done(answer)
}

/// Hands the client a datagram that a socket received at port 68.
#[unsafe(no_mangle)]
pub extern "C" fn zv_dhcp_recv(
    alloc: Global,
    handle: &mut Handle,
    bytes: &[u8],
    remote: &Endpoint,
    local: &Address,
) -> u32
    ensures { Where (endpoint_in remote.now) result (handle.new.inside ≡ handle.old.inside) (λ from.
        Where (required_in local.now) result (handle.new.inside ≡ handle.old.inside) (λ at.
        Acts (LeaseArrives from at bytes.now) handle.old.inside result handle.new.inside)) }
{
    let remote = match required_endpoint(remote) {
        Ok(remote) => remote,
        Err(code) => return code.number(),
    };
    let local = match required(local) {
        Ok(local) => local,
        Err(code) => return code.number(),
    };
    let Some(mut host) = handle.take(alloc) else {
        return NO_HOST;
    };
    let answer = host.dhcp_recv(bytes, remote, local);
    handle.put(host);
    done(answer)
}

/// Copies the message that is due. It is open until `zv_dhcp_sent` says what became of it.
#[unsafe(no_mangle)]
pub extern "C" fn zv_dhcp_send(
    alloc: Global,
    handle: &mut Handle,
    bytes: &mut [u8],
    count: &mut usize,
    remote: &mut Endpoint,
    local: &mut Endpoint,
) -> u32
    ensures { Carries LeaseGoes handle.old.inside result (carried bytes.old count.old remote.old local.old) (carried bytes.new count.new remote.new local.new)
        handle.new.inside }
{
    let Some(mut host) = handle.take(alloc) else {
        return NO_HOST;
    };
    let answer = host.dhcp_send(bytes);
    handle.put(host);
    sending(answer, count, remote, local)
}

/// Says whether the message went.
#[unsafe(no_mangle)]
pub extern "C" fn zv_dhcp_sent(alloc: Global, handle: &mut Handle, sent: u8) -> u32
    ensures answer { result ≡ answer_by handle.old.inside (λ host. Leases.sent_answer host.dhcp) }
    ensures after { handle.new.inside ≡ after_by handle.old.inside (λ host. record host { dhcp = Leases.sent_after (is_on sent) host.dhcp }) }
{
    let Some(mut host) = handle.take(alloc) else {
        return NO_HOST;
    };
    let answer = host.dhcp_sent(sent != 0);
    handle.put(host);
    done(answer)
}

/// What happened since the last call: a lease that is over by now is given up first.
#[unsafe(no_mangle)]
pub extern "C" fn zv_dhcp_poll(
    alloc: Global,
    handle: &mut Handle,
    now: i64,
    lease: &mut Lease,
) -> u32
    ensures answer { result ≡ answer_by handle.old.inside (λ host. told_answer now host.dhcp) }
    ensures after { handle.new.inside ≡ after_by handle.old.inside (λ host. record host { dhcp = told_after now host.dhcp }) }
    ensures lease { lease.new ≡ given_by handle.old.inside (λ host. mapped lease_out (told_answer now host.dhcp)) lease.old }
{
    let Some(mut host) = handle.take(alloc) else {
        return NO_HOST;
    };
    let answer = told(host.dhcp_poll(Instant::from_micros(now)));
    handle.put(host);
    given(answer, lease)
}

/// When the client has something to send: 0 for now, the largest number for never.
#[unsafe(no_mangle)]
pub extern "C" fn zv_dhcp_poll_at(alloc: Global, handle: &mut Handle, at: &mut i64) -> u32
    ensures answer { result ≡ answer_by handle.old.inside (λ host. Leases.due_answer host.dhcp) }
    ensures after { handle.new.inside ≡ handle.old.inside }
    ensures at { at.new ≡ given_by handle.old.inside (λ host. mapped due_out (Leases.due_answer host.dhcp)) at.old }
{
    let Some(host) = handle.take(alloc) else {
        return NO_HOST;
    };
    let answer = due(host.dhcp_poll_at());
    handle.put(host);
    given(answer, at)
}

/// The first of the servers, up to one that is none.
fn begin_dns(
    host: &mut Host,
    first: Option<IpAddress>,
    second: Option<IpAddress>,
    third: Option<IpAddress>,
)
    ensures { host.new ≡ record host.old { dns = query_made (servers_of first second third) host.old.host.inner.host_requirements } }
{
    match (first, second, third) {
        (Some(first), Some(second), Some(third)) => host.dns_new(&[first, second, third]),
        (Some(first), Some(second), None) => host.dns_new(&[first, second]),
        (Some(first), None, _) => host.dns_new(&[first]),
        (None, _, _) => host.dns_new(&[]),
    }
}

/// Begins a client of DNS that asks up to three servers, in place of one that there was.
#[unsafe(no_mangle)]
pub extern "C" fn zv_dns_new(
    alloc: Global,
    handle: &mut Handle,
    first: &Address,
    second: &Address,
    third: &Address,
) -> u32
    ensures answer { result ≡ checked_answer (optional_in first.now) (λ one. checked_answer (optional_in second.now) (λ two.
        checked_answer (optional_in third.now) (λ three. answer_by handle.old.inside (λ host. all_done)))) }
    ensures after { handle.new.inside ≡ checked (optional_in first.now) (λ one. checked (optional_in second.now) (λ two.
        checked (optional_in third.now) (λ three. after_by handle.old.inside (λ host. record host { dns = query_made (servers_of one two three) host.host.inner.host_requirements }))
        handle.old.inside) handle.old.inside) handle.old.inside }
{
    let first = match optional(first) {
        Ok(first) => first,
        Err(code) => return code.number(),
    };
    let second = match optional(second) {
        Ok(second) => second,
        Err(code) => return code.number(),
    };
    let third = match optional(third) {
        Ok(third) => third,
        Err(code) => return code.number(),
    };
    let Some(mut host) = handle.take(alloc) else {
        return NO_HOST;
    };
    begin_dns(&mut host, first, second, third);
    handle.put(host);
    OK
}

/// The type of the records that hold addresses of a family.
fn kind_of(family: u8) -> Result<DnsQueryType, Code>
    ensures { result ≡ kind_of family }
{
    match family {
        4 => Ok(DnsQueryType::A),
        6 => Ok(DnsQueryType::Aaaa),
        _ => Err(Code::BadArgument),
    }
}

fn ask(alloc: Global, handle: &mut Handle, name: &[u8], kind: DnsQueryType) -> u32
    ensures { Acts (NameIsAsked name.now kind) handle.old.inside result handle.new.inside }
{
    let Some(mut host) = handle.take(alloc) else {
        return NO_HOST;
    };
    let answer = host.dns_ask(name, kind);
    handle.put(host);
    done(answer)
}

/// Asks for the addresses of a name, of a family.
#[unsafe(no_mangle)]
pub extern "C" fn zv_dns_ask(alloc: Global, handle: &mut Handle, name: &[u8], family: u8) -> u32
    ensures { Where (kind_of family) result (handle.new.inside ≡ handle.old.inside)
        (λ kind. Acts (NameIsAsked name.now kind) handle.old.inside result handle.new.inside) }
{
    match kind_of(family) {
        Ok(kind) => ask(alloc, handle, name, kind),
        Err(code) => code.number(),
    }
}

/// Hands the client a datagram that a socket received, at its own address and port.
#[unsafe(no_mangle)]
pub extern "C" fn zv_dns_recv(
    alloc: Global,
    handle: &mut Handle,
    bytes: &[u8],
    remote: &Endpoint,
    local: &Endpoint,
) -> u32
    ensures { Where (endpoint_in remote.now) result (handle.new.inside ≡ handle.old.inside) (λ from.
        Where (endpoint_in local.now) result (handle.new.inside ≡ handle.old.inside) (λ at.
        Acts (AnswerArrives from at bytes.now) handle.old.inside result handle.new.inside)) }
{
    let remote = match required_endpoint(remote) {
        Ok(remote) => remote,
        Err(code) => return code.number(),
    };
    let local = match required_endpoint(local) {
        Ok(local) => local,
        Err(code) => return code.number(),
    };
    let Some(mut host) = handle.take(alloc) else {
        return NO_HOST;
    };
    let answer = host.dns_recv(bytes, remote, local);
    handle.put(host);
    done(answer)
}

/// Copies the query that is due. It is open until `zv_dns_sent` says what became of it.
#[unsafe(no_mangle)]
pub extern "C" fn zv_dns_send(
    alloc: Global,
    handle: &mut Handle,
    bytes: &mut [u8],
    count: &mut usize,
    remote: &mut Endpoint,
    local: &mut Endpoint,
) -> u32
    ensures { Carries QueryGoes handle.old.inside result (carried bytes.old count.old remote.old local.old) (carried bytes.new count.new remote.new local.new)
        handle.new.inside }
{
    let Some(mut host) = handle.take(alloc) else {
        return NO_HOST;
    };
    let answer = host.dns_send(bytes);
    handle.put(host);
    sending(answer, count, remote, local)
}

/// Says whether the query went.
#[unsafe(no_mangle)]
pub extern "C" fn zv_dns_sent(alloc: Global, handle: &mut Handle, sent: u8) -> u32
    ensures answer { result ≡ answer_by handle.old.inside (λ host. Names.sent_answer host.dns) }
    ensures after { handle.new.inside ≡ after_by handle.old.inside (λ host. record host { dns = Names.sent_after (is_on sent) host.dns }) }
{
    let Some(mut host) = handle.take(alloc) else {
        return NO_HOST;
    };
    let answer = host.dns_sent(sent != 0);
    handle.put(host);
    done(answer)
}

fn addresses_of(found: &dns::Addresses) -> Addresses
    ensures { result ≡ addresses_out found.now }
{
    Addresses {
        at: [
            said_or_none(found[0]),
            said_or_none(found[1]),
            said_or_none(found[2]),
            said_or_none(found[3]),
        ],
    }
}

fn found(answer: Result<dns::Addresses, Code>) -> Result<Addresses, Code>
    ensures { result ≡ mapped addresses_out answer }
{
    match answer {
        Ok(found) => Ok(addresses_of(&found)),
        Err(code) => Err(code),
    }
}

/// The addresses that were found, which are told once.
#[unsafe(no_mangle)]
pub extern "C" fn zv_dns_result(
    alloc: Global,
    handle: &mut Handle,
    addresses: &mut Addresses,
) -> u32
    ensures answer { result ≡ answer_by handle.old.inside (λ host. found_answer host.dns) }
    ensures after { handle.new.inside ≡ after_by handle.old.inside (λ host. record host { dns = found_after host.dns }) }
    ensures addresses { addresses.new ≡ given_by handle.old.inside (λ host. mapped addresses_out (found_answer host.dns)) addresses.old }
{
    let Some(mut host) = handle.take(alloc) else {
        return NO_HOST;
    };
    let answer = found(host.dns_result());
    handle.put(host);
    given(answer, addresses)
}

/// When the client has something to send: the largest number for never.
#[unsafe(no_mangle)]
pub extern "C" fn zv_dns_poll_at(alloc: Global, handle: &mut Handle, at: &mut i64) -> u32
    ensures answer { result ≡ answer_by handle.old.inside (λ host. Names.due_answer host.dns) }
    ensures after { handle.new.inside ≡ handle.old.inside }
    ensures at { at.new ≡ given_by handle.old.inside (λ host. mapped due_out (Names.due_answer host.dns)) at.old }
{
    let Some(host) = handle.take(alloc) else {
        return NO_HOST;
    };
    let answer = due(host.dns_poll_at());
    handle.put(host);
    given(answer, at)
}

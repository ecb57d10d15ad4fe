//! Addresses, routes and other settings of a host.
ghost use Rattle.std.specs.Prelude.{◌≡◌};
ghost use Rattle.ip_wire.specs.HardwareAddress.TheVariants as HardwareAddr;
ghost use Rattle.ip_wire.specs.IpCidr.{IpCidr as Cidr};
ghost use Rattle.std.specs.Prelude.{Result, Ok};
ghost use Rattle.c_calls.specs.declared.code.Code.{Code as Refusal};
ghost use Rattle.c_calls.specs.Tables.{is_done, own_with, own_without, routes_with, routes_without, with_own, with_table, route_to, hardware_answer, group_answer};
ghost use Rattle.c_calls.specs.Tables.{UpdatesHardware, SetsSlots, hardware_refusal, host_join_refusal, leave_refusal, with_any_ip, with_hardware, with_inner, with_joined, with_left};
ghost use Rattle.c_calls.specs.Tables.{with_timeout};
ghost use Rattle.zemplovir_c.specs.Answers.{all_done, answer_by, after_by, checked_answer, checked, Acts, Gives};
ghost use Rattle.zemplovir_c.specs.Hosts.{IsCidrBy};
ghost use Rattle.zemplovir_c.specs.Values.{required_in, is_on};

use crate::answers::{NO_HOST, OK, done, given};
use crate::handle::Handle;
use crate::types::{Address, Hardware, cidr, required};
use ip_wire::EthernetAddress;
use net_base::Duration;
use std::alloc::Global;

/// Adds an own address with the length of its network's prefix.
#[unsafe(no_mangle)]
pub extern "C" fn zv_address_add(
    alloc: Global,
    handle: &mut Handle,
    address: &Address,
    prefix: u8,
) -> u32
    ensures { (named : Result Cidr Refusal) × IsCidrBy (required_in address.now) prefix named
        × (result ≡ checked_answer named (λ cidr. answer_by handle.old.inside (λ host. is_done (own_with host.host.inner.addresses cidr))))
        × (handle.new.inside ≡ checked named (λ cidr. after_by handle.old.inside (λ host. with_own host (own_with host.host.inner.addresses cidr)))
        handle.old.inside) }
{
    let cidr = match cidr(address, prefix) {
        Ok(cidr) => cidr,
        Err(code) => return code.number(),
    };
    let Some(mut host) = handle.take(alloc) else {
        return NO_HOST;
    };
    let answer = host.address_add(cidr);
    handle.put(host);
    done(answer)
}

/// Takes an own address out.
#[unsafe(no_mangle)]
pub extern "C" fn zv_address_remove(alloc: Global, handle: &mut Handle, address: &Address) -> u32
    ensures answer { result ≡
        checked_answer (required_in address.now) (λ own. answer_by handle.old.inside (λ host. is_done (own_without host.host.inner.addresses own))) }
    ensures after { handle.new.inside ≡
        checked (required_in address.now) (λ own. after_by handle.old.inside (λ host. with_own host (own_without host.host.inner.addresses own)))
        handle.old.inside }
{
    let address = match required(address) {
        Ok(address) => address,
        Err(code) => return code.number(),
    };
    let Some(mut host) = handle.take(alloc) else {
        return NO_HOST;
    };
    let answer = host.address_remove(address);
    handle.put(host);
    done(answer)
}

/// Adds a route: packets for the network go to the router.
#[unsafe(no_mangle)]
pub extern "C" fn zv_route_add(
    alloc: Global,
    handle: &mut Handle,
    network: &Address,
    prefix: u8,
    router: &Address,
) -> u32
    ensures { (named : Result Cidr Refusal) × IsCidrBy (required_in network.now) prefix named
        × (result ≡ checked_answer named (λ cidr. checked_answer (required_in router.now) (λ to.
        answer_by handle.old.inside (λ host. is_done (routes_with host.host.inner (route_to cidr to))))))
        × (handle.new.inside ≡ checked named (λ cidr. checked (required_in router.now) (λ to.
        after_by handle.old.inside (λ host. with_table host (routes_with host.host.inner (route_to cidr to)))) handle.old.inside) handle.old.inside) }
{
    let network = match cidr(network, prefix) {
        Ok(network) => network,
        Err(code) => return code.number(),
    };
    let router = match required(router) {
        Ok(router) => router,
        Err(code) => return code.number(),
    };
    let Some(mut host) = handle.take(alloc) else {
        return NO_HOST;
    };
    let answer = host.route_add(network, router);
    handle.put(host);
    done(answer)
}

/// Takes the first route of the network out.
#[unsafe(no_mangle)]
pub extern "C" fn zv_route_remove(
    alloc: Global,
    handle: &mut Handle,
    network: &Address,
    prefix: u8,
) -> u32
    ensures { (named : Result Cidr Refusal) × IsCidrBy (required_in network.now) prefix named
        × (result ≡ checked_answer named (λ cidr. answer_by handle.old.inside (λ host. is_done (routes_without host.host.inner.routes cidr))))
        × (handle.new.inside ≡ checked named (λ cidr. after_by handle.old.inside (λ host. with_table host (routes_without host.host.inner.routes cidr)))
        handle.old.inside) }
{
    let network = match cidr(network, prefix) {
        Ok(network) => network,
        Err(code) => return code.number(),
    };
    let Some(mut host) = handle.take(alloc) else {
        return NO_HOST;
    };
    let answer = host.route_remove(network);
    handle.put(host);
    done(answer)
}

/// Listens to this multicast group from now on, and tells of it.
#[unsafe(no_mangle)]
pub extern "C" fn zv_group_join(alloc: Global, handle: &mut Handle, group: &Address) -> u32
    ensures answer { result ≡
        checked_answer (required_in group.now) (λ to. answer_by handle.old.inside (λ host. group_answer (host_join_refusal host.host to))) }
    ensures after { handle.new.inside ≡
        checked (required_in group.now)
        (λ to. after_by handle.old.inside (λ host. record host { host = with_joined host.host to }))
        handle.old.inside }
{
    let group = match required(group) {
        Ok(group) => group,
        Err(code) => return code.number(),
    };
    let Some(mut host) = handle.take(alloc) else {
        return NO_HOST;
    };
    let answer = host.group_join(group);
    handle.put(host);
    done(answer)
}

/// Listens to this multicast group no longer, and tells of that.
#[unsafe(no_mangle)]
pub extern "C" fn zv_group_leave(alloc: Global, handle: &mut Handle, group: &Address) -> u32
    ensures answer { result ≡
        checked_answer (required_in group.now) (λ to. answer_by handle.old.inside (λ host. group_answer (leave_refusal to))) }
    ensures after { handle.new.inside ≡
        checked (required_in group.now)
        (λ to. after_by handle.old.inside (λ host. record host { host = with_left host.host to }))
        handle.old.inside }
{
    let group = match required(group) {
        Ok(group) => group,
        Err(code) => return code.number(),
    };
    let Some(mut host) = handle.take(alloc) else {
        return NO_HOST;
    };
    let answer = host.group_leave(group);
    handle.put(host);
    done(answer)
}

/// Sets the hardware address's address.
#[unsafe(no_mangle)]
pub extern "C" fn zv_host_set_hardware(
    alloc: Global,
    handle: &mut Handle,
    hardware: &Hardware,
) -> u32
    ensures answer { result ≡
        answer_by handle.old.inside
        (λ host. hardware_answer (hardware_refusal host.host.inner.hardware (HardwareAddr.Ethernet (record { 0 = hardware.now.bytes })))) }
    ensures after { handle.new.inside ≡
        after_by handle.old.inside
        (λ host. record host { host = with_inner host.host (with_hardware host.host.inner (HardwareAddr.Ethernet (record { 0 = hardware.now.bytes }))) }) }
{
    let Some(mut host) = handle.take(alloc) else {
        return NO_HOST;
    };
    let bytes = hardware.bytes;
    let answer = host.set_hardware(EthernetAddress(bytes));
    handle.put(host);
    done(answer)
}

/// Sets the hardware address's address, and tells all neighbours of it.
#[unsafe(no_mangle)]
pub extern "C" fn zv_host_update_hardware(
    alloc: Global,
    handle: &mut Handle,
    hardware: &Hardware,
    told: &mut usize,
) -> u32
    ensures { Gives (UpdatesHardware (record { 0 = hardware.now.bytes })) handle.old.inside result told.old told.new handle.new.inside }
{
    let Some(mut host) = handle.take(alloc) else {
        return NO_HOST;
    };
    let bytes = hardware.bytes;
    let answer = host.update_hardware(EthernetAddress(bytes));
    handle.put(host);
    given(answer, told)
}

/// Whether every address counts as an own one.
#[unsafe(no_mangle)]
pub extern "C" fn zv_host_set_any_ip(alloc: Global, handle: &mut Handle, enabled: u8) -> u32
    ensures answer { result ≡ answer_by handle.old.inside (λ host. all_done) }
    ensures after { handle.new.inside ≡
        after_by handle.old.inside (λ host. record host { host = with_inner host.host (with_any_ip host.host.inner (is_on enabled)) }) }
{
    let Some(mut host) = handle.take(alloc) else {
        return NO_HOST;
    };
    host.set_any_ip(enabled != 0);
    handle.put(host);
    OK
}

/// How many datagrams can come in pieces at a time.
#[unsafe(no_mangle)]
pub extern "C" fn zv_host_set_reassembly_slots(
    alloc: Global,
    handle: &mut Handle,
    count: usize,
) -> u32
    ensures { Acts (SetsSlots count) handle.old.inside result handle.new.inside }
{
    let Some(mut host) = handle.take(alloc) else {
        return NO_HOST;
    };
    let answer = host.set_reassembly_slots(count);
    handle.put(host);
    done(answer)
}

/// How long the pieces of a datagram are waited for.
#[unsafe(no_mangle)]
pub extern "C" fn zv_host_set_reassembly_timeout(
    alloc: Global,
    handle: &mut Handle,
    micros: u64,
) -> u32
    ensures answer { result ≡ answer_by handle.old.inside (λ host. all_done) }
    ensures after { handle.new.inside ≡ after_by handle.old.inside (λ host. record host { host = with_timeout host.host micros }) }
{
    let Some(mut host) = handle.take(alloc) else {
        return NO_HOST;
    };
    host.set_reassembly_timeout(Duration::from_micros(micros));
    handle.put(host);
    OK
}

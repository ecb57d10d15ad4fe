//! The numbers of an interface, what a default is, how an interface begins, and the texts of its errors.
ghost use Rattle.std.specs.Prelude.{◌≡◌, false, pos, ◌∷◌, [], None, Some, replicate, codes};
ghost use Rattle.ip_wire.specs.Cidr.{IsCidr};
ghost use Rattle.ip_wire.specs.HardwareAddress.TheVariants as Hardware;
ghost use Rattle.ip_wire.specs.IpAddress.TheVariants as Ip;
ghost use Rattle.iface_tables.specs.Neighbor as Neighbors;
ghost use Rattle.iface_egress.specs.Meta as Metas;
ghost use Rattle.iface_egress.specs.Plan.{longest_cut};

use iface_egress::{MAX_CUT_PAYLOAD, Meta};
use iface_tables::{
    AssemblerError, AssemblerFullError, Config, Neighbor, Route, RouteTableFull, TABLE_ROOM,
};
use ip_wire::HardwareAddress;
use std::fmt::Display;

/// Law: how many entries a table has, how long a datagram's payload may be that goes in fragments, and in microseconds how long a
/// neighbour is believed, and how long after a question no other is transmitted: a minute and a second.
pub fn interface_numbers()
    ensures room { TABLE_ROOM ≡ 4 }
    ensures longest_cut { MAX_CUT_PAYLOAD ≡ 4076 }
    ensures longest_datagram { longest_cut ≡ 4096 }
    ensures lifetime { Neighbors.entry_lifetime ≡ 60000000 }
    ensures silence { Neighbors.silent_time ≡ 1000000 }
    ensures socket_silence { Metas.silent_time ≡ 1000000 }
{}

/// Law: by default a socket waits for no neighbour. A neighbour is 0.0.0.0 without a hardware address, believed until the start;
/// a route takes all IPv4 packets to 0.0.0.0, forever.
pub fn interface_defaults()
    ensures meta { (m : Meta) → ⟦<Meta as Default>⟧.is_default m → m.waiting ≡ None }
    ensures address { (n : Neighbor) → ⟦<Neighbor as Default>⟧.is_default n → n.protocol_addr ≡ Ip.Ipv4 (record { 0 = replicate 4 0 }) }
    ensures hardware { (n : Neighbor) → ⟦<Neighbor as Default>⟧.is_default n → n.hardware_addr ≡ Hardware.Ip }
    ensures expired { (n : Neighbor) → ⟦<Neighbor as Default>⟧.is_default n → n.expires_at ≡ pos 0 }
    ensures tcb { (r : Route) → ⟦<Route as Default>⟧.is_default r → IsCidr r.cidr (0 ∷ 0 ∷ 0 ∷ 0 ∷ []) 0 }
    ensures router { (r : Route) → ⟦<Route as Default>⟧.is_default r → r.via_router ≡ Ip.Ipv4 (record { 0 = replicate 4 0 }) }
    ensures preferred { (r : Route) → ⟦<Route as Default>⟧.is_default r → r.preferred_until ≡ None }
    ensures forever { (r : Route) → ⟦<Route as Default>⟧.is_default r → r.expires_at ≡ None }
{}

/// Law: the texts of errors.
pub fn interface_texts()
    ensures full { (e : RouteTableFull) → ⟦<RouteTableFull as Display>⟧.output e ≡ Some (codes "Route table full") }
    ensures fragment { (e : AssemblerError) → ⟦<AssemblerError as Display>⟧.output e ≡ Some (codes "AssemblerError") }
    ensures assemblers { (e : AssemblerFullError) → ⟦<AssemblerFullError as Display>⟧.output e ≡ Some (codes "AssemblerFullError") }
{}

/// The configuration with this hardware address, random words of the seed 0, tables of four neighbours and four routes, smoltcp's ways, eight
/// groups at most, and no reports of them.
pub fn configured(hardware_addr: HardwareAddress) -> Config
    ensures { result ≡
        record {
          random_seed = 0;
          hardware_addr = hardware_addr;
          isn_key = None;
          neighbor_cache_count = 4;
          max_route_count = 4;
          host_requirements = false;
          multicast_reports = false;
          max_group_count = 8;
        } }
{
    Config::new(hardware_addr)
}

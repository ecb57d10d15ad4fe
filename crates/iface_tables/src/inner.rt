//! A host alongside its sockets and its slots: what it answers to sockets, and where its packets go.
ghost use Rattle.std.specs.Prelude.{◌≡◌, ◌≤◌, if◌then◌else◌, drop, length, not, is_ok, Some, IfOk};
ghost use Rattle.std.specs.List.{list_any};
ghost use Rattle.std.specs.Fn.{FnOnceReturnsAtMut};
ghost use Rattle.net_base.specs.Time.{IsMoment};
ghost use Rattle.arrayvec.specs.ArrayVec.{ArrayVec as Items};
ghost use Rattle.ip_wire.specs.IpCidr.{IpCidr};
ghost use Rattle.ip_wire.specs.AddressTests.{is_loopback};
ghost use Rattle.iface_tables.specs.Route.{RoutesValue};
ghost use Rattle.iface_tables.specs.Source.{first_v4, first_v6, source_v4, source_v6};
ghost use Rattle.iface_tables.specs.Neighbor as Neighbors;
ghost use Rattle.iface_tables.specs.PathMtu.{some_count};
ghost use Rattle.iface_tables.specs.Inner.{is_local, is_address_of, is_on_local_network, is_this, is_broadcast_of, is_local_broadcast, is_all_systems};
ghost use Rattle.iface_tables.specs.Inner.{is_all_nodes, solicits, solicits_cidr, is_local_solicited_node, is_probed, is_member_of, is_loopback_in};
ghost use Rattle.ip_wire.specs.Ip as Ips;
ghost use Rattle.socket_context.specs.Packet.{packet_value, payload_len, PayloadFits};
ghost use Rattle.iface_tables.specs.Parking.{empty_parking, room_for_many};
ghost use Rattle.iface_tables.specs.Inner.{silence_of, asked_of, parked_instant, with_packet_parked};
ghost use Rattle.iface_tables.specs.Inner.{is_limited_broadcast, is_nameless, is_local_source, is_mapped, never_comes};
ghost use Rattle.iface_tables.specs.Inner.{is_for_us, is_loopback_of, is_foreign_loopback, may_be_source, next_hop, group_hardware_addr, link_by, link_address};
ghost use Rattle.iface_tables.specs.Inner.{is_known_hop, has_neighbor, is_in_link_prefix, is_on_link, at_instant};
ghost use Rattle.iface_tables.specs.Inner.{with_next_ident, with_neighbor, with_renewal, with_request, awaited_hop};
ghost use Rattle.iface_tables.specs.Inner.{is_crowded, next_request, may_tell, with_error, mtu_to, path_end, with_path};
ghost use Rattle.iface_tables.specs.Settings.{refusal, made, unless, first_ident, hardware_refusal, with_hardware, is_stranger, with_addresses};
ghost use Rattle.iface_tables.specs.Groups.{join_refusal, leave_refusal};
ghost use Rattle.iface_tables.specs.Settings.{with_group, without_group, with_any_ip, routes_of, with_route_table, used, MadeUnless};

use crate::addresses::{
    group_hardware_addr, has_loopback_of, has_stranger, is_broadcast_in, is_in_link_prefix,
    is_in_list, is_limited_broadcast, is_loopback, is_loopback_in, is_mapped, solicits,
    solicits_cidr,
};
use crate::config::{
    Config, HardwareAddrError, NewError, NotUnicast, TABLE_ROOM, cache_for, parking_for, refusal,
};
use crate::groups::{Groups, MulticastError, leave_refusal};
use crate::link::{LinkAddress, link_by};
use crate::neighbor::{Answer, Cache, SILENT_MILLIS};
use crate::parking::{ParkedHeader, Parking};
use crate::path_mtu::Paths;
use crate::route::Routes;
use crate::{error_limit, source};
use arrayvec::ArrayVec;
use ip_wire::{
    AddressExt, EthernetAddress, HardwareAddress, IPV4_MULTICAST_ALL_SYSTEMS,
    IPV6_LINK_LOCAL_ALL_NODES, IpAddress, IpCidr, Ipv4Address, Ipv6Address,
};
use net_base::{ChecksumCapabilities, DeviceCapabilities, Duration, Instant, Rand};
use socket_context::addresses::{is_multicast, is_unspecified};
use socket_context::{Context, Packet};
use std::alloc::Global;
use std::marker::Model;
use std::mem;

/// A host alongside its sockets and its slots.
#[derive(Debug, Drop)]
pub struct InterfaceInner {
    instant: Instant,
    rand: Rand,
    hardware_addr: HardwareAddress,
    ip_mtu: usize,
    checksum: ChecksumCapabilities,
    isn_key: Option<[u8; 16]>,
    ip_addrs: ArrayVec<IpCidr, TABLE_ROOM>,
    any_ip: bool,
    groups: Groups,
    routes: Routes,
    neighbor_cache: Cache,
    ipv4_id: u16,
    errors_until: Instant,
    paths: Paths,
    is_fresh: bool,
    host_requirements: bool,
    parking: Parking,
}

impl Model for InterfaceInner {
    ghost use Rattle.std.specs.Prelude.{◌≤◌};
    ghost use Rattle.net_base.specs.Time.{IsMoment};
    ghost use Rattle.iface_tables.specs.Inner.{InnerValue};

    ghost Value = { InnerValue };

    ghost view = { λ i. record {
      instant = i.instant;
      random = i.rand;
      hardware = i.hardware_addr;
      mtu = i.ip_mtu;
      checksums = i.checksum;
      isn_key = i.isn_key;
      addresses =
          i.ip_addrs.items;
      any_ip = i.any_ip;
      groups = i.groups;
      routes = i.routes.entries;
      route_room = i.routes.room;
      neighbors = i.neighbor_cache;
      ident = i.ipv4_id;
      errors_until = i.errors_until;
      paths = i.paths;
      initial = i.is_fresh;
      host_requirements = i.host_requirements;
      parking = i.parking;
    } };

    ghost invariant = { λ i. IsMoment i.instant × (576 ≤ i.ip_mtu) × (i.ip_mtu ≤ 65535) };
}

impl InterfaceInner {
    /// A host of this configuration at a device, from this instant on; else the first reason why there is none.
    pub fn new(
        alloc: Global,
        config: &Config,
        device: &DeviceCapabilities,
        now: Instant,
    ) -> Result<InterfaceInner, NewError>
        ensures { MadeUnless (refusal config.now device.now now) (made config.now device.now now) result }
    {
        if let Some(error) = refusal(config, device, now) {
            return Err(error);
        }
        let Ok(routes) = Routes::new(alloc, config.max_route_count) else {
            return Err(NewError::Memory);
        };
        let Ok(neighbor_cache) = cache_for(alloc, config) else {
            return Err(NewError::Memory);
        };
        let Ok(parking) = parking_for(alloc, config) else {
            return Err(NewError::Memory);
        };
        let mut rand = Rand::new(config.random_seed);
        let word = rand.rand_u16();
        Ok(InterfaceInner {
            instant: now,
            rand,
            hardware_addr: config.hardware_addr,
            ip_mtu: device.ip_mtu(),
            checksum: device.checksum,
            isn_key: config.isn_key,
            ip_addrs: ArrayVec::new(),
            any_ip: false,
            groups: Groups::new(config.max_group_count),
            routes,
            neighbor_cache,
            ipv4_id: if word == 0 { 1 } else { word },
            errors_until: Instant::ZERO,
            paths: Paths::new(),
            is_fresh: true,
            host_requirements: config.host_requirements,
            parking,
        })
    }

    /// The hardware address, `Ip` on a medium that has none.
    pub fn hardware_addr(&self) -> HardwareAddress
        ensures { result ≡ self.now.hardware }
    {
        self.hardware_addr
    }

    /// The longest IP packet of a frame.
    pub fn mtu(&self) -> usize
        ensures value { result ≡ self.now.mtu }
        ensures low { 576 ≤ result }
        ensures high { result ≤ 65535 }
    {
        self.ip_mtu
    }

    /// The identification of the next IPv4 datagram.
    pub fn ident(&self) -> u16
        ensures { result ≡ self.now.ident }
    {
        self.ipv4_id
    }

    /// Whether nothing ran yet: no call that polls, and no setting of `any_ip` or of the time of reassembly.
    pub fn is_fresh(&self) -> bool
        ensures { result ≡ self.now.initial }
    {
        self.is_fresh
    }

    /// Whether the host does what RFC 1122 and the standards after it ask of a host on a network of many, where smoltcp does otherwise.
    pub fn host_requirements(&self) -> bool
        ensures { result ≡ self.now.host_requirements }
    {
        self.host_requirements
    }

    /// The local addresses with their networks.
    pub fn ip_addrs(&self) -> &[IpCidr]
        ensures { result.now ≡ self.now.addresses }
    {
        self.ip_addrs.as_slice()
    }

    /// The first IPv4 address.
    pub fn ipv4_addr(&self) -> Option<Ipv4Address>
        ensures { result ≡ first_v4 self.now.addresses }
    {
        source::first_ipv4(self.ip_addrs.as_slice())
    }

    /// The first IPv6 address.
    pub fn ipv6_addr(&self) -> Option<Ipv6Address>
        ensures { result ≡ first_v6 self.now.addresses }
    {
        source::first_ipv6(self.ip_addrs.as_slice())
    }

    /// The address that an IPv4 packet to this destination is sent from, if there is one.
    pub fn get_source_address_ipv4(&self, dst_addr: &Ipv4Address) -> Option<Ipv4Address>
        ensures { result ≡ source_v4 self.now.addresses dst_addr.now }
    {
        source::source_ipv4(self.ip_addrs.as_slice(), dst_addr)
    }

    /// The address that an IPv6 packet to this destination is sent from.
    pub fn get_source_address_ipv6(&self, dst_addr: &Ipv6Address) -> Ipv6Address
        ensures { result ≡ source_v6 self.now.addresses dst_addr.now }
    {
        source::source_ipv6(self.ip_addrs.as_slice(), dst_addr)
    }

    /// Whether every address counts as an own one.
    pub fn any_ip(&self) -> bool
        ensures { result ≡ self.now.any_ip }
    {
        self.any_ip
    }

    /// The routes.
    pub fn routes(&self) -> &Routes
        ensures { result.now ≡ routes_of self.now }
    {
        &self.routes
    }

    /// Whether this is the solicited-node address of an own IPv6 address but `::1`.
    pub fn has_solicited_node(&self, addr: &Ipv6Address) -> bool
        ensures { result ≡ is_local_solicited_node self.now addr.now }
    {
        self.ip_addrs
            .as_slice()
            .iter()
            .any(|cidr| solicits_cidr(addr, cidr))
    }

    /// Whether who looks for an address in use asks by this group for this address, which is an own one.
    pub fn is_probed(&self, group: &Ipv6Address, address: &Ipv6Address) -> bool
        ensures { result ≡ is_probed self.now group.now address.now }
    {
        address.x_is_unicast()
            && !address.is_loopback()
            && solicits(group, address)
            && is_in_list(self.ip_addrs.as_slice(), &IpAddress::Ipv6(*address))
    }

    /// Whether the host listens to this group: all systems, all nodes, an own solicited-node address, or one that was joined.
    pub fn has_multicast_group(&self, addr: &IpAddress) -> bool
        ensures { result ≡ is_member_of self.now addr.now }
    {
        match addr {
            IpAddress::Ipv4(group) => {
                *group == IPV4_MULTICAST_ALL_SYSTEMS || self.groups.has(addr)
            }
            IpAddress::Ipv6(group) => {
                *group == IPV6_LINK_LOCAL_ALL_NODES
                    || self.has_solicited_node(group)
                    || self.groups.has(addr)
            }
        }
    }

    /// Whether the address is in a local network.
    pub fn in_same_network(&self, addr: &IpAddress) -> bool
        ensures { result ≡ is_on_local_network self.now addr.now }
    {
        self.ip_addrs
            .as_slice()
            .iter()
            .any(|cidr| cidr.contains_addr(addr))
    }

    /// Whether a packet for this destination is for the host.
    pub fn is_for_us(&self, addr: &IpAddress) -> bool
        ensures { result ≡ is_for_us self.now addr.now }
    {
        self.has_ip_addr(addr)
            || self.has_multicast_group(addr)
            || self.is_broadcast(addr)
            || is_loopback_in(addr)
    }

    /// Whether the address is a neighbour's: it is in a local network, or a link-local one.
    pub fn is_on_link(&self, addr: &IpAddress) -> bool
        ensures { result ≡ is_on_link self.now addr.now }
    {
        self.in_same_network(addr) || is_in_link_prefix(addr)
    }

    /// Where a packet for this destination goes next: to itself on the link, else to a router.
    pub fn route(&self, addr: &IpAddress) -> Option<IpAddress>
        ensures { result ≡ next_hop self.now addr.now }
    {
        if self.is_on_link(addr) {
            Some(*addr)
        } else {
            self.routes.lookup(addr, self.instant)
        }
    }

    /// Whether there is a next hop for this destination, whose hardware address is known.
    pub fn has_neighbor(&self, addr: &IpAddress) -> bool
        ensures { result ≡ has_neighbor self.now addr.now }
    {
        match self.route(addr) {
            Some(hop) => self.is_known(&hop),
            None => false,
        }
    }

    /// Whether the hardware address of a next hop is known.
    fn is_known(&self, hop: &IpAddress) -> bool
        ensures { result ≡ is_known_hop self.now (Some hop.now) }
    {
        match self.hardware_addr {
            HardwareAddress::Ip => true,
            HardwareAddress::Ethernet(_) => self.neighbor_cache.lookup(hop, self.instant).found(),
        }
    }
}

/// Addresses that stay in a host, and sources.
impl InterfaceInner {
    /// Whether this is a loopback address of a family of which the host has none.
    pub fn is_foreign_loopback(&self, addr: &IpAddress) -> bool
        ensures { result ≡ is_foreign_loopback self.now addr.now }
    {
        is_loopback(addr) && !has_loopback_of(self.ip_addrs.as_slice(), addr)
    }

    /// Whether a packet for this destination may come from this address.
    pub fn may_be_source(&self, source: &IpAddress, destination: &IpAddress) -> bool
        ensures { result ≡ may_be_source self.now source.now destination.now }
    {
        !(self.is_broadcast(source)
            || is_multicast(source)
            || self.is_nameless(source, destination))
            && (!is_loopback(source) || is_loopback(destination))
    }

    /// Whether a packet from the unspecified address to this one would say nothing of who sends it, which a host on a network of many
    /// never does.
    fn is_nameless(&self, source: &IpAddress, destination: &IpAddress) -> bool
        ensures { result ≡ is_nameless self.now source.now destination.now }
    {
        is_unspecified(source) && self.host_requirements && !is_limited_broadcast(destination)
    }

    /// Whether no packet between these addresses comes over a device, on a network of many: it says that it is from here, or one of
    /// them stands for an IPv4 address.
    pub fn never_comes(&self, source: &IpAddress, destination: &IpAddress) -> bool
        ensures { result ≡ never_comes self.now source.now destination.now }
    {
        self.host_requirements
            && (self.is_local_source(source) || is_mapped(source) || is_mapped(destination))
    }

    /// Whether this is a local address, but the unspecified one.
    fn is_local_source(&self, source: &IpAddress) -> bool
        ensures { result ≡ is_local_source self.now source.now }
    {
        !is_unspecified(source) && is_in_list(self.ip_addrs.as_slice(), source)
    }
}

/// The egress path.
impl InterfaceInner {
    /// Where the frame of a packet for this destination goes.
    pub fn link_address(&self, addr: &IpAddress) -> LinkAddress
        ensures { result ≡ link_address self.now addr.now }
    {
        if let HardwareAddress::Ip = self.hardware_addr {
            return LinkAddress::Known(HardwareAddress::Ip);
        }
        if self.is_broadcast(addr) {
            return LinkAddress::Known(HardwareAddress::Ethernet(EthernetAddress::BROADCAST));
        }
        if is_multicast(addr) {
            return LinkAddress::Known(HardwareAddress::Ethernet(group_hardware_addr(addr)));
        }
        match self.route(addr) {
            Some(hop) => self.link_to(&hop),
            None => LinkAddress::NoRoute,
        }
    }

    /// The hardware address of a next hop, or why there is none yet.
    fn link_to(&self, hop: &IpAddress) -> LinkAddress
        ensures { result ≡ link_by (Neighbors.lookup (asked_of self.now hop.now) hop.now self.now.instant) hop.now }
    {
        link_by(self.lookup_hop(hop), hop)
    }

    /// What is known of a next hop, where the silence counts that is its own.
    fn lookup_hop(&self, hop: &IpAddress) -> Answer
        ensures { result ≡ Neighbors.lookup (asked_of self.now hop.now) hop.now self.now.instant }
    {
        let silent_until = self.silence_of(hop);
        self.neighbor_cache
            .lookup_silent(hop, self.instant, silent_until)
    }

    /// Until when no request for an address goes: each has a silence of its own on a network of many.
    fn silence_of(&self, addr: &IpAddress) -> Instant
        ensures { result ≡ silence_of self.now addr.now }
    {
        if !self.host_requirements {
            return self.neighbor_cache.silent_until();
        }
        self.neighbor_cache.own_silence(addr)
    }

    /// The packets that wait for their next hops.
    pub fn parking(&self) -> &Parking
        ensures { result.now ≡ self.now.parking }
    {
        &self.parking
    }

    /// Lets a packet wait for its next hop. Without a route it is dropped.
    pub fn park(&mut self, packet: &Packet<'_>)
        requires measured { Ips.payload_len_of (packet_value packet.now).header ≡ payload_len (packet_value packet.now).payload }
        requires fits { Ips.Fits (packet_value packet.now).header → PayloadFits (packet_value packet.now).header (packet_value packet.now).payload }
        ensures { self.new ≡ with_packet_parked self.old (packet_value packet.now) }
    {
        if let Some(hop) = self.route(&packet.ip_repr().dst_addr()) {
            self.parking.park(hop, packet, &self.checksum);
        }
    }

    /// Gives the packets that wait away, until they are given back.
    pub fn lend_parking(&mut self) -> Parking
        ensures parking { result ≡ self.old.parking }
        ensures after { self.new ≡ record self.old { parking = empty_parking 0 } }
    {
        let alloc = self.parking.allocator();
        mem::replace(&mut self.parking, Parking::without_room(alloc))
    }

    /// The packets that wait from now on.
    pub fn set_parking(&mut self, parking: Parking)
        ensures { self.new ≡ record self.old { parking = parking } }
    {
        self.parking = parking;
    }

    /// When something is to be done about a packet that waits: when its next hop may be asked for again, else at once.
    pub fn parked_instant(&self, packet: &ParkedHeader) -> Instant
        ensures { result ≡ parked_instant self.now packet.now }
    {
        match self.link_address(&packet.header.dst_addr()) {
            LinkAddress::Silent => self.silence_of(&packet.hop),
            _ => Instant::ZERO,
        }
    }

    /// What is known of a neighbour now.
    pub fn lookup_neighbor(&self, protocol_addr: &IpAddress) -> Answer
        ensures { result ≡ Neighbors.lookup self.now.neighbors protocol_addr.now self.now.instant }
    {
        self.neighbor_cache.lookup(protocol_addr, self.instant)
    }

    /// Enters a neighbour that was heard now.
    pub fn fill_neighbor(&mut self, protocol_addr: IpAddress, hardware_addr: HardwareAddress)
        ensures { self.new ≡ with_neighbor self.old protocol_addr hardware_addr }
    {
        self.neighbor_cache
            .fill(protocol_addr, hardware_addr, self.instant);
    }

    /// Believes a neighbour again from which a packet came now.
    pub fn refresh_neighbor(&mut self, protocol_addr: IpAddress, hardware_addr: HardwareAddress)
        ensures { self.new ≡ with_renewal self.old protocol_addr hardware_addr }
    {
        self.neighbor_cache
            .reset_expiry_if_existing(protocol_addr, hardware_addr, self.instant);
    }

    /// Counts a request for a neighbour that goes now.
    pub fn request_neighbor(&mut self, protocol_addr: IpAddress)
        ensures { self.new ≡ with_request self.old protocol_addr }
    {
        self.neighbor_cache.request(protocol_addr, self.instant);
    }

    /// The next hop that a packet for this destination waits for, if its hardware address isn't known, and it doesn't count as without
    /// answer.
    pub fn awaited_hop(&self, addr: &IpAddress) -> Option<IpAddress>
        ensures { result ≡ awaited_hop self.now addr.now }
    {
        let hop = self.route(addr)?;
        match self.neighbor_cache.lookup(&hop, self.instant) {
            Answer::NotFound | Answer::RateLimited => Some(hop),
            Answer::Found(_) | Answer::Unanswered => None,
        }
    }

    /// Until when the last request for a neighbour is to be answered, if it is asked for.
    pub fn last_request(&self, protocol_addr: &IpAddress) -> Option<Instant>
        ensures { result ≡ Neighbors.last_request self.now.neighbors protocol_addr.now }
    {
        self.neighbor_cache.last_request(protocol_addr)
    }

    /// Whether the host asks for as many neighbours as it keeps count of, and others wait for their turn.
    pub fn is_crowded(&self) -> bool
        ensures { result ≡ is_crowded self.now }
    {
        !self.host_requirements && self.neighbor_cache.is_crowded()
    }

    /// When a neighbour may be asked for again: at the end of the silence, else in a second.
    pub fn next_request(&self) -> Instant
        ensures { result ≡ next_request self.now }
    {
        let silent_until = self.neighbor_cache.silent_until();
        if self.instant < silent_until {
            silent_until
        } else {
            self.instant + Duration::from_millis(SILENT_MILLIS)
        }
    }

    /// Takes the identification of a datagram.
    pub fn take_ident(&mut self) -> u16
        ensures value { result ≡ self.old.ident }
        ensures after { self.new ≡ with_next_ident self.old }
    {
        let ident = self.ipv4_id;
        self.ipv4_id = ident.wrapping_add(1);
        ident
    }
}

/// Errors and resets that answer what nobody takes.
impl InterfaceInner {
    /// Counts one that goes now, if one may, and says so.
    pub fn count_error(&mut self) -> bool
        ensures may { result ≡ may_tell self.old }
        ensures after { self.new ≡ if may_tell self.old then with_error self.old else self.old }
    {
        if !error_limit::may_answer(self.errors_until, self.instant) {
            return false;
        }
        self.errors_until = error_limit::answered_at(self.errors_until, self.instant);
        true
    }
}

/// Paths.
impl InterfaceInner {
    /// How long a packet to this destination may be.
    #[tactic(auto, using(crate::proofs::PathMtu::mtu_low, crate::proofs::PathMtu::mtu_within))]
    pub fn mtu_to(&self, addr: &IpAddress) -> usize
        ensures value { result ≡ mtu_to self.now addr.now }
        ensures low { 576 ≤ result }
        ensures high { result ≤ 65535 }
    {
        self.paths.mtu_towards(addr, self.instant, self.ip_mtu)
    }

    /// When what is known of the path to this destination ends, if something is.
    pub fn path_end(&self, addr: &IpAddress) -> Option<Instant>
        ensures { result ≡ path_end self.now addr.now }
    {
        self.paths.end_towards(addr, self.instant)
    }

    /// Whether something is known of some path.
    pub fn knows_a_path(&self) -> bool
        ensures { result ≡ some_count self.now.paths self.now.instant }
    {
        self.paths.some_count(self.instant)
    }

    /// Takes in that the path to this destination carries packets of so many bytes.
    pub fn lower_path(&mut self, addr: IpAddress, told: usize)
        ensures { self.new ≡ with_path self.old addr told }
    {
        self.paths.lower(addr, told, self.instant, self.ip_mtu);
    }
}

/// Settings.
impl InterfaceInner {
    /// Begins a call that polls, at this instant.
    pub fn set_now(&mut self, now: Instant)
        requires { IsMoment now }
        ensures { self.new ≡ at_instant now self.old }
    {
        self.instant = now;
        self.is_fresh = false;
    }

    /// Something was set or ran.
    pub fn end_initial(&mut self)
        ensures { self.new ≡ used self.old }
    {
        self.is_fresh = false;
    }

    /// Sets the hardware address, if the medium has such addresses and it is one hardware address's.
    pub fn set_hardware_addr(&mut self, addr: HardwareAddress) -> Result<(), HardwareAddrError>
        ensures answer { result ≡ unless (hardware_refusal self.old.hardware addr) tt }
        ensures after { self.new ≡ with_hardware self.old addr }
    {
        match hardware_refusal(&self.hardware_addr, &addr) {
            Some(error) => Err(error),
            None => {
                self.hardware_addr = addr;
                Ok(())
            }
        }
    }

    /// Sets whether every address counts as an own one.
    pub fn set_any_ip(&mut self, any_ip: bool)
        ensures { self.new ≡ with_any_ip self.old any_ip }
    {
        self.any_ip = any_ip;
        self.is_fresh = false;
    }

    /// Listens to this group from now on.
    pub fn join_multicast_group(&mut self, addr: IpAddress) -> Result<(), MulticastError>
        ensures answer { result ≡ unless (join_refusal self.old.groups addr) tt }
        ensures after { self.new ≡ with_group self.old addr }
    {
        self.groups.join(addr)?;
        self.is_fresh = false;
        Ok(())
    }

    /// Listens to this group no longer.
    pub fn leave_multicast_group(&mut self, addr: &IpAddress) -> Result<(), MulticastError>
        ensures answer { result ≡ unless (leave_refusal addr.now) tt }
        ensures after { self.new ≡ without_group self.old addr.now }
    {
        match leave_refusal(addr) {
            Some(error) => Err(error),
            None => {
                self.groups.leave(addr);
                Ok(())
            }
        }
    }

    /// Sets the local addresses and forgets every neighbour, if each is one host's or unspecified.
    pub fn set_ip_addrs(&mut self, addrs: ArrayVec<IpCidr, TABLE_ROOM>) -> Result<(), NotUnicast>
        ensures ok { is_ok result ≡ not (list_any is_stranger addrs.items) }
        ensures after { self.new ≡ with_addresses self.old addrs.items }
    {
        if has_stranger(addrs.as_slice()) {
            return Err(NotUnicast);
        }
        self.ip_addrs = addrs;
        self.neighbor_cache.flush();
        Ok(())
    }

    /// Sets the local addresses to what `f` makes of a copy of them, as `set_ip_addrs` does.
    pub fn update_ip_addrs<F: FnOnce(&mut ArrayVec<IpCidr, TABLE_ROOM>)>(
        &mut self,
        f: F,
    ) -> Result<(), NotUnicast>
        requires { F.IsAlwaysCallable f }
        ensures { (before : Items IpCidr) × (after : Items IpCidr) × (before.items ≡ self.old.addresses)
            × FnOnceReturnsAtMut F.FnOnce f before tt after
            × (is_ok result ≡ not (list_any is_stranger after.items)) × (self.new ≡ with_addresses self.old after.items) }
    {
        let mut addrs = copied(self.ip_addrs.as_slice());
        f(&mut addrs);
        self.set_ip_addrs(addrs)
    }

    /// Lends the routes to `f`.
    pub fn update_routes<R: Drop, F: FnOnce(&mut Routes) -> R>(&mut self, f: F) -> R
        requires { F.IsAlwaysCallable f }
        ensures { (before : RoutesValue) × (after : RoutesValue) × (before ≡ routes_of self.old)
            × FnOnceReturnsAtMut F.FnOnce f before result after × (self.new ≡ with_route_table self.old after) }
    {
        f(&mut self.routes)
    }
}

/// What sockets see.
impl Context for InterfaceInner {
    ghost use Rattle.std.specs.Prelude.{refl};
    ghost use Rattle.iface_tables.specs.Inner.{context_of, drawn};

    ghost context = { context_of };

    ghost drawn = { drawn };

    fn now(&self) -> Instant {
        self.instant
    }

    fn has_ip_addr(&self, addr: &IpAddress) -> bool {
        self.any_ip || is_in_list(self.ip_addrs.as_slice(), addr)
    }

    fn get_source_address(&self, dst_addr: &IpAddress) -> Option<IpAddress> {
        source::source_for(self.ip_addrs.as_slice(), dst_addr)
    }

    fn is_broadcast(&self, addr: &IpAddress) -> bool {
        match addr {
            IpAddress::Ipv4(addr) => {
                addr.is_broadcast() || is_broadcast_in(self.ip_addrs.as_slice(), addr)
            }
            IpAddress::Ipv6(_) => false,
        }
    }

    fn ip_mtu(&self) -> usize {
        self.ip_mtu
    }

    fn checksum_caps(&self) -> ChecksumCapabilities {
        self.checksum
    }

    fn isn_key(&self) -> Option<[u8; 16]> {
        self.isn_key
    }

    fn rand_u32(&mut self) -> u32 {
        self.rand.rand_u32()
    }

    ghost drawn_context = { λ i. refl };
}

/// Why this hardware address isn't set in place of that one.
fn hardware_refusal(local: &HardwareAddress, address: &HardwareAddress) -> Option<HardwareAddrError>
    ensures { result ≡ hardware_refusal local.now address.now }
{
    match (local, address) {
        (HardwareAddress::Ethernet(_), HardwareAddress::Ethernet(address)) => {
            if address.is_unicast() {
                None
            } else {
                Some(HardwareAddrError::NotUnicast)
            }
        }
        _ => Some(HardwareAddrError::Medium),
    }
}

/// A copy of the addresses.
fn copied(addresses: &[IpCidr]) -> ArrayVec<IpCidr, TABLE_ROOM>
    requires { length addresses.now ≤ TABLE_ROOM }
    ensures { result.items ≡ addresses.now }
{
    let mut copy = ArrayVec::new();
    let _ = copy.try_extend_from_slice(addresses);
    copy
}

//! The multicast groups that a host listens to because its user joined them (RFC 1112, section 7.1).
ghost use Rattle.std.specs.Prelude.{◌≡◌, ◌<◌, length, IfOk, IfErr};
ghost use Rattle.std.specs.List.{list_any};
ghost use Rattle.std.specs.Option.{ForSome};
ghost use Rattle.std.specs.Prelude.{position};
ghost use Rattle.iface_tables.specs.Settings.{unless};
ghost use Rattle.iface_tables.specs.Groups.{group_room, no_groups, is_all_systems, is_all_nodes, is_heard_by_all, is_of, is_joined, join_refusal, joined, leave_refusal, left};

use arrayvec::ArrayVec;
use ip_wire::{IPV4_MULTICAST_ALL_SYSTEMS, IPV6_LINK_LOCAL_ALL_NODES, IpAddress, Ipv4Address};
use socket_context::addresses::{is_multicast, is_same_address};
use std::marker::Model;
use thiserror::Error;

/// How many groups a host can join.
pub const GROUP_ROOM: usize = 8;

/// Why a multicast group isn't joined or left.
#[derive(Clone, Copy, Debug, PartialEq, Eq, Error)]
pub enum MulticastError {
    /// As many groups are joined as there is room for.
    #[error("group table full")]
    GroupTableFull,
    /// The address isn't a group's.
    #[error("unaddressable")]
    Unaddressable,
}

/// A group that was joined.
#[derive(Clone, Copy, Debug)]
pub struct Group {
    pub addr: IpAddress,
}

/// What stands in an unused place of a table.
impl Default for Group {
    ghost use Rattle.iface_tables.specs.Groups.{no_group};

    ghost is_default = { λ g. g ≡ no_group };

    fn default() -> Group {
        Group {
            addr: IpAddress::Ipv4(Ipv4Address::UNSPECIFIED),
        }
    }
}

/// The groups that were joined.
#[derive(Debug, Drop)]
pub struct Groups {
    entries: ArrayVec<Group, GROUP_ROOM>,
    /// How many may be joined, if there is room for them.
    most: usize,
}

impl Model for Groups {
    ghost use Rattle.iface_tables.specs.Groups.{GroupsValue};

    ghost Value = { GroupsValue };

    ghost view = { λ g. record { entries = g.entries.items; most = g.most } };
}

impl Groups {
    /// No group was joined, and so many may be.
    pub fn new(most: usize) -> Groups
        ensures { result ≡ no_groups most }
    {
        Groups {
            entries: ArrayVec::new(),
            most,
        }
    }

    /// Whether this group was joined. No address that is no group's was.
    pub fn has(&self, addr: &IpAddress) -> bool
        ensures { result ≡ is_joined self.now addr.now }
    {
        self.names(addr) && is_multicast(addr)
    }

    fn names(&self, addr: &IpAddress) -> bool
        ensures { result ≡ list_any (is_of addr.now) self.now.entries }
    {
        self.entries
            .as_slice()
            .iter()
            .any(|group| is_same_address(&group.addr, addr))
    }

    /// Joins this group, if it isn't there already and isn't one that every host listens to.
    pub fn join(&mut self, addr: IpAddress) -> Result<(), MulticastError>
        ensures answer { result ≡ unless (join_refusal self.old addr) tt }
        ensures joined { IfOk result (λ u. self.new ≡ joined self.old addr) }
        ensures refused { IfErr result (λ e. self.new ≡ self.old) }
    {
        if !is_multicast(&addr) {
            return Err(MulticastError::Unaddressable);
        }
        if is_heard_by_all(&addr) || self.names(&addr) {
            return Ok(());
        }
        if self.entries.is_full() || self.most <= self.entries.len() {
            return Err(MulticastError::GroupTableFull);
        }
        self.entries.push(Group { addr });
        Ok(())
    }

    /// Leaves this group, if it is there.
    pub fn leave(&mut self, addr: &IpAddress)
        ensures { self.new ≡ left self.old addr.now }
    {
        if let Some(at) = index_of(self.entries.as_slice(), addr) {
            self.entries.remove(at);
        }
    }
}

/// Where this group is.
fn index_of(groups: &[Group], addr: &IpAddress) -> Option<usize>
    ensures index { result ≡ position (is_of addr.now) groups.now }
    ensures in_range { ForSome result (λ at. at < length groups.now) }
{
    groups
        .iter()
        .position(|group| is_same_address(&group.addr, addr))
}

/// Whether every host listens to this group: all systems, or all nodes.
pub fn is_heard_by_all(addr: &IpAddress) -> bool
    ensures { result ≡ is_heard_by_all addr.now }
{
    match addr {
        IpAddress::Ipv4(group) => *group == IPV4_MULTICAST_ALL_SYSTEMS,
        IpAddress::Ipv6(group) => *group == IPV6_LINK_LOCAL_ALL_NODES,
    }
}

/// Why this group isn't left: it is no group.
pub fn leave_refusal(addr: &IpAddress) -> Option<MulticastError>
    ensures { result ≡ leave_refusal addr.now }
{
    if is_multicast(addr) {
        None
    } else {
        Some(MulticastError::Unaddressable)
    }
}

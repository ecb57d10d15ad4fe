//! What is to be told of a host's groups.
ghost use Rattle.std.specs.Prelude.{◌≡◌, ◌↔◌, ◌<◌, ◌≤◌, ◌^◌, IsTrue, IsErr, None, length};
ghost use Rattle.std.specs.List.{list_any};
ghost use Rattle.std.specs.Option.{ForSome};
ghost use Rattle.net_base.specs.RandomWords.{next_state, word};
ghost use Rattle.iface_groups.specs.Table.{group_room, entered_at};
ghost use Rattle.iface_reports.specs.Reports.{fresh, micros, mode_in, gap_of, joined_by, is_refused, without_strays, joined_for, joined_for_all, is_link_local_cidr, told_anew, followed};
ghost use Rattle.iface_reports.specs.Reports.{in_version, answered, after_hearing, after_hearing_if, reports_due, mode_number, solicited_node, IsShort};
ghost use Rattle.iface_reports.specs.Told.{after_report};
ghost use Rattle.iface_reports.specs.Heard.{heard_in};

use crate::heard::{Heard, heard_in};
use crate::rows;
use arrayvec::ArrayVec;
use iface_groups::{
    CompatibilityMode, GROUP_ROOM, GroupTableFull, Member, Querier, Row, forget_all, slot_of,
    soonest,
};
use iface_tables::InterfaceInner;
use ip_wire::{IpAddress, IpCidr, Ipv6Address};
use net_base::{Instant, Rand};
use socket_context::Context;
use std::marker::Model;

/// The second report of a change follows the first within so many microseconds, in IGMPv3 and MLDv2.
const LONGEST_GAP: u32 = 1_000_000;

/// The same in the older versions.
const LONGEST_GAP_OLDER: u32 = 10_000_000;

/// What is to be told of a host's groups.
#[derive(Debug, Drop)]
pub struct Reporter {
    rows: ArrayVec<Row, GROUP_ROOM>,
    igmp: Querier,
    mld: Querier,
    rand: Rand,
    link_local: bool,
}

impl Model for Reporter {
    ghost use Rattle.iface_reports.specs.Reports.{ReportsValue};

    ghost Value = { ReportsValue };

    ghost view = { λ r. record {
      rows = r.rows.items;
      igmp = r.igmp;
      mld = r.mld;
      random = r.rand;
      link_local = r.link_local;
    } };
}

impl Reporter {
    /// Nothing is to be told yet. The random words are those of this seed.
    pub fn new(seed: u64) -> Reporter
        ensures { result ≡ fresh seed }
    {
        Reporter {
            rows: ArrayVec::new(),
            igmp: Querier::NONE,
            mld: Querier::NONE,
            rand: Rand::new(seed),
            link_local: false,
        }
    }

    /// Each group with what is to be told of it.
    pub fn rows(&self) -> &[Row]
        ensures value { result.now ≡ self.now.rows }
        ensures few { length result.now < 25 }
    {
        self.rows.as_slice()
    }

    /// Whether there is no room to tell of this group.
    pub fn is_full_for(&self, group: &IpAddress) -> bool
        ensures { result ≡ is_refused group.now self.now }
    {
        rows::is_new(self.rows.as_slice(), group)
            && slot_of(self.rows.as_slice(), group).is_none()
            && self.rows.is_full()
    }

    /// The host listens to this group from now on, which is told at once and once more. What is told of a group to which it listens
    /// already stays, and of groups that are never reported nothing is told.
    pub fn join(&mut self, inner: &InterfaceInner, group: &IpAddress) -> Result<(), GroupTableFull>
        ensures joined { self.new ≡ joined_by inner.now group.now self.old }
        ensures full { IsErr result ↔ IsTrue (is_refused group.now self.old) }
    {
        if !rows::is_new(self.rows.as_slice(), group) {
            return Ok(());
        }
        let slot = slot_of(self.rows.as_slice(), group);
        if slot.is_none() && self.rows.is_full() {
            return Err(GroupTableFull);
        }
        let gap = self.draw_gap(inner, group);
        self.enter(slot, group, micros(inner), gap);
        Ok(())
    }

    /// What is told follows the groups and the addresses of the host: those to which it doesn't listen any more are left, those of its IPv6
    /// addresses are joined as far as there is room, and what went from `::` goes again where it has a link-local address now.
    pub fn follow(&mut self, inner: &InterfaceInner)
        ensures { self.new ≡ followed inner.now self.old }
    {
        self.leave_strays(inner);
        self.join_for_all(inner, inner.ip_addrs());
        self.tell_anew(inner);
    }

    /// What a frame that the host took in says of groups: a query is to be answered, and another's report may be the answer.
    pub fn process_frame(&mut self, inner: &InterfaceInner, frame: &[u8])
        ensures { self.new ≡ after_hearing_if inner.now (heard_in inner.now frame.now) self.old }
    {
        if let Some(heard) = heard_in(inner, frame) {
            self.hear(inner, &heard);
        }
    }

    /// When something is to be told next.
    pub fn due_at(&self) -> Option<Instant>
        ensures { result ≡ reports_due self.now }
    {
        match soonest(self.rows.as_slice()) {
            None => None,
            Some(at) => Some(Instant::from_micros(at.min(i64::MAX as u64) as i64)),
        }
    }

    /// The version in which the host tells in the family of this address.
    pub(crate) fn mode(&self, inner: &InterfaceInner, family: &IpAddress) -> CompatibilityMode
        ensures { result ≡ mode_in inner.now family.now self.now }
    {
        match family {
            IpAddress::Ipv4(_) => self.igmp.mode(micros(inner)),
            IpAddress::Ipv6(_) => self.mld.mode(micros(inner)),
        }
    }

    /// The report went of which the row at this place was the first to be told.
    pub(crate) fn tell(&mut self, inner: &InterfaceInner, family: &IpAddress, at: usize)
        requires { at < length self.old.rows }
        ensures { self.new ≡ after_report inner.now family.now at self.old }
    {
        let now = micros(inner);
        match self.mode(inner, family) {
            CompatibilityMode::Igmpv3 => rows::tell_all(family, now, self.rows.as_mut_slice()),
            _ => {
                let mut row = self.rows[at];
                row.member.tell(now);
                self.rows[at] = row;
            }
        }
    }

    /// How long after its first report a change is told once more, by a word that is drawn.
    fn draw_gap(&mut self, inner: &InterfaceInner, group: &IpAddress) -> u32
        ensures gap { result ≡ gap_of (mode_in inner.now group.now self.old) (word (next_state self.old.random)) }
        ensures drawn { self.new ≡ record self.old { random = next_state self.old.random } }
    {
        let mode = self.mode(inner, group);
        gap_of(mode, self.rand.rand_u32())
    }

    /// Puts a group that is joined into this row, or into one more.
    fn enter(&mut self, slot: Option<usize>, group: &IpAddress, now: u64, gap: u32)
        requires slot { ForSome slot (λ at. at < length self.old.rows) }
        requires room { slot ≡ None → length self.old.rows < group_room }
        ensures { self.new ≡ record self.old { rows = entered_at slot self.old.rows group.now now gap } }
    {
        match slot {
            Some(at) => {
                let mut member = self.rows[at].member;
                member.join(now, gap);
                self.rows[at] = Row {
                    group: *group,
                    member,
                };
            }
            None => {
                let mut member = Member::ABSENT;
                member.join(now, gap);
                self.rows.push(Row {
                    group: *group,
                    member,
                });
            }
        }
    }

    /// Leaves all groups to which the host doesn't listen any more.
    fn leave_strays(&mut self, inner: &InterfaceInner)
        ensures { self.new ≡ without_strays inner.now self.old }
    {
        if !rows::has_stray(inner, self.rows.as_slice()) {
            return;
        }
        let now = micros(inner);
        let word = self.rand.rand_u32();
        let (igmp, mld) = (self.igmp.mode(now), self.mld.mode(now));
        rows::leave_strays(inner, igmp, mld, word, self.rows.as_mut_slice());
    }

    /// Joins the groups of these addresses.
    fn join_for_all(&mut self, inner: &InterfaceInner, blocks: &[IpCidr])
        ensures { self.new ≡ joined_for_all inner.now blocks.now self.old }
    {
        let Some((block, rest)) = blocks.split_first() else {
            return;
        };
        self.join_for(inner, block);
        self.join_for_all(inner, rest);
    }

    /// Joins the group of this block's address, if it is one of IPv6 and not `::1`.
    fn join_for(&mut self, inner: &InterfaceInner, block: &IpCidr)
        ensures { self.new ≡ joined_for inner.now block.now self.old }
    {
        match block.address() {
            IpAddress::Ipv4(_) => {}
            IpAddress::Ipv6(address) if address.is_loopback() => {}
            IpAddress::Ipv6(address) => self.join_node(inner, &address),
        }
    }

    /// Joins the group to which solicitations for this address go, if there is room.
    fn join_node(&mut self, inner: &InterfaceInner, address: &Ipv6Address)
        ensures { self.new ≡ joined_by inner.now (solicited_node address.now) self.old }
    {
        let _refused = self.join(inner, &solicited_node(address));
    }

    /// Tells the groups of IPv6 once more where the host has a link-local address and had none.
    fn tell_anew(&mut self, inner: &InterfaceInner)
        ensures { self.new ≡ told_anew inner.now self.old }
    {
        let has_one = has_link_local(inner.ip_addrs());
        if has_one && !self.link_local {
            rows::tell_anew(micros(inner), self.rows.as_mut_slice());
        }
        self.link_local = has_one;
    }

    /// A query that counts came, or another's report.
    fn hear(&mut self, inner: &InterfaceInner, heard: &Heard)
        requires { IsShort heard.now }
        ensures { self.new ≡ after_hearing inner.now heard.now self.old }
    {
        match heard {
            Heard::Query {
                version,
                group,
                max_micros,
            } => {
                self.hear_version(inner, *version, group);
                self.answer(inner, group, *max_micros);
            }
            Heard::Report { group } => match self.mode(inner, group) {
                CompatibilityMode::Igmpv3 => {}
                _ => rows::hear(group, self.rows.as_mut_slice()),
            },
        }
    }

    /// A query of this version came in the family of this address.
    fn hear_version(
        &mut self,
        inner: &InterfaceInner,
        version: CompatibilityMode,
        family: &IpAddress,
    )
        ensures { self.new ≡ in_version inner.now version family.now self.old }
    {
        let before = self.mode(inner, family);
        match family {
            IpAddress::Ipv4(_) => self.igmp.hear(version, micros(inner)),
            IpAddress::Ipv6(_) => self.mld.hear(version, micros(inner)),
        }
        let after = self.mode(inner, family);
        if mode_number(before) != mode_number(after) {
            forget_all(family, self.rows.as_mut_slice());
        }
    }

    /// A query of this group, or of all where it is unspecified, is answered within so many microseconds.
    fn answer(&mut self, inner: &InterfaceInner, group: &IpAddress, max_micros: u64)
        requires { max_micros ≤ 60_000_000 }
        ensures { self.new ≡ answered inner.now group.now max_micros self.old }
    {
        let mode = self.mode(inner, group);
        let word = self.rand.rand_u32();
        rows::answer(
            mode,
            micros(inner),
            max_micros,
            word,
            group,
            self.rows.as_mut_slice(),
        );
    }
}

/// The instant of the call in microseconds.
pub(crate) fn micros(inner: &InterfaceInner) -> u64
    ensures value { result ≡ micros inner.now }
    ensures small { result ≤ 2 ^ 61 }
{
    inner.now().total_micros().unsigned_abs()
}

/// How long after its first report a change is told once more, by a random word.
pub(crate) fn gap_of(mode: CompatibilityMode, word: u32) -> u32
    ensures { result ≡ gap_of mode word }
{
    let longest = match mode {
        CompatibilityMode::Igmpv3 => LONGEST_GAP,
        _ => LONGEST_GAP_OLDER,
    };
    1 + word % longest
}

/// Which version this is.
fn mode_number(mode: CompatibilityMode) -> u8
    ensures { result ≡ mode_number mode }
{
    match mode {
        CompatibilityMode::Igmpv1 => 1,
        CompatibilityMode::Igmpv2 => 2,
        CompatibilityMode::Igmpv3 => 3,
    }
}

/// The group to which solicitations for this address go (RFC 4291, section 2.7.1).
fn solicited_node(address: &Ipv6Address) -> IpAddress
    ensures { result ≡ solicited_node address.now }
{
    let [.., a, b, c] = address.0;
    IpAddress::Ipv6(Ipv6Address([0xff, 2, 0, 0, 0, 0, 0, 0, 0, 0, 0, 1, 0xff, a, b, c]))
}

/// Whether one of these addresses is link-local.
fn has_link_local(blocks: &[IpCidr]) -> bool
    ensures { result ≡ list_any is_link_local_cidr blocks.now }
{
    blocks.iter().any(|block| is_link_local(block))
}

fn is_link_local(block: &IpCidr) -> bool
    ensures { result ≡ is_link_local_cidr block.now }
{
    match block.address() {
        IpAddress::Ipv4(_) => false,
        IpAddress::Ipv6(address) => address.is_link_local(),
    }
}

//! The groups of a host, each with what is to be told of it.
ghost use Rattle.std.specs.Prelude.{◌≡◌, ◌≤◌, ◌<◌, ◌^◌, length, [], IfOk, IfErr, IsErr, ◌↔◌};
ghost use Rattle.std.specs.Option.{ForSome};
ghost use Rattle.iface_groups.specs.Table.{row_index_of, first_free, slot_of, is_free, listens_to, entered, IsRefused, left, queried_at, heard_of, unqueried_row, unqueried, sooner, rows_due, told_at, is_row_due, next_row};

use crate::member::Member;
use crate::mode::CompatibilityMode;
use arrayvec::ArrayVec;
use socket_context::addresses::{are_of_one_family, is_same_address};
use std::marker::Model;
use thiserror::Error;
use wire_address::{IpAddress, Ipv4Address};

/// How many groups a table holds: those that are joined, those of the host's addresses, and those of which a leave is still to be told.
pub const GROUP_ROOM: usize = 24;

/// A group, and what is to be told of it.
#[derive(Clone, Copy, Debug)]
pub struct Row {
    pub group: IpAddress,
    pub member: Member,
}

/// What stands in an unused place of a table.
impl Default for Row {
    ghost use Rattle.iface_groups.specs.Table.{no_row};

    ghost is_default = { λ r. r ≡ no_row };

    fn default() -> Row {
        Row {
            group: IpAddress::Ipv4(Ipv4Address::UNSPECIFIED),
            member: Member::ABSENT,
        }
    }
}

/// The table holds as many groups as it can.
#[derive(Clone, Copy, Debug, PartialEq, Eq, Error)]
#[error("as many groups are joined as there is room for")]
pub struct GroupTableFull;

/// The groups that a host listens to, and those of which it has still to tell that it left.
#[derive(Debug, Drop)]
pub struct GroupTable {
    rows: ArrayVec<Row, GROUP_ROOM>,
}

impl Model for GroupTable {
    ghost use Rattle.std.specs.Prelude.{List};
    ghost use Rattle.iface_groups.specs.declared.table.Row.{Row};

    ghost Value = { List Row };

    ghost view = { λ t. t.rows.items };
}

impl GroupTable {
    /// A host that listens to no group.
    pub fn new() -> GroupTable
        ensures { result ≡ [] }
    {
        GroupTable {
            rows: ArrayVec::new(),
        }
    }

    /// Each group with what is to be told of it.
    pub fn rows(&self) -> &[Row]
        ensures { result.now ≡ self.now }
    {
        self.rows.as_slice()
    }

    /// Whether the host listens to this group.
    pub fn listens_to(&self, group: &IpAddress) -> bool
        ensures { result ≡ listens_to self.now group.now }
    {
        match row_index_of(self.rows.as_slice(), group) {
            Some(at) => self.rows[at].member.listens(),
            None => false,
        }
    }

    /// The host listens to this group from now on, which is told at once and `gap` later once more. A group that it listens to stays as it is.
    pub fn join(&mut self, group: IpAddress, now: u64, gap: u32) -> Result<(), GroupTableFull>
        ensures joined { IfOk result (λ u. self.new ≡ entered self.old group now gap) }
        ensures full { IsErr result ↔ IsRefused self.old group }
        ensures refused { IfErr result (λ e. self.new ≡ self.old) }
    {
        let Some(at) = slot_of(self.rows.as_slice(), &group) else {
            if self.rows.is_full() {
                return Err(GroupTableFull);
            }
            let mut member = Member::ABSENT;
            member.join(now, gap);
            self.rows.push(Row { group, member });
            return Ok(());
        };
        let mut member = self.rows[at].member;
        member.join(now, gap);
        self.rows[at] = Row { group, member };
        Ok(())
    }

    /// The host no longer listens to this group, which is told as its version has it.
    pub fn leave(&mut self, group: &IpAddress, mode: CompatibilityMode, now: u64, gap: u32)
        ensures { self.new ≡ left self.old group.now mode now gap }
    {
        if let Some(at) = row_index_of(self.rows.as_slice(), group) {
            let mut row = self.rows[at];
            row.member.leave(mode, now, gap);
            self.rows[at] = row;
        }
    }

    /// A query that counts, of the group of this row, is answered at this moment, or when an earlier one is.
    pub fn query(&mut self, at: usize, moment: u64)
        requires { at < length self.old }
        ensures { self.new ≡ queried_at self.old at moment }
    {
        let mut row = self.rows[at];
        row.member.query(moment);
        self.rows[at] = row;
    }

    /// Another host's report of this group came, of version 1 or 2.
    pub fn hear(&mut self, group: &IpAddress)
        ensures { self.new ≡ heard_of self.old group.now }
    {
        if let Some(at) = row_index_of(self.rows.as_slice(), group) {
            let mut row = self.rows[at];
            row.member.hear();
            self.rows[at] = row;
        }
    }

    /// A querier of another version took over in the family of this address: no query there is to be answered any more.
    pub fn forget_queries(&mut self, family: &IpAddress)
        ensures { self.new ≡ unqueried family.now self.old }
    {
        forget_all(family, self.rows.as_mut_slice());
    }

    /// When something is to be told next.
    pub fn due_at(&self) -> Option<u64>
        ensures { result ≡ rows_due self.now }
    {
        soonest(self.rows.as_slice())
    }

    /// The first row of which something is to be told now.
    pub fn next_row(&self, now: u64) -> Option<usize>
        ensures row { result ≡ next_row now self.now }
        ensures in_range { ForSome result (λ at. at < length self.now) }
    {
        self.rows
            .as_slice()
            .iter()
            .position(|row| is_row_due(now, row))
    }

    /// What was to be told of this row was told.
    pub fn tell(&mut self, at: usize, now: u64)
        requires row { at < length self.old }
        requires now { now ≤ 2 ^ 61 }
        ensures { self.new ≡ told_at self.old at now }
    {
        let mut row = self.rows[at];
        row.member.tell(now);
        self.rows[at] = row;
    }
}

/// Where the row of this group is.
pub fn row_index_of(rows: &[Row], group: &IpAddress) -> Option<usize>
    ensures row { result ≡ row_index_of rows.now group.now }
    ensures in_range { ForSome result (λ at. at < length rows.now) }
{
    rows.iter()
        .position(|row| is_same_address(&row.group, group))
}

/// Where the first row is of which nothing is to be told any more.
fn first_free(rows: &[Row]) -> Option<usize>
    ensures row { result ≡ first_free rows.now }
    ensures in_range { ForSome result (λ at. at < length rows.now) }
{
    rows.iter().position(|row| is_free(row))
}

/// The row that a group has, or may have: one of which nothing is to be told any more gives way.
pub fn slot_of(rows: &[Row], group: &IpAddress) -> Option<usize>
    ensures row { result ≡ slot_of rows.now group.now }
    ensures in_range { ForSome result (λ at. at < length rows.now) }
{
    match row_index_of(rows, group) {
        Some(at) => Some(at),
        None => first_free(rows),
    }
}

/// Whether nothing is to be told of this row any more, and the host doesn't listen to its group.
fn is_free(row: &Row) -> bool
    ensures { result ≡ is_free row.now }
{
    row.member.is_forgotten()
}

/// No query of the group of this row is to be answered any more, if that is of this family.
fn forget(family: &IpAddress, row: &mut Row)
    ensures { row.new ≡ unqueried_row family.now row.old }
{
    if are_of_one_family(family, &row.group) {
        row.member.forget_query();
    }
}

/// No query of this family is to be answered any more.
pub fn forget_all(family: &IpAddress, rows: &mut [Row])
    ensures { rows.new ≡ unqueried family.now rows.old }
{
    for row in rows.iter_mut() {
        forget(family, row);
    }
}

/// When something of these rows is to be told next.
pub fn soonest(rows: &[Row]) -> Option<u64>
    ensures { result ≡ rows_due rows.now }
{
    let mut due = None;
    for i in 0..rows.len() {
        due = sooner(due, rows[i].member.due_at());
    }
    due
}

/// Whether something is to be told of this row now.
pub fn is_row_due(now: u64, row: &Row) -> bool
    ensures { result ≡ is_row_due now row.now }
{
    match row.member.due_at() {
        Some(at) => at <= now,
        None => false,
    }
}

/// The sooner of two moments, where there may be none.
fn sooner(one: Option<u64>, other: Option<u64>) -> Option<u64>
    ensures { result ≡ sooner one other }
{
    match (one, other) {
        (Some(one), Some(other)) => Some(one.min(other)),
        (None, other) => other,
        (one, None) => one,
    }
}

//! The rows of a host's groups: which are changed, and how.
ghost use Rattle.std.specs.Prelude.{◌≡◌, ◌≤◌, ◌<◌, ◌^◌, length, map, slice_index_or};
ghost use Rattle.std.specs.List.{list_any};
ghost use Rattle.std.specs.Option.{ForSome};
ghost use Rattle.iface_groups.specs.Member.{after_told};
ghost use Rattle.iface_groups.specs.Table.{listens_to, is_row_due};
ghost use Rattle.iface_reports.specs.Reports.{is_reported, is_new_in, is_stray, mode_of, left_by, left_row, is_v6, told_anew_row, is_asked, last_word, word_for, answered_row, heard_row};
ghost use Rattle.iface_reports.specs.Told.{is_due_in, first_due, told_row};

use crate::reporter::{gap_of, micros};
use iface_groups::{
    CompatibilityMode, Row, answer_at, is_reported_v4, is_reported_v6, is_row_due, row_index_of,
};
use iface_tables::InterfaceInner;
use ip_wire::IpAddress;
use ip_wire::network_order::read_u32;
use socket_context::addresses::{are_of_one_family, is_same_address, is_unspecified};

/// By this a word is spread over groups.
const SPREAD: u32 = 0x9e37_79b1;

/// Whether groups of this address are ever told of.
fn is_reported(group: &IpAddress) -> bool
    ensures { result ≡ is_reported group.now }
{
    match group {
        IpAddress::Ipv4(group) => is_reported_v4(group),
        IpAddress::Ipv6(group) => is_reported_v6(group),
    }
}

/// Whether the host listens to this group by what is told.
fn listens_to(rows: &[Row], group: &IpAddress) -> bool
    ensures { result ≡ listens_to rows.now group.now }
{
    match row_index_of(rows, group) {
        Some(at) => rows[at].member.listens(),
        None => false,
    }
}

/// Whether a join of this group is to be told.
pub(crate) fn is_new(rows: &[Row], group: &IpAddress) -> bool
    ensures { result ≡ is_new_in group.now rows.now }
{
    is_reported(group) && !listens_to(rows, group)
}

/// Whether the host doesn't listen to this row's group any more.
fn is_stray(inner: &InterfaceInner, row: &Row) -> bool
    ensures { result ≡ is_stray inner.now row.now }
{
    row.member.listens() && !inner.has_multicast_group(&row.group)
}

pub(crate) fn has_stray(inner: &InterfaceInner, rows: &[Row]) -> bool
    ensures { result ≡ list_any (is_stray inner.now) rows.now }
{
    rows.iter().any(|row| is_stray(inner, row))
}

/// Leaves a row's group.
fn leave(row: &mut Row, mode: CompatibilityMode, now: u64, word: u32)
    ensures { row.new ≡ left_by mode now word row.old }
{
    row.member.leave(mode, now, gap_of(mode, word));
}

/// Leaves a row's group, if the host doesn't listen to it any more.
fn leave_stray(
    inner: &InterfaceInner,
    igmp: CompatibilityMode,
    mld: CompatibilityMode,
    word: u32,
    row: &mut Row,
)
    ensures { row.new ≡ left_row inner.now igmp mld word row.old }
{
    if is_stray(inner, row) {
        let mode = match row.group {
            IpAddress::Ipv4(_) => igmp,
            IpAddress::Ipv6(_) => mld,
        };
        leave(row, mode, micros(inner), word);
    }
}

/// Leaves each group to which the host doesn't listen any more.
pub(crate) fn leave_strays(
    inner: &InterfaceInner,
    igmp: CompatibilityMode,
    mld: CompatibilityMode,
    word: u32,
    rows: &mut [Row],
)
    ensures { rows.new ≡ map (left_row inner.now igmp mld word) rows.old }
{
    for row in rows.iter_mut() {
        leave_stray(inner, igmp, mld, word, row);
    }
}

/// A group of IPv6 is to be told of by this moment.
fn tell_row_anew(now: u64, row: &mut Row)
    ensures { row.new ≡ told_anew_row now row.old }
{
    if let IpAddress::Ipv6(_) = row.group {
        row.member.query(now);
    }
}

/// All groups of IPv6 are to be told of by this moment.
pub(crate) fn tell_anew(now: u64, rows: &mut [Row])
    ensures { rows.new ≡ map (told_anew_row now) rows.old }
{
    for row in rows.iter_mut() {
        tell_row_anew(now, row);
    }
}

/// Whether a query of this group, or of all where it is unspecified, asks for the other.
fn is_asked(group: &IpAddress, other: &IpAddress) -> bool
    ensures { result ≡ is_asked group.now other.now }
{
    are_of_one_family(group, other) && (is_unspecified(group) || is_same_address(group, other))
}

/// The last 32 bits of an address.
fn last_word(address: &IpAddress) -> u32
    ensures { result ≡ last_word address.now }
{
    match address {
        IpAddress::Ipv4(address) => read_u32(&address.octets(), 0),
        IpAddress::Ipv6(address) => read_u32(&address.octets(), 12),
    }
}

/// The random word by which the answer for this group is put off.
fn word_for(mode: CompatibilityMode, word: u32, group: &IpAddress) -> u32
    ensures { result ≡ word_for mode word group.now }
{
    match mode {
        CompatibilityMode::Igmpv3 => word,
        _ => word.wrapping_add(last_word(group).wrapping_mul(SPREAD)),
    }
}

/// A query is answered for this row, if it asks for its group.
fn answer_row(
    mode: CompatibilityMode,
    now: u64,
    max_micros: u64,
    word: u32,
    group: &IpAddress,
    row: &mut Row,
)
    requires now { now ≤ 2 ^ 61 }
    requires max { max_micros ≤ 60_000_000 }
    ensures { row.new ≡ answered_row mode now max_micros word group.now row.old }
{
    if is_asked(group, &row.group) {
        let word = word_for(mode, word, &row.group);
        row.member.query(answer_at(now, max_micros, word));
    }
}

/// A query of this group is answered, or of all where it is unspecified.
pub(crate) fn answer(
    mode: CompatibilityMode,
    now: u64,
    max_micros: u64,
    word: u32,
    group: &IpAddress,
    rows: &mut [Row],
)
    requires now { now ≤ 2 ^ 61 }
    requires max { max_micros ≤ 60_000_000 }
    ensures { rows.new ≡ map (answered_row mode now max_micros word group.now) rows.old }
{
    for row in rows.iter_mut() {
        answer_row(mode, now, max_micros, word, group, row);
    }
}

/// Another's report of this group came.
fn hear_row(group: &IpAddress, row: &mut Row)
    ensures { row.new ≡ heard_row group.now row.old }
{
    if is_same_address(group, &row.group) {
        row.member.hear();
    }
}

/// Another's report of this group came.
pub(crate) fn hear(group: &IpAddress, rows: &mut [Row])
    ensures { rows.new ≡ map (heard_row group.now) rows.old }
{
    for row in rows.iter_mut() {
        hear_row(group, row);
    }
}

/// Whether something of a group of this family is to be told now.
pub(crate) fn is_due_in(family: &IpAddress, now: u64, row: &Row) -> bool
    ensures { result ≡ is_due_in family.now now row.now }
{
    are_of_one_family(family, &row.group) && is_row_due(now, row)
}

/// The first row of this family of which something is to be told now.
pub(crate) fn first_due(family: &IpAddress, now: u64, rows: &[Row]) -> Option<usize>
    ensures row { result ≡ first_due family.now now rows.now }
    ensures in_range { ForSome result (λ at. at < length rows.now) }
{
    rows.iter().position(|row| is_due_in(family, now, row))
}

/// What was due of this row was told, if its group is of this family.
fn tell_row(family: &IpAddress, now: u64, row: &mut Row)
    requires { now ≤ 2 ^ 61 }
    ensures { row.new ≡ told_row family.now now row.old }
{
    if is_due_in(family, now, row) {
        row.member.tell(now);
    }
}

/// All that was due in this family was told.
pub(crate) fn tell_all(family: &IpAddress, now: u64, rows: &mut [Row])
    requires { now ≤ 2 ^ 61 }
    ensures { rows.new ≡ map (told_row family.now now) rows.old }
{
    for row in rows.iter_mut() {
        tell_row(family, now, row);
    }
}

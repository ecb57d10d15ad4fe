//! Which report is due.
ghost use Rattle.std.specs.Prelude.{◌≡◌, ◌≤◌, ◌+◌, ◌*◌, ◌++◌, length};
ghost use Rattle.arrayvec.specs.ArrayVec.{array_vec_len};
ghost use Rattle.iface_reports.specs.Frames.{Fits};
ghost use Rattle.iface_reports.specs.Told.{ReportValue, record_in, records_in, is_leave, report_version, single_v4, single_v6, single, joint, report_by};

use crate::rows::is_due_in;
use arrayvec::ArrayVec;
use iface_groups::{CompatibilityMode, GROUP_ROOM, Row, Told};
use ip_wire::{
    IPV6_LINK_LOCAL_ALL_MLDV2_ROUTERS, IPV6_LINK_LOCAL_ALL_ROUTERS, IpAddress, Ipv4Address,
    Ipv6Address,
};
use std::marker::Model;
use wire_igmp::{IgmpRepr, IgmpVersion, RecordType};
use wire_mld::MldRepr;

/// All routers that listen for reports of IGMPv3 (RFC 3376, section 4.2.14).
const ALL_IGMPV3_ROUTERS: Ipv4Address = Ipv4Address([224, 0, 0, 22]);

/// All routers of the link (RFC 2236, section 9).
const ALL_ROUTERS: Ipv4Address = Ipv4Address([224, 0, 0, 2]);

/// How many bytes a record of IGMP has.
const RECORD_LEN_V4: usize = 8;

/// How many bytes a record of MLD has.
const RECORD_LEN_V6: usize = 20;

/// As many bytes as records of all groups have.
const RECORDS_ROOM: usize = GROUP_ROOM * RECORD_LEN_V6;

/// A message of a report, and where it goes.
#[derive(Clone, Copy, Debug)]
pub enum Message {
    Igmp {
        dst_addr: Ipv4Address,
        repr: IgmpRepr,
    },
    Mld {
        dst_addr: Ipv6Address,
        repr: MldRepr,
    },
}

/// A report that is due.
#[derive(Debug, Drop)]
pub(crate) struct Report {
    pub message: Message,
    /// The records that it carries.
    pub records: ArrayVec<u8, RECORDS_ROOM>,
}

impl Model for Report {
    ghost Value = { ReportValue };

    ghost view = { λ r. record { message = r.message; records = r.records.items } };
}

/// The report that is due in this family, of which this row is the first to be told.
pub(crate) fn report_by(
    mode: CompatibilityMode,
    family: &IpAddress,
    now: u64,
    rows: &[Row],
    row: &Row,
) -> Report
    requires few { length rows.now ≤ 24 }
    ensures value { result ≡ report_by mode family.now now rows.now row.now }
    ensures fits { Fits result.message }
    ensures small { length result.records ≤ 480 }
{
    match mode {
        CompatibilityMode::Igmpv3 => {
            let mut records = ArrayVec::new();
            push_records(family, now, rows, &mut records);
            Report {
                message: joint(family, records.len()),
                records,
            }
        }
        _ => Report {
            message: single(mode, &row.group, is_leave(row.member.next_told(mode, now))),
            records: ArrayVec::new(),
        },
    }
}

/// A report of all groups of a family, whose records have so many bytes.
fn joint(family: &IpAddress, size: usize) -> Message
    requires { size ≤ 480 }
    ensures value { result ≡ joint family.now size }
    ensures fits { Fits result }
{
    match family {
        IpAddress::Ipv4(_) => Message::Igmp {
            dst_addr: ALL_IGMPV3_ROUTERS,
            repr: IgmpRepr::MembershipReportV3 {
                num_records: (size / RECORD_LEN_V4) as u16,
            },
        },
        IpAddress::Ipv6(_) => Message::Mld {
            dst_addr: IPV6_LINK_LOCAL_ALL_MLDV2_ROUTERS,
            repr: MldRepr::Report {
                nr_mcast_addr_rcrds: (size / RECORD_LEN_V6) as u16,
            },
        },
    }
}

/// A report of one group, or a leave.
fn single(mode: CompatibilityMode, group: &IpAddress, leave: bool) -> Message
    ensures value { result ≡ single mode group.now leave }
    ensures fits { Fits result }
{
    match group {
        IpAddress::Ipv4(group) => single_v4(mode, group, leave),
        IpAddress::Ipv6(group) => single_v6(group, leave),
    }
}

fn single_v4(mode: CompatibilityMode, group: &Ipv4Address, leave: bool) -> Message
    ensures value { result ≡ single_v4 mode group.now leave }
    ensures fits { Fits result }
{
    if leave {
        return Message::Igmp {
            dst_addr: ALL_ROUTERS,
            repr: IgmpRepr::LeaveGroup { group_addr: *group },
        };
    }
    Message::Igmp {
        dst_addr: *group,
        repr: IgmpRepr::MembershipReport {
            group_addr: *group,
            version: report_version(mode),
        },
    }
}

fn single_v6(group: &Ipv6Address, leave: bool) -> Message
    ensures value { result ≡ single_v6 group.now leave }
    ensures fits { Fits result }
{
    if leave {
        return Message::Mld {
            dst_addr: IPV6_LINK_LOCAL_ALL_ROUTERS,
            repr: MldRepr::Done { mcast_addr: *group },
        };
    }
    Message::Mld {
        dst_addr: *group,
        repr: MldRepr::ReportV1 { mcast_addr: *group },
    }
}

/// The version of a report of one group.
fn report_version(mode: CompatibilityMode) -> IgmpVersion
    ensures { result ≡ report_version mode }
{
    match mode {
        CompatibilityMode::Igmpv1 => IgmpVersion::Version1,
        _ => IgmpVersion::Version2,
    }
}

/// Whether a leave is told.
fn is_leave(told: Option<Told>) -> bool
    ensures { result ≡ is_leave told }
{
    matches!(told, Some(Told::Leave))
}

/// Appends a record for each row of the family that is due.
fn push_records(
    family: &IpAddress,
    now: u64,
    rows: &[Row],
    records: &mut ArrayVec<u8, RECORDS_ROOM>,
)
    requires { array_vec_len records.old + 20 * length rows.now ≤ 480 }
    ensures { records.new.items ≡ records.old.items ++ records_in family.now now rows.now }
{
    let Some((row, rest)) = rows.split_first() else {
        return;
    };
    push_record(family, now, row, records);
    push_records(family, now, rest, records);
}

/// Appends the record of a row, if that is of the family and due.
fn push_record(family: &IpAddress, now: u64, row: &Row, records: &mut ArrayVec<u8, RECORDS_ROOM>)
    requires { array_vec_len records.old + 20 ≤ 480 }
    ensures items { records.new.items ≡ records.old.items ++ record_in family.now now row.now }
    ensures len { array_vec_len records.new ≤ array_vec_len records.old + 20 }
{
    if !is_due_in(family, now, row) {
        return;
    }
    if let Some(Told::Record(kind)) = row.member.next_told(CompatibilityMode::Igmpv3, now) {
        push(records, &[kind.into(), 0, 0, 0]);
        match row.group {
            IpAddress::Ipv4(group) => push(records, &group.octets()),
            IpAddress::Ipv6(group) => push(records, &group.octets()),
        }
    }
}

/// Appends bytes for which there is room.
fn push(records: &mut ArrayVec<u8, RECORDS_ROOM>, bytes: &[u8])
    requires { array_vec_len records.old + length bytes.now ≤ 480 }
    ensures items { records.new.items ≡ records.old.items ++ bytes.now }
    ensures len { array_vec_len records.new ≡ array_vec_len records.old + length bytes.now }
{
    let Ok(()) = records.try_extend_from_slice(bytes) else {
        unreachable!();
    };
}

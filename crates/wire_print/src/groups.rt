//! Messages of multicast groups: IGMP, and MLD, whose messages are of ICMPv6.
ghost use Rattle.std.specs.Prelude.{◌<◌, ◌≤◌, ◌^◌, length};

use crate::put::{Out, all, none, tested_first};
use ip_wire::{Ipv4Address, Ipv6Address};
use std::fmt::Display;
use wire_igmp::{GroupRecord, IgmpPacket, IgmpRepr, IgmpVersion};
use wire_mld::{MldMessage, MldPacket, MldRepr};

/// A message of IGMP.
pub(crate) fn put_igmp(out: &mut Out<'_>, bytes: &[u8]) {
    let Ok(packet) = IgmpPacket::new_checked(bytes) else {
        out.put_cut_line("IGMP", bytes);
        out.put_some_bytes("payload", bytes);
        return;
    };
    let found = IgmpRepr::parse(&packet);
    match &found {
        Ok(message) => put_igmp_message(out, message),
        Err(_) if packet.verify_checksum() => out.put_text("IGMP unknown"),
        Err(_) => out.put_text("IGMP bad checksum"),
    }
    out.put("; type ", u8::from(packet.msg_type()));
    out.put(", code ", packet.max_resp_code());
    out.put_tested(packet.checksum(), packet.verify_checksum());
    out.end_line();
    match found {
        Ok(message) => {
            let carried = bytes.get(message.header_len()..).unwrap_or(&[]);
            put_carried(out, igmp_records(&message), 4, carried)
        }
        Err(_) => out.put_bytes("payload", bytes.get(4..).unwrap_or(&[])),
    }
}

fn put_igmp_message(out: &mut Out<'_>, message: &IgmpRepr) {
    match *message {
        IgmpRepr::MembershipQuery {
            max_resp_code,
            group_addr,
        } => {
            let version = if max_resp_code == 0 { 1 } else { 2 };
            put_query(
                out,
                "IGMP query",
                version,
                u16::from(max_resp_code),
                group_addr,
            );
        }
        IgmpRepr::MembershipQueryV3 {
            max_resp_code,
            group_addr,
            s_flag,
            qrv,
            qqic,
            num_srcs,
        } => {
            put_query(out, "IGMP query", 3, u16::from(max_resp_code), group_addr);
            put_querier(out, s_flag, qrv, qqic, num_srcs);
        }
        IgmpRepr::MembershipReport {
            group_addr,
            version,
        } => {
            let number = match version {
                IgmpVersion::Version1 => 1,
                IgmpVersion::Version2 => 2,
            };
            put_of_group(out, "IGMP report", number, group_addr);
        }
        IgmpRepr::LeaveGroup { group_addr } => put_of_group(out, "IGMP leave", 2, group_addr),
        IgmpRepr::MembershipReportV3 { num_records } => {
            out.put("IGMP report, version 3, records ", num_records);
        }
    }
}

fn put_of_group<A: Display + Copy>(out: &mut Out<'_>, what: &str, version: u8, group: A) {
    out.put(what, ", version ");
    out.put("", version);
    out.put(", group ", group);
}

fn put_query<A: Display + Copy>(out: &mut Out<'_>, what: &str, version: u8, code: u16, group: A) {
    put_of_group(out, what, version, group);
    out.put(", max ", code);
}

// What a query says of its querier.
fn put_querier(out: &mut Out<'_>, s_flag: bool, qrv: u8, qqic: u8, num_srcs: u16) {
    out.put_where(s_flag, ", suppress");
    out.put(", qrv ", qrv);
    out.put(", qqic ", qqic);
    out.put(", sources ", num_srcs);
}

// How many records a report carries, if it is one.
fn igmp_records(message: &IgmpRepr) -> Option<u16> {
    match *message {
        IgmpRepr::MembershipReportV3 { num_records } => Some(num_records),
        _ => None,
    }
}

// Records of addresses of so many bytes, a line each, and what follows them; or what a message carries that has none.
fn put_carried(out: &mut Out<'_>, records: Option<u16>, width: usize, bytes: &[u8])
    requires { width ≤ 16 }
{
    let mut rest = bytes;
    for _ in 0..records.unwrap_or(0) {
        let Ok((record, following)) = GroupRecord::parse(rest, width) else {
            break;
        };
        put_record(out, &record);
        rest = following;
    }
    out.put_bytes("payload", rest);
}

fn put_record(out: &mut Out<'_>, record: &GroupRecord<'_>) {
    out.put("record ", record.record_type);
    out.put(" (", u8::from(record.record_type));
    out.put_text("), group ");
    put_address(out, record.group);
    out.put_hex(", sources ", record.sources);
    out.end_line();
}

// An address of either family.
fn put_address(out: &mut Out<'_>, bytes: &[u8]) {
    if let [a, b, c, d] = bytes {
        out.put("", Ipv4Address::new(*a, *b, *c, *d));
    } else if bytes.len() == 16 {
        let mut octets = [0; 16];
        octets.copy_from_slice(bytes);
        out.put("", Ipv6Address(octets));
    } else {
        out.put_hex("", bytes);
    }
}

/// Whether a message of ICMPv6 is one of MLD.
pub(crate) fn is_mld(bytes: &[u8]) -> bool {
    match bytes.first() {
        Some(kind) => !matches!(MldMessage::from(*kind), MldMessage::Unknown(_)),
        None => false,
    }
}

/// A message of MLD between these addresses.
pub(crate) fn put_mld(
    out: &mut Out<'_>,
    source: &Ipv6Address,
    destination: &Ipv6Address,
    bytes: &[u8],
)
    requires { length bytes.now < 2 ^ 32 }
{
    let Ok(packet) = MldPacket::new_checked(bytes) else {
        out.put_cut_line("ICMPv6 MLD", bytes);
        out.put_some_bytes("payload", bytes);
        return;
    };
    let found = tested_first(
        MldRepr::parse(source, destination, &packet, &all()),
        MldRepr::parse(source, destination, &packet, &none()),
    );
    match &found {
        Some((is_good, message)) => {
            out.put_text("ICMPv6 ");
            out.put_where(!*is_good, "bad checksum, ");
            put_mld_message(out, message);
        }
        None => out.put_text("ICMPv6 MLD unknown"),
    }
    out.put("; type ", u8::from(packet.msg_type()));
    out.put(", code ", packet.msg_code());
    out.put_tested(
        packet.checksum(),
        packet.verify_checksum(source, destination),
    );
    out.end_line();
    match found {
        Some((_, message)) => {
            let carried = bytes.get(message.header_len()..).unwrap_or(&[]);
            put_carried(out, mld_records(&message), 16, carried)
        }
        None => out.put_bytes("payload", bytes.get(4..).unwrap_or(&[])),
    }
}

fn put_mld_message(out: &mut Out<'_>, message: &MldRepr) {
    match *message {
        MldRepr::QueryV1 {
            max_resp_code,
            mcast_addr,
        } => put_query(out, "MLD query", 1, max_resp_code, mcast_addr),
        MldRepr::Query {
            max_resp_code,
            mcast_addr,
            s_flag,
            qrv,
            qqic,
            num_srcs,
        } => {
            put_query(out, "MLD query", 2, max_resp_code, mcast_addr);
            put_querier(out, s_flag, qrv, qqic, num_srcs);
        }
        MldRepr::ReportV1 { mcast_addr } => put_of_group(out, "MLD report", 1, mcast_addr),
        MldRepr::Done { mcast_addr } => put_of_group(out, "MLD done", 1, mcast_addr),
        MldRepr::Report {
            nr_mcast_addr_rcrds,
        } => out.put("MLD report, version 2, records ", nr_mcast_addr_rcrds),
    }
}

// How many records a report carries, if it is one.
fn mld_records(message: &MldRepr) -> Option<u16> {
    match *message {
        MldRepr::Report {
            nr_mcast_addr_rcrds,
        } => Some(nr_mcast_addr_rcrds),
        _ => None,
    }
}

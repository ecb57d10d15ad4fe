//! A message as a value.
ghost use Rattle.std.specs.Prelude.{◌≡◌, ℕ, ◌+◌, ◌*◌, ◌/◌, ◌%◌, ◌==◌, ◌<◌, ◌≤◌, IsOk, IfOk, [], ◌∷◌, ◌++◌, if◌then◌else◌, length, slice_index};
ghost use Rattle.std.specs.Int.{w16, to_be_bytes};
ghost use Rattle.wire_address.specs.Fields.{put16};
ghost use Rattle.wire_address.specs.Sum.{word_sum, complement};
ghost use Rattle.wire_igmp.specs.Igmp.{IsIgmp, IsWhole, Says, Fits, bytes_of, bytes_in, name_of, header_len, sent_fields, spelling, written};
ghost use Rattle.wire_igmp.specs.IgmpMessage.{message_number};
ghost use Rattle.wire_igmp.specs.declared.repr.IgmpRepr.{IgmpRepr};

use crate::field;
use crate::group_record::are_records;
use crate::message::{IgmpMessage, IgmpVersion};
use crate::packet::IgmpPacket;
use crate::packet_mut::IgmpPacketMut;
use wire_address::network_order::write_u16;
use wire_address::{Error, Ipv4Address, checksum};

/// The option of an IPv4 header which says that each router on the way looks at the packet (RFC
/// 2113). All messages of IGMP are sent with it.
pub const IGMP_ROUTER_ALERT: [u8; 4] = [0x94, 4, 0, 0];

/// The width of an address.
const ADDRESS_LEN: usize = 4;

/// A message, but for the sources and the records that it carries.
#[derive(Clone, Copy, Debug, PartialEq, Eq)]
pub enum IgmpRepr {
    /// A query of version 1 or 2; of all groups where its group is `0.0.0.0`.
    MembershipQuery {
        /// In tenths of a second; 0 in version 1.
        max_resp_code: u8,
        group_addr: Ipv4Address,
    },
    /// A query of version 3, followed by sources.
    MembershipQueryV3 {
        /// In tenths of a second below 128, else a floating-point number.
        max_resp_code: u8,
        group_addr: Ipv4Address,
        /// Routers that hear the query leave their timers as they are.
        s_flag: bool,
        /// The querier's robustness variable, below 8.
        qrv: u8,
        /// The querier's query interval in seconds below 128, else a floating-point number.
        qqic: u8,
        num_srcs: u16,
    },
    MembershipReport {
        group_addr: Ipv4Address,
        version: IgmpVersion,
    },
    LeaveGroup {
        group_addr: Ipv4Address,
    },
    /// A report of version 3, followed by group records.
    MembershipReportV3 {
        num_records: u16,
    },
}

impl IgmpRepr {
    /// The message in the bytes, whose checksum is tested: no device does so. Other messages are
    /// an `Error`.
    pub fn parse(packet: &IgmpPacket) -> Result<IgmpRepr, Error>
        ensures found { IfOk result (λ v. IsIgmp (bytes_of packet.now) v) }
        ensures only { (v : IgmpRepr) → IsIgmp (bytes_of packet.now) v → result ≡ Ok v }
    {
        packet.check_len()?;
        if !packet.verify_checksum() {
            return Err(Error);
        }
        read(packet)
    }

    /// The length of what is written before what the message carries.
    pub const fn header_len(&self) -> usize
        ensures exact { result ≡ header_len self.now }
        ensures small { result ≤ 12 }
    {
        match self {
            IgmpRepr::MembershipQueryV3 { .. } => field::QUERY_END,
            _ => field::HEADER_END,
        }
    }

    /// Writes the message with what it carries and its checksum over the whole buffer.
    pub fn emit(&self, packet: &mut IgmpPacketMut, carried: &[u8])
        requires room { length (bytes_in packet.old) ≡ header_len self.now + length carried.now }
        requires fits { Fits self.now }
        ensures same_reference { name_of packet.new ≡ name_of packet.old }
        ensures bytes { bytes_in packet.new ≡ written self.now carried.now }
    {
        self.spell(packet.buffer, carried);
        seal(packet.buffer);
    }

    /// Writes the message with 0 for its checksum.
    fn spell(&self, buffer: &mut [u8], carried: &[u8])
        requires room { length buffer.old ≡ header_len self.now + length carried.now }
        requires fits { Fits self.now }
        ensures { buffer.new ≡ spelling self.now (sent_fields 0) carried.now }
    {
        match *self {
            IgmpRepr::MembershipQuery {
                max_resp_code,
                group_addr,
            } => {
                put_message(
                    buffer,
                    IgmpMessage::MembershipQuery,
                    max_resp_code,
                    &group_addr.0,
                    carried,
                );
            }
            IgmpRepr::MembershipQueryV3 {
                max_resp_code,
                group_addr,
                s_flag,
                qrv,
                qqic,
                num_srcs,
            } => {
                let (start, rest) = buffer.split_at_mut(field::QUERY_END);
                let tail = query_tail(s_flag, qrv, qqic, num_srcs);
                put_message(
                    start,
                    IgmpMessage::MembershipQuery,
                    max_resp_code,
                    &group_addr.0,
                    &tail,
                );
                rest.copy_from_slice(carried);
            }
            IgmpRepr::MembershipReport {
                group_addr,
                version,
            } => {
                put_message(buffer, version.report(), 0, &group_addr.0, carried);
            }
            IgmpRepr::LeaveGroup { group_addr } => {
                put_message(buffer, IgmpMessage::LeaveGroup, 0, &group_addr.0, carried);
            }
            IgmpRepr::MembershipReportV3 { num_records } => {
                let [high, low] = num_records.to_be_bytes();
                put_message(
                    buffer,
                    IgmpMessage::MembershipReportV3,
                    0,
                    &[0, 0, high, low],
                    carried,
                );
            }
        }
    }
}

/// What stands after the group in a query of version 3.
fn query_tail(s_flag: bool, qrv: u8, qqic: u8, num_srcs: u16) -> [u8; 4]
    requires { qrv < 8 }
    ensures { result ≡ ((if s_flag then 8 else 0) + qrv) ∷ qqic ∷ to_be_bytes w16 num_srcs }
{
    let [high, low] = num_srcs.to_be_bytes();
    let suppress = if s_flag { 8 } else { 0 };
    [suppress + qrv, qqic, high, low]
}

/// Writes a message of this type and code over the whole buffer, with these four bytes after a
/// checksum of 0.
fn put_message(buffer: &mut [u8], kind: IgmpMessage, code: u8, four: &[u8; 4], carried: &[u8])
    requires { length buffer.old ≡ 8 + length carried.now }
    ensures { buffer.new ≡ message_number kind ∷ code ∷ 0 ∷ 0 ∷ (four.now ++ carried.now) }
{
    let (start, rest) = buffer.split_at_mut(field::GROUP_ADDRESS.start);
    start.copy_from_slice(&[kind.into(), code, 0, 0]);
    let (middle, end) = rest.split_at_mut(four.len());
    middle.copy_from_slice(four);
    end.copy_from_slice(carried);
}

/// Puts the checksum of a message whose field holds 0 into the field.
fn seal(bytes: &mut [u8])
    requires { 8 ≤ length bytes.old }
    ensures { bytes.new ≡ put16 bytes.old 2 (complement (word_sum bytes.old)) }
{
    let sum = checksum::data(bytes);
    write_u16(bytes, field::CHECKSUM.start, !sum);
}

/// What the bytes say, whatever their checksum.
fn read(packet: &IgmpPacket) -> Result<IgmpRepr, Error>
    requires { IsWhole (bytes_of packet.now) }
    ensures found { IfOk result (λ v. Says (bytes_of packet.now) v) }
    ensures only { (v : IgmpRepr) → Says (bytes_of packet.now) v → result ≡ Ok v }
{
    let group_addr = packet.group_addr();
    match packet.msg_type() {
        IgmpMessage::MembershipQuery => read_query(packet),
        IgmpMessage::MembershipReportV1 => Ok(IgmpRepr::MembershipReport {
            group_addr,
            version: IgmpVersion::Version1,
        }),
        IgmpMessage::MembershipReportV2 => Ok(IgmpRepr::MembershipReport {
            group_addr,
            version: IgmpVersion::Version2,
        }),
        IgmpMessage::LeaveGroup => Ok(IgmpRepr::LeaveGroup { group_addr }),
        IgmpMessage::MembershipReportV3 => read_report(packet),
        IgmpMessage::Unknown(_) => Err(Error),
    }
}

/// A query: of version 1 or 2 where it has exactly eight bytes, of version 3 from twelve on.
fn read_query(packet: &IgmpPacket) -> Result<IgmpRepr, Error>
    requires whole { IsWhole (bytes_of packet.now) }
    requires kind { slice_index (bytes_of packet.now) 0 ≡ 17 }
    ensures found { IfOk result (λ v. Says (bytes_of packet.now) v) }
    ensures only { (v : IgmpRepr) → Says (bytes_of packet.now) v → result ≡ Ok v }
{
    let bytes = packet.into_inner();
    let max_resp_code = packet.max_resp_code();
    let group_addr = packet.group_addr();
    if bytes.len() == field::HEADER_END {
        return Ok(IgmpRepr::MembershipQuery {
            max_resp_code,
            group_addr,
        });
    }
    if bytes.len() < field::QUERY_END {
        return Err(Error);
    }
    let num_srcs = packet.number(field::NUM_SRCS.start);
    if bytes.len() < field::QUERY_END + ADDRESS_LEN * num_srcs as usize {
        return Err(Error);
    }
    let sqrv = bytes[field::SQRV];
    Ok(IgmpRepr::MembershipQueryV3 {
        max_resp_code,
        group_addr,
        s_flag: sqrv / 8 % 2 == 1,
        qrv: sqrv % 8,
        qqic: bytes[field::QQIC],
        num_srcs,
    })
}

/// A report of version 3, all of whose records are there.
fn read_report(packet: &IgmpPacket) -> Result<IgmpRepr, Error>
    requires whole { IsWhole (bytes_of packet.now) }
    requires kind { slice_index (bytes_of packet.now) 0 ≡ 34 }
    ensures found { IfOk result (λ v. Says (bytes_of packet.now) v) }
    ensures only { (v : IgmpRepr) → Says (bytes_of packet.now) v → result ≡ Ok v }
{
    let num_records = packet.number(field::NUM_RECORDS.start);
    let report = IgmpRepr::MembershipReportV3 { num_records };
    if !are_records(packet.carried(&report), ADDRESS_LEN, num_records) {
        return Err(Error);
    }
    Ok(report)
}

//! A message as a value.
ghost use Rattle.std.specs.Prelude.{◌≡◌, ℕ, ◌+◌, ◌*◌, ◌/◌, ◌%◌, ◌==◌, ◌<◌, ◌≤◌, ◌^◌, ◌↔◌, IsOk, IfOk, [], ◌∷◌, ◌++◌, if◌then◌else◌, length, slice_index, slice_range};
ghost use Rattle.std.specs.Int.{w16, to_be_bytes};
ghost use Rattle.wire_address.specs.Fields.{put16};
ghost use Rattle.base_device.specs.Capabilities.{verifies, computes};
ghost use Rattle.wire_mld.specs.Mld.{IsMld, IsWhole, Says, Fits, bytes_of, bytes_in, name_of, checksum_of, header_len, sent_fields, spelling, written};
ghost use Rattle.wire_mld.specs.MldMessage.{message_number};
ghost use Rattle.wire_mld.specs.declared.repr.MldRepr.{MldRepr};

use crate::field;
use crate::message::MldMessage;
use crate::packet::MldPacket;
use crate::packet_mut::MldPacketMut;
use base_device::ChecksumCapabilities;
use wire_address::network_order::write_u16;
use wire_address::{Error, Ipv6Address};
use wire_igmp::are_records;

/// The hop-by-hop header of eight bytes that all messages are sent behind (RFC 3810, section 5):
/// ICMPv6 follows, and each router on the way looks at the packet (RFC 2711).
pub const MLD_HOP_BY_HOP: [u8; 8] = [58, 0, 5, 2, 0, 0, 1, 0];

/// The width of an address.
const ADDRESS_LEN: usize = 16;

/// A message, but for the sources and the records that it carries.
#[derive(Clone, Copy, Debug, PartialEq, Eq)]
pub enum MldRepr {
    /// A query of version 1; of all groups where its group is `::`.
    QueryV1 {
        /// In milliseconds.
        max_resp_code: u16,
        mcast_addr: Ipv6Address,
    },
    /// A query of version 2, followed by sources.
    Query {
        /// In milliseconds below 32,768, else a floating-point number.
        max_resp_code: u16,
        mcast_addr: Ipv6Address,
        /// Routers that hear the query leave their timers as they are.
        s_flag: bool,
        /// The querier's robustness variable, below 8.
        qrv: u8,
        /// The querier's query interval in seconds below 128, else a floating-point number.
        qqic: u8,
        num_srcs: u16,
    },
    ReportV1 {
        mcast_addr: Ipv6Address,
    },
    Done {
        mcast_addr: Ipv6Address,
    },
    /// A report of version 2, followed by group records.
    Report {
        nr_mcast_addr_rcrds: u16,
    },
}

impl MldRepr {
    /// The message in the bytes. Its checksum is tested where the capabilities say that the stack
    /// does so. Other messages are an `Error`.
    pub fn parse(
        src_addr: &Ipv6Address,
        dst_addr: &Ipv6Address,
        packet: &MldPacket,
        checksum_caps: &ChecksumCapabilities,
    ) -> Result<MldRepr, Error>
        requires { length (bytes_of packet.now) < 2 ^ 32 }
        ensures found { IfOk result
            (λ v. IsMld src_addr.now dst_addr.now (verifies checksum_caps.now.icmpv6) (bytes_of packet.now) v) }
        ensures only { (v : MldRepr)
            → IsMld src_addr.now dst_addr.now (verifies checksum_caps.now.icmpv6) (bytes_of packet.now) v
            → result ≡ Ok v }
    {
        packet.check_len()?;
        if checksum_caps.icmpv6.rx() && !packet.verify_checksum(src_addr, dst_addr) {
            return Err(Error);
        }
        read(packet)
    }

    /// The length of what is written before what the message carries.
    pub const fn header_len(&self) -> usize
        ensures exact { result ≡ header_len self.now }
        ensures small { result ≤ 28 }
    {
        match self {
            MldRepr::Query { .. } => field::QUERY_END,
            MldRepr::Report { .. } => field::HEADER_END,
            _ => field::MESSAGE_END,
        }
    }

    /// Writes the message with what it carries over the whole buffer, with a checksum where the
    /// capabilities say that the stack computes it, else with 0.
    pub fn emit(
        &self,
        src_addr: &Ipv6Address,
        dst_addr: &Ipv6Address,
        packet: &mut MldPacketMut,
        carried: &[u8],
        checksum_caps: &ChecksumCapabilities,
    )
        requires room { length (bytes_in packet.old) ≡ header_len self.now + length carried.now }
        requires small { length (bytes_in packet.old) < 2 ^ 32 }
        requires fits { Fits self.now }
        ensures same_reference { name_of packet.new ≡ name_of packet.old }
        ensures bytes { bytes_in packet.new
            ≡ written src_addr.now dst_addr.now (computes checksum_caps.now.icmpv6) self.now carried.now }
    {
        self.spell(packet.buffer, carried);
        if checksum_caps.icmpv6.tx() {
            seal(packet.buffer, src_addr, dst_addr);
        }
    }

    /// Writes the message with 0 for its checksum.
    fn spell(&self, buffer: &mut [u8], carried: &[u8])
        requires room { length buffer.old ≡ header_len self.now + length carried.now }
        requires fits { Fits self.now }
        ensures { buffer.new ≡ spelling self.now (sent_fields 0) carried.now }
    {
        match *self {
            MldRepr::QueryV1 {
                max_resp_code,
                mcast_addr,
            } => {
                put_message(
                    buffer,
                    MldMessage::MldQuery,
                    max_resp_code,
                    &mcast_addr,
                    carried,
                );
            }
            MldRepr::Query {
                max_resp_code,
                mcast_addr,
                s_flag,
                qrv,
                qqic,
                num_srcs,
            } => {
                let (start, rest) = buffer.split_at_mut(field::QUERY_END);
                let tail = query_tail(s_flag, qrv, qqic, num_srcs);
                put_message(
                    start,
                    MldMessage::MldQuery,
                    max_resp_code,
                    &mcast_addr,
                    &tail,
                );
                rest.copy_from_slice(carried);
            }
            MldRepr::ReportV1 { mcast_addr } => {
                put_message(buffer, MldMessage::MldReportV1, 0, &mcast_addr, carried);
            }
            MldRepr::Done { mcast_addr } => {
                put_message(buffer, MldMessage::MldDone, 0, &mcast_addr, carried);
            }
            MldRepr::Report {
                nr_mcast_addr_rcrds,
            } => {
                let (start, rest) = buffer.split_at_mut(field::HEADER_END);
                let [high, low] = nr_mcast_addr_rcrds.to_be_bytes();
                start.copy_from_slice(&[MldMessage::MldReport.into(), 0, 0, 0, 0, 0, high, low]);
                rest.copy_from_slice(carried);
            }
        }
    }
}

/// What stands after the group in a query of version 2.
fn query_tail(s_flag: bool, qrv: u8, qqic: u8, num_srcs: u16) -> [u8; 4]
    requires { qrv < 8 }
    ensures { result ≡ ((if s_flag then 8 else 0) + qrv) ∷ qqic ∷ to_be_bytes w16 num_srcs }
{
    let [high, low] = num_srcs.to_be_bytes();
    let suppress = if s_flag { 8 } else { 0 };
    [suppress + qrv, qqic, high, low]
}

/// Writes a message of this type and group over the whole buffer, with this number after a checksum
/// of 0.
fn put_message(
    buffer: &mut [u8],
    kind: MldMessage,
    number: u16,
    mcast_addr: &Ipv6Address,
    carried: &[u8],
)
    requires { length buffer.old ≡ 24 + length carried.now }
    ensures { buffer.new
        ≡ message_number kind ∷ 0 ∷ 0 ∷ 0 ∷ (to_be_bytes w16 number ++ 0 ∷ 0 ∷ (mcast_addr.now.0 ++ carried.now)) }
{
    let [high, low] = number.to_be_bytes();
    let (start, rest) = buffer.split_at_mut(field::QUERY_MCAST_ADDR.start);
    start.copy_from_slice(&[kind.into(), 0, 0, 0, high, low, 0, 0]);
    let (middle, end) = rest.split_at_mut(ADDRESS_LEN);
    middle.copy_from_slice(&mcast_addr.0);
    end.copy_from_slice(carried);
}

/// Puts the checksum of a message whose field holds 0 into the field.
fn seal(message: &mut [u8], src_addr: &Ipv6Address, dst_addr: &Ipv6Address)
    requires whole { 8 ≤ length message.old }
    requires small { length message.old < 2 ^ 32 }
    ensures { message.new ≡ put16 message.old 2 (checksum_of src_addr.now dst_addr.now message.old) }
{
    let sum = MldPacket::new_unchecked(message).sum(src_addr, dst_addr);
    write_u16(message, field::CHECKSUM.start, 0xffff - sum);
}

/// What the bytes say, whatever their checksum.
fn read(packet: &MldPacket) -> Result<MldRepr, Error>
    requires { IsWhole (bytes_of packet.now) }
    ensures found { IfOk result (λ v. Says (bytes_of packet.now) v) }
    ensures only { (v : MldRepr) → Says (bytes_of packet.now) v → result ≡ Ok v }
{
    match packet.msg_type() {
        MldMessage::MldQuery => read_query(packet),
        MldMessage::MldReportV1 => Ok(MldRepr::ReportV1 {
            mcast_addr: group(packet)?,
        }),
        MldMessage::MldDone => Ok(MldRepr::Done {
            mcast_addr: group(packet)?,
        }),
        MldMessage::MldReport => read_report(packet),
        MldMessage::Unknown(_) => Err(Error),
    }
}

/// The group that a message names, if it is there.
fn group(packet: &MldPacket) -> Result<Ipv6Address, Error>
    ensures there { IsOk result ↔ (24 ≤ length (bytes_of packet.now)) }
    ensures group { IfOk result (λ a. a.0 ≡ slice_range (bytes_of packet.now) 8 24) }
{
    if packet.into_inner().len() < field::MESSAGE_END {
        return Err(Error);
    }
    Ok(packet.mcast_addr())
}

/// A query: of version 1 where it has exactly 24 bytes, of version 2 from 28 on.
fn read_query(packet: &MldPacket) -> Result<MldRepr, Error>
    requires whole { IsWhole (bytes_of packet.now) }
    requires kind { slice_index (bytes_of packet.now) 0 ≡ 130 }
    ensures found { IfOk result (λ v. Says (bytes_of packet.now) v) }
    ensures only { (v : MldRepr) → Says (bytes_of packet.now) v → result ≡ Ok v }
{
    let bytes = packet.into_inner();
    let max_resp_code = packet.number(field::QUERY_MAX_RESP_CODE.start);
    let mcast_addr = group(packet)?;
    if bytes.len() == field::MESSAGE_END {
        return Ok(MldRepr::QueryV1 {
            max_resp_code,
            mcast_addr,
        });
    }
    if bytes.len() < field::QUERY_END {
        return Err(Error);
    }
    let num_srcs = packet.number(field::QUERY_NUM_SRCS.start);
    if bytes.len() < field::QUERY_END + ADDRESS_LEN * num_srcs as usize {
        return Err(Error);
    }
    let sqrv = bytes[field::SQRV];
    Ok(MldRepr::Query {
        max_resp_code,
        mcast_addr,
        s_flag: sqrv / 8 % 2 == 1,
        qrv: sqrv % 8,
        qqic: bytes[field::QQIC],
        num_srcs,
    })
}

/// A report of version 2, all of whose records are there.
fn read_report(packet: &MldPacket) -> Result<MldRepr, Error>
    requires whole { IsWhole (bytes_of packet.now) }
    requires kind { slice_index (bytes_of packet.now) 0 ≡ 143 }
    ensures found { IfOk result (λ v. Says (bytes_of packet.now) v) }
    ensures only { (v : MldRepr) → Says (bytes_of packet.now) v → result ≡ Ok v }
{
    let nr_mcast_addr_rcrds = packet.number(field::NR_MCAST_RCRDS.start);
    let report = MldRepr::Report {
        nr_mcast_addr_rcrds,
    };
    if !are_records(packet.carried(&report), ADDRESS_LEN, nr_mcast_addr_rcrds) {
        return Err(Error);
    }
    Ok(report)
}

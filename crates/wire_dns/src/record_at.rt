//! Records.
ghost use Rattle.std.specs.Prelude.{◌≡◌, ℕ, ◌+◌, ◌≤◌, IfOk, Ok, length, slice_range};
ghost use Rattle.wire_dns.specs.Message.{IsData, IsRecord};
ghost use Rattle.wire_dns.specs.declared.record_at.DnsRecord.{DnsRecord};
ghost use Rattle.wire_dns.specs.declared.record_at.DnsRecordData.{DnsRecordData};

use crate::codes::DnsQueryType;
use crate::field::CLASS_IN;
use crate::name::DnsName;
use wire_address::network_order::{read_u16, read_u32};
use wire_address::{Error, Ipv4Address, Ipv6Address};

/// What a name has.
#[derive(Clone, Debug, Drop)]
pub struct DnsRecord {
    pub name: DnsName,
    /// For how many seconds the record counts.
    pub ttl: u32,
    pub data: DnsRecordData,
}

/// What a record holds.
#[derive(Clone, Debug, Drop)]
pub enum DnsRecordData {
    A(Ipv4Address),
    Aaaa(Ipv6Address),
    /// Another name, which is the true one.
    Cname(DnsName),
    /// A record of another type or class: its type, where what it holds begins in the message, and
    /// how long that is.
    Other(DnsQueryType, usize, usize),
}

impl DnsRecord {
    /// The record that stands at a place of a message, and where it ends.
    pub fn parse(message: &[u8], at: usize) -> Result<(DnsRecord, usize), Error>
        ensures found { IfOk result (λ p. IsRecord message.now at p.0 p.1) }
        ensures only { (answer : DnsRecord) (end : ℕ) → IsRecord message.now at answer end
            → result ≡ Ok (answer, end) }
    {
        let (name, name_end) = DnsName::parse(message, at)?;
        if name_end > message.len() || message.len() - name_end < 10 {
            return Err(Error);
        }
        let len = read_u16(message, name_end + 8) as usize;
        if len > message.len() - name_end - 10 {
            return Err(Error);
        }
        let class = read_u16(message, name_end + 2);
        let kind = read_u16(message, name_end);
        let data = data_at(message, class, kind, name_end + 10, len)?;
        let ttl = read_u32(message, name_end + 4);
        Ok((DnsRecord { name, ttl, data }, name_end + 10 + len))
    }
}

/// What a record of a type and a class holds in the bytes from `start`, so many.
fn data_at(
    message: &[u8],
    class: u16,
    kind: u16,
    start: usize,
    len: usize,
) -> Result<DnsRecordData, Error>
    requires { start + len ≤ length message.now }
    ensures found { IfOk result (λ held. IsData message.now class kind start len held) }
    ensures only { (held : DnsRecordData) → IsData message.now class kind start len held
        → result ≡ Ok held }
{
    if class != CLASS_IN {
        return Ok(DnsRecordData::Other(DnsQueryType::from_number(kind), start, len));
    }
    match kind {
        1 => address(message, start, len),
        28 => address_v6(message, start, len),
        5 => cname(message, start, len),
        _ => Ok(DnsRecordData::Other(DnsQueryType::from_number(kind), start, len)),
    }
}

/// The address of an A record.
fn address(message: &[u8], start: usize, len: usize) -> Result<DnsRecordData, Error>
    requires { start + len ≤ length message.now }
    ensures found { IfOk result (λ held. IsData message.now 1 1 start len held) }
    ensures only { (held : DnsRecordData) → IsData message.now 1 1 start len held
        → result ≡ Ok held }
{
    if len != 4 {
        return Err(Error);
    }
    let mut octets = [0; 4];
    octets.copy_from_slice(&message[start..start + 4]);
    Ok(DnsRecordData::A(Ipv4Address(octets)))
}

/// The address of an AAAA record.
fn address_v6(message: &[u8], start: usize, len: usize) -> Result<DnsRecordData, Error>
    requires { start + len ≤ length message.now }
    ensures found { IfOk result (λ held. IsData message.now 1 28 start len held) }
    ensures only { (held : DnsRecordData) → IsData message.now 1 28 start len held
        → result ≡ Ok held }
{
    if len != 16 {
        return Err(Error);
    }
    let mut octets = [0; 16];
    octets.copy_from_slice(&message[start..start + 16]);
    Ok(DnsRecordData::Aaaa(Ipv6Address(octets)))
}

/// The name of a CNAME record, which fills what the record holds.
fn cname(message: &[u8], start: usize, len: usize) -> Result<DnsRecordData, Error>
    requires { start + len ≤ length message.now }
    ensures found { IfOk result (λ held. IsData message.now 1 5 start len held) }
    ensures only { (held : DnsRecordData) → IsData message.now 1 5 start len held
        → result ≡ Ok held }
{
    let (name, end) = DnsName::parse(message, start)?;
    if end != start + len {
        return Err(Error);
    }
    Ok(DnsRecordData::Cname(name))
}

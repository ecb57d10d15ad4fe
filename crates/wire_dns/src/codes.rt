//! Types of records, kinds of queries, response codes and flags.
ghost use Rattle.std.specs.Prelude.{◌≡◌, ◌<◌, if◌then◌else◌};
ghost use Rattle.wire_dns.specs.Codes.{type_of, type_number, opcode_of, opcode_number, rcode_of, flags_of, high_byte, low_byte};

/// What a query asks for, and what a record holds.
#[derive(Clone, Copy, Debug, PartialEq, Eq)]
pub enum DnsQueryType {
    A,
    Ns,
    Cname,
    Soa,
    Aaaa,
    Unknown(u16),
}

/// The kind of a query.
#[derive(Clone, Copy, Debug, PartialEq, Eq)]
pub enum DnsOpcode {
    Query,
    Status,
    Unknown(u8),
}

/// How a query went.
#[derive(Clone, Copy, Debug, PartialEq, Eq)]
pub enum DnsRcode {
    NoError,
    FormErr,
    ServFail,
    NXDomain,
    NotImp,
    Refused,
    Unknown(u8),
}

/// The flags of a message.
#[derive(Clone, Copy, Debug, PartialEq, Eq)]
pub struct DnsFlags {
    pub response: bool,
    pub authoritative: bool,
    pub truncated: bool,
    pub recursion_desired: bool,
    pub recursion_available: bool,
}

impl DnsQueryType {
    /// The type with this number.
    pub fn from_number(number: u16) -> DnsQueryType
        ensures { result ≡ type_of number }
    {
        match number {
            1 => DnsQueryType::A,
            2 => DnsQueryType::Ns,
            5 => DnsQueryType::Cname,
            6 => DnsQueryType::Soa,
            28 => DnsQueryType::Aaaa,
            _ => DnsQueryType::Unknown(number),
        }
    }

    /// The number of the type.
    pub fn number(self) -> u16
        ensures { result ≡ type_number self }
    {
        match self {
            DnsQueryType::A => 1,
            DnsQueryType::Ns => 2,
            DnsQueryType::Cname => 5,
            DnsQueryType::Soa => 6,
            DnsQueryType::Aaaa => 28,
            DnsQueryType::Unknown(number) => number,
        }
    }
}

impl DnsOpcode {
    /// The kind with this number of four bits.
    pub fn from_number(number: u8) -> DnsOpcode
        ensures { result ≡ opcode_of number }
    {
        match number {
            0 => DnsOpcode::Query,
            2 => DnsOpcode::Status,
            _ => DnsOpcode::Unknown(number),
        }
    }

    /// The number of the kind.
    pub fn number(self) -> u8
        ensures { result ≡ opcode_number self }
    {
        match self {
            DnsOpcode::Query => 0,
            DnsOpcode::Status => 2,
            DnsOpcode::Unknown(number) => number,
        }
    }
}

impl DnsRcode {
    /// The code with this number of four bits.
    pub fn from_number(number: u8) -> DnsRcode
        ensures { result ≡ rcode_of number }
    {
        match number {
            0 => DnsRcode::NoError,
            1 => DnsRcode::FormErr,
            2 => DnsRcode::ServFail,
            3 => DnsRcode::NXDomain,
            4 => DnsRcode::NotImp,
            5 => DnsRcode::Refused,
            _ => DnsRcode::Unknown(number),
        }
    }
}

impl DnsFlags {
    /// The flags in the two bytes that hold them.
    pub(crate) fn from_bytes(high: u8, low: u8) -> DnsFlags
        ensures { result ≡ flags_of high low }
    {
        DnsFlags {
            response: (high >> 7) & 1 == 1,
            authoritative: (high >> 2) & 1 == 1,
            truncated: (high >> 1) & 1 == 1,
            recursion_desired: high & 1 == 1,
            recursion_available: (low >> 7) & 1 == 1,
        }
    }

    /// The first of these bytes, with the kind of query.
    pub(crate) fn high_byte(&self, opcode: DnsOpcode) -> u8
        requires { opcode_number opcode < 16 }
        ensures { result ≡ high_byte self.now opcode }
    {
        weight(self.response, 0x80)
            + 8 * opcode.number()
            + weight(self.authoritative, 0x04)
            + weight(self.truncated, 0x02)
            + weight(self.recursion_desired, 0x01)
    }

    /// The second, with no response code.
    pub(crate) fn low_byte(&self) -> u8
        ensures { result ≡ low_byte self.now }
    {
        weight(self.recursion_available, 0x80)
    }
}

/// What a flag adds to its byte.
fn weight(flag: bool, value: u8) -> u8
    ensures { result ≡ (if flag then value else 0) }
{
    if flag { value } else { 0 }
}

//! What the records of an answer say of a name.
ghost use Rattle.std.specs.Prelude.{◌≡◌, ℕ, false, true, List, length};
ghost use Rattle.wire_dns.specs.declared.record_at.DnsRecord.{DnsRecord};
ghost use Rattle.socket_datagram.specs.DnsClient.Records.{AreRecords, IsCut, HasRecords, is_same_name, alias_by, alias_in, address_by, addresses_of, IsTrueName, Finds};
ghost use Rattle.socket_datagram.specs.DnsClient.Records.{or_name, padded, with_address};

use ip_wire::IpAddress;
use wire_dns::{DnsName, DnsQueryType, DnsRecord, DnsRecordData};

/// How many addresses of a name are kept.
pub const MAX_ADDRESSES: usize = 4;
/// How many aliases of an answer are followed, one after the other.
const MAX_ALIASES: usize = 8;

/// The addresses of a name: the first ones that an answer gives it, without gaps.
pub type Addresses = [Option<IpAddress>; MAX_ADDRESSES];

/// The records of an answer: so many, the first of which stands at a place of a message.
#[derive(Clone, Copy)]
pub(crate) struct Records<'a> {
    pub(crate) message: &'a [u8],
    pub(crate) at: usize,
    pub(crate) count: u16,
}

impl Records<'_> {
    /// Whether they are all there.
    pub(crate) fn are_whole(&self) -> bool
        ensures whole { result ≡ true → HasRecords self.now.message.now self.now.at self.now.count }
        ensures cut { result ≡ false → IsCut self.now.message.now self.now.at self.now.count }
    {
        let mut at = self.at;
        let mut left = self.count;
        'records: while left > 0 {
            let Ok((_record, next)) = DnsRecord::parse(self.message, at) else {
                return false;
            };
            at = next;
            left -= 1;
        }
        true
    }

    /// The addresses of a type that they give a name, or the one at the end of its chain of aliases.
    pub(crate) fn addresses_of(&self, name: &DnsName, type_: DnsQueryType) -> Addresses
        ensures { (rs : List DnsRecord) (end : ℕ) → AreRecords self.now.message.now self.now.at rs end
            → length rs ≡ self.now.count
            → Finds rs name.now type_ result }
    {
        match self.true_name(name) {
            Some(last) => self.addresses_at(&last, type_),
            None => self.addresses_at(name, type_),
        }
    }

    /// The name at the end of the chain of aliases of a name, if it has one.
    fn true_name(&self, name: &DnsName) -> Option<DnsName>
        ensures { (rs : List DnsRecord) (end : ℕ) → AreRecords self.now.message.now self.now.at rs end
            → length rs ≡ self.now.count
            → IsTrueName rs name.now (or_name result name.now) }
    {
        let mut last = None;
        let mut left = MAX_ALIASES;
        'aliases: while left > 0 {
            let Some(target) = self.alias_following(&last, name) else {
                return last;
            };
            last = Some(target);
            left -= 1;
        }
        last
    }

    /// The name of which they say that it is the true one of the last of a chain, if there is one, or else of a name.
    fn alias_following(&self, last: &Option<DnsName>, name: &DnsName) -> Option<DnsName>
        ensures { (rs : List DnsRecord) (end : ℕ) → AreRecords self.now.message.now self.now.at rs end
            → length rs ≡ self.now.count
            → result ≡ alias_in (or_name last.now name.now) rs }
    {
        match last {
            Some(last) => self.alias_of(last),
            None => self.alias_of(name),
        }
    }

    /// The name of which they say that it is the true one of a name.
    fn alias_of(&self, name: &DnsName) -> Option<DnsName>
        ensures { (rs : List DnsRecord) (end : ℕ) → AreRecords self.now.message.now self.now.at rs end
            → length rs ≡ self.now.count
            → result ≡ alias_in name.now rs }
    {
        let mut at = self.at;
        let mut left = self.count;
        'records: while left > 0 {
            let Ok((record, next)) = DnsRecord::parse(self.message, at) else {
                return None;
            };
            let alias = alias_by(record, name);
            if alias.is_some() {
                return alias;
            }
            at = next;
            left -= 1;
        }
        None
    }

    /// The addresses of a type that they give a name itself.
    fn addresses_at(&self, name: &DnsName, type_: DnsQueryType) -> Addresses
        ensures { (rs : List DnsRecord) (end : ℕ) → AreRecords self.now.message.now self.now.at rs end
            → length rs ≡ self.now.count
            → result ≡ padded 4 (addresses_of type_ name.now rs) }
    {
        let mut found = [None; MAX_ADDRESSES];
        let mut count = 0;
        let mut at = self.at;
        let mut left = self.count;
        'records: while left > 0 {
            let Ok((record, next)) = DnsRecord::parse(self.message, at) else {
                return found;
            };
            let address = address_by(&record, name, type_);
            (found, count) = with_address(found, count, address);
            at = next;
            left -= 1;
        }
        found
    }
}

/// Whether two names are the same, whatever the case of their letters (RFC 1035, section 2.3.3).
pub(crate) fn is_same_name(one: &DnsName, other: &DnsName) -> bool
    ensures { result ≡ is_same_name one.now other.now }
{
    one.as_bytes().eq_ignore_ascii_case(other.as_bytes())
}

/// The name of which a record says that it is the true one of a name.
fn alias_by(answer: DnsRecord, name: &DnsName) -> Option<DnsName>
    ensures { result ≡ alias_by name.now answer }
{
    if !is_same_name(&answer.name, name) {
        return None;
    }
    match answer.data {
        DnsRecordData::Cname(target) => Some(target),
        DnsRecordData::A(_) => None,
        DnsRecordData::Aaaa(_) => None,
        DnsRecordData::Other(_, _, _) => None,
    }
}

/// The address of a type that a record gives a name.
fn address_by(answer: &DnsRecord, name: &DnsName, type_: DnsQueryType) -> Option<IpAddress>
    ensures { result ≡ address_by type_ name.now answer.now }
{
    if !is_same_name(&answer.name, name) {
        return None;
    }
    match (&answer.data, type_) {
        (DnsRecordData::A(address), DnsQueryType::A) => Some(IpAddress::Ipv4(*address)),
        (DnsRecordData::Aaaa(address), DnsQueryType::Aaaa) => Some(IpAddress::Ipv6(*address)),
        _ => None,
    }
}

/// So many addresses and another, if there is one and room for it.
fn with_address(
    mut found: Addresses,
    count: usize,
    address: Option<IpAddress>,
) -> (Addresses, usize)
    ensures { result ≡ with_address found count address }
{
    if address.is_some() && count < MAX_ADDRESSES {
        found[count] = address;
        (found, count + 1)
    } else {
        (found, count)
    }
}

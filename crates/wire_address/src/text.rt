//! Readers of the texts of addresses, blocks and endpoints, part by part. How a value is printed, and
//! which of these readers takes its texts, stands alongside its type.
ghost use Rattle.std.specs.Prelude.{◌≡◌, ◌∷◌, ◌++◌, ◌^◌, decimal, ℕ, ◌<◌, ◌⊎◌, ◌≤◌, ◌+◌, List, length, Some, IsSome, IfSome, IsSomeAnd};
ghost use Rattle.std.specs.Char.{digit_char};
ghost use Rattle.std.specs.Str.{IsAscii};
ghost use Rattle.std.specs.Net.Addr.{octets_of, segments_of};
ghost use Rattle.std.specs.Net.Text.{ipv4_text, ipv6_text};
ghost use Rattle.wire_address.specs.Address.{IsEthernetAddress, IsIpv4Address, IsIpv6Address, IsIpAddress};
ghost use Rattle.wire_address.specs.Text.{IsCut, IsCutAtLast, IsDecimal, IsOctet, IsOctetBefore, IsIpv4Text, IsIpv4CidrText, IsIpv4EndpointText};
ghost use Rattle.wire_address.specs.Text.{ipv4_cidr_text, IsHexPair, IsHexPairBefore, IsSixPairs, IsEthernetText, hex_pair, ethernet_text, IsHexGroups};
ghost use Rattle.wire_address.specs.Text.{two_groups, IsDottedEnd, IsIpv6Text, IsIpv6CidrText, ipv6_cidr_text, ip_text, cidr_text, IsIpText, IsIpCidrText};
ghost use Rattle.wire_address.specs.Text.{IsIpv6EndpointText, IsEndpointText};
ghost use Rattle.wire_address.specs.Cidr.{width_of, cidr_address, cidr_prefix_len};

use crate::ethernet::EthernetAddress;
use crate::ip::{IpAddress, IpCidr, IpEndpoint};
use crate::ipv4::{Ipv4Address, Ipv4Cidr};
use crate::ipv6::{Ipv6Address, Ipv6Cidr};
use arrayvec::ArrayString;
use std::net::Ipv6Addr;
use std::{fmt, str};

/// The parts of the text before and after the first `separator`.
pub(crate) fn cut(text: &str, separator: char) -> Option<(&str, &str)>
    requires { separator < 128 }
    ensures found { IfSome result (λ p. IsCut separator text.now p.0.now p.1.now) }
    ensures only { (front back : List ℕ) → IsCut separator text.now front back → IsSomeAnd result (λ p. (p.0.now ≡ front) × (p.1.now ≡ back)) }
{
    text.split_once(separator)
}

/// The parts of the text before and after the last `separator`.
fn cut_last(text: &str, separator: char) -> Option<(&str, &str)>
    requires { separator < 128 }
    ensures found { IfSome result (λ p. IsCutAtLast separator text.now p.0.now p.1.now) }
    ensures only { (front back : List ℕ) → IsCutAtLast separator text.now front back → IsSomeAnd result (λ p. (p.0.now ≡ front) × (p.1.now ≡ back)) }
{
    text.rsplit_once(separator)
}

/// A decimal number without a sign, of any number of digits, that is at most `most`.
pub(crate) fn decimal_number(text: &str, most: u16) -> Option<u16>
    ensures found { IfSome result (IsDecimal most text.now) }
    ensures only { (n : ℕ) → IsDecimal most text.now n → result ≡ Some n }
{
    if text.starts_with('+') {
        return None;
    }
    match text.parse::<u16>() {
        Ok(number) if number <= most => Some(number),
        _ => None,
    }
}

/// A part of an IPv4 address.
pub(crate) fn octet(text: &str) -> Option<u8>
    ensures found { IfSome result (IsOctet text.now) }
    ensures only { (n : ℕ) → IsOctet text.now n → result ≡ Some n }
{
    if text.len() > 3 {
        return None;
    }
    let number = decimal_number(text, 255)?;
    Some(number as u8)
}

/// A part of an IPv4 address before a dot, and what stands after the dot.
pub(crate) fn octet_before(text: &str) -> Option<(u8, &str)>
    ensures found { IfSome result (λ p. IsOctetBefore text.now p.0 p.1.now) }
    ensures only { (n : ℕ) (rest : List ℕ) → IsOctetBefore text.now n rest → IsSomeAnd result (λ p. (p.0 ≡ n) × (p.1.now ≡ rest)) }
{
    let (front, rest) = cut(text, '.')?;
    let number = octet(front)?;
    Some((number, rest))
}

/// Four parts with dots between them.
pub(crate) fn dotted(text: &str) -> Option<Ipv4Address>
    ensures found { IfSome result (IsIpv4Text text.now) }
    ensures only { (address : Ipv4Address) → IsIpv4Text text.now address → result ≡ Some address }
{
    let (a, rest) = octet_before(text)?;
    let (b, rest) = octet_before(rest)?;
    let (c, rest) = octet_before(rest)?;
    let d = octet(rest)?;
    Some(Ipv4Address([a, b, c, d]))
}

/// An IPv4 address, a slash and a prefix length.
pub(crate) fn ipv4_cidr(text: &str) -> Option<Ipv4Cidr>
    ensures found { IfSome result (λ b. IsIpv4CidrText text.now b.address b.prefix_len) }
    ensures only { (a : Ipv4Address) (len : ℕ) → IsIpv4CidrText text.now a len → IsSomeAnd result (λ b. (b.address ≡ a) × (b.prefix_len ≡ len)) }
{
    let (front, digits) = cut(text, '/')?;
    let address = dotted(front)?;
    let len = decimal_number(digits, 32)?;
    Some(Ipv4Cidr::new(address, len as u8))
}

/// An IPv4 address, a colon and a port.
pub(crate) fn ipv4_endpoint(text: &str) -> Option<(Ipv4Address, u16)>
    ensures found { IfSome result (λ p. IsIpv4EndpointText text.now p.0 p.1) }
    ensures only { (a : Ipv4Address) (port : ℕ) → IsIpv4EndpointText text.now a port → IsSomeAnd result (λ p. (p.0 ≡ a) × (p.1 ≡ port)) }
{
    let (front, digits) = cut(text, ':')?;
    let address = dotted(front)?;
    let port = decimal_number(digits, 65535)?;
    Some((address, port))
}

/// A byte as one or two hex digits.
pub(crate) fn hex_byte(text: &str) -> Option<u8>
    ensures found { IfSome result (IsHexPair text.now) }
    ensures only { (n : ℕ) → IsHexPair text.now n → result ≡ Some n }
{
    if text.len() > 2 || text.starts_with('+') {
        return None;
    }
    match u8::from_str_radix(text, 16) {
        Ok(number) => Some(number),
        Err(_) => None,
    }
}

/// Such a byte before the separator, and what stands after that.
pub(crate) fn hex_byte_before(text: &str, separator: char) -> Option<(u8, &str)>
    requires { (separator ≡ 45) ⊎ (separator ≡ 58) }
    ensures found { IfSome result (λ p. IsHexPairBefore separator text.now p.0 p.1.now) }
    ensures only { (n : ℕ) (rest : List ℕ) → IsHexPairBefore separator text.now n rest → IsSomeAnd result (λ p. (p.0 ≡ n) × (p.1.now ≡ rest)) }
{
    let (front, rest) = cut(text, separator)?;
    let number = hex_byte(front)?;
    Some((number, rest))
}

/// Six such bytes with the separator between them.
pub(crate) fn six_bytes(text: &str, separator: char) -> Option<EthernetAddress>
    requires { (separator ≡ 45) ⊎ (separator ≡ 58) }
    ensures found { IfSome result (λ a. IsSixPairs separator text.now a.0) }
    ensures only { (address : EthernetAddress) → IsSixPairs separator text.now address.0 → result ≡ Some address }
{
    let (a, rest) = hex_byte_before(text, separator)?;
    let (b, rest) = hex_byte_before(rest, separator)?;
    let (c, rest) = hex_byte_before(rest, separator)?;
    let (d, rest) = hex_byte_before(rest, separator)?;
    let (e, rest) = hex_byte_before(rest, separator)?;
    let f = hex_byte(rest)?;
    Some(EthernetAddress([a, b, c, d, e, f]))
}

/// The lower-case hex digit of a number.
pub(crate) fn hex_digit(number: u8) -> u8
    requires { number < 16 }
    ensures { result ≡ digit_char number }
{
    if number < 10 {
        b'0' + number
    } else {
        b'a' + (number - 10)
    }
}

/// A byte that is printed as two lower-case hex digits.
#[derive(Clone, Copy)]
pub(crate) struct HexPair(pub(crate) u8);

impl fmt::Display for HexPair {
    ghost output = { λ n. Some (hex_pair n.0) };

    fn fmt<W: fmt::Write>(&self, f: &mut fmt::Formatter<W>) -> fmt::Result {
        let digits = [hex_digit(self.0 / 16), hex_digit(self.0 % 16)];
        f.write_str(str::from_utf8(&digits).map_err(|_| fmt::Error)?)
    }
}

/// The most bytes that eight groups of hex digits have with their colons.
const LONGEST_HEX_GROUPS: usize = 39;

/// Groups of hex digits alone, by the reader of std.
fn hex_groups(text: &str) -> Option<Ipv6Address>
    ensures found { IfSome result (λ a. (segments : List ℕ) × IsHexGroups text.now segments × (a.0 ≡ octets_of segments)) }
    ensures only { (a : Ipv6Address) (segments : List ℕ) → IsHexGroups text.now segments → a.0 ≡ octets_of segments → result ≡ Some a }
{
    if text.contains('.') {
        return None;
    }
    match text.parse::<Ipv6Addr>() {
        Ok(address) => Some(Ipv6Address(address.octets())),
        Err(_) => None,
    }
}

/// A colon and the two groups of hex digits that the IPv4 address stands for.
fn colon_groups(address: Ipv4Address) -> [u8; 10]
    ensures value { result ≡ 58 ∷ two_groups address.0 }
    ensures ascii { IsAscii result }
{
    let [a, b, c, d] = address.0;
    [
        b':',
        hex_digit(a / 16),
        hex_digit(a % 16),
        hex_digit(b / 16),
        hex_digit(b % 16),
        b':',
        hex_digit(c / 16),
        hex_digit(c % 16),
        hex_digit(d / 16),
        hex_digit(d % 16),
    ]
}

/// The front with the IPv4 address after it as two groups of hex digits, where there is room.
fn in_hex(front: &str, address: Ipv4Address) -> Option<ArrayString<LONGEST_HEX_GROUPS>>
    ensures found { IfSome result (λ hex. hex.bytes ≡ front.now ++ 58 ∷ two_groups address.0) }
    ensures room { length front.now + 10 ≤ LONGEST_HEX_GROUPS → IsSome result }
{
    let groups = colon_groups(address);
    let mut hex = ArrayString::new();
    hex.try_push_str(front).ok()?;
    hex.try_push_str(str::from_utf8(&groups).ok()?).ok()?;
    Some(hex)
}

/// The text with the IPv4 address at its end as two groups of hex digits.
fn dotted_end(text: &str) -> Option<ArrayString<LONGEST_HEX_GROUPS>>
    ensures found { IfSome result (λ hex. IsDottedEnd text.now hex.bytes) }
    ensures only { (hex : List ℕ) → IsDottedEnd text.now hex → length hex ≤ LONGEST_HEX_GROUPS → IsSomeAnd result (λ r. r.bytes ≡ hex) }
{
    let (front, tail) = cut_last(text, ':')?;
    in_hex(front, dotted(tail)?)
}

/// The text of an IPv6 address.
pub(crate) fn colon_hex(text: &str) -> Option<Ipv6Address>
    ensures found { IfSome result (IsIpv6Text text.now) }
    ensures only { (address : Ipv6Address) → IsIpv6Text text.now address → result ≡ Some address }
{
    match dotted_end(text) {
        Some(hex) => hex_groups(hex.as_str()),
        None => hex_groups(text),
    }
}

/// An IPv6 address, a slash and a prefix length.
pub(crate) fn ipv6_cidr(text: &str) -> Option<Ipv6Cidr>
    ensures found { IfSome result (λ b. IsIpv6CidrText text.now b.address b.prefix_len) }
    ensures only { (a : Ipv6Address) (len : ℕ) → IsIpv6CidrText text.now a len → IsSomeAnd result (λ b. (b.address ≡ a) × (b.prefix_len ≡ len)) }
{
    let (front, digits) = cut(text, '/')?;
    let address = colon_hex(front)?;
    let len = decimal_number(digits, 128)?;
    Some(Ipv6Cidr::new(address, len as u8))
}

/// An address of either family.
pub(crate) fn ip_address(text: &str) -> Option<IpAddress>
    ensures found { IfSome result (IsIpText text.now) }
    ensures only { (address : IpAddress) → IsIpText text.now address → result ≡ Some address }
{
    match dotted(text) {
        Some(address) => Some(IpAddress::Ipv4(address)),
        None => match colon_hex(text) {
            Some(address) => Some(IpAddress::Ipv6(address)),
            None => None,
        },
    }
}

/// The greatest prefix length of the address's family.
pub(crate) fn width(address: IpAddress) -> u8
    ensures { result ≡ width_of address }
{
    match address {
        IpAddress::Ipv4(_) => 32,
        IpAddress::Ipv6(_) => 128,
    }
}

/// An address of either family, a slash and a prefix length.
pub(crate) fn ip_cidr(text: &str) -> Option<IpCidr>
    ensures found { IfSome result (λ b. IsIpCidrText text.now (cidr_address b) (cidr_prefix_len b)) }
    ensures only { (a : IpAddress) (len : ℕ) → IsIpCidrText text.now a len → IsSomeAnd result (λ b. (cidr_address b ≡ a) × (cidr_prefix_len b ≡ len)) }
{
    let (front, digits) = cut(text, '/')?;
    let address = ip_address(front)?;
    let len = decimal_number(digits, width(address) as u16)?;
    Some(IpCidr::new(address, len as u8))
}

/// What stands after the first character of the text, if it is this one.
pub(crate) fn after(text: &str, first: char) -> Option<&str>
    requires { first < 128 }
    ensures found { IfSome result (λ r. text.now ≡ first ∷ r.now) }
    ensures only { (rest : List ℕ) → text.now ≡ first ∷ rest → IsSomeAnd result (λ r. r.now ≡ rest) }
{
    let (front, rest) = cut(text, first)?;
    if front.is_empty() { Some(rest) } else { None }
}

/// An IPv6 address in brackets, a colon and a port.
pub(crate) fn ipv6_endpoint(text: &str) -> Option<(Ipv6Address, u16)>
    ensures found { IfSome result (λ p. IsIpv6EndpointText text.now p.0 p.1) }
    ensures only { (a : Ipv6Address) (port : ℕ) → IsIpv6EndpointText text.now a port → IsSomeAnd result (λ p. (p.0 ≡ a) × (p.1 ≡ port)) }
{
    let inner = after(text, '[')?;
    let (front, rest) = cut(inner, ']')?;
    let digits = after(rest, ':')?;
    let address = colon_hex(front)?;
    let port = decimal_number(digits, 65535)?;
    Some((address, port))
}

/// An endpoint of either family.
pub(crate) fn ip_endpoint(text: &str) -> Option<IpEndpoint>
    ensures found { IfSome result (IsEndpointText text.now) }
    ensures only { (endpoint : IpEndpoint) → IsEndpointText text.now endpoint → result ≡ Some endpoint }
{
    match ipv4_endpoint(text) {
        Some((address, port)) => Some(IpEndpoint::new(IpAddress::Ipv4(address), port)),
        None => match ipv6_endpoint(text) {
            Some((address, port)) => Some(IpEndpoint::new(IpAddress::Ipv6(address), port)),
            None => None,
        },
    }
}

/// Law: a text spells at most one address.
pub fn one_reading()
    ensures ipv4 { (text : List ℕ) (a b : Ipv4Address) → IsIpv4Text text a → IsIpv4Text text b → a ≡ b }
    ensures ipv6 { (text : List ℕ) (a b : Ipv6Address) → IsIpv6Text text a → IsIpv6Text text b → a ≡ b }
    ensures address { (text : List ℕ) (a b : IpAddress) → IsIpText text a → IsIpText text b → a ≡ b }
{}

/// Law: what is printed of an address, a block or an IPv4 endpoint is a text that is read as the
/// same value.
pub fn printed_reads_back()
    ensures ethernet { (a : EthernetAddress) → IsEthernetAddress a → IsEthernetText (ethernet_text a.0) a }
    ensures ipv4 { (a : Ipv4Address) → IsIpv4Address a → IsIpv4Text (ipv4_text a.0) a }
    ensures ipv6 { (a : Ipv6Address) → IsIpv6Address a → IsIpv6Text (ipv6_text (segments_of a.0)) a }
    ensures address { (a : IpAddress) → IsIpAddress a → IsIpText (ip_text a) a }
    ensures ipv4_cidr { (b : Ipv4Cidr) → IsIpv4Address b.address → IsIpv4CidrText (ipv4_cidr_text b) b.address b.prefix_len }
    ensures ipv6_cidr { (b : Ipv6Cidr) → IsIpv6Address b.address → IsIpv6CidrText (ipv6_cidr_text b) b.address b.prefix_len }
    ensures cidr { (b : IpCidr) → IsIpAddress (cidr_address b) → IsIpCidrText (cidr_text b) (cidr_address b) (cidr_prefix_len b) }
    ensures ipv4_endpoint { (a : Ipv4Address) (port : ℕ) → IsIpv4Address a → port < 2 ^ 16 → IsIpv4EndpointText (ipv4_text a.0 ++ 58 ∷ decimal port) a port }
{}

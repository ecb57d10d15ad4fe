//! The words of a line, and the classes that they come in.
ghost use Rattle.std.specs.Prelude.{◌≡◌, ℕ, ℤ, ◌^◌, ◌<◌, List, Option, drop, slice_get, option_copied, [], Some, IfSome, OnSome, length, ◌==◌};
ghost use Rattle.std.specs.List.{list_all};
ghost use Rattle.std.specs.Char.{is_ascii_digit};
ghost use Rattle.net_base.specs.declared.Medium.{Medium};
ghost use Rattle.ip_wire.specs.EthernetAddress.{EthernetAddress};
ghost use Rattle.ip_wire.specs.IpAddress.{IpAddress};
ghost use Rattle.ip_wire.specs.IpCidr.{IpCidr};
ghost use Rattle.ip_wire.specs.IpEndpoint.{IpEndpoint};
ghost use Rattle.ip_wire.specs.IpVersion.{IpVersion};
ghost use Rattle.ip_wire.specs.Text.{IsEndpointText, IsIpText, IsEthernetText};
ghost use Rattle.sim_link.specs.declared.kinds.Side.{Side};
ghost use Rattle.sim_link.specs.declared.kinds.SocketKind.{SocketKind};
ghost use Rattle.sim_link.specs.declared.verb.Verb.{Verb};
ghost use Rattle.sim_link.specs.Verbs.{verb_of};
ghost use Rattle.sim_link.specs.Words.{words_of, number_of, size_of, short_of, micros_of, side_of, medium_of, kind_of, version_of, protocol_of};
ghost use Rattle.sim_link.specs.Words.{four_digits_of, hex_bytes_of, First, FirstIs, IsCidrText, AreBlocks};

use crate::cidrs::Blocks;
use crate::hex_bytes::HexBytes;
use crate::kinds::{Side, SocketKind};
use crate::verb::Verb;
use hex::FromHex;
use ip_wire::{EthernetAddress, IpAddress, IpCidr, IpEndpoint, IpVersion};
use net_base::{Instant, Medium};
use std::marker::Model;

/// What is left of the words of a text, where each two have one separator between them.
#[derive(Drop)]
pub struct Words<'a> {
    separator: char,
    rest: Option<&'a str>,
}

impl<'a> Model for Words<'a> {
    ghost use Rattle.std.specs.Prelude.{List, ℕ, ◌<◌};

    ghost Value = { List (List ℕ) };

    ghost use Rattle.sim_link.specs.declared.verb.Verb.{Verb};
    ghost use Rattle.sim_link.specs.Verbs.{verb_of};
    ghost use Rattle.sim_link.specs.Words.{words_left};

    ghost view = { λ w. words_left w.separator w.rest };

    ghost invariant = { λ w. w.separator < 128 };
}

impl<'a> Words<'a> {
    /// The words of a text, which a separator of ASCII keeps apart.
    pub fn new(text: &'a str, separator: char) -> Words<'a>
        requires { separator < 128 }
        ensures { result ≡ words_of separator text.now }
    {
        Words {
            separator,
            rest: Some(text),
        }
    }

    /// The next word, if there is one left.
    pub fn word(&mut self) -> Option<&'a str>
        ensures word { option_copied result ≡ slice_get self.old 0 }
        ensures rest { self.new ≡ drop 1 self.old }
    {
        let rest = self.rest?;
        match rest.split_once(self.separator) {
            Some((word, rest)) => {
                self.rest = Some(rest);
                Some(word)
            }
            None => {
                self.rest = None;
                Some(rest)
            }
        }
    }

    /// Whether no word is left.
    pub fn is_empty(&self) -> bool
        ensures { result ≡ (length self.now == 0) }
    {
        self.rest.is_none()
    }

    /// What a line begins with.
    pub fn verb(&mut self) -> Option<Verb>
        ensures found { IfSome result (First verb_of self.old) }
        ensures only { (x : Verb) → First verb_of self.old x → result ≡ Some x }
        ensures rest { self.new ≡ drop 1 self.old }
    {
        let word = self.word()?;
        Verb::from_name(word)
    }

    /// A host's name.
    pub fn side(&mut self) -> Option<Side>
        ensures found { IfSome result (First side_of self.old) }
        ensures only { (x : Side) → First side_of self.old x → result ≡ Some x }
        ensures rest { self.new ≡ drop 1 self.old }
    {
        self.word().and_then(side)
    }

    /// A link's medium.
    pub fn medium(&mut self) -> Option<Medium>
        ensures found { IfSome result (First medium_of self.old) }
        ensures only { (x : Medium) → First medium_of self.old x → result ≡ Some x }
        ensures rest { self.new ≡ drop 1 self.old }
    {
        self.word().and_then(medium)
    }

    /// A kind of sockets.
    pub fn kind(&mut self) -> Option<SocketKind>
        ensures found { IfSome result (First kind_of self.old) }
        ensures only { (x : SocketKind) → First kind_of self.old x → result ≡ Some x }
        ensures rest { self.new ≡ drop 1 self.old }
    {
        self.word().and_then(kind)
    }

    /// A version of IP, or either.
    pub fn version(&mut self) -> Option<Option<IpVersion>>
        ensures found { IfSome result (First version_of self.old) }
        ensures only { (x : Option IpVersion) → First version_of self.old x → result ≡ Some x }
        ensures rest { self.new ≡ drop 1 self.old }
    {
        self.word().and_then(version)
    }

    /// A protocol's number, or any.
    pub fn protocol(&mut self) -> Option<Option<u8>>
        ensures found { IfSome result (First protocol_of self.old) }
        ensures only { (x : Option ℕ) → First protocol_of self.old x → result ≡ Some x }
        ensures rest { self.new ≡ drop 1 self.old }
    {
        self.word().and_then(protocol)
    }

    /// An offset, a size or a count.
    pub fn size(&mut self) -> Option<usize>
        ensures found { IfSome result (First size_of self.old) }
        ensures only { (x : ℕ) → First size_of self.old x → result ≡ Some x }
        ensures rest { self.new ≡ drop 1 self.old }
    {
        self.word().and_then(size)
    }

    /// A port, an identifier or a budget.
    pub fn short(&mut self) -> Option<u16>
        ensures found { IfSome result (First short_of self.old) }
        ensures only { (x : ℕ) → First short_of self.old x → result ≡ Some x }
        ensures rest { self.new ≡ drop 1 self.old }
    {
        self.word().and_then(short)
    }

    /// Four hex digits.
    pub fn four_digits(&mut self) -> Option<u16>
        ensures found { IfSome result (First four_digits_of self.old) }
        ensures only { (x : ℕ) → First four_digits_of self.old x → result ≡ Some x }
        ensures rest { self.new ≡ drop 1 self.old }
    {
        self.word().and_then(four_digits)
    }

    /// An instant, as a count of microseconds.
    pub fn instant(&mut self) -> Option<Instant>
        ensures found { IfSome result (First micros_of self.old) }
        ensures only { (x : ℤ) → First micros_of self.old x → result ≡ Some x }
        ensures rest { self.new ≡ drop 1 self.old }
    {
        self.word().and_then(instant)
    }

    /// An address and a port.
    pub fn endpoint(&mut self) -> Option<IpEndpoint>
        ensures found { IfSome result (FirstIs IsEndpointText self.old) }
        ensures only { (x : IpEndpoint) → FirstIs IsEndpointText self.old x → result ≡ Some x }
        ensures rest { self.new ≡ drop 1 self.old }
    {
        self.word()?.parse().ok()
    }

    /// An address of either family.
    pub fn address(&mut self) -> Option<IpAddress>
        ensures found { IfSome result (FirstIs IsIpText self.old) }
        ensures only { (x : IpAddress) → FirstIs IsIpText self.old x → result ≡ Some x }
        ensures rest { self.new ≡ drop 1 self.old }
    {
        self.word()?.parse().ok()
    }

    /// An Ethernet address.
    pub fn ethernet(&mut self) -> Option<EthernetAddress>
        ensures found { IfSome result (FirstIs IsEthernetText self.old) }
        ensures only { (x : EthernetAddress) → FirstIs IsEthernetText self.old x → result ≡ Some x }
        ensures rest { self.new ≡ drop 1 self.old }
    {
        self.word()?.parse().ok()
    }

    /// Bytes in hex.
    pub fn bytes(&mut self) -> Option<HexBytes<'a>>
        ensures found { IfSome result (First hex_bytes_of self.old) }
        ensures only { (x : List ℕ) → First hex_bytes_of self.old x → result ≡ Some x }
        ensures rest { self.new ≡ drop 1 self.old }
    {
        self.word().and_then(HexBytes::from_text)
    }

    /// All words that are left, as at most four CIDR blocks.
    pub fn blocks(&mut self) -> Option<Blocks>
        ensures found { IfSome result (AreBlocks self.old) }
        ensures only { (x : List IpCidr) → AreBlocks self.old x → result ≡ Some x }
        ensures rest { OnSome result (self.new ≡ []) }
    {
        let mut found = Blocks::new();
        while let Some(word) = self.word() {
            let cidr = cidr(word)?;
            if !found.push(cidr) {
                return None;
            }
        }
        Some(found)
    }
}

fn is_digits(word: &str) -> bool
    ensures { result ≡ list_all is_ascii_digit word.now }
{
    word.bytes().all(|b| b.is_ascii_digit())
}

fn side(word: &str) -> Option<Side>
    ensures { result ≡ side_of word.now }
{
    match word {
        "A" => Some(Side::A),
        "B" => Some(Side::B),
        _ => None,
    }
}

fn medium(word: &str) -> Option<Medium>
    ensures { result ≡ medium_of word.now }
{
    match word {
        "eth" => Some(Medium::Ethernet),
        "ip" => Some(Medium::Ip),
        _ => None,
    }
}

fn kind(word: &str) -> Option<SocketKind>
    ensures { result ≡ kind_of word.now }
{
    match word {
        "udp" => Some(SocketKind::Udp),
        "icmp" => Some(SocketKind::Icmp),
        "raw" => Some(SocketKind::Raw),
        "tcp" => Some(SocketKind::Tcp),
        _ => None,
    }
}

fn version(word: &str) -> Option<Option<IpVersion>>
    ensures { result ≡ version_of word.now }
{
    match word {
        "4" => Some(Some(IpVersion::Ipv4)),
        "6" => Some(Some(IpVersion::Ipv6)),
        "any" => Some(None),
        _ => None,
    }
}

fn protocol(word: &str) -> Option<Option<u8>>
    ensures { result ≡ protocol_of word.now }
{
    if word == "any" {
        return Some(None);
    }
    let number = byte(word)?;
    Some(Some(number))
}

fn byte(word: &str) -> Option<u8>
    ensures { result ≡ number_of (2 ^ 8) word.now }
{
    if is_digits(word) {
        word.parse().ok()
    } else {
        None
    }
}

fn short(word: &str) -> Option<u16>
    ensures { result ≡ short_of word.now }
{
    if is_digits(word) {
        word.parse().ok()
    } else {
        None
    }
}

fn size(word: &str) -> Option<usize>
    ensures { result ≡ size_of word.now }
{
    if is_digits(word) {
        word.parse().ok()
    } else {
        None
    }
}

fn instant(word: &str) -> Option<Instant>
    ensures { result ≡ micros_of word.now }
{
    if is_digits(word) {
        let micros = word.parse().ok()?;
        Some(Instant::from_micros(micros))
    } else {
        None
    }
}

fn cidr(word: &str) -> Option<IpCidr>
    ensures found { IfSome result (IsCidrText word.now) }
    ensures only { (x : IpCidr) → IsCidrText word.now x → result ≡ Some x }
{
    word.parse().ok()
}

fn four_digits(word: &str) -> Option<u16>
    ensures { result ≡ four_digits_of word.now }
{
    let [high, low] = <[u8; 2] as FromHex>::from_hex(word).ok()?;
    Some(u16::from(high) * 256 + u16::from(low))
}

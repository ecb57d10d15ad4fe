//! The texts of lines.
ghost use Rattle.std.specs.Prelude.{◌≡◌, ℕ, List, [], ◌∷◌, ◌++◌, map, codes, IfOk, OnOk, IfSome};
ghost use Rattle.std.specs.List.{join_with_byte};
ghost use Rattle.std.specs.Fmt.{decimal};
ghost use Rattle.std.specs.String.{string_bytes};
ghost use Rattle.ip_wire.specs.Text.{cidr_text};
ghost use Rattle.sim_link.specs.Text.{side_text, medium_text, version_text, endpoint_word, hex_word, four_digits, protocol_text, queue_words, line_text};
ghost use Rattle.sim_link.specs.declared.kinds.SocketSpec.TheVariants.{Raw, Tcp};
ghost use Rattle.sim_link.specs.declared.line.Line.TheVariants.{World, Socket, Connect, SendTo, SendIcmp, Addrs, Hw, Route, Poll, PollAt, Damage, Noise};

use crate::cidrs::Blocks;
use crate::hex_bytes::HexBytes;
use crate::kinds::{QueueSizes, Side, SocketSpec, StreamSizes};
use crate::line::Line;
use ip_wire::{EthernetAddress, IpAddress, IpEndpoint, IpVersion};
use net_base::{Instant, Medium};
use std::alloc::{AllocError, Global};
use std::fmt;

impl<'a> Line<'a> {
    /// The text of a line, without the byte 0a that ends it: its words one blank apart, numbers in decimal, bytes in lower case hex.
    pub fn to_text(&self, alloc: Global) -> Result<String, AllocError>
        ensures { IfOk result (λ text. string_bytes text ≡ line_text self.now) }
    {
        match *self {
            Line::World(medium, mtu) => world(alloc, medium, mtu),
            Line::Socket(h, spec) => socket(alloc, h, spec),
            Line::Start => String::from_str(alloc, "start"),
            Line::Listen(h, s, port) => two_numbers(alloc, "listen", h, s, usize::from(port)),
            Line::Connect(h, s, remote, port) => connect(alloc, h, s, remote, port),
            Line::Send(h, s, ref bytes) => number_and_bytes(alloc, "send", h, s, bytes),
            Line::Recv(h, s, n) => two_numbers(alloc, "recv", h, s, n),
            Line::Close(h, s) => one_number(alloc, "close", h, s),
            Line::Abort(h, s) => one_number(alloc, "abort", h, s),
            Line::State(h, s) => one_number(alloc, "state", h, s),
            Line::Bind(h, s, port) => two_numbers(alloc, "bind", h, s, usize::from(port)),
            Line::Ident(h, s, n) => two_numbers(alloc, "ident", h, s, usize::from(n)),
            Line::SendTo(h, s, remote, ref bytes) => send_to(alloc, h, s, remote, bytes),
            Line::SendIcmp(h, s, to, ref bytes) => send_icmp(alloc, h, s, to, bytes),
            Line::SendRaw(h, s, ref bytes) => number_and_bytes(alloc, "sendraw", h, s, bytes),
            Line::RecvFrom(h, s, n) => two_numbers(alloc, "recvfrom", h, s, n),
            Line::Addrs(h, ref blocks) => addrs(alloc, h, blocks),
            Line::Hw(h, address) => hw(alloc, h, address),
            Line::Route(h, router) => route(alloc, h, router),
            Line::Poll(h, t, budget) => poll(alloc, h, t, budget),
            Line::PollAt(h, t) => poll_at(alloc, h, t),
            Line::Deliver(h, k, ref bytes) => number_and_bytes(alloc, "deliver", h, k, bytes),
            Line::Damage(h, k, offset, word, ref bytes) => damage(alloc, h, k, offset, word, bytes),
            Line::Noise(h, ref bytes) => noise(alloc, h, bytes),
            Line::Room(h, n) => one_number(alloc, "room", h, n),
            Line::Cut(h, k, offset) => two_numbers(alloc, "cut", h, k, offset),
        }
    }
}

// A line's words have one format for each count of them, whatever the words are: a format is dear to prove, and a call of one isn't.

// Two words and another one.
fn words1<A: fmt::Display>(
    alloc: Global,
    verb: &str,
    word: &str,
    a: &A,
) -> Result<String, AllocError>
    ensures { IfSome (⟦<A as fmt::Display>⟧.output a.now) (λ x. IfOk result (λ text. string_bytes text ≡ join_with_byte 32 (verb.now ∷ word.now ∷ x ∷ []))) }
{
    format!(in alloc; "{verb} {word} {a}")
}

// Two words and two others.
fn words2<A: fmt::Display, B: fmt::Display>(
    alloc: Global,
    verb: &str,
    word: &str,
    a: &A,
    b: &B,
) -> Result<String, AllocError>
    ensures { IfSome (⟦<A as fmt::Display>⟧.output a.now) (λ x. IfSome (⟦<B as fmt::Display>⟧.output b.now) (λ y.
        IfOk result (λ text. string_bytes text ≡ join_with_byte 32 (verb.now ∷ word.now ∷ x ∷ y ∷ [])))) }
{
    format!(in alloc; "{verb} {word} {a} {b}")
}

// Two words and three others.
fn words3<A: fmt::Display, B: fmt::Display, C: fmt::Display>(
    alloc: Global,
    verb: &str,
    word: &str,
    a: &A,
    b: &B,
    c: &C,
) -> Result<String, AllocError>
    ensures { IfSome (⟦<A as fmt::Display>⟧.output a.now) (λ x. IfSome (⟦<B as fmt::Display>⟧.output b.now) (λ y. IfSome (⟦<C as fmt::Display>⟧.output c.now) (λ z.
        IfOk result (λ text. string_bytes text ≡ join_with_byte 32 (verb.now ∷ word.now ∷ x ∷ y ∷ z ∷ []))))) }
{
    format!(in alloc; "{verb} {word} {a} {b} {c}")
}

// Two words and four others.
fn words4<A: fmt::Display, B: fmt::Display, C: fmt::Display, D: fmt::Display>(
    alloc: Global,
    verb: &str,
    word: &str,
    a: &A,
    b: &B,
    c: &C,
    d: &D,
) -> Result<String, AllocError>
    ensures { IfSome (⟦<A as fmt::Display>⟧.output a.now) (λ w. IfSome (⟦<B as fmt::Display>⟧.output b.now) (λ x. IfSome (⟦<C as fmt::Display>⟧.output c.now) (λ y.
        IfSome (⟦<D as fmt::Display>⟧.output d.now) (λ z. IfOk result (λ text. string_bytes text ≡ join_with_byte 32 (verb.now ∷ word.now ∷ w ∷ x ∷ y ∷ z ∷ [])))))) }
{
    format!(in alloc; "{verb} {word} {a} {b} {c} {d}")
}

fn name(side: Side) -> &'static str
    ensures { result.now ≡ side_text side }
{
    match side {
        Side::A => "A",
        Side::B => "B",
    }
}

fn medium_name(medium: Medium) -> &'static str
    ensures { result.now ≡ medium_text medium }
{
    match medium {
        Medium::Ethernet => "eth",
        Medium::Ip => "ip",
    }
}

fn version_name(version: Option<IpVersion>) -> &'static str
    ensures { result.now ≡ version_text version }
{
    match version {
        Some(IpVersion::Ipv4) => "4",
        Some(IpVersion::Ipv6) => "6",
        None => "any",
    }
}

fn endpoint(alloc: Global, remote: IpEndpoint) -> Result<String, AllocError>
    ensures { IfOk result (λ text. string_bytes text ≡ endpoint_word remote) }
{
    match remote.addr {
        IpAddress::Ipv4(address) => format!(in alloc; "{address}:{}", remote.port),
        IpAddress::Ipv6(address) => format!(in alloc; "[{address}]:{}", remote.port),
    }
}

/// The word for bytes: pairs of lower case hex digits, or `-` for no bytes.
pub fn hex_text(alloc: Global, bytes: &[u8]) -> Result<String, AllocError>
    ensures { IfOk result (λ text. string_bytes text ≡ hex_word bytes.now) }
{
    if bytes.is_empty() {
        String::from_str(alloc, "-")
    } else {
        hex::encode(alloc, bytes)
    }
}

// A verb, a host and a number.
fn one_number(alloc: Global, verb: &str, h: Side, n: usize) -> Result<String, AllocError>
    ensures { IfOk result (λ text. string_bytes text ≡ join_with_byte 32 (verb.now ∷ side_text h ∷ decimal n ∷ [])) }
{
    words1(alloc, verb, name(h), &n)
}

// A verb, a host and two numbers.
fn two_numbers(
    alloc: Global,
    verb: &str,
    h: Side,
    first: usize,
    second: usize,
) -> Result<String, AllocError>
    ensures { IfOk result (λ text. string_bytes text ≡ join_with_byte 32 (verb.now ∷ side_text h ∷ decimal first ∷ decimal second ∷ [])) }
{
    words2(alloc, verb, name(h), &first, &second)
}

// A verb, a host, a number and bytes.
fn number_and_bytes(
    alloc: Global,
    verb: &str,
    h: Side,
    n: usize,
    bytes: &HexBytes<'_>,
) -> Result<String, AllocError>
    ensures { IfOk result (λ text. string_bytes text ≡ join_with_byte 32 (verb.now ∷ side_text h ∷ decimal n ∷ hex_word bytes.now ∷ [])) }
{
    words2(alloc, verb, name(h), &n, &hex(alloc, bytes)?)
}

fn hex(alloc: Global, bytes: &HexBytes<'_>) -> Result<String, AllocError>
    ensures { IfOk result (λ text. string_bytes text ≡ hex_word bytes.now) }
{
    let bytes = bytes.decode(alloc)?;
    hex_text(alloc, bytes.as_slice())
}

fn word_text(alloc: Global, word: u16) -> Result<String, AllocError>
    ensures { IfOk result (λ text. string_bytes text ≡ four_digits word) }
{
    let bytes = [(word / 256) as u8, (word % 256) as u8];
    hex::encode(alloc, bytes.as_slice())
}

fn queues(alloc: Global, sizes: QueueSizes) -> Result<String, AllocError>
    ensures { IfOk result (λ text. string_bytes text ≡ join_with_byte 32 (queue_words sizes)) }
{
    format!(in alloc;
        "{} {} {} {}",
        sizes.receive_packets, sizes.receive_bytes, sizes.send_packets, sizes.send_bytes
    )
}

fn protocol_word(alloc: Global, protocol: Option<u8>) -> Result<String, AllocError>
    ensures { IfOk result (λ text. string_bytes text ≡ protocol_text protocol) }
{
    match protocol {
        Some(number) => format!(in alloc; "{number}"),
        None => String::from_str(alloc, "any"),
    }
}

fn socket(alloc: Global, side: Side, spec: SocketSpec) -> Result<String, AllocError>
    ensures { IfOk result (λ text. string_bytes text ≡ line_text (Socket side spec)) }
{
    match spec {
        SocketSpec::Udp(sizes) => queued_socket(alloc, side, "udp", sizes),
        SocketSpec::Icmp(sizes) => queued_socket(alloc, side, "icmp", sizes),
        SocketSpec::Raw(version, protocol, sizes) => {
            raw_socket(alloc, side, version, protocol, sizes)
        }
        SocketSpec::Tcp(sizes) => tcp_socket(alloc, side, sizes),
    }
}

// A socket of which no more is said than its queues.
fn queued_socket(
    alloc: Global,
    side: Side,
    kind: &str,
    sizes: QueueSizes,
) -> Result<String, AllocError>
    ensures { IfOk result (λ text. string_bytes text ≡ join_with_byte 32 (codes "socket" ∷ side_text side ∷ kind.now ∷ queue_words sizes)) }
{
    words2(alloc, "socket", name(side), &kind, &queues(alloc, sizes)?)
}

fn raw_socket(
    alloc: Global,
    side: Side,
    version: Option<IpVersion>,
    protocol: Option<u8>,
    sizes: QueueSizes,
) -> Result<String, AllocError>
    ensures { IfOk result (λ text. string_bytes text ≡ line_text (Socket side (Raw version protocol sizes))) }
{
    let protocol = protocol_word(alloc, protocol)?;
    let queues = queues(alloc, sizes)?;
    words4(
        alloc,
        "socket",
        name(side),
        &"raw",
        &version_name(version),
        &protocol,
        &queues,
    )
}

fn tcp_socket(alloc: Global, side: Side, sizes: StreamSizes) -> Result<String, AllocError>
    ensures { IfOk result (λ text. string_bytes text ≡ line_text (Socket side (Tcp sizes))) }
{
    words3(
        alloc,
        "socket",
        name(side),
        &"tcp",
        &sizes.receive_bytes,
        &sizes.send_bytes,
    )
}

fn world(alloc: Global, medium: Medium, mtu: usize) -> Result<String, AllocError>
    ensures { IfOk result (λ text. string_bytes text ≡ line_text (World medium mtu)) }
{
    words1(alloc, "world", medium_name(medium), &mtu)
}

fn hw(alloc: Global, h: Side, address: EthernetAddress) -> Result<String, AllocError>
    ensures { IfOk result (λ text. string_bytes text ≡ line_text (Hw h address)) }
{
    words1(alloc, "hw", name(h), &address)
}

fn route(alloc: Global, h: Side, router: IpAddress) -> Result<String, AllocError>
    ensures { IfOk result (λ text. string_bytes text ≡ line_text (Route h router)) }
{
    words1(alloc, "route", name(h), &router)
}

fn addrs(alloc: Global, side: Side, blocks: &Blocks) -> Result<String, AllocError>
    ensures { IfOk result (λ text. string_bytes text ≡ line_text (Addrs side blocks.now)) }
{
    let mut text = format!(in alloc; "addrs {}", name(side))?;
    for cidr in blocks.as_slice() {
        let word = format!(in alloc; " {cidr}")?;
        text.push_str(word.as_str())?;
    }
    Ok(text)
}

fn connect(
    alloc: Global,
    h: Side,
    s: usize,
    remote: IpEndpoint,
    port: u16,
) -> Result<String, AllocError>
    ensures { IfOk result (λ text. string_bytes text ≡ line_text (Connect h s remote port)) }
{
    let remote = endpoint(alloc, remote)?;
    words3(alloc, "connect", name(h), &s, &remote, &port)
}

fn send_to(
    alloc: Global,
    h: Side,
    s: usize,
    remote: IpEndpoint,
    bytes: &HexBytes<'_>,
) -> Result<String, AllocError>
    ensures { IfOk result (λ text. string_bytes text ≡ line_text (SendTo h s remote bytes.now)) }
{
    let remote = endpoint(alloc, remote)?;
    words3(alloc, "sendto", name(h), &s, &remote, &hex(alloc, bytes)?)
}

fn send_icmp(
    alloc: Global,
    h: Side,
    s: usize,
    to: IpAddress,
    bytes: &HexBytes<'_>,
) -> Result<String, AllocError>
    ensures { IfOk result (λ text. string_bytes text ≡ line_text (SendIcmp h s to bytes.now)) }
{
    words3(alloc, "sendicmp", name(h), &s, &to, &hex(alloc, bytes)?)
}

fn poll(alloc: Global, h: Side, t: Instant, budget: u16) -> Result<String, AllocError>
    ensures { IfOk result (λ text. string_bytes text ≡ line_text (Poll h t budget)) }
{
    words2(alloc, "poll", name(h), &t.total_micros(), &budget)
}

fn poll_at(alloc: Global, h: Side, t: Instant) -> Result<String, AllocError>
    ensures { IfOk result (λ text. string_bytes text ≡ line_text (PollAt h t)) }
{
    words1(alloc, "pollat", name(h), &t.total_micros())
}

fn damage(
    alloc: Global,
    h: Side,
    k: usize,
    offset: usize,
    word: u16,
    bytes: &HexBytes<'_>,
) -> Result<String, AllocError>
    ensures { IfOk result (λ text. string_bytes text ≡ line_text (Damage h k offset word bytes.now)) }
{
    let word = word_text(alloc, word)?;
    words4(
        alloc,
        "damage",
        name(h),
        &k,
        &offset,
        &word,
        &hex(alloc, bytes)?,
    )
}

fn noise(alloc: Global, h: Side, bytes: &HexBytes<'_>) -> Result<String, AllocError>
    ensures { IfOk result (λ text. string_bytes text ≡ line_text (Noise h bytes.now)) }
{
    words1(alloc, "noise", name(h), &hex(alloc, bytes)?)
}

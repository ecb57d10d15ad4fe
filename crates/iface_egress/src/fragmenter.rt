//! A datagram that goes in fragments.
ghost use Rattle.std.specs.Prelude.{◌≡◌, ◌+◌, ◌-◌, ◌<◌, ◌≤◌, ◌^◌, ◌++◌, if◌then◌else◌, length, take, drop, is_some, IsSome, IfSome, IfOk, None, Some};
ghost use Rattle.std.specs.Option.{ForSome};
ghost use Rattle.socket_context.specs.Packet.{packet_value, payload_len, payload_written, PayloadFits, IsSendable};
ghost use Rattle.iface_tables.specs.FragmentList.{fragment_at};
ghost use Rattle.iface_egress.specs.Emits.{Emits};
ghost use Rattle.iface_egress.specs.Departure.{destination_in, fragment_header_len, fragment_frame, fragment_frame_len};
ghost use Rattle.iface_egress.specs.Fragments.{LeftValue, half_sent, left_value, fragment_room, next_fragment, left_after, begun, rest_of};

use crate::fill::send;
use crate::frame::{CutHeader, FragmentPart};
use ip_wire::{HardwareAddress, IpAddress};
use net_base::{ChecksumCapabilities, Device, IPV4_FRAGMENT_PAYLOAD_ALIGNMENT};
use socket_context::Packet;
use std::alloc::{AllocError, Global};
use std::marker::Model;

/// The longest payload of a datagram that is cut.
pub const MAX_CUT_PAYLOAD: usize = 4_076;

/// A datagram of which a part went: its header, where its frames go, the length of its payload, and how many bytes of that
/// went.
#[derive(Clone, Copy, Debug, PartialEq, Eq)]
pub struct Left {
    header: CutHeader,
    to: HardwareAddress,
    len: usize,
    at: usize,
}

/// The datagram that is half sent, with a buffer for its payload.
#[derive(Debug, Drop)]
pub struct Fragmenter {
    buffer: Vec<u8>,
    left: Option<Left>,
}

impl Model for Fragmenter {
    ghost use Rattle.std.specs.Prelude.{◌≡◌, ◌<◌, ◌≤◌, Option, vec_len};
    ghost use Rattle.std.specs.Option.{ForSome};
    ghost use Rattle.iface_egress.specs.Fragments.{LeftValue, left_value};

    ghost Value = { Option LeftValue };

    ghost view = { λ f. left_value f.left f.buffer.items };

    ghost invariant = { λ f. (vec_len f.buffer ≡ 4076) × ForSome f.left (λ l. (l.at < l.len) × (l.len ≤ 4076)) };
}

/// How the fragments of a datagram go: from this hardware address, in packets of at most this length.
#[derive(Clone, Copy, Debug, PartialEq, Eq)]
pub struct Cut {
    pub from: HardwareAddress,
    pub mtu: usize,
    pub checksums: ChecksumCapabilities,
}

impl Fragmenter {
    /// Nothing is left to send.
    pub fn new(alloc: Global) -> Result<Fragmenter, AllocError>
        ensures { IfOk result (λ f. f ≡ None) }
    {
        Ok(Fragmenter {
            buffer: vec![in alloc; 0; MAX_CUT_PAYLOAD]?,
            left: None,
        })
    }

    /// Whether fragments of a datagram wait to be sent.
    pub fn is_waiting(&self) -> bool
        ensures { result ≡ is_some self.now }
    {
        self.left.is_some()
    }

    /// Where the datagram goes whose fragments wait.
    pub fn destination(&self) -> IpAddress
        requires { IsSome self.now }
        ensures { IfSome self.now (λ l. result ≡ destination_in l.header) }
    {
        let Some(left) = self.left else {
            unreachable!()
        };
        left.header.dst_addr()
    }

    /// Sends the first fragment of a datagram that is too long for one frame. Says whether the device took it; then the rest
    /// waits. The packet is the datagram, and this its header with its identification.
    pub fn send_first<D: Device>(
        &mut self,
        device: &mut D,
        token: D::TxToken,
        cut: &Cut,
        to: HardwareAddress,
        header: &CutHeader,
        packet: &Packet<'_>,
    ) -> bool
        requires room { D.refused device.old + 1 < 2 ^ 64 }
        requires idle { self.old ≡ None }
        requires fits { IsSendable (packet_value packet.now) }
        requires len { payload_len (packet_value packet.now).payload ≤ MAX_CUT_PAYLOAD }
        requires mtu { (576 ≤ cut.now.mtu) × (cut.now.mtu ≤ 65535) }
        requires some { 0 < payload_len (packet_value packet.now).payload }
        ensures emits { let l : LeftValue = begun cut.now.checksums to header.now (packet_value packet.now) in
            let p = next_fragment cut.now.mtu l in
            Emits D.moves device.old (fragment_frame cut.now.checksums cut.now.from to header.now p) (fragment_frame_len cut.now.from to header.now p)
            result device.new }
        ensures left { self.new ≡ (if result then left_after cut.now.mtu (begun cut.now.checksums to header.now (packet_value packet.now)) else None) }
        ensures capabilities { D.described device.new ≡ D.described device.old }
    {
        let len = packet.payload().buffer_len();
        write_payload(self.buffer.as_mut_slice(), packet, &cut.checksums);
        let left = Left {
            header: *header,
            to,
            len,
            at: 0,
        };
        let sent = send_fragment(device, token, cut, &left, &self.buffer.as_slice()[..len]);
        if sent {
            self.left = rest_of(&left, cut.mtu);
        }
        sent
    }

    /// Sends the next fragment of the datagram that waits. Says whether the device took it.
    pub fn send_next<D: Device>(&mut self, device: &mut D, token: D::TxToken, cut: &Cut) -> bool
        requires room { D.refused device.old + 1 < 2 ^ 64 }
        requires waits { IsSome self.old }
        requires mtu { (576 ≤ cut.now.mtu) × (cut.now.mtu ≤ 65535) }
        ensures emits { IfSome self.old (λ l. Emits D.moves device.old
            (fragment_frame cut.now.checksums cut.now.from l.to l.header (next_fragment cut.now.mtu l))
            (fragment_frame_len cut.now.from l.to l.header (next_fragment cut.now.mtu l)) result device.new) }
        ensures left { IfSome self.old (λ l. self.new ≡ (if result then left_after cut.now.mtu l else Some l)) }
        ensures capabilities { D.described device.new ≡ D.described device.old }
    {
        let Some(left) = self.left else {
            unreachable!()
        };
        let sent = send_waiting(device, token, cut, &self.left, self.buffer.as_slice());
        if sent {
            self.left = rest_of(&left, cut.mtu);
        }
        sent
    }
}

/// Sends the next fragment of the datagram that waits, whose payload lies at the front of the buffer. Says whether the device
/// took it.
fn send_waiting<D: Device>(
    device: &mut D,
    token: D::TxToken,
    cut: &Cut,
    left: &Option<Left>,
    buffer: &[u8],
) -> bool
    requires room { D.refused device.old + 1 < 2 ^ 64 }
    requires waits { IsSome left.now }
    requires kept { ForSome left.now (λ l. (l.at < l.len) × (l.len ≤ 4076)) }
    requires within { length buffer.now ≡ 4076 }
    requires mtu { cut.now.mtu ≤ 65535 }
    ensures emits { IfSome (left_value left.now buffer.now) (λ l. Emits D.moves device.old
        (fragment_frame cut.now.checksums cut.now.from l.to l.header (next_fragment cut.now.mtu l))
        (fragment_frame_len cut.now.from l.to l.header (next_fragment cut.now.mtu l)) result device.new) }
    ensures capabilities { D.described device.new ≡ D.described device.old }
{
    match left {
        Some(left) => send_left(device, token, cut, left, buffer),
        None => unreachable!(),
    }
}

/// Sends the next fragment of a datagram whose payload lies at the front of the buffer. Says whether the device took it.
fn send_left<D: Device>(
    device: &mut D,
    token: D::TxToken,
    cut: &Cut,
    left: &Left,
    buffer: &[u8],
) -> bool
    requires room { D.refused device.old + 1 < 2 ^ 64 }
    requires at { left.now.at < left.now.len }
    requires within { left.now.len ≤ length buffer.now }
    requires len { left.now.len ≤ MAX_CUT_PAYLOAD }
    requires mtu { cut.now.mtu ≤ 65535 }
    ensures emits { let l : LeftValue = half_sent left.now buffer.now in
        Emits D.moves device.old (fragment_frame cut.now.checksums cut.now.from l.to l.header (next_fragment cut.now.mtu l))
        (fragment_frame_len cut.now.from l.to l.header (next_fragment cut.now.mtu l)) result device.new }
    ensures capabilities { D.described device.new ≡ D.described device.old }
{
    send_fragment(device, token, cut, left, &buffer[..left.len])
}

/// Sends the fragment of this payload that begins where the last one ended. Says whether the device took it.
fn send_fragment<D: Device>(
    device: &mut D,
    token: D::TxToken,
    cut: &Cut,
    left: &Left,
    payload: &[u8],
) -> bool
    requires room { D.refused device.old + 1 < 2 ^ 64 }
    requires at { left.now.at < length payload.now }
    requires len { length payload.now ≤ MAX_CUT_PAYLOAD }
    requires mtu { cut.now.mtu ≤ 65535 }
    ensures emits { let p = fragment_at (fragment_room left.now.header cut.now.mtu) payload.now left.now.at in
        Emits D.moves device.old (fragment_frame cut.now.checksums cut.now.from left.now.to left.now.header p)
        (fragment_frame_len cut.now.from left.now.to left.now.header p) result device.new }
    ensures capabilities { D.described device.new ≡ D.described device.old }
{
    let room = fragment_room(&left.header, cut.mtu);
    let fragment = FragmentPart {
        from: cut.from,
        to: left.to,
        header: left.header,
        offset: left.at as u16,
        more: left.at + room < payload.len(),
        bytes: front_of(&payload[left.at..], room),
        checksums: cut.checksums,
    };
    send(device, token, &fragment)
}

/// The most payload of a fragment, in whole units of 8 bytes.
fn fragment_room(header: &CutHeader, mtu: usize) -> usize
    ensures { result ≡ fragment_room header.now mtu }
{
    mtu.saturating_sub(header.fragment_header_len()) / IPV4_FRAGMENT_PAYLOAD_ALIGNMENT
        * IPV4_FRAGMENT_PAYLOAD_ALIGNMENT
}

/// As many of the first bytes, or all of them.
fn front_of(bytes: &[u8], count: usize) -> &[u8]
    ensures { result.now ≡ take count bytes.now }
{
    match bytes.split_at_checked(count) {
        Some((front, _)) => front,
        None => bytes,
    }
}

/// What is left of a datagram after its next fragment.
fn rest_of(left: &Left, mtu: usize) -> Option<Left>
    requires { (left.now.at < MAX_CUT_PAYLOAD) × (mtu ≤ 65535) }
    ensures { result ≡ rest_of mtu left.now }
{
    let at = left.at + fragment_room(&left.header, mtu);
    if at < left.len {
        Some(Left { at, ..*left })
    } else {
        None
    }
}

/// Writes what a packet carries at the front of the buffer.
fn write_payload(buffer: &mut [u8], packet: &Packet<'_>, checksums: &ChecksumCapabilities)
    requires room { payload_len (packet_value packet.now).payload ≤ length buffer.old }
    requires fits { PayloadFits (packet_value packet.now).header (packet_value packet.now).payload }
    ensures { take (payload_len (packet_value packet.now).payload) buffer.new
        ≡ payload_written checksums.now (packet_value packet.now).header (packet_value packet.now).payload }
{
    let (front, _rest) = buffer.split_at_mut(packet.payload().buffer_len());
    packet.emit_payload(front, checksums);
}

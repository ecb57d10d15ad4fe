//! The initial sequence number of a connection (RFC 6528).
ghost use Rattle.std.specs.Prelude.{◌≡◌, ◌-◌, ◌%◌, ◌^◌, ◌≤◌, ℕ, ℤ, List, ◌++◌, if◌then◌else◌};
ghost use Rattle.ip_wire.specs.Seq.{distance_of};
ghost use Rattle.tcp_state.specs.declared.endpoints.FourTuple.{FourTuple};
ghost use Rattle.std.specs.Int.{w16, to_be_bytes};
ghost use Rattle.net_base.specs.Time.{IsMoment};
ghost use Rattle.socket_context.specs.Context.{ContextValue};
ghost use Rattle.tcp_state.specs.SipHash.{padded, words_of, sip_hash};
ghost use Rattle.tcp_state.specs.Isn.{message_of, ticks_of, number_of, keyed_number, isn, draws_number};

use crate::{AddressPair, FourTuple, sip_hash};
use ip_wire::{Ipv4Address, Ipv6Address};
use net_base::Instant;
use socket_context::Context;

/// The initial sequence number of a connection: by the key of the host, or where it has none the next random word.
pub fn isn<C: Context>(cx: &mut C, pair: &FourTuple) -> u32
    ensures value { result ≡ isn (C.context cx.old) pair.now }
    ensures drawn { cx.new ≡ (if draws_number (C.context cx.old) then C.drawn cx.old else cx.old) }
{
    match cx.isn_key() {
        None => cx.rand_u32(),
        Some(key) => keyed_number(key, cx.now(), pair),
    }
}

/// A clock that counts each four microseconds, and the hash of the endpoints.
fn keyed_number(key: [u8; 16], now: Instant, pair: &FourTuple) -> u32
    requires { IsMoment now }
    ensures { result ≡ keyed_number key now pair.now }
{
    let clock = now.total_micros() as u64 / 4;
    (clock.wrapping_add(hash_of(key, pair)) % (1 << 32)) as u32
}

/// The hash of two endpoints.
fn hash_of(key: [u8; 16], pair: &FourTuple) -> u64
    ensures { result ≡ sip_hash key (message_of pair.now) }
{
    let (local_port, remote_port) = (pair.local_port, pair.remote_port);
    match pair.addresses {
        AddressPair::Ipv4 { local, remote } => {
            sip_hash(key, &words_v4(&local, local_port, &remote, remote_port))
        }
        AddressPair::Ipv6 { local, remote } => {
            sip_hash(key, &words_v6(&local, local_port, &remote, remote_port))
        }
    }
}

/// The words of 12 bytes: the own address and port, then the remote's.
fn words_v4(
    local: &Ipv4Address,
    local_port: u16,
    remote: &Ipv4Address,
    remote_port: u16,
) -> [u64; 2]
    ensures { result ≡ words_of (padded (local.now.0 ++ (to_be_bytes w16 local_port ++ (remote.now.0 ++ to_be_bytes w16 remote_port)))) }
{
    let [a, b, c, d] = local.0;
    let [p, q] = local_port.to_be_bytes();
    let [e, f, g, h] = remote.0;
    let [r, s] = remote_port.to_be_bytes();
    [
        u64::from_le_bytes([a, b, c, d, p, q, e, f]),
        u64::from_le_bytes([g, h, r, s, 0, 0, 0, 12]),
    ]
}

/// The words of 36 bytes.
fn words_v6(
    local: &Ipv6Address,
    local_port: u16,
    remote: &Ipv6Address,
    remote_port: u16,
) -> [u64; 5]
    ensures { result ≡ words_of (padded (local.now.0 ++ (to_be_bytes w16 local_port ++ (remote.now.0 ++ to_be_bytes w16 remote_port)))) }
{
    let [
        a0,
        a1,
        a2,
        a3,
        a4,
        a5,
        a6,
        a7,
        a8,
        a9,
        a10,
        a11,
        a12,
        a13,
        a14,
        a15,
    ] = local.0;
    let [p, q] = local_port.to_be_bytes();
    let [
        b0,
        b1,
        b2,
        b3,
        b4,
        b5,
        b6,
        b7,
        b8,
        b9,
        b10,
        b11,
        b12,
        b13,
        b14,
        b15,
    ] = remote.0;
    let [r, s] = remote_port.to_be_bytes();
    [
        u64::from_le_bytes([a0, a1, a2, a3, a4, a5, a6, a7]),
        u64::from_le_bytes([a8, a9, a10, a11, a12, a13, a14, a15]),
        u64::from_le_bytes([p, q, b0, b1, b2, b3, b4, b5]),
        u64::from_le_bytes([b6, b7, b8, b9, b10, b11, b12, b13]),
        u64::from_le_bytes([b14, b15, r, s, 0, 0, 0, 36]),
    ]
}

/// Law: with a key the initial sequence numbers of one pair of endpoints rise with the clock, by one each four microseconds.
#[tactic(auto, using(crate::proofs::Isns::numbers_rise))]
pub fn isns_rise()
    ensures { (key : List ℕ) (pair : FourTuple) (before now : ℤ) → ticks_of before ≤ ticks_of now
        → distance_of (number_of (keyed_number key before pair)) (number_of (keyed_number key now pair)) ≡ (ticks_of now - ticks_of before) % 2 ^ 32 }
{}

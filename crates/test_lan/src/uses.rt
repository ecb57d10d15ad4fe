//! Small callers of the stack. Each shows one use, and its contract says what came of it.

mod containers;
mod packets;
mod sockets_in_use;
mod transfer;
mod two_hosts;

use crate::cases::all;
use crate::worlds::begun::made;
use ip_wire::IpAddress;
use lan::World;
use std::alloc::Global;
use std::test::Fail;

/// A text of twelve bytes goes through a ring, and its first eight are read.
fn ring_is_read(alloc: Global) -> bool {
    let mut front = [b'.'; 8];
    let read = containers::through_a_ring(alloc, 12, b"abcdefghijkl", &mut front).ok();
    read == Some(8) && &front == b"abcdefgh"
}

/// The worked example of a datagram of the bytes aa 00 00 ff from 192.168.1.1 to 192.168.1.2.
const DATAGRAM: [u8; 12] = [
    0xbf, 0x00, 0x00, 0x35, 0x00, 0x0c, 0x12, 0x4d, 0xaa, 0x00, 0x00, 0xff,
];

fn query_is_written() -> bool {
    let mut datagram = [0; 12];
    packets::write_query(
        &mut datagram,
        &IpAddress::v4(192, 168, 1, 1),
        &IpAddress::v4(192, 168, 1, 2),
        &[0xaa, 0x00, 0x00, 0xff],
    );
    datagram == DATAGRAM
}

/// Two hosts with a TCP socket each.
const STREAMS: &str = "world ip 1500\nsocket A tcp 64 64\nsocket B tcp 64 64\n";

/// Whether one host reads what the other wrote.
fn is_read(alloc: Global, world: &mut World) -> bool {
    match two_hosts::talk(alloc, world) {
        Ok(Some(bytes)) => bytes.as_slice() == b"hello".as_slice(),
        _ => false,
    }
}

fn hello_is_read(alloc: Global) -> bool {
    match made(alloc, STREAMS) {
        Some(mut world) => is_read(alloc, &mut world),
        None => false,
    }
}

#[test]
fn callers_are_answered(rt: HostRuntime) {
    all(
        &rt,
        &[
            ring_is_read(rt.alloc()),
            query_is_written(),
            hello_is_read(rt.alloc()),
        ],
    );
}

/// A transfer, drawn.
#[test]
fn a_transfer_is_drawn(rt: HostRuntime) -> Result<(), Fail> {
    let picture = transfer::draw(rt.alloc()).map_err(|_| "a picture")?;
    assert!(rt; picture.as_str() == transfer::PICTURE, "{picture}");
    Ok(())
}

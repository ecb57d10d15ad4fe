//! Why two hosts make no world.
ghost use Rattle.std.specs.Prelude.{◌≡◌};
ghost use Rattle.lan.specs.Worlds.New.{world_error_text};

use std::fmt;

/// Why two hosts make no world. Where several apply, the first of this list is the answer.
#[derive(Clone, Copy, Debug, PartialEq, Eq)]
pub enum WorldError {
    /// The hosts' ports and interfaces aren't of one medium.
    Media,
    /// A port or an interface doesn't compute or verify every checksum.
    Checksums,
    /// The IP MTU of a port is below 576 or above 65535 bytes, or isn't that of its interface.
    Mtu,
    /// A TCP socket has a buffer of no bytes.
    Buffers,
    /// A host has been used, has a client of DHCP or DNS, which sends datagrams by itself, or does what is asked of a host on a network of many.
    NotFresh,
    /// A growth was refused.
    Memory,
}

impl fmt::Display for WorldError {
    ghost use Rattle.std.specs.Prelude.{Some};
    ghost use Rattle.lan.specs.Worlds.New.{world_error_text};

    ghost output = { λ error. Some (world_error_text error) };

    fn fmt<W: fmt::Write>(&self, f: &mut fmt::Formatter<W>) -> fmt::Result {
        f.write_str(world_error_text(*self))
    }
}

impl std::error::Error for WorldError {}

fn world_error_text(error: WorldError) -> &'static str
    ensures { result.now ≡ world_error_text error }
{
    match error {
        WorldError::Media => "two media",
        WorldError::Checksums => "a checksum is off",
        WorldError::Mtu => "an IP MTU is out of 576 to 65535 bytes",
        WorldError::Buffers => "a TCP buffer of no bytes",
        WorldError::NotFresh =>
            "a host was used before, has a client of DHCP or DNS, or host requirements",
        WorldError::Memory => "out of memory",
    }
}

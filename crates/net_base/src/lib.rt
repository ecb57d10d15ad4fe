//! The base of the stack: time, random words, containers and devices.
//!
//! It holds nothing of its own: it re-exports the items of its members, `base_time`,
//! `base_buffer` and `base_device`. A crate above names `net_base` alone, in `crates.txt` and in its code, as
//! `net_base::Instant`, `net_base::Device`. In clauses, `specs/` and `proofs/` the members'
//! definitions are `Rattle.net_base.specs.Time`, `.Ring`, `.Device` and so on, and each type that
//! a definition names is a module of its own name, as `Rattle.net_base.specs.Instant.{Instant}`
//! and `Rattle.net_base.specs.Medium.TheVariants.{Ethernet, Ip}`.
#![tactic(auto)]

pub use base_buffer::{
    Assembler, AssemblerIter, Empty, Full, ManagedSlice, PacketBuffer, PacketMetadata, Resettable,
    RingBuffer, TooManyHolesError, laws as container_laws,
};
pub use base_device::{
    Checksum, ChecksumCapabilities, Device, DeviceCapabilities, IPV4_FRAGMENT_PAYLOAD_ALIGNMENT,
    Loopback, LoopbackTxToken, Medium, OwnedRxToken, PacketMeta, RxToken, SendRefused, TxToken,
    laws as device_laws,
};
pub use base_time::{Duration, Instant, Rand, laws};

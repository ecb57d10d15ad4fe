//! Containers in storage that is handed in: nothing here allocates.
#![tactic(auto)]

mod assembler;
pub mod laws;
mod managed;
mod packet_buffer;
mod ring_buffer;

pub use assembler::{Assembler, AssemblerIter, TooManyHolesError};
pub use managed::ManagedSlice;
pub use packet_buffer::{PacketBuffer, PacketMetadata};
pub use ring_buffer::{Empty, Full, Resettable, RingBuffer};

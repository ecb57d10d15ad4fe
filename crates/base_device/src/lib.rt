//! What the stack needs of a network device: tokens, frames and capabilities.
#![tactic(auto)]

mod capabilities;
mod device;
pub mod laws;
mod loopback;
mod owned;

pub use capabilities::{
    Checksum, ChecksumCapabilities, DeviceCapabilities, IPV4_FRAGMENT_PAYLOAD_ALIGNMENT, Medium,
};
pub use device::{Device, PacketMeta, RxToken, SendRefused, TxToken};
pub use loopback::{Loopback, LoopbackTxToken};
pub use owned::OwnedRxToken;

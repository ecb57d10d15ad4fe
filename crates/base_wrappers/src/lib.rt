//! Devices that wrap a device: they watch its frames, or harm them.
#![tactic(auto)]

mod bucket;
mod corrupter;
mod course;
mod dropper;
mod duplicator;
mod fault;
pub mod fault_laws;
mod fuzz;
pub mod laws;
mod pcap;
mod sink;
mod token;
mod tracer;
mod writer;

pub use corrupter::Corrupter;
pub use dropper::Dropper;
pub use duplicator::Duplicator;
pub use fault::{FaultCounts, FaultInjector};
pub use fuzz::{FuzzInjector, Fuzzer};
pub use pcap::{PcapMode, PcapWriter};
pub use sink::{RingSink, Sink, VecSink};
pub use token::FaultRxToken;
pub use tracer::Tracer;
pub use writer::{Direction, FrameWriter};

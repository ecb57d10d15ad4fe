//! IP headers of either family.

pub mod laws;
mod repr;

pub use repr::IpRepr;

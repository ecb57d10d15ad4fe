//! The fragment header of IPv6 (RFC 8200, section 4.5), without its first two bytes: the number of
//! what follows and a reserved byte, which each extension header begins with.

pub mod field;
pub mod laws;
mod packet;
mod packet_mut;
mod repr;

pub use packet::Ipv6FragmentHeader;
pub use packet_mut::Ipv6FragmentHeaderMut;
pub use repr::Ipv6FragmentRepr;

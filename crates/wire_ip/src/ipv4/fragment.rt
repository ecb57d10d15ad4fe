//! Fragments of a datagram that was cut.

/// Which fragment of a datagram a packet carries (RFC 791, section 3.2). A datagram that nobody cut is
/// a fragment at 0 that none follows.
#[derive(Clone, Copy, Debug, PartialEq, Eq)]
pub struct Ipv4Fragment {
    /// Where its payload stands in the datagram's, in bytes.
    pub offset: u16,
    /// Whether more fragments follow.
    pub more: bool,
}

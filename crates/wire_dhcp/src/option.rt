//! One option.

/// An option: its code, and what is inside.
#[derive(Clone, Copy, Debug, PartialEq, Eq)]
pub struct DhcpOption<'a> {
    pub kind: u8,
    pub data: &'a [u8],
}

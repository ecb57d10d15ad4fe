//! Messages of DHCP, read and written.
use sockets::dhcp::{DhcpPacket, DhcpRepr};
use std::alloc::{AllocError, Global};

/// Says what a message says, and in which bytes it is sent.
pub(crate) fn describe(alloc: Global, bytes: &[u8], out: &mut String) -> Result<(), AllocError> {
    let Ok(message) = DhcpRepr::parse(&DhcpPacket::new_unchecked(bytes)) else {
        return out.push_str("refused\n");
    };
    writeln!(out, "{message:?}")?;
    if !message.fits() {
        return Ok(());
    }
    let mut sent = vec![in alloc; 0; message.buffer_len()]?;
    message.emit(sent.as_mut_slice());
    let digits = hex::encode(alloc, sent.as_slice())?;
    writeln!(out, "{digits}")
}

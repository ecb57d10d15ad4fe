//! Messages of DNS, read.
use sockets::dns::{DnsPacket, DnsQuestion, DnsRecord};
use std::alloc::AllocError;

/// Says what the header says, how many records follow the answers, and then each question and answer, up to the first that is refused.
pub(crate) fn describe(bytes: &[u8], out: &mut String) -> Result<(), AllocError> {
    let Ok(packet) = DnsPacket::new_checked(bytes) else {
        return out.push_str("refused\n");
    };
    writeln!(
        out,
        "{:04x} {:?} {:?} {:?}",
        packet.transaction_id(),
        packet.opcode(),
        packet.rcode(),
        packet.flags()
    )?;
    let (authority, additional) = (
        packet.authority_record_count(),
        packet.additional_record_count(),
    );
    if (authority, additional) != (0, 0) {
        writeln!(out, "{authority} of authorities, {additional} more")?;
    }
    let mut at = 12;
    for _ in 0..packet.question_count() {
        let Ok((question, end)) = DnsQuestion::parse(bytes, at) else {
            return out.push_str("refused\n");
        };
        writeln!(out, "{question:?}")?;
        at = end;
    }
    records(bytes, at, packet.answer_record_count(), out)
}

/// Says what so many records from a slot say.
fn records(bytes: &[u8], start: usize, count: u16, out: &mut String) -> Result<(), AllocError> {
    let mut at = start;
    for _ in 0..count {
        let Ok((answer, end)) = DnsRecord::parse(bytes, at) else {
            return out.push_str("refused\n");
        };
        writeln!(out, "{answer:?}")?;
        at = end;
    }
    Ok(())
}

//! Queries, written.
ghost use Rattle.std.specs.Prelude.{◌≡◌, ◌+◌, ◌<◌, length};
ghost use Rattle.wire_dns.specs.Codes.{opcode_number};
ghost use Rattle.wire_dns.specs.Message.{written};
ghost use Rattle.wire_dns.specs.Name.{bytes_of_name};

use crate::codes::{DnsFlags, DnsOpcode};
use crate::field::HEADER_LEN;
use crate::question::DnsQuestion;

/// A query with one question.
#[derive(Clone, Debug, Drop)]
pub struct DnsRepr {
    pub transaction_id: u16,
    pub opcode: DnsOpcode,
    pub flags: DnsFlags,
    pub question: DnsQuestion,
}

impl DnsRepr {
    /// The length of the query.
    pub fn buffer_len(&self) -> usize
        ensures { result ≡ length (written self.now) }
    {
        HEADER_LEN + self.question.name.as_bytes().len() + 4
    }

    /// Writes the query over the whole buffer.
    pub fn emit(&self, buffer: &mut [u8])
        requires room { length buffer.old ≡ length (written self.now) }
        requires fits { opcode_number self.now.opcode < 16 }
        ensures { buffer.new ≡ written self.now }
    {
        let [id_high, id_low] = self.transaction_id.to_be_bytes();
        let high = self.flags.high_byte(self.opcode);
        let low = self.flags.low_byte();
        let (header, rest) = buffer.split_at_mut(HEADER_LEN);
        header.copy_from_slice(&[id_high, id_low, high, low, 0, 1, 0, 0, 0, 0, 0, 0]);
        let name = self.question.name.as_bytes();
        let (front, back) = rest.split_at_mut(name.len());
        front.copy_from_slice(name);
        let [type_high, type_low] = self.question.type_.number().to_be_bytes();
        back.copy_from_slice(&[type_high, type_low, 0, 1]);
    }
}

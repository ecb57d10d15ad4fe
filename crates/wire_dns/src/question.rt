//! Questions.
ghost use Rattle.std.specs.Prelude.{◌≡◌, ℕ, ◌+◌, ◌≤◌, IfOk, Ok, length};
ghost use Rattle.wire_dns.specs.Message.{IsQuestion};
ghost use Rattle.wire_dns.specs.declared.question.DnsQuestion.{DnsQuestion};

use crate::codes::DnsQueryType;
use crate::field::CLASS_IN;
use crate::name::DnsName;
use wire_address::Error;
use wire_address::network_order::read_u16;

/// What is asked: records of a type of a name, in the class of the Internet.
#[derive(Clone, Debug, Drop)]
pub struct DnsQuestion {
    pub name: DnsName,
    pub type_: DnsQueryType,
}

impl DnsQuestion {
    /// The question that stands at a place of a message, and where it ends.
    pub fn parse(message: &[u8], at: usize) -> Result<(DnsQuestion, usize), Error>
        ensures found { IfOk result (λ p. IsQuestion message.now at p.0 p.1) }
        ensures only { (question : DnsQuestion) (end : ℕ) → IsQuestion message.now at question end
            → result ≡ Ok (question, end) }
    {
        let (name, name_end) = DnsName::parse(message, at)?;
        if name_end > message.len() || message.len() - name_end < 4 {
            return Err(Error);
        }
        if read_u16(message, name_end + 2) != CLASS_IN {
            return Err(Error);
        }
        let type_ = DnsQueryType::from_number(read_u16(message, name_end));
        Ok((DnsQuestion { name, type_ }, name_end + 4))
    }
}

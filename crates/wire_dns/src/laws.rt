//! Laws of the format.
ghost use Rattle.std.specs.Prelude.{◌≡◌, ◌<◌, ◌^◌, ℕ, List, ◌++◌, length};
ghost use Rattle.wire_dns.specs.Codes.{opcode_number, type_number};
ghost use Rattle.wire_dns.specs.Message.{IsPlain, IsQuery, written};
ghost use Rattle.wire_dns.specs.Name.{bytes_of_name};
ghost use Rattle.wire_dns.specs.declared.repr.DnsRepr.{DnsRepr};

/// Law: a query that was sent for a name without pointers is read back, whatever follows it: its number, its flags, and its one
/// question, which ends where the query does.
pub fn query_reads_back()
    ensures { (v : DnsRepr) (more : List ℕ) → v.transaction_id < 2 ^ 16
        → opcode_number v.opcode < 16
        → type_number v.question.type_ < 2 ^ 16
        → IsPlain (bytes_of_name v.question.name)
        → IsQuery (written v ++ more) v }
{}

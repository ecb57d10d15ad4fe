//! What a datagram says to a query.
ghost use Rattle.std.specs.Prelude.{◌≡◌, ◌≤◌, ℕ, IfSome, Some, length};
ghost use Rattle.socket_datagram.specs.DnsClient.Replies.{names_query, repeats, IsReply, IsVerdict, IsVerdictIn, IsJudged, IsFound};

use crate::dns::query::Query;
use crate::dns::records::{Addresses, Records, is_same_name};
use crate::dns::state::State;
use wire_dns::field::HEADER_LEN;
use wire_dns::{DnsPacket, DnsQuestion, DnsRcode};

/// What a datagram says to a query.
#[derive(Clone, Copy)]
pub(crate) enum Verdict {
    /// Nothing: it doesn't answer it, or its records are cut.
    Unrelated,
    /// The name has these addresses.
    Found(Addresses),
    /// The name has none.
    Missing,
    /// The server doesn't say it.
    Refused,
}

/// What a datagram says to the query of a socket.
pub(crate) fn verdict_in(state: &State, bytes: &[u8]) -> Verdict
    ensures { IsVerdictIn state.now bytes.now result }
{
    match state {
        State::Pending(query) => verdict_on(query, bytes),
        State::Idle => Verdict::Unrelated,
        State::Completed(_) => Verdict::Unrelated,
        State::Failed => Verdict::Unrelated,
        State::Unanswered => Verdict::Unrelated,
    }
}

/// What a datagram says to a query.
fn verdict_on(query: &Query, bytes: &[u8]) -> Verdict
    ensures { IsVerdict query.now bytes.now result }
{
    match reply_to(query, bytes) {
        Some(at) => judge(query, bytes, at),
        None => Verdict::Unrelated,
    }
}

/// Where the records begin of a reply to a query: a response that names its number and repeats its question.
fn reply_to(query: &Query, bytes: &[u8]) -> Option<usize>
    ensures reply { IfSome result (λ at. IsReply query.now bytes.now at) }
    ensures none { (at : ℕ) → IsReply query.now bytes.now at → result ≡ Some at }
{
    if bytes.len() < HEADER_LEN || !names_query(query, bytes) {
        return None;
    }
    match DnsQuestion::parse(bytes, HEADER_LEN) {
        Ok((question, at)) => {
            if repeats(&question, &query.question) {
                Some(at)
            } else {
                None
            }
        }
        Err(_) => None,
    }
}

/// Whether this is the header of a response to a standard query with the query's number and one question.
fn names_query(query: &Query, bytes: &[u8]) -> bool
    requires { 12 ≤ length bytes.now }
    ensures { result ≡ names_query query.now bytes.now }
{
    let packet = DnsPacket::new_unchecked(bytes);
    packet.transaction_id() == query.transaction_id
        && packet.flags().response
        && packet.opcode().number() == 0
        && packet.question_count() == 1
}

/// Whether two questions are the same, whatever the case of their names' letters.
fn repeats(one: &DnsQuestion, other: &DnsQuestion) -> bool
    ensures { result ≡ repeats one.now other.now }
{
    one.type_.number() == other.type_.number() && is_same_name(&one.name, &other.name)
}

/// What a reply says whose records begin at a slot.
fn judge(query: &Query, bytes: &[u8], at: usize) -> Verdict
    requires { 12 ≤ length bytes.now }
    ensures { IsJudged query.now bytes.now at result }
{
    let packet = DnsPacket::new_unchecked(bytes);
    if packet.flags().truncated {
        return Verdict::Refused;
    }
    match packet.rcode() {
        DnsRcode::NoError => {
            let records = Records {
                message: bytes,
                at,
                count: packet.answer_record_count(),
            };
            find(query, records)
        }
        DnsRcode::NXDomain => Verdict::Missing,
        DnsRcode::FormErr => Verdict::Refused,
        DnsRcode::ServFail => Verdict::Refused,
        DnsRcode::NotImp => Verdict::Refused,
        DnsRcode::Refused => Verdict::Refused,
        DnsRcode::Unknown(_) => Verdict::Refused,
    }
}

/// What the records of a reply say.
fn find(query: &Query, records: Records<'_>) -> Verdict
    ensures { IsFound query.now records.entry.message.now records.entry.at records.entry.count result }
{
    if !records.are_whole() {
        return Verdict::Unrelated;
    }
    let found = records.addresses_of(&query.question.name, query.question.type_);
    if found[0].is_none() {
        Verdict::Missing
    } else {
        Verdict::Found(found)
    }
}

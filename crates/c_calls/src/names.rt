//! Calls of a client of DNS.
ghost use Rattle.std.specs.Prelude.{◌≡◌, ◌<◌, ◌≤◌, length, Err, is_ok, if◌then◌else◌};
ghost use Rattle.std.specs.Str.{IsUtf8};
ghost use Rattle.sockets.specs.DnsValue.{result_of, told};
ghost use Rattle.c_calls.specs.Codes.{coded};
ghost use Rattle.c_calls.specs.Names.{query_made, of_start, of_result, Asks, Asked, TakesAnswer, AnswerTaken, SendsQuery, QuerySent, sent_answer, sent_after};
ghost use Rattle.c_calls.specs.Names.{found_answer, found_after, due_answer, most_name};

use crate::carrying::{Sending, carry, headers};
use crate::code::Code;
use ip_wire::{IpAddress, IpEndpoint};
use sockets::dns::{Addresses, DnsQueryType, GetQueryResultError, Socket, StartQueryError};
use sockets::{Context, PollAt};
use std::str;

fn of_start(error: StartQueryError) -> Code
    ensures { result ≡ of_start error }
{
    match error {
        StartQueryError::NoFreeSlot => Code::QueryPending,
        StartQueryError::InvalidName => Code::InvalidName,
        StartQueryError::NameTooLong => Code::NameTooLong,
    }
}

fn of_result(error: GetQueryResultError) -> Code
    ensures { result ≡ of_result error }
{
    match error {
        GetQueryResultError::Pending => Code::QueryPending,
        GetQueryResultError::Failed => Code::QueryFailed,
        GetQueryResultError::Unanswered => Code::QueryUnanswered,
    }
}

/// A client that asks these servers, in place of one that there was, with or without the host requirements.
pub fn begin(client: &mut Option<Socket>, servers: &[IpAddress], host_requirements: bool)
    ensures { client.new ≡ query_made servers.now host_requirements }
{
    let mut made = Socket::new(servers);
    made.set_host_requirements(host_requirements);
    *client = Some(made);
}

fn ask<C: Context>(
    client: &mut Socket,
    cx: &mut C,
    name: &str,
    kind: DnsQueryType,
) -> Result<(), Code>
    ensures asked { Asked (C.context cx.old) name.now kind client.old result client.new }
    ensures drawn { cx.new ≡ (if is_ok result then C.drawn (C.drawn cx.old) else cx.old) }
{
    match client.start_query(cx, name, kind) {
        Ok(()) => Ok(()),
        Err(error) => Err(of_start(error)),
    }
}

fn ask_of<C: Context>(
    client: &mut Option<Socket>,
    cx: &mut C,
    name: &str,
    kind: DnsQueryType,
) -> Result<(), Code>
    ensures asks { Asks (C.context cx.old) name.now kind client.old result client.new }
    ensures drawn { cx.new ≡ (if is_ok result then C.drawn (C.drawn cx.old) else cx.old) }
{
    match client {
        Some(client) => ask(client, cx, name, kind),
        None => Err(Code::NoClient),
    }
}

/// The most bytes of a name, with dots between its labels and one behind them, that are looked at.
const MOST_NAME: usize = 255;

/// Asks for the addresses of a name, which is a text with dots between its labels. Of one that is too long no byte is read.
pub fn start<C: Context>(
    client: &mut Option<Socket>,
    cx: &mut C,
    name: &[u8],
    kind: DnsQueryType,
) -> Result<(), Code>
    ensures long { most_name < length name.now → (result ≡ Err Code.NameTooLong) × (client.new ≡ client.old) }
    ensures payload { length name.now ≤ most_name → (IsUtf8 name.now → ⊥) → (result ≡ Err Code.InvalidName) × (client.new ≡ client.old) }
    ensures asks { length name.now ≤ most_name → IsUtf8 name.now → Asks (C.context cx.old) name.now kind client.old result client.new }
    ensures drawn { cx.new ≡ (if is_ok result then C.drawn (C.drawn cx.old) else cx.old) }
{
    if name.len() > MOST_NAME {
        return Err(Code::NameTooLong);
    }
    start_bytes(client, cx, name, kind)
}

fn start_bytes<C: Context>(
    client: &mut Option<Socket>,
    cx: &mut C,
    name: &[u8],
    kind: DnsQueryType,
) -> Result<(), Code>
    ensures payload { (IsUtf8 name.now → ⊥) → (result ≡ Err Code.InvalidName) × (client.new ≡ client.old) }
    ensures asks { IsUtf8 name.now → Asks (C.context cx.old) name.now kind client.old result client.new }
    ensures drawn { cx.new ≡ (if is_ok result then C.drawn (C.drawn cx.old) else cx.old) }
{
    match str::from_utf8(name) {
        Ok(name) => ask_of(client, cx, name, kind),
        Err(_) => Err(Code::InvalidName),
    }
}

fn take<C: Context>(
    client: &mut Socket,
    cx: &C,
    bytes: &[u8],
    remote: IpEndpoint,
    local: IpEndpoint,
)
    ensures { AnswerTaken (C.context cx.now).instant remote local bytes.now client.old client.new }
{
    if let Some((ip, ports)) = headers(remote, local, bytes.len()) {
        client.process(cx, &ip, &ports, bytes);
    }
}

/// A datagram came for the client.
pub fn recv<C: Context>(
    client: &mut Option<Socket>,
    cx: &C,
    bytes: &[u8],
    remote: IpEndpoint,
    local: IpEndpoint,
) -> Result<(), Code>
    ensures { TakesAnswer (C.context cx.now).instant remote local bytes.now client.old result client.new }
{
    match client {
        Some(client) => {
            take(client, cx, bytes, remote, local);
            Ok(())
        }
        None => Err(Code::NoClient),
    }
}

fn due<C: Context>(client: &mut Socket, cx: &C, out: &mut [u8]) -> Result<Sending, Code>
    ensures { QuerySent (C.context cx.now) out.old client.old result out.new client.new }
{
    let _ = client.offer(cx);
    match client.offered() {
        Some(packet) => carry(&packet, out),
        None => Err(Code::Empty),
    }
}

/// Copies the query that is due to the front of the slice. It is open until `sent` says what became of it.
pub fn send<C: Context>(
    client: &mut Option<Socket>,
    cx: &C,
    out: &mut [u8],
) -> Result<Sending, Code>
    ensures { SendsQuery (C.context cx.now) out.old client.old result out.new client.new }
{
    match client {
        Some(client) => due(client, cx, out),
        None => Err(Code::NoClient),
    }
}

/// What became of the query.
pub fn sent(client: &mut Option<Socket>, is_sent: bool) -> Result<(), Code>
    ensures answer { result ≡ sent_answer client.old }
    ensures after { client.new ≡ sent_after is_sent client.old }
{
    match client {
        Some(client) => {
            client.settle(is_sent);
            Ok(())
        }
        None => Err(Code::NoClient),
    }
}

fn found_of(client: &mut Socket) -> Result<Addresses, Code>
    ensures answer { result ≡ coded of_result (result_of client.old.state) }
    ensures after { client.new ≡ told client.old }
{
    match client.get_query_result() {
        Ok(found) => Ok(found),
        Err(error) => Err(of_result(error)),
    }
}

/// The addresses that were found, which are told once.
pub fn found(client: &mut Option<Socket>) -> Result<Addresses, Code>
    ensures answer { result ≡ found_answer client.old }
    ensures after { client.new ≡ found_after client.old }
{
    match client {
        Some(client) => found_of(client),
        None => Err(Code::NoClient),
    }
}

/// When the client has something to send.
pub fn poll_at<C: Context>(client: &Option<Socket>, cx: &C) -> Result<PollAt, Code>
    ensures { result ≡ due_answer client.now }
{
    match client {
        Some(client) => Ok(client.poll_at(cx)),
        None => Err(Code::NoClient),
    }
}

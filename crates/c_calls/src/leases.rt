//! Calls of a client of DHCP.
ghost use Rattle.std.specs.Prelude.{◌≡◌, Some};
ghost use Rattle.c_calls.specs.Leases.{dhcp_answer, dhcp_made, TakesLease, LeaseTaken, SendsLease, LeaseSent};
ghost use Rattle.c_calls.specs.Leases.{sent_answer, sent_after, told_answer, told_after, due_answer};

use crate::carrying::{Sending, carry, headers};
use crate::code::Code;
use ip_wire::{HardwareAddress, IpAddress, IpEndpoint};
use net_base::Instant;
use sockets::dhcp::{Event, Socket};
use sockets::{Context, PollAt};

/// The port of clients of DHCP.
const DHCP_PORT: u16 = 68;

/// A client for a hardware address, in place of one that there was, with or without the host requirements.
pub fn begin(
    client: &mut Option<Socket>,
    hardware: HardwareAddress,
    seed: u64,
    host_requirements: bool,
) -> Result<(), Code>
    ensures answer { result ≡ dhcp_answer hardware }
    ensures after { client.new ≡ dhcp_made hardware seed host_requirements client.old }
{
    match hardware {
        HardwareAddress::Ethernet(hardware_addr) => {
            let mut made = Socket::new(hardware_addr, seed);
            made.set_host_requirements(host_requirements);
            *client = Some(made);
            Ok(())
        }
        HardwareAddress::Ip => Err(Code::Medium),
    }
}

fn take<C: Context>(client: &mut Socket, cx: &C, bytes: &[u8], remote: IpEndpoint, local: IpAddress)
    ensures { LeaseTaken (C.context cx.now).instant remote local bytes.now client.old client.new }
{
    let local = IpEndpoint {
        addr: local,
        port: DHCP_PORT,
    };
    if let Some((ip, ports)) = headers(remote, local, bytes.len()) {
        client.process(cx, &ip, &ports, bytes);
    }
}

/// A datagram came for the client.
pub fn recv<C: Context>(
    client: &mut Option<Socket>,
    cx: &C,
    bytes: &[u8],
    remote: IpEndpoint,
    local: IpAddress,
) -> Result<(), Code>
    ensures { TakesLease (C.context cx.now).instant remote local bytes.now client.old result client.new }
{
    match client {
        Some(client) => {
            take(client, cx, bytes, remote, local);
            Ok(())
        }
        None => Err(Code::NoClient),
    }
}

fn due<C: Context>(client: &mut Socket, cx: &C, out: &mut [u8]) -> Result<Sending, Code>
    ensures { LeaseSent (C.context cx.now) out.old client.old result out.new client.new }
{
    let _ = client.offer(cx);
    match client.offered() {
        Some(packet) => carry(&packet, out),
        None => Err(Code::Empty),
    }
}

/// Copies the message that is due to the front of the slice. It is open until `sent` says what became of it.
pub fn send<C: Context>(
    client: &mut Option<Socket>,
    cx: &C,
    out: &mut [u8],
) -> Result<Sending, Code>
    ensures { SendsLease (C.context cx.now) out.old client.old result out.new client.new }
{
    match client {
        Some(client) => due(client, cx, out),
        None => Err(Code::NoClient),
    }
}

/// What became of the message.
pub fn sent(client: &mut Option<Socket>, is_sent: bool) -> Result<(), Code>
    ensures answer { result ≡ sent_answer client.old }
    ensures after { client.new ≡ sent_after is_sent client.old }
{
    match client {
        Some(client) => {
            client.settle(is_sent);
            Ok(())
        }
        None => Err(Code::NoClient),
    }
}

/// What happened since the last call.
pub fn poll(client: &mut Option<Socket>, now: Instant) -> Result<Option<Event>, Code>
    ensures answer { result ≡ told_answer now client.old }
    ensures after { client.new ≡ told_after now client.old }
{
    match client {
        Some(client) => Ok(client.poll(now)),
        None => Err(Code::NoClient),
    }
}

/// When the client has something to send.
pub fn poll_at<C: Context>(client: &Option<Socket>, cx: &C) -> Result<PollAt, Code>
    ensures { result ≡ due_answer client.now }
{
    match client {
        Some(client) => Ok(client.poll_at(cx)),
        None => Err(Code::NoClient),
    }
}

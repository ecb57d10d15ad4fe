//! Lines of TCP sockets.
use crate::answer::Answer;
use crate::host::Host;
use crate::refusal_text::{Refusal, Said};
use crate::stop::Class;
use crate::words::Words;
use interface::SocketHandle;
use ip_wire::{IpEndpoint, IpListenEndpoint};
use sockets::Socket;
use sockets::tcp::{self, ConnectError, ListenError, RecvError, SendError};
use std::alloc::Global;

/// The lines of a TCP socket, and of one of UDP that closes.
#[derive(Clone, Copy)]
pub enum Verb {
    Listen,
    Connect,
    Send,
    Recv,
    Close,
    Abort,
    State,
}

/// Plays one of these lines.
pub fn play(alloc: Global, host: &mut Host, verb: Verb, words: &mut Words<'_>) -> Answer {
    words.host();
    let slot = words.size();
    match verb {
        Verb::Listen => listen(host, slot, words),
        Verb::Connect => connect(host, slot, words),
        Verb::Send => send(alloc, host, slot, words),
        Verb::Recv => recv(alloc, host, slot, words),
        Verb::Close => close(host, slot, words),
        Verb::Abort => abort(host, slot, words),
        Verb::State => state(host, slot, words),
    }
}

fn state(host: &mut Host, slot: usize, words: &mut Words<'_>) -> Answer {
    words.end();
    match host.tcp(slot, words) {
        Some(socket) => Answer::State(socket.state()),
        None => Answer::Done,
    }
}

fn abort(host: &mut Host, slot: usize, words: &mut Words<'_>) -> Answer {
    words.end();
    if let Some(socket) = host.tcp(slot, words) {
        socket.abort();
    }
    Answer::Done
}

fn close(host: &mut Host, slot: usize, words: &mut Words<'_>) -> Answer {
    words.end();
    match host.socket(slot, words) {
        Some(Socket::Tcp(socket)) => socket.close(),
        Some(Socket::Udp(socket)) => socket.close(),
        Some(_) => return words.refuse(Refusal::WrongKind),
        None => {}
    }
    Answer::Done
}

fn listen(host: &mut Host, slot: usize, words: &mut Words<'_>) -> Answer {
    let port = words.short(Class::Port);
    words.end();
    match host.tcp(slot, words) {
        Some(socket) => listens(socket.listen(IpListenEndpoint { addr: None, port })),
        None => Answer::Done,
    }
}

fn listens(answer: Result<(), ListenError>) -> Answer {
    match answer {
        Ok(()) => Answer::Done,
        Err(ListenError::InvalidState) => Answer::Error(Refusal::InvalidState),
        Err(ListenError::Unaddressable) => Answer::Error(Refusal::Unaddressable),
    }
}

fn connect(host: &mut Host, slot: usize, words: &mut Words<'_>) -> Answer {
    let (remote, port) = (words.endpoint(), words.short(Class::Port));
    words.end();
    if words.is_taken() {
        connect_to(host, slot, remote, port, words)
    } else {
        Answer::Done
    }
}

fn connect_to(
    host: &mut Host,
    slot: usize,
    remote: IpEndpoint,
    port: u16,
    words: &mut Words<'_>,
) -> Answer {
    let local = IpListenEndpoint { addr: None, port };
    match host.sockets.get_mut(SocketHandle::at(slot)) {
        Some(Socket::Tcp(socket)) => connects(socket.connect(&mut host.interface, remote, local)),
        Some(_) => words.refuse(Refusal::WrongKind),
        None => words.refuse(Refusal::NoSocket),
    }
}

fn connects(answer: Result<(), ConnectError>) -> Answer {
    match answer {
        Ok(()) => Answer::Done,
        Err(ConnectError::InvalidState) => Answer::Error(Refusal::InvalidState),
        Err(ConnectError::Unaddressable) => Answer::Error(Refusal::Unaddressable),
    }
}

fn send(alloc: Global, host: &mut Host, slot: usize, words: &mut Words<'_>) -> Answer {
    let bytes = words.last_bytes(alloc);
    match host.tcp(slot, words) {
        Some(socket) => sent(socket.send_slice(bytes.as_slice())),
        None => Answer::Done,
    }
}

fn sent(answer: Result<usize, SendError>) -> Answer {
    match answer {
        Ok(count) => Answer::Number(Said::Took, count as u64),
        Err(SendError::InvalidState) => Answer::Error(Refusal::InvalidState),
    }
}

fn recv(alloc: Global, host: &mut Host, slot: usize, words: &mut Words<'_>) -> Answer {
    let most = words.size();
    words.end();
    match host.tcp(slot, words) {
        Some(socket) => match vec![in alloc; 0; most.min(socket.recv_queue())].ok() {
            Some(bytes) => recv_into(socket, bytes),
            None => words.refuse(Refusal::Memory),
        },
        None => Answer::Done,
    }
}

fn recv_into(socket: &mut tcp::Socket, mut bytes: Vec<u8>) -> Answer {
    match socket.recv_slice(&mut bytes) {
        Ok(count) => {
            bytes.truncate(count);
            Answer::Bytes(bytes)
        }
        Err(RecvError::InvalidState) => Answer::Error(Refusal::InvalidState),
        Err(RecvError::Finished) => Answer::Error(Refusal::Finished),
    }
}

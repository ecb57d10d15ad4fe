//! What calls answer, as answers of a world.
ghost use Rattle.std.specs.Prelude.{◌≡◌, ◌≢◌, None, Some, IfOk, length};
ghost use Rattle.lan.specs.Worlds.AtLink.Calls.{done_or, count_or, listen_fault, connect_fault, write_fault, recv_fault, bind_fault, send_fault, hop_limit_or_none};
ghost use Rattle.lan.specs.Worlds.AtLink.Does.{raw_fault};
ghost use Rattle.lan.specs.Worlds.AtLink.Answers.{IsTwice, Gives, brief, fault_of};

use crate::at_link::history::{Answer, Fault};
use sockets::tcp::{ConnectError, ListenError, RecvError, SendError, State};
use sockets::{raw, udp};
use std::alloc::{AllocError, Global};

/// An answer and its twin, which the world keeps.
pub type Twins = (Answer, Answer);

/// What an event gave that was taken.
#[derive(Debug, Drop)]
pub struct Taken {
    pub answer: Answer,
    /// The answer's twin, for the world to keep.
    pub kept: Answer,
    /// Of a close of a TCP socket, the state that it found.
    pub found: Option<State>,
}

/// What a call answers that reads no bytes.
#[derive(Clone, Copy, PartialEq, Eq)]
pub enum Brief {
    Done,
    Count(usize),
    State(State),
    Error(Fault),
}

/// An answer without bytes, twice.
pub fn twins(answer: Brief) -> Twins
    ensures { IsTwice result (brief answer) }
{
    match answer {
        Brief::Done => (Answer::Done, Answer::Done),
        Brief::Count(count) => (Answer::Count(count), Answer::Count(count)),
        Brief::State(state) => (Answer::State(state), Answer::State(state)),
        Brief::Error(fault) => (Answer::Error(fault), Answer::Error(fault)),
    }
}

/// Two buffers of so many bytes: for what is read, and for its twin.
pub(crate) fn two_buffers(alloc: Global, count: usize) -> Result<(Vec<u8>, Vec<u8>), AllocError>
    ensures one { IfOk result (λ both. length both.0.items ≡ count) }
    ensures other { IfOk result (λ both. length both.1.items ≡ count) }
{
    Ok((vec![in alloc; 0; count]?, vec![in alloc; 0; count]?))
}

/// What was given with an answer without bytes.
pub(crate) fn give(short: Brief, found: Option<State>) -> Taken
    ensures { Gives result (brief short) found }
{
    let (answer, kept) = twins(short);
    Taken {
        answer,
        kept,
        found,
    }
}

/// What was given with an answer and its twin.
pub(crate) fn give_twice(twins: Twins) -> Taken
    ensures answer { result.answer ≡ twins.0 }
    ensures kept { result.kept ≡ twins.1 }
    ensures found { result.found ≡ None }
{
    let (answer, kept) = twins;
    Taken {
        answer,
        kept,
        found: None,
    }
}

pub(crate) fn listened(outcome: Result<(), ListenError>) -> Brief
    ensures { brief result ≡ done_or listen_fault outcome }
{
    match outcome {
        Ok(()) => Brief::Done,
        Err(ListenError::InvalidState) => Brief::Error(Fault::InvalidState),
        Err(ListenError::Unaddressable) => Brief::Error(Fault::Unaddressable),
    }
}

pub(crate) fn connected(outcome: Result<(), ConnectError>) -> Brief
    ensures { brief result ≡ done_or connect_fault outcome }
{
    match outcome {
        Ok(()) => Brief::Done,
        Err(ConnectError::InvalidState) => Brief::Error(Fault::InvalidState),
        Err(ConnectError::Unaddressable) => Brief::Error(Fault::Unaddressable),
    }
}

pub(crate) fn written(outcome: Result<usize, SendError>) -> Brief
    ensures { brief result ≡ count_or write_fault outcome }
{
    match outcome {
        Ok(count) => Brief::Count(count),
        Err(SendError::InvalidState) => Brief::Error(Fault::InvalidState),
    }
}

pub(crate) fn recv_fault(fault: RecvError) -> Fault
    ensures { result ≡ recv_fault fault }
{
    match fault {
        RecvError::InvalidState => Fault::InvalidState,
        RecvError::Finished => Fault::Finished,
    }
}

pub(crate) fn bound(outcome: Result<(), udp::BindError>) -> Brief
    ensures { brief result ≡ done_or bind_fault outcome }
{
    match outcome {
        Ok(()) => Brief::Done,
        Err(udp::BindError::InvalidState) => Brief::Error(Fault::InvalidState),
        Err(udp::BindError::Unaddressable) => Brief::Error(Fault::Unaddressable),
    }
}

pub(crate) fn sent(outcome: Result<(), udp::SendError>) -> Brief
    ensures { brief result ≡ done_or send_fault outcome }
{
    match outcome {
        Ok(()) => Brief::Done,
        Err(udp::SendError::Unaddressable) => Brief::Error(Fault::Unaddressable),
        Err(udp::SendError::BufferFull) => Brief::Error(Fault::BufferFull),
    }
}

pub(crate) fn sent_raw(outcome: Result<(), raw::SendError>) -> Brief
    ensures { brief result ≡ done_or raw_fault outcome }
{
    match outcome {
        Ok(()) => Brief::Done,
        Err(raw::SendError::BufferFull) => Brief::Error(Fault::BufferFull),
    }
}

pub(crate) fn read_fault(fault: udp::RecvError) -> Fault
    ensures { result ≡ fault_of fault }
{
    match fault {
        udp::RecvError::Exhausted => Fault::Exhausted,
        udp::RecvError::Truncated => Fault::Truncated,
    }
}

/// The hop limit that is set: 0 counts as none.
pub(crate) fn hop_limit_or_none(hop_limit: Option<u8>) -> Option<u8>
    ensures value { result ≡ hop_limit_or_none hop_limit }
    ensures some { result ≢ Some 0 }
{
    match hop_limit {
        None => None,
        Some(n) => { if n == 0 { None } else { Some(n) } }
    }
}

//! Why a call is refused, by name and by number.
ghost use Rattle.std.specs.Prelude.{◌≡◌};
ghost use Rattle.c_calls.specs.Codes.{number_of, of_bind, of_send, of_raw_send, of_recv, of_listen, of_connect, of_stream_send, of_stream_recv, of_new, of_push, of_fetch};

use crate::link::{FetchError, PushError};
use interface::NewError;
use sockets::{raw, tcp, udp};

/// Why a call is refused.
#[derive(Clone, Copy)]
pub enum Code {
    /// The handle has no host.
    NoHost,
    /// The handle has a host already.
    HasHost,
    /// There is no memory.
    Memory,
    /// An argument names nothing: a family that is neither 4 nor 6, a prefix that is longer than the address, a medium that is
    /// neither Ethernet nor IP, two addresses of different families.
    BadArgument,
    /// The slot has no socket.
    NoSocket,
    /// The socket at the slot is of another kind.
    WrongKind,
    /// The socket's state doesn't take the call.
    InvalidState,
    /// A port is 0, an address is unspecified, the socket isn't bound, or no own address is of the family.
    Unaddressable,
    /// There is no room: in a socket's queue, or among the frames that wait.
    Full,
    /// Nothing waits.
    Empty,
    /// The datagram is longer than the buffer. It is gone.
    Truncated,
    /// The remote has closed its way, and all that it sent was read.
    Finished,
    /// The frame is longer than the buffer. It stays.
    TooShort,
    /// The frame, or the buffer of a stream, is longer than any may be.
    TooLong,
    /// The table of addresses, routes or listeners is full.
    TableFull,
    /// The address or the route isn't there.
    NotFound,
    /// The medium has other hardware addresses.
    Medium,
    /// The address isn't that of one host.
    NotUnicast,
    /// The longest IP packet of a frame is below 576 or above 65,535 bytes.
    Mtu,
    /// The instant is below 0 or above 2^61.
    Moment,
    /// The listener isn't there.
    NoListener,
    /// The socket is in the backlog of a listener, or one of its keepers.
    InBacklog,
    /// The host has no such client.
    NoClient,
    /// The query has no answer yet.
    QueryPending,
    /// The name has more than 255 bytes.
    NameTooLong,
    /// A label of the name has no bytes, or more than 63, or the name is no text.
    InvalidName,
    /// The name has no address, or nothing was asked. Of a host that does without the requirements also: no server answered.
    QueryFailed,
    /// No server answered the query: each refused, failed, cut its answer short, or was silent.
    QueryUnanswered,
    /// Another socket has the port, or the connection.
    AddressInUse,
    /// No route leads to the remote.
    NoRoute,
}

impl Code {
    /// The number by which C knows it. 0 is none of them.
    pub fn number(self) -> u32
        ensures { result ≡ number_of self }
    {
        match self {
            Code::NoHost => 1,
            Code::HasHost => 2,
            Code::Memory => 3,
            Code::BadArgument => 4,
            Code::NoSocket => 5,
            Code::WrongKind => 6,
            Code::InvalidState => 7,
            Code::Unaddressable => 8,
            Code::Full => 9,
            Code::Empty => 10,
            Code::Truncated => 11,
            Code::Finished => 12,
            Code::TooShort => 13,
            Code::TooLong => 14,
            Code::TableFull => 15,
            Code::NotFound => 16,
            Code::Medium => 17,
            Code::NotUnicast => 18,
            Code::Mtu => 19,
            Code::Moment => 20,
            Code::NoListener => 21,
            Code::InBacklog => 22,
            Code::NoClient => 23,
            Code::QueryPending => 24,
            Code::NameTooLong => 25,
            Code::InvalidName => 26,
            Code::QueryFailed => 27,
            Code::QueryUnanswered => 28,
            Code::AddressInUse => 29,
            Code::NoRoute => 30,
        }
    }
}

pub(crate) fn of_bind(error: udp::BindError) -> Code
    ensures { result ≡ of_bind error }
{
    match error {
        udp::BindError::InvalidState => Code::InvalidState,
        udp::BindError::Unaddressable => Code::Unaddressable,
    }
}

pub(crate) fn of_send(error: udp::SendError) -> Code
    ensures { result ≡ of_send error }
{
    match error {
        udp::SendError::Unaddressable => Code::Unaddressable,
        udp::SendError::BufferFull => Code::Full,
    }
}

pub(crate) fn of_raw_send(error: raw::SendError) -> Code
    ensures { result ≡ of_raw_send error }
{
    match error {
        raw::SendError::BufferFull => Code::Full,
    }
}

pub(crate) fn of_recv(error: udp::RecvError) -> Code
    ensures { result ≡ of_recv error }
{
    match error {
        udp::RecvError::Exhausted => Code::Empty,
        udp::RecvError::Truncated => Code::Truncated,
    }
}

pub(crate) fn of_listen(error: tcp::ListenError) -> Code
    ensures { result ≡ of_listen error }
{
    match error {
        tcp::ListenError::InvalidState => Code::InvalidState,
        tcp::ListenError::Unaddressable => Code::Unaddressable,
    }
}

pub(crate) fn of_connect(error: tcp::ConnectError) -> Code
    ensures { result ≡ of_connect error }
{
    match error {
        tcp::ConnectError::InvalidState => Code::InvalidState,
        tcp::ConnectError::Unaddressable => Code::Unaddressable,
    }
}

pub(crate) fn of_stream_recv(error: tcp::RecvError) -> Code
    ensures { result ≡ of_stream_recv error }
{
    match error {
        tcp::RecvError::InvalidState => Code::InvalidState,
        tcp::RecvError::Finished => Code::Finished,
    }
}

pub(crate) fn of_stream_send(error: tcp::SendError) -> Code
    ensures { result ≡ of_stream_send error }
{
    match error {
        tcp::SendError::InvalidState => Code::InvalidState,
    }
}

pub(crate) fn of_new(error: NewError) -> Code
    ensures { result ≡ of_new error }
{
    match error {
        NewError::Medium => Code::Medium,
        NewError::NotUnicast => Code::NotUnicast,
        NewError::Mtu => Code::Mtu,
        NewError::Moment => Code::Moment,
        NewError::Memory => Code::Memory,
    }
}

pub(crate) fn of_push(error: PushError) -> Code
    ensures { result ≡ of_push error }
{
    match error {
        PushError::TooLong => Code::TooLong,
        PushError::Full => Code::Full,
        PushError::Memory => Code::Memory,
    }
}

pub(crate) fn of_fetch(error: FetchError) -> Code
    ensures { result ≡ of_fetch error }
{
    match error {
        FetchError::Empty => Code::Empty,
        FetchError::TooShort => Code::TooShort,
    }
}

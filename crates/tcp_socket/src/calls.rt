//! The calls of a user. Each of them first settles an open offer as not sent.
ghost use Rattle.std.specs.Prelude.{◌≡◌, ◌≤◌, ℕ, List, ◌++◌, length, take, drop, true, false, Ok, Err, IfOk, IfErr, OnErr, IsOk, is_ok, None, Some};
ghost use Rattle.std.specs.Prelude.{if◌then◌else◌};
ghost use Rattle.std.specs.Fn.{FnOnceTakesAt, FnOnceReturnsAt, FnOnceTakesAtMut, FnOnceReturnsAtMut};
ghost use Rattle.net_base.specs.Ring.{anchored, extended, overwritten, contiguous, offered};
ghost use Rattle.socket_context.specs.Context.{ContextValue};
ghost use Rattle.ip_wire.specs.IpEndpoint.{IpEndpoint};
ghost use Rattle.ip_wire.specs.IpListenEndpoint.{IpListenEndpoint};
ghost use Rattle.tcp_block.specs.TcbRules.{initial_tcb};
ghost use Rattle.tcp_block.specs.Calls.{listening, listen_answer, listen_after, source_by, four_tuple_for, connect_answer, connect_after, connect_draws, send_answer};
ghost use Rattle.tcp_block.specs.Calls.{sent_more, send_after, recv_refusal, recv_answer, recv_after, close_after, abort_after};
ghost use Rattle.tcp_block.specs.States.{takes_writes};
ghost use Rattle.tcp_block.specs.Value.{opened, unoffered};
ghost use Rattle.tcp_socket.specs.Receive.{unbroken, lent, or_done};
ghost use Rattle.tcp_socket.specs.Socket.{if_open, takes_all};

use crate::Socket;
use ip_wire::{IpAddress, IpEndpoint, IpListenEndpoint, SeqNumber};
use socket_context::Context;
use socket_context::addresses::is_unspecified;
use std::fmt;
use tcp_block::{
    AddressPair, ConnectError, EndEvent, FourTuple, ListenError, Names, RecvError, SendError,
    Sender, State, Tcb, is_same_listener, isn,
};

/// The source of what is sent to this address: the one that is named, else the interface's, if it is
/// specified.
fn source_for<C: Context>(cx: &C, named: Option<IpAddress>, remote: &IpAddress) -> Option<IpAddress>
    ensures { result ≡ source_by (C.context cx.now) named remote.now }
{
    match named {
        None => cx.get_source_address(remote),
        Some(local) if is_unspecified(&local) => None,
        Some(local) => Some(local),
    }
}

/// The endpoints of a connection, if both have a port and a specified address, of one family.
fn four_tuple_for<C: Context>(
    cx: &C,
    remote: &IpEndpoint,
    local: &IpListenEndpoint,
) -> Option<FourTuple>
    ensures { result ≡ four_tuple_for (C.context cx.now) remote.now local.now }
{
    if remote.port == 0 || is_unspecified(&remote.addr) || local.port == 0 {
        return None;
    }
    let source = source_for(cx, local.addr, &remote.addr)?;
    let addresses = AddressPair::new(source, remote.addr)?;
    Some(FourTuple {
        addresses,
        local_port: local.port,
        remote_port: remote.port,
    })
}

impl Socket {
    /// Drops all of an earlier connection.
    fn open(&mut self, state: State, names: Names, sender: Sender)
        ensures { self.new ≡ opened self.old (record (initial_tcb self.old.tcb.settings) { state = state; names = names; sender = sender }) }
    {
        self.offered = None;
        self.end_reason = None;
        self.tcb = Tcb {
            state,
            names,
            sender,
            ..Tcb::new(self.tcb.settings)
        };
        self.received.clear();
        self.queued.clear();
    }

    /// Listens on this endpoint.
    pub(crate) fn listen_on(&mut self, endpoint: IpListenEndpoint)
        ensures { self.new ≡ listening self.old endpoint }
    {
        let names = Names {
            listen: endpoint,
            pair: None,
        };
        self.open(State::Listen, names, Sender::new(SeqNumber(0), false));
    }

    /// Opens the socket for a connection that a remote opens. Without an address it takes one to any.
    pub fn listen<T: Into<IpListenEndpoint>>(
        &mut self,
        local_endpoint: T,
    ) -> Result<(), ListenError>
        ensures { (to : IpListenEndpoint) × T.converts local_endpoint to
            × (result ≡ listen_answer self.old to) × (self.new ≡ listen_after self.old to) }
    {
        self.listen_to(local_endpoint.into())
    }

    fn listen_to(&mut self, endpoint: IpListenEndpoint) -> Result<(), ListenError>
        ensures answer { result ≡ listen_answer self.old endpoint }
        ensures state { self.new ≡ listen_after self.old endpoint }
    {
        self.offered = None;
        if endpoint.port == 0 {
            return Err(ListenError::Unaddressable);
        }
        if self.tcb.state.is_closed() {
            self.listen_on(endpoint);
            return Ok(());
        }
        if self.tcb.state.is_listening() && is_same_listener(&self.tcb.names.listen, &endpoint) {
            return Ok(());
        }
        Err(ListenError::InvalidState)
    }

    /// Opens a connection to a remote.
    pub fn connect<C: Context, T: Into<IpEndpoint>, U: Into<IpListenEndpoint>>(
        &mut self,
        cx: &mut C,
        remote_endpoint: T,
        local_endpoint: U,
    ) -> Result<(), ConnectError>
        ensures { (remote : IpEndpoint) × ((local : IpListenEndpoint) × T.converts remote_endpoint remote × U.converts local_endpoint local
            × (result ≡ connect_answer (C.context cx.old) self.old remote local)
            × (self.new ≡ connect_after (C.context cx.old) self.old remote local)
            × (cx.new ≡ (if connect_draws (C.context cx.old) self.old remote local then C.drawn cx.old else cx.old))) }
    {
        self.connect_to(cx, remote_endpoint.into(), local_endpoint.into())
    }

    fn connect_to<C: Context>(
        &mut self,
        cx: &mut C,
        remote: IpEndpoint,
        local: IpListenEndpoint,
    ) -> Result<(), ConnectError>
        ensures answer { result ≡ connect_answer (C.context cx.old) self.old remote local }
        ensures state { self.new ≡ connect_after (C.context cx.old) self.old remote local }
        ensures drawn { cx.new ≡ (if connect_draws (C.context cx.old) self.old remote local then C.drawn cx.old else cx.old) }
    {
        self.offered = None;
        if !self.tcb.state.is_closed() {
            return Err(ConnectError::InvalidState);
        }
        let Some(pair) = four_tuple_for(cx, &remote, &local) else {
            return Err(ConnectError::Unaddressable);
        };
        let number = isn(cx, &pair);
        let names = Names {
            pair: Some(pair),
            ..Names::NONE
        };
        self.open(State::SynSent, names, Sender::new(SeqNumber(number), true));
        Ok(())
    }

    /// Closes the egress path: what is queued still goes, and then a FIN.
    pub fn close(&mut self)
        ensures { self.new ≡ close_after self.old }
    {
        let before = self.tcb.state;
        self.close_unnoted();
        self.note_end(EndEvent::Close, before);
    }

    /// The same, without a note of why the connection is over.
    pub(crate) fn close_unnoted(&mut self)
        ensures { self.new ≡ close_after self.old }
    {
        self.offered = None;
        if self.tcb.state.is_opening() {
            self.tcb.forget();
        } else {
            self.tcb.state = self.tcb.state.after_close();
        }
    }

    /// Ends the connection. A reset goes to the remote, if there is one, but in TIME-WAIT, where the
    /// remote has all that it waits for.
    pub fn abort(&mut self)
        ensures { self.new ≡ abort_after self.old }
    {
        let before = self.tcb.state;
        self.abort_unnoted();
        self.note_end(EndEvent::Abort, before);
    }

    fn abort_unnoted(&mut self)
        ensures { self.new ≡ abort_after self.old }
    {
        self.offered = None;
        if self.tcb.state.is_time_wait() {
            self.tcb.forget();
        } else {
            self.tcb.state = State::Closed;
            self.tcb.sender.reset_due = self.tcb.names.pair.is_some();
        }
    }

    fn check_send(&self) -> Result<(), SendError>
        ensures { result ≡ if_open (takes_writes self.now.tcb.state) }
    {
        if self.tcb.state.takes_writes() {
            Ok(())
        } else {
            Err(SendError::InvalidState)
        }
    }

    /// Lends free bytes after those that are queued, as many as lie after one another. `f` writes to
    /// them and answers how many are to be queued, and a value that is passed on.
    pub fn send<R, F: FnOnce(&mut [u8]) -> (usize, R)>(&mut self, f: F) -> Result<R, SendError>
    where
        F: Drop,
        requires callable { FnOnceTakesAtMut F.FnOnce f (offered self.old.queued) }
        requires within { (answer : _) (left : List ℕ) → FnOnceReturnsAtMut F.FnOnce f (offered self.old.queued) answer left
            → answer.0 ≤ contiguous (anchored self.old.queued) }
        ensures refused { OnErr result ((takes_writes self.old.tcb.state ≡ false) × (self.new ≡ unoffered self.old)) }
        ensures sent { IfOk result (λ answer. (takes_writes self.old.tcb.state ≡ true) × ((left : List ℕ) × ((count : ℕ)
            × (length left ≡ contiguous (anchored self.old.queued))
            × FnOnceReturnsAtMut F.FnOnce f (offered self.old.queued) (record { 0 = count; 1 = answer }) left
            × (self.new ≡ sent_more self.old (extended (overwritten (anchored self.old.queued) 0 left) count))))) }
    {
        self.offered = None;
        self.check_send()?;
        let (_, answer) = self.queued.enqueue_many_with(f);
        Ok(answer)
    }

    /// Queues as many of the bytes as there is room for, and returns how many.
    pub fn send_slice(&mut self, data: &[u8]) -> Result<usize, SendError>
        ensures answer { result ≡ send_answer self.old (length «data».now) }
        ensures state { self.new ≡ send_after self.old «data».now }
    {
        self.offered = None;
        self.check_send()?;
        Ok(self.queued.enqueue_slice(data))
    }

    /// Why nothing can be read.
    fn check_recv(&self) -> Result<(), RecvError>
        ensures { result ≡ or_done (recv_refusal self.now) }
    {
        if self.tcb.state.accepts_data() || self.can_recv() {
            Ok(())
        } else if self.tcb.receiver.took_fin {
            Err(RecvError::Finished)
        } else {
            Err(RecvError::InvalidState)
        }
    }

    /// Lends the bytes that wait, as many as lie after one another. `f` answers how many of them are
    /// read, and a value that is passed on.
    pub fn recv<R, F: FnOnce(&[u8]) -> (usize, R)>(&mut self, f: F) -> Result<R, RecvError>
    where
        F: Drop,
        requires callable { FnOnceTakesAt F.FnOnce f (lent self.old.received) }
        requires within { (answer : _) → FnOnceReturnsAt F.FnOnce f (lent self.old.received) answer → answer.0 ≤ length (lent self.old.received) }
        ensures refused { IfErr result (λ e. (recv_refusal self.old ≡ Some e) × (self.new ≡ unoffered self.old)) }
        ensures read { IfOk result (λ answer. (recv_refusal self.old ≡ None) × ((count : ℕ)
            × FnOnceReturnsAt F.FnOnce f (lent self.old.received) (record { 0 = count; 1 = answer })
            × (self.new ≡ recv_after self.old count))) }
    {
        self.offered = None;
        self.check_recv()?;
        Ok(self.received.read_with(f))
    }

    /// Reads waiting bytes into the slice, and returns how many.
    pub fn recv_slice(&mut self, data: &mut [u8]) -> Result<usize, RecvError>
        ensures answer { result ≡ recv_answer self.old (length «data».old) }
        ensures refused { OnErr result ((self.new ≡ unoffered self.old) × («data».new ≡ «data».old)) }
        ensures read { IfOk result (λ count. (self.new ≡ recv_after self.old count)
            × («data».new ≡ take count self.old.received.waiting ++ drop count «data».old)) }
    {
        self.offered = None;
        self.check_recv()?;
        let count = self.received.read(data);
        self.received.release(count);
        Ok(count)
    }

    /// Returns the first waiting bytes, at most so many and as many as lie after one another.
    pub fn peek(&self, size: usize) -> Result<&[u8], RecvError>
        ensures refused { IfErr result (λ e. recv_refusal self.now ≡ Some e) }
        ensures bytes { IfOk result (λ bytes. (recv_refusal self.now ≡ None)
            × (bytes.now ≡ take (unbroken self.now.received 0 size) self.now.received.waiting)) }
    {
        self.check_recv()?;
        Ok(self.received.get(0, size))
    }

    /// Copies waiting bytes into the slice, and returns how many.
    pub fn peek_slice(&self, data: &mut [u8]) -> Result<usize, RecvError>
        ensures answer { result ≡ recv_answer self.now (length «data».old) }
        ensures refused { OnErr result («data».new ≡ «data».old) }
        ensures read { IfOk result (λ count. «data».new ≡ take count self.now.received.waiting ++ drop count «data».old) }
    {
        self.check_recv()?;
        Ok(self.received.read(data))
    }
}

impl fmt::Write for Socket {
    ghost use Rattle.tcp_block.specs.Calls.{send_after};
    ghost use Rattle.tcp_socket.specs.Socket.{takes_all};
    ghost use Rattle.std.specs.Prelude.{length, ◌≡◌, true};

    ghost write_str_gives = { λ v payload v'. (takes_all v (length payload) ≡ true) × (v' ≡ send_after v payload) };

    /// Queues the payload. It fails where there is no room for all of it; then a part is queued.
    fn write_str(&mut self, s: &str) -> fmt::Result
        ensures ok { IsOk result → (takes_all self.old (length s.now) ≡ true) × (self.new ≡ send_after self.old s.now) }
        ensures answer { is_ok result ≡ takes_all self.old (length s.now) }
        ensures state { self.new ≡ send_after self.old s.now }
    {
        let bytes = s.as_bytes();
        let Ok(count) = self.send_slice(bytes) else {
            return Err(fmt::Error);
        };
        if count == bytes.len() {
            Ok(())
        } else {
            Err(fmt::Error)
        }
    }
}

//! Calls of the clients of DHCP and DNS. UDP sockets of the host carry their datagrams: what one received is handed to its client, and
//! what the client has to send is queued at the socket.
ghost use Rattle.std.specs.Prelude.{◌≡◌, ◌<◌, ◌≤◌, length, Err};
ghost use Rattle.std.specs.Str.{IsUtf8};
ghost use Rattle.c_calls.specs.Leases.{dhcp_answer, dhcp_made, told_answer, told_after};
ghost use Rattle.c_calls.specs.Leases as Leases;
ghost use Rattle.c_calls.specs.Names.{query_made, found_answer, found_after, most_name};
ghost use Rattle.c_calls.specs.Names as Names;
ghost use Rattle.c_calls.specs.Configuring.{LeaseArrives, LeaseGoes, AsksName, AnswerArrives, QueryGoes};

use crate::carrying::Sending;
use crate::code::Code;
use crate::host::Host;
use crate::{leases, names};
use ip_wire::{IpAddress, IpEndpoint};
use net_base::Instant;
use sockets::PollAt;
use sockets::dhcp::Event;
use sockets::dns::{Addresses, DnsQueryType};

impl Host {
    /// A client of DHCP for this hardware address, in place of one that there was. The seed is that of its random words.
    pub fn dhcp_new(&mut self, seed: u64) -> Result<(), Code>
        ensures answer { result ≡ dhcp_answer self.old.host.inner.hardware }
        ensures after { self.new ≡ record self.old { dhcp = dhcp_made self.old.host.inner.hardware seed self.old.host.inner.host_requirements self.old.dhcp } }
    {
        let hardware = self.interface().hardware_addr();
        let host_requirements = self.interface().host_requirements();
        leases::begin(self.leases(), hardware, seed, host_requirements)
    }

    /// A datagram that a socket received at the clients' port.
    pub fn dhcp_recv(
        &mut self,
        bytes: &[u8],
        remote: IpEndpoint,
        local: IpAddress,
    ) -> Result<(), Code>
        ensures { LeaseArrives remote local bytes.now self.old result self.new }
    {
        let (client, cx) = self.leases_beside();
        leases::recv(client, cx, bytes, remote, local)
    }

    /// Copies the message that is due to the front of the slice. It is open until `dhcp_sent` says what became of it.
    pub fn dhcp_send(&mut self, out: &mut [u8]) -> Result<Sending, Code>
        ensures { LeaseGoes out.old self.old result out.new self.new }
    {
        let (client, cx) = self.leases_beside();
        leases::send(client, cx, out)
    }

    /// What became of the message: after one that was sent the client waits for its answer.
    pub fn dhcp_sent(&mut self, is_sent: bool) -> Result<(), Code>
        ensures answer { result ≡ Leases.sent_answer self.old.dhcp }
        ensures after { self.new ≡ record self.old { dhcp = Leases.sent_after is_sent self.old.dhcp } }
    {
        leases::sent(self.leases(), is_sent)
    }

    /// What happened since the last call: a lease that is over by now is given up first.
    pub fn dhcp_poll(&mut self, now: Instant) -> Result<Option<Event>, Code>
        ensures answer { result ≡ told_answer now self.old.dhcp }
        ensures after { self.new ≡ record self.old { dhcp = told_after now self.old.dhcp } }
    {
        leases::poll(self.leases(), now)
    }

    /// When the client of DHCP has something to send.
    pub fn dhcp_poll_at(&self) -> Result<PollAt, Code>
        ensures { result ≡ Leases.due_answer self.now.dhcp }
    {
        leases::poll_at(self.seen_leases(), self.seen_interface())
    }

    /// A client of DNS that asks these servers, in place of one that there was.
    pub fn dns_new(&mut self, servers: &[IpAddress])
        ensures { self.new ≡ record self.old { dns = query_made servers.now self.old.host.inner.host_requirements } }
    {
        let host_requirements = self.interface().host_requirements();
        names::begin(self.names(), servers, host_requirements);
    }

    /// Asks for the addresses of a name, which is a text with dots between its labels. A query that is begun draws two random words.
    pub fn dns_ask(&mut self, name: &[u8], kind: DnsQueryType) -> Result<(), Code>
        ensures long { most_name < length name.now → (result ≡ Err Code.NameTooLong) × (self.new ≡ self.old) }
        ensures payload { length name.now ≤ most_name → (IsUtf8 name.now → ⊥) → (result ≡ Err Code.InvalidName) × (self.new ≡ self.old) }
        ensures asks { length name.now ≤ most_name → IsUtf8 name.now → AsksName name.now kind self.old result self.new }
    {
        names::start(&mut self.dns, &mut self.interface, name, kind)
    }

    /// A datagram that a socket received at an own address and its port.
    pub fn dns_recv(
        &mut self,
        bytes: &[u8],
        remote: IpEndpoint,
        local: IpEndpoint,
    ) -> Result<(), Code>
        ensures { AnswerArrives remote local bytes.now self.old result self.new }
    {
        let (client, cx) = self.names_beside();
        names::recv(client, cx, bytes, remote, local)
    }

    /// Copies the query that is due to the front of the slice. It is open until `dns_sent` says what became of it.
    pub fn dns_send(&mut self, out: &mut [u8]) -> Result<Sending, Code>
        ensures { QueryGoes out.old self.old result out.new self.new }
    {
        let (client, cx) = self.names_beside();
        names::send(client, cx, out)
    }

    /// What became of the query: after one that was sent the client waits for its answer.
    pub fn dns_sent(&mut self, is_sent: bool) -> Result<(), Code>
        ensures answer { result ≡ Names.sent_answer self.old.dns }
        ensures after { self.new ≡ record self.old { dns = Names.sent_after is_sent self.old.dns } }
    {
        names::sent(self.names(), is_sent)
    }

    /// The addresses that were found, which are told once.
    pub fn dns_result(&mut self) -> Result<Addresses, Code>
        ensures answer { result ≡ found_answer self.old.dns }
        ensures after { self.new ≡ record self.old { dns = found_after self.old.dns } }
    {
        names::found(self.names())
    }

    /// When the client of DNS has something to send.
    pub fn dns_poll_at(&self) -> Result<PollAt, Code>
        ensures { result ≡ Names.due_answer self.now.dns }
    {
        names::poll_at(self.seen_names(), self.seen_interface())
    }
}

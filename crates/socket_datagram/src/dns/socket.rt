//! The socket.
ghost use Rattle.std.specs.Prelude.{◌≡◌, ◌≢◌, ◌<◌, ◌≤◌, IfSome, None, Some, length, is_ok, if◌then◌else◌};
ghost use Rattle.net_base.specs.Time.{IsMoment};
ghost use Rattle.socket_context.specs.Packet.{IsSendable, option_value};
ghost use Rattle.wire_dns.specs.Codes.{opcode_number};
ghost use Rattle.wire_dns.specs.Message.{written};
ghost use Rattle.wire_dns.specs.Name.{bytes_of_name};
ghost use Rattle.socket_datagram.specs.DnsClient.Offers.{Offers, header_between, turn_in, turn_of};
ghost use Rattle.socket_datagram.specs.DnsClient.Processed.{Processed, accepts, judged};
ghost use Rattle.socket_datagram.specs.DnsClient.Starts.{Starts, started};
ghost use Rattle.socket_datagram.specs.DnsClient.Turns.{poll_of};
ghost use Rattle.socket_datagram.specs.DnsClient.Records.{padded};
ghost use Rattle.socket_datagram.specs.DnsClient.Value.{made, with_servers, with_hop_limit, with_host_requirements, cancelled, result_of, told, turned, offered_packet, settled};

use crate::dns::answer::{Verdict, verdict_in};
use crate::dns::error::{GetQueryResultError, StartQueryError};
use crate::dns::query::{Query, Sending, Turn, doubled, retry_after};
use crate::dns::records::Addresses;
use crate::dns::state::{DNS_PORT, MAX_SERVERS, State, server_at};
use arrayvec::ArrayVec;
use ip_wire::{IpAddress, IpProtocol, IpRepr, Ipv4Repr, Ipv6Repr, UDP_HEADER_LEN, UdpRepr};
use net_base::Instant;
use socket_context::{Context, IpPayload, Offer, Packet, PollAt};
use std::marker::Model;
use wire_dns::{DnsFlags, DnsName, DnsOpcode, DnsQueryType, DnsQuestion, DnsRepr};

/// The longest query: its header, the longest name, and what stands after it.
const MAX_QUERY_LEN: usize = 271;
/// The hop limit of queries for which none was set.
const DEFAULT_HOP_LIMIT: u8 = 64;
/// The lowest port that a query is sent from, and how many there are from it on.
const FIRST_PORT: u32 = 1024;

const PORT_COUNT: u32 = 64_512;

/// A client with room for one query.
#[derive(Debug, Drop)]
pub struct Socket {
    servers: [Option<IpAddress>; MAX_SERVERS],
    hop_limit: Option<u8>,
    host_requirements: bool,
    state: State,
    /// The last query as it is sent.
    message: ArrayVec<u8, MAX_QUERY_LEN>,
    offered: Option<Sending>,
}

impl Model for Socket {
    ghost use Rattle.socket_datagram.specs.DnsClient.Value.{DnsValue, open_of};

    ghost Value = { DnsValue };

    ghost view = { λ s. record {
      servers = s.servers;
      hop_limit = s.hop_limit;
      host_requirements = s.host_requirements;
      state = s.state;
      message = s.message.items;
      offered =
          open_of s.offered s.state s.message.items;
    } };
}

impl Socket {
    /// A client that asks these servers, the first three of them.
    pub fn new(servers: &[IpAddress]) -> Socket
        ensures { result ≡ made servers.now }
    {
        Socket {
            servers: first_servers(servers),
            hop_limit: None,
            host_requirements: false,
            state: State::Idle,
            message: ArrayVec::new(),
            offered: None,
        }
    }

    /// Takes other servers, the first three of them. A query that has no answer yet goes on at its slot in the list.
    pub fn update_servers(&mut self, servers: &[IpAddress])
        ensures { self.new ≡ with_servers self.old servers.now }
    {
        self.offered = None;
        self.servers = first_servers(servers);
    }

    /// The hop limit that was set. Without one it is 64.
    pub fn hop_limit(&self) -> Option<u8>
        ensures { result ≡ self.now.hop_limit }
    {
        self.hop_limit
    }

    /// Sets the hop limit of the queries that are offered from now on. A limit is not 0.
    pub fn set_hop_limit(&mut self, hop_limit: Option<u8>)
        requires { hop_limit ≢ Some 0 }
        ensures { self.new ≡ with_hop_limit self.old hop_limit }
    {
        self.offered = None;
        self.hop_limit = hop_limit;
    }

    /// Sets whether it is told apart that no server answered: `Unanswered`, and not `Failed` as where the name has no address. At first it
    /// isn't set.
    pub fn set_host_requirements(&mut self, host_requirements: bool)
        ensures { self.new ≡ with_host_requirements self.old host_requirements }
    {
        self.offered = None;
        self.host_requirements = host_requirements;
    }

    /// Asks for the addresses of a name, written with dots between its labels: `A` for those of IPv4, `Aaaa` for those of
    /// IPv6. The result of the query before, if it wasn't told, is forgotten.
    pub fn start_query<C: Context>(
        &mut self,
        cx: &mut C,
        name: &str,
        query_type: DnsQueryType,
    ) -> Result<(), StartQueryError>
        ensures starts { Starts (C.context cx.old) self.old name.now query_type result self.new }
        ensures drawn { cx.new ≡ (if is_ok result then C.drawn (C.drawn cx.old) else cx.old) }
    {
        self.offered = None;
        if self.state.is_pending() {
            return Err(StartQueryError::NoFreeSlot);
        }
        let name = DnsName::from_text(name)?;
        let now = cx.now();
        let transaction_id = (cx.rand_u32() % 65_536) as u16;
        let port = (FIRST_PORT + cx.rand_u32() % PORT_COUNT) as u16;
        self.begin(
            now,
            DnsQuestion {
                name,
                type_: query_type,
            },
            transaction_id,
            port,
        );
        Ok(())
    }

    /// Writes a query, and begins to ask it.
    fn begin(&mut self, now: Instant, question: DnsQuestion, transaction_id: u16, port: u16)
        requires instant { IsMoment now }
        requires short { length (bytes_of_name question.name) ≤ 255 }
        ensures { self.new ≡ started now self.old question transaction_id port }
    {
        self.offered = None;
        let repr = DnsRepr {
            transaction_id,
            opcode: DnsOpcode::Query,
            flags: DnsFlags {
                response: false,
                authoritative: false,
                truncated: false,
                recursion_desired: true,
                recursion_available: false,
            },
            question,
        };
        self.message = message_of(&repr);
        self.state = State::Pending(Query::begun(now, repr.question, transaction_id, port));
    }

    /// The addresses of the name that was asked for. They are told once.
    pub fn get_query_result(&mut self) -> Result<Addresses, GetQueryResultError>
        ensures answer { result ≡ result_of self.old.state }
        ensures state { self.new ≡ told self.old }
    {
        self.offered = None;
        let result = self.state.result();
        if !self.state.is_pending() {
            self.state = State::Idle;
        }
        result
    }

    /// Asks no longer, and forgets a result.
    pub fn cancel_query(&mut self)
        ensures { self.new ≡ cancelled self.old }
    {
        self.offered = None;
        self.state = State::Idle;
    }

    /// Whether this datagram is for the client: from the port of servers and the address of the one that the query was sent
    /// to, to the port that it was sent from.
    pub fn accepts<C: Context>(&self, _cx: &C, ip_repr: &IpRepr, repr: &UdpRepr) -> bool
        ensures { result ≡ accepts self.now.state ip_repr.now repr.now }
    {
        self.state.accepts(ip_repr, repr)
    }

    /// A datagram arrives. One that isn't the answer to the query changes nothing.
    pub fn process<C: Context>(&mut self, cx: &C, ip_repr: &IpRepr, repr: &UdpRepr, payload: &[u8])
        ensures { Processed (C.context cx.now).instant self.old ip_repr.now repr.now payload.now self.new }
    {
        self.offered = None;
        if !self.state.accepts(ip_repr, repr) {
            return;
        }
        let verdict = verdict_in(&self.state, payload);
        self.judge(cx.now(), verdict);
    }

    /// Does what a datagram says.
    fn judge(&mut self, now: Instant, verdict: Verdict)
        requires { IsMoment now }
        ensures { self.new ≡ judged now self.old verdict }
    {
        self.offered = None;
        match verdict {
            Verdict::Unrelated => {}
            Verdict::Found(addresses) => self.state = State::Completed(addresses),
            Verdict::Missing => self.state = State::Failed,
            Verdict::Refused => self.turn(now),
        }
    }

    /// Turns to the next server; after the last one nobody answered the query.
    fn turn(&mut self, now: Instant)
        requires instant { IsMoment now }
        requires unoffered { self.old.offered ≡ None }
        ensures { self.new ≡ turned now self.old }
    {
        if self.state.has_next(&self.servers) {
            self.state.ask_next(now);
        } else if self.host_requirements {
            self.state = State::Unanswered;
        } else {
            self.state = State::Failed;
        }
    }

    /// When the client wants to be polled.
    pub fn poll_at<C: Context>(&self, _cx: &C) -> PollAt
        ensures { result ≡ poll_of self.now.state }
    {
        self.state.poll_at()
    }

    /// Offers the query where it is due, or turns to the next server.
    pub fn offer<C: Context>(&mut self, cx: &C) -> Offer
        ensures offers { Offers (C.context cx.now) self.old result self.new }
        ensures sendable { IfSome (offered_packet self.new) IsSendable }
    {
        self.offered = None;
        match self.turn_at(cx) {
            Turn::Wait => Offer::Silent { changed: false },
            Turn::Next => {
                self.turn(cx.now());
                Offer::Silent { changed: true }
            }
            Turn::Send(sending) => {
                self.offered = Some(sending);
                Offer::Packet { changed: false }
            }
        }
    }

    /// What there is to do at an instant.
    fn turn_at<C: Context>(&self, cx: &C) -> Turn
        ensures turn { result ≡ turn_in self.now.state (C.context cx.now) self.now }
        ensures short { length self.now.message ≤ 271 }
    {
        let len = self.message.as_slice().len();
        match &self.state {
            State::Pending(query) => self.turn_of(cx, query, len),
            State::Idle => Turn::Wait,
            State::Completed(_) => Turn::Wait,
            State::Failed => Turn::Wait,
            State::Unanswered => Turn::Wait,
        }
    }

    /// What a query of so many bytes does at an instant.
    fn turn_of<C: Context>(&self, cx: &C, query: &Query, len: usize) -> Turn
        requires len { len ≡ length self.now.message }
        requires short { len ≤ 271 }
        ensures { result ≡ turn_of (C.context cx.now) self.now query.now }
    {
        let now = cx.now();
        if now < query.due_at() {
            return Turn::Wait;
        }
        if query.next_at <= now {
            return Turn::Next;
        }
        let Some(server) = server_at(&self.servers, query.server) else {
            return Turn::Next;
        };
        let hop_limit = self.hop_limit.unwrap_or(DEFAULT_HOP_LIMIT);
        let Some(header) = header_for(cx, &server, len, hop_limit) else {
            return Turn::Next;
        };
        Turn::Send(Sending {
            header,
            server,
            retry_at: retry_after(now, query.wait),
            wait: doubled(query.wait),
        })
    }

    /// The packet of the open offer.
    pub fn offered(&self) -> Option<Packet<'_>>
        ensures { option_value result ≡ offered_packet self.now }
    {
        let sending = self.offered?;
        match &self.state {
            State::Pending(query) => {
                let repr = UdpRepr {
                    src_port: query.port,
                    dst_port: DNS_PORT,
                };
                let payload = IpPayload::Udp(repr, self.message.as_slice());
                Some(Packet::new(sending.header, payload))
            }
            State::Idle => None,
            State::Completed(_) => None,
            State::Failed => None,
            State::Unanswered => None,
        }
    }

    /// Says what became of the offered packet: after one that was sent the client waits for its answer.
    pub fn settle(&mut self, sent: bool)
        ensures { self.new ≡ settled sent self.old }
    {
        if let Some(sending) = self.offered {
            if sent {
                self.state.record_sent(&sending);
            }
        }
        self.offered = None;
    }
}

/// The first three of some servers.
fn first_servers(servers: &[IpAddress]) -> [Option<IpAddress>; MAX_SERVERS]
    ensures { result ≡ padded 3 servers.now }
{
    [
        servers.get(0).copied(),
        servers.get(1).copied(),
        servers.get(2).copied(),
    ]
}

/// The bytes of a query.
fn message_of(repr: &DnsRepr) -> ArrayVec<u8, MAX_QUERY_LEN>
    requires query { opcode_number repr.now.opcode < 16 }
    requires short { length (bytes_of_name repr.now.question.name) ≤ 255 }
    ensures { result.items ≡ written repr.now }
{
    let mut message = ArrayVec::from([0; MAX_QUERY_LEN]);
    message.truncate(repr.buffer_len());
    repr.emit(message.as_mut_slice());
    message
}

/// The header of a packet that takes a query of so many bytes to a server.
fn header_for<C: Context>(cx: &C, server: &IpAddress, len: usize, hop_limit: u8) -> Option<IpRepr>
    requires { len ≤ 271 }
    ensures { result ≡ header_between ((C.context cx.now).source_for server.now) server.now len hop_limit }
{
    let payload_len = UDP_HEADER_LEN + len;
    match (cx.get_source_address(server)?, *server) {
        (IpAddress::Ipv4(src_addr), IpAddress::Ipv4(dst_addr)) => Some(IpRepr::Ipv4(Ipv4Repr {
            src_addr,
            dst_addr,
            next_header: IpProtocol::Udp,
            payload_len,
            hop_limit,
            ident: 0,
            dont_frag: false,
        })),
        (IpAddress::Ipv6(src_addr), IpAddress::Ipv6(dst_addr)) => Some(IpRepr::Ipv6(Ipv6Repr {
            src_addr,
            dst_addr,
            next_header: IpProtocol::Udp,
            payload_len,
            hop_limit,
        })),
        _ => None,
    }
}

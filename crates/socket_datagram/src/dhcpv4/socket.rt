//! The socket.
ghost use Rattle.std.specs.Prelude.{◌≡◌, ◌≤◌, ◌-◌, IfSome, None, is_ok, length};
ghost use Rattle.net_base.specs.Time.{IsMoment};
ghost use Rattle.socket_context.specs.Packet.{IsSendable, option_value};
ghost use Rattle.wire_dhcp.specs.Written.{Fits, buffer_len, written};
ghost use Rattle.socket_datagram.specs.DhcpClient.Extras.{asked_len, room, verdict, list_verdict};
ghost use Rattle.socket_datagram.specs.DhcpClient.Answers.{is_answer, chosen, told, acknowledged, refused, offer_taken, Processed};
ghost use Rattle.socket_datagram.specs.DhcpClient.Events.{event_of, initial, untold};
ghost use Rattle.socket_datagram.specs.DhcpClient.Offers.{Offers, Sends, next_of, id_of, discover_wait, restart_of, waits};
ghost use Rattle.socket_datagram.specs.DhcpClient.States.{poll_of};
ghost use Rattle.socket_datagram.specs.DhcpClient.Value.{made, default_retry, settled, begun, least_wait, with_settings, with_parameters, with_options, accepts, offered_packet};

use crate::dhcpv4::config::{Event, RetryConfig, ServerInfo, Settings};
use crate::dhcpv4::error::OptionsError;
use crate::dhcpv4::extras::Extras;
use crate::dhcpv4::instants::{at_least, doubled, first_wait, later, renew_wait, spread};
use crate::dhcpv4::lease::{cidr_of, is_leasable, lease_in, server_in};
use crate::dhcpv4::request::{Kind, MESSAGE_LEN};
use crate::dhcpv4::state::{ClientState, Requesting, Selecting, Turn};
use arrayvec::ArrayVec;
use ip_wire::{EthernetAddress, IpRepr, Ipv4Address, Ipv4Cidr, UdpRepr};
use net_base::{Duration, Instant, Rand};
use socket_context::{Context, IpPayload, Offer, Packet, PollAt};
use std::marker::Model;
use wire_dhcp::{DhcpMessageType, DhcpOption, DhcpPacket, DhcpRepr};

/// What the client waits with, unless it is told.
fn default_retry() -> RetryConfig
    ensures { result ≡ default_retry }
{
    RetryConfig {
        discover_timeout: Duration::from_secs(4),
        initial_request_timeout: Duration::from_secs(4),
        request_retries: 5,
        min_renew_timeout: Duration::from_secs(60),
        max_renew_timeout: Duration::MAX,
    }
}

/// The bytes of a message.
fn message_of(repr: &DhcpRepr<'_>) -> ArrayVec<u8, MESSAGE_LEN>
    requires fits { Fits repr.now }
    requires len { buffer_len repr.now ≤ 548 }
    ensures { result.items ≡ written repr.now }
{
    let mut message = ArrayVec::from([0; MESSAGE_LEN]);
    message.truncate(repr.buffer_len());
    repr.emit(message.as_mut_slice());
    message
}

/// The header of a packet that is offered, and what sending it makes of the socket.
#[derive(Clone, Copy, Debug)]
struct Pending {
    header: IpRepr,
    transaction_id: u32,
    next: ClientState,
    restart_at: Option<Instant>,
}

/// A client: the hardware address that it speaks for, its settings and its state.
#[derive(Debug, Drop)]
pub struct Socket {
    link_addr: EthernetAddress,
    settings: Settings,
    extras: Extras,
    state: ClientState,
    /// From when on the client may begin again; without an instant at once.
    restart_at: Option<Instant>,
    /// The number that answers have to name.
    transaction_id: u32,
    /// Whether there is something to tell.
    changed: bool,
    random: Rand,
    /// The number of the next transaction.
    next_id: u32,
    /// What makes the next wait shorter or longer.
    next_word: u32,
    /// The message of the offered packet.
    message: ArrayVec<u8, MESSAGE_LEN>,
    offered: Option<Pending>,
}

impl Model for Socket {
    ghost use Rattle.socket_datagram.specs.DhcpClient.Value.{DhcpValue, open_of};

    ghost Value = { DhcpValue };

    ghost view = { λ s. record {
      link_addr = s.link_addr;
      settings = s.settings;
      parameters = s.extras.parameters;
      options = s.extras.options;
      state = s.state;
      restart_at = s.restart_at;
      transaction_id = s.transaction_id;
      changed = s.changed;
      random =
          s.random;
      next_id = s.next_id;
      next_word = s.next_word;
      offered = open_of s.settings s.offered s.message.items;
    } };
}

impl Socket {
    /// A client of an Ethernet hardware address. Its numbers and waits come from the seed.
    pub fn new(hardware_addr: EthernetAddress, random_seed: u64) -> Socket
        ensures { result ≡ made hardware_addr random_seed }
    {
        let mut random = Rand::new(random_seed);
        let next_id = random.rand_u32();
        let next_word = random.rand_u32();
        Socket {
            link_addr: hardware_addr,
            settings: Settings {
                retry: default_retry(),
                max_lease_duration: None,
                ignore_naks: false,
                host_requirements: false,
                server_port: 67,
                client_port: 68,
            },
            extras: Extras::new(),
            state: ClientState::Init(None),
            restart_at: None,
            transaction_id: 0,
            changed: true,
            random,
            next_id,
            next_word,
            message: ArrayVec::new(),
            offered: None,
        }
    }

    /// Sets how often and when the client asks again.
    pub fn set_retry_config(&mut self, config: RetryConfig)
        ensures { self.new ≡ with_settings self.old (record self.old.settings { retry = config }) }
    {
        self.offered = None;
        self.settings.retry = config;
    }

    /// How long a lease counts at most, if that was set.
    pub fn max_lease_duration(&self) -> Option<Duration>
        ensures { result ≡ self.now.settings.max_lease_duration }
    {
        self.settings.max_lease_duration
    }

    /// Sets how long a lease counts at most that is given from now on.
    pub fn set_max_lease_duration(&mut self, max_lease_duration: Option<Duration>)
        ensures { self.new ≡ with_settings self.old (record self.old.settings { max_lease_duration = max_lease_duration }) }
    {
        self.offered = None;
        self.settings.max_lease_duration = max_lease_duration;
    }

    /// Sets whether refusals are ignored, as some networks want it that have a second server by mistake.
    pub fn set_ignore_naks(&mut self, ignore_naks: bool)
        ensures { self.new ≡ with_settings self.old (record self.old.settings { ignore_naks = ignore_naks }) }
    {
        self.offered = None;
        self.settings.ignore_naks = ignore_naks;
    }

    /// Sets whether the client waits at least a second between two messages, whatever servers answer, as hosts on a network of many must
    /// (RFC 2131, section 4.1): after a refusal or the end of a lease it begins again as late as it would ask for an offer again, and it asks
    /// for more of a lease a second after it was given, or later. The first request for an offer follows at once. At first it isn't set.
    pub fn set_host_requirements(&mut self, host_requirements: bool)
        ensures { self.new ≡ with_settings self.old (record self.old.settings { host_requirements = host_requirements }) }
    {
        self.offered = None;
        self.settings.host_requirements = host_requirements;
    }

    /// Sets the ports of servers and of the client, which are else 67 and 68.
    pub fn set_ports(&mut self, server_port: u16, client_port: u16)
        ensures { self.new ≡ with_settings self.old (record self.old.settings { server_port = server_port; client_port = client_port }) }
    {
        self.offered = None;
        self.settings.server_port = server_port;
        self.settings.client_port = client_port;
    }

    /// Sets the codes that the client asks for (RFC 2132, section 9.8), at first 1, 3 and 6: the subnet mask, routers and servers of
    /// names. With no code it asks for none. A list is refused, and nothing changes, where it has more than 255 codes, or where
    /// it doesn't fit a message of 548 bytes alongside the options that were set.
    pub fn set_parameter_request_list(&mut self, codes: &[u8]) -> Result<(), OptionsError>
        ensures verdict { result ≡ list_verdict codes.now (length self.old.options) }
        ensures value { self.new ≡ with_parameters self.old codes.now (is_ok result) }
    {
        self.extras.set_parameters(codes)?;
        self.offered = None;
        Ok(())
    }

    /// Sets options that each message carries after its own, as the name of the client (12), in place of those set before. They are
    /// refused, and nothing changes, for the first one whose code is reserved, which has more than 255 bytes, or which doesn't
    /// fit a message of 548 bytes alongside the list of codes and those before it.
    pub fn set_outgoing_options(&mut self, options: &[DhcpOption<'_>]) -> Result<(), OptionsError>
        ensures verdict { result ≡ verdict (room - asked_len self.old.parameters) options.now }
        ensures value { self.new ≡ with_options self.old options.now (is_ok result) }
    {
        self.extras.set_options(options)?;
        self.offered = None;
        Ok(())
    }

    /// The state of the client.
    pub fn state(&self) -> ClientState
        ensures { result ≡ self.now.state }
    {
        self.state
    }

    /// Begins again, as soon as the last message lets it. A lease is given up.
    pub fn reset(&mut self)
        ensures { self.new ≡ begun self.old }
    {
        self.offered = None;
        if self.state.lease().is_some() {
            self.changed = true;
        }
        self.state = ClientState::Init(self.restart_at);
    }

    /// What happened since the last call, at this instant: a lease that is over by then is given up first.
    pub fn poll(&mut self, now: Instant) -> Option<Event>
        ensures event { result ≡ event_of (initial now self.old) }
        ensures state { self.new ≡ untold (initial now self.old) }
    {
        self.refresh(now);
        if !self.changed {
            return None;
        }
        self.changed = false;
        match self.state.lease() {
            None => Some(Event::Deconfigured),
            Some(lease) => Some(Event::Configured(lease.config)),
        }
    }

    /// Settles an open offer as not sent, and gives up a lease that is over.
    fn refresh(&mut self, now: Instant)
        ensures { self.new ≡ initial now self.old }
    {
        self.offered = None;
        if let Some(lease) = self.state.lease() {
            if lease.expires_at <= now {
                self.reset();
            }
        }
    }

    /// Whether this datagram is for the client: from a server's port to its own, over IPv4.
    pub fn accepts<C: Context>(&self, _cx: &C, ip_repr: &IpRepr, repr: &UdpRepr) -> bool
        ensures { result ≡ accepts self.now ip_repr.now repr.now }
    {
        self.is_for(ip_repr, repr)
    }

    fn is_for(&self, ip_repr: &IpRepr, repr: &UdpRepr) -> bool
        ensures { result ≡ accepts self.now ip_repr.now repr.now }
    {
        match ip_repr {
            IpRepr::Ipv4(_) => {
                repr.src_port == self.settings.server_port
                    && repr.dst_port == self.settings.client_port
            }
            IpRepr::Ipv6(_) => false,
        }
    }

    /// A datagram arrives. One that isn't for the client, or whose bytes aren't a message, changes nothing.
    pub fn process<C: Context>(&mut self, cx: &C, ip_repr: &IpRepr, repr: &UdpRepr, payload: &[u8])
        ensures { Processed (C.context cx.now).instant self.old ip_repr.now repr.now payload.now self.new }
    {
        self.offered = None;
        if !self.is_for(ip_repr, repr) {
            return;
        }
        let IpRepr::Ipv4(header) = ip_repr else {
            return;
        };
        let Ok(message) = DhcpRepr::parse(&DhcpPacket::new_unchecked(payload)) else {
            return;
        };
        let cidr = cidr_of(&message);
        self.tell(cx.now(), header.src_addr, &message, cidr);
    }

    /// A message from a server arrives, with the network that it tells of.
    fn tell(
        &mut self,
        now: Instant,
        source: Ipv4Address,
        message: &DhcpRepr<'_>,
        cidr: Option<Ipv4Cidr>,
    )
        requires instant { IsMoment now }
        requires unoffered { self.old.offered ≡ None }
        ensures { self.new ≡ told now source self.old message.now cidr }
    {
        if !self.is_answer(message) {
            return;
        }
        let Some(server) = server_in(source, message) else {
            return;
        };
        match message.message_type {
            DhcpMessageType::Offer => self.take_offer(now, server, message, cidr),
            DhcpMessageType::Ack => self.take_ack(now, server, message, cidr),
            DhcpMessageType::Nak => self.take_nak(server),
            DhcpMessageType::Discover => {}
            DhcpMessageType::Request => {}
            DhcpMessageType::Decline => {}
            DhcpMessageType::Release => {}
            DhcpMessageType::Inform => {}
        }
    }

    /// Whether a message answers the last one that was sent, and is for this hardware address.
    fn is_answer(&self, message: &DhcpRepr<'_>) -> bool
        ensures { result ≡ is_answer self.now message.now }
    {
        message.transaction_id == self.transaction_id
            && message.client_hardware_address.as_bytes() == self.link_addr.as_bytes()
    }

    /// A server offers an address.
    fn take_offer(
        &mut self,
        now: Instant,
        server: ServerInfo,
        message: &DhcpRepr<'_>,
        cidr: Option<Ipv4Cidr>,
    )
        ensures { self.new ≡ offer_taken now server self.old message.now cidr }
    {
        match self.state {
            ClientState::Selecting(_) => self.choose(now, server, message, cidr),
            ClientState::Init(_) => {}
            ClientState::Requesting(_) => {}
            ClientState::Bound(_) => {}
            ClientState::Renewing(_, _) => {}
            ClientState::Rebinding(_, _) => {}
        }
    }

    /// A client that waits for an offer takes one of an address that a host can have.
    fn choose(
        &mut self,
        now: Instant,
        server: ServerInfo,
        message: &DhcpRepr<'_>,
        cidr: Option<Ipv4Cidr>,
    )
        ensures { self.new ≡ chosen now server self.old message.now cidr }
    {
        if !is_leasable(&message.your_ip, &cidr) {
            return;
        }
        self.state = ClientState::Requesting(Requesting {
            retry_at: now,
            wait: first_wait(self.settings.retry.initial_request_timeout),
            retry: 0,
            server,
            requested_ip: message.your_ip,
        });
    }

    /// A server gives a lease.
    fn take_ack(
        &mut self,
        now: Instant,
        server: ServerInfo,
        message: &DhcpRepr<'_>,
        cidr: Option<Ipv4Cidr>,
    )
        requires { IsMoment now }
        ensures { self.new ≡ acknowledged now server self.old message.now cidr }
    {
        if !self.state.is_asked(&server) {
            return;
        }
        let most = self.settings.max_lease_duration;
        let least = self.least_wait();
        let Some(lease) = lease_in(now, server, message, cidr, most, least) else {
            return;
        };
        self.state = ClientState::Bound(lease);
        self.changed = true;
    }

    /// A server refuses.
    fn take_nak(&mut self, server: ServerInfo)
        requires { self.old.offered ≡ None }
        ensures { self.new ≡ refused server self.old }
    {
        if self.state.is_asked(&server) && !self.settings.ignore_naks {
            self.reset();
        }
    }

    /// When the client wants to be polled.
    pub fn poll_at<C: Context>(&self, _cx: &C) -> PollAt
        ensures { result ≡ poll_of self.now.state }
    {
        self.state.poll_at()
    }

    /// Offers the message that is due, or gives up what is over.
    pub fn offer<C: Context>(&mut self, cx: &C) -> Offer
        ensures offers { Offers (C.context cx.now) self.old result self.new }
        ensures sendable { IfSome (offered_packet self.new) IsSendable }
    {
        self.offered = None;
        let now = cx.now();
        match self.state.turn(now, self.settings.retry.request_retries) {
            Turn::Wait => Offer::Silent { changed: false },
            Turn::GiveUp => {
                self.reset();
                Offer::Silent { changed: true }
            }
            Turn::Send(kind) => {
                self.prepare(now, cx.ip_mtu(), &kind);
                Offer::Packet { changed: false }
            }
        }
    }

    /// Writes a message, and offers it.
    fn prepare(&mut self, now: Instant, mtu: usize, kind: &Kind)
        requires { IsMoment now }
        ensures sends { Sends now mtu self.old kind.now self.new }
        ensures sendable { IfSome (offered_packet self.new) IsSendable }
    {
        let transaction_id = self.id_of(kind);
        let next = self.next_of(now, kind);
        let restart_at = self.restart_of(now);
        let message = kind.message(self.link_addr, transaction_id, mtu, &self.extras);
        self.message = message_of(&message);
        self.offered = Some(Pending {
            header: kind.header(self.message.as_slice().len()),
            transaction_id,
            next,
            restart_at,
        });
    }

    /// The number of the transaction of a message: a request has that of the offer.
    fn id_of(&self, kind: &Kind) -> u32
        ensures { result ≡ id_of self.now kind.now }
    {
        match kind {
            Kind::Request(_) => self.transaction_id,
            Kind::Discover => self.next_id,
            Kind::Renew(_) => self.next_id,
            Kind::Rebind(_) => self.next_id,
        }
    }

    /// The state after a message.
    fn next_of(&self, now: Instant, kind: &Kind) -> ClientState
        requires instant { IsMoment now }
        ensures { result ≡ next_of now self.now kind.now }
    {
        let word = self.next_word;
        let (least, most) = (
            self.settings.retry.min_renew_timeout,
            self.settings.retry.max_renew_timeout,
        );
        match kind {
            Kind::Discover => {
                let wait = self.discover_wait();
                ClientState::Selecting(Selecting {
                    retry_at: later(now, self.waits(spread(wait, word))),
                    wait: doubled(wait),
                })
            }
            Kind::Request(state) => ClientState::Requesting(Requesting {
                retry_at: later(now, self.waits(spread(state.wait, word))),
                wait: doubled(state.wait),
                retry: state.retry.saturating_add(1),
                ..*state
            }),
            Kind::Renew(lease) => {
                let wait = renew_wait(lease.rebind_at - now, least, most);
                ClientState::Renewing(*lease, later(now, self.waits(wait)))
            }
            Kind::Rebind(lease) => {
                let wait = renew_wait(lease.expires_at - now, least, most);
                ClientState::Rebinding(*lease, later(now, self.waits(wait)))
            }
        }
    }

    /// From when on a client may begin again that sends a message now.
    fn restart_of(&self, now: Instant) -> Option<Instant>
        requires instant { IsMoment now }
        ensures { result ≡ restart_of now self.now }
    {
        if !self.settings.host_requirements {
            return None;
        }
        let first = first_wait(self.settings.retry.discover_timeout);
        Some(later(now, self.waits(spread(first, self.next_word))))
    }

    /// A wait, and the least one.
    fn waits(&self, wait: Duration) -> Duration
        ensures { result ≡ waits self.now wait }
    {
        at_least(wait, self.least_wait())
    }

    /// How long the client waits at least between two messages.
    fn least_wait(&self) -> Duration
        ensures { result ≡ least_wait self.now.settings }
    {
        if self.settings.host_requirements {
            Duration::from_secs(1)
        } else {
            Duration::ZERO
        }
    }

    /// How long the client waits for an offer that it asks for now.
    fn discover_wait(&self) -> Duration
        ensures { result ≡ discover_wait self.now }
    {
        let first = first_wait(self.settings.retry.discover_timeout);
        match self.state {
            ClientState::Selecting(state) => state.wait,
            ClientState::Init(_) => first,
            ClientState::Requesting(_) => first,
            ClientState::Bound(_) => first,
            ClientState::Renewing(_, _) => first,
            ClientState::Rebinding(_, _) => first,
        }
    }

    /// The packet of the open offer.
    pub fn offered(&self) -> Option<Packet<'_>>
        ensures { option_value result ≡ offered_packet self.now }
    {
        let pending = self.offered?;
        let repr = UdpRepr {
            src_port: self.settings.client_port,
            dst_port: self.settings.server_port,
        };
        Some(Packet::new(
            pending.header,
            IpPayload::Udp(repr, self.message.as_slice()),
        ))
    }

    /// Says what became of the offered packet: after one that was sent the client waits for its answer.
    pub fn settle(&mut self, sent: bool)
        ensures { self.new ≡ settled sent self.old }
    {
        if let Some(pending) = self.offered {
            if sent {
                self.state = pending.next;
                self.restart_at = pending.restart_at;
                self.transaction_id = pending.transaction_id;
                self.next_id = self.random.rand_u32();
                self.next_word = self.random.rand_u32();
            }
        }
        self.offered = None;
    }
}

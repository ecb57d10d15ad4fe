//! Leases, and what acknowledgements say of them.
ghost use Rattle.std.specs.Prelude.{◌≡◌, ◌<◌, ◌^◌, Option, None, Some};
ghost use Rattle.net_base.specs.Time.{IsMoment};
ghost use Rattle.socket_datagram.specs.DhcpClient.Leases.{IsCidrOf, server_in, lease_span, micros_of, spans_of, default_spans, lease_in, is_usable, is_reserved_v4, is_of_all_in, is_leasable};

use crate::dhcpv4::config::{Config, ServerInfo};
use crate::dhcpv4::instants::{at_least, later};
use ip_wire::{AddressExt, Ipv4Address, Ipv4Cidr};
use net_base::{Duration, Instant};
use wire_dhcp::DhcpRepr;

/// How long a lease lasts whose acknowledgement doesn't say it, in seconds.
const DEFAULT_LEASE: u32 = 120;

/// What a server gave, and until when.
#[derive(Clone, Copy, Debug, PartialEq, Eq)]
pub struct Lease {
    pub config: Config,
    /// From when on the client asks its server for more.
    pub refresh_at: Instant,
    /// From when on it asks any server.
    pub rebind_at: Instant,
    /// From when on it has no address.
    pub expires_at: Instant,
}

/// After how much of a lease the client asks for more.
#[derive(Clone, Copy, Debug, PartialEq, Eq)]
pub struct Spans {
    pub renew: Duration,
    pub rebind: Duration,
}

/// The server that a message names: its identifier is the address of one host.
pub(crate) fn server_in(source: Ipv4Address, message: &DhcpRepr<'_>) -> Option<ServerInfo>
    ensures { result ≡ server_in source message.now }
{
    match message.server_identifier {
        Some(identifier) => {
            if is_usable(&identifier) {
                Some(ServerInfo {
                    address: source,
                    identifier,
                })
            } else {
                None
            }
        }
        None => None,
    }
}

/// Whether this is the address of one host.
pub(crate) fn is_usable(address: &Ipv4Address) -> bool
    ensures { result ≡ is_usable address.now }
{
    address.x_is_unicast()
}

/// Whether this is an address of the network 0, or of the loopback network.
fn is_reserved(address: &Ipv4Address) -> bool
    ensures { result ≡ is_reserved_v4 address.now }
{
    address.octets()[0] == 0 || address.is_loopback()
}

/// Whether this is the address of all hosts of a network, if there is one.
fn is_of_all_in(cidr: &Option<Ipv4Cidr>, address: &Ipv4Address) -> bool
    ensures { result ≡ is_of_all_in cidr.now address.now }
{
    match cidr {
        Some(cidr) => match cidr.broadcast() {
            Some(all) => all.octets() == address.octets(),
            None => false,
        },
        None => false,
    }
}

/// Whether a host can have this address, in this network, if there is one.
pub(crate) fn is_leasable(address: &Ipv4Address, cidr: &Option<Ipv4Cidr>) -> bool
    ensures { result ≡ is_leasable address.now cidr.now }
{
    is_usable(address) && !(is_reserved(address) || is_of_all_in(cidr, address))
}

/// The network that a message tells of, with the address that it gives.
pub(crate) fn cidr_of(message: &DhcpRepr<'_>) -> Option<Ipv4Cidr>
    ensures { IsCidrOf message.now result }
{
    match message.subnet_mask {
        Some(mask) => match Ipv4Cidr::from_netmask(message.your_ip, mask) {
            Ok(cidr) => Some(cidr),
            Err(_) => None,
        },
        None => None,
    }
}

/// How long the lease lasts that a message tells of: at most as long as was set.
fn lease_span(message: &DhcpRepr<'_>, most: Option<Duration>) -> Duration
    ensures value { result ≡ lease_span message.now.lease_duration most }
    ensures small { result < 2 ^ 52 }
{
    let secs = message.lease_duration.unwrap_or(DEFAULT_LEASE);
    let told = secs as u64 * 1_000_000;
    match most {
        Some(most) => Duration::from_micros(told.min(most.total_micros())),
        None => Duration::from_micros(told),
    }
}

/// The microseconds of so many seconds.
fn micros_of(secs: Option<u32>) -> Option<u64>
    ensures { result ≡ micros_of secs }
{
    match secs {
        Some(secs) => Some(secs as u64 * 1_000_000),
        None => None,
    }
}

/// After how much of a lease the client asks for more, of what it was told in microseconds.
fn spans_of(lease: u64, renew: Option<u64>, rebind: Option<u64>) -> Spans
    requires { lease < 2 ^ 52 }
    ensures { result ≡ spans_of lease renew rebind }
{
    match renew {
        Some(renew) => match rebind {
            Some(rebind) => {
                if renew < rebind && rebind < lease {
                    made_spans(renew, rebind)
                } else {
                    default_spans(lease)
                }
            }
            None => {
                if renew < lease {
                    made_spans(renew, renew + (lease - renew) * 3 / 4)
                } else {
                    default_spans(lease)
                }
            }
        },
        None => match rebind {
            Some(rebind) => {
                if rebind < lease {
                    made_spans((lease / 2).min(rebind), rebind)
                } else {
                    default_spans(lease)
                }
            }
            None => default_spans(lease),
        },
    }
}

fn made_spans(renew: u64, rebind: u64) -> Spans
    ensures renew { result.renew ≡ renew }
    ensures rebind { result.rebind ≡ rebind }
{
    Spans {
        renew: Duration::from_micros(renew),
        rebind: Duration::from_micros(rebind),
    }
}

/// Half of the lease, and seven eighths of it.
fn default_spans(lease: u64) -> Spans
    requires { lease < 2 ^ 52 }
    ensures { result ≡ default_spans lease }
{
    made_spans(lease / 2, lease * 7 / 8)
}

/// The lease that an acknowledgement gives: it tells of a network, and gives an address of it that a host can have. The client asks for
/// more after so long at least.
pub(crate) fn lease_in(
    now: Instant,
    server: ServerInfo,
    message: &DhcpRepr<'_>,
    cidr: Option<Ipv4Cidr>,
    most: Option<Duration>,
    least: Duration,
) -> Option<Lease>
    requires { IsMoment now }
    ensures { result ≡ lease_in now server message.now cidr most least }
{
    let address = cidr?;
    if !is_leasable(&message.your_ip, &cidr) {
        return None;
    }
    let span = lease_span(message, most);
    let renew = micros_of(message.renew_duration);
    let rebind = micros_of(message.rebind_duration);
    let spans = spans_of(span.total_micros(), renew, rebind);
    Some(Lease {
        config: Config {
            server,
            address,
            router: message.router,
            dns_servers: message.dns_servers,
        },
        refresh_at: later(now, at_least(spans.renew, least)),
        rebind_at: later(now, at_least(spans.rebind, least)),
        expires_at: later(now, span),
    })
}

//! The two endpoints of a connection, and which endpoint a socket listens on.
ghost use Rattle.std.specs.Prelude.{◌≡◌};
ghost use Rattle.tcp_state.specs.Endpoints.{pair_of, local_of, remote_of, addresses_in, pair_in, header_for, ip_header_len, takes_address, is_same_choice};
ghost use Rattle.tcp_state.specs.Endpoints.{is_same_listener, is_between, is_bare};

use ip_wire::{
    IpAddress, IpListenEndpoint, IpProtocol, IpRepr, Ipv4Address, Ipv4Repr, Ipv6Address, Ipv6Repr,
    SeqNumber, TcpControl, TcpHeader,
};
use socket_context::addresses::is_same_address;

/// The two addresses of a connection, of one family.
#[derive(Clone, Copy, Debug, PartialEq, Eq)]
pub enum AddressPair {
    Ipv4 {
        local: Ipv4Address,
        remote: Ipv4Address,
    },
    Ipv6 {
        local: Ipv6Address,
        remote: Ipv6Address,
    },
}

/// The two endpoints of a connection.
#[derive(Clone, Copy, Debug, PartialEq, Eq)]
pub struct FourTuple {
    pub addresses: AddressPair,
    pub local_port: u16,
    pub remote_port: u16,
}

impl AddressPair {
    /// The two addresses, if they are of one family.
    pub const fn new(local: IpAddress, remote: IpAddress) -> Option<AddressPair>
        ensures { result ≡ pair_of local remote }
    {
        match (local, remote) {
            (IpAddress::Ipv4(local), IpAddress::Ipv4(remote)) => {
                Some(AddressPair::Ipv4 { local, remote })
            }
            (IpAddress::Ipv6(local), IpAddress::Ipv6(remote)) => {
                Some(AddressPair::Ipv6 { local, remote })
            }
            _ => None,
        }
    }

    /// The addresses of the connection that a packet belongs to, at the host that it came to.
    pub const fn of_packet(ip_repr: &IpRepr) -> AddressPair
        ensures { result ≡ addresses_in ip_repr.now }
    {
        match ip_repr {
            IpRepr::Ipv4(header) => AddressPair::Ipv4 {
                local: header.dst_addr,
                remote: header.src_addr,
            },
            IpRepr::Ipv6(header) => AddressPair::Ipv6 {
                local: header.dst_addr,
                remote: header.src_addr,
            },
        }
    }

    /// The own address.
    pub const fn local(&self) -> IpAddress
        ensures { result ≡ local_of self.now }
    {
        match *self {
            AddressPair::Ipv4 { local, .. } => IpAddress::Ipv4(local),
            AddressPair::Ipv6 { local, .. } => IpAddress::Ipv6(local),
        }
    }

    /// The remote's address.
    pub const fn remote(&self) -> IpAddress
        ensures { result ≡ remote_of self.now }
    {
        match *self {
            AddressPair::Ipv4 { remote, .. } => IpAddress::Ipv4(remote),
            AddressPair::Ipv6 { remote, .. } => IpAddress::Ipv6(remote),
        }
    }

    /// The header of a packet of the connection, for a payload of this length.
    pub const fn header_for(&self, hop_limit: u8, payload_len: usize) -> IpRepr
        ensures { result ≡ header_for self.now hop_limit payload_len }
    {
        match *self {
            AddressPair::Ipv4 { local, remote } => IpRepr::Ipv4(Ipv4Repr {
                src_addr: local,
                dst_addr: remote,
                next_header: IpProtocol::Tcp,
                payload_len,
                hop_limit,
                ident: 0,
                dont_frag: false,
            }),
            AddressPair::Ipv6 { local, remote } => IpRepr::Ipv6(Ipv6Repr {
                src_addr: local,
                dst_addr: remote,
                next_header: IpProtocol::Tcp,
                payload_len,
                hop_limit,
            }),
        }
    }

    /// The length of the IP header.
    pub const fn ip_header_len(&self) -> usize
        ensures { result ≡ ip_header_len self.now }
    {
        match self {
            AddressPair::Ipv4 { .. } => 20,
            AddressPair::Ipv6 { .. } => 40,
        }
    }
}

impl FourTuple {
    /// The endpoints of the connection that a segment belongs to.
    pub const fn of_segment(ip_repr: &IpRepr, header: &TcpHeader) -> FourTuple
        ensures { result ≡ pair_in ip_repr.now header.now }
    {
        FourTuple {
            addresses: AddressPair::of_packet(ip_repr),
            local_port: header.dst_port,
            remote_port: header.src_port,
        }
    }

    /// Whether a segment that came is between these endpoints.
    pub fn is_between(&self, ip_repr: &IpRepr, header: &TcpHeader) -> bool
        ensures { result ≡ is_between self.now ip_repr.now header.now }
    {
        is_same_address(&self.addresses.local(), &ip_repr.dst_addr())
            && is_same_address(&self.addresses.remote(), &ip_repr.src_addr())
            && self.local_port == header.dst_port
            && self.remote_port == header.src_port
    }
}

/// Whether the address is the one that is named, or none is.
pub fn takes_address(named: Option<IpAddress>, address: &IpAddress) -> bool
    ensures { result ≡ takes_address named address.now }
{
    match named {
        None => true,
        Some(named) => is_same_address(&named, address),
    }
}

fn is_same_choice(one: Option<IpAddress>, other: Option<IpAddress>) -> bool
    ensures { result ≡ is_same_choice one other }
{
    match (one, other) {
        (None, None) => true,
        (Some(one), Some(other)) => is_same_address(&one, &other),
        _ => false,
    }
}

/// Whether the two endpoints are one to listen on.
pub fn is_same_listener(one: &IpListenEndpoint, other: &IpListenEndpoint) -> bool
    ensures { result ≡ is_same_listener one.now other.now }
{
    is_same_choice(one.addr, other.addr) && one.port == other.port
}

/// Whether a segment neither acknowledges nor resets.
pub fn is_bare(ack_number: Option<SeqNumber>, control: TcpControl) -> bool
    ensures { result ≡ is_bare ack_number control }
{
    ack_number.is_none() && !matches!(control, TcpControl::Rst)
}

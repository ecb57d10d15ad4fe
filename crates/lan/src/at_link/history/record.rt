//! What is kept of each socket alongside the history, so that a refusal needn't read it.
ghost use Rattle.std.specs.Prelude.{◌≡◌, ◌+◌, ◌<◌, ◌^◌, None, Some};
ghost use Rattle.lan.specs.Worlds.AtLink.Tables.{no_record, names_same, takes_ports, is_port_taken, is_too_many};

/// How a TCP socket was opened: its local port, and of a connecting one the remote port.
#[derive(Clone, Copy, Debug, PartialEq, Eq)]
pub struct Opening {
    pub local: u16,
    pub remote: Option<u16>,
}

/// The kinds of sockets.
#[derive(Clone, Copy, Debug, PartialEq, Eq)]
pub enum SocketKind {
    Raw,
    Icmp,
    Udp,
    Tcp,
}

/// What the history says of the socket at a slot: how it was opened, and how many bytes it accepted.
#[derive(Clone, Copy, Debug, PartialEq, Eq)]
pub struct SocketRecord {
    pub opened: Option<Opening>,
    pub accepted: u32,
}

impl SocketRecord {
    /// Not opened, and nothing accepted.
    pub const NONE: SocketRecord = SocketRecord {
        opened: None,
        accepted: 0,
    };

    /// Whether so many bytes more would be 2^29 or more.
    pub fn is_too_many(&self, more: usize) -> bool
        ensures { result ≡ is_too_many self.now more }
    {
        let accepted = self.accepted as usize;
        more >= (1 << 29) || accepted + more >= (1 << 29)
    }

    /// Whether a socket can't be opened so alongside this one: the local port is its own, or it names the remote port too.
    pub fn takes_ports(&self, opening: &Opening) -> bool
        ensures { result ≡ takes_ports opening.now self.now.opened }
    {
        match self.opened {
            None => false,
            Some(own) => own.local == opening.local || names_same(own.remote, opening.remote),
        }
    }
}

fn names_same(one: Option<u16>, another: Option<u16>) -> bool
    ensures { result ≡ names_same one another }
{
    match (one, another) {
        (Some(one), Some(another)) => one == another,
        _ => false,
    }
}

/// Whether a socket of this host was opened at the local port, or to the remote one.
pub fn is_port_taken(records: &[SocketRecord], opening: &Opening) -> bool
    ensures { result ≡ is_port_taken records.now opening.now }
{
    records.iter().any(|record| record.takes_ports(opening))
}

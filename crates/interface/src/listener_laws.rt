//! What gives way in a backlog, and what never does.
ghost use Rattle.std.specs.Prelude.{◌≡◌, ℕ, ◌⊎◌, false, List, Some};
ghost use Rattle.iface_egress.specs.declared.socket_set.SocketStorage.{SocketStorage};
ghost use Rattle.iface_ingress.specs.Socket.{Socket};
ghost use Rattle.interface.specs.Backlog.Entries.{entry_at};
ghost use Rattle.interface.specs.Backlog.GivesWay.{GivesWay, HasNone, is_at, may_give_way};
ghost use Rattle.interface.specs.Backlog.Oldest.{IsOldest};
ghost use Rattle.interface.specs.declared.listener.entry.Entry.{Entry};
ghost use Rattle.interface.specs.declared.listener.stage.Stage.TheVariants as Is;
ghost use Rattle.ip_wire.specs.IpListenEndpoint.{IpListenEndpoint};

/// Law: behind a refresh a socket of the backlog is free, or none is in TIME-WAIT and at most one half open, for less than `PATIENCE`. So a SYN
/// finds a socket, whatever nobody answers, unless each other one has an open connection.
pub fn the_next_syn_finds_a_socket()
    ensures { (endpoint : IpListenEndpoint) (now : ℕ) (ps ps' : List (SocketStorage Socket)) (es es' : List Entry)
        → GivesWay endpoint now ps es ps' es'
        → HasNone Is.Free es'
        → HasNone Is.TimeWait es'
        × (HasNone Is.HalfOpen es' ⊎ ((i : ℕ) × IsOldest Is.HalfOpen es' (Some i) × (may_give_way now es' i ≡ false))) }
{}

/// Law: an open connection never gives way, nor one that its user has.
pub fn an_open_connection_stays()
    ensures open { (endpoint : IpListenEndpoint) (now i : ℕ) (ps ps' : List (SocketStorage Socket)) (es es' : List Entry)
        → GivesWay endpoint now ps es ps' es'
        → is_at Is.Open es i
        → entry_at es' i ≡ entry_at es i }
    ensures accepted { (endpoint : IpListenEndpoint) (now i : ℕ) (ps ps' : List (SocketStorage Socket)) (es es' : List Entry)
        → GivesWay endpoint now ps es ps' es'
        → is_at Is.Accepted es i
        → entry_at es' i ≡ entry_at es i }
{}

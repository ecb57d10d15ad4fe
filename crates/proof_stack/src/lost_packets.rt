//! A path that loses what is too long for it, and says nothing, on a network of many.
ghost use Rattle.std.specs.Prelude.{◌≡◌, ℕ, ◌+◌, ◌<◌, ◌≤◌, false, true, List, ◌∷◌, ◌++◌, length, Some};
ghost use Rattle.ip_wire.specs.IpAddress.{IpAddress};
ghost use Rattle.iface_tables.specs.Inner.{InnerValue, mtu_to};
ghost use Rattle.iface_tables.specs.PathMtu.{least_mtu, path_room};
ghost use Rattle.iface_egress.specs.declared.socket_meta.Meta.{Meta};
ghost use Rattle.iface_egress.specs.declared.socket_set.SocketStorage.{SocketStorage};
ghost use Rattle.iface_ingress.specs.Socket.{Socket};
ghost use Rattle.iface_ingress.specs.Socket.TheVariants as Kind;
ghost use Rattle.iface_ingress.specs.TcpSocket.{times_out_after};
ghost use Rattle.iface_ingress.specs.TcpValue.{TcpValue};
ghost use Rattle.interface.specs.BlackHoles.{flight_len, paths_checked};
ghost use Rattle.interface.specs.Remote.{remote_of};
ghost use Rattle.interface.specs.Serve.{is_waiting};

/// Law: where the timer of what a connection has in flight runs out again, packets to its remote are shorter than that from then on, whatever
/// the host's other connections tell of their paths (RFC 4821, section 7.7). It isn't what every path carries, the connection doesn't wait for
/// its neighbour, and the host knows of so few paths that none is forgotten for another.
pub fn what_is_lost_goes_again_shorter()
    ensures { (i : InnerValue) (before after : List (SocketStorage Socket)) (meta : Meta) (v : TcpValue) (address : IpAddress)
        → i.host_requirements ≡ true
        → remote_of (Kind.Tcp v) ≡ Some address
        → is_waiting i meta ≡ false
        → times_out_after 1 i.instant v.tcb ≡ true
        → least_mtu address < flight_len address v
        → length i.paths + (length before + (1 + length after)) ≤ path_room
        → mtu_to (paths_checked i (before ++ record { inner = Some (record { meta = meta; socket = Kind.Tcp v }) } ∷ after)) address
        < flight_len address v }
{}

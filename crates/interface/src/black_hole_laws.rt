//! What follows from how a host takes in that a path loses what is too long for it.
ghost use Rattle.std.specs.Prelude.{◌≡◌, ℕ, ◌≤◌, ◌<◌, ℤ, pos, ◌+ℤ◌, ◌≤ℤ◌, ◌<ℤ◌, true, is_some, List, Option, Some};
ghost use Rattle.ip_wire.specs.IpAddress.{IpAddress};
ghost use Rattle.iface_ingress.specs.Socket.{Socket};
ghost use Rattle.iface_ingress.specs.TcpValue.{TcpValue};
ghost use Rattle.iface_egress.specs.Inner.{InnerValue, at_instant, mtu_to};
ghost use Rattle.iface_egress.specs.Fragments.{LeftValue};
ghost use Rattle.iface_egress.specs.declared.socket_set.SocketStorage.{SocketStorage};
ghost use Rattle.iface_tables.specs.PathMtu.{least_mtu, mtu_towards, path_time};
ghost use Rattle.interface.specs.BlackHoles.{flight_len, is_swallowed, len_after, paths_checked, paths_towards, tried_next, with_paths};
ghost use Rattle.interface.specs.QuietStep.{IsEarly};

/// Law: a host that is polled before it wants to be takes in nothing of its paths.
pub fn nothing_is_told_early()
    ensures { (asked : InnerValue) (left : Option LeftValue) (ps : List (SocketStorage Socket)) (t : ℤ) → IsEarly asked left ps t
        → paths_checked (at_instant t asked) ps ≡ at_instant t asked }
{}

/// Law: where the timer of a packet runs out again that is longer than any path is taken to carry, a shorter length is tried; packets
/// to that destination are no longer than that for ten minutes, and may be as long as a frame carries from then on.
pub fn what_is_lost_goes_shorter()
    ensures some { (i : InnerValue) (address : IpAddress) (v : TcpValue) → is_swallowed i address v ≡ true
        → least_mtu address < flight_len address v → is_some (tried_next i address v) ≡ true }
    ensures shorter { (i : InnerValue) (address : IpAddress) (v : TcpValue) (len : ℕ) → tried_next i address v ≡ Some len
        → (len < flight_len address v) × (mtu_to (with_paths i (paths_towards i (Some address) v)) address ≡ len) }
    ensures ten_minutes { (i : InnerValue) (address : IpAddress) (v : TcpValue) (len : ℕ) (later : ℤ) → tried_next i address v ≡ Some len
        → later <ℤ (i.instant +ℤ pos path_time) → mtu_towards (paths_towards i (Some address) v) address later i.mtu ≡ len }
    ensures longer { (i : InnerValue) (address : IpAddress) (v : TcpValue) (len : ℕ) (later : ℤ) → tried_next i address v ≡ Some len
        → (i.instant +ℤ pos path_time) ≤ℤ later → mtu_towards (paths_towards i (Some address) v) address later i.mtu ≡ i.mtu }
{}

/// Law: whatever length a path loses, from the least on that a path is taken to carry, five shorter ones are enough to find one that goes.
pub fn five_lengths_are_enough()
    ensures { (address : IpAddress) (most len : ℕ) → least_mtu address ≤ most → len_after 5 address len ≤ most }
{}

//! What follows from the definitions of the socket set.
ghost use Rattle.std.specs.Prelude.{◌≡◌, ◌↔◌, ℕ, List, Some};
ghost use Rattle.iface_egress.specs.declared.socket_set.SocketStorage.{SocketStorage};
ghost use Rattle.iface_egress.specs.Set.{socket_at};
ghost use Rattle.iface_egress.specs.Used.{used, Lists, AreFrom};

/// Law: the used slots that are gone through are those that have a socket, each once, in rising order.
pub fn used_is_the_map<T>()
    ensures listed { (slots : List (SocketStorage T)) (n : ℕ) (socket : T) → Lists (used 0 slots) n socket ↔ (socket_at slots n ≡ Some socket) }
    ensures rising { (slots : List (SocketStorage T)) → AreFrom 0 (used 0 slots) }
{}

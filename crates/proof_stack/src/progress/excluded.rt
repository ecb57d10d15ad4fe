//! What the law of polls refuses.

ghost use Rattle.std.specs.Prelude.{◌≡◌, ℤ, pos, List, Option, Some};
ghost use Rattle.iface_ingress.specs.Socket.{Socket};
ghost use Rattle.iface_tables.specs.Inner.{InnerValue};
ghost use Rattle.iface_egress.specs.Fragments.{LeftValue};
ghost use Rattle.iface_egress.specs.declared.socket_set.SocketStorage.{SocketStorage};
ghost use Rattle.interface.specs.Host.{HostValue};
ghost use Rattle.proof_stack.specs.Progress.Excluded.{Rule, IsKeptBy};

/// A rule by which a host wants to be polled at once, whatever it has, is refused, and so is one by which it wants that at the instant at
/// which it was polled last: such a host, without a socket, at a device to which no frame comes, is polled for nothing.
pub fn rules_that_never_rest_are_refused()
    ensures always_now { (rule : Rule) (h : HostValue)
        → ((i : InnerValue) (left : Option LeftValue) (slots : List (SocketStorage Socket)) → rule i left slots ≡ Some (pos 0))
        → IsKeptBy rule → ⊥ }
    ensures as_polled { (rule : Rule) (h : HostValue)
        → ((i : InnerValue) (left : Option LeftValue) (slots : List (SocketStorage Socket)) → rule i left slots ≡ Some i.instant)
        → IsKeptBy rule → ⊥ }
{}

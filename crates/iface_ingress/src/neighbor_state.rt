//! Whom a host knows, and whom it asks for.
ghost use Rattle.std.specs.Prelude.{◌≡◌};
ghost use Rattle.iface_ingress.specs.Acquaintance.{knows, seeks};

use iface_egress::InterfaceInner;
use ip_wire::IpAddress;

/// Whether the neighbour's hardware address is believed.
pub fn knows(inner: &InterfaceInner, neighbor: &IpAddress) -> bool
    ensures { result ≡ knows inner.now neighbor.now }
{
    inner.lookup_neighbor(neighbor).found()
}

/// Whether the neighbour is asked for.
pub fn seeks(inner: &InterfaceInner, neighbor: &IpAddress) -> bool
    ensures { result ≡ seeks inner.now neighbor.now }
{
    inner.last_request(neighbor).is_some()
}

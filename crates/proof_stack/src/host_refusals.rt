//! When settings of an interface are refused, and that a refused setting leaves it as it was: each function makes one call, and
//! says again what the call promises.
ghost use Rattle.std.specs.Prelude.{◌≡◌, Ok, Err};
ghost use Rattle.iface_tables.specs.Settings.{unless, hardware_refusal, with_hardware};
ghost use Rattle.interface.specs.Made.{with_inner};

use interface::{HardwareAddrError, Interface};
use ip_wire::HardwareAddress;

/// A hardware address is set where the medium has such addresses, and it is one host's.
pub fn set_hardware_addr(
    interface: &mut Interface,
    addr: HardwareAddress,
) -> Result<(), HardwareAddrError>
    ensures answer { result ≡ unless (hardware_refusal interface.old.inner.hardware addr) tt }
    ensures after { interface.new ≡ with_inner interface.old (with_hardware interface.old.inner addr) }
{
    interface.set_hardware_addr(addr)
}

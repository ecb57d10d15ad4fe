//! Reports that are due leave.
ghost use Rattle.std.specs.Prelude.{◌≡◌, ◌<◌, length};
ghost use Rattle.iface_reports.specs.Transmits.{GoesIf, Tells, Transmits};
ghost use Rattle.iface_reports.specs.Told.{v4_family, v6_family, report_at};

use crate::frame::{fill, frame_len};
use crate::report::report_by;
use crate::reporter::{Reporter, micros};
use crate::rows::first_due;
use iface_tables::InterfaceInner;
use ip_wire::{IpAddress, Ipv4Address, Ipv6Address};
use net_base::Device;
use socket_context::Context;

const V4_FAMILY: IpAddress = IpAddress::Ipv4(Ipv4Address::UNSPECIFIED);

const V6_FAMILY: IpAddress = IpAddress::Ipv6(Ipv6Address::UNSPECIFIED);

impl Reporter {
    /// Sends a report of IGMP and one of MLD, where they are due: in IGMPv3 and MLDv2 of all groups that are, in the older versions of one.
    /// Says whether the device took all that was due; what it didn't take stays due. A device isn't asked where nothing is due.
    pub fn transmit<D: Device>(&mut self, inner: &InterfaceInner, device: &mut D) -> bool
        ensures transmits { Transmits D.moves inner.now device.old self.old result device.new self.new }
        ensures capabilities { D.described device.new ≡ D.described device.old }
    {
        if !self.tell_family(inner, device, &V4_FAMILY) {
            return false;
        }
        self.tell_family(inner, device, &V6_FAMILY)
    }

    /// Sends one report of this family, if one is due. Says whether the device took it, or none was.
    fn tell_family<D: Device>(
        &mut self,
        inner: &InterfaceInner,
        device: &mut D,
        family: &IpAddress,
    ) -> bool
        ensures tells { Tells D.moves inner.now device.old family.now self.old result device.new self.new }
        ensures capabilities { D.described device.new ≡ D.described device.old }
    {
        let Some(at) = first_due(family, micros(inner), self.rows()) else {
            return true;
        };
        if !self.send_report(inner, device, family, at) {
            return false;
        }
        self.tell(inner, family, at);
        true
    }

    /// Sends the report that is due, of which the row at this place is the first to be told. Says whether the device took it.
    fn send_report<D: Device>(
        &self,
        inner: &InterfaceInner,
        device: &mut D,
        family: &IpAddress,
        at: usize,
    ) -> bool
        requires { at < length self.now.rows }
        ensures goes { GoesIf D.moves inner.now device.old (report_at inner.now family.now self.now at) result device.new }
        ensures capabilities { D.described device.new ≡ D.described device.old }
    {
        let rows = self.rows();
        let report = report_by(
            self.mode(inner, family),
            family,
            micros(inner),
            rows,
            &rows[at],
        );
        let Some(token) = device.transmit(inner.now()) else {
            return false;
        };
        let len = frame_len(inner, &report);
        device
            .send(token, len, |buffer: &mut [u8]| fill(inner, &report, buffer))
            .is_ok()
    }
}

//! Which versions the queriers of a link have, and so the host.
ghost use Rattle.std.specs.Prelude.{◌≡◌, ◌≤◌, ◌^◌};
ghost use Rattle.iface_groups.specs.Querier.{mode_at, heard_query};

use crate::mode::CompatibilityMode;

/// How long a host keeps to an older version after a query of it, in microseconds: the robustness
/// variable times the query interval, and a response interval (RFC 3376, section 8.12; RFC 3810,
/// section 9.12).
const OLDER_VERSION_QUERIER_PRESENT: u64 = (2 * 125 + 10) * 1_000_000;

/// Until when queriers of older versions count, in microseconds; 0 where none was heard.
#[derive(Clone, Copy, Debug, PartialEq, Eq)]
pub struct Querier {
    igmpv1_until: u64,
    igmpv2_until: u64,
}

impl Querier {
    /// No querier of an older version was heard.
    pub const NONE: Querier = Querier {
        igmpv1_until: 0,
        igmpv2_until: 0,
    };

    /// The version in which the host tells now (RFC 3376, section 7.2.1; RFC 3810, section 8.2.1).
    pub const fn mode(&self, now: u64) -> CompatibilityMode
        ensures { result ≡ mode_at now self.now }
    {
        if now < self.igmpv1_until {
            CompatibilityMode::Igmpv1
        } else if now < self.igmpv2_until {
            CompatibilityMode::Igmpv2
        } else {
            CompatibilityMode::Igmpv3
        }
    }

    /// A query of this version came that counts.
    pub const fn hear(&mut self, version: CompatibilityMode, now: u64)
        requires { now ≤ 2 ^ 61 }
        ensures { self.new ≡ heard_query version now self.old }
    {
        match version {
            CompatibilityMode::Igmpv1 => self.igmpv1_until = now + OLDER_VERSION_QUERIER_PRESENT,
            CompatibilityMode::Igmpv2 => self.igmpv2_until = now + OLDER_VERSION_QUERIER_PRESENT,
            CompatibilityMode::Igmpv3 => {}
        }
    }
}

//! The flags of neighbour advertisements (RFC 4861, section 4.4).
ghost use Rattle.std.specs.Prelude.{◌≡◌, ◌&&◌, ◌||◌, not, true, false};
ghost use Rattle.wire_icmpv6.specs.Ndisc.{flag_bits, flags_of};

use std::ops::BitOr;

/// What an advertisement says besides its addresses.
#[derive(Clone, Copy, Debug, PartialEq, Eq, PartialOrd, Ord, Hash)]
pub struct NdiscNeighborFlags {
    /// The sender is a router.
    pub router: bool,
    /// The message answers a solicitation.
    pub solicited: bool,
    /// The link address replaces one that a reader may hold.
    pub overrides: bool,
}

impl NdiscNeighborFlags {
    pub const ROUTER: NdiscNeighborFlags = NdiscNeighborFlags {
        router: true,
        solicited: false,
        overrides: false,
    };

    pub const SOLICITED: NdiscNeighborFlags = NdiscNeighborFlags {
        router: false,
        solicited: true,
        overrides: false,
    };

    pub const OVERRIDE: NdiscNeighborFlags = NdiscNeighborFlags {
        router: false,
        solicited: false,
        overrides: true,
    };

    /// No flag.
    pub const fn empty() -> NdiscNeighborFlags
        ensures { result ≡ record { router = false; solicited = false; overrides = false } }
    {
        NdiscNeighborFlags {
            router: false,
            solicited: false,
            overrides: false,
        }
    }

    /// The flags in their byte, whose other bits are zero.
    pub const fn bits(&self) -> u8
        ensures { result ≡ flag_bits self.now }
    {
        let router = if self.router { 0x80 } else { 0 };
        let solicited = if self.solicited { 0x40 } else { 0 };
        let overrides = if self.overrides { 0x20 } else { 0 };
        router + solicited + overrides
    }

    /// The flags in a byte, whose other bits are ignored.
    pub const fn from_bits_truncate(bits: u8) -> NdiscNeighborFlags
        ensures { result ≡ flags_of bits }
    {
        NdiscNeighborFlags {
            router: (bits >> 7) & 1 == 1,
            solicited: (bits >> 6) & 1 == 1,
            overrides: (bits >> 5) & 1 == 1,
        }
    }

    /// Whether each of the other flags is set here.
    pub const fn contains(&self, other: NdiscNeighborFlags) -> bool
        ensures { result
            ≡ ((self.now.router || not other.router) && ((self.now.solicited || not other.solicited) && (self.now.overrides || not other.overrides))) }
    {
        (self.router || !other.router)
            && ((self.solicited || !other.solicited) && (self.overrides || !other.overrides))
    }
}

impl BitOr for NdiscNeighborFlags {
    type Output = NdiscNeighborFlags;

    ghost bitor_gives = { λ a b c. c ≡ record {
      router = a.router || b.router;
      solicited = a.solicited || b.solicited;
      overrides =
          a.overrides || b.overrides;
    } };

    /// The flags that are set in one of both.
    fn bitor(self, other: NdiscNeighborFlags) -> NdiscNeighborFlags {
        NdiscNeighborFlags {
            router: self.router || other.router,
            solicited: self.solicited || other.solicited,
            overrides: self.overrides || other.overrides,
        }
    }
}

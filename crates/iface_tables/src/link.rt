//! Where the frame of a packet goes.
ghost use Rattle.std.specs.Prelude.{◌≡◌};
ghost use Rattle.iface_tables.specs.Inner.{link_by};

use crate::neighbor::Answer;
use ip_wire::{HardwareAddress, IpAddress};

/// The hardware address of a packet's frame, or why there is none yet.
#[derive(Clone, Copy, Debug, PartialEq, Eq)]
pub enum LinkAddress {
    Known(HardwareAddress),
    /// The destination is in no local network, and no route serves it.
    NoRoute,
    /// The next hop's isn't known, and a neighbour was asked for less than a second ago.
    Silent,
    /// The next hop was asked for three times in vain, and counts as without answer for a while.
    Unanswered,
    /// The hardware address of this next hop isn't known, and may be asked for.
    Unknown(IpAddress),
}

/// The hardware address of a next hop by what is known of it, or why there is none yet.
pub(crate) fn link_by(answer: Answer, hop: &IpAddress) -> LinkAddress
    ensures { result ≡ link_by answer hop.now }
{
    match answer {
        Answer::Found(hardware) => LinkAddress::Known(hardware),
        Answer::RateLimited => LinkAddress::Silent,
        Answer::Unanswered => LinkAddress::Unanswered,
        Answer::NotFound => LinkAddress::Unknown(*hop),
    }
}

//! What this crate re-exports stands under the name of its own format; a reason has a number of eight bits.
ghost use Rattle.std.specs.Prelude.{◌≡◌, ◌<◌};
ghost use Rattle.wire_icmpv4.specs.Icmpv4Codes.{exceeded_number, unreachable_number};
ghost use Rattle.wire_icmpv6.specs.Reason.{exceeded_code, problem_code, unreachable_code};

use crate::icmpv4_field::DATA;
use crate::icmpv6_field::TARGET_ADDR;
use crate::{
    Icmpv4DstUnreachable, Icmpv4TimeExceeded, Icmpv6DstUnreachable, Icmpv6ParamProblem,
    Icmpv6TimeExceeded,
};

/// Law: of each module of fields, a field that has this name in no other format.
pub fn fields_are_passed_on()
    ensures icmpv4 { DATA.start ≡ 8 }
    ensures icmpv6 { TARGET_ADDR ≡ record { start = 8; end = 24 } }
{}

/// Law: why something can't be reached has a number of eight bits in ICMPv4.
pub fn icmpv4_unreachable_width(reason: Icmpv4DstUnreachable)
    ensures { unreachable_number reason < 256 }
{
    let _number = u8::from(reason);
}

/// Law: which time was exceeded has a number of eight bits in ICMPv4.
pub fn icmpv4_exceeded_width(reason: Icmpv4TimeExceeded)
    ensures { exceeded_number reason < 256 }
{
    let _number = u8::from(reason);
}

/// Law: why something can't be reached has a code of eight bits in ICMPv6.
pub fn icmpv6_unreachable_width(reason: Icmpv6DstUnreachable)
    ensures { unreachable_code reason < 256 }
{
    let _code = u8::from(reason);
}

/// Law: which time was exceeded has a code of eight bits in ICMPv6.
pub fn icmpv6_exceeded_width(reason: Icmpv6TimeExceeded)
    ensures { exceeded_code reason < 256 }
{
    let _code = u8::from(reason);
}

/// Law: what is wrong with a field has a code of eight bits in ICMPv6.
pub fn icmpv6_problem_width(reason: Icmpv6ParamProblem)
    ensures { problem_code reason < 256 }
{
    let _code = u8::from(reason);
}

//! Control messages as text.
ghost use Rattle.std.specs.Prelude.{◌≡◌, Some};
ghost use Rattle.wire_print.specs.Headers.{echo_text, icmpv4_text, icmpv6_text, ndisc_text, link_text, flags_text};

use crate::headers::{Ipv4Text, Ipv6Text, set};
use crate::names::{Exceeded4Text, Exceeded6Text, ProblemText, Unreachable4Text, Unreachable6Text};
use crate::parts::{write_error, write_value, write_values};
use control_wire::{Icmpv4Header, Icmpv6Header, NdiscNeighborFlags, NdiscRepr};
use ip_wire::RawHardwareAddress;
use std::fmt;

/// Prints a message but for its data: `echo request, id 7, seq 1`. An error quotes a header: `unreachable, port (3), of [..]`.
#[derive(Clone, Copy)]
pub struct Icmpv4Text(pub Icmpv4Header);

impl fmt::Display for Icmpv4Text {
    ghost output = { λ x. Some (icmpv4_text x.0) };

    fn fmt<W: fmt::Write>(&self, f: &mut fmt::Formatter<W>) -> fmt::Result {
        match self.0 {
            Icmpv4Header::EchoRequest { ident, seq_no } => {
                write_value(f, "echo request, id ", EchoText(ident, seq_no))
            }
            Icmpv4Header::EchoReply { ident, seq_no } => {
                write_value(f, "echo reply, id ", EchoText(ident, seq_no))
            }
            Icmpv4Header::DstUnreachable { reason, header } => {
                write_error(
                    f,
                    "unreachable, ",
                    Unreachable4Text(reason),
                    Ipv4Text(header),
                )
            }
            Icmpv4Header::TimeExceeded { reason, header } => {
                write_error(
                    f,
                    "time exceeded, ",
                    Exceeded4Text(reason),
                    Ipv4Text(header),
                )
            }
        }
    }
}

// The numbers of an echo: `7, seq 1`.
#[derive(Clone, Copy)]
struct EchoText(u16, u16);

impl fmt::Display for EchoText {
    ghost output = { λ x. Some (echo_text x.0 x.1) };

    fn fmt<W: fmt::Write>(&self, f: &mut fmt::Formatter<W>) -> fmt::Result {
        write_values(f, "", self.0, ", seq ", self.1)
    }
}

/// Prints a message but for what it carries.
#[derive(Clone, Copy)]
pub struct Icmpv6Text(pub Icmpv6Header);

impl fmt::Display for Icmpv6Text {
    ghost output = { λ x. Some (icmpv6_text x.0) };

    fn fmt<W: fmt::Write>(&self, f: &mut fmt::Formatter<W>) -> fmt::Result {
        match self.0 {
            Icmpv6Header::DstUnreachable { reason, header } => {
                write_error(
                    f,
                    "unreachable, ",
                    Unreachable6Text(reason),
                    Ipv6Text(header),
                )
            }
            Icmpv6Header::PktTooBig { mtu, header } => {
                write_error(f, "packet too big, mtu ", mtu, Ipv6Text(header))
            }
            Icmpv6Header::TimeExceeded { reason, header } => {
                write_error(
                    f,
                    "time exceeded, ",
                    Exceeded6Text(reason),
                    Ipv6Text(header),
                )
            }
            Icmpv6Header::ParamProblem {
                reason,
                pointer,
                header,
            } => write!(
                f,
                "parameter problem, {} at {pointer}, of [{}]",
                ProblemText(reason),
                Ipv6Text(header)
            ),
            Icmpv6Header::EchoRequest { ident, seq_no } => {
                write_value(f, "echo request, id ", EchoText(ident, seq_no))
            }
            Icmpv6Header::EchoReply { ident, seq_no } => {
                write_value(f, "echo reply, id ", EchoText(ident, seq_no))
            }
            Icmpv6Header::Ndisc(message) => f.write(NdiscText(message)),
        }
    }
}

/// Prints a neighbour message: `neighbor solicitation, target fd00::1, link 02:00:00:00:00:02`.
#[derive(Clone, Copy)]
pub struct NdiscText(pub NdiscRepr);

impl fmt::Display for NdiscText {
    ghost output = { λ x. Some (ndisc_text x.0) };

    fn fmt<W: fmt::Write>(&self, f: &mut fmt::Formatter<W>) -> fmt::Result {
        match self.0 {
            NdiscRepr::NeighborSolicit {
                target_addr,
                lladdr,
            } => write_values(
                f,
                "neighbor solicitation, target ",
                target_addr,
                "",
                LinkText(lladdr),
            ),
            NdiscRepr::NeighborAdvert {
                flags,
                target_addr,
                lladdr,
            } => write!(
                f,
                "neighbor advertisement, flags [{}], target {target_addr}{}",
                FlagsText(flags),
                LinkText(lladdr)
            ),
        }
    }
}

#[derive(Clone, Copy)]
struct LinkText(Option<RawHardwareAddress>);

impl fmt::Display for LinkText {
    ghost output = { λ x. Some (link_text x.0) };

    fn fmt<W: fmt::Write>(&self, f: &mut fmt::Formatter<W>) -> fmt::Result {
        match self.0 {
            Some(address) => write!(f, ", link {address}"),
            None => Ok(()),
        }
    }
}

#[derive(Clone, Copy)]
struct FlagsText(NdiscNeighborFlags);

impl fmt::Display for FlagsText {
    ghost output = { λ x. Some (flags_text x.0) };

    fn fmt<W: fmt::Write>(&self, f: &mut fmt::Formatter<W>) -> fmt::Result {
        let flags = self.0;
        write!(
            f,
            "{}{}{}",
            set(flags.router, "R"),
            set(flags.solicited, "S"),
            set(flags.overrides, "O")
        )
    }
}

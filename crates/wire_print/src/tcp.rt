//! TCP segments.
ghost use Rattle.std.specs.Prelude.{◌≡◌};
ghost use Rattle.ip_wire.specs.Address.{version_of};

use crate::put::{Out, all, none, tested_first};
use crate::tcp_text::{TcpOptionText, TcpText};
use ip_wire::{IpAddress, TcpHeader, TcpOption, TcpPacket};

/// A segment between these addresses.
pub(crate) fn put_tcp(out: &mut Out<'_>, source: &IpAddress, destination: &IpAddress, bytes: &[u8])
    requires { version_of source.now ≡ version_of destination.now }
{
    let packet = TcpPacket::new_unchecked(bytes);
    if bytes.len() > 0xffff || packet.check_len().is_err() {
        out.put_cut_line("TCP", bytes);
        out.put_some_bytes("payload", bytes);
        return;
    }
    let found = tested_first(
        TcpHeader::parse(&packet, source, destination, &all()),
        TcpHeader::parse(&packet, source, destination, &none()),
    );
    match found {
        Some((is_good, header)) => out.put_header("TCP ", is_good, TcpText(header)),
        None => {
            out.put("TCP unknown, ", packet.src_port());
            out.put(" > ", packet.dst_port());
            out.put(", seq ", packet.seq_number().0);
        }
    }
    let is_good = packet.verify_checksum(source, destination);
    put_fields(out, bytes, is_good);
    out.put_bytes("payload", packet.payload());
}

// The fields as they stand: flags from the lowest bit on, and the options one by one.
fn put_fields(out: &mut Out<'_>, bytes: &[u8], is_good: bool) {
    let Ok(packet) = TcpPacket::new_checked(bytes) else {
        return;
    };
    out.put("; header ", packet.header_len());
    out.put_text(", bits [");
    out.put_where(packet.fin(), "F");
    out.put_where(packet.syn(), "S");
    out.put_where(packet.rst(), "R");
    out.put_where(packet.psh(), "P");
    out.put_where(packet.ack(), ".");
    out.put_where(packet.urg(), "U");
    out.put_where(packet.ece(), "E");
    out.put_where(packet.cwr(), "W");
    out.put_where(packet.ns(), "e");
    out.put("], ack field ", packet.ack_number().0);
    out.put(", win ", packet.window_len());
    out.put_tested(packet.checksum(), is_good);
    out.put_last(", urgent ", packet.urgent_at());
    put_options(out, packet.options());
}

// A line for the options, in their order, up to one that isn't read.
fn put_options(out: &mut Out<'_>, options: &[u8]) {
    if options.is_empty() {
        return;
    }
    out.put_text("options");
    let mut rest = options;
    for _ in 0..options.len() {
        if rest.is_empty() {
            break;
        }
        match TcpOption::parse(rest) {
            Ok((following, option)) => {
                out.put(" [", TcpOptionText(option));
                put_unknown(out, option);
                out.put_text("]");
                if option == TcpOption::EndOfList {
                    put_following(out, following);
                    return;
                }
                rest = following;
            }
            Err(_) => {
                out.put_hex(" bad ", rest);
                break;
            }
        }
    }
    out.end_line();
}

// The end of the line, with what stands after the end of the options.
fn put_following(out: &mut Out<'_>, following: &[u8]) {
    out.put_some_hex(" behind ", following);
    out.end_line();
}

// What is inside an option of another kind.
fn put_unknown(out: &mut Out<'_>, option: TcpOption<'_>) {
    if let TcpOption::Unknown { bytes, .. } = option {
        out.put_some_hex(" ", bytes);
    }
}

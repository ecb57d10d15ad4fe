//! What a frame carries, a line for each header.
use crate::headers::{ArpText, EthernetText};
use crate::ip::{put_ip, put_ipv4_alone, put_ipv6_alone};
use crate::names::{EtherText, OperationText};
use crate::put::Out;
use ip_wire::{ArpPacket, ArpRepr, EthernetFrame, EthernetProtocol, EthernetRepr};
use net_base::Medium;
use std::alloc::{AllocError, Global};

/// Appends to the text what a frame of this medium carries: a line for each header, then its payload and its padding. A header that isn't
/// read is named `cut short after N bytes`, `bad length`, `unknown` or `bad checksum`; after the first three nothing more is read.
pub fn describe(
    alloc: Global,
    medium: Medium,
    frame: &[u8],
    text: &mut String,
) -> Result<(), AllocError> {
    let mut out = Out::new(alloc, text);
    match medium {
        Medium::Ethernet => put_ethernet(&mut out, frame),
        Medium::Ip => put_ip(&mut out, frame),
    }
    out.end()
}

fn put_ethernet(out: &mut Out<'_>, bytes: &[u8]) {
    let Ok(frame) = EthernetFrame::new_checked(bytes) else {
        out.put_cut_line("Ethernet", bytes);
        return;
    };
    let payload = frame.payload();
    if let Ok(header) = EthernetRepr::parse(&frame) {
        out.put("Ethernet ", EthernetText(header));
        out.put_last("; payload ", payload.len());
    }
    match frame.ethertype() {
        EthernetProtocol::Arp => put_arp(out, payload),
        EthernetProtocol::Ipv4 => put_ipv4_alone(out, payload),
        EthernetProtocol::Ipv6 => put_ipv6_alone(out, payload),
        EthernetProtocol::Unknown(_) => out.put_bytes("payload", payload),
    }
}

fn put_arp(out: &mut Out<'_>, bytes: &[u8]) {
    let Ok(packet) = ArpPacket::new_checked(bytes) else {
        out.put_cut_line("ARP", bytes);
        return;
    };
    let length = match ArpRepr::parse(&packet) {
        Ok(header) => {
            out.put("ARP ", ArpText(header));
            header.buffer_len()
        }
        Err(_) => {
            out.put("ARP unknown, ", OperationText(packet.operation()));
            bytes.len()
        }
    };
    put_arp_fields(out, &packet);
    out.put_some_bytes("padding", bytes.get(length..).unwrap_or(&[]));
}

// The fields as they stand: kinds and lengths of addresses, and the four addresses.
fn put_arp_fields(out: &mut Out<'_>, packet: &ArpPacket<'_>) {
    let bytes = packet.into_inner();
    let Ok(packet) = ArpPacket::new_checked(bytes) else {
        out.end_line();
        return;
    };
    out.put("; hardware ", u16::from(packet.hardware_type()));
    out.put(" len ", packet.hardware_len());
    out.put(", ", EtherText(packet.protocol_type()));
    out.put(" len ", packet.protocol_len());
    out.put_hex(", addresses ", packet.source_hardware_addr());
    out.put_hex(" ", packet.source_protocol_addr());
    out.put_hex(" ", packet.target_hardware_addr());
    out.put_hex(" ", packet.target_protocol_addr());
    out.end_line();
}

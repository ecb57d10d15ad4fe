//! A host that runs: its interface, its sockets and its device.
use crate::refusal_text::Refusal;
use crate::stop::Stop;
use crate::wire::Wire;
use crate::words::Words;
use interface::{Interface, SocketHandle, SocketSet};
use sockets::{Socket, icmp, raw, tcp, udp};

/// A host at its device.
#[derive(Drop)]
pub struct Host {
    pub interface: Interface,
    pub sockets: SocketSet<Socket>,
    pub wire: Wire,
}

impl Host {
    /// The socket at this slot, where the line is taken so far. If there is none, the words say so.
    pub fn socket(&mut self, slot: usize, words: &mut Words<'_>) -> Option<&mut Socket> {
        if !words.is_taken() {
            return None;
        }
        match self.sockets.get_mut(SocketHandle::at(slot)) {
            Some(socket) => Some(socket),
            None => {
                words.note(Stop::Refused(Refusal::NoSocket));
                None
            }
        }
    }

    /// The TCP socket at this slot, likewise.
    pub fn tcp(&mut self, slot: usize, words: &mut Words<'_>) -> Option<&mut tcp::Socket> {
        match self.socket(slot, words) {
            Some(Socket::Tcp(socket)) => Some(socket),
            _ => {
                words.note(Stop::Refused(Refusal::WrongKind));
                None
            }
        }
    }

    /// The UDP socket at this slot.
    pub fn udp(&mut self, slot: usize, words: &mut Words<'_>) -> Option<&mut udp::Socket> {
        match self.socket(slot, words) {
            Some(Socket::Udp(socket)) => Some(socket),
            _ => {
                words.note(Stop::Refused(Refusal::WrongKind));
                None
            }
        }
    }

    /// The ICMP socket at this slot.
    pub fn icmp(&mut self, slot: usize, words: &mut Words<'_>) -> Option<&mut icmp::Socket> {
        match self.socket(slot, words) {
            Some(Socket::Icmp(socket)) => Some(socket),
            _ => {
                words.note(Stop::Refused(Refusal::WrongKind));
                None
            }
        }
    }

    /// The raw socket at this slot.
    pub fn raw(&mut self, slot: usize, words: &mut Words<'_>) -> Option<&mut raw::Socket> {
        match self.socket(slot, words) {
            Some(Socket::Raw(socket)) => Some(socket),
            _ => {
                words.note(Stop::Refused(Refusal::WrongKind));
                None
            }
        }
    }
}

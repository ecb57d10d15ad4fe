//! Lines that set what a socket has, or ask for it.
use crate::answer::Answer;
use crate::host::Host;
use crate::refusal_text::{Refusal, Said};
use crate::stop::Class;
use crate::words::{Words, number};
use ip_wire::TcpTimestampGenerator;
use net_base::Duration;
use sockets::tcp::{self, CongestionControl};
use sockets::{Socket, icmp, raw, udp};

/// Plays `set H S NAME VALUE`.
pub fn set(host: &mut Host, words: &mut Words<'_>) -> Answer {
    words.host();
    let slot = words.size();
    let name = words.word(Class::Setting);
    match name {
        "hop_limit" => match host.socket(slot, words) {
            Some(socket) => set_hop_limit(socket, words),
            None => Answer::Done,
        },
        _ => {
            if let Some(socket) = host.tcp(slot, words) {
                set_tcp(socket, name, words);
            }
            Answer::Done
        }
    }
}

fn set_tcp(socket: &mut tcp::Socket, name: &str, words: &mut Words<'_>) {
    match name {
        "timeout" => {
            let span = last_span(words);
            if words.is_taken() {
                socket.set_timeout(span);
            }
        }
        "ack_delay" => {
            let span = last_span(words);
            if words.is_taken() {
                socket.set_ack_delay(span);
            }
        }
        "keep_alive" => {
            let span = last_span(words);
            if words.is_taken() {
                socket.set_keep_alive(span);
            }
        }
        "nagle" => {
            let is_on = words.last_switch();
            if words.is_taken() {
                socket.set_nagle_enabled(is_on);
            }
        }
        "pause" => {
            let is_on = words.last_switch();
            if words.is_taken() {
                socket.pause_synack(is_on);
            }
        }
        "congestion" => {
            let control = control(words);
            words.end();
            if words.is_taken() {
                socket.set_congestion_control(control);
            }
        }
        "timestamps" => {
            let generator = generator(words);
            words.end();
            if words.is_taken() {
                socket.set_tsval_generator(generator);
            }
        }
        _ => words.wrong(Class::Setting),
    }
}

/// The last word, which says how long something takes, or none.
fn last_span(words: &mut Words<'_>) -> Option<Duration> {
    let span = words.span().map(Duration::from_micros);
    words.end();
    span
}

fn set_hop_limit(socket: &mut Socket, words: &mut Words<'_>) -> Answer {
    let hop_limit = words.hop_limit();
    words.end();
    if !words.is_taken() {
        return Answer::Done;
    }
    match socket {
        Socket::Tcp(socket) => socket.set_hop_limit(hop_limit),
        Socket::Udp(socket) => socket.set_hop_limit(hop_limit),
        Socket::Icmp(socket) => socket.set_hop_limit(hop_limit),
        Socket::Raw(_) | Socket::Dhcpv4(_) | Socket::Dns(_) => return words.refuse(
            Refusal::WrongKind,
        ),
    }
    Answer::Done
}

fn control(words: &mut Words<'_>) -> CongestionControl {
    match words.word(Class::Control) {
        "none" => CongestionControl::None,
        "reno" => CongestionControl::Reno,
        "cubic" => CongestionControl::Cubic,
        _ => {
            words.wrong(Class::Control);
            CongestionControl::None
        }
    }
}

/// What timestamps begin at, or none.
fn generator(words: &mut Words<'_>) -> Option<TcpTimestampGenerator> {
    match words.unless_none() {
        Some(value) => Some(TcpTimestampGenerator(value)),
        None => None,
    }
}

/// Plays `get H S NAME`.
pub fn get(host: &mut Host, words: &mut Words<'_>) -> Answer {
    words.host();
    let slot = words.size();
    let name = words.word(Class::Setting);
    words.end();
    let Some(socket) = host.socket(slot, words) else {
        return Answer::Done;
    };
    let found = match socket {
        Socket::Tcp(socket) => get_tcp(socket, name),
        Socket::Udp(socket) => of_udp(socket).get(name),
        Socket::Icmp(socket) => of_icmp(socket).get(name),
        Socket::Raw(socket) => get_raw(socket, name),
        Socket::Dhcpv4(_) | Socket::Dns(_) => return words.refuse(Refusal::WrongKind),
    };
    match found {
        Some(answer) => answer,
        None => {
            words.wrong(Class::Setting);
            Answer::Done
        }
    }
}

/// What sockets of all kinds but TCP have.
#[derive(Clone, Copy)]
struct Common {
    can_send: bool,
    can_recv: bool,
    send_queue: usize,
    recv_queue: usize,
    hop_limit: Option<u8>,
}

fn of_udp(socket: &udp::Socket) -> Common {
    Common {
        can_send: socket.can_send(),
        can_recv: socket.can_recv(),
        send_queue: socket.send_queue(),
        recv_queue: socket.recv_queue(),
        hop_limit: socket.hop_limit(),
    }
}

fn of_icmp(socket: &icmp::Socket) -> Common {
    Common {
        can_send: socket.can_send(),
        can_recv: socket.can_recv(),
        send_queue: socket.send_queue(),
        recv_queue: socket.recv_queue(),
        hop_limit: socket.hop_limit(),
    }
}

fn of_raw(socket: &raw::Socket) -> Common {
    Common {
        can_send: socket.can_send(),
        can_recv: socket.can_recv(),
        send_queue: socket.send_queue(),
        recv_queue: socket.recv_queue(),
        hop_limit: None,
    }
}

// A raw socket's packets have their own hop limits.
fn get_raw(socket: &raw::Socket, name: &str) -> Option<Answer> {
    match name {
        "hop_limit" => None,
        _ => of_raw(socket).get(name),
    }
}

impl Common {
    fn get(self, name: &str) -> Option<Answer> {
        Some(match name {
            "can_send" => Answer::is(self.can_send),
            "can_recv" => Answer::is(self.can_recv),
            "send_queue" => count(self.send_queue),
            "recv_queue" => count(self.recv_queue),
            "hop_limit" => hop_limit(self.hop_limit),
            _ => return None,
        })
    }
}

fn count(count: usize) -> Answer {
    Answer::Number(Said::Is, count as u64)
}

fn span(span: Option<Duration>) -> Answer {
    match span {
        Some(span) => Answer::Number(Said::In, span.total_micros()),
        None => Answer::Says(Said::Nothing),
    }
}

fn hop_limit(hop_limit: Option<u8>) -> Answer {
    match hop_limit {
        Some(hop_limit) => Answer::Number(Said::Is, u64::from(hop_limit)),
        None => Answer::Says(Said::Nothing),
    }
}

fn get_tcp(socket: &tcp::Socket, name: &str) -> Option<Answer> {
    Some(match name {
        "can_send" => Answer::is(socket.can_send()),
        "can_recv" => Answer::is(socket.can_recv()),
        "may_send" => Answer::is(socket.may_send()),
        "may_recv" => Answer::is(socket.may_recv()),
        "send_queue" => count(socket.send_queue()),
        "recv_queue" => count(socket.recv_queue()),
        "timeout" => span(socket.timeout()),
        "ack_delay" => span(socket.ack_delay()),
        "keep_alive" => span(socket.keep_alive()),
        "nagle" => Answer::is(socket.nagle_enabled()),
        "hop_limit" => hop_limit(socket.hop_limit()),
        _ => return None,
    })
}

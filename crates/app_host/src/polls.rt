//! Lines that poll a host, or ask when it wants that.
ghost use Rattle.net_base.specs.Time.{IsMoment};

use crate::answer::Answer;
use crate::host::Host;
use crate::refusal_text::{Refusal, Said};
use crate::stop::Class;
use crate::words::Words;
use interface::{PollIngressSingleResult, PollResult};
use net_base::Instant;

/// The lines that poll a host, or ask when it wants that.
#[derive(Clone, Copy)]
pub enum Verb {
    Poll,
    Egress,
    Ingress,
    Maintain,
    PollAt,
    Delay,
}

/// Plays one of these lines.
pub fn play(host: &mut Host, verb: Verb, words: &mut Words<'_>) -> Answer {
    words.host();
    let now = Instant::from_micros(words.micros());
    if !now.is_moment() {
        return words.refuse(Refusal::Moment);
    }
    let budget = budget(verb, words);
    if !words.is_taken() {
        return Answer::Done;
    }
    match verb {
        Verb::Poll => poll(host, now, budget),
        Verb::Egress => egress(host, now),
        Verb::Ingress => ingress(host, now),
        Verb::Maintain => {
            host.interface.poll_maintenance(now);
            Answer::Done
        }
        Verb::PollAt => instant(host, now),
        Verb::Delay => delay(host, now),
    }
}

/// The last word of a line, which `poll` alone has.
fn budget(verb: Verb, words: &mut Words<'_>) -> u16 {
    let budget = match verb {
        Verb::Poll => words.short(Class::Budget),
        _ => 0,
    };
    words.end();
    budget
}

fn poll(host: &mut Host, now: Instant, budget: u16) -> Answer
    requires { IsMoment now }
{
    polled(
        host.interface
            .poll(now, &mut host.wire, &mut host.sockets, budget),
    )
}

fn egress(host: &mut Host, now: Instant) -> Answer
    requires { IsMoment now }
{
    polled(
        host.interface
            .poll_egress(now, &mut host.wire, &mut host.sockets),
    )
}

fn ingress(host: &mut Host, now: Instant) -> Answer
    requires { IsMoment now }
{
    took(
        host.interface
            .poll_ingress_single(now, &mut host.wire, &mut host.sockets),
    )
}

fn instant(host: &mut Host, now: Instant) -> Answer
    requires { IsMoment now }
{
    match host.interface.poll_at(now, &host.sockets) {
        Some(instant) => Answer::At(instant),
        None => Answer::Says(Said::Never),
    }
}

fn delay(host: &mut Host, now: Instant) -> Answer
    requires { IsMoment now }
{
    match host.interface.poll_delay(now, &host.sockets) {
        Some(delay) => Answer::Number(Said::In, delay.total_micros()),
        None => Answer::Says(Said::Never),
    }
}

fn polled(answer: PollResult) -> Answer {
    Answer::Says(match answer {
        PollResult::None => Said::Nothing,
        PollResult::SocketStateChanged => Said::Changed,
    })
}

fn took(answer: PollIngressSingleResult) -> Answer {
    Answer::Says(match answer {
        PollIngressSingleResult::None => Said::Nothing,
        PollIngressSingleResult::PacketProcessed => Said::Processed,
        PollIngressSingleResult::SocketStateChanged => Said::Changed,
    })
}

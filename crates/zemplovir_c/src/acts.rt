//! Calls of sockets that answer nothing but whether they were done.
ghost use Rattle.std.specs.Prelude.{◌≡◌};
ghost use Rattle.sockets.specs.AnySocket.{as_tcp, as_udp, as_icmp};
ghost use Rattle.sockets.specs.declared.socket.Socket.TheVariants as Kind;
ghost use Rattle.c_calls.specs.Slots.{answer_at, after_at};
ghost use Rattle.c_calls.specs.Streams as Streams;
ghost use Rattle.c_calls.specs.Datagrams as Datagrams;
ghost use Rattle.c_calls.specs.Controls as Controls;
ghost use Rattle.zemplovir_c.specs.Answers.{answer_by, after_by};

use crate::answers::{NO_HOST, done};
use crate::handle::Handle;
use c_calls::{control, datagrams, streams};
use std::alloc::Global;

/// A call of a TCP socket that answers nothing but whether it was done.
pub(crate) fn tcp_act(alloc: Global, handle: &mut Handle, socket: usize, act: streams::Act) -> u32
    ensures answer { result ≡ answer_by handle.old.inside (λ host. answer_at as_tcp (Streams.act_answer act) host.slots socket) }
    ensures after { handle.new.inside ≡
        after_by handle.old.inside (λ host. record host { slots = after_at as_tcp Kind.Tcp (Streams.act_after act) host.slots socket }) }
{
    let Some(mut host) = handle.take(alloc) else {
        return NO_HOST;
    };
    let answer = host.tcp_act(socket, act);
    handle.put(host);
    done(answer)
}

/// A call of a UDP socket that answers nothing but whether it was done.
pub(crate) fn udp_act(alloc: Global, handle: &mut Handle, socket: usize, act: datagrams::Act) -> u32
    ensures answer { result ≡ answer_by handle.old.inside (λ host. answer_at as_udp (Datagrams.act_answer act) host.slots socket) }
    ensures after { handle.new.inside ≡
        after_by handle.old.inside (λ host. record host { slots = after_at as_udp Kind.Udp (Datagrams.act_after act) host.slots socket }) }
{
    let Some(mut host) = handle.take(alloc) else {
        return NO_HOST;
    };
    let answer = host.udp_act(socket, act);
    handle.put(host);
    done(answer)
}

/// A call of an ICMP socket that answers nothing but whether it was done.
pub(crate) fn icmp_act(alloc: Global, handle: &mut Handle, socket: usize, act: control::Act) -> u32
    ensures answer { result ≡ answer_by handle.old.inside (λ host. answer_at as_icmp (Controls.act_answer act) host.slots socket) }
    ensures after { handle.new.inside ≡
        after_by handle.old.inside (λ host. record host { slots = after_at as_icmp Kind.Icmp (Controls.act_after act) host.slots socket }) }
{
    let Some(mut host) = handle.take(alloc) else {
        return NO_HOST;
    };
    let answer = host.icmp_act(socket, act);
    handle.put(host);
    done(answer)
}

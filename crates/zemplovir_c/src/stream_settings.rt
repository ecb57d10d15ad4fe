//! Settings of TCP sockets.
ghost use Rattle.std.specs.Prelude.{◌≡◌};
ghost use Rattle.sockets.specs.AnySocket.{as_tcp};
ghost use Rattle.sockets.specs.declared.socket.Socket.TheVariants as Kind;
ghost use Rattle.c_calls.specs.Slots.{answer_at, after_at};
ghost use Rattle.c_calls.specs.Streams.{act_answer, act_after};
ghost use Rattle.c_calls.specs.declared.streams.Act.TheVariants as To;
ghost use Rattle.zemplovir_c.specs.Answers.{answer_by, after_by};
ghost use Rattle.zemplovir_c.specs.Values.{duration_of, is_on, byte_or_none, control_of, generator_of};

use crate::acts::tcp_act;
use crate::handle::Handle;
use c_calls::streams::Act;
use ip_wire::TcpTimestampGenerator;
use net_base::Duration;
use sockets::tcp::CongestionControl;
use std::alloc::Global;

/// 0 for no.
fn is_on(number: u8) -> bool
    ensures { result ≡ is_on number }
{
    number != 0
}

/// The number of CUBIC's congestion control.
const CUBIC: u8 = 2;

fn control_of(number: u8) -> CongestionControl
    ensures { result ≡ control_of number }
{
    if number == CUBIC {
        CongestionControl::Cubic
    } else if is_on(number) {
        CongestionControl::Reno
    } else {
        CongestionControl::None
    }
}

fn generator_of(number: u8, first: u32) -> Option<TcpTimestampGenerator>
    ensures { result ≡ generator_of number first }
{
    if is_on(number) {
        Some(TcpTimestampGenerator(first))
    } else {
        None
    }
}

/// So many microseconds, or none where it is the largest number.
fn duration_of(micros: u64) -> Option<Duration>
    ensures { result ≡ duration_of micros }
{
    if micros == u64::MAX {
        None
    } else {
        Some(Duration::from_micros(micros))
    }
}

/// The number, or none where it is above 255.
fn byte_or_none(number: u16) -> Option<u8>
    ensures { result ≡ byte_or_none number }
{
    u8::try_from(number).ok()
}

/// How long the remote may be silent while something waits for it, the largest number for ever.
#[unsafe(no_mangle)]
pub extern "C" fn zv_tcp_set_timeout(
    alloc: Global,
    handle: &mut Handle,
    socket: usize,
    micros: u64,
) -> u32
    ensures answer { result ≡ answer_by handle.old.inside (λ host. answer_at as_tcp (act_answer (To.Timeout (duration_of micros))) host.slots socket) }
    ensures after { handle.new.inside ≡
        after_by handle.old.inside
        (λ host. record host { slots = after_at as_tcp Kind.Tcp (act_after (To.Timeout (duration_of micros))) host.slots socket }) }
{
    tcp_act(alloc, handle, socket, Act::Timeout(duration_of(micros)))
}

/// The interval of keep-alives, the largest number for none.
#[unsafe(no_mangle)]
pub extern "C" fn zv_tcp_set_keep_alive(
    alloc: Global,
    handle: &mut Handle,
    socket: usize,
    micros: u64,
) -> u32
    ensures answer { result ≡ answer_by handle.old.inside (λ host. answer_at as_tcp (act_answer (To.KeepAlive (duration_of micros))) host.slots socket) }
    ensures after { handle.new.inside ≡
        after_by handle.old.inside
        (λ host. record host { slots = after_at as_tcp Kind.Tcp (act_after (To.KeepAlive (duration_of micros))) host.slots socket }) }
{
    tcp_act(alloc, handle, socket, Act::KeepAlive(duration_of(micros)))
}

/// The delay of an acknowledgement, the largest number for none.
#[unsafe(no_mangle)]
pub extern "C" fn zv_tcp_set_ack_delay(
    alloc: Global,
    handle: &mut Handle,
    socket: usize,
    micros: u64,
) -> u32
    ensures answer { result ≡ answer_by handle.old.inside (λ host. answer_at as_tcp (act_answer (To.AckDelay (duration_of micros))) host.slots socket) }
    ensures after { handle.new.inside ≡
        after_by handle.old.inside
        (λ host. record host { slots = after_at as_tcp Kind.Tcp (act_after (To.AckDelay (duration_of micros))) host.slots socket }) }
{
    tcp_act(alloc, handle, socket, Act::AckDelay(duration_of(micros)))
}

/// How long a segment waits for its acknowledgement at least until it goes again.
#[unsafe(no_mangle)]
pub extern "C" fn zv_tcp_set_min_rto(
    alloc: Global,
    handle: &mut Handle,
    socket: usize,
    micros: u64,
) -> u32
    ensures answer { result ≡ answer_by handle.old.inside (λ host. answer_at as_tcp (act_answer (To.MinRto micros)) host.slots socket) }
    ensures after { handle.new.inside ≡
        after_by handle.old.inside (λ host. record host { slots = after_at as_tcp Kind.Tcp (act_after (To.MinRto micros)) host.slots socket }) }
{
    let least = Duration::from_micros(micros);
    tcp_act(alloc, handle, socket, Act::MinRto(least))
}

/// Whether round trips are taken in microseconds.
#[unsafe(no_mangle)]
pub extern "C" fn zv_tcp_set_fine_timer(
    alloc: Global,
    handle: &mut Handle,
    socket: usize,
    enabled: u8,
) -> u32
    ensures answer { result ≡ answer_by handle.old.inside (λ host. answer_at as_tcp (act_answer (To.FineTimer (is_on enabled))) host.slots socket) }
    ensures after { handle.new.inside ≡
        after_by handle.old.inside
        (λ host. record host { slots = after_at as_tcp Kind.Tcp (act_after (To.FineTimer (is_on enabled))) host.slots socket }) }
{
    tcp_act(alloc, handle, socket, Act::FineTimer(is_on(enabled)))
}

/// Whether small segments wait while others are in flight.
#[unsafe(no_mangle)]
pub extern "C" fn zv_tcp_set_nagle(
    alloc: Global,
    handle: &mut Handle,
    socket: usize,
    enabled: u8,
) -> u32
    ensures answer { result ≡ answer_by handle.old.inside (λ host. answer_at as_tcp (act_answer (To.Nagle (is_on enabled))) host.slots socket) }
    ensures after { handle.new.inside ≡
        after_by handle.old.inside (λ host. record host { slots = after_at as_tcp Kind.Tcp (act_after (To.Nagle (is_on enabled))) host.slots socket }) }
{
    tcp_act(alloc, handle, socket, Act::Nagle(is_on(enabled)))
}

/// The hop limit, 0 for 64.
#[unsafe(no_mangle)]
pub extern "C" fn zv_tcp_set_hop_limit(
    alloc: Global,
    handle: &mut Handle,
    socket: usize,
    limit: u8,
) -> u32
    ensures answer { result ≡ answer_by handle.old.inside (λ host. answer_at as_tcp (act_answer (To.HopLimit limit)) host.slots socket) }
    ensures after { handle.new.inside ≡
        after_by handle.old.inside (λ host. record host { slots = after_at as_tcp Kind.Tcp (act_after (To.HopLimit limit)) host.slots socket }) }
{
    tcp_act(alloc, handle, socket, Act::HopLimit(limit))
}

/// After how many timeouts without an answer the connection gives up, above 255 for never.
#[unsafe(no_mangle)]
pub extern "C" fn zv_tcp_set_retries(
    alloc: Global,
    handle: &mut Handle,
    socket: usize,
    limit: u16,
) -> u32
    ensures answer { result ≡ answer_by handle.old.inside (λ host. answer_at as_tcp (act_answer (To.Retries (byte_or_none limit))) host.slots socket) }
    ensures after { handle.new.inside ≡
        after_by handle.old.inside
        (λ host. record host { slots = after_at as_tcp Kind.Tcp (act_after (To.Retries (byte_or_none limit))) host.slots socket }) }
{
    tcp_act(alloc, handle, socket, Act::Retries(byte_or_none(limit)))
}

/// How what is sent is held back where congestion may be.
#[unsafe(no_mangle)]
pub extern "C" fn zv_tcp_set_congestion_control(
    alloc: Global,
    handle: &mut Handle,
    socket: usize,
    control: u8,
) -> u32
    ensures answer { result ≡ answer_by handle.old.inside (λ host. answer_at as_tcp (act_answer (To.Congestion (control_of control))) host.slots socket) }
    ensures after { handle.new.inside ≡
        after_by handle.old.inside
        (λ host. record host { slots = after_at as_tcp Kind.Tcp (act_after (To.Congestion (control_of control))) host.slots socket }) }
{
    tcp_act(alloc, handle, socket, Act::Congestion(control_of(control)))
}

/// Whether segments carry timestamps, which begin with this number.
#[unsafe(no_mangle)]
pub extern "C" fn zv_tcp_set_timestamps(
    alloc: Global,
    handle: &mut Handle,
    socket: usize,
    enabled: u8,
    first: u32,
) -> u32
    ensures answer { result ≡
        answer_by handle.old.inside (λ host. answer_at as_tcp (act_answer (To.Timestamps (generator_of enabled first))) host.slots socket) }
    ensures after { handle.new.inside ≡
        after_by handle.old.inside
        (λ host. record host { slots = after_at as_tcp Kind.Tcp (act_after (To.Timestamps (generator_of enabled first))) host.slots socket }) }
{
    tcp_act(
        alloc,
        handle,
        socket,
        Act::Timestamps(generator_of(enabled, first)),
    )
}

/// Whether the answer to a SYN waits.
#[unsafe(no_mangle)]
pub extern "C" fn zv_tcp_pause_synack(
    alloc: Global,
    handle: &mut Handle,
    socket: usize,
    paused: u8,
) -> u32
    ensures answer { result ≡ answer_by handle.old.inside (λ host. answer_at as_tcp (act_answer (To.PauseSynack (is_on paused))) host.slots socket) }
    ensures after { handle.new.inside ≡
        after_by handle.old.inside (λ host. record host { slots = after_at as_tcp Kind.Tcp (act_after (To.PauseSynack (is_on paused))) host.slots socket }) }
{
    tcp_act(alloc, handle, socket, Act::PauseSynack(is_on(paused)))
}

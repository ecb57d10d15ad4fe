//! Hosts, frames and polls.
ghost use Rattle.std.specs.Prelude.{◌≡◌, length, None, Ok};
ghost use Rattle.c_calls.specs.Link.{fetch_answer, fetched, next_len};
ghost use Rattle.c_calls.specs.Codes.{coded};
ghost use Rattle.c_calls.specs.Calls.{fetched_from, or_empty, TakesFrame, PollsAt, AsksAt};
ghost use Rattle.c_calls.specs.Codes.{of_fetch};
ghost use Rattle.c_calls.specs.Backlogs.{may_be_removed, removed_by};
ghost use Rattle.c_calls.specs.Numbers.{is_some_socket, socket_named, user_at, with_user_at};
ghost use Rattle.zemplovir_c.specs.Answers.{all_done, answer_by, after_by, given_by, written_by, mapped, Acts, Gives, As};
ghost use Rattle.zemplovir_c.specs.Hosts.{NewBoxed, NewHandle, unboxed};
ghost use Rattle.zemplovir_c.specs.Values.{hardware_in, key_in, settings_in, bit, instant_or_never, counters_out};

use crate::answers::{NO_HOST, OK, done, given};
use crate::handle::Handle;
use crate::types::{Counters, Settings, User};
use c_calls::{Code, Host};
use ip_wire::EthernetAddress;
use net_base::Instant;
use std::alloc::Global;

/// The medium of Ethernet frames.
const ETHERNET: u8 = 1;

/// The medium of IP packets with nothing before them.
const IP: u8 = 2;

fn hardware_in(settings: &Settings) -> Result<Option<EthernetAddress>, Code>
    ensures { result ≡ hardware_in settings.now }
{
    match settings.medium {
        ETHERNET => {
            let hardware = settings.hardware;
            Ok(Some(EthernetAddress(hardware)))
        }
        IP => Ok(None),
        _ => Err(Code::BadArgument),
    }
}

fn key_in(settings: &Settings) -> Option<[u8; 16]>
    ensures { result ≡ key_in settings.now }
{
    if settings.keyed == 0 {
        None
    } else {
        let key = settings.isn_key;
        Some(key)
    }
}

fn settings_in(settings: &Settings) -> Result<c_calls::Settings, Code>
    ensures { result ≡ settings_in settings.now }
{
    match hardware_in(settings) {
        Ok(hardware) => Ok(c_calls::Settings {
            hardware,
            mtu: settings.mtu,
            seed: settings.seed,
            isn_key: key_in(settings),
            frames: settings.frames,
            host_requirements: settings.without_host_requirements == 0,
            multicast_reports: settings.without_multicast_reports == 0,
        }),
        Err(code) => Err(code),
    }
}

fn boxed(alloc: Global, settings: &c_calls::Settings, now: i64) -> Result<Box<Host>, Code>
    ensures { NewBoxed settings.now now (unboxed result) }
{
    match Host::new(alloc, settings, Instant::from_micros(now)) {
        Ok(host) => match Box::new(alloc, host) {
            Ok(host) => Ok(host),
            Err(_) => Err(Code::Memory),
        },
        Err(code) => Err(code),
    }
}

/// Makes a host after an empty handle.
#[unsafe(no_mangle)]
pub extern "C" fn zv_host_new(
    alloc: Global,
    handle: &mut Handle,
    settings: &Settings,
    now: i64,
) -> u32
    ensures { NewHandle handle.old.inside (settings_in settings.now) now result handle.new.inside }
{
    if let Some(host) = handle.take(alloc) {
        handle.put(host);
        return Code::HasHost.number();
    }
    let settings = match settings_in(settings) {
        Ok(settings) => settings,
        Err(code) => return code.number(),
    };
    match boxed(alloc, &settings, now) {
        Ok(host) => {
            handle.put(host);
            OK
        }
        Err(code) => code.number(),
    }
}

/// Gives all memory of the host back. The handle is empty then.
#[unsafe(no_mangle)]
pub extern "C" fn zv_host_free(alloc: Global, handle: &mut Handle) -> u32
    ensures answer { result ≡ answer_by handle.old.inside (λ host. all_done) }
    ensures empty { handle.new.inside ≡ None }
{
    match handle.take(alloc) {
        Some(_) => OK,
        None => NO_HOST,
    }
}

/// A frame comes, and waits for a poll.
#[unsafe(no_mangle)]
pub extern "C" fn zv_frame_in(alloc: Global, handle: &mut Handle, frame: &[u8]) -> u32
    ensures { Acts (TakesFrame frame.now) handle.old.inside result handle.new.inside }
{
    let Some(mut host) = handle.take(alloc) else {
        return NO_HOST;
    };
    let answer = host.frame_in(frame);
    handle.put(host);
    done(answer)
}

/// Copies the first frame that is to go. Where the buffer is too short it stays.
#[unsafe(no_mangle)]
pub extern "C" fn zv_frame_out(
    alloc: Global,
    handle: &mut Handle,
    frame: &mut [u8],
    count: &mut usize,
) -> u32
    ensures answer { result ≡ answer_by handle.old.inside (λ host. coded of_fetch (fetch_answer host.link.sent (length frame.old))) }
    ensures after { handle.new.inside ≡ after_by handle.old.inside (λ host. fetched_from host (length frame.old)) }
    ensures count { count.new ≡ given_by handle.old.inside (λ host. coded of_fetch (fetch_answer host.link.sent (length frame.old))) count.old }
    ensures bytes { frame.new ≡ written_by handle.old.inside (λ host. fetched host.link.sent frame.old) frame.old }
{
    let Some(mut host) = handle.take(alloc) else {
        return NO_HOST;
    };
    let answer = host.frame_out(frame);
    handle.put(host);
    given(answer, count)
}

/// How many bytes the first frame has that is to go.
#[unsafe(no_mangle)]
pub extern "C" fn zv_frame_out_length(alloc: Global, handle: &mut Handle, count: &mut usize) -> u32
    ensures answer { result ≡ answer_by handle.old.inside (λ host. or_empty (next_len host.link.sent)) }
    ensures after { handle.new.inside ≡ handle.old.inside }
    ensures count { count.new ≡ given_by handle.old.inside (λ host. or_empty (next_len host.link.sent)) count.old }
{
    let Some(host) = handle.take(alloc) else {
        return NO_HOST;
    };
    let answer = host.frame_out_len();
    handle.put(host);
    given(answer, count)
}

fn bit_in(answer: Result<bool, Code>) -> Result<u8, Code>
    ensures { result ≡ mapped bit answer }
{
    match answer {
        Ok(true) => Ok(1),
        Ok(false) => Ok(0),
        Err(code) => Err(code),
    }
}

/// Takes in what came and sends what is to be sent, each at most so many times. Then each listener sees to its backlog.
#[unsafe(no_mangle)]
pub extern "C" fn zv_poll(
    alloc: Global,
    handle: &mut Handle,
    now: i64,
    budget: u16,
    changed: &mut u8,
) -> u32
    ensures { Gives (As bit (PollsAt now budget)) handle.old.inside result changed.old changed.new handle.new.inside }
{
    let Some(mut host) = handle.take(alloc) else {
        return NO_HOST;
    };
    let answer = bit_in(host.poll(Instant::from_micros(now), budget));
    handle.put(host);
    given(answer, changed)
}

fn instant_in(answer: Result<Option<Instant>, Code>) -> Result<i64, Code>
    ensures { result ≡ mapped instant_or_never answer }
{
    match answer {
        Ok(Some(instant)) => Ok(instant.total_micros()),
        Ok(None) => Ok(i64::MAX),
        Err(code) => Err(code),
    }
}

/// When the host wants to be polled, the largest number for never.
#[unsafe(no_mangle)]
pub extern "C" fn zv_poll_at(alloc: Global, handle: &mut Handle, now: i64, at: &mut i64) -> u32
    ensures { Gives (As instant_or_never (AsksAt now)) handle.old.inside result at.old at.new handle.new.inside }
{
    let Some(mut host) = handle.take(alloc) else {
        return NO_HOST;
    };
    let answer = instant_in(host.poll_at(Instant::from_micros(now)));
    handle.put(host);
    given(answer, at)
}

/// What the host has counted.
#[unsafe(no_mangle)]
pub extern "C" fn zv_counters(alloc: Global, handle: &mut Handle, counters: &mut Counters) -> u32
    ensures answer { result ≡ answer_by handle.old.inside (λ host. all_done) }
    ensures after { handle.new.inside ≡ handle.old.inside }
    ensures counters { counters.new ≡ given_by handle.old.inside (λ host. Ok (counters_out host.counters)) counters.old }
{
    let Some(host) = handle.take(alloc) else {
        return NO_HOST;
    };
    let counted = host.counters();
    handle.put(host);
    *counters = Counters {
        frames_in: counted.frames_in,
        frames_dropped: counted.frames_dropped,
        frames_out: counted.frames_out,
        polls: counted.polls,
    };
    OK
}

/// Gives the memory of the socket back. Its number names nothing then.
#[unsafe(no_mangle)]
pub extern "C" fn zv_socket_remove(alloc: Global, handle: &mut Handle, socket: usize) -> u32
    ensures answer { result ≡ answer_by handle.old.inside (λ host. may_be_removed host socket) }
    ensures after { handle.new.inside ≡ after_by handle.old.inside (λ host. removed_by (may_be_removed host socket) host socket) }
{
    let Some(mut host) = handle.take(alloc) else {
        return NO_HOST;
    };
    let answer = host.remove(socket);
    handle.put(host);
    done(answer)
}

/// Sets what the user has at the socket. It is never read.
#[unsafe(no_mangle)]
pub extern "C" fn zv_socket_set_user(
    alloc: Global,
    handle: &mut Handle,
    socket: usize,
    user: User,
) -> u32
    ensures answer { result ≡ answer_by handle.old.inside (λ host. is_some_socket (socket_named host.slots socket)) }
    ensures after { handle.new.inside ≡ after_by handle.old.inside (λ host. record host { slots = with_user_at host.slots socket user }) }
{
    let Some(mut host) = handle.take(alloc) else {
        return NO_HOST;
    };
    let answer = host.socket_set_user(socket, user);
    handle.put(host);
    done(answer)
}

/// What the user set at the socket, 0 before.
#[unsafe(no_mangle)]
pub extern "C" fn zv_socket_user(
    alloc: Global,
    handle: &mut Handle,
    socket: usize,
    user: &mut User,
) -> u32
    ensures answer { result ≡ answer_by handle.old.inside (λ host. user_at host.slots socket) }
    ensures after { handle.new.inside ≡ handle.old.inside }
    ensures user { user.new ≡ given_by handle.old.inside (λ host. user_at host.slots socket) user.old }
{
    let Some(host) = handle.take(alloc) else {
        return NO_HOST;
    };
    let answer = host.socket_user(socket);
    handle.put(host);
    given(answer, user)
}

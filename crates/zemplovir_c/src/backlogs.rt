//! Listeners with a backlog.
ghost use Rattle.std.specs.Prelude.{◌≡◌};
ghost use Rattle.c_calls.specs.Backlogs.{MakesListener, is_there, without_listener, listener_at, Takes, HasEntry, HasKeeper, AcceptsFrom, GivesBack};
ghost use Rattle.zemplovir_c.specs.Answers.{answer_by, after_by, Acts, Gives, Where};
ghost use Rattle.zemplovir_c.specs.Values.{optional_in, listens_at};

use crate::answers::{NO_HOST, done, given};
use crate::handle::Handle;
use crate::types::{Address, listens_at, optional};
use std::alloc::Global;

/// Makes a listener without sockets at a port, of one own address or, where the family is 0, of any.
#[unsafe(no_mangle)]
pub extern "C" fn zv_listener_new(
    alloc: Global,
    handle: &mut Handle,
    address: &Address,
    port: u16,
    listener: &mut usize,
) -> u32
    ensures { Where (optional_in address.now) result ((listener.new ≡ listener.old) × (handle.new.inside ≡ handle.old.inside))
        (λ at. Gives (MakesListener (listens_at at port)) handle.old.inside result listener.old listener.new handle.new.inside) }
{
    let address = match optional(address) {
        Ok(address) => address,
        Err(code) => return code.number(),
    };
    let Some(mut host) = handle.take(alloc) else {
        return NO_HOST;
    };
    let answer = host.listener_new(listens_at(address, port));
    handle.put(host);
    given(answer, listener)
}

/// Takes a closed socket into the backlog of a listener. It listens once the host is polled.
#[unsafe(no_mangle)]
pub extern "C" fn zv_listener_add(
    alloc: Global,
    handle: &mut Handle,
    listener: usize,
    socket: usize,
) -> u32
    ensures { Acts (λ host answer left. Takes (HasEntry socket) host listener socket answer left) handle.old.inside result handle.new.inside }
{
    let Some(mut host) = handle.take(alloc) else {
        return NO_HOST;
    };
    let answer = host.listener_add(listener, socket);
    handle.put(host);
    done(answer)
}

/// Takes a closed socket for a keeper of a listener, which drops what is beyond the backlog. It needs no room for bytes.
#[unsafe(no_mangle)]
pub extern "C" fn zv_listener_add_keeper(
    alloc: Global,
    handle: &mut Handle,
    listener: usize,
    socket: usize,
) -> u32
    ensures { Acts (λ host answer left. Takes (HasKeeper socket) host listener socket answer left) handle.old.inside result handle.new.inside }
{
    let Some(mut host) = handle.take(alloc) else {
        return NO_HOST;
    };
    let answer = host.listener_add_keeper(listener, socket);
    handle.put(host);
    done(answer)
}

/// The socket whose connection has waited for longest. It is its user's until it is given back.
#[unsafe(no_mangle)]
pub extern "C" fn zv_listener_accept(
    alloc: Global,
    handle: &mut Handle,
    listener: usize,
    socket: &mut usize,
) -> u32
    ensures { Gives (λ host answer left. AcceptsFrom host listener answer left) handle.old.inside result socket.old socket.new handle.new.inside }
{
    let Some(mut host) = handle.take(alloc) else {
        return NO_HOST;
    };
    let answer = host.listener_accept(listener);
    handle.put(host);
    given(answer, socket)
}

/// Takes an accepted socket back, which its user closed or aborted. It listens again when its connection has ended.
#[unsafe(no_mangle)]
pub extern "C" fn zv_listener_give_back(
    alloc: Global,
    handle: &mut Handle,
    listener: usize,
    socket: usize,
) -> u32
    ensures { Acts (λ host answer left. GivesBack host listener socket answer left) handle.old.inside result handle.new.inside }
{
    let Some(mut host) = handle.take(alloc) else {
        return NO_HOST;
    };
    let answer = host.listener_give_back(listener, socket);
    handle.put(host);
    done(answer)
}

/// Gives a listener up. Its sockets stay as they are.
#[unsafe(no_mangle)]
pub extern "C" fn zv_listener_remove(alloc: Global, handle: &mut Handle, listener: usize) -> u32
    ensures answer { result ≡ answer_by handle.old.inside (λ host. is_there (listener_at host.listeners listener)) }
    ensures after { handle.new.inside ≡ after_by handle.old.inside (λ host. without_listener (listener_at host.listeners listener) host listener) }
{
    let Some(mut host) = handle.take(alloc) else {
        return NO_HOST;
    };
    let answer = host.listener_remove(listener);
    handle.put(host);
    done(answer)
}

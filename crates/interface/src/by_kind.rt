//! The sockets of a set by their kinds.
ghost use Rattle.std.specs.Prelude.{◌≡◌, option_and_then};
ghost use Rattle.std.specs.Borrow.{sem};
ghost use Rattle.std.specs.Option.{option_copied, option_copied_mut};
ghost use Rattle.interface.specs.Set.{slots, is_fixed, free_slot, socket_at};
ghost use Rattle.interface.specs.ByKind.{AddsKind, LendsKind, without};

use iface_egress::{AddError, SocketHandle, SocketSet};
use iface_ingress::{AnySocket, Socket};

/// Asks a set for a socket of some kind, as `sockets.get_mut_as::<udp::Socket>(handle)`, and adds one, as `sockets.add_as(udp_socket)`.
pub trait SocketsByKind {
    /// Puts a socket, in memory of its own, into the first free slot, or after the others where the storage grows.
    fn add_as<K: AnySocket + Drop>(&mut self, socket: K) -> Result<SocketHandle, AddError<K>>;

    /// The socket of this handle, if it is of this kind.
    fn get_as<K: AnySocket>(&self, handle: SocketHandle) -> Option<&K>;

    /// Lends the socket of this handle, if it is of this kind. Its mark, and what the other slots hold, stay as they are.
    fn get_mut_as<K: AnySocket>(&mut self, handle: SocketHandle) -> Option<&mut K>;

    /// Takes the socket of this handle out, if it is of this kind.
    fn remove_as<K: AnySocket + Drop>(&mut self, handle: SocketHandle) -> Option<K>;
}

impl SocketsByKind for SocketSet<Socket> {
    fn add_as<K: AnySocket + Drop>(&mut self, socket: K) -> Result<SocketHandle, AddError<K>>
        ensures added { AddsKind K.upcast_of (free_slot (slots self.old)) (is_fixed self.old) (slots self.old) socket result (slots self.new) }
        ensures fixed { is_fixed self.new ≡ is_fixed self.old }
    {
        if self.is_full() {
            return Err(AddError::Full(socket));
        }
        let socket = match socket.upcast(self.allocator()) {
            Ok(socket) => socket,
            Err(failed) => return Err(AddError::Memory(failed.value)),
        };
        match self.add(socket) {
            Ok(handle) => Ok(handle),
            Err(AddError::Full(socket) | AddError::Memory(socket)) => match K::take(socket) {
                Ok(socket) => Err(AddError::Memory(socket)),
                Err(_) => unreachable!(),
            },
        }
    }

    fn get_as<K: AnySocket>(&self, handle: SocketHandle) -> Option<&K>
        ensures { option_copied result ≡ option_and_then K.downcast_of (socket_at (slots self.now) handle.0) }
    {
        K::downcast(self.get(handle)?)
    }

    fn get_mut_as<K: AnySocket>(&mut self, handle: SocketHandle) -> Option<&mut K>
        ensures* lends { sem 𝓛 (LendsKind K.row K.upcast_of self.entry self.old handle.0 result) }
        ensures value { option_copied_mut result ≡ option_and_then K.downcast_of (socket_at (slots self.old) handle.0) }
    {
        K::downcast_mut(self.get_mut(handle)?)
    }

    fn remove_as<K: AnySocket + Drop>(&mut self, handle: SocketHandle) -> Option<K>
        ensures value { result ≡ option_and_then K.downcast_of (socket_at (slots self.old) handle.0) }
        ensures after { slots self.new ≡ without result (slots self.old) handle.0 }
        ensures fixed { is_fixed self.new ≡ is_fixed self.old }
    {
        if self.get_as::<K>(handle).is_none() {
            return None;
        }
        match K::take(self.remove(handle)?) {
            Ok(socket) => Some(socket),
            Err(_) => unreachable!(),
        }
    }
}

//! The socket of a kind, by its number.
ghost use Rattle.std.specs.Prelude.{◌≡◌, Ok, Err, MatchResult};
ghost use Rattle.std.specs.Borrow.{sem};
ghost use Rattle.c_calls.specs.BorrowEnds.{LendsKind};
ghost use Rattle.c_calls.specs.Slots.{found_at};

use crate::code::Code;
use crate::slots::Slots;
use sockets::AnySocket;

/// The socket of this number, if it is of this kind.
pub(crate) fn seen<K: AnySocket>(sockets: &Slots, number: usize) -> Result<&K, Code>
    ensures { MatchResult result
        (λ socket. found_at K.downcast_of sockets.now number ≡ Ok socket.now)
        (λ code. found_at K.downcast_of sockets.now number ≡ Err code) }
{
    match sockets.get(number) {
        Some(socket) => match K::downcast(socket) {
            Some(socket) => Ok(socket),
            None => Err(Code::WrongKind),
        },
        None => Err(Code::NoSocket),
    }
}

/// Lends the socket of this number, if it is of this kind. What the other slots hold stays as it is.
pub(crate) fn lent<K: AnySocket>(sockets: &mut Slots, number: usize) -> Result<&mut K, Code>
    ensures* lends { sem 𝓛 (LendsKind K.row K.upcast_of sockets.entry sockets.old number result) }
    ensures value { MatchResult result
        (λ socket. found_at K.downcast_of sockets.old number ≡ Ok socket.now)
        (λ code. found_at K.downcast_of sockets.old number ≡ Err code) }
{
    match sockets.get_mut(number) {
        Some(socket) => match K::downcast_mut(socket) {
            Some(socket) => {
                return Ok(socket);
            }
            None => {
                return Err(Code::WrongKind);
            }
        },
        None => {
            return Err(Code::NoSocket);
        }
    }
}

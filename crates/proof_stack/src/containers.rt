//! Containers of `net_base`: what a refusal means and leaves, as a caller sees it.
ghost use Rattle.std.specs.Prelude.{◌≡◌, ◌↔◌, ◌+◌, ◌<◌, ◌^◌, ◌++◌, [], length, take, drop, List, ℕ, Some, IsTrue, IsErr, IfOk, OnOk, OnErr};
ghost use Rattle.net_base.specs.Assembler.{added, front, without_front};
ghost use Rattle.net_base.specs.Packets.{is_full_for, appended, first, without_first};

use net_base::{Assembler, Empty, Full, PacketBuffer, TooManyHolesError};

/// Law: a packet is refused exactly where there is no room for it, and then nothing has changed.
pub fn packet_queued(queue: &mut PacketBuffer<u8>, header: u8, bytes: &[u8]) -> Result<(), Full>
    ensures full { IsErr result ↔ IsTrue (is_full_for queue.old (length bytes.now)) }
    ensures refused { OnErr result (queue.new ≡ queue.old) }
    ensures queued { OnOk result (queue.new ≡ appended queue.old (length bytes.now) header bytes.now) }
{
    queue.enqueue_slice(header, bytes)
}

/// Law: there is no packet to take exactly where none is queued, and then nothing has changed.
pub fn packet_taken(queue: &mut PacketBuffer<u8>, bytes: &mut [u8]) -> Result<(u8, usize), Empty>
    ensures empty { IsErr result ↔ (queue.old.packets ≡ []) }
    ensures refused { OnErr result ((queue.new ≡ queue.old) × (bytes.new ≡ bytes.old)) }
    ensures read { IfOk result (λ p. (packet : List ℕ) × (first queue.old ≡ Some (p.0, packet)) × (length packet ≡ p.1)
        × (bytes.new ≡ take (length bytes.old) packet ++ drop p.1 bytes.old)) }
    ensures rest { OnOk result (queue.new ≡ without_first queue.old) }
{
    queue.dequeue_slice(bytes)
}

/// Law: positions are refused exactly where they would make more runs than there are slots, and then nothing has changed.
pub fn positions_added(
    held: &mut Assembler<4>,
    offset: usize,
    size: usize,
) -> Result<(), TooManyHolesError>
    requires { offset + size < 2 ^ 64 }
    ensures refused { IsErr result ↔ (4 < length (added held.old offset size)) }
    ensures ok { OnOk result (held.new ≡ added held.old offset size) }
    ensures err { OnErr result (held.new ≡ held.old) }
{
    held.add(offset, size)
}

/// Law: the run at the front is given up with what was added, and with an offset of 0 nothing is refused.
pub fn front_taken(
    held: &mut Assembler<4>,
    offset: usize,
    size: usize,
) -> Result<usize, TooManyHolesError>
    requires { offset + size < 2 ^ 64 }
    ensures refused { IsErr result ↔ ((0 < offset) × (4 < length (added held.old offset size))) }
    ensures ok { IfOk result (λ n. (n ≡ front (added held.old offset size))
        × (held.new ≡ without_front (added held.old offset size))) }
    ensures err { OnErr result (held.new ≡ held.old) }
{
    held.add_then_remove_front(offset, size)
}

//! A queue of packets, each a header and unbroken bytes, in storage that is handed in.
ghost use Rattle.std.specs.Prelude.{◌≡◌, ◌≢◌, ℕ, ◌<◌, ◌≤◌, ◌↔◌, if◌then◌else◌, List, [], ◌++◌, length, take, drop, slice_get, IsTrue, IsErr, IfOk, OnOk, OnErr, MatchResult};
ghost use Rattle.std.specs.Prelude.{None, Some};
ghost use Rattle.std.specs.Borrow.{sem};
ghost use Rattle.std.specs.Fn.{FnOnceTakesAtMut, FnOnceReturnsAtMut};
ghost use Rattle.base_buffer.specs.Ring.{capacity, contiguous, anchored, extended};
ghost use Rattle.base_buffer.specs.Packets.{packets_in, used_offsets, used_room, is_full_for, padding_for, appended, unpadded, first, without_first};
ghost use Rattle.base_buffer.specs.Packets.{with_first};
ghost use Rattle.base_buffer.specs.PacketCalls.{TakesPacket, ReturnsAtPacket};
ghost use Rattle.base_buffer.specs.Entries.{entry, padding_first, padded, BeginsWithPacket};

use crate::managed::ManagedSlice;
use crate::ring_buffer::{Empty, Full, RingBuffer};
use std::marker::Model;

/// An entry of a packet queue: a packet's header and the length of its bytes, or the length of padding.
#[derive(Clone, Debug, Drop)]
pub struct PacketMetadata<H> {
    size: usize,
    header: Option<H>,
}

impl<H> PacketMetadata<H> {
    /// An entry to fill the storage of a queue with.
    pub const EMPTY: PacketMetadata<H> = PacketMetadata {
        size: 0,
        header: None,
    };

    fn padding(size: usize) -> PacketMetadata<H>
        ensures { result ≡ entry size None }
    {
        PacketMetadata { size, header: None }
    }

    fn packet(size: usize, header: H) -> PacketMetadata<H>
        ensures { result ≡ entry size (Some header) }
    {
        PacketMetadata {
            size,
            header: Some(header),
        }
    }
}

/// A queue of packets. The bytes of each lie unbroken in the storage, so padding is left where they wouldn't fit before its
/// end.
#[derive(Debug, Drop)]
pub struct PacketBuffer<H> {
    metadata: RingBuffer<PacketMetadata<H>>,
    payload: RingBuffer<u8>,
}

impl<H> Model for PacketBuffer<H> {
    ghost use Rattle.base_buffer.specs.Packets.{Packets, packets_code};

    ghost Value = { Packets H };

    ghost coded = { packets_code H.code };

    ghost use Rattle.base_buffer.specs.Entries.{packets_seen, AreEntries};

    ghost view = { λ b. packets_seen b.metadata b.payload };

    ghost invariant = { λ b. AreEntries b.metadata b.payload };
}

impl<H> PacketBuffer<H> {
    ghost use Rattle.base_buffer.specs.ManagedSlice.{storage_items};

    /// Makes a queue of storage for entries and storage for bytes.
    pub fn new(
        metadata_storage: ManagedSlice<PacketMetadata<H>>,
        payload_storage: ManagedSlice<u8>,
    ) -> PacketBuffer<H>
        ensures { result ≡ packets_in [] 0 (length (storage_items metadata_storage)) (length (storage_items payload_storage)) }
    {
        PacketBuffer {
            metadata: RingBuffer::new(metadata_storage),
            payload: RingBuffer::new(payload_storage),
        }
    }

    /// Returns whether there is no entry at all.
    pub fn is_empty(&self) -> bool
        ensures { IsTrue result ↔ (self.now.packets ≡ []) }
    {
        self.metadata.is_empty()
    }

    /// Returns whether no entry is free.
    pub fn is_full(&self) -> bool
        ensures { IsTrue result ↔ (self.now.positions ≤ used_offsets self.now.packets) }
    {
        self.metadata.is_full()
    }

    /// Returns how many entries there are offsets for.
    pub fn packet_capacity(&self) -> usize
        ensures { result ≡ self.now.positions }
    {
        self.metadata.capacity()
    }

    /// Returns how many bytes there is room for.
    pub fn payload_capacity(&self) -> usize
        ensures { result ≡ self.now.room }
    {
        self.payload.capacity()
    }

    /// Returns how many bytes are taken, those of padding among them.
    pub fn payload_bytes_count(&self) -> usize
        ensures { result ≡ used_room self.now.packets }
    {
        self.payload.len()
    }

    /// Forgets every packet.
    pub fn reset(&mut self)
        ensures { self.new ≡ packets_in [] 0 self.old.positions self.old.room }
    {
        self.metadata.clear();
        self.payload.clear();
    }
}

/// Returns how many bytes can be queued before the end of the storage. An empty ring begins at the storage's first offset.
fn unbroken_window(payload: &RingBuffer<u8>) -> usize
    ensures { result ≡ contiguous (anchored payload.now) }
{
    if payload.is_empty() {
        payload.window()
    } else {
        payload.contiguous_window()
    }
}

/// Returns how many bytes of padding come first.
fn leading_padding<H>(metadata: &RingBuffer<PacketMetadata<H>>) -> usize
    ensures { result ≡ padding_first metadata.now.queue }
{
    if metadata.is_empty() {
        return 0;
    }
    match metadata.first() {
        PacketMetadata { size, header: None } => *size,
        _ => 0,
    }
}

/// Takes so many free bytes for padding, and an entry for it. An empty ring of bytes first begins at its storage's first
/// offset.
fn pad<H: Drop>(
    metadata: &mut RingBuffer<PacketMetadata<H>>,
    payload: &mut RingBuffer<u8>,
    size: usize,
)
    requires positions { 0 < size → 0 < length metadata.old.free }
    requires room { size ≤ length (anchored payload.old).free }
    ensures entries { metadata.new ≡ padded metadata.old size }
    ensures bytes { payload.new ≡ extended (anchored payload.old) size }
{
    payload.anchor();
    if size > 0 {
        metadata.push(PacketMetadata::padding(size));
        payload.enqueue_unallocated(size);
    }
}

/// Takes the first entry, a packet's, and returns the packet's header and how many bytes it has.
fn take_entry<H>(metadata: &mut RingBuffer<PacketMetadata<H>>) -> Result<(H, usize), Empty>
    requires { metadata.old.queue ≢ [] → BeginsWithPacket metadata.old.queue }
    ensures empty { IsErr result ↔ (metadata.old.queue ≡ []) }
    ensures refused { OnErr result (metadata.new ≡ metadata.old) }
    ensures first { IfOk result (λ p. slice_get metadata.old.queue 0 ≡ Some (entry p.1 (Some p.0))) }
    ensures rest { OnOk result (metadata.new.queue ≡ drop 1 metadata.old.queue) }
    ensures capacity { capacity metadata.new ≡ capacity metadata.old }
{
    let first = metadata.dequeue_one()?;
    let header = first.header.take().unwrap();
    Ok((header, first.size))
}

impl<H> PacketBuffer<H> {
    ghost use Rattle.base_buffer.specs.PacketLends.{EndsUnpadded, EndsTaken};

    /// Returns how many bytes of padding a packet of `size` bytes needs before it.
    fn padding_for(&self, size: usize) -> Result<usize, Full>
        ensures full { IsErr result ↔ IsTrue (is_full_for self.now size) }
        ensures padding { IfOk result (λ n. n ≡ padding_for self.now size) }
    {
        let window = self.payload.window();
        let unbroken = unbroken_window(&self.payload);
        if self.metadata.is_full() || window < size {
            return Err(Full);
        }
        if size <= unbroken {
            return Ok(0);
        }
        // After the padding the packet begins at the storage's first offset.
        if self.metadata.window() < 2 || window - unbroken < size {
            return Err(Full);
        }
        Ok(unbroken)
    }

    /// Queues a packet with this header and so many bytes, and lends these for writing. The contract doesn't say what the
    /// queue holds once they are written: `enqueue_slice` and `enqueue_with_infallible` do.
    pub fn enqueue(&mut self, size: usize, header: H) -> Result<&mut [u8], Full>
    where
        H: Drop,
        ensures full { IsErr result ↔ IsTrue (is_full_for self.old size) }
        ensures len { IfOk result (λ bytes. length bytes.now ≡ size) }
    {
        let padding = self.padding_for(size)?;
        pad(&mut self.metadata, &mut self.payload, padding);
        self.metadata.push(PacketMetadata::packet(size, header));
        Ok(self.payload.enqueue_many(size))
    }

    /// Queues a packet with this header and the bytes that `f` writes: it is lent `max_size` bytes, and answers how many
    /// from the first on are the packet's.
    pub fn enqueue_with_infallible<F: FnOnce(&mut [u8]) -> usize>(
        &mut self,
        max_size: usize,
        header: H,
        f: F,
    ) -> Result<usize, Full>
    where
        H: Drop,
        requires callable { (bytes : List ℕ) → length bytes ≡ max_size → FnOnceTakesAtMut F.FnOnce f bytes }
        requires within { (bytes left : List ℕ) (size : ℕ) → length bytes ≡ max_size → FnOnceReturnsAtMut F.FnOnce f bytes size left → size ≤ max_size }
        ensures full { IsErr result ↔ IsTrue (is_full_for self.old max_size) }
        ensures refused { OnErr result (self.new ≡ self.old) }
        ensures called { IfOk result (λ size. (bytes : List ℕ) × (left : List ℕ) × (length bytes ≡ max_size) × (length left ≡ max_size)
            × FnOnceReturnsAtMut F.FnOnce f bytes size left
            × (self.new ≡ appended self.old max_size header (take size left))) }
    {
        let padding = self.padding_for(max_size)?;
        pad(&mut self.metadata, &mut self.payload, padding);
        let size = f(self.payload.get_unallocated(0, max_size));
        self.payload.enqueue_unallocated(size);
        self.metadata.push(PacketMetadata::packet(size, header));
        Ok(size)
    }

    /// Queues a packet with this header and these bytes. Inlined, it lets the caller make the header where it is to lie.
    #[inline(always)]
    pub fn enqueue_slice(&mut self, header: H, data: &[u8]) -> Result<(), Full>
    where
        H: Drop,
        ensures full { IsErr result ↔ IsTrue (is_full_for self.old (length «data».now)) }
        ensures refused { OnErr result (self.new ≡ self.old) }
        ensures queued { OnOk result (self.new ≡ appended self.old (length «data».now) header «data».now) }
    {
        let size = data.len();
        let padding = self.padding_for(size)?;
        pad(&mut self.metadata, &mut self.payload, padding);
        self.metadata.push(PacketMetadata::packet(size, header));
        let bytes = self.payload.get_unallocated(0, size);
        bytes.copy_from_slice(data);
        self.payload.enqueue_unallocated(data.len());
        Ok(())
    }

    /// Queues a packet with this header and so many bytes, which `f` is lent for writing, where `f` answers that it is to be queued; else
    /// nothing changes.
    pub fn enqueue_if<F: FnOnce(&mut [u8]) -> bool>(
        &mut self,
        size: usize,
        header: H,
        f: F,
    ) -> Result<bool, Full>
    where
        H: Drop,
        requires callable { (bytes : List ℕ) → length bytes ≡ size → FnOnceTakesAtMut F.FnOnce f bytes }
        ensures full { IsErr result ↔ IsTrue (is_full_for self.old size) }
        ensures refused { OnErr result (self.new ≡ self.old) }
        ensures called { IfOk result (λ is_kept. (bytes : List ℕ) × (left : List ℕ) × (length bytes ≡ size) × (length left ≡ size)
            × FnOnceReturnsAtMut F.FnOnce f bytes is_kept left
            × (self.new ≡ (if is_kept then appended self.old size header left else self.old))) }
    {
        let padding = self.padding_for(size)?;
        let start = self.payload.start();
        self.payload.anchor();
        let is_kept = f(self.payload.get_unallocated(padding, size));
        if is_kept {
            pad(&mut self.metadata, &mut self.payload, padding);
            self.payload.enqueue_unallocated(size);
            self.metadata.push(PacketMetadata::packet(size, header));
        } else {
            self.payload.begin_at(start);
        }
        Ok(is_kept)
    }

    /// Gives up the padding before the first packet.
    fn dequeue_padding(&mut self)
        ensures { self.new ≡ unpadded self.old }
    {
        let padding = leading_padding(&self.metadata);
        if padding > 0 {
            self.metadata.dequeue_allocated(1);
            self.payload.dequeue_allocated(padding);
        }
    }

    /// Lends the first packet's header and bytes to `f`, which may write to them, and gives the packet up where `f`
    /// answers `Ok`. Where it answers `Err` the packet keeps what `f` wrote, and stays first.
    pub fn dequeue_with<R, E, F: FnOnce(&mut H, &mut [u8]) -> Result<R, E>>(
        &mut self,
        f: F,
    ) -> Result<Result<R, E>, Empty>
        requires callable { (header : H) (bytes : List ℕ) → first self.old ≡ Some (header, bytes) → TakesPacket F.FnOnce f header bytes }
        ensures empty { IsErr result ↔ (self.old.packets ≡ []) }
        ensures refused { OnErr result (self.new ≡ self.old) }
        ensures called { IfOk result (λ answer. (header : H) × (bytes : List ℕ) × (left : H) × (written : List ℕ)
            × (first self.old ≡ Some (header, bytes)) × (length written ≡ length bytes)
            × ReturnsAtPacket F.FnOnce f header bytes answer left written
            × MatchResult answer (λ _. self.new ≡ without_first self.old)
            (λ _. self.new ≡ with_first (unpadded self.old) left written)) }
    {
        self.dequeue_padding();
        if self.metadata.is_empty() {
            return Err(Empty);
        }
        let first = self.metadata.first_mut();
        let size = first.size;
        let header = first.header.as_mut().unwrap();
        let answer = f(header, self.payload.part_mut(0, size));
        if answer.is_ok() {
            self.metadata.dequeue_allocated(1);
            self.payload.dequeue_allocated(size);
        }
        Ok(answer)
    }

    /// Gives up the first packet, hands out its header and lends its bytes. The contract doesn't say what the queue holds
    /// afterwards: `dequeue_slice`, `dequeue_with` and `discard_first` do.
    pub fn dequeue(&mut self) -> Result<(H, &mut [u8]), Empty>
        ensures empty { IsErr result ↔ (self.old.packets ≡ []) }
        ensures first { IfOk result (λ p. first self.old ≡ Some (p.0, p.1.now)) }
    {
        self.dequeue_padding();
        let (header, size) = take_entry(&mut self.metadata)?;
        Ok((header, self.payload.dequeue_many(size)))
    }

    /// Gives up the first packet, and copies as many of its bytes into the slice as fit. Returns its header, and how many
    /// bytes it had.
    pub fn dequeue_slice(&mut self, data: &mut [u8]) -> Result<(H, usize), Empty>
        ensures empty { IsErr result ↔ (self.old.packets ≡ []) }
        ensures refused { OnErr result ((self.new ≡ self.old) × («data».new ≡ «data».old)) }
        ensures read { IfOk result (λ p. (bytes : List ℕ) × (first self.old ≡ Some (p.0, bytes)) × (length bytes ≡ p.1)
            × («data».new ≡ take (length «data».old) bytes ++ drop p.1 «data».old)) }
        ensures rest { OnOk result (self.new ≡ without_first self.old) }
    {
        self.dequeue_padding();
        let (header, size) = take_entry(&mut self.metadata)?;
        let count = size.min(data.len());
        self.payload.read_allocated(0, &mut data[..count]);
        self.payload.dequeue_allocated(size);
        Ok((header, size))
    }

    /// Gives up the first packet, and hands out its header.
    pub fn discard_first(&mut self) -> Result<H, Empty>
        ensures empty { IsErr result ↔ (self.old.packets ≡ []) }
        ensures refused { OnErr result (self.new ≡ self.old) }
        ensures first { IfOk result (λ header. (bytes : List ℕ) × (first self.old ≡ Some (header, bytes))) }
        ensures rest { OnOk result (self.new ≡ without_first self.old) }
    {
        self.dequeue_padding();
        let (header, count) = take_entry(&mut self.metadata)?;
        self.payload.dequeue_allocated(count);
        Ok(header)
    }

    /// Gives up the first packet, if there is one. Its header stays in the storage until another is laid over it.
    pub fn drop_first(&mut self)
        ensures { self.new ≡ without_first self.old }
    {
        self.dequeue_padding();
        if self.metadata.is_empty() {
            return;
        }
        let size = self.metadata.first().size;
        self.metadata.dequeue_allocated(1);
        self.payload.dequeue_allocated(size);
    }

    /// Gives up the first packet, and hands out its bytes for reading where they lie. `peek` shows the header before.
    pub fn take_bytes(&mut self) -> Result<&[u8], Empty>
    where
        H: Drop,
        ensures* ends { sem 𝓛 (EndsTaken H.row self.entry result) }
        ensures empty { IsErr result ↔ (self.old.packets ≡ []) }
        ensures first { IfOk result (λ bytes. (header : H) × (first self.old ≡ Some (header, bytes.now))) }
    {
        self.dequeue_padding();
        let (header, size) = take_entry(&mut self.metadata)?;
        drop(header);
        let from = self.payload.capacity() - size;
        self.payload.dequeue_allocated(size);
        Ok(self.payload.part(from, size))
    }

    /// Returns the first packet's header and bytes, and gives up the padding before it.
    pub fn peek(&mut self) -> Result<(&H, &[u8]), Empty>
        ensures* ends { sem 𝓛 (EndsUnpadded H.row self.entry) }
        ensures empty { IsErr result ↔ (self.old.packets ≡ []) }
        ensures first { IfOk result (λ p. first self.old ≡ Some (p.0.now, p.1.now)) }
    {
        self.dequeue_padding();
        self.front()
    }

    /// Returns the header and the bytes of a first packet with no padding before it, as `peek` leaves it.
    pub fn front(&self) -> Result<(&H, &[u8]), Empty>
        requires { unpadded self.now ≡ self.now }
        ensures empty { IsErr result ↔ (self.now.packets ≡ []) }
        ensures first { IfOk result (λ p. first self.now ≡ Some (p.0.now, p.1.now)) }
    {
        if self.metadata.is_empty() {
            return Err(Empty);
        }
        let first = self.metadata.first();
        let header = first.header.as_ref().unwrap();
        Ok((header, self.payload.first_part(first.size)))
    }
}

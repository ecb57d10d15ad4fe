//! A ring of elements in storage that is handed in.
ghost use Rattle.std.specs.Prelude.{◌≡◌, ℕ, ◌+◌, ◌-◌, ◌%◌, ◌≤◌, ◌<◌, ◌↔◌, List, [], ◌∷◌, ◌++◌, length, take, drop, map, min, IsTrue, IsOk, IsErr, IfOk, OnErr};
ghost use Rattle.std.specs.Prelude.{MatchResult, slice_get, Some, ⊤};
ghost use Rattle.base_buffer.specs.Ring.{Ring, capacity, ring, cleared, anchored, IsPlaced, until_end, contiguous, unbroken_free, free_from, queued_count};
ghost use Rattle.base_buffer.specs.Ring.{unbroken_queued, overwritten, rewritten, extended, released, enqueued, dequeued, laid_from, offered, waiting};
ghost use Rattle.base_buffer.specs.Ring.{storage_of, begun_at};
ghost use Rattle.std.specs.Borrow.{sem};
ghost use Rattle.std.specs.Fn.{FnOnceTakesAtMut, FnOnceReturnsAtMut};

use crate::managed::ManagedSlice;
use std::marker::Model;

/// Nothing more can be queued.
#[derive(Debug, Clone, Copy, PartialEq, Eq)]
pub struct Full;

/// Nothing is queued.
#[derive(Debug, Clone, Copy, PartialEq, Eq)]
pub struct Empty;

/// An element that can be put into a known state.
pub trait Resettable {
    ghost reset_to: { Self → Self };

    /// Puts the element into its known state.
    fn reset(&mut self)
        ensures { self.new ≡ reset_to self.old };
}

/// A ring buffer. The elements that are queued lie after one another from the read offset on, and round the end of the
/// storage; the free ones lie after them.
#[derive(Debug, Drop)]
pub struct RingBuffer<T> {
    storage: Vec<T>,
    read_at: usize,
    length: usize,
}

impl<T> Model for RingBuffer<T> {
    ghost use Rattle.base_buffer.specs.Ring.{Ring, ring_code, ring_in, IsRing};

    ghost Value = { Ring T };

    ghost coded = { ring_code T.code };

    ghost view = { λ r. ring_in r.storage.items r.read_at r.length };

    ghost invariant = { λ r. IsRing r.storage.items r.read_at r.length };
}

/// The place of the element `offset` after the offset `start`, in a storage of `capacity` elements.
fn position(start: usize, offset: usize, capacity: usize) -> usize
    requires { (start ≤ capacity) × (offset ≤ capacity) × (0 < capacity → start < capacity) }
    ensures position { result ≡ (start + offset) % capacity }
    ensures within { result ≤ capacity }
    ensures below { 0 < capacity → result < capacity }
{
    let until_end = capacity - start;
    if offset < until_end {
        start + offset
    } else {
        offset - until_end
    }
}

impl<T> RingBuffer<T> {
    ghost use Rattle.base_buffer.specs.RingLends.{LendsFrom, LendsAt, LendsEnqueued, LendsDequeued};
    ghost use Rattle.base_buffer.specs.ManagedSlice.{storage_items};

    /// Makes a ring of the storage, in which nothing is queued.
    pub fn new(storage: ManagedSlice<T>) -> RingBuffer<T>
        ensures { result ≡ ring [] (storage_items storage) 0 }
    {
        RingBuffer {
            storage: storage.into_items(),
            read_at: 0,
            length: 0,
        }
    }

    /// Forgets what is queued, and reads from the storage's first offset on.
    pub fn clear(&mut self)
        ensures { self.new ≡ cleared self.old }
    {
        self.read_at = 0;
        self.length = 0;
    }

    /// Returns how many elements the ring holds at most.
    pub fn capacity(&self) -> usize
        ensures capacity { result ≡ capacity self.now }
        ensures placed { IsPlaced self.now }
    {
        self.storage.len()
    }

    /// Returns how many elements are queued.
    pub fn len(&self) -> usize
        ensures { result ≡ length self.now.queue }
    {
        self.length
    }

    /// Returns how many elements can still be queued.
    pub fn window(&self) -> usize
        ensures { result ≡ length self.now.free }
    {
        self.storage.len() - self.length
    }

    /// Returns how many elements can be queued before the end of the storage. On an empty ring more may fit, since a call
    /// that queues many then begins at the storage's first offset.
    pub fn contiguous_window(&self) -> usize
        ensures { result ≡ contiguous self.now }
    {
        self.window().min(self.until_end(self.len()))
    }

    /// Returns whether nothing is queued.
    pub fn is_empty(&self) -> bool
        ensures { IsTrue result ↔ (self.now.queue ≡ []) }
    {
        self.len() == 0
    }

    /// Returns whether no more can be queued.
    pub fn is_full(&self) -> bool
        ensures { IsTrue result ↔ (self.now.free ≡ []) }
    {
        self.window() == 0
    }

    /// Returns how many elements from `offset` on, counted from the read offset, come before the end of the storage.
    fn until_end(&self, offset: usize) -> usize
        requires { offset ≤ capacity self.now }
        ensures until_end { result ≡ until_end self.now offset }
        ensures placed { IsPlaced self.now }
    {
        let capacity = self.storage.len();
        capacity - position(self.read_at, offset, capacity)
    }

    /// Lends the elements from `offset` on, counted from the read offset.
    pub(crate) fn part_mut(&mut self, offset: usize, size: usize) -> &mut [T]
        requires within { offset + size ≤ capacity self.old }
        requires unbroken { size ≤ until_end self.old offset }
        ensures* lends { sem 𝓛 (LendsFrom T.row self.entry result self.old offset) }
        ensures len { length result.now ≡ size }
        ensures value { result.now ≡ take size (drop offset (self.old.queue ++ self.old.free)) }
        ensures placed { IsPlaced self.old }
    {
        let at = position(self.read_at, offset, self.storage.len());
        self.storage.slice_mut(at..at + size)
    }

    /// Returns the elements from `offset` on, counted from the read offset.
    pub(crate) fn part(&self, offset: usize, size: usize) -> &[T]
        requires within { offset + size ≤ capacity self.now }
        requires unbroken { size ≤ until_end self.now offset }
        ensures { result.now ≡ take size (drop offset (self.now.queue ++ self.now.free)) }
    {
        let at = position(self.read_at, offset, self.storage.len());
        &self.storage.as_slice()[at..at + size]
    }

    /// Lends the element at `offset`, counted from the read offset.
    fn element_mut(&mut self, offset: usize) -> &mut T
        requires { offset < capacity self.old }
        ensures* lends { sem 𝓛 (LendsAt T.row self.entry result self.old offset) }
        ensures value { slice_get (self.old.queue ++ self.old.free) offset ≡ Some result.now }
        ensures placed { IsPlaced self.old }
    {
        let at = position(self.read_at, offset, self.storage.len());
        &mut self.storage[at]
    }

    /// Queues the next `count` free elements as they are.
    pub fn enqueue_unallocated(&mut self, count: usize)
        requires { count ≤ length self.old.free }
        ensures { self.new ≡ extended self.old count }
    {
        self.length += count;
    }

    /// Gives up the first `count` queued elements.
    pub fn dequeue_allocated(&mut self, count: usize)
        requires { count ≤ length self.old.queue }
        ensures { self.new ≡ released self.old count }
    {
        self.length -= count;
        self.read_at = position(self.read_at, count, self.storage.len());
    }

    /// Returns the queued elements from `offset` on, at most `size` and up to the end of the storage.
    pub fn get_allocated(&self, offset: usize, size: usize) -> &[T]
        ensures len { length result.now ≡ unbroken_queued self.now offset size }
        ensures value { result.now ≡ take (unbroken_queued self.now offset size) (drop offset self.now.queue) }
    {
        let offset = offset.min(self.length);
        let capacity = self.storage.len();
        let at = position(self.read_at, offset, capacity);
        let size = size.min(self.length - offset).min(capacity - at);
        &self.storage.as_slice()[at..at + size]
    }

    /// Returns the first queued element.
    pub(crate) fn first(&self) -> &T
        requires { 0 < length self.now.queue }
        ensures { slice_get self.now.queue 0 ≡ Some result.now }
    {
        &self.storage[self.read_at]
    }

    /// Returns the first `size` queued elements.
    pub(crate) fn first_part(&self, size: usize) -> &[T]
        requires queued { size ≤ length self.now.queue }
        requires unbroken { size ≤ until_end self.now 0 }
        ensures { result.now ≡ take size self.now.queue }
    {
        &self.storage.as_slice()[self.read_at..self.read_at + size]
    }
}

impl<T> RingBuffer<T> {
    ghost use Rattle.base_buffer.specs.RingLends.{LendsFrom, LendsAt, LendsEnqueued, LendsDequeued};

    /// An empty ring is read from the storage's first offset on.
    pub(crate) fn anchor(&mut self)
        ensures { self.new ≡ anchored self.old }
    {
        if self.is_empty() {
            self.clear();
        }
    }

    /// Returns the read offset.
    pub(crate) fn start(&self) -> usize
        ensures { result ≡ self.now.start }
    {
        self.read_at
    }

    /// An empty ring is read from this offset on, if it is one of the storage.
    pub(crate) fn begin_at(&mut self, start: usize)
        ensures queue { self.new.queue ≡ self.old.queue }
        ensures capacity { capacity self.new ≡ capacity self.old }
        ensures start { self.new.start ≡ begun_at self.old start }
    {
        if self.is_empty() && start < self.capacity() {
            self.read_at = start;
        }
    }

    /// Lends the free elements from `offset` on, counted from the first free one, at most `size` and up to the end of the
    /// storage.
    pub fn get_unallocated(&mut self, offset: usize, size: usize) -> &mut [T]
        ensures* lends { sem 𝓛 (LendsFrom T.row self.entry result self.old (free_from self.old offset)) }
        ensures len { length result.now ≡ unbroken_free self.old offset size }
        ensures value { result.now ≡ take (unbroken_free self.old offset size) (drop offset self.old.free) }
        ensures written { (ws : List T) → length ws ≡ unbroken_free self.old offset size
            → laid_from self.old (free_from self.old offset) ws ≡ overwritten self.old offset ws }
    {
        let window = self.capacity() - self.len();
        let offset = offset.min(window);
        let from = self.len() + offset;
        let size = size.min(window - offset).min(self.until_end(from));
        self.part_mut(from, size)
    }

    /// Copies the elements over the free ones from `offset` on, counted from the first free one, and returns how many there
    /// was room for. Nothing is queued by it.
    pub fn write_unallocated(&mut self, offset: usize, data: &[T]) -> usize
    where
        T: Copy,
        ensures count { result ≡ min (length «data».now) (length self.old.free - offset) }
        ensures written { self.new ≡ overwritten self.old offset (take result «data».now) }
    {
        let window = self.capacity() - self.len();
        let offset = offset.min(window);
        let from = self.len() + offset;
        let count = data.len().min(window - offset);
        let first = count.min(self.until_end(from));
        self.part_mut(from, first).copy_from_slice(&data[..first]);
        self.part_mut(from + first, count - first)
            .copy_from_slice(&data[first..count]);
        count
    }

    /// Copies queued elements from `offset` on into the slice, and returns how many there were.
    pub fn read_allocated(&self, offset: usize, data: &mut [T]) -> usize
    where
        T: Copy,
        ensures count { result ≡ min (length «data».old) (length self.now.queue - offset) }
        ensures read { «data».new ≡ take result (drop offset self.now.queue) ++ drop result «data».old }
    {
        let offset = offset.min(self.len());
        let count = data.len().min(self.len() - offset);
        let first = count.min(self.until_end(offset));
        data[..first].copy_from_slice(self.get_allocated(offset, first));
        data[first..count].copy_from_slice(self.get_allocated(offset + first, count - first));
        count
    }

    /// Queues as many of the elements as there is room for, and returns how many these are.
    pub fn enqueue_slice(&mut self, data: &[T]) -> usize
    where
        T: Copy,
        ensures count { result ≡ min (length «data».now) (length self.old.free) }
        ensures queued { self.new ≡ enqueued (anchored self.old) (take result «data».now) }
    {
        self.anchor();
        let count = self.write_unallocated(0, data);
        self.enqueue_unallocated(count);
        count
    }

    /// Takes queued elements into the slice, and returns how many these are.
    pub fn dequeue_slice(&mut self, data: &mut [T]) -> usize
    where
        T: Copy,
        ensures count { result ≡ min (length «data».old) (length self.old.queue) }
        ensures read { «data».new ≡ take result self.old.queue ++ drop result «data».old }
        ensures rest { self.new ≡ released self.old result }
    {
        let count = self.read_allocated(0, data);
        self.dequeue_allocated(count);
        count
    }

    /// Queues the next free elements, at most `size` and up to the end of the storage, and lends them for writing.
    pub fn enqueue_many(&mut self, size: usize) -> &mut [T]
        ensures* lends { sem 𝓛 (LendsFrom T.row self.entry result
            (extended (anchored self.old) (queued_count self.old size)) (length self.old.queue)) }
        ensures len { length result.now ≡ queued_count self.old size }
        ensures value { result.now ≡ take (queued_count self.old size) (anchored self.old).free }
        ensures written { (ws : List T) → length ws ≡ queued_count self.old size
            → laid_from (extended (anchored self.old) (queued_count self.old size)) (length self.old.queue) ws
            ≡ enqueued (anchored self.old) ws }
    {
        self.anchor();
        let from = self.len();
        let size = size.min(self.contiguous_window());
        self.enqueue_unallocated(size);
        self.part_mut(from, size)
    }

    /// Gives up the first queued elements, at most `size` and up to the end of the storage, and lends them.
    pub fn dequeue_many(&mut self, size: usize) -> &mut [T]
        ensures* lends { sem 𝓛 (LendsFrom T.row self.entry result
            (released self.old (unbroken_queued self.old 0 size)) (capacity self.old - unbroken_queued self.old 0 size)) }
        ensures len { length result.now ≡ unbroken_queued self.old 0 size }
        ensures value { result.now ≡ take (unbroken_queued self.old 0 size) self.old.queue }
        ensures written { (ws : List T) → length ws ≡ unbroken_queued self.old 0 size
            → laid_from (released self.old (unbroken_queued self.old 0 size))
            (capacity self.old - unbroken_queued self.old 0 size) ws
            ≡ dequeued self.old ws }
    {
        let size = size.min(self.len()).min(self.until_end(0));
        let from = self.capacity() - size;
        self.dequeue_allocated(size);
        self.part_mut(from, size)
    }
}

impl<T> RingBuffer<T> {
    ghost use Rattle.base_buffer.specs.RingLends.{LendsNext, LendsFirst, LendsEnqueued, LendsDequeued};

    /// Lends the free elements before the end of the storage to `f`, which writes to them and answers how many are to be
    /// queued.
    pub fn enqueue_many_with<R, F: FnOnce(&mut [T]) -> (usize, R)>(&mut self, f: F) -> (usize, R)
        requires callable { FnOnceTakesAtMut F.FnOnce f (offered self.old) }
        requires within { (answer : _) (left : List T) → FnOnceReturnsAtMut F.FnOnce f (offered self.old) answer left
            → answer.0 ≤ contiguous (anchored self.old) }
        ensures { (left : List T) × (length left ≡ contiguous (anchored self.old))
            × FnOnceReturnsAtMut F.FnOnce f (offered self.old) result left
            × (self.new ≡ extended (overwritten (anchored self.old) 0 left) result.0) }
    {
        self.anchor();
        let from = self.len();
        let size = self.contiguous_window();
        let (count, answer) = f(self.part_mut(from, size));
        self.enqueue_unallocated(count);
        (count, answer)
    }

    /// Lends the queued elements before the end of the storage to `f`, which may write to them and answers how many are to
    /// be given up.
    pub fn dequeue_many_with<R, F: FnOnce(&mut [T]) -> (usize, R)>(&mut self, f: F) -> (usize, R)
        requires callable { FnOnceTakesAtMut F.FnOnce f (waiting self.old) }
        requires within { (answer : _) (left : List T) → FnOnceReturnsAtMut F.FnOnce f (waiting self.old) answer left
            → answer.0 ≤ length (waiting self.old) }
        ensures { (left : List T) × (length left ≡ length (waiting self.old))
            × FnOnceReturnsAtMut F.FnOnce f (waiting self.old) result left
            × (self.new ≡ released (rewritten self.old left) result.0) }
    {
        let size = self.len().min(self.until_end(0));
        let (count, answer) = f(self.part_mut(0, size));
        self.dequeue_allocated(count);
        (count, answer)
    }

    /// Lends the next free element.
    fn next_mut(&mut self) -> &mut T
        requires { 0 < length self.old.free }
        ensures* lends { sem 𝓛 (LendsNext T.row self.entry result) }
        ensures value { slice_get self.old.free 0 ≡ Some result.now }
    {
        let from = self.len();
        self.element_mut(from)
    }

    /// Lends the first queued element.
    pub(crate) fn first_mut(&mut self) -> &mut T
        requires { 0 < length self.old.queue }
        ensures* lends { sem 𝓛 (LendsFirst T.row self.entry result) }
        ensures value { slice_get self.old.queue 0 ≡ Some result.now }
    {
        self.element_mut(0)
    }

    /// Queues the element.
    pub(crate) fn push(&mut self, element: T)
    where
        T: Drop,
        requires { 0 < length self.old.free }
        ensures { self.new ≡ enqueued self.old (element ∷ []) }
    {
        *self.next_mut() = element;
        self.enqueue_unallocated(1);
    }

    /// Queues the next free element and lends it for writing.
    pub fn enqueue_one(&mut self) -> Result<&mut T, Full>
        ensures* lends { sem 𝓛 (LendsEnqueued T.row self.entry result) }
        ensures full { IsErr result ↔ (self.old.free ≡ []) }
        ensures value { IfOk result (λ x. slice_get self.old.free 0 ≡ Some x.now) }
    {
        if self.is_full() {
            return Err(Full);
        }
        let from = self.len();
        self.enqueue_unallocated(1);
        Ok(self.element_mut(from))
    }

    /// Gives up the first queued element and lends it.
    pub fn dequeue_one(&mut self) -> Result<&mut T, Empty>
        ensures* lends { sem 𝓛 (LendsDequeued T.row self.entry result) }
        ensures empty { IsErr result ↔ (self.old.queue ≡ []) }
        ensures value { IfOk result (λ x. slice_get self.old.queue 0 ≡ Some x.now) }
    {
        if self.is_empty() {
            return Err(Empty);
        }
        let last = self.capacity() - 1;
        self.dequeue_allocated(1);
        Ok(self.element_mut(last))
    }

    /// Lends the next free element to `f`, and queues it where `f` answers `Ok`. Where it answers `Err` the element keeps
    /// what `f` wrote, and stays free.
    pub fn enqueue_one_with<R, E, F: FnOnce(&mut T) -> Result<R, E>>(
        &mut self,
        f: F,
    ) -> Result<Result<R, E>, Full>
        requires callable { (x : T) → slice_get self.old.free 0 ≡ Some x → FnOnceTakesAtMut F.FnOnce f x }
        ensures full { IsErr result ↔ (self.old.free ≡ []) }
        ensures refused { OnErr result (self.new ≡ self.old) }
        ensures called { IfOk result (λ answer. (x left : T) × (slice_get self.old.free 0 ≡ Some x) × FnOnceReturnsAtMut F.FnOnce f x answer left
            × MatchResult answer (λ _. self.new ≡ enqueued self.old (left ∷ []))
            (λ _. self.new ≡ overwritten self.old 0 (left ∷ []))) }
    {
        if self.is_full() {
            return Err(Full);
        }
        let answer = f(self.next_mut());
        if answer.is_ok() {
            self.enqueue_unallocated(1);
        }
        Ok(answer)
    }

    /// Lends the first queued element to `f`, and gives it up where `f` answers `Ok`. Where it answers `Err` the element
    /// keeps what `f` wrote, and stays first.
    pub fn dequeue_one_with<R, E, F: FnOnce(&mut T) -> Result<R, E>>(
        &mut self,
        f: F,
    ) -> Result<Result<R, E>, Empty>
        requires callable { (x : T) → slice_get self.old.queue 0 ≡ Some x → FnOnceTakesAtMut F.FnOnce f x }
        ensures empty { IsErr result ↔ (self.old.queue ≡ []) }
        ensures refused { OnErr result (self.new ≡ self.old) }
        ensures called { IfOk result (λ answer. (x left : T) × (slice_get self.old.queue 0 ≡ Some x) × FnOnceReturnsAtMut F.FnOnce f x answer left
            × MatchResult answer (λ _. self.new ≡ dequeued self.old (left ∷ []))
            (λ _. self.new ≡ rewritten self.old (left ∷ []))) }
    {
        if self.is_empty() {
            return Err(Empty);
        }
        let answer = f(self.first_mut());
        if answer.is_ok() {
            self.dequeue_allocated(1);
        }
        Ok(answer)
    }

    /// Forgets what is queued, reads from the storage's first offset on, and puts each element of the storage into its known
    /// state.
    pub fn reset(&mut self)
    where
        T: Resettable,
        ensures { self.new ≡ ring [] (map T.reset_to (storage_of self.old)) 0 }
    {
        self.read_at = 0;
        self.length = 0;
        for position in 0..self.storage.len() {
            self.storage[position].reset();
        }
    }
}

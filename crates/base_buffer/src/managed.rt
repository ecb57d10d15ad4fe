//! Storage that is handed to a container.
ghost use Rattle.std.specs.Prelude.{◌≡◌, ◌↔◌, length, IsTrue};

/// The storage of a ring or a set. It is owned, and what lies in it stays where it is.
#[derive(Debug, Drop)]
pub enum ManagedSlice<T> {
    /// Storage that never grows.
    Fixed(Vec<T>),
    /// Storage that the container may let grow.
    Owned(Vec<T>),
}

impl<T> ManagedSlice<T> {
    ghost use Rattle.base_buffer.specs.ManagedSlice.{storage_items};

    /// Returns the elements.
    pub fn as_slice(&self) -> &[T]
        ensures { result.now ≡ storage_items self.now }
    {
        match self {
            ManagedSlice::Fixed(items) => items.as_slice(),
            ManagedSlice::Owned(items) => items.as_slice(),
        }
    }

    /// Returns how many elements there are.
    pub fn len(&self) -> usize
        ensures { result ≡ length (storage_items self.now) }
    {
        self.as_slice().len()
    }

    /// Returns whether there is no element.
    pub fn is_empty(&self) -> bool
        ensures { IsTrue result ↔ (length (storage_items self.now) ≡ 0) }
    {
        self.len() == 0
    }

    /// Returns the elements as a vector.
    pub fn into_items(self) -> Vec<T>
        ensures { result.items ≡ storage_items self }
    {
        match self {
            ManagedSlice::Fixed(items) => items,
            ManagedSlice::Owned(items) => items,
        }
    }
}

//! Adjacent elements in memory that is owned or shared.

ghost use Rattle.std.specs.Prelude.{◌≡◌, ◌+◌, ◌≤◌, ◌↔◌, List, Bool, true, false, IsTrue, IsFalse};
ghost use Rattle.std.specs.Prelude.{IsOk, IsSome, IfSome, MatchResult, take, drop, length};
ghost use Rattle.std.specs.Borrow.{sem};
ghost use Rattle.polars_arrays_bits.specs.Errors.{IsMemory};

use crate::error::ComputeError;
use std::alloc::Global;
use std::marker::Model;
use std::rc::RcSlice;

/// The memory of a buffer: a vector that only this buffer uses, or a slice that clones of the
/// buffer use too.
#[derive(Drop)]
enum Store<T: Copy> {
    Owned(Vec<T>),
    Shared(RcSlice<T>),
}

impl<T: Copy> Store<T> {
    ghost use Rattle.polars_arrays_bits.specs.Buffer.{stored, is_vector};
    ghost use Rattle.polars_arrays_bits.specs.StoreLends.{lends_window};

    // Mutably borrows the `len` elements from index `start` on. The memory must be owned.
    fn window_mut(&mut self, start: usize, len: usize) -> &mut [T]
        requires vector { IsTrue (is_vector self.old) }
        requires within { start + len ≤ length (stored self.old) }
        ensures* written { sem 𝓛 (lends_window T.row self.entry start result) }
        ensures items { result.now ≡ take len (drop start (stored self.old)) }
    {
        match self {
            Store::Owned(elements) => elements.slice_mut(start..start + len),
            Store::Shared(_) => unreachable!(),
        }
    }
}

/// A slice of elements in memory. One buffer owns the memory, or several buffers of one thread
/// share it.
#[derive(Drop)]
pub struct Buffer<T: Copy> {
    store: Store<T>,
    start: usize,
    len: usize,
}

impl<T: Copy> Model for Buffer<T> {
    ghost use Rattle.std.specs.Prelude.{◌+◌, ◌≤◌, length, take, drop};
    ghost use Rattle.polars_arrays_bits.specs.Buffer.{Elements, elements_code, stored, is_vector};

    ghost Value = { Elements T };

    ghost coded = { elements_code T.code };

    ghost view = { λ b. record
        { items = take b.len (drop b.start (stored b.store)); owned = is_vector b.store } };

    ghost invariant = { λ b. b.start + b.len ≤ length (stored b.store) };
}

impl<T: Copy> Buffer<T> {
    ghost use Rattle.polars_arrays_bits.specs.BufferLends.{lends_elements, lends_elements_if};

    /// Creates a buffer that owns the elements of a vector.
    pub fn from_vec(elements: Vec<T>) -> Buffer<T>
        ensures { result ≡ record { items = elements.items; owned = true } }
    {
        let len = elements.len();
        Buffer {
            store: Store::Owned(elements),
            start: 0,
            len,
        }
    }

    /// Returns the number of elements.
    pub fn len(&self) -> usize
        ensures { result ≡ length self.now.items }
    {
        self.len
    }

    /// Returns the elements as a slice.
    pub fn as_slice(&self) -> &[T]
        ensures { result.now ≡ self.now.items }
    {
        let all = match &self.store {
            Store::Owned(elements) => elements.as_slice(),
            Store::Shared(elements) => elements.as_slice(),
        };
        &all[self.start..self.start + self.len]
    }

    /// Slices the buffer in place: only the `n` elements from index `at` on remain. No element is
    /// moved.
    pub fn slice(&mut self, at: usize, n: usize)
        requires { at + n ≤ length self.old.items }
        ensures { self.new
            ≡ record { items = take n (drop at self.old.items); owned = self.old.owned } }
    {
        self.start += at;
        self.len = n;
    }

    /// Returns whether the buffer owns its memory, so that its elements may be written. A shared
    /// buffer never becomes an owned one.
    pub fn is_owned(&self) -> bool
        ensures { result ≡ self.now.owned }
    {
        matches!(&self.store, Store::Owned(_))
    }

    /// Mutably borrows the elements. The buffer must own its memory.
    pub fn as_mut_slice(&mut self) -> &mut [T]
        requires { IsTrue self.old.owned }
        ensures* written { sem 𝓛 (lends_elements T.row self.entry result) }
        ensures items { result.now ≡ self.old.items }
    {
        self.store.window_mut(self.start, self.len)
    }

    // Returns whether the buffer owns its memory, as `is_owned` does. It takes `&mut self`, so that
    // `get_mut` can call it before it borrows the elements.
    fn owns(&mut self) -> bool
        ensures unchanged { self.new ≡ self.old }
        ensures owned { result ≡ self.old.owned }
    {
        self.is_owned()
    }

    /// Mutably borrows the elements. Returns `None` if the memory is shared.
    pub fn get_mut(&mut self) -> Option<&mut [T]>
        ensures* written { sem 𝓛 (lends_elements_if T.row self.entry result) }
        ensures owned { IsSome result ↔ IsTrue self.old.owned }
        ensures items { IfSome result (λ elements. elements.now ≡ self.old.items) }
    {
        if self.owns() {
            Some(self.as_mut_slice())
        } else {
            None
        }
    }

    /// Converts to a vector if the buffer owns its memory and no element was sliced off. Otherwise
    /// returns the unchanged buffer as `Err`. No element is moved.
    pub fn into_vec(self) -> Result<Vec<T>, Buffer<T>>
        ensures same { MatchResult result (λ elements. elements.items ≡ self.items)
            (λ buffer. buffer ≡ self) }
        ensures owned { IsOk result → IsTrue self.owned }
    {
        let Buffer { store, start, len } = self;
        match store {
            Store::Owned(elements) => {
                if start == 0 && len == elements.len() {
                    return Ok(elements);
                }
                let store = Store::Owned(elements);
                Err(Buffer { store, start, len })
            }
            Store::Shared(elements) => {
                let store = Store::Shared(elements);
                Err(Buffer { store, start, len })
            }
        }
    }

    /// Converts to a buffer whose memory is shared: later clones use the same memory instead of
    /// copying the elements. No element is moved. The error is `Memory`, which does not occur if
    /// the buffer is shared already.
    pub fn share(self, _alloc: Global) -> Result<Buffer<T>, ComputeError>
        ensures shared { MatchResult result
            (λ shared. shared ≡ record { items = self.items; owned = false }) IsMemory }
        ensures stays { IsFalse self.owned → IsOk result }
    {
        let Buffer { store, start, len } = self;
        let elements = match store {
            Store::Owned(elements) => RcSlice::from_vec(elements)?,
            Store::Shared(elements) => elements,
        };
        Ok(Buffer {
            store: Store::Shared(elements),
            start,
            len,
        })
    }

    /// Clones the buffer. Owned elements are copied, shared ones are not. The error is `Memory`.
    pub fn clone_buffer(&self, alloc: Global) -> Result<Buffer<T>, ComputeError>
        ensures { MatchResult result (λ copy. copy ≡ self.now) IsMemory }
    {
        match &self.store {
            Store::Owned(_) => {
                let elements = Vec::from_slice(alloc, self.as_slice())?;
                Ok(Buffer::from_vec(elements))
            }
            Store::Shared(elements) => {
                let elements = elements.clone()?;
                Ok(Buffer {
                    store: Store::Shared(elements),
                    start: self.start,
                    len: self.len,
                })
            }
        }
    }
}

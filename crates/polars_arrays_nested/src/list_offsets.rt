//! The offsets of an array of lists.

ghost use Rattle.std.specs.Option.{MatchOption};
ghost use Rattle.std.specs.Prelude.{◌≡◌, ◌+◌, ◌<◌, MatchResult, length};
ghost use Rattle.polars_arrays_bits.specs.Errors.{IsMemory};
ghost use Rattle.polars_arrays_bytes.specs.Faults.{IsFirstBad};
ghost use Rattle.polars_arrays_bytes.specs.OffsetStrings.{AreGood, place_at, places};
ghost use Rattle.polars_arrays_flat.specs.Validity.{window};
ghost use Rattle.polars_arrays_nested.specs.ListOffsets.{is_large, list_count, list_places};
ghost use Rattle.polars_arrays_nested.specs.ListOffsets.{offset_at};
ghost use Rattle.polars_arrays_nested.specs.Places.{place_or_zero};

use polars_arrays_bits::buffer::Buffer;
use polars_arrays_bits::error::ComputeError;
use polars_arrays_bytes::offsets::{first_bad_row, keep_rows, row_count};
use polars_arrays_numbers::offset::Offset;
use std::alloc::Global;

/// The offsets of an array of lists, as 32-bit or 64-bit numbers. List `i` has the items
/// `offsets[i]..offsets[i + 1]`. An array has one offset more than it has lists.
#[derive(Drop)]
pub enum ListOffsets {
    Small(Buffer<i32>),
    Large(Buffer<i64>),
}

impl ListOffsets {
    /// Returns the number of lists: one less than the number of offsets, or 0 if there are no
    /// offsets.
    #[tactic(auto, using(crate::proofs::Places::places_of))]
    pub fn len(&self) -> usize
        ensures { result ≡ list_count self.now }
    {
        match self {
            ListOffsets::Small(offsets) => row_count(offsets.as_slice()),
            ListOffsets::Large(offsets) => row_count(offsets.as_slice()),
        }
    }

    /// Returns whether the offsets have 64 bits.
    pub fn is_large(&self) -> bool
        ensures { result ≡ is_large self.now }
    {
        matches!(self, ListOffsets::Large(_))
    }

    /// Returns offset `i` as an index of an item. Returns 0 for a negative offset, which no array
    /// of lists has.
    #[tactic(auto, using(crate::proofs::Places::places_of))]
    pub fn offset(&self, i: usize) -> usize
        requires { i < length (list_places self.now) }
        ensures { result ≡ offset_at self.now i }
    {
        match self {
            ListOffsets::Small(offsets) => place_of(offsets.as_slice(), i),
            ListOffsets::Large(offsets) => place_of(offsets.as_slice(), i),
        }
    }

    /// Returns the first list `i` for which `0 <= offsets[i] <= offsets[i + 1] <= n` does not hold,
    /// where `n` is the number of items. Returns 0 also if there are no offsets, or if the only one
    /// is not in `0..=n`. Otherwise returns `None`.
    pub fn first_bad_row(&self, n: usize) -> Option<usize>
        ensures { MatchOption result (AreGood n (list_places self.now))
            (IsFirstBad n (list_places self.now)) }
    {
        match self {
            ListOffsets::Small(offsets) => first_bad_row(offsets.as_slice(), n),
            ListOffsets::Large(offsets) => first_bad_row(offsets.as_slice(), n),
        }
    }

    /// Slices the offsets in place: only the `n + 1` offsets of the `n` lists from list `at` on
    /// remain. No offset is moved.
    #[tactic(auto, using(crate::proofs::Places::places_of))]
    pub fn slice(&mut self, at: usize, n: usize)
        requires { at + n < length (list_places self.old) }
        ensures places { list_places self.new ≡ window at (n + 1) (list_places self.old) }
        ensures width { is_large self.new ≡ is_large self.old }
    {
        match self {
            ListOffsets::Small(offsets) => keep_rows(offsets, at, n),
            ListOffsets::Large(offsets) => keep_rows(offsets, at, n),
        }
    }

    /// Clones the offsets. An owned buffer is copied, a shared one is not. The error is `Memory`.
    pub fn clone_offsets(&self, alloc: Global) -> Result<ListOffsets, ComputeError>
        ensures { MatchResult result (λ copy. copy ≡ self.now) IsMemory }
    {
        match self {
            ListOffsets::Small(offsets) => {
                let copy = offsets.clone_buffer(alloc)?;
                Ok(ListOffsets::Small(copy))
            }
            ListOffsets::Large(offsets) => {
                let copy = offsets.clone_buffer(alloc)?;
                Ok(ListOffsets::Large(copy))
            }
        }
    }
}

// Returns offset `i` as an index, or 0 if it is negative.
#[tactic(auto, using(crate::proofs::Places::places_of))]
fn place_of<O: Offset>(offsets: &[O], i: usize) -> usize
    requires { i < length offsets.now }
    ensures { result ≡ place_or_zero (place_at (places O.value offsets.now) i) }
{
    offsets[i].to_place().unwrap_or(0)
}

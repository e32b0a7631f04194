//! A growable list of byte strings.

ghost use Rattle.std.specs.Prelude.{◌≡◌, ◌≤◌, ◌<◌, ◌+◌, ◌++◌, ◌∷◌, [], ℕ, List, None, map, pos};
ghost use Rattle.std.specs.Prelude.{vec_capacity, vec_len, IfOk, OnOk, MatchResult};
ghost use Rattle.polars_arrays_bits.specs.Errors.{IsMemory};
ghost use Rattle.polars_arrays_bytes.specs.OffsetStrings.{offset_strings};
ghost use Rattle.diff_tables.specs.Groups.{AreGroups};
ghost use Rattle.diff_tables.specs.Strings.{AreStrings};

use crate::cells::Cells;
use crate::string_list::StringList;
use diff_pairs::cells::all_offsets;
use polars_arrays_bits::buffer::Buffer;
use polars_arrays_bits::error::ComputeError;
use polars_arrays_bytes::binary::BinaryArray;
use std::alloc::{AllocError, Global};

/// A growable list of byte strings, stored as offsets and bytes. String `k` is the bytes from
/// offset `k` to offset `k + 1`: the strings `ab` and `c` have the offsets 0, 2, 3 and the bytes
/// `abc`. An offset takes 4 bytes if it is below 2^31, and else 8 bytes.
#[derive(Drop)]
pub struct Strings {
    // The offset 0, and then the ends of the first strings, as long as the ends fit into an `i32`.
    ends: Vec<i32>,
    // The ends of the remaining strings.
    far_ends: Vec<i64>,
    bytes: Vec<u8>,
}

/// Returns cells with the offsets `ends` and the bytes `bytes`. The only error is `Memory`.
fn near_cells(alloc: Global, ends: Vec<i32>, bytes: Vec<u8>) -> Result<Cells, ComputeError>
    requires { (places : List ℕ) × (all : List (List ℕ)) × (ends.items ≡ map (λ n. pos n) places)
        × AreGroups places bytes.items all }
    ensures { MatchResult result
        (λ cells. (places : List ℕ) (all : List (List ℕ)) → ends.items ≡ map (λ n. pos n) places
        → AreGroups places bytes.items all → cells.strings ≡ all) IsMemory }
{
    let offsets = Buffer::from_vec(ends).share(alloc)?;
    let values = Buffer::from_vec(bytes).share(alloc)?;
    let shared = values.clone_buffer(alloc)?;
    match BinaryArray::try_new(offsets, values, None) {
        Ok(array) => Ok(Cells::near(array, shared)),
        Err(_) => unreachable!(),
    }
}

impl Strings {
    /// Creates an empty list. Fails if the first offset, 0, can't be allocated.
    pub fn new(alloc: Global) -> Result<Strings, AllocError>
        ensures { IfOk result (λ s. AreStrings s []) }
    {
        let mut ends = Vec::new(alloc);
        ends.push(0)?;
        let far_ends = Vec::new(alloc);
        let bytes = Vec::new(alloc);
        Ok(Strings {
            ends,
            far_ends,
            bytes,
        })
    }

    /// Appends `string`. `self.ends` must have spare capacity for one offset.
    #[inline(always)]
    fn push_within(&mut self, string: &[u8]) -> Result<(), AllocError>
        requires { vec_len self.old.ends < vec_capacity self.old.ends }
        ensures pushed { OnOk result
            ((all : List (List ℕ)) → AreStrings self.old all
            → AreStrings self.new (all ++ string.now ∷ [])) }
        ensures ends { vec_len self.new.ends ≤ vec_len self.old.ends + 1 }
        ensures capacity { vec_capacity self.new.ends ≡ vec_capacity self.old.ends }
    {
        self.bytes.extend_from_slice(string)?;
        let len = self.bytes.len();
        if self.far_ends.is_empty() {
            if let Ok(end) = i32::try_from(len) {
                self.ends.push_reserved(end);
                return Ok(());
            }
        }
        // No vector has 2^63 bytes.
        match i64::try_from(len) {
            Ok(end) => self.far_ends.push(end)?,
            Err(_) => return Err(AllocError),
        }
        Ok(())
    }

    /// Appends a string. After an error, nothing is known about the content of the list.
    pub fn push(&mut self, string: &[u8]) -> Result<(), AllocError>
        ensures { OnOk result
            ((all : List (List ℕ)) → AreStrings self.old all
            → AreStrings self.new (all ++ string.now ∷ [])) }
    {
        self.ends.reserve(1)?;
        self.push_within(string)?;
        Ok(())
    }

    /// Appends all strings of a list, in order. After an error, nothing is known about the content
    /// of `self`.
    pub fn push_all<S: StringList>(&mut self, strings: &S) -> Result<(), AllocError>
        ensures { OnOk result
            ((all : List (List ℕ)) → AreStrings self.old all
            → AreStrings self.new (all ++ S.strings strings.now)) }
    {
        let count = strings.count();
        self.ends.reserve(count)?;
        for i in 0..count {
            self.push_within(strings.string(i))?;
        }
        Ok(())
    }

    /// Converts the list to an array with 64-bit offsets. The bytes are not copied. Clones of the
    /// array share its offsets and bytes. The only error is `Memory`.
    pub fn into_array(self, alloc: Global) -> Result<BinaryArray<i64>, ComputeError>
        requires { (all : List (List ℕ)) × AreStrings self all }
        ensures { MatchResult result
            (λ array. (array.validity ≡ None)
            × ((all : List (List ℕ)) → AreStrings self all → offset_strings (λ x. x) array ≡ all))
            IsMemory }
    {
        let Strings {
            ends,
            far_ends,
            bytes,
        } = self;
        let ends = all_offsets(alloc, &ends, &far_ends)?;
        let offsets = Buffer::from_vec(ends).share(alloc)?;
        let values = Buffer::from_vec(bytes).share(alloc)?;
        match BinaryArray::try_new(offsets, values, None) {
            Ok(array) => Ok(array),
            Err(_) => unreachable!(),
        }
    }

    /// Converts the list to cells. The bytes are not copied. The only error is `Memory`.
    pub(crate) fn into_cells(self, alloc: Global) -> Result<Cells, ComputeError>
        requires { (all : List (List ℕ)) × AreStrings self all }
        ensures { MatchResult result
            (λ cells. (all : List (List ℕ)) → AreStrings self all → cells.strings ≡ all) IsMemory }
    {
        if self.far_ends.is_empty() {
            let Strings { ends, bytes, .. } = self;
            return near_cells(alloc, ends, bytes);
        }
        let array = self.into_array(alloc)?;
        Ok(Cells::far(array))
    }
}

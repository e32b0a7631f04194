//! Arrays of nulls.

ghost use Rattle.std.specs.Prelude.{◌≡◌, ◌+◌, ◌≤◌, None, replicate, refl, IsOk, MatchResult, ⊤};
ghost use Rattle.polars_arrays_bits.specs.Errors.{IsMemory};
ghost use Rattle.polars_arrays_flat.specs.DataType.{kind_of};
ghost use Rattle.polars_arrays_flat.specs.Kind.{NullKind};
ghost use Rattle.polars_arrays_flat.specs.Row.{Null};
ghost use Rattle.polars_arrays_flat.specs.Validity.{window};

use crate::array::Array;
use crate::data_type::ArrowDataType;
use crate::mask::Mask;
use polars_arrays_bits::bitmap::Bitmap;
use polars_arrays_bits::error::ComputeError;
use std::alloc::Global;
use std::marker::Model;

/// An array whose rows are all null. In contracts its value is the number of rows.
#[derive(Drop)]
pub struct NullArray {
    len: usize,
}

impl Model for NullArray {
    ghost use Rattle.std.specs.Prelude.{ℕ};

    ghost Value = { ℕ };

    ghost view = { λ a. a.len };
}

impl NullArray {
    /// Creates an array of `len` nulls.
    pub fn new(len: usize) -> NullArray
        ensures { result ≡ len }
    {
        NullArray { len }
    }

    /// Slices the array in place: only the `n` rows from row `at` on remain.
    #[tactic(auto, using(crate::proofs::RowWindows::windows))]
    pub fn slice(&mut self, at: usize, n: usize)
        requires { at + n ≤ self.old }
        ensures stored { self.new ≡ n }
        ensures rows { replicate self.new Null ≡ window at n (replicate self.old Null) }
    {
        self.len = n;
    }

    /// Clones the array. Always succeeds, since it does not allocate.
    pub fn clone_array(&self, _alloc: Global) -> Result<NullArray, ComputeError>
        ensures copy { MatchResult result (λ copy. copy ≡ self.now) IsMemory }
        ensures succeeds { IsOk result }
    {
        Ok(NullArray { len: self.len })
    }

    /// Returns the array's type. Always succeeds, since it does not allocate.
    pub fn dtype(&self, _alloc: Global) -> Result<ArrowDataType, ComputeError>
        ensures dtype { MatchResult result (λ dtype. kind_of dtype ≡ NullKind) IsMemory }
        ensures succeeds { IsOk result }
    {
        Ok(ArrowDataType::Null)
    }
}

impl Array for NullArray {
    ghost slots = { λ a. replicate a Null };

    ghost validity_bits = { λ a. None };

    ghost mask = { λ a. None };

    ghost nulls = { λ a. a };

    ghost same_type = { λ a b. ⊤ };

    ghost good = { λ a. ⊤ };

    fn len(&self) -> usize {
        self.len
    }

    fn validity(&self) -> Option<&Bitmap> {
        None
    }

    fn missing_mask(&self, _alloc: Global) -> Result<Mask<'_>, ComputeError> {
        Ok(Mask::lent(self.validity()))
    }

    #[tactic(auto, using(crate::proofs::NullCounts::nulls_counted))]
    fn null_count(&self) -> usize {
        self.len
    }

    ghost null_law = { λ a b i within is_null. (refl, refl, (tt, tt)) };
}

//! Arrays of any kind.

ghost use Rattle.std.specs.Option.{option_copied};
ghost use Rattle.std.specs.Prelude.{◌≡◌, ◌+◌, ◌≤◌, IsTrue, MatchResult};
ghost use Rattle.polars_arrays_bits.specs.Errors.{IsMemory};
ghost use Rattle.polars_arrays_flat.specs.Validity.{HasBits};
ghost use Rattle.polars_arrays_nested.specs.Clones.{IsClone};
ghost use Rattle.polars_arrays_nested.specs.Cuts.{IsCut};
ghost use Rattle.polars_arrays_nested.specs.Flat.{is_flat};
ghost use Rattle.polars_arrays_nested.specs.GoodParts.{IsGood};
ghost use Rattle.polars_arrays_nested.specs.Lengths.{len_of, validity_of};

use crate::dictionary::DictionaryArray;
use crate::fixed_size_list::FixedSizeListArray;
use crate::list::ListArray;
use crate::struct_array::StructArray;
use polars_arrays_bits::bitmap::Bitmap;
use polars_arrays_bits::error::ComputeError;
use polars_arrays_bytes::binary::BinaryArray;
use polars_arrays_bytes::fixed_size::FixedSizeBinaryArray;
use polars_arrays_bytes::text::Utf8Array;
use polars_arrays_flat::array::Array;
use polars_arrays_flat::boolean::BooleanArray;
use polars_arrays_flat::null::NullArray;
use polars_arrays_flat::primitive::PrimitiveArray;
use polars_arrays_views::binary_view::BinaryViewArray;
use polars_arrays_views::text_view::Utf8ViewArray;
use std::alloc::Global;

// Matches on the array `$any`, binds the array inside it to `$array`, and evaluates one expression
// for all kinds. In the second form, nested kinds have expressions of their own.
macro_rules! each_array {
    ($any:expr, $array:ident => $each:expr) => {
        each_array!(
            $any,
            $array => $each,
            List($array) => $each,
            FixedSizeList($array) => $each,
            Struct($array) => $each,
            Dictionary($array) => $each,
        )
    };
    ($any:expr, $array:ident => $flat:expr, $($kind:ident($nested:ident) => $arm:expr,)+) => {
        match $any {
            AnyArray::Null($array) => $flat,
            AnyArray::Boolean($array) => $flat,
            AnyArray::Int8($array) => $flat,
            AnyArray::Int16($array) => $flat,
            AnyArray::Int32($array) => $flat,
            AnyArray::Int64($array) => $flat,
            AnyArray::Int128($array) => $flat,
            AnyArray::UInt8($array) => $flat,
            AnyArray::UInt16($array) => $flat,
            AnyArray::UInt32($array) => $flat,
            AnyArray::UInt64($array) => $flat,
            AnyArray::UInt128($array) => $flat,
            AnyArray::Binary($array) => $flat,
            AnyArray::LargeBinary($array) => $flat,
            AnyArray::Utf8($array) => $flat,
            AnyArray::LargeUtf8($array) => $flat,
            AnyArray::BinaryView($array) => $flat,
            AnyArray::Utf8View($array) => $flat,
            AnyArray::FixedSizeBinary($array) => $flat,
            $(AnyArray::$kind($nested) => $arm,)+
        }
    };
}

pub(crate) use each_array;

// Maps an array to an array of the same kind. For the listed kinds, `$each` returns the new array
// in a `Result`, and the macro wraps it in `AnyArray`. For other kinds the result is `$other`.
macro_rules! map_array {
    ($any:expr, $array:ident => $each:expr, $($kind:ident)+, _ => $other:expr) => {
        match $any {
            $(AnyArray::$kind($array) => $each.map(AnyArray::$kind),)+
            _ => $other,
        }
    };
}

/// An array of any kind, with or without child arrays.
#[cycle(arrays)]
#[derive(Drop)]
pub enum AnyArray {
    Null(NullArray),
    Boolean(BooleanArray),
    Int8(PrimitiveArray<i8>),
    Int16(PrimitiveArray<i16>),
    Int32(PrimitiveArray<i32>),
    Int64(PrimitiveArray<i64>),
    Int128(PrimitiveArray<i128>),
    UInt8(PrimitiveArray<u8>),
    UInt16(PrimitiveArray<u16>),
    UInt32(PrimitiveArray<u32>),
    UInt64(PrimitiveArray<u64>),
    UInt128(PrimitiveArray<u128>),
    Binary(BinaryArray<i32>),
    LargeBinary(BinaryArray<i64>),
    Utf8(Utf8Array<i32>),
    LargeUtf8(Utf8Array<i64>),
    BinaryView(BinaryViewArray),
    Utf8View(Utf8ViewArray),
    FixedSizeBinary(FixedSizeBinaryArray),
    List(ListArray),
    FixedSizeList(FixedSizeListArray),
    Struct(StructArray),
    Dictionary(DictionaryArray),
}

impl AnyArray {
    /// Returns the number of rows.
    #[tactic(auto, using(crate::proofs::Lengths::lengths))]
    pub fn len(&self) -> usize
        ensures { result ≡ len_of self.now }
    {
        each_array!(
            self,
            array => array.len(),
            List(array) => array.offsets().len(),
            FixedSizeList(array) => array.len(),
            Struct(array) => array.len(),
            Dictionary(array) => array.keys().len(),
        )
    }

    /// Returns the validity that the array stores: a bit for each row, 0 if the row is masked.
    /// Returns `None` if the array stores no validity. The validity of a dictionary is that of its
    /// keys.
    #[tactic(auto, using(crate::proofs::Lengths::lengths))]
    pub fn validity(&self) -> Option<&Bitmap>
        requires { IsGood self.now }
        ensures validity { option_copied result ≡ validity_of self.now }
        ensures bits { HasBits (len_of self.now) (validity_of self.now) }
    {
        each_array!(self, array => array.validity())
    }

    /// Slices the array in place: only the `n` rows from row `at` on remain.
    #[cycle(slices)]
    #[tactic(auto, using(crate::proofs::Cuts::leaf_cuts))]
    pub fn slice(&mut self, at: usize, n: usize)
        requires good { IsGood self.old }
        requires within { at + n ≤ len_of self.old }
        ensures { IsCut self.new self.old at n }
    {
        each_array!(self, array => array.slice(at, n))
    }

    /// Clones the array. The error is `Memory`.
    #[cycle(clones)]
    #[tactic(auto, using(crate::proofs::Clones::copies))]
    pub fn clone_array(&self, alloc: Global) -> Result<AnyArray, ComputeError>
        ensures { MatchResult result (λ copy. IsClone copy self.now) IsMemory }
    {
        map_array!(
            self,
            array => array.clone_array(alloc),
            List FixedSizeList Struct Dictionary,
            _ => self.clone_flat(alloc)
        )
    }

    // Clones an array that has no child arrays. The error is `Memory`. This is a separate function,
    // so that each level of a nested array takes a third less stack in `clone_array`.
    #[tactic(auto, using(crate::proofs::Flat::flat))]
    fn clone_flat(&self, alloc: Global) -> Result<AnyArray, ComputeError>
        requires { IsTrue (is_flat self.now) }
        ensures { MatchResult result (λ copy. IsClone copy self.now) IsMemory }
    {
        map_array!(
            self,
            array => array.clone_array(alloc),
            Null Boolean Int8 Int16 Int32 Int64 Int128 UInt8 UInt16 UInt32 UInt64 UInt128 Binary
            LargeBinary Utf8 LargeUtf8 BinaryView Utf8View FixedSizeBinary,
            _ => unreachable!()
        )
    }
}

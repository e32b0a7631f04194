//! Number types that have states, and their arrays among those of any kind.

use polars_arrays_flat::primitive::PrimitiveArray;
use polars_arrays_nested::any_array::AnyArray;
use polars_compute_slots::number::UniqueNumber;
use recorded_text::fault::Fault;
use std::fmt::Display;
use std::str::FromStr;

/// Returns the array that `$any`, an `AnyArray`, holds, if it is of the kind `$kind`. The error is
/// `Case` if it is of another kind.
macro_rules! rows_in {
    ($any:expr, $kind:ident) => {
        match $any {
            AnyArray::$kind(rows) => Ok(rows),
            _ => Err(Fault::Case),
        }
    };
}

pub(crate) use rows_in;

/// A number type for which there are states of distinct values. Numbers of this type can be read
/// from words, and one kind of `AnyArray` holds them.
pub trait RecordedNumber: UniqueNumber + Display + FromStr<Err: Drop> {
    /// Returns the array that `any` holds, if its numbers are of this type. The error is `Case` if
    /// they are not.
    fn rows_in(any: &AnyArray) -> Result<&PrimitiveArray<Self>, Fault>;
}

impl RecordedNumber for i8 {
    fn rows_in(any: &AnyArray) -> Result<&PrimitiveArray<i8>, Fault> {
        rows_in!(any, Int8)
    }
}

impl RecordedNumber for i16 {
    fn rows_in(any: &AnyArray) -> Result<&PrimitiveArray<i16>, Fault> {
        rows_in!(any, Int16)
    }
}

impl RecordedNumber for i32 {
    fn rows_in(any: &AnyArray) -> Result<&PrimitiveArray<i32>, Fault> {
        rows_in!(any, Int32)
    }
}

impl RecordedNumber for i64 {
    fn rows_in(any: &AnyArray) -> Result<&PrimitiveArray<i64>, Fault> {
        rows_in!(any, Int64)
    }
}

impl RecordedNumber for u8 {
    fn rows_in(any: &AnyArray) -> Result<&PrimitiveArray<u8>, Fault> {
        rows_in!(any, UInt8)
    }
}

impl RecordedNumber for u16 {
    fn rows_in(any: &AnyArray) -> Result<&PrimitiveArray<u16>, Fault> {
        rows_in!(any, UInt16)
    }
}

impl RecordedNumber for u32 {
    fn rows_in(any: &AnyArray) -> Result<&PrimitiveArray<u32>, Fault> {
        rows_in!(any, UInt32)
    }
}

impl RecordedNumber for u64 {
    fn rows_in(any: &AnyArray) -> Result<&PrimitiveArray<u64>, Fault> {
        rows_in!(any, UInt64)
    }
}

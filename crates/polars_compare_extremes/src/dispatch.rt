//! The least and the greatest row of an array of any kind (`AnyArray`).

ghost use Rattle.polars_arrays_nested.specs.AnyRows.{rows};
ghost use Rattle.polars_arrays_nested.specs.Types.{type_of};
ghost use Rattle.polars_compare_extremes.specs.Scalars.{AnswersKind, AreExtremes, IsExtreme};

use crate::extreme::{
    Extreme, bytes_extreme, number_extreme, text_extreme, text_view_extreme, truth_extreme,
    view_extreme,
};
use crate::scalar::AnyScalar;
use polars_arrays_bits::error::ComputeError;
use polars_arrays_nested::any_array::AnyArray;

// Matches on the kind of an array, and calls the function that precedes the kind in the list. Kinds
// that aren't in the list give the error `Unsupported`.
macro_rules! each_extreme {
    (($any:expr, $extreme:expr), $($found:ident: $($kind:ident)+);+) => {
        match $any {
            $($(AnyArray::$kind(array) => match $found(array, $extreme) {
                Some(found) => Ok(Some(AnyScalar::$kind(found))),
                None => Ok(None),
            },)+)+
            AnyArray::Null(_) => Err(ComputeError::Unsupported),
            AnyArray::FixedSizeBinary(_) => Err(ComputeError::Unsupported),
            AnyArray::List(_) => Err(ComputeError::Unsupported),
            AnyArray::FixedSizeList(_) => Err(ComputeError::Unsupported),
            AnyArray::Struct(_) => Err(ComputeError::Unsupported),
            AnyArray::Dictionary(_) => Err(ComputeError::Unsupported),
        }
    };
}

// Returns the least or the greatest present row, as `extreme` says, or `None` if no row is present.
// Fails with `Unsupported` if the kind of the array has no extremes, as listed at
// `dyn_array_min_ignore_nan`.
#[tactic(auto, using(crate::proofs::ListKinds::no_extremes))]
fn any_extreme(array: &AnyArray, extreme: Extreme) -> Result<Option<AnyScalar<'_>>, ComputeError>
    ensures { AnswersKind (type_of array.now) result
        (IsExtreme extreme (type_of array.now) (rows array.now)) }
{
    each_extreme!(
        (array, extreme),
        truth_extreme: Boolean;
        number_extreme: Int8 Int16 Int32 Int64 Int128 UInt8 UInt16 UInt32 UInt64 UInt128;
        bytes_extreme: Binary LargeBinary;
        text_extreme: Utf8 LargeUtf8;
        view_extreme: BinaryView;
        text_view_extreme: Utf8View
    )
}

/// Returns the least present row, or `None` if no row is present. Bytes and texts are borrowed from
/// the array. Fails with `Unsupported` if and only if the array is a `Null`, `FixedSizeBinary`,
/// `List`, `FixedSizeList`, `Struct` or `Dictionary` array. Does not allocate. No row is a NaN; the
/// name is that of polars.
pub fn dyn_array_min_ignore_nan(array: &AnyArray) -> Result<Option<AnyScalar<'_>>, ComputeError>
    ensures { AnswersKind (type_of array.now) result
        (IsExtreme Extreme.Least (type_of array.now) (rows array.now)) }
{
    any_extreme(array, Extreme::Least)
}

/// Returns the greatest present row, or `None` if no row is present. Bytes and texts are borrowed
/// from the array. Fails with `Unsupported` for the same kinds of array as
/// `dyn_array_min_ignore_nan`. Does not allocate.
pub fn dyn_array_max_ignore_nan(array: &AnyArray) -> Result<Option<AnyScalar<'_>>, ComputeError>
    ensures { AnswersKind (type_of array.now) result
        (IsExtreme Extreme.Greatest (type_of array.now) (rows array.now)) }
{
    any_extreme(array, Extreme::Greatest)
}

/// Returns the least present row, or `None` if no row is present. No row is a NaN, so the result
/// and the error are those of `dyn_array_min_ignore_nan`.
pub fn dyn_array_min_propagate_nan(array: &AnyArray) -> Result<Option<AnyScalar<'_>>, ComputeError>
    ensures { AnswersKind (type_of array.now) result
        (IsExtreme Extreme.Least (type_of array.now) (rows array.now)) }
{
    any_extreme(array, Extreme::Least)
}

/// Returns the greatest present row, or `None` if no row is present. No row is a NaN, so the result
/// and the error are those of `dyn_array_max_ignore_nan`.
pub fn dyn_array_max_propagate_nan(array: &AnyArray) -> Result<Option<AnyScalar<'_>>, ComputeError>
    ensures { AnswersKind (type_of array.now) result
        (IsExtreme Extreme.Greatest (type_of array.now) (rows array.now)) }
{
    any_extreme(array, Extreme::Greatest)
}

/// Returns the least and the greatest present row, or `None` if no row is present. Bytes and texts
/// are borrowed from the array. Fails with `Unsupported` for the same kinds of array as
/// `dyn_array_min_ignore_nan`. Does not allocate.
pub fn dyn_array_min_max_propagate_nan(
    array: &AnyArray,
) -> Result<Option<(AnyScalar<'_>, AnyScalar<'_>)>, ComputeError>
    ensures { AnswersKind (type_of array.now) result
        (AreExtremes (type_of array.now) (rows array.now)) }
{
    let least = any_extreme(array, Extreme::Least)?;
    let greatest = any_extreme(array, Extreme::Greatest)?;
    match (least, greatest) {
        (Some(least), Some(greatest)) => Ok(Some((least, greatest))),
        _ => Ok(None),
    }
}

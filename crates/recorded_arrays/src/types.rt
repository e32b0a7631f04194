//! Types of arrays as text, and comparisons of the types of two arrays.

use crate::values_text::write_value;
use polars_arrays_bits::error::ComputeError;
use polars_arrays_bytes::offset_type::OffsetType;
use polars_arrays_flat::data_type::{ArrowDataType, Field, is_struct_of, same_fields};
use polars_arrays_nested::any_array::AnyArray;
use polars_arrays_nested::data_types::clone_type;
use recorded_text::fault::Fault;
use recorded_text::type_text::write_type;
use recorded_text::words::Words;
use std::alloc::Global;

/// Returns the text `true` if `comparison` holds for the types of `left` and `right`, otherwise
/// `false`. Returns the error `Case` if `comparison` needs fields that the types do not have.
pub fn write_comparison(
    alloc: Global,
    left: &AnyArray,
    right: &AnyArray,
    comparison: NamedComparison,
) -> Result<String, Fault> {
    write_value(alloc, is_told(alloc, left, right, comparison)?)
}

/// A comparison of the types of two arrays. `Equal` and `EqualField` use `==`, `StructOf` uses
/// `is_struct_of`, and each other variant uses the function or method of its name. `SameField` and
/// `EqualField` compare the first fields of structs.
#[derive(Clone, Copy)]
pub enum NamedComparison {
    SameType,
    HasType,
    SameKind,
    Equal,
    SameFields,
    StructOf,
    SameField,
    EqualField,
}

// Returns whether `comparison` holds for the types of `left` and `right`. Returns the error `Case`
// if `comparison` needs fields that the types do not have.
fn is_told(
    alloc: Global,
    left: &AnyArray,
    right: &AnyArray,
    comparison: NamedComparison,
) -> Result<bool, Fault> {
    match comparison {
        NamedComparison::SameType => Ok(left.same_type(right)),
        NamedComparison::HasType => has_type(left, right.dtype(alloc)),
        NamedComparison::SameKind | NamedComparison::Equal => {
            compare_types(alloc, left, right, comparison)
        }
        NamedComparison::SameFields => Ok(same_fields(fields(left)?, fields(right)?)),
        NamedComparison::StructOf => has_fields(fields(left)?, right.dtype(alloc)),
        NamedComparison::SameField => Ok(first_field(left)?.same_field(first_field(right)?)),
        NamedComparison::EqualField => Ok(first_field(left)? == first_field(right)?),
    }
}

// Returns whether `array` has the type `dtype`. If `dtype` is an error, returns it as a `Fault`.
fn has_type(array: &AnyArray, dtype: Result<ArrowDataType, ComputeError>) -> Result<bool, Fault> {
    let dtype = dtype?;
    let holds = array.has_type(&dtype);
    drop(dtype);
    Ok(holds)
}

// Returns whether `dtype` is the type of structs with exactly the fields `fields`. If `dtype` is an
// error, returns it as a `Fault`.
fn has_fields(fields: &[Field], dtype: Result<ArrowDataType, ComputeError>) -> Result<bool, Fault> {
    let dtype = dtype?;
    let holds = is_struct_of(fields, &dtype);
    drop(dtype);
    Ok(holds)
}

// Returns whether the types of `left` and `right` are equal, by `same_kind` if `comparison` is
// `SameKind`, otherwise by `==`.
fn compare_types(
    alloc: Global,
    left: &AnyArray,
    right: &AnyArray,
    comparison: NamedComparison,
) -> Result<bool, Fault> {
    let dtype = left.dtype(alloc)?;
    let holds = compare_type(&dtype, right.dtype(alloc), comparison);
    drop(dtype);
    holds
}

// Returns whether the types `left` and `right` are equal, by `same_kind` if `comparison` is
// `SameKind`, otherwise by `==`. If `right` is an error, returns it as a `Fault`.
fn compare_type(
    left: &ArrowDataType,
    right: Result<ArrowDataType, ComputeError>,
    comparison: NamedComparison,
) -> Result<bool, Fault> {
    let right = right?;
    let holds = match comparison {
        NamedComparison::SameKind => left.same_kind(&right),
        _ => *left == right,
    };
    drop(right);
    Ok(holds)
}

// Returns the fields of an array of structs. Returns the error `Case` for an array of another kind.
fn fields(array: &AnyArray) -> Result<&[Field], Fault> {
    match array {
        AnyArray::Struct(array) => Ok(array.fields()),
        _ => Err(Fault::Case),
    }
}

// Returns the first field of an array of structs. Returns the error `Case` for an array of another
// kind, or if the structs have no fields.
fn first_field(array: &AnyArray) -> Result<&Field, Fault> {
    match fields(array)?.first() {
        Some(field) => Ok(field),
        None => Err(Fault::Case),
    }
}

// Returns the text of the type `made`, and drops the type. If `made` is an error, returns it as a
// `Fault`.
pub fn write_made_type(
    alloc: Global,
    made: Result<ArrowDataType, ComputeError>,
) -> Result<String, Fault> {
    let dtype = made?;
    let text = write_type(alloc, &dtype);
    drop(dtype);
    text
}

/// Returns the type of `array` as text.
pub fn dtype(alloc: Global, array: &AnyArray) -> Result<String, Fault> {
    write_made_type(alloc, array.dtype(alloc))
}

/// Clones the type of `array`, and returns the clone as text.
pub fn copied_type(alloc: Global, array: &AnyArray) -> Result<String, Fault> {
    let dtype = array.dtype(alloc)?;
    let copy = clone_type(alloc, &dtype);
    drop(dtype);
    write_made_type(alloc, copy)
}

/// The rows of an array with offsets: byte strings, or texts in UTF-8.
#[derive(Clone, Copy)]
pub enum Strings {
    Bytes,
    Texts,
}

/// Reads the type of the offsets, `i32` or `i64`, from the next word, and returns as text the type
/// of an array of `strings` with these offsets. Returns the error `Word` for another word.
pub fn strings_data_type(
    alloc: Global,
    strings: Strings,
    words: &mut Words,
) -> Result<String, Fault> {
    match words.read()? {
        "i32" => write_made_type(alloc, Ok(data_type::<i32>(strings))),
        "i64" => write_made_type(alloc, Ok(data_type::<i64>(strings))),
        _ => Err(Fault::Word),
    }
}

// Returns the type of an array of `strings` with offsets of type `O`.
fn data_type<O: OffsetType>(strings: Strings) -> ArrowDataType {
    match strings {
        Strings::Bytes => O::binary_data_type(),
        Strings::Texts => O::text_data_type(),
    }
}

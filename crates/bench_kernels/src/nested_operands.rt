//! Nested arrays as operands, created once for many runs.

ghost use Rattle.std.specs.List.{All};
ghost use Rattle.std.specs.Prelude.{◌≡◌, IfOk, Ok};
ghost use Rattle.polars_arrays_nested.specs.GoodParts.{IsGood};

use crate::operands::{number_array, or_unsupported, push, shared};
use crate::string_operands::texts;
use polars_arrays_bits::bitmap::Bitmap;
use polars_arrays_bits::buffer::Buffer;
use polars_arrays_bits::error::ComputeError;
use polars_arrays_flat::data_type::{ArrowDataType, Field};
use polars_arrays_flat::primitive::PrimitiveArray;
use polars_arrays_nested::any_array::AnyArray;
use polars_arrays_nested::dict_keys::DictKeys;
use polars_arrays_nested::dictionary::DictionaryArray;
use polars_arrays_nested::fixed_size_list::FixedSizeListArray;
use polars_arrays_nested::list::ListArray;
use polars_arrays_nested::list_offsets::ListOffsets;
use polars_arrays_nested::struct_array::StructArray;
use std::alloc::Global;

/// The type of an array, and the use of its parts.
#[derive(Clone, Copy)]
pub(crate) enum NestedType {
    /// Lists of the numbers in `items`, between the offsets in `offsets`. A list is null if its bit
    /// of `present` is 0.
    Lists,
    /// Lists of `size` numbers each from `items`. Numbers after the last whole list are left out.
    FixedLists,
    /// Structs of columns of `size` rows each. The columns follow one another in `items`. If
    /// `offsets` is not empty, a last column has the texts between these offsets in `bytes`. A text
    /// is null if its bit of `present` is 0.
    Structs,
    /// Dictionaries with the keys `items`. The entries are the texts between `offsets` in `bytes`.
    /// An entry is null if its bit of `present` is 0.
    Dictionaries,
    /// A single row: the first number of `items`, or 0 if there is none, inside `size` levels of
    /// lists of one row.
    DeepLists,
    /// Lists of the texts between `offsets` in `bytes`. The offsets of the lists are in `items`. A
    /// text is null if its bit of `present` is 0.
    TextLists,
}

/// The parts of an array. `NestedType` says which of them each type uses, and what for. The bits of
/// `present` are a validity. If `present` is empty, there is no validity.
#[derive(Drop)]
pub(crate) struct Parts<'a> {
    pub(crate) size: usize,
    pub(crate) offsets: &'a [i32],
    pub(crate) items: &'a [i32],
    pub(crate) present: &'a [u64],
    pub(crate) bytes: &'a [u8],
}

// Creates a bitmap of the first `rows` bits of a copy of `words`. Returns `None` if `words` is
// empty. The error is `Unsupported` if `words` has too few bits. Any other error is `Memory`.
fn validity(alloc: Global, words: &[u64], rows: usize) -> Result<Option<Bitmap>, ComputeError> {
    if words.is_empty() {
        return Ok(None);
    }
    if words.len() < rows.div_ceil(64) {
        return Err(ComputeError::Unsupported);
    }
    let words = shared(alloc, words)?;
    Ok(Some(Bitmap::from_words(words, 0, rows)))
}

/// Puts the value of `made` in a box. If `made` is an error, returns this error. Any other error is
/// `Memory`.
pub(crate) fn boxed<T: Drop>(
    alloc: Global,
    made: Result<T, ComputeError>,
) -> Result<Box<T>, ComputeError>
    ensures { IfOk result (λ boxed. made ≡ Ok boxed.value) }
{
    let boxed = Box::new(alloc, made?)?;
    Ok(boxed)
}

// Puts `array` in a box. The error is `Memory`.
fn boxed_array(alloc: Global, array: AnyArray) -> Result<Box<AnyArray>, ComputeError>
    requires { IsGood array }
    ensures { IfOk result (λ a. IsGood a.value) }
{
    let array = Box::new(alloc, array)?;
    Ok(array)
}

// Creates an array of the numbers in `items`, without a validity. The error is `Memory`.
fn item_array(alloc: Global, items: &[i32]) -> Result<Box<AnyArray>, ComputeError>
    ensures { IfOk result (λ a. IsGood a.value) }
{
    boxed(alloc, number_array(alloc, items, None).map(AnyArray::Int32))
}

// Creates an array of lists of the rows of `items` between `offsets`. The error is `Unsupported` if
// the offsets, the items and the validity make no array. Any other error is `Memory`.
fn lists_of(
    alloc: Global,
    offsets: Buffer<i32>,
    items: Box<AnyArray>,
    validity: Option<Bitmap>,
) -> Result<Box<AnyArray>, ComputeError>
    requires { IsGood items.value }
    ensures { IfOk result (λ a. IsGood a.value) }
{
    let lists = ListArray::try_new(ListOffsets::Small(offsets), items, validity);
    boxed(alloc, or_unsupported(lists).map(AnyArray::List))
}

// Creates the array of type `Lists` from `parts`. The error is `Unsupported` if these make no
// array. Any other error is `Memory`.
fn list_array(alloc: Global, parts: &Parts) -> Result<Box<AnyArray>, ComputeError>
    ensures { IfOk result (λ a. IsGood a.value) }
{
    let items = item_array(alloc, parts.items)?;
    let validity = validity(alloc, parts.present, parts.offsets.len().saturating_sub(1))?;
    lists_of(alloc, shared(alloc, parts.offsets)?, items, validity)
}

// Creates an array of lists of `width` numbers each from `items`. Drops the numbers after the last
// whole list, and all numbers if `width` is 0. The error is `Memory`.
fn fixed_list_array(
    alloc: Global,
    width: usize,
    items: &[i32],
) -> Result<Box<AnyArray>, ComputeError>
    ensures { IfOk result (λ a. IsGood a.value) }
{
    let rows = items.len().checked_div(width).unwrap_or(0);
    let items = items.get(..rows.saturating_mul(width)).unwrap_or(items);
    let lists = FixedSizeListArray::try_new(width, rows, item_array(alloc, items)?, None);
    boxed(alloc, or_unsupported(lists).map(AnyArray::FixedSizeList))
}

// Returns the number of whole columns of `rows` numbers in `values`, or 0 if `rows` is 0.
fn column_count(rows: usize, values: &[i32]) -> usize {
    values.len().checked_div(rows).unwrap_or(0)
}

// Returns column `k` of `values`, in which columns of `rows` numbers follow one another. Returns an
// empty slice if there is no such column.
fn column(rows: usize, values: &[i32], k: usize) -> &[i32] {
    let first = rows.saturating_mul(k);
    values.get(first..first.saturating_add(rows)).unwrap_or(&[])
}

/// Creates an array for each whole column in `values`, in which columns of `rows` numbers follow
/// one another. The error is `Memory`.
pub(crate) fn columns(
    alloc: Global,
    rows: usize,
    values: &[i32],
) -> Result<Vec<PrimitiveArray<i32>>, ComputeError> {
    let mut columns = Vec::new(alloc);
    for k in 0..column_count(rows, values) {
        push(
            &mut columns,
            number_array(alloc, column(rows, values, k), None),
        )?;
    }
    Ok(columns)
}

// Creates an array of column `k` of `values`, in which columns of `rows` numbers follow one
// another. The error is `Memory`.
fn column_array(
    alloc: Global,
    rows: usize,
    values: &[i32],
    k: usize,
) -> Result<AnyArray, ComputeError>
    ensures { IfOk result (λ a. IsGood a) }
{
    number_array(alloc, column(rows, values, k), None).map(AnyArray::Int32)
}

// Appends a column of the texts in `parts` to `columns`, and its field to `fields`. Does nothing if
// `parts.offsets` is empty. The error is `Unsupported` if the parts make no array of texts. Any
// other error is `Memory`.
fn push_texts(
    alloc: Global,
    fields: &mut Vec<Field>,
    columns: &mut Vec<AnyArray>,
    parts: &Parts,
) -> Result<(), ComputeError>
    requires { All IsGood columns.old.items }
    ensures { IfOk result (λ _. All IsGood columns.new.items) }
{
    if parts.offsets.is_empty() {
        return Ok(());
    }
    let name = String::from_str(alloc, "text")?;
    let dtype = ArrowDataType::Utf8;
    fields.push(Field { name, dtype })?;
    columns.push(text_array(alloc, parts)?)?;
    Ok(())
}

// Creates the array of type `Structs` from `parts`. The error is `Unsupported` if these make no
// array. Any other error is `Memory`.
fn struct_array(alloc: Global, parts: &Parts) -> Result<Box<AnyArray>, ComputeError>
    ensures { IfOk result (λ a. IsGood a.value) }
{
    let (rows, values) = (parts.size, parts.items);
    let mut fields = Vec::new(alloc);
    let mut columns = Vec::new(alloc);
    for k in 0..column_count(rows, values) {
        let name = String::from_str(alloc, "column")?;
        let dtype = ArrowDataType::Int32;
        fields.push(Field { name, dtype })?;
        columns.push(column_array(alloc, rows, values, k)?)?;
    }
    push_texts(alloc, &mut fields, &mut columns, parts)?;
    let array = or_unsupported(StructArray::try_new(fields, rows, columns, None))?;
    boxed_array(alloc, AnyArray::Struct(array))
}

// Creates an array of the texts between `parts.offsets` in `parts.bytes`. A text is null if its bit
// of `parts.present` is 0. The error is `Unsupported` if the parts make no array. Any other error
// is `Memory`.
fn text_array(alloc: Global, parts: &Parts) -> Result<AnyArray, ComputeError>
    ensures { IfOk result (λ a. IsGood a) }
{
    let validity = validity(alloc, parts.present, parts.offsets.len().saturating_sub(1))?;
    texts(alloc, parts.offsets, parts.bytes, validity).map(AnyArray::Utf8)
}

// Creates the array of type `TextLists` from `parts`. The error is `Unsupported` if these make no
// array. Any other error is `Memory`.
fn text_list_array(alloc: Global, parts: &Parts) -> Result<Box<AnyArray>, ComputeError>
    ensures { IfOk result (λ a. IsGood a.value) }
{
    let texts = boxed(alloc, text_array(alloc, parts))?;
    lists_of(alloc, shared(alloc, parts.items)?, texts, None)
}

// Creates the array of type `Dictionaries` from `parts`. The error is `Unsupported` if these make
// no array. Any other error is `Memory`.
fn dictionary_array(alloc: Global, parts: &Parts) -> Result<Box<AnyArray>, ComputeError>
    ensures { IfOk result (λ a. IsGood a.value) }
{
    let entries = boxed(alloc, text_array(alloc, parts))?;
    let keys = number_array(alloc, parts.items, None)?;
    let rows = DictionaryArray::try_new(DictKeys::UInt32(keys), entries);
    boxed(alloc, or_unsupported(rows).map(AnyArray::Dictionary))
}

// Creates an array with one list, which has the first row of `items`. The error is `Unsupported` if
// `items` has no row. Any other error is `Memory`.
fn listed(alloc: Global, items: Box<AnyArray>) -> Result<Box<AnyArray>, ComputeError>
    requires { IsGood items.value }
    ensures { IfOk result (λ a. IsGood a.value) }
{
    let offsets = Vec::from_slice(alloc, &[0i32, 1])?;
    lists_of(alloc, Buffer::from_vec(offsets), items, None)
}

// Creates an array whose only row is `value` inside `levels` levels of lists of one row. The error
// is `Memory`.
fn deep_list_array(alloc: Global, levels: usize, value: i32) -> Result<Box<AnyArray>, ComputeError>
    ensures { IfOk result (λ a. IsGood a.value) }
{
    let mut array = item_array(alloc, &[value])?;
    for _level in 0..levels {
        array = listed(alloc, array)?;
    }
    Ok(array)
}

/// Creates the array of type `nested_type` from `parts`. The error is `Unsupported` if these make
/// no array. Any other error is `Memory`.
pub(crate) fn nested_array(
    alloc: Global,
    nested_type: NestedType,
    parts: &Parts,
) -> Result<Box<AnyArray>, ComputeError>
    ensures { IfOk result (λ a. IsGood a.value) }
{
    match nested_type {
        NestedType::Lists => list_array(alloc, parts),
        NestedType::FixedLists => fixed_list_array(alloc, parts.size, parts.items),
        NestedType::Structs => struct_array(alloc, parts),
        NestedType::Dictionaries => dictionary_array(alloc, parts),
        NestedType::DeepLists => {
            let first = parts.items.first().copied().unwrap_or(0);
            deep_list_array(alloc, parts.size, first)
        }
        NestedType::TextLists => text_list_array(alloc, parts),
    }
}

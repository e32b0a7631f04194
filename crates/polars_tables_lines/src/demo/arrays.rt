//! Makes the arrays of the demo from their parts. Each array is returned in a box. Functions fail
//! with `Parts` if the parts do not make an array, and with `Memory` if an allocation fails.

ghost use Rattle.std.specs.Prelude.{IfOk, IfSome};
ghost use Rattle.std.specs.List.{All};
ghost use Rattle.polars_arrays_nested.specs.GoodParts.{IsGood};

use crate::demo::fault::Fault;
use polars_arrays_bits::bitmap::Bitmap;
use polars_arrays_bits::buffer::Buffer;
use polars_arrays_bytes::text::Utf8Array;
use polars_arrays_flat::data_type::Field;
use polars_arrays_flat::null::NullArray;
use polars_arrays_flat::primitive::PrimitiveArray;
use polars_arrays_nested::any_array::AnyArray;
use polars_arrays_nested::dict_keys::DictKeys;
use polars_arrays_nested::dictionary::DictionaryArray;
use polars_arrays_nested::fixed_size_list::FixedSizeListArray;
use polars_arrays_nested::list::ListArray;
use polars_arrays_nested::list_offsets::ListOffsets;
use polars_arrays_nested::struct_array::StructArray;
use polars_arrays_views::binary_view::BinaryViewArray;
use polars_arrays_views::view::View;
use std::alloc::Global;

// Creates a validity: row `i` is present if `present[i]` is true. Returns `None` if `present` is
// `None`, so that all rows are present.
fn validity(alloc: Global, present: Option<&[bool]>) -> Result<Option<Bitmap>, Fault> {
    match present {
        Some(present) => Ok(Some(Bitmap::from_bools(alloc, present)?)),
        None => Ok(None),
    }
}

// Moves an array into a new box.
fn boxed(alloc: Global, array: AnyArray) -> Result<Box<AnyArray>, Fault>
    requires { IsGood array }
    ensures { IfOk result (λ boxed. IsGood boxed.value) }
{
    Ok(Box::new(alloc, array)?)
}

// Copies `elements` into a new buffer.
fn buffer<T: Copy>(alloc: Global, elements: &[T]) -> Result<Buffer<T>, Fault> {
    Ok(Buffer::from_vec(Vec::from_slice(alloc, elements)?))
}

/// Creates an array of numbers without nulls.
pub fn numbers(alloc: Global, values: &[i32]) -> Result<Box<AnyArray>, Fault>
    ensures { IfOk result (λ array. IsGood array.value) }
{
    let array = PrimitiveArray::from_vec(Vec::from_slice(alloc, values)?);
    boxed(alloc, AnyArray::Int32(array))
}

/// Creates an array of `len` nulls.
pub fn nulls(alloc: Global, len: usize) -> Result<Box<AnyArray>, Fault>
    ensures { IfOk result (λ array. IsGood array.value) }
{
    boxed(alloc, AnyArray::Null(NullArray::new(len)))
}

// Creates a buffer of `offsets`, and a validity as `validity` does.
fn row_parts(
    alloc: Global,
    offsets: &[i32],
    present: Option<&[bool]>,
) -> Result<(Buffer<i32>, Option<Bitmap>), Fault> {
    let validity = validity(alloc, present)?;
    let offsets = buffer(alloc, offsets)?;
    Ok((offsets, validity))
}

/// Creates an array of texts: text `i` is `bytes[ends[i]..ends[i + 1]]`, so `ends` begins with the
/// start of the first text. Row `i` is null if `present[i]` is false. Without `present`, no row is
/// null.
pub fn texts(
    alloc: Global,
    ends: &[i32],
    bytes: &str,
    present: Option<&[bool]>,
) -> Result<Box<AnyArray>, Fault>
    ensures { IfOk result (λ array. IsGood array.value) }
{
    let bytes = buffer(alloc, bytes.as_bytes())?;
    let (ends, validity) = row_parts(alloc, ends, present)?;
    let array = Utf8Array::try_new(ends, bytes, validity)?;
    boxed(alloc, AnyArray::Utf8(array))
}

/// Creates an array of lists: list `i` has the items `offsets[i]..offsets[i + 1]`. Row `i` is null
/// if `present[i]` is false. Without `present`, no row is null.
pub fn lists(
    alloc: Global,
    offsets: &[i32],
    present: Option<&[bool]>,
    items: Box<AnyArray>,
) -> Result<Box<AnyArray>, Fault>
    requires { IsGood items.value }
    ensures { IfOk result (λ array. IsGood array.value) }
{
    match row_parts(alloc, offsets, present) {
        Ok((offsets, validity)) => {
            let array = ListArray::try_new(ListOffsets::Small(offsets), items, validity)?;
            boxed(alloc, AnyArray::List(array))
        }
        Err(fault) => {
            drop(items);
            Err(fault)
        }
    }
}

/// Creates an array of empty lists, one for each element of `present`. Row `i` is null if
/// `present[i]` is false.
pub fn empty_lists(alloc: Global, present: &[bool]) -> Result<Box<AnyArray>, Fault>
    ensures { IfOk result (λ array. IsGood array.value) }
{
    let validity = validity(alloc, Some(present))?;
    let items = numbers(alloc, &[])?;
    let array = FixedSizeListArray::try_new(0, present.len(), items, validity)?;
    boxed(alloc, AnyArray::FixedSizeList(array))
}

/// Creates a dictionary array. Row `i` is the entry at index `keys[i]`, or null if `present[i]` is
/// false.
pub fn entries(
    alloc: Global,
    keys: &[u32],
    present: &[bool],
    entries: Box<AnyArray>,
) -> Result<Box<AnyArray>, Fault>
    requires { IsGood entries.value }
    ensures { IfOk result (λ array. IsGood array.value) }
{
    match entry_keys(alloc, keys, present) {
        Ok(keys) => {
            let array = DictionaryArray::try_new(DictKeys::UInt32(keys), entries)?;
            boxed(alloc, AnyArray::Dictionary(array))
        }
        Err(fault) => {
            drop(entries);
            Err(fault)
        }
    }
}

// Creates an array of keys. Row `i` is null if `present[i]` is false.
fn entry_keys(alloc: Global, keys: &[u32], present: &[bool]) -> Result<PrimitiveArray<u32>, Fault> {
    let keys = buffer(alloc, keys)?;
    let validity = validity(alloc, Some(present))?;
    Ok(PrimitiveArray::try_new(keys, validity)?)
}

// Creates a vector of one buffer, which has these bytes.
fn one_buffer(alloc: Global, bytes: &[u8]) -> Result<Vec<Buffer<u8>>, Fault> {
    let mut buffers = Vec::new(alloc);
    buffers.push(buffer(alloc, bytes)?)?;
    Ok(buffers)
}

/// Creates an array of byte strings without nulls from their views. Strings of more than 12 bytes
/// lie in a single buffer, which has `bytes`.
pub fn strings(alloc: Global, views: &[View], bytes: &[u8]) -> Result<Box<AnyArray>, Fault>
    ensures { IfOk result (λ array. IsGood array.value) }
{
    let views = buffer(alloc, views)?;
    let buffers = one_buffer(alloc, bytes)?;
    let array = BinaryViewArray::try_new(views, buffers, None)?;
    boxed(alloc, AnyArray::BinaryView(array))
}

// Appends a column to `columns`, and its name and type to `fields`.
fn push_column(
    alloc: Global,
    fields: &mut Vec<Field>,
    columns: &mut Vec<AnyArray>,
    name: &str,
    column: Box<AnyArray>,
) -> Result<(), Fault>
    requires columns { All IsGood columns.old.items }
    requires column { IsGood column.value }
    ensures { All IsGood columns.new.items }
{
    let dtype = column.dtype(alloc)?;
    let name = String::from_str(alloc, name)?;
    fields.push(Field { name, dtype })?;
    columns.push(Box::into_inner(column))?;
    Ok(())
}

/// Creates an array of structs without nulls. The first field is named `a`. If there is a second
/// array, its field is named `b`.
pub fn structs(
    alloc: Global,
    first: Box<AnyArray>,
    second: Option<Box<AnyArray>>,
) -> Result<Box<AnyArray>, Fault>
    requires first { IsGood first.value }
    requires second { IfSome second (λ array. IsGood array.value) }
    ensures { IfOk result (λ array. IsGood array.value) }
{
    let len = first.len();
    let mut fields = Vec::new(alloc);
    let mut columns = Vec::new(alloc);
    push_column(alloc, &mut fields, &mut columns, "a", first)?;
    if let Some(second) = second {
        push_column(alloc, &mut fields, &mut columns, "b", second)?;
    }
    let array = StructArray::try_new(fields, len, columns, None)?;
    boxed(alloc, AnyArray::Struct(array))
}

//! Functions that read arrays of any kind.
//!
//! In all of them, `kept` says whether the parts of an array own their elements or share them with
//! clones. In `read_array` and `read_whole`, `depth` is the greatest number of levels of lists,
//! structs and dictionaries in the array that is read. In other functions, it is the greatest
//! number of such levels in the arrays inside that array. The errors of reading are `Word` if a
//! word is missing or wrong, `Parts` if the parts make no array, `Depth` if the array is nested too
//! deeply, and `Memory` if an allocation fails.

ghost use Rattle.std.specs.Prelude.{IfOk};
ghost use Rattle.std.specs.List.{All};
ghost use Rattle.polars_arrays_nested.specs.GoodParts.{IsGood};

use crate::fault::Fault;
use crate::flat::{
    read_binary, read_binary_view, read_booleans, read_integers, read_sized, read_text,
    read_text_view,
};
use crate::parts::{Kept, read_kept_numbers, read_validity};
use crate::words::Words;
use polars_arrays_bits::bitmap::Bitmap;
use polars_arrays_flat::data_type::Field;
use polars_arrays_flat::null::NullArray;
use polars_arrays_nested::any_array::AnyArray;
use polars_arrays_nested::dict_keys::DictKeys;
use polars_arrays_nested::dictionary::DictionaryArray;
use polars_arrays_nested::fixed_size_list::FixedSizeListArray;
use polars_arrays_nested::list::ListArray;
use polars_arrays_nested::list_offsets::ListOffsets;
use polars_arrays_nested::struct_array::StructArray;
use std::alloc::Global;

/// The greatest number of levels of lists, structs and dictionaries in an array. On a stack of 8
/// MiB this reader has room for more than twice this number of levels.
const DEPTH: usize = 500;

/// Reads an array from the next words. If the first of them is `shared`, it is skipped, and the
/// parts of the array share their elements with clones. The error is `Depth` if lists, structs and
/// dictionaries are nested more than `DEPTH` levels deep, `Word` if a word is missing or wrong,
/// `Parts` if the parts make no array, and `Memory` if an allocation fails.
pub fn read_any(alloc: Global, words: &mut Words) -> Result<AnyArray, Fault>
    ensures { IfOk result (λ a. IsGood a) }
{
    let kept = Kept::read(words);
    read_array(alloc, kept, words, DEPTH)
}

// Reads an array: the index of its first row, its number of rows, its kind, and the parts of the
// kind. The parts may have more rows than the array. The error is `Word` if the parts do not have
// all rows of the array.
#[cycle(read)]
fn read_array(alloc: Global, kept: Kept, words: &mut Words, depth: usize) -> Result<AnyArray, Fault>
    ensures { IfOk result (λ a. IsGood a) }
{
    let at: usize = words.read_number()?;
    let n: usize = words.read_number()?;
    slice_of(read_whole(alloc, kept, words, depth)?, at, n)
}

// Returns the `n` rows of an array from row `at` on. The error is `Word` if the array does not have
// these rows.
fn slice_of(mut array: AnyArray, at: usize, n: usize) -> Result<AnyArray, Fault>
    requires { IsGood array }
    ensures { IfOk result (λ a. IsGood a) }
{
    if at > array.len() || n > array.len() - at {
        drop(array);
        return Err(Fault::Word);
    }
    array.slice(at, n);
    Ok(array)
}

// Reads the kind and the parts of an array, and returns the array with all rows of the parts.
#[cycle(read)]
fn read_whole(alloc: Global, kept: Kept, words: &mut Words, depth: usize) -> Result<AnyArray, Fault>
    ensures { IfOk result (λ a. IsGood a) }
{
    let kind = words.read()?;
    match kind {
        "list" | "largelist" | "fixedlist" | "struct" | "dict" => {
            if depth == 0 {
                return Err(Fault::Depth(DEPTH));
            }
            read_holder(alloc, kept, words, kind, depth - 1)
        }
        _ => read_flat(alloc, kept, words, kind),
    }
}

// Reads the parts of an array of the kind that `kind` names, such as `bool` or `i32`. The error is
// `Word` if `kind` names no kind, or the kind of a nested array.
fn read_flat(alloc: Global, kept: Kept, words: &mut Words, kind: &str) -> Result<AnyArray, Fault>
    ensures { IfOk result (λ a. IsGood a) }
{
    match kind {
        "null" => Ok(AnyArray::Null(NullArray::new(words.read_number()?))),
        "bool" => read_booleans(alloc, kept, words),
        "binary" => Ok(AnyArray::Binary(read_binary(alloc, kept, words)?)),
        "largebinary" => Ok(AnyArray::LargeBinary(read_binary(alloc, kept, words)?)),
        "utf8" => Ok(AnyArray::Utf8(read_text(alloc, kept, words)?)),
        "largeutf8" => Ok(AnyArray::LargeUtf8(read_text(alloc, kept, words)?)),
        "binaryview" => read_binary_view(alloc, kept, words),
        "utf8view" => read_text_view(alloc, kept, words),
        "fixedbinary" => read_sized(alloc, kept, words),
        _ => read_number_array(alloc, kept, words, kind),
    }
}

// Reads an array of numbers of the type that `kind` names. The error is `Word` if `kind` names no
// type of number.
fn read_number_array(
    alloc: Global,
    kept: Kept,
    words: &mut Words,
    kind: &str,
) -> Result<AnyArray, Fault>
    ensures { IfOk result (λ a. IsGood a) }
{
    match kind {
        "i8" => Ok(AnyArray::Int8(read_integers(alloc, kept, words)?)),
        "i16" => Ok(AnyArray::Int16(read_integers(alloc, kept, words)?)),
        "i32" => Ok(AnyArray::Int32(read_integers(alloc, kept, words)?)),
        "i64" => Ok(AnyArray::Int64(read_integers(alloc, kept, words)?)),
        "i128" => Ok(AnyArray::Int128(read_integers(alloc, kept, words)?)),
        "u8" => Ok(AnyArray::UInt8(read_integers(alloc, kept, words)?)),
        "u16" => Ok(AnyArray::UInt16(read_integers(alloc, kept, words)?)),
        "u32" => Ok(AnyArray::UInt32(read_integers(alloc, kept, words)?)),
        "u64" => Ok(AnyArray::UInt64(read_integers(alloc, kept, words)?)),
        "u128" => Ok(AnyArray::UInt128(read_integers(alloc, kept, words)?)),
        _ => Err(Fault::Word),
    }
}

// Reads the parts of an array of the kind `kind`: `list`, `largelist`, `fixedlist`, `struct` or
// `dict`. The arrays inside it may be nested up to `depth` levels deep.
#[cycle(read)]
fn read_holder(
    alloc: Global,
    kept: Kept,
    words: &mut Words,
    kind: &str,
    depth: usize,
) -> Result<AnyArray, Fault>
    ensures { IfOk result (λ a. IsGood a) }
{
    match kind {
        "fixedlist" => read_fixed_list(alloc, kept, words, depth),
        "struct" => read_struct(alloc, kept, words, depth),
        "dict" => read_dictionary(alloc, kept, words, depth),
        _ => read_list(alloc, kept, words, kind, depth),
    }
}

// Reads an array of lists of the kind `kind` (`list` or `largelist`): the offsets, the validity,
// and the array of the items.
#[cycle(read)]
fn read_list(
    alloc: Global,
    kept: Kept,
    words: &mut Words,
    kind: &str,
    depth: usize,
) -> Result<AnyArray, Fault>
    ensures { IfOk result (λ a. IsGood a) }
{
    let offsets = read_offsets(alloc, kept, words, kind)?;
    let validity = read_validity(alloc, kept, words)?;
    list_of(
        offsets,
        boxed(alloc, read_array(alloc, kept, words, depth)),
        validity,
    )
}

// Creates an array of lists from its offsets, items and validity. If `values` is an error, returns
// that error. The error is `Parts` if the parts do not match.
fn list_of(
    offsets: ListOffsets,
    values: Result<Box<AnyArray>, Fault>,
    validity: Option<Bitmap>,
) -> Result<AnyArray, Fault>
    requires { IfOk values (λ a. IsGood a.value) }
    ensures { IfOk result (λ a. IsGood a) }
{
    match values {
        Ok(values) => Ok(AnyArray::List(ListArray::try_new(offsets, values, validity)?)),
        Err(fault) => {
            drop(offsets);
            Err(fault)
        }
    }
}

/// Moves an array into a box, in which a nested array keeps its child. If `array` is an error,
/// returns that error. The error is `Memory` if the box can't be allocated.
pub(crate) fn boxed(alloc: Global, array: Result<AnyArray, Fault>) -> Result<Box<AnyArray>, Fault>
    requires { IfOk array (λ a. IsGood a) }
    ensures { IfOk result (λ a. IsGood a.value) }
{
    match array {
        Ok(array) => Ok(Box::new(alloc, array)?),
        Err(fault) => Err(fault),
    }
}

// Reads the offsets of lists: 64-bit numbers if `kind` is `largelist`, otherwise 32-bit numbers.
fn read_offsets(
    alloc: Global,
    kept: Kept,
    words: &mut Words,
    kind: &str,
) -> Result<ListOffsets, Fault> {
    if kind == "largelist" {
        Ok(ListOffsets::Large(read_kept_numbers(alloc, kept, words)?))
    } else {
        Ok(ListOffsets::Small(read_kept_numbers(alloc, kept, words)?))
    }
}

// Reads an array of lists of one width: the width, the number of lists, the validity, and the array
// of the items.
#[cycle(read)]
fn read_fixed_list(
    alloc: Global,
    kept: Kept,
    words: &mut Words,
    depth: usize,
) -> Result<AnyArray, Fault>
    ensures { IfOk result (λ a. IsGood a) }
{
    let width = words.read_number()?;
    let len = words.read_number()?;
    let validity = read_validity(alloc, kept, words)?;
    let values = boxed(alloc, read_array(alloc, kept, words, depth))?;
    Ok(AnyArray::FixedSizeList(FixedSizeListArray::try_new(width, len, values, validity)?))
}

// The columns of structs: the name and the array of each field, in the same order.
#[derive(Drop)]
struct Columns<'a> {
    names: Vec<&'a str>,
    values: Vec<AnyArray>,
}

// Reads an array of structs: the number of structs, the number of fields, the validity, and a name
// and an array for each field.
#[cycle(read)]
fn read_struct(
    alloc: Global,
    kept: Kept,
    words: &mut Words,
    depth: usize,
) -> Result<AnyArray, Fault>
    ensures { IfOk result (λ a. IsGood a) }
{
    let len = words.read_number()?;
    let count = words.read_number()?;
    let validity = read_validity(alloc, kept, words)?;
    of_columns(
        alloc,
        len,
        read_columns(alloc, kept, words, depth, count),
        validity,
    )
}

// Reads `count` columns: a name and an array for each.
#[cycle(read)]
fn read_columns<'a>(
    alloc: Global,
    kept: Kept,
    words: &mut Words<'a>,
    depth: usize,
    count: usize,
) -> Result<Columns<'a>, Fault>
    ensures { IfOk result (λ columns. All IsGood columns.values.items) }
{
    let mut names = Vec::new(alloc);
    let mut values = Vec::new(alloc);
    for _ in 0..count {
        names.push(words.read()?)?;
        values.push(read_array(alloc, kept, words, depth)?)?;
    }
    Ok(Columns { names, values })
}

// Creates an array of `len` structs from their columns and validity. If `columns` is an error,
// returns that error. The error is `Parts` if the parts do not match, and `Memory` if an allocation
// fails.
fn of_columns(
    alloc: Global,
    len: usize,
    columns: Result<Columns, Fault>,
    validity: Option<Bitmap>,
) -> Result<AnyArray, Fault>
    requires { IfOk columns (λ columns. All IsGood columns.values.items) }
    ensures { IfOk result (λ a. IsGood a) }
{
    let Columns { names, values } = columns?;
    struct_of(alloc, &names, len, values, validity)
}

/// Creates an array of `len` structs from the names and the arrays of the fields, and the validity.
/// The error is `Parts` if the parts do not match, and `Memory` if an allocation fails.
pub(crate) fn struct_of(
    alloc: Global,
    names: &[&str],
    len: usize,
    values: Vec<AnyArray>,
    validity: Option<Bitmap>,
) -> Result<AnyArray, Fault>
    requires { All IsGood values.items }
    ensures { IfOk result (λ a. IsGood a) }
{
    let fields = fields_of(alloc, names, &values)?;
    Ok(AnyArray::Struct(StructArray::try_new(fields, len, values, validity)?))
}

// Creates a field for each column, with the column's name and type. Names or columns in excess of
// the shorter slice are ignored. The error is `Memory` if an allocation fails.
fn fields_of(alloc: Global, names: &[&str], columns: &[AnyArray]) -> Result<Vec<Field>, Fault> {
    let mut fields = Vec::new(alloc);
    for (name, column) in names.iter().zip(columns) {
        fields.push(field_of(alloc, name, column)?)?;
    }
    Ok(fields)
}

/// Creates a field with this name and the type of `column`. The error is `Memory` if an allocation
/// fails.
pub fn field_of(alloc: Global, name: &str, column: &AnyArray) -> Result<Field, Fault> {
    let dtype = column.dtype(alloc)?;
    let name = name.to_string(alloc)?;
    Ok(Field { name, dtype })
}

// Reads a dictionary array: the type of its keys, the keys with their validity, and the array of
// the entries.
#[cycle(read)]
fn read_dictionary(
    alloc: Global,
    kept: Kept,
    words: &mut Words,
    depth: usize,
) -> Result<AnyArray, Fault>
    ensures { IfOk result (λ a. IsGood a) }
{
    let keys = read_keys(alloc, kept, words)?;
    dictionary_of(keys, boxed(alloc, read_array(alloc, kept, words, depth)))
}

// Creates a dictionary array from its keys and entries. If `values` is an error, returns that
// error. The error is `Parts` if a key refers to no entry.
fn dictionary_of(keys: DictKeys, values: Result<Box<AnyArray>, Fault>) -> Result<AnyArray, Fault>
    requires { IfOk values (λ a. IsGood a.value) }
    ensures { IfOk result (λ a. IsGood a) }
{
    match values {
        Ok(values) => Ok(AnyArray::Dictionary(DictionaryArray::try_new(keys, values)?)),
        Err(fault) => {
            drop(keys);
            Err(fault)
        }
    }
}

// Reads the keys of a dictionary array: the name of their type, and the numbers with their
// validity. The error is `Word` if the name is not of an integer type of 8 to 64 bits.
fn read_keys(alloc: Global, kept: Kept, words: &mut Words) -> Result<DictKeys, Fault> {
    match words.read()? {
        "i8" => Ok(DictKeys::Int8(read_integers(alloc, kept, words)?)),
        "i16" => Ok(DictKeys::Int16(read_integers(alloc, kept, words)?)),
        "i32" => Ok(DictKeys::Int32(read_integers(alloc, kept, words)?)),
        "i64" => Ok(DictKeys::Int64(read_integers(alloc, kept, words)?)),
        "u8" => Ok(DictKeys::UInt8(read_integers(alloc, kept, words)?)),
        "u16" => Ok(DictKeys::UInt16(read_integers(alloc, kept, words)?)),
        "u32" => Ok(DictKeys::UInt32(read_integers(alloc, kept, words)?)),
        "u64" => Ok(DictKeys::UInt64(read_integers(alloc, kept, words)?)),
        _ => Err(Fault::Word),
    }
}

//! Calls of `StructArray::try_new`, with fields and columns that need not match.

ghost use Rattle.std.specs.Prelude.{IfOk};
ghost use Rattle.std.specs.List.{All};
ghost use Rattle.polars_arrays_nested.specs.GoodParts.{IsGood};
ghost use Rattle.polars_arrays_nested.specs.declared.any_array.AnyArray.{Struct};
ghost use Rattle.recorded_text.specs.Cases.{HasGoodArrays};

use polars_arrays_bits::error::ArrayError;
use polars_arrays_flat::data_type::Field;
use polars_arrays_nested::any_array::AnyArray;
use polars_arrays_nested::struct_array::StructArray;
use recorded_text::fault::Fault;
use recorded_text::parts::{Kept, read_validity};
use recorded_text::row_text::write_made;
use recorded_text::store::Store;
use recorded_text::words::Words;
use std::alloc::Global;

/// Reads the arguments of `StructArray::try_new` from `words`, calls it, and returns as text the
/// rows of the structs, or `refused: ` and the error. The words are the number of rows, the
/// validity, the number of fields, for each field its name and the name of an array of the same
/// type, the number of columns, and for each column the name of the array to clone. Arrays are
/// found in `store`. Returns the error `Case` if `store` lacks one of the arrays.
pub fn try_new(alloc: Global, store: &Store, words: &mut Words) -> Result<String, Fault>
    requires { HasGoodArrays store.now }
{
    let len = words.read_number()?;
    let validity = read_validity(alloc, Kept::Owned, words)?;
    let fields = read_fields(alloc, store, words)?;
    let columns = read_columns(alloc, store, words)?;
    write_struct(alloc, StructArray::try_new(fields, len, columns, validity))
}

// Returns the rows of the structs `made` as text. If `made` is an error, returns `refused: ` and
// the message of the error.
fn write_struct(alloc: Global, made: Result<StructArray, ArrayError>) -> Result<String, Fault>
    requires { IfOk made (λ array. IsGood (Struct array)) }
{
    match made {
        Ok(array) => write_made(alloc, AnyArray::Struct(array)),
        Err(error) => refusal(alloc, &error),
    }
}

// Returns `refused: ` and the message of `error`, an error of `StructArray::try_new`.
fn refusal(alloc: Global, error: &ArrayError) -> Result<String, Fault> {
    format!(in alloc; "refused: {error}").map_err(Fault::from)
}

// Reads a count from the next word, then that many fields. For each field, reads its name and the
// name of an array of `store` that has the type of the field. Returns the error `Case` if `store`
// lacks such an array.
fn read_fields(alloc: Global, store: &Store, words: &mut Words) -> Result<Vec<Field>, Fault>
    requires { HasGoodArrays store.now }
{
    let count: usize = words.read_number()?;
    let mut fields = Vec::new(alloc);
    for _ in 0..count {
        let name = words.read()?.to_string(alloc)?;
        let dtype = store.read(words)?.dtype(alloc)?;
        fields.push(Field { name, dtype })?;
    }
    Ok(fields)
}

// Reads a count from the next word, then that many names of arrays of `store`, and returns clones
// of these arrays. Returns the error `Case` if `store` lacks one of them.
fn read_columns(alloc: Global, store: &Store, words: &mut Words) -> Result<Vec<AnyArray>, Fault>
    requires { HasGoodArrays store.now }
    ensures { IfOk result (λ columns. All IsGood columns.items) }
{
    let count: usize = words.read_number()?;
    let mut columns = Vec::new(alloc);
    for _ in 0..count {
        let column = read_copy(alloc, store, words)?;
        columns.push(column)?;
    }
    Ok(columns)
}

// Reads the name of an array of `store` from the next word, and returns a clone of the array.
// Returns the error `Case` if `store` has no array of that name.
fn read_copy(alloc: Global, store: &Store, words: &mut Words) -> Result<AnyArray, Fault>
    requires { HasGoodArrays store.now }
    ensures { IfOk result (λ copy. IsGood copy) }
{
    store.read(words)?.clone_array(alloc).map_err(Fault::from)
}

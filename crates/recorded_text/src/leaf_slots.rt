//! The number of leaf slots of arrays, computed from their parts.
//!
//! Comparing arrays for equality takes at most one comparison for each leaf slot. An array that is
//! not nested has one leaf slot per row, or none if it is a `NullArray`. A list has the leaf slots
//! of its items, and a struct those of its fields. In a dictionary array, a row whose key is not
//! null has the leaf slots of its entry, and a row whose key is null has none.
//!
//! All sums saturate at the greatest `usize`. A function also returns the error that `leaf_slots`
//! returns for the items, columns or entries.

ghost use Rattle.polars_arrays_nested.specs.GoodParts.{IsGood};
ghost use Rattle.polars_arrays_nested.specs.declared.any_array.AnyArray.{List, FixedSizeList};
ghost use Rattle.polars_arrays_nested.specs.declared.any_array.AnyArray.{Struct, Dictionary};

use crate::fault::Fault;
use polars_arrays_flat::array::Array;
use polars_arrays_flat::validity::is_present;
use polars_arrays_nested::any_array::AnyArray;
use polars_arrays_nested::dictionary::DictionaryArray;
use polars_arrays_nested::fixed_size_list::FixedSizeListArray;
use polars_arrays_nested::list::ListArray;
use polars_arrays_nested::struct_array::StructArray;

/// Returns the number of leaf slots of the `n` rows of an array from row `from` on. The error is
/// `Case` if rows of a `ListArray` or `DictionaryArray` are out of range, at any level, or if the
/// index of an item exceeds the greatest `usize`. Other arrays are not checked.
#[cycle(slots)]
pub fn leaf_slots(array: &AnyArray, from: usize, n: usize) -> Result<usize, Fault>
    requires { IsGood array.now }
{
    match array {
        AnyArray::Null(_) => Ok(0),
        AnyArray::List(array) => list_slots(array, from, n),
        AnyArray::FixedSizeList(array) => fixed_list_slots(array, from, n),
        AnyArray::Struct(array) => struct_slots(array, from, n),
        AnyArray::Dictionary(array) => dictionary_slots(array, from, n),
        _ => Ok(n),
    }
}

// Returns the number of leaf slots of the items of lists `from..from + n`, masked ones included.
// The error is `Case` if there are no such lists.
#[cycle(slots)]
fn list_slots(array: &ListArray, from: usize, n: usize) -> Result<usize, Fault>
    requires { IsGood (List array.now) }
{
    let offsets = array.offsets();
    if from > offsets.len() || n > offsets.len() - from {
        return Err(Fault::Case);
    }
    let first = offsets.offset(from);
    let last = offsets.offset(from + n);
    leaf_slots(array.values(), first, last.saturating_sub(first))
}

// Returns the number of leaf slots of the items of lists `from..from + n` of one width, masked ones
// included. The error is `Case` if an index of an item exceeds the greatest `usize`.
#[cycle(slots)]
fn fixed_list_slots(array: &FixedSizeListArray, from: usize, n: usize) -> Result<usize, Fault>
    requires { IsGood (FixedSizeList array.now) }
{
    let (Some(first), Some(count)) = (
        array.width().checked_mul(from),
        array.width().checked_mul(n),
    ) else {
        return Err(Fault::Case);
    };
    leaf_slots(array.values(), first, count)
}

// Returns the number of leaf slots of rows `from..from + n` of all columns.
#[cycle(slots)]
fn struct_slots(array: &StructArray, from: usize, n: usize) -> Result<usize, Fault>
    requires { IsGood (Struct array.now) }
{
    let mut slots: usize = 0;
    for k in 0..array.values().len() {
        slots = slots.saturating_add(leaf_slots(array.column(k), from, n)?);
    }
    Ok(slots)
}

// Returns the number of leaf slots of the entries to which the keys in `from..from + n` refer, null
// keys left out. An entry counts once for each key that refers to it. The error is `Case` if there
// are no such keys.
#[cycle(slots)]
fn dictionary_slots(array: &DictionaryArray, from: usize, n: usize) -> Result<usize, Fault>
    requires { IsGood (Dictionary array.now) }
{
    let keys = array.keys();
    if from > keys.len() || n > keys.len() - from {
        return Err(Fault::Case);
    }
    let mut slots: usize = 0;
    for i in from..from + n {
        if is_present(keys.validity(), i) {
            slots = slots.saturating_add(leaf_slots(array.values(), keys.key(i), 1)?);
        }
    }
    Ok(slots)
}

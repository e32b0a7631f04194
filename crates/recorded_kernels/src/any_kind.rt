//! Kernels of two arrays of any kind.
//!
//! - `array_tot_eq_missing_kernel A B`, `array_tot_ne_missing_kernel A B`: a bit for each row: 1 if
//!   the rows of A and B are equal, or for `ne`, if they differ. Null is equal only to null
//! - `array_tot_eq_missing_kernel_with_steps A B`: `BITS in N comparisons`
//! - `list_broadcast LISTS ITEMS`, `fixed_size_list_broadcast LISTS ITEMS`: a bit for each list,
//!   masked or not: 1 if its items are exactly the rows of ITEMS
//! - `law_tally`, `law_steps`: `holds`

ghost use Rattle.std.specs.Prelude.{◌≡◌, IfOk};
ghost use Rattle.polars_arrays_nested.specs.GoodParts.{IsGood};
ghost use Rattle.polars_arrays_nested.specs.Lengths.{len_of};
ghost use Rattle.polars_arrays_nested.specs.Types.{type_of};
ghost use Rattle.recorded_text.specs.Cases.{HasGoodArrays};

use crate::counters::{COMPARISONS, add_count, lent_counter};
use crate::operands::read_two;
use polars_arrays_nested::any_array::AnyArray;
use polars_compare_leaves::joining::Relation;
use polars_compare_nested::broadcasts::{fixed_size_list_broadcast, list_broadcast};
use polars_compare_nested::kernels::{
    array_tot_eq_missing_kernel, array_tot_eq_missing_kernel_with_steps,
    array_tot_ne_missing_kernel,
};
use polars_compare_nested::laws::{law_steps, law_tally};
use recorded_text::bits_text::write_made;
use recorded_text::fault::Fault;
use recorded_text::store::Store;
use recorded_text::words::Words;
use std::alloc::Global;

/// A law of `polars_compare_nested`. Calling it has no effect.
#[derive(Clone, Copy)]
pub enum Law {
    Tally,
    Steps,
}

/// Calls the function of `law`, and returns the text `holds`. The error is `Memory`.
pub fn call_law(alloc: Global, law: Law) -> Result<String, Fault> {
    match law {
        Law::Tally => law_tally(),
        Law::Steps => law_steps(),
    }
    Ok("holds".to_string(alloc)?)
}

// Returns the two arrays that the next two words name. The error is `Case` if there is no such
// array, or if the types or lengths of the arrays differ, since the kernels require equal ones.
fn read_alike<'a>(
    store: &'a Store,
    words: &mut Words,
) -> Result<(&'a AnyArray, &'a AnyArray), Fault>
    requires { HasGoodArrays store.now }
    ensures good_left { IfOk result (λ pair. IsGood pair.0.now) }
    ensures good_right { IfOk result (λ pair. IsGood pair.1.now) }
    ensures one_type { IfOk result (λ pair. type_of pair.0.now ≡ type_of pair.1.now) }
    ensures one_length { IfOk result (λ pair. len_of pair.0.now ≡ len_of pair.1.now) }
{
    let (left, right) = read_two(store, words)?;
    if left.same_type(right) && left.len() == right.len() {
        Ok((left, right))
    } else {
        Err(Fault::Case)
    }
}

/// Reads the names of two arrays, and returns the text of a bit for each row: 1 if the two rows are
/// equal, or for `Unequal`, if they differ. Null is equal only to null. The error is `Case` if the
/// types or lengths of the arrays differ.
pub fn missing(
    alloc: Global,
    relation: Relation,
    store: &Store,
    words: &mut Words,
) -> Result<String, Fault>
    requires { HasGoodArrays store.now }
{
    let (left, right) = read_alike(store, words)?;
    match relation {
        Relation::Equal => write_made(alloc, array_tot_eq_missing_kernel(alloc, left, right)),
        Relation::Unequal => write_made(alloc, array_tot_ne_missing_kernel(alloc, left, right)),
    }
}

/// Reads the names of two arrays. Returns the text of a bit for each row, 1 if the two rows are
/// equal, and the number of comparisons of leaves. Null is equal only to null. The error is `Case`
/// if the types or lengths of the arrays differ, or if the call decreased its counter.
pub fn with_steps(alloc: Global, store: &Store, words: &mut Words) -> Result<String, Fault>
    requires { HasGoodArrays store.now }
{
    let (left, right) = read_alike(store, words)?;
    let mut steps = lent_counter();
    let bits = array_tot_eq_missing_kernel_with_steps(alloc, left, right, &mut steps);
    add_count(write_made(alloc, bits), steps.seen(), COMPARISONS)
}

/// The form of lists: between offsets, or all of one size.
#[derive(Clone, Copy)]
pub enum ListKind {
    Offsets,
    FixedSize,
}

/// Reads the names of an array of lists and of an array of items. Returns the text of a bit for
/// each list: 1 if its items are exactly the rows of the second array, in order. The error is
/// `Case` if the lists are not of the form `kind`, or if their items have another type.
pub fn lists(
    alloc: Global,
    kind: ListKind,
    store: &Store,
    words: &mut Words,
) -> Result<String, Fault>
    requires { HasGoodArrays store.now }
{
    let (lists, items) = read_two(store, words)?;
    match (kind, lists) {
        (ListKind::Offsets, AnyArray::List(lists)) if lists.values().same_type(items) => {
            write_made(alloc, list_broadcast(alloc, lists, items))
        }
        (ListKind::FixedSize, AnyArray::FixedSizeList(lists)) if lists.values().same_type(items) =>
            { write_made(alloc, fixed_size_list_broadcast(alloc, lists, items)) }
        _ => Err(Fault::Case),
    }
}

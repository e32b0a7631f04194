//! Calls for the best byte string of an array. PREFERENCE is `less` if the least byte string is the
//! best, or `greater` if the greatest is. The result is `none` if no row is present.
//!
//! - `best_place PREFERENCE A`: the index of the best present row, or of the first if several are
//!   equally good
//! - `best_string PREFERENCE A`: the bytes of that row

ghost use Rattle.polars_arrays_nested.specs.GoodParts.{IsGood};
ghost use Rattle.recorded_text.specs.Cases.{HasGoodArrays};

use crate::calls::Best;
use crate::found_text::{push_found, push_string};
use crate::kinds::of_kind;
use polars_arrays_flat::byte_rows::ByteRows;
use polars_arrays_nested::any_array::AnyArray;
use polars_arrays_numbers::comparison::{Greater, Less};
use polars_compare_extremes::places::{best_place, best_string};
use polars_compare_extremes::preference::Preference;
use recorded_text::fault::Fault;
use recorded_text::store::Store;
use recorded_text::words::Words;

/// Reads a preference and the name of an array from `words`, and appends the place or the bytes of
/// the best row to `text`, as `best` says. The error is `Word` if there is no such preference,
/// `Case` if the array does not hold byte strings or texts, or else `Memory`.
pub fn push_answer(
    text: &mut String,
    best: Best,
    store: &Store,
    words: &mut Words,
) -> Result<(), Fault>
    requires { HasGoodArrays store.now }
{
    match words.read()? {
        "less" => push_preferred(text, best, &Less, store.read(words)?),
        "greater" => push_preferred(text, best, &Greater, store.read(words)?),
        _ => Err(Fault::Word),
    }
}

// Appends the place or the bytes of the best row of `array` by `preference`, as `best` says. The
// error is `Case` if `array` does not hold byte strings or texts, or else `Memory`.
fn push_preferred<P: Preference>(
    text: &mut String,
    best: Best,
    preference: &P,
    array: &AnyArray,
) -> Result<(), Fault>
    requires { IsGood array.now }
{
    of_kind!(array, rows => push_best(text, best, preference, rows),
        Binary LargeBinary Utf8 LargeUtf8 BinaryView Utf8View FixedSizeBinary)
}

// Appends the place or the bytes of the best present row of `rows` by `preference`, as `best` says,
// or `none` if no row is present.
fn push_best<P: Preference, R: ByteRows>(
    text: &mut String,
    best: Best,
    preference: &P,
    rows: &R,
) -> Result<(), Fault>
    requires { R.good rows.now }
{
    match best {
        Best::Place => push_found(text, best_place(preference, rows, rows.validity())),
        Best::Bytes => push_string(text, best_string(preference, rows, rows.validity())),
    }
}

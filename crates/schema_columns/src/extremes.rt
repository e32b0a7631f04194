//! Finds the least and the greatest cell, as texts.

ghost use Rattle.std.specs.Option.{option_copied};
ghost use Rattle.std.specs.Prelude.{◌≡◌, IfOk, None, map, option_map};
ghost use Rattle.std.specs.Fmt.{signed_decimal};
ghost use Rattle.polars_arrays_bytes.specs.OffsetStrings.{offset_strings};
ghost use Rattle.polars_arrays_flat.specs.Row.{Int};
ghost use Rattle.polars_arrays_flat.specs.StoredRows.{byte_slots};
ghost use Rattle.schema_columns.specs.Ends.{TellsEnds};

use diff_words::decimals::push_decimal;
use polars_arrays_bytes::binary::BinaryArray;
use polars_compare_extremes::borrowed::BytesMinMaxKernel;
use polars_compare_extremes::kernel::MinMaxKernel;
use std::alloc::{AllocError, Global};

/// The least and the greatest of some cells. Both are `None` if there are no cells.
#[derive(Drop)]
pub(crate) struct Ends {
    pub(crate) least: Option<Vec<u8>>,
    pub(crate) greatest: Option<Vec<u8>>,
}

/// Returns a copy of `bytes`, or `None` for `None`.
fn copied(alloc: Global, bytes: Option<&[u8]>) -> Result<Option<Vec<u8>>, AllocError>
    ensures { IfOk result (λ copy. option_map (λ v. v.items) copy ≡ option_copied bytes.entry) }
{
    match bytes {
        Some(bytes) => {
            let copy = Vec::from_slice(alloc, bytes)?;
            Ok(Some(copy))
        }
        None => Ok(None),
    }
}

/// Returns a number as decimal text.
fn decimal_of(alloc: Global, number: i64) -> Result<Vec<u8>, AllocError>
    ensures { IfOk result (λ text. text.items ≡ signed_decimal number) }
{
    let mut text = Vec::new(alloc);
    push_decimal(&mut text, number)?;
    Ok(text)
}

/// Returns the least and the greatest of byte strings, compared byte by byte. Both are `None` if
/// there are no cells.
pub(crate) fn ends_of_strings(alloc: Global, cells: &BinaryArray<i64>) -> Result<Ends, AllocError>
    requires { cells.now.validity ≡ None }
    ensures { IfOk result
        (λ ends. TellsEnds (byte_slots (offset_strings (λ x. x) cells.now))
        (option_map (λ v. v.items) ends.least) (option_map (λ v. v.items) ends.greatest)) }
{
    let least = copied(alloc, BytesMinMaxKernel::min_ignore_nan_kernel(cells))?;
    let greatest = copied(alloc, BytesMinMaxKernel::max_ignore_nan_kernel(cells))?;
    Ok(Ends { least, greatest })
}

/// Returns the two numbers in `ends`, the least and the greatest, as decimal texts. Both texts are
/// `None` if `ends` is `None`.
pub(crate) fn ends_of_numbers(alloc: Global, ends: Option<(i64, i64)>) -> Result<Ends, AllocError>
    ensures { IfOk result
        (λ texts. (option_map (λ v. v.items) texts.least
        ≡ option_map (λ e. signed_decimal e.0) ends)
        × (option_map (λ v. v.items) texts.greatest ≡ option_map (λ e. signed_decimal e.1) ends)) }
{
    match ends {
        Some((least, greatest)) => Ok(Ends {
            least: Some(decimal_of(alloc, least)?),
            greatest: Some(decimal_of(alloc, greatest)?),
        }),
        None => Ok(Ends {
            least: None,
            greatest: None,
        }),
    }
}

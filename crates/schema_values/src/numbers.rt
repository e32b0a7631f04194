//! Counts different numbers, and finds the least and the greatest. Numbers are compared as exact
//! decimals.

ghost use Rattle.std.specs.List.{All};
ghost use Rattle.std.specs.Option.{option_map};
ghost use Rattle.std.specs.Prelude.{◌≡◌, ◌<◌, length, IfOk, MatchResult, None};
ghost use Rattle.polars_arrays_bits.specs.Errors.{IsMemory};
ghost use Rattle.polars_arrays_bytes.specs.OffsetStrings.{offset_strings};
ghost use Rattle.schema_values.specs.Numbers.{AreNormal, IsNarrow, IsNumber, TellsBest};
ghost use Rattle.schema_values.specs.Numbers.{TellsDecimals, TellsNumbers, better};
ghost use Rattle.schema_values.specs.Told.{told_of};

use crate::distinct::count_strings;
use crate::normal::normal_texts;
use crate::places::best_place;
use diff_tables::strings::Strings;
use json_decimals::error::NumberError;
use polars_arrays_bits::error::ComputeError;
use polars_arrays_bytes::binary::BinaryArray;
use polars_arrays_flat::byte_rows::ByteRows;
use std::alloc::{AllocError, Global};

/// The number of different values, and the least and the greatest of them. `least` and `greatest`
/// are `None` if there are no values. All fields are `None` if the values are numbers and one has
/// an exponent of more than 30 digits.
#[derive(Drop)]
pub struct Values {
    /// The number of different values.
    pub distinct: Option<usize>,
    /// The least value.
    pub least: Option<Vec<u8>>,
    /// The greatest value.
    pub greatest: Option<Vec<u8>>,
}

/// Returns a copy of the first cell that has the least number, or the greatest if `greatest` is
/// set. Returns `None` if there are no cells. Each cell must be a number whose exponent has at most
/// 30 digits (`IsNarrow`).
fn best_text(
    alloc: Global,
    cells: &BinaryArray<i64>,
    greatest: bool,
) -> Result<Option<Vec<u8>>, AllocError>
    requires { All IsNarrow (offset_strings (λ x. x) cells.now) }
    ensures { IfOk result
        (λ text. TellsBest (better greatest) (offset_strings (λ x. x) cells.now)
        (option_map (λ t. t.items) text)) }
{
    if cells.count() == 0 {
        return Ok(None);
    }
    let place = best_place(cells, greatest);
    let text = Vec::from_slice(alloc, cells.bytes(place))?;
    Ok(Some(text))
}

/// Returns the number of different numbers in `cells`, and the least and the greatest, each spelled
/// as in the first cell with this value. Each cell must be a number in JSON syntax whose exponent
/// has at most 30 digits, leading zeros not counted (`IsNarrow`). `texts` has the normal text of
/// each cell. The only error is `Memory`.
fn exact_values(
    alloc: Global,
    cells: &BinaryArray<i64>,
    texts: Strings,
) -> Result<Values, ComputeError>
    requires normal { AreNormal (offset_strings (λ x. x) cells.now) texts }
    requires narrow { All IsNarrow (offset_strings (λ x. x) cells.now) }
    ensures { MatchResult result
        (λ values. TellsDecimals (offset_strings (λ x. x) cells.now) (told_of values)) IsMemory }
{
    let texts = texts.into_array(alloc)?;
    let distinct = Some(count_strings(alloc, &texts)?);
    let least = best_text(alloc, cells, false)?;
    let greatest = best_text(alloc, cells, true)?;
    Ok(Values {
        distinct,
        least,
        greatest,
    })
}

/// Returns the number of different numbers in `cells`, and the least and the greatest, each spelled
/// as in the first cell with this value. Each cell must be a number in JSON syntax. All fields are
/// `None` if a number has an exponent of more than 30 digits, leading zeros not counted. The only
/// error is `Memory`.
pub fn number_values(alloc: Global, cells: &BinaryArray<i64>) -> Result<Values, ComputeError>
    requires { All IsNumber (offset_strings (λ x. x) cells.now) }
    ensures { MatchResult result
        (λ values. TellsNumbers (offset_strings (λ x. x) cells.now) (told_of values)) IsMemory }
{
    match normal_texts(alloc, cells) {
        Ok(texts) => exact_values(alloc, cells, texts),
        Err(NumberError::WideExponent) => Ok(Values {
            distinct: None,
            least: None,
            greatest: None,
        }),
        Err(NumberError::Memory) => Err(ComputeError::Memory(AllocError)),
    }
}

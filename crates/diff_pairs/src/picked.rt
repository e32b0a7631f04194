//! Selects rows of an array by their numbers.

ghost use Rattle.std.specs.Prelude.{MatchResult};
ghost use Rattle.polars_arrays_bits.specs.Errors.{IsMemory};
ghost use Rattle.polars_arrays_nested.specs.GoodParts.{IsGood};
ghost use Rattle.polars_arrays_nested.specs.Lengths.{len_of};
ghost use Rattle.diff_pairs.specs.Pairs.{ArePicked, NameRows};

use polars_arrays_bits::error::ComputeError;
use polars_arrays_flat::primitive::PrimitiveArray;
use polars_arrays_nested::any_array::AnyArray;
use polars_arrays_nested::dict_keys::DictKeys;
use polars_arrays_nested::dictionary::DictionaryArray;
use std::alloc::Global;

/// Returns a dictionary array with the keys `rows` and the values `array`. Its row `k` is row
/// `rows[k]` of `array`. No row is copied. The only error is `Memory`.
pub(crate) fn picked(
    alloc: Global,
    array: AnyArray,
    rows: Vec<u32>,
) -> Result<AnyArray, ComputeError>
    requires good { IsGood array }
    requires within { NameRows (len_of array) rows.items }
    ensures { MatchResult result (ArePicked array rows.items) IsMemory }
{
    let values = Box::new(alloc, array)?;
    let keys = DictKeys::UInt32(PrimitiveArray::from_vec(rows));
    match DictionaryArray::try_new(keys, values) {
        Ok(array) => Ok(AnyArray::Dictionary(array)),
        Err(_) => unreachable!(),
    }
}

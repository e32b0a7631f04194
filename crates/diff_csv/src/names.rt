//! The names of the columns of a CSV text.

ghost use Rattle.std.specs.Fmt.{decimal};
ghost use Rattle.std.specs.List.{range_with_len};
ghost use Rattle.std.specs.Prelude.{◌≡◌, ◌++◌, ℕ, List, map, OnOk, MatchResult};
ghost use Rattle.csv.specs.Records.{fields_of};
ghost use Rattle.polars_arrays_bits.specs.Errors.{IsMemory};
ghost use Rattle.polars_arrays_bytes.specs.OffsetStrings.{offset_strings};
ghost use Rattle.diff_tables.specs.Strings.{AreStrings};

use csv::ByteRecord;
use diff_tables::strings::Strings;
use polars_arrays_bits::error::ComputeError;
use polars_arrays_bytes::binary::BinaryArray;
use std::alloc::{AllocError, Global};

/// Appends each field of a record to `strings`.
fn push_fields(strings: &mut Strings, row: &ByteRecord) -> Result<(), AllocError>
    ensures { OnOk result
        ((all : List (List ℕ)) → AreStrings strings.old all
        → AreStrings strings.new (all ++ fields_of row.now)) }
{
    for field in row.iter() {
        strings.push(field)?;
    }
    Ok(())
}

/// Returns the fields of a record as an array. The only error is `Memory`.
pub(crate) fn field_names(alloc: Global, row: &ByteRecord) -> Result<BinaryArray<i64>, ComputeError>
    ensures { MatchResult result
        (λ names. offset_strings (λ x. x) names ≡ fields_of row.now) IsMemory }
{
    let mut names = Strings::new(alloc)?;
    push_fields(&mut names, row)?;
    let array = names.into_array(alloc)?;
    Ok(array)
}

/// Returns the decimal numbers from 1 to `count` as an array of texts. The only error is `Memory`.
pub(crate) fn number_names(alloc: Global, count: usize) -> Result<BinaryArray<i64>, ComputeError>
    ensures { MatchResult result
        (λ names. offset_strings (λ x. x) names ≡ map decimal (range_with_len 1 count)) IsMemory }
{
    let mut names = Strings::new(alloc)?;
    for i in 0..count {
        let name = (i + 1).to_string(alloc)?;
        names.push(name.as_bytes())?;
    }
    let array = names.into_array(alloc)?;
    Ok(array)
}

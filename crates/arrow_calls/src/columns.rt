//! Borrowed columns made of the parts of lent arrays.

ghost use Rattle.std.specs.Prelude.{length, IfErr, IfOk};
ghost use Rattle.arrow_calls.specs.Columns.{IsColumn, Lends};
ghost use Rattle.arrow_calls.specs.Statuses.{IsTrueOf};

use crate::fault::Fault;
use arrow_columns::column::Column;
use arrow_parts::bits::validity;
use arrow_parts::part::Part;
use polars_arrays_numbers::native_type::NativeType;
use std::alloc::Global;

/// Borrows the numbers `values` of a part as a column. The part's validity bits are copied into the
/// column. Fails with `Parts` if `values` does not have one number for each row, or if the part has
/// validity bits, but fewer than rows. Fails with `Memory` if an allocation fails.
pub fn column<'a, T: NativeType>(
    alloc: Global,
    part: &Part<'_>,
    values: &'a [T],
) -> Result<Column<'a, T>, Fault>
    ensures made { IfOk result (λ column. Lends part.now values.now column) }
    ensures good { IfOk result (λ _. IsColumn part.now (length values.now)) }
    ensures refused { IfErr result (IsTrueOf (IsColumn part.now (length values.now))) }
{
    if values.len() != part.rows {
        return Err(Fault::Parts);
    }
    let present = validity(alloc, part.present, part.first_bit, part.rows)?;
    match Column::try_new(values, present) {
        Ok(column) => Ok(column),
        Err(_) => unreachable!(),
    }
}

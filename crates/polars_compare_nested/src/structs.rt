//! Columns of two struct arrays.

ghost use Rattle.std.specs.Prelude.{◌≡◌, ◌<◌, length, slice_index_or};
ghost use Rattle.polars_arrays_nested.specs.GoodParts.{IsGood};
ghost use Rattle.polars_arrays_nested.specs.Lengths.{len_of};
ghost use Rattle.polars_arrays_nested.specs.Parts.{columns};
ghost use Rattle.polars_arrays_nested.specs.Types.{type_of};
ghost use Rattle.polars_arrays_nested.specs.declared.any_array.AnyArray.{AnyArray, Struct};
ghost use Rattle.polars_arrays_nested.specs.declared.any_array.AnyArray.{size-AnyArray};
ghost use Rattle.polars_arrays_nested.specs.declared.struct_array.StructArray.{size-StructArray};

use polars_arrays_nested::any_array::AnyArray;
use polars_arrays_nested::struct_array::StructArray;

/// Returns column `i` of each of two struct arrays of the same type. Both columns have the same
/// type, and are as long as their struct arrays.
pub(crate) fn column_pair<'a>(
    left: &'a StructArray,
    right: &'a StructArray,
    i: usize,
) -> (&'a AnyArray, &'a AnyArray)
    requires left_good { IsGood (Struct left.now) }
    requires right_good { IsGood (Struct right.now) }
    requires one_type { type_of (Struct left.now) ≡ type_of (Struct right.now) }
    requires within { i < length (columns left.now) }
    ensures left_good { IsGood result.0.now }
    ensures right_good { IsGood result.1.now }
    ensures one_type { type_of result.0.now ≡ type_of result.1.now }
    ensures left_len { len_of result.0.now ≡ len_of (Struct left.now) }
    ensures right_len { len_of result.1.now ≡ len_of (Struct right.now) }
    ensures left_is { (other : AnyArray) → slice_index_or (columns left.now) i other
        ≡ result.0.now }
    ensures right_is { (other : AnyArray) → slice_index_or (columns right.now) i other
        ≡ result.1.now }
    ensures as_many { length (columns left.now) ≡ length (columns right.now) }
    ensures smaller { size-AnyArray result.0.now < size-StructArray left.now }
{
    (left.column(i), right.column(i))
}

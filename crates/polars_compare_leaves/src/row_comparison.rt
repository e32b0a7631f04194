//! The trait `RowComparison`: comparisons of two numbers, as relations of two rows.

ghost use Rattle.std.specs.Prelude.{◌≡◌, Bool, refl};
ghost use Rattle.polars_arrays_flat.specs.Row.{Row, Int};
ghost use Rattle.polars_compare_leaves.specs.Order.{row_at_least, row_at_most, row_greater};
ghost use Rattle.polars_compare_leaves.specs.Order.{row_less};
ghost use Rattle.polars_compare_leaves.specs.OrderLaws.{int_le-not_less};
ghost use Rattle.polars_compare_leaves.specs.Sameness.{other_row, same_row};

use polars_arrays_numbers::comparison::{
    Comparison, Equal, Greater, GreaterOrEqual, Less, LessOrEqual, Unequal,
};
use polars_arrays_numbers::native_type::NativeType;

/// A comparison of two numbers of one type: `Equal`, `Unequal`, `Less`, `LessOrEqual`, `Greater` or
/// `GreaterOrEqual`.
pub trait RowComparison<T: NativeType>: Comparison<T, T> {
    // The comparison as a relation of two rows.
    ghost rows: { Row → Row → Bool };

    // The comparison holds for two numbers exactly if the relation holds for their rows.
    ghost rows_law: { (comparison : Self) (l r : T) → Self.holds comparison l r
        ≡ rows (Int (T.value l)) (Int (T.value r)) };
}

impl<T: NativeType> RowComparison<T> for Equal {
    ghost rows = { same_row };

    ghost rows_law = { λ _ l r. refl };
}

impl<T: NativeType> RowComparison<T> for Unequal {
    ghost rows = { other_row };

    ghost rows_law = { λ _ l r. refl };
}

impl<T: NativeType> RowComparison<T> for Less {
    ghost rows = { row_less };

    ghost rows_law = { λ _ l r. refl };
}

impl<T: NativeType> RowComparison<T> for LessOrEqual {
    ghost rows = { row_at_most };

    ghost rows_law = { λ _ l r. int_le-not_less (T.value l) (T.value r) };
}

impl<T: NativeType> RowComparison<T> for Greater {
    ghost rows = { row_greater };

    ghost rows_law = { λ _ l r. refl };
}

impl<T: NativeType> RowComparison<T> for GreaterOrEqual {
    ghost rows = { row_at_least };

    ghost rows_law = { λ _ l r. int_le-not_less (T.value r) (T.value l) };
}

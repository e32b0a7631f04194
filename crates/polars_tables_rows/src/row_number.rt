//! The number types that a line can name.

ghost use Rattle.std.specs.Prelude.{◌≡◌, ℕ, List, Result, Some, option_map, refl};
ghost use Rattle.std.specs.Int.{w8, w16, w32, w64};
ghost use Rattle.std.specs.Result.{result_ok};
ghost use Rattle.num_traits.specs.Laws.{bit_len};
ghost use Rattle.polars_arrays_flat.specs.Row.{Int};
ghost use Rattle.polars_tables_rows.specs.declared.row_type.RowType.{RowType};
ghost use Rattle.polars_tables_rows.specs.declared.row_type.RowType.TheVariants.{I8, I16, I32, I64};
ghost use Rattle.polars_tables_rows.specs.declared.row_type.RowType.TheVariants.{U8, U16, U32, U64};
ghost use Rattle.polars_tables_rows.specs.ParsingLaws.{signed_row, unsigned_row};
ghost use Rattle.polars_tables_rows.specs.Types.{least_in, width_of};
ghost use Rattle.polars_tables_rows.specs.Word.{value_of};
ghost use Rattle.polars_tables_rows.specs.Written.{row_word};

use polars_arrays_numbers::native_type::NativeType;
use std::fmt::Display;
use std::str::FromStr;

/// A number type that a line can name, such as `i8`.
pub trait RowNumber: NativeType + FromStr<Err: Drop> + Display + Default {
    // The type of rows that have these numbers.
    ghost kind: { RowType };

    // Parsing a word gives the number that the word denotes, and fails if it denotes none.
    ghost number_law: { (word : List ℕ) (r : Result Self Self.Err) → Self.from_str_gives word r
        → option_map (λ x. Int (Self.value x)) (result_ok r) ≡ value_of kind word };

    // A number is printed as its word.
    ghost shown_law: { (x : Self) → Self.Display.output x ≡ Some (row_word (Int (Self.value x))) };

    // The row type has the least number and the width of this number type.
    ghost least_law: { least_in kind ≡ Self.low };

    ghost width_law: { width_of kind ≡ bit_len Self.width };
}

impl RowNumber for i8 {
    ghost kind = { I8 };

    ghost number_law = { λ word r h. signed_row w8 8 refl word r h.0 };

    ghost shown_law = { λ x. refl };

    ghost least_law = { refl };

    ghost width_law = { refl };
}

impl RowNumber for i16 {
    ghost kind = { I16 };

    ghost number_law = { λ word r h. signed_row w16 16 refl word r h.0 };

    ghost shown_law = { λ x. refl };

    ghost least_law = { refl };

    ghost width_law = { refl };
}

impl RowNumber for i32 {
    ghost kind = { I32 };

    ghost number_law = { λ word r h. signed_row w32 32 refl word r h.0 };

    ghost shown_law = { λ x. refl };

    ghost least_law = { refl };

    ghost width_law = { refl };
}

impl RowNumber for i64 {
    ghost kind = { I64 };

    ghost number_law = { λ word r h. signed_row w64 64 refl word r h.0 };

    ghost shown_law = { λ x. refl };

    ghost least_law = { refl };

    ghost width_law = { refl };
}

impl RowNumber for u8 {
    ghost kind = { U8 };

    ghost number_law = { λ word r h. unsigned_row 8 word r h.0 };

    ghost shown_law = { λ x. refl };

    ghost least_law = { refl };

    ghost width_law = { refl };
}

impl RowNumber for u16 {
    ghost kind = { U16 };

    ghost number_law = { λ word r h. unsigned_row 16 word r h.0 };

    ghost shown_law = { λ x. refl };

    ghost least_law = { refl };

    ghost width_law = { refl };
}

impl RowNumber for u32 {
    ghost kind = { U32 };

    ghost number_law = { λ word r h. unsigned_row 32 word r h.0 };

    ghost shown_law = { λ x. refl };

    ghost least_law = { refl };

    ghost width_law = { refl };
}

impl RowNumber for u64 {
    ghost kind = { U64 };

    ghost number_law = { λ word r h. unsigned_row 64 word r h.0 };

    ghost shown_law = { λ x. refl };

    ghost least_law = { refl };

    ghost width_law = { refl };
}

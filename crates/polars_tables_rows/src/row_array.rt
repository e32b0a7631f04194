//! The kinds of arrays that rows of a line are parsed into.

ghost use Rattle.std.specs.Prelude.{◌≡◌, ◌<◌, ℕ, List, Result, Some, length, map, option_map};
ghost use Rattle.std.specs.Prelude.{vec_len, MatchResult};
ghost use Rattle.std.specs.Result.{result_ok};
ghost use Rattle.polars_arrays_bits.specs.Errors.{IsMemory};
ghost use Rattle.polars_arrays_flat.specs.Row.{Row, Int, Truth};
ghost use Rattle.polars_arrays_flat.specs.StoredRows.{masked, number_slots, row, rows_under};
ghost use Rattle.polars_arrays_flat.specs.StoredRows.{truth_slots};
ghost use Rattle.polars_tables_rows.specs.declared.row_type.RowType.{RowType};
ghost use Rattle.polars_tables_rows.specs.declared.row_type.RowType.TheVariants.{Boolean};
ghost use Rattle.polars_tables_rows.specs.ParsingLaws.{truth_row};
ghost use Rattle.polars_tables_rows.specs.Word.{row_from, value_of};
ghost use Rattle.polars_tables_rows.specs.Written.{row_word};
ghost use Rattle.polars_tables_rows.specs.WrittenLaws.{truth_shown};

use crate::row_number::RowNumber;
use polars_arrays_bits::bitmap::Bitmap;
use polars_arrays_bits::error::ComputeError;
use polars_arrays_flat::array::Array;
use polars_arrays_flat::boolean::BooleanArray;
use polars_arrays_flat::primitive::PrimitiveArray;
use polars_arrays_flat::validity::is_present;
use std::alloc::Global;
use std::fmt::Display;
use std::str::FromStr;

/// A kind of array that rows of a line are parsed into. Its rows can be formatted as text again.
pub trait RowArray: Array + Sized + Drop {
    /// The type of a present row's value.
    type Value: FromStr<Err: Drop> + Display + Copy + Default;

    // The type of the array's rows in a line.
    ghost kind: { RowType };

    // The row that has a given value.
    ghost value_row: { Self.Value → Row };

    /// Creates an array of values. Row `i` is null if bit `i` of `present` is 0. The only error is
    /// `Memory`.
    fn from_values(
        alloc: Global,
        values: Vec<Self::Value>,
        present: Bitmap,
    ) -> Result<Self, ComputeError>
        requires { length present ≡ vec_len values }
        ensures { MatchResult result
            (λ array. rows_under (Self.mask array) (Self.slots array)
            ≡ masked present (map value_row values.items))
            IsMemory };

    /// Returns the number of rows, including null rows.
    fn count(&self) -> usize
        ensures rows { result ≡ length (rows_under (Self.mask self.now) (Self.slots self.now)) }
        ensures slots { result ≡ length (Self.slots self.now) };

    /// Returns the value of row `i`, or `None` if it is null.
    fn value(&self, i: usize) -> Option<Self::Value>
        requires { i < length (Self.slots self.now) }
        ensures { row_from value_row result
            ≡ row (rows_under (Self.mask self.now) (Self.slots self.now)) i };

    // Parsing a word gives the value that the word denotes, and fails if it denotes none.
    ghost parse_law: { (word : List ℕ) (r : Result Self.Value Self.Value.Err)
        → Self.Value.from_str_gives word r
        → option_map value_row (result_ok r) ≡ value_of kind word };

    // Formatting a value gives its word.
    ghost shown_law: { (x : Self.Value) → Self.Value.Display.output x
        ≡ Some (row_word (value_row x)) };
}

impl<T: RowNumber> RowArray for PrimitiveArray<T> {
    type Value = T;

    ghost kind = { T.kind };

    ghost value_row = { λ x. Int (T.value x) };

    #[tactic(auto, using(crate::proofs::Unmasked::none_masked))]
    fn from_values(
        _alloc: Global,
        values: Vec<T>,
        present: Bitmap,
    ) -> Result<PrimitiveArray<T>, ComputeError>
        requires { length present ≡ vec_len values }
        ensures { MatchResult result
            (λ array. rows_under array.validity (number_slots T.value array.values)
            ≡ masked present (map (λ x. Int (T.value x)) values.items))
            IsMemory }
    {
        let array = PrimitiveArray::from_vec(values);
        if present.unset_bits() == 0 {
            return Ok(array);
        }
        Ok(array.with_validity(Some(present)))
    }

    fn count(&self) -> usize {
        // its contract states that the validity has a bit for each row
        let _ = self.validity();
        self.len()
    }

    fn value(&self, i: usize) -> Option<T> {
        if is_present(self.validity(), i) {
            Some(self.values()[i])
        } else {
            None
        }
    }

    ghost parse_law = { T.number_law };

    ghost shown_law = { T.shown_law };
}

impl RowArray for BooleanArray {
    type Value = bool;

    ghost kind = { Boolean };

    ghost value_row = { Truth };

    fn from_values(
        alloc: Global,
        values: Vec<bool>,
        present: Bitmap,
    ) -> Result<BooleanArray, ComputeError>
        requires { length present ≡ vec_len values }
        ensures { MatchResult result
            (λ array. rows_under array.validity (truth_slots array.values)
            ≡ masked present (map Truth values.items))
            IsMemory }
    {
        let bits = Bitmap::from_bools(alloc, values.as_slice())?;
        let Ok(array) = BooleanArray::try_new(bits, Some(present)) else {
            unreachable!();
        };
        Ok(array)
    }

    fn count(&self) -> usize {
        // its contract states that the validity has a bit for each row
        let _ = self.validity();
        self.len()
    }

    fn value(&self, i: usize) -> Option<bool> {
        if is_present(self.validity(), i) {
            Some(self.values().get_bit(i))
        } else {
            None
        }
    }

    ghost parse_law = { λ word r h. truth_row word r h };

    ghost shown_law = { truth_shown };
}

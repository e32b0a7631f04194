//! The least and the greatest row of arrays of truth values. They follow from the numbers of
//! present rows and of true rows, which are counted 64 rows at a time.

ghost use Rattle.std.specs.Option.{option_copied};
ghost use Rattle.std.specs.Prelude.{◌≡◌, true, count_by, length};
ghost use Rattle.polars_arrays_flat.specs.ArrayRows.{truth_rows};
ghost use Rattle.polars_arrays_flat.specs.Row.{Truth};
ghost use Rattle.polars_arrays_flat.specs.StoredRows.{rows_under, truth_slots};
ghost use Rattle.polars_arrays_flat.specs.Validity.{HasBits};
ghost use Rattle.polars_compare_extremes.specs.Truths.{is_there, is_truth};

use crate::kernel::MinMaxKernel;
use polars_arrays_bits::bitmap::Bitmap;
use polars_arrays_flat::array::Array;
use polars_arrays_flat::boolean::BooleanArray;

// Returns the number of present rows. Without a validity all rows are present.
#[tactic(auto, using(crate::proofs::Truths::truth_counts))]
fn present_count(values: &Bitmap, validity: Option<&Bitmap>) -> usize
    requires { HasBits (length values.now) (option_copied validity) }
    ensures { result
        ≡ count_by is_there (rows_under (option_copied validity.entry) (truth_slots values.now)) }
{
    match validity {
        Some(bits) => bits.set_bits(),
        None => values.len(),
    }
}

// Returns the number of rows that are present and true. Without a validity all rows are present.
#[tactic(auto, using(crate::proofs::Truths::truth_counts))]
fn true_count(values: &Bitmap, validity: Option<&Bitmap>) -> usize
    requires { HasBits (length values.now) (option_copied validity) }
    ensures { result
        ≡ count_by (is_truth true)
        (rows_under (option_copied validity.entry) (truth_slots values.now)) }
{
    match validity {
        Some(bits) => values.num_intersections_with(bits),
        None => values.set_bits(),
    }
}

impl MinMaxKernel for BooleanArray {
    type Scalar = bool;

    ghost rows = { truth_rows };

    ghost scalar_row = { λ bit. Truth bit };

    fn min_ignore_nan_kernel(&self) -> Option<bool> {
        let (values, validity) = (self.values(), self.validity());
        let present = present_count(values, validity);
        if present == 0 {
            return None;
        }
        Some(true_count(values, validity) == present)
    }

    fn max_ignore_nan_kernel(&self) -> Option<bool> {
        let (values, validity) = (self.values(), self.validity());
        if present_count(values, validity) == 0 {
            return None;
        }
        Some(true_count(values, validity) > 0)
    }
}

//! Kernels that reduce the present rows of an array, or find the least or the greatest one.

use crate::column::Column;
use crate::tally::Tally;
use polars_arrays_flat::boolean::BooleanArray;
use polars_compare_extremes::kernel::MinMaxKernel;
use polars_compute_reductions::bitwise::BitwiseKernel;

/// A kernel that reduces the present rows of an array.
#[derive(Clone, Copy)]
pub enum Reduction {
    And,
    Or,
    Xor,
    Min,
    Max,
    MinMax,
    MinPropagate,
    MaxPropagate,
    MinMaxPropagate,
}

/// The kernels, with the names that are printed.
pub const REDUCTIONS: [(&str, Reduction); 9] = [
    ("reduce_and", Reduction::And),
    ("reduce_or", Reduction::Or),
    ("reduce_xor", Reduction::Xor),
    ("min_ignore_nan_kernel", Reduction::Min),
    ("max_ignore_nan_kernel", Reduction::Max),
    ("min_max_ignore_nan_kernel", Reduction::MinMax),
    ("min_propagate_nan_kernel", Reduction::MinPropagate),
    ("max_propagate_nan_kernel", Reduction::MaxPropagate),
    ("min_max_propagate_nan_kernel", Reduction::MinMaxPropagate),
];

/// The result of a kernel: two truth values, or `None` if no row is present. A single truth value
/// is stored twice.
type Pair = Option<(bool, bool)>;

impl Reduction {
    // Calls the kernel on `array`, and returns its result as a pair.
    fn call(self, array: &BooleanArray) -> Pair {
        match self {
            Reduction::And => twice(array.reduce_and()),
            Reduction::Or => twice(array.reduce_or()),
            Reduction::Xor => twice(array.reduce_xor()),
            Reduction::Min => twice(array.min_ignore_nan_kernel()),
            Reduction::Max => twice(array.max_ignore_nan_kernel()),
            Reduction::MinMax => array.min_max_ignore_nan_kernel(),
            Reduction::MinPropagate => twice(array.min_propagate_nan_kernel()),
            Reduction::MaxPropagate => twice(array.max_propagate_nan_kernel()),
            Reduction::MinMaxPropagate => array.min_max_propagate_nan_kernel(),
        }
    }

    // Returns the expected result for all rows of two lists. `left` and `right` are the expected
    // results for the two lists.
    fn join(self, left: (bool, bool), right: (bool, bool)) -> (bool, bool) {
        match self {
            Reduction::And | Reduction::Min | Reduction::MinPropagate => {
                (left.0 && right.0, left.1 && right.1)
            }
            Reduction::Or | Reduction::Max | Reduction::MaxPropagate => {
                (left.0 || right.0, left.1 || right.1)
            }
            Reduction::Xor => (left.0 != right.0, left.1 != right.1),
            Reduction::MinMax | Reduction::MinMaxPropagate => {
                (left.0 && right.0, left.1 || right.1)
            }
        }
    }

    // Returns the expected result for a list of rows, or `None` if all rows are null.
    fn of(self, rows: &[Option<bool>]) -> Pair {
        let mut reduced = None;
        for row in rows {
            reduced = match (reduced, twice(*row)) {
                (Some(left), Some(right)) => Some(self.join(left, right)),
                (left, None) => left,
                (None, right) => right,
            };
        }
        reduced
    }
}

// Returns a pair of a truth value and itself, or `None` for `None`.
fn twice(truth: Option<bool>) -> Pair {
    let truth = truth?;
    Some((truth, truth))
}

/// Calls each kernel on the array of `column`, and compares the result with the one expected for
/// its list of rows.
pub fn ask(tallies: &mut [Tally<Reduction>], column: &Column) {
    for tally in tallies.iter_mut() {
        let expected = tally.call.of(column.rows());
        tally.counts.begin_call(true);
        tally
            .counts
            .compare(tally.call.call(column.array()) == expected);
    }
}

//! The least and the greatest present row of arrays of numbers, truth values, byte strings and
//! texts, of slices of numbers, and of arrays of any kind.

pub use polars_compare_extremes::borrowed::{BytesMinMaxKernel, TextMinMaxKernel};
pub use polars_compare_extremes::dispatch::{
    dyn_array_max_ignore_nan, dyn_array_max_propagate_nan, dyn_array_min_ignore_nan,
    dyn_array_min_max_propagate_nan, dyn_array_min_propagate_nan,
};
pub use polars_compare_extremes::kernel::MinMaxKernel;
pub use polars_compare_extremes::scalar::AnyScalar;

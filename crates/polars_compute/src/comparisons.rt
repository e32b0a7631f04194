//! Equality and order of arrays of one kind, row by row or with a scalar. Equality of two arrays of
//! any kind. Comparisons of arrays of views that count the rows whose bytes they look up in a
//! buffer.

pub use polars_compare_equality::borrowed::{BytesEqKernel, TextEqKernel};
pub use polars_compare_equality::kernel::TotalEqKernel;
pub use polars_compare_leaves::followed::FollowedKernel;
pub use polars_compare_nested::kernels::{
    array_tot_eq_missing_kernel, array_tot_eq_missing_kernel_counted,
    array_tot_eq_missing_kernel_with_steps, array_tot_ne_missing_kernel,
    array_tot_ne_missing_kernel_counted,
};
pub use polars_compare_nested::leaf_kernel::LeafKernel;
pub use polars_compare_order::borrowed::{BytesOrdKernel, TextOrdKernel};
pub use polars_compare_order::kernel::TotalOrdKernel;

//! Distinct values of columns in chunks. A state collects the distinct values of arrays of numbers
//! or truth values, or the keys of dictionaries. States can be merged, and list the values in
//! ascending order.

pub use polars_compute_slots::number::UniqueNumber;
pub use polars_compute_unique::boolean::BooleanUniqueKernelState;
pub use polars_compute_unique::dictionary::{DictionaryRangedUniqueState, keys_fit};
pub use polars_compute_unique::kernel::{
    GenericUniqueKernel, RangedUniqueKernel, SortedUniqueKernel,
};
pub use polars_compute_unique::merge::{MergeTree, append_all, merge_tree};
pub use polars_compute_unique::primitive::{PrimitiveRangedUniqueState, range_fits};

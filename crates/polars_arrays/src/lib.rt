//! Re-exports modules of the crates of arrays, so that a caller depends on this crate alone. Items
//! have paths such as `polars_arrays::primitive::PrimitiveArray`, whichever crate defines them. The
//! crates are
//! - `polars_arrays_numbers`: types of numbers, offsets and keys, comparisons, the counter `Steps`;
//! - `polars_arrays_bits`: packed bits, buffers and errors;
//! - `polars_arrays_flat`: types, and arrays of numbers and of truth values;
//! - `polars_arrays_bytes`: arrays of byte strings and of texts;
//! - `polars_arrays_views`: arrays of byte strings and of texts, as views;
//! - `polars_arrays_nested`: nested arrays.
#![tactic(auto)]

pub use polars_arrays_bits::{
    bit_mask, bitmap, buffer, builder, error, mutable_bitmap, packing, slices,
};
pub use polars_arrays_bytes::{binary, fixed_size, offset_type, text};
pub use polars_arrays_flat::{
    array, arrow_type, boolean, byte_rows, data_type, mask, null, primitive,
};
pub use polars_arrays_nested::{
    any_array, dict_keys, dictionary, fixed_size_list, laws, list, list_offsets, struct_array,
};
pub use polars_arrays_numbers::{comparison, dictionary_key, native_type, offset, steps};
pub use polars_arrays_views::{binary_view, text_view, view};

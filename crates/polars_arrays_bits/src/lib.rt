//! Packed bits, buffers and errors, on which all arrays are built. The crate re-exports the number
//! types, the comparisons and the counter of `polars_arrays_numbers`, and the module `packing` of
//! `polars_arrays_words`.
#![tactic(auto)]

pub use polars_arrays_numbers::{comparison, dictionary_key, native_type, offset, steps};
pub use polars_arrays_words::packing;

pub mod bit_mask;
pub mod bitmap;
pub mod buffer;
pub mod builder;
pub mod counting;
pub mod error;
pub mod mutable_bitmap;
pub mod slices;

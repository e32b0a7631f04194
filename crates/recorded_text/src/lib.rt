//! Values as text, for programs that check recorded cases: functions that read arrays from the
//! words of a line, and functions that write bits and rows as text or count leaf slots.
//!
//! An array is written as the index of its first row, its number of rows, its kind, and the parts
//! of the kind. For example, the parts in `1 2 i32 3 7 8 9 b0:101` are the three numbers 7, 8 and
//! 9, and a validity by which 8 is null. The array has two rows, from row 1 on: null and 9.
//! `nested` describes the parts of each kind, and `names` looks up names.
#![tactic(auto)]

pub mod bits_text;
pub mod bytes_text;
pub mod fault;
mod flat;
pub mod leaf_slots;
pub mod names;
pub mod nested;
pub mod parts;
pub mod row_text;
pub mod store;
pub mod type_text;
pub mod words;
pub mod wrapped;

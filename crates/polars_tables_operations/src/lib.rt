//! The operations that a line can name, on arrays of rows. A line is a command of the program
//! `polars_tables`, such as `add i8 1 2 | 3 null`: an operation, a type, and lists of rows.
#![tactic(auto)]

mod answering;
mod calculating;
mod comparing;
mod counting;
mod distinct;
pub mod general;
pub mod kernel_array;
pub mod line_number;
pub mod numeric;
pub mod operation;
mod ranges;
mod reducing;
pub mod truths;

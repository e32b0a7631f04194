//! Parses the lists of rows in a line into arrays, and formats arrays as text. Also the reasons for
//! refusing a line. A line is a command of the program `polars_tables`, such as `add i8 1 2 | 3
//! null`: an operation, a type, and lists of rows.
#![tactic(auto)]

pub mod fault;
pub mod row_array;
pub mod row_number;
pub mod row_type;
pub mod tables;
pub mod words;
pub mod written;

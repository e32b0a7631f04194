//! The language of the program `polars_tables`: one command per line, such as
//! `eq_missing i32 1 null | 1 null`, and one result per line, such as `true true`.
#![tactic(auto)]

pub mod arguments;
pub mod demo;
pub mod line;
pub mod program;
pub mod running;

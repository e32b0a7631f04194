//! Functions applied to the stored values of arrays of numbers (`arity`), and wrapping arithmetic
//! on numbers and on arrays of numbers (`arithmetic`).
#![tactic(auto)]

pub mod arithmetic;
pub mod arity;

//! Worked examples of definitions that the contracts of the kernels and of the file comparison use.
//! The examples are in `proofs/`, and are evaluated when this crate is checked. The crate has no
//! functions.
#![tactic(auto)]

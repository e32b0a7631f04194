//! Measures the width of texts on a terminal, and cuts texts to a width.
#![tactic(auto)]

pub mod cut;

//! JSON texts for printing on a terminal. The control characters that JSON allows in strings,
//! U+007F to U+009F, are escaped.
#![tactic(auto)]

pub mod laws;
pub mod plain;

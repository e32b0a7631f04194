//! Bits of 64-bit words: reads them from any bit on, counts them, combines them by operators, packs
//! truth values into words, reduces blocks of bits to one bit each, and writes bits in place.
#![tactic(auto)]

pub mod changes;
pub mod folds;
pub mod operators;
pub mod packing;
pub mod runs;
pub mod source;
pub mod words;
pub mod write;

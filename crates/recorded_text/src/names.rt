//! Lookups of names in tables.

use crate::fault::Fault;

/// Returns the value in the first pair of `table` with this name, or `None` if no pair has it.
pub fn find<T: Copy>(table: &[(&str, T)], name: &str) -> Option<T> {
    for (each, found) in table {
        if *each == name {
            return Some(*found);
        }
    }
    None
}

/// Returns the value in the first pair of `table` with the name `word`. The error is `Word` if no
/// pair has it.
pub fn find_word<T: Copy>(table: &[(&str, T)], word: &str) -> Result<T, Fault> {
    find(table, word).ok_or(Fault::Word)
}

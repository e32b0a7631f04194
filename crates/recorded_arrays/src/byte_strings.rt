//! Comparisons of byte strings, and of pairs of numbers.

use crate::values_text::write_value;
use polars_arrays_flat::byte_equality::bytes_equal;
use polars_arrays_flat::byte_order::{bytes_less, pair_less};
use recorded_text::fault::Fault;
use recorded_text::parts::read_bytes;
use recorded_text::words::Words;
use std::alloc::Global;

/// A comparison of two byte strings.
#[derive(Clone, Copy)]
pub enum ByteTest {
    Equal,
    Less,
}

/// Reads two byte strings from the next two words, and returns the text `true` if `comparison`
/// holds for them, otherwise `false`.
pub fn compare(alloc: Global, comparison: ByteTest, words: &mut Words) -> Result<String, Fault> {
    let (left, right) = (words.read()?, words.read()?);
    let left = read_bytes(alloc, left)?;
    let right = read_bytes(alloc, right)?;
    let holds = is_told(comparison, &left, &right);
    write_value(alloc, holds)
}

// Returns whether `comparison` holds for `left` and `right`.
fn is_told(comparison: ByteTest, left: &[u8], right: &[u8]) -> bool {
    match comparison {
        ByteTest::Equal => bytes_equal(left, right),
        ByteTest::Less => bytes_less(left, right),
    }
}

/// Reads `p`, `q`, `n` and `m` from the next four words, and returns the text `true` if the pair
/// `(p, n)` is less than `(q, m)`, otherwise `false`. `p` and `q` decide, or the lengths `n` and
/// `m` if `p` equals `q`.
pub fn less_pair(alloc: Global, words: &mut Words) -> Result<String, Fault> {
    let (p, q) = (words.read_number()?, words.read_number()?);
    let (n, m) = (words.read_number()?, words.read_number()?);
    write_value(alloc, pair_less(p, q, n, m))
}

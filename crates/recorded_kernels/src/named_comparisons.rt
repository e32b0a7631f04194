//! The six comparisons of two rows by name: `equal`, `unequal`, `less`, `less_or_equal`, `greater`
//! and `greater_or_equal`.
//!
//! - `truth_comparison COMPARISON TRUTH TRUTH`: whether the comparison of two truth values holds
//! - `truth_comparison_masks COMPARISON BITS BITS`: a bit for each index of two bit sequences of
//!   equal length: 1 if the comparison of the two bits holds
//! - `byte_comparison COMPARISON BYTES BYTES`, `byte_comparison_constant COMPARISON BYTES BYTES`:
//!   whether the comparison of two byte strings holds, by `compare` or by `compare_constant`
//!
//! The calls of `stored_rows` and of `stored_numbers`, and some of `view_rows`, take a comparison
//! too.

ghost use Rattle.std.specs.Prelude.{◌≡◌, length};
ghost use Rattle.recorded_text.specs.Cases.{HasGoodArrays};

use crate::operands::{read_next_bytes, read_truth, write_truth};
use crate::stored_rows::{ask_constant, ask_windows};
use crate::view_rows::{compare_two, compare_with_bytes};
use polars_arrays_bits::bit_mask::BitMask;
use polars_arrays_bits::bitmap::Bitmap;
use polars_arrays_numbers::comparison::{
    Equal, Greater, GreaterOrEqual, Less, LessOrEqual, Unequal,
};
use polars_compare_leaves::booleans::TruthComparison;
use polars_compare_leaves::bytes::ByteComparison;
use polars_compare_leaves::view_comparison::ViewComparison;
use recorded_text::bits_text::write_made;
use recorded_text::fault::Fault;
use recorded_text::names::find_word;
use recorded_text::parts::read_bits;
use recorded_text::store::Store;
use recorded_text::words::Words;
use std::alloc::Global;

/// A comparison of two rows.
#[derive(Clone, Copy)]
pub enum NamedComparison {
    Equal,
    Unequal,
    Less,
    LessOrEqual,
    Greater,
    GreaterOrEqual,
}

// The comparisons by name.
const COMPARISONS: [(&str, NamedComparison); 6] = [
    ("equal", NamedComparison::Equal),
    ("unequal", NamedComparison::Unequal),
    ("less", NamedComparison::Less),
    ("less_or_equal", NamedComparison::LessOrEqual),
    ("greater", NamedComparison::Greater),
    ("greater_or_equal", NamedComparison::GreaterOrEqual),
];

impl NamedComparison {
    /// Reads the name of a comparison from the next word. The error is `Word` if there is no such
    /// name.
    pub fn read(words: &mut Words) -> Result<NamedComparison, Fault> {
        find_word(&COMPARISONS, words.read()?)
    }
}

/// Evaluates `$each`, where `$named` is a reference to the comparison, such as `&Equal`, that the
/// `NamedComparison` `$comparison` stands for.
macro_rules! with_comparison {
    ($comparison:expr, $named:ident => $each:expr) => {
        match $comparison {
            NamedComparison::Equal => {
                let $named = &Equal;
                $each
            }
            NamedComparison::Unequal => {
                let $named = &Unequal;
                $each
            }
            NamedComparison::Less => {
                let $named = &Less;
                $each
            }
            NamedComparison::LessOrEqual => {
                let $named = &LessOrEqual;
                $each
            }
            NamedComparison::Greater => {
                let $named = &Greater;
                $each
            }
            NamedComparison::GreaterOrEqual => {
                let $named = &GreaterOrEqual;
                $each
            }
        }
    };
}

pub(crate) use with_comparison;

/// Operands of a comparison.
#[derive(Clone, Copy)]
pub enum Compared {
    /// Two truth values.
    TwoTruths,
    /// Two bit sequences, compared at each index.
    Masks,
    /// Two byte strings.
    TwoStrings,
    /// Two byte strings, compared by `compare_constant`.
    StringAndConstant,
    /// Two rows of arrays of views.
    TwoViews,
    /// A row of an array of views, and a byte string.
    ViewAndString,
    /// The stored truth values of an array, and a constant.
    Truths,
    /// The stored byte strings of an array, and a constant.
    Strings,
    /// The stored byte strings of an array of views, and a constant.
    Views,
    /// The stored truth values of two windows.
    TruthWindows,
    /// The stored byte strings of two windows.
    StringWindows,
    /// The stored byte strings of two windows of `FixedSizeBinary` arrays.
    SizedWindows,
    /// The stored byte strings of two windows of arrays of views.
    ViewWindows,
}

/// Reads the name of a comparison from the next word, and its operands from the words after it.
/// `compared` says what the operands are. Returns the text of the result.
pub fn ask(
    alloc: Global,
    compared: Compared,
    store: &Store,
    words: &mut Words,
) -> Result<String, Fault>
    requires { HasGoodArrays store.now }
{
    let comparison = NamedComparison::read(words)?;
    with_comparison!(comparison, comparison => ask_by(alloc, comparison, compared, store, words))
}

// Reads the operands of `comparison`, which `compared` describes, from the next words. Returns the
// text of the result.
fn ask_by<C: TruthComparison + ByteComparison + ViewComparison>(
    alloc: Global,
    comparison: &C,
    compared: Compared,
    store: &Store,
    words: &mut Words,
) -> Result<String, Fault>
    requires { HasGoodArrays store.now }
{
    match compared {
        Compared::TwoTruths => compare_truths(alloc, comparison, words),
        Compared::Masks => compare_bits(alloc, comparison, words),
        Compared::TwoStrings | Compared::StringAndConstant => {
            compare_strings(alloc, comparison, compared, words)
        }
        Compared::TwoViews => compare_two(alloc, comparison, store, words),
        Compared::ViewAndString => compare_with_bytes(alloc, comparison, store, words),
        Compared::Truths | Compared::Strings | Compared::Views => {
            ask_constant(alloc, comparison, compared, store, words)
        }
        _ => ask_windows(alloc, comparison, compared, store, words),
    }
}

// Reads two truth values, and returns the text that says whether `comparison` holds for them.
fn compare_truths<C: TruthComparison>(
    alloc: Global,
    comparison: &C,
    words: &mut Words,
) -> Result<String, Fault> {
    let left = read_truth(words)?;
    let right = read_truth(words)?;
    write_truth(alloc, comparison.compare(left, right))
}

// Reads two bit sequences from the next two words, and compares them at each index. Returns the
// text of the resulting bits. The error is `Case` if the lengths differ.
fn compare_bits<C: TruthComparison>(
    alloc: Global,
    comparison: &C,
    words: &mut Words,
) -> Result<String, Fault> {
    let left = read_bits(alloc, words.read()?)?;
    let right = read_bits(alloc, words.read()?)?;
    write_passing(alloc, comparison, &left, &right)
}

// Compares the bits of `left` and `right` at each place, and returns the text of the resulting
// bits. The error is `Case` if the lengths differ.
fn write_passing<C: TruthComparison>(
    alloc: Global,
    comparison: &C,
    left: &Bitmap,
    right: &Bitmap,
) -> Result<String, Fault> {
    if left.len() != right.len() {
        return Err(Fault::Case);
    }
    let (left, right) = (BitMask::from_bitmap(left), BitMask::from_bitmap(right));
    write_made(alloc, comparison.compare_bits(alloc, &left, &right))
}

// Reads two byte strings, and returns the text that says whether `comparison` holds for them. Calls
// `compare` if `compared` is `TwoStrings`, and `compare_constant` otherwise.
fn compare_strings<C: ByteComparison>(
    alloc: Global,
    comparison: &C,
    compared: Compared,
    words: &mut Words,
) -> Result<String, Fault> {
    let left = read_next_bytes(alloc, words)?;
    let right = read_next_bytes(alloc, words)?;
    let passes = match compared {
        Compared::TwoStrings => comparison.compare(&left, &right),
        _ => comparison.compare_constant(&left, &right),
    };
    write_truth(alloc, passes)
}

//! Splits a text into words, and parses lists of rows into arrays.

ghost use Rattle.std.specs.Prelude.{◌≡◌, ◌∷◌, ◌<◌, ◌≤◌, [], Some, None, length, map, vec_len};
ghost use Rattle.std.specs.Prelude.{option_map, is_some, IfOk, IfErr, IfSome, MatchOption};
ghost use Rattle.polars_arrays_flat.specs.StoredRows.{masked, rows_under};
ghost use Rattle.polars_tables_rows.specs.Faults.{UnlessMemory};
ghost use Rattle.polars_tables_rows.specs.Word.{words_of, is_bar, value_of, row_from, row_of};
ghost use Rattle.polars_tables_rows.specs.Word.{lists_of, lists_behind};
ghost use Rattle.polars_tables_rows.specs.declared.fault.LineError.TheVariants.{Memory};

use crate::fault::{LineError, or_memory};
use crate::row_array::RowArray;
use crate::tables::is_same;
use polars_arrays_bits::builder::BitmapBuilder;
use std::alloc::Global;

/// Returns the first word of a text and the rest of the text after this word. Returns `None` if the
/// text has no word. Words are separated by one or more spaces.
///
/// For example, the first word of `add i8 1` is `add`, and the rest is `i8 1`.
pub fn next_word(text: &str) -> Option<(&str, &str)>
    ensures word { MatchOption result (words_of text.now ≡ [])
        (λ pair. words_of text.now ≡ pair.0.now ∷ words_of pair.1.now) }
    ensures shorter { IfSome result (λ pair. length pair.1.now < length text.now) }
{
    let mut rest = text;
    'parts: while let Some((part, more)) = rest.split_once(' ') {
        if !part.is_empty() {
            return Some((part, more));
        }
        rest = more;
    }
    if rest.is_empty() {
        return None;
    }
    Some((rest, ""))
}

/// Returns whether a word is a bar (`|`), which separates two lists of rows.
fn is_bar(word: &str) -> bool
    ensures { result ≡ is_bar word.now }
{
    is_same(word, "|")
}

/// Parses a word as a value. Returns `None` if the word is not a value of the type.
fn parse_value<A: RowArray>(word: &str) -> Option<A::Value>
    ensures { option_map A.value_row result ≡ value_of A.kind word.now }
{
    word.parse().ok()
}

/// Parses a word as a row. Returns `Some(None)` for `null`, and `None` if the word is not a row of
/// the type.
fn parse_row<A: RowArray>(word: &str) -> Option<Option<A::Value>>
    ensures { option_map (row_from A.value_row) result ≡ row_of A.kind word.now }
{
    if is_same(word, "null") {
        return Some(None);
    }
    parse_value::<A>(word).map(Some)
}

/// Returns the value to store for a row. For null this is the default value, on which no result
/// depends.
fn stored_value<V: Copy + Default>(row: Option<V>) -> V
    ensures { IfSome row (λ value. result ≡ value) }
{
    match row {
        Some(value) => value,
        None => V::default(),
    }
}

/// Creates the array of the parsed rows. Row `i` is null if bit `i` of `present` is 0. The only
/// error is `Memory`.
fn make_array<A: RowArray>(
    alloc: Global,
    values: Vec<A::Value>,
    present: BitmapBuilder,
) -> Result<A, LineError>
    requires { length present.bits ≡ vec_len values }
    ensures rows { IfOk result
        (λ array. rows_under (A.mask array) (A.slots array)
        ≡ masked present.bits (map A.value_row values.items)) }
    ensures fault { IfErr result (λ e. e ≡ Memory) }
{
    or_memory(A::from_values(alloc, values, present.freeze()))
}

/// The initial capacity of a list in rows, so that a short list never grows.
const ROOM: usize = 16;

/// Parses the first list of rows in a text. Returns its array, and the rest of the text after the
/// bar that ends the list, or `None` if no bar ends it. Fails with `Row` if a word of the list is
/// not a row of the type, and with `Memory` if an allocation fails.
fn parse_list<'a, A: RowArray>(
    alloc: Global,
    text: &'a str,
) -> Result<(A, Option<&'a str>), LineError>
    ensures rows { IfOk result (λ list. lists_of A.kind (words_of text.now)
        ≡ option_map (λ more. rows_under (A.mask list.0) (A.slots list.0) ∷ more)
        (lists_behind A.kind (option_map (λ t. t.now) list.1))) }
    ensures fault { IfErr result (λ e. UnlessMemory e
        ((e ≡ LineError.Row) × (lists_of A.kind (words_of text.now) ≡ None))) }
{
    // A text has at most one word for each byte.
    let mut present = or_memory(BitmapBuilder::with_capacity(alloc, text.len()))?;
    let mut values = Vec::with_capacity(alloc, ROOM)?;
    let mut rest = text;
    'words: while let Some((word, more)) = next_word(rest) {
        if is_bar(word) {
            let array = make_array(alloc, values, present)?;
            return Ok((array, Some(more)));
        }
        let Some(row) = parse_row::<A>(word) else {
            return Err(LineError::Row);
        };
        present.push_reserved(row.is_some());
        values.push(stored_value(row))?;
        rest = more;
    }
    let array = make_array(alloc, values, present)?;
    Ok((array, None))
}

/// Returns whether each word of a text is a bar or a row of the type.
fn are_rows<A: RowArray>(text: &str) -> bool
    ensures { result ≡ is_some (lists_of A.kind (words_of text.now)) }
{
    let mut rest = text;
    'words: while let Some((word, more)) = next_word(rest) {
        if !is_bar(word) && parse_row::<A>(word).is_none() {
            return false;
        }
        rest = more;
    }
    true
}

/// Parses all lists of rows in a text, which are separated by bars. Fails with `Row` if a word is
/// neither a bar nor a row of the type, and otherwise with `Length` if there are more than `most`
/// lists. Fails with `Memory` if an allocation fails first.
///
/// For example, the text `1 null | 2` has two lists, one of two rows and one of one row.
pub fn parse_lists<A: RowArray>(alloc: Global, most: usize, text: &str) -> Result<Vec<A>, LineError>
    ensures lists { IfOk result (λ lists. lists_of A.kind (words_of text.now)
        ≡ Some (map (λ a. rows_under (A.mask a) (A.slots a)) lists.items)) }
    ensures kept { IfOk result (λ lists. vec_len lists ≤ most) }
    ensures fault { IfErr result
        (λ e. UnlessMemory e (MatchOption (lists_of A.kind (words_of text.now))
        (e ≡ LineError.Row) (λ lists. (e ≡ LineError.Length) × (most < length lists)))) }
{
    let mut lists = Vec::new(alloc);
    let mut rest = text;
    for _ in 0..most {
        let (array, more) = parse_list::<A>(alloc, rest)?;
        lists.push(array)?;
        match more {
            Some(text) => rest = text,
            None => return Ok(lists),
        }
    }
    if are_rows::<A>(rest) {
        Err(LineError::Length)
    } else {
        Err(LineError::Row)
    }
}

//! The counts at the end of a report, and the messages about columns that only one file has. A text
//! is collected as a list of `words`, such as `3 changed,`. A word may contain blanks, but
//! `push_paragraph` breaks lines only between words.

ghost use Rattle.std.specs.Prelude.{◌≡◌, ◌∷◌, [], ◌++◌, codes, map, OnOk, Some, option_and_then};
ghost use Rattle.json.specs.Find.{as_object, get};
ghost use Rattle.json.specs.Tree.{HasNumbers, MembersHaveNumbers};
ghost use Rattle.json.specs.Value.{members_view, value_view};
ghost use Rattle.diff_aligned.specs.Counts.{column_lines, column_words, count_word, counts_lines};
ghost use Rattle.diff_aligned.specs.Counts.{file_with, hidden_words, kind_words, pair_words};
ghost use Rattle.diff_aligned.specs.Counts.{skipped_counts, skipped_words};
ghost use Rattle.diff_aligned.specs.Paragraphs.{paragraph, texts_bytes};
ghost use Rattle.diff_aligned.specs.Texts.{name_text, pair_text};

use crate::paragraphs::push_paragraph;
use crate::shown::{push_ascii, push_text};
use crate::texts::{push_name, push_number, push_pair};
use diff_lines::parts::{members_at, number_at, string_at};
use json::Value;
use std::alloc::{AllocError, Global};

/// Appends `bytes`, an ASCII text, to `words` as one word.
fn push_ascii_word(
    alloc: Global,
    words: &mut Vec<Vec<char>>,
    bytes: &[u8],
) -> Result<(), AllocError>
    ensures { OnOk result (map (λ v. v.items) words.new.items
        ≡ map (λ v. v.items) words.old.items ++ bytes.now ∷ []) }
{
    let mut word = Vec::new(alloc);
    push_ascii(&mut word, bytes)?;
    words.push(word)?;
    Ok(())
}

/// Appends `name` to `words` as one word: unchanged, or as a JSON string if it has blanks or other
/// special characters (`push_name`).
fn push_name_word(alloc: Global, words: &mut Vec<Vec<char>>, name: &str) -> Result<(), AllocError>
    ensures { OnOk result (map (λ v. v.items) words.new.items
        ≡ map (λ v. v.items) words.old.items ++ name_text name.now ∷ []) }
{
    let mut word = Vec::new(alloc);
    push_name(alloc, &mut word, name)?;
    words.push(word)?;
    Ok(())
}

/// Appends one word to `words`, such as `3 changed,`: the number that `counts` has as its member
/// `name`, and then the text `counted`.
fn push_count(
    alloc: Global,
    words: &mut Vec<Vec<char>>,
    counts: &Value<'_>,
    name: &str,
    counted: &[u8],
) -> Result<(), AllocError>
    ensures { OnOk result (map (λ v. v.items) words.new.items ≡ map (λ v. v.items) words.old.items
        ++ count_word name.now counted.now (value_view counts.now) ∷ []) }
{
    let mut word = Vec::new(alloc);
    push_number(&mut word, counts, name)?;
    push_ascii(&mut word, counted)?;
    words.push(word)?;
    Ok(())
}

/// Appends `.. and N more` to `words` as one word, where N is `count`, the number of differences
/// that the report leaves out. Appends nothing if `count` is `0`.
fn push_hidden_words(
    alloc: Global,
    words: &mut Vec<Vec<char>>,
    count: &str,
) -> Result<(), AllocError>
    ensures { OnOk result (map (λ v. v.items) words.new.items
        ≡ map (λ v. v.items) words.old.items ++ hidden_words count.now) }
{
    if count == "0" {
        return Ok(());
    }
    let mut word = Vec::new(alloc);
    push_ascii(&mut word, b".. and ")?;
    push_text(&mut word, count.as_bytes())?;
    push_ascii(&mut word, b" more")?;
    words.push(word)?;
    Ok(())
}

/// Appends four words to `words`, such as `3 changed,`: the numbers of changed, removed, added and
/// equal rows. `counts` is the JSON line of the counts.
#[tactic(auto, unfolding(crate::specs::Counts::kind_words))]
fn push_kind_words(
    alloc: Global,
    words: &mut Vec<Vec<char>>,
    counts: &Value<'_>,
) -> Result<(), AllocError>
    ensures { OnOk result (map (λ v. v.items) words.new.items
        ≡ map (λ v. v.items) words.old.items ++ kind_words (value_view counts.now)) }
{
    push_count(alloc, words, counts, "changed", b" changed,")?;
    push_count(alloc, words, counts, "removed", b" removed,")?;
    push_count(alloc, words, counts, "added", b" added,")?;
    push_count(alloc, words, counts, "same", b" the same.")?;
    Ok(())
}

/// Appends a member of an object to `words`, as one word `name=value`.
fn push_pair_word(
    alloc: Global,
    words: &mut Vec<Vec<char>>,
    name: &str,
    value: &Value<'_>,
) -> Result<(), AllocError>
    requires { HasNumbers (value_view value.now) }
    ensures { OnOk result (map (λ v. v.items) words.new.items
        ≡ map (λ v. v.items) words.old.items ++ pair_text name.now (value_view value.now) ∷ []) }
{
    let mut word = Vec::new(alloc);
    push_pair(alloc, &mut word, name, value)?;
    words.push(word)?;
    Ok(())
}

/// Appends each of `members` to `words`, as one word `name=value`.
fn push_pair_words(
    alloc: Global,
    words: &mut Vec<Vec<char>>,
    members: &Vec<(&str, Value<'_>)>,
) -> Result<(), AllocError>
    requires { MembersHaveNumbers (members_view members.now.items) }
    ensures { OnOk result (map (λ v. v.items) words.new.items
        ≡ map (λ v. v.items) words.old.items ++ pair_words (members_view members.now.items)) }
{
    for member in members {
        push_pair_word(alloc, words, member.0, &member.1)?;
    }
    Ok(())
}

/// Appends `By column:` to `words`, and then a word `name=count` for each of `members`, which have
/// the name of a column and the number of cells that differ in it. Appends nothing if `members` is
/// empty.
#[tactic(auto, using(crate::proofs::PartLemmas::no_column_words, crate::proofs::PartLemmas::some_column_words))]
fn push_columns(
    alloc: Global,
    words: &mut Vec<Vec<char>>,
    members: &Vec<(&str, Value<'_>)>,
) -> Result<(), AllocError>
    requires { MembersHaveNumbers (members_view members.now.items) }
    ensures { OnOk result (map (λ v. v.items) words.new.items ≡ map (λ v. v.items) words.old.items
        ++ column_words (Some (members_view members.now.items))) }
{
    if members.is_empty() {
        return Ok(());
    }
    push_ascii_word(alloc, words, b"By column:")?;
    push_pair_words(alloc, words, members)?;
    Ok(())
}

/// Appends to `words` the number of differing cells of each column (`push_columns`), as the member
/// `columns` of `counts` has them. Appends nothing if this member is not an object or is empty.
fn push_column_words(
    alloc: Global,
    words: &mut Vec<Vec<char>>,
    counts: &Value<'_>,
) -> Result<(), AllocError>
    requires { HasNumbers (value_view counts.now) }
    ensures { OnOk result (map (λ v. v.items) words.new.items ≡ map (λ v. v.items) words.old.items
        ++ column_words
        (option_and_then as_object (get (codes "columns") (value_view counts.now)))) }
{
    match members_at(counts, "columns") {
        Some(members) => push_columns(alloc, words, members),
        None => Ok(()),
    }
}

/// Appends `Skipped lines:` to `words`, and then the number of skipped lines of the left and of the
/// right file. `counts` is the JSON line of the counts.
fn push_skipped_counts(
    alloc: Global,
    words: &mut Vec<Vec<char>>,
    counts: &Value<'_>,
) -> Result<(), AllocError>
    ensures { OnOk result (map (λ v. v.items) words.new.items
        ≡ map (λ v. v.items) words.old.items ++ skipped_counts (value_view counts.now)) }
{
    push_ascii_word(alloc, words, b"Skipped lines:")?;
    push_count(alloc, words, counts, "left_skipped", b" left,")?;
    push_count(alloc, words, counts, "right_skipped", b" right.")?;
    Ok(())
}

/// Appends the number of skipped lines of each file to `words` (`push_skipped_counts`). `counts` is
/// the JSON line of the counts. Appends nothing if it has no number as its member `left_skipped`.
#[tactic(auto, unfolding(crate::specs::Counts::skipped_words))]
fn push_skipped_words(
    alloc: Global,
    words: &mut Vec<Vec<char>>,
    counts: &Value<'_>,
) -> Result<(), AllocError>
    ensures { OnOk result (map (λ v. v.items) words.new.items
        ≡ map (λ v. v.items) words.old.items ++ skipped_words (value_view counts.now)) }
{
    if number_at(counts, "left_skipped").is_empty() {
        return Ok(());
    }
    push_skipped_counts(alloc, words, counts)
}

/// Appends the lines at the end of a report: the number of differences that are left out, the
/// numbers of rows of each kind, the differing cells by column, and the skipped lines. `counts` is
/// the JSON line of the counts. `width` is the width of the terminal.
#[tactic(auto, unfolding(crate::specs::Counts::counts_lines))]
pub(crate) fn push_counts(
    alloc: Global,
    out: &mut Vec<u8>,
    width: usize,
    counts: &Value<'_>,
) -> Result<(), AllocError>
    requires { HasNumbers (value_view counts.now) }
    ensures { OnOk result (out.new.items
        ≡ out.old.items ++ texts_bytes (counts_lines width (value_view counts.now))) }
{
    let mut hidden = Vec::new(alloc);
    push_hidden_words(alloc, &mut hidden, number_at(counts, "not_shown"))?;
    push_paragraph(alloc, out, width, &hidden)?;
    let mut kinds = Vec::new(alloc);
    push_kind_words(alloc, &mut kinds, counts)?;
    push_paragraph(alloc, out, width, &kinds)?;
    let mut columns = Vec::new(alloc);
    push_column_words(alloc, &mut columns, counts)?;
    push_paragraph(alloc, out, width, &columns)?;
    let mut skipped = Vec::new(alloc);
    push_skipped_words(alloc, &mut skipped, counts)?;
    push_paragraph(alloc, out, width, &skipped)?;
    Ok(())
}

/// Returns the name of the file that has a column: `left` if `only_in` is `left`, else `right`.
fn file_with<'a>(left: &'a str, right: &'a str, only_in: &str) -> &'a str
    ensures { result.now ≡ file_with left.now right.now only_in.now }
{
    if only_in == "left" { left } else { right }
}

/// Appends the message that a column is only in one file, in lines of at most `width` columns of
/// the terminal. `left` and `right` are the names of the files. `line` is the JSON line about the
/// column.
#[tactic(auto, unfolding(crate::specs::Counts::column_lines))]
pub(crate) fn push_column(
    alloc: Global,
    out: &mut Vec<u8>,
    width: usize,
    left: &str,
    right: &str,
    line: &Value<'_>,
) -> Result<(), AllocError>
    ensures { OnOk result (out.new.items ≡ out.old.items
        ++ texts_bytes (column_lines width left.now right.now (value_view line.now))) }
{
    let mut words = Vec::new(alloc);
    push_ascii_word(alloc, &mut words, b"! column")?;
    push_name_word(alloc, &mut words, string_at(line, "column"))?;
    push_ascii_word(alloc, &mut words, b"only in")?;
    push_name_word(
        alloc,
        &mut words,
        file_with(left, right, string_at(line, "only_in")),
    )?;
    push_paragraph(alloc, out, width, &words)?;
    Ok(())
}

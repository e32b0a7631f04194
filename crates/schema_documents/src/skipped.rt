//! Writes how many lines were skipped because they are not documents.

ghost use Rattle.std.specs.Prelude.{◌≡◌, ◌++◌, OnOk};
ghost use Rattle.document_words.specs.Skipped.{first_word, lines_word, skipped_members};
ghost use Rattle.document_words.specs.Skipped.{skipped_text};

use diff_words::decimals::push_decimal;
use diff_words::words::push_word;
use schema_report::json_lines::push_number;
use std::alloc::AllocError;

/// Returns ` line of ` if `count` is 1, and else ` lines of `.
fn lines_word(count: usize) -> &'static [u8]
    ensures { result.now ≡ lines_word count }
{
    if count == 1 {
        b" line of "
    } else {
        b" lines of "
    }
}

/// Returns ` (line ` if `count` is 1, and else ` (the first is line `.
fn first_word(count: usize) -> &'static [u8]
    ensures { result.now ≡ first_word count }
{
    if count == 1 {
        b" (line "
    } else {
        b" (the first is line "
    }
}

/// Appends a line that says how many lines of the file named `file` were skipped, and which was the
/// first. `numbers` has the line numbers of the skipped lines. Appends nothing if `numbers` is
/// empty.
#[tactic(auto, unfolding(document_words::specs::Skipped::skipped_text))]
pub(crate) fn push_skipped(
    out: &mut Vec<u8>,
    file: &[u8],
    numbers: &[u64],
) -> Result<(), AllocError>
    ensures { OnOk result (out.new.items ≡ out.old.items ++ skipped_text file.now numbers.now) }
{
    if numbers.is_empty() {
        return Ok(());
    }
    out.extend_from_slice(b"Skipped ")?;
    push_decimal(out, numbers.len())?;
    out.extend_from_slice(lines_word(numbers.len()))?;
    push_word(out, file)?;
    out.extend_from_slice(first_word(numbers.len()))?;
    push_decimal(out, numbers[0])?;
    out.extend_from_slice(b").\n")?;
    Ok(())
}

/// Appends the members `left_skipped` and `right_skipped`, each after a comma. `left` and `right`
/// are the numbers of skipped lines of the two files. Appends nothing if `skip_bad` is not set.
#[tactic(auto, unfolding(document_words::specs::Skipped::skipped_members))]
pub(crate) fn push_skipped_members(
    out: &mut Vec<u8>,
    skip_bad: bool,
    left: usize,
    right: usize,
) -> Result<(), AllocError>
    ensures { OnOk result (out.new.items ≡ out.old.items ++ skipped_members skip_bad left right) }
{
    if !skip_bad {
        return Ok(());
    }
    push_number(out, br#","left_skipped":"#, left)?;
    push_number(out, br#","right_skipped":"#, right)?;
    Ok(())
}

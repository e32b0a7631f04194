//! Writes how many lines were skipped because they are not documents.

ghost use Rattle.std.specs.Prelude.{◌≡◌, ◌++◌, length, OnOk};
ghost use Rattle.document_words.specs.Skipped.{first_word, lines_word, skipped_lines};
ghost use Rattle.document_words.specs.Skipped.{skipped_members, skipped_text};

use crate::sides::DocumentSides;
use diff_words::decimals::push_decimal;
use diff_words::words::push_word;
use std::alloc::AllocError;

/// Returns ` line of ` if `count` is 1, and else ` lines of `.
fn lines_word(count: usize) -> &'static [u8]
    ensures { result.now ≡ lines_word count }
{
    if count == 1 {
        b" line of "
    } else {
        b" lines of "
    }
}

/// Returns ` (line ` if `count` is 1, and else ` (the first is line `.
fn first_word(count: usize) -> &'static [u8]
    ensures { result.now ≡ first_word count }
{
    if count == 1 {
        b" (line "
    } else {
        b" (the first is line "
    }
}

/// Appends a line that says how many lines of the file `name` were skipped, and which was the
/// first. `numbers` has the line numbers of the skipped lines. Appends nothing if `numbers` is
/// empty.
#[tactic(auto, unfolding(crate::specs::Skipped::skipped_text))]
fn push_skipped(out: &mut Vec<u8>, name: &[u8], numbers: &[u64]) -> Result<(), AllocError>
    ensures { OnOk result (out.new.items ≡ out.old.items ++ skipped_text name.now numbers.now) }
{
    if numbers.is_empty() {
        return Ok(());
    }
    out.extend_from_slice(b"Skipped ")?;
    push_decimal(out, numbers.len())?;
    out.extend_from_slice(lines_word(numbers.len()))?;
    push_word(out, name)?;
    out.extend_from_slice(first_word(numbers.len()))?;
    push_decimal(out, numbers[0])?;
    out.extend_from_slice(b").\n")?;
    Ok(())
}

/// Appends for each of the two files a line that says how many of its lines were skipped, and which
/// was the first. Appends nothing for a file without skipped lines.
pub fn push_skipped_lines(out: &mut Vec<u8>, sides: &DocumentSides<'_>) -> Result<(), AllocError>
    ensures { OnOk result (out.new.items ≡ out.old.items ++ skipped_lines sides.now) }
{
    push_skipped(out, &sides.left.name, &sides.left_skipped)?;
    push_skipped(out, &sides.right.name, &sides.right_skipped)?;
    Ok(())
}

/// Appends the members `left_skipped` and `right_skipped`, each after a comma. They count the
/// skipped lines of the two files. Appends nothing if `sides.skip_bad` is false.
#[tactic(auto, unfolding(crate::specs::Skipped::skipped_members))]
pub(crate) fn push_skipped_members(
    out: &mut Vec<u8>,
    sides: &DocumentSides<'_>,
) -> Result<(), AllocError>
    ensures { OnOk result
        (out.new.items ≡ out.old.items
        ++ skipped_members sides.now.skip_bad (length sides.now.left_skipped.items)
        (length sides.now.right_skipped.items)) }
{
    if !sides.skip_bad {
        return Ok(());
    }
    out.extend_from_slice(br#","left_skipped":"#)?;
    push_decimal(out, sides.left_skipped.len())?;
    out.extend_from_slice(br#","right_skipped":"#)?;
    push_decimal(out, sides.right_skipped.len())?;
    Ok(())
}

//! Breaks texts into lines that are no wider than the terminal.

ghost use Rattle.std.specs.Prelude.{◌≡◌, ◌∷◌, [], ◌++◌, map, OnOk};
ghost use Rattle.diff_aligned.specs.Paragraphs.{filled, paragraph, texts_bytes};

use crate::pieces::{cut_of, push_chars};
use diff_widths::cut::width_of;
use std::alloc::{AllocError, Global};

/// Appends the characters of a line, encoded as UTF-8, and a line feed.
fn push_text_line(out: &mut Vec<u8>, line: &[char]) -> Result<(), AllocError>
    ensures { OnOk result (out.new.items ≡ out.old.items ++ texts_bytes (line.now ∷ [])) }
{
    push_chars(out, line)?;
    out.push(b'\n')?;
    Ok(())
}

/// Appends words as lines of at most `width` columns, with blanks between the words. The first line
/// begins with `first`, which should not be wider than `width`. A word that doesn't fit on the line
/// goes on the next one, and a word wider than `width` is cut.
fn push_filled(
    alloc: Global,
    out: &mut Vec<u8>,
    width: usize,
    first: Vec<char>,
    words: &[Vec<char>],
) -> Result<(), AllocError>
    ensures { OnOk result (out.new.items ≡ out.old.items
        ++ texts_bytes (filled width first.items (map (λ v. v.items) words.now))) }
{
    let mut line = first;
    for word in words {
        let word = cut_of(alloc, word, width)?;
        if width_of(&word) < width.saturating_sub(width_of(&line)) {
            line.push(' ')?;
            line.extend_from_slice(&word)?;
        } else {
            push_text_line(out, &line)?;
            line = word;
        }
    }
    push_text_line(out, &line)?;
    Ok(())
}

/// Appends words as lines of at most `width` columns, with blanks between the words. A word wider
/// than `width` is cut. Appends nothing if there are no words.
pub(crate) fn push_paragraph(
    alloc: Global,
    out: &mut Vec<u8>,
    width: usize,
    words: &[Vec<char>],
) -> Result<(), AllocError>
    ensures { OnOk result (out.new.items
        ≡ out.old.items ++ texts_bytes (paragraph width (map (λ v. v.items) words.now))) }
{
    let Some((word, rest)) = words.split_first() else {
        return Ok(());
    };
    let first = cut_of(alloc, word, width)?;
    push_filled(alloc, out, width, first, rest)?;
    Ok(())
}

//! Writes words. A word is a byte string that needs no quotes in a text report.

ghost use Rattle.std.specs.List.{list_all};
ghost use Rattle.std.specs.Prelude.{◌≡◌, ◌++◌, OnOk};
ghost use Rattle.diff_words.specs.Words.{is_word, is_word_byte, word_text};

use crate::quoted::push_quoted;
use std::alloc::AllocError;

/// Returns whether a word may contain a byte. Blanks, double quotes, commas, `=`, backslashes and
/// control characters are not allowed. Nor is the byte 194: characters from U+0080 to U+00BF begin
/// with it, and some of these are control characters.
fn is_word_byte(byte: u8) -> bool
    ensures { result ≡ is_word_byte byte }
{
    byte > 32
        && byte != b'"'
        && byte != b','
        && byte != b'='
        && byte != b'\\'
        && byte != 127
        && byte != 194
}

/// Returns whether a word may contain each byte of `bytes` (`is_word_byte`).
fn are_word_bytes(bytes: &[u8]) -> bool
    ensures { result ≡ list_all is_word_byte bytes.now }
{
    bytes.iter().all(|byte| is_word_byte(*byte))
}

/// Returns whether a byte string is a word: it isn't empty, and a word may contain each of its
/// bytes.
fn is_word(bytes: &[u8]) -> bool
    ensures { result ≡ is_word bytes.now }
{
    !bytes.is_empty() && are_word_bytes(bytes)
}

/// Appends a byte string: unchanged if it is a word, and else between quotes (`push_quoted`).
#[tactic(auto, unfolding(crate::specs::Words::word_text))]
pub fn push_word(out: &mut Vec<u8>, bytes: &[u8]) -> Result<(), AllocError>
    ensures { OnOk result (out.new.items ≡ out.old.items ++ word_text bytes.now) }
{
    if is_word(bytes) {
        out.extend_from_slice(bytes)?;
        return Ok(());
    }
    push_quoted(out, bytes)?;
    Ok(())
}

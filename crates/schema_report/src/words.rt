//! Writes the kinds, counts and values of columns as text.

ghost use Rattle.std.specs.Option.{option_map};
ghost use Rattle.std.specs.Prelude.{◌≡◌, ◌≤◌, ◌++◌, length, OnOk};
ghost use Rattle.schema_report.specs.Words.{count_text, front_len, kind_word, shown_string};
ghost use Rattle.schema_report.specs.Words.{value_text};

use diff_words::cells::push_cell;
use diff_words::decimals::push_decimal;
use diff_words::words::push_word;
use schema_columns::kind::Kind;
use std::alloc::AllocError;

/// Returns the name of a kind in a report, such as `whole number`.
pub(crate) fn kind_word(kind: Kind) -> &'static [u8]
    ensures { result.now ≡ kind_word kind }
{
    match kind {
        Kind::Empty => b"empty",
        Kind::Truth => b"truth value",
        Kind::Whole => b"whole number",
        Kind::Number => b"number",
        Kind::Text => b"text",
    }
}

/// Appends the name of a kind.
pub(crate) fn push_kind(out: &mut Vec<u8>, kind: Kind) -> Result<(), AllocError>
    ensures { OnOk result (out.new.items ≡ out.old.items ++ kind_word kind) }
{
    out.extend_from_slice(kind_word(kind))?;
    Ok(())
}

/// Appends a count in decimal, or a hyphen for `None`.
pub fn push_count(out: &mut Vec<u8>, count: Option<usize>) -> Result<(), AllocError>
    ensures { OnOk result (out.new.items ≡ out.old.items ++ count_text count) }
{
    match count {
        Some(n) => push_decimal(out, n),
        None => {
            out.push(b'-')?;
            Ok(())
        }
    }
}

/// Returns the length of the longest prefix of `bytes` with at most `most` bytes that does not end
/// within a character in UTF-8.
fn front_len(bytes: &[u8], most: usize) -> usize
    requires { most ≤ length bytes.now }
    ensures value { result ≡ front_len bytes.now most }
    ensures within { result ≤ most }
{
    let mut len = most;
    while 0 < len && len < bytes.len() && 127 < bytes[len] && bytes[len] < 192 {
        len -= 1;
    }
    len
}

/// The greatest number of bytes that are shown of a text value.
const MOST: usize = 40;

/// Appends a text value between quotes. If the value has more than 40 bytes, only the longest
/// prefix of at most 40 bytes that does not end within a character is between the quotes, and `..`
/// follows.
#[tactic(auto, unfolding(diff_words::specs::Cells::cell_text))]
fn push_string(out: &mut Vec<u8>, bytes: &[u8]) -> Result<(), AllocError>
    ensures { OnOk result (out.new.items ≡ out.old.items ++ shown_string bytes.now) }
{
    if bytes.len() <= MOST {
        push_cell(out, &None, bytes)?;
        return Ok(());
    }
    push_cell(out, &None, &bytes[..front_len(bytes, MOST)])?;
    out.extend_from_slice(b"..")?;
    Ok(())
}

/// Appends a value of a column of kind `kind`, or a hyphen for `None`. A value of kind `Text` is
/// between quotes, and at most 40 bytes of it are shown (`push_string`).
pub fn push_value(out: &mut Vec<u8>, kind: Kind, value: &Option<Vec<u8>>) -> Result<(), AllocError>
    ensures { OnOk result
        (out.new.items ≡ out.old.items ++ value_text kind (option_map (λ v. v.items) value.now)) }
{
    match (value, kind) {
        (None, _) => {
            out.push(b'-')?;
            Ok(())
        }
        (Some(bytes), Kind::Text) => push_string(out, bytes),
        (Some(bytes), _) => push_word(out, bytes),
    }
}

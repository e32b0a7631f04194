//! Escapes texts, so that they have no character that ends the code span or the table cell that
//! they are in. The texts are JSON or names without control characters, so they have no line feed.

ghost use Rattle.std.specs.Fmt.{digit_glyph};
ghost use Rattle.std.specs.Prelude.{◌≡◌, ◌<◌, ◌++◌, false, get_or, OnOk};
ghost use Rattle.diff_markdown.specs.Escapes.{is_escaped, is_high_control, safe, safe_byte};
ghost use Rattle.diff_markdown.specs.Escapes.{unicode_escape};

use std::alloc::AllocError;

/// Returns whether two bytes are the UTF-8 encoding of a control character from U+0080 to U+009F.
fn is_high_control(first: u8, second: u8) -> bool
    ensures { result ≡ is_high_control first second }
{
    first == 194 && 127 < second && second < 160
}

/// Returns whether `byte` is written as an escape: a backquote, a bar, the control character
/// U+007F, or the second byte of a control character of two bytes. `before` is the byte before
/// `byte`, or 0 if there is none.
fn is_escaped(before: u8, byte: u8) -> bool
    ensures { result ≡ is_escaped before byte }
{
    byte == b'`' || byte == b'|' || byte == 127 || is_high_control(before, byte)
}

/// Returns `n` as a hexadecimal digit. The digits from 10 on are lower case letters.
fn hex_digit(n: u8) -> u8
    requires { n < 16 }
    ensures { result ≡ digit_glyph false n }
{
    if n < 10 { b'0' + n } else { b'a' + (n - 10) }
}

/// Appends the JSON escape `\u00XX` of the character with the code `code`.
fn push_escape(out: &mut Vec<u8>, code: u8) -> Result<(), AllocError>
    ensures { OnOk result (out.new.items ≡ out.old.items ++ unicode_escape code) }
{
    out.extend_from_slice(b"\\u00")?;
    out.push(hex_digit(code / 16))?;
    out.push(hex_digit(code % 16))?;
    Ok(())
}

/// Appends `byte` or its escape. `before` and `after` are the bytes before and after `byte` in the
/// text, or 0 at its ends. A control character of two bytes gets a single escape: nothing is
/// appended for its first byte, and the escape for its second byte.
#[tactic(auto, unfolding(crate::specs::Escapes::safe_byte))]
fn push_byte(out: &mut Vec<u8>, before: u8, byte: u8, after: u8) -> Result<(), AllocError>
    ensures { OnOk result (out.new.items ≡ out.old.items ++ safe_byte before byte after) }
{
    if is_high_control(byte, after) {
        return Ok(());
    }
    if is_escaped(before, byte) {
        push_escape(out, byte)?;
        return Ok(());
    }
    out.push(byte)?;
    Ok(())
}

/// Returns byte `i` of `bytes`, or 0 if `bytes` has no byte `i`.
fn byte_at(bytes: &[u8], i: usize) -> u8
    ensures { result ≡ get_or bytes.now i 0 }
{
    if i < bytes.len() { bytes[i] } else { 0 }
}

/// Appends a text, with backquotes, bars and the control characters from U+007F to U+009F written
/// as JSON escapes. Backquotes and bars would end its code span or its table cell. Control
/// characters below U+0020 are not escaped, since JSON and unquoted names have none.
pub(crate) fn push_safe(out: &mut Vec<u8>, text: &[u8]) -> Result<(), AllocError>
    ensures { OnOk result (out.new.items ≡ out.old.items ++ safe text.now) }
{
    let mut before = 0;
    for i in 0..text.len() {
        push_byte(out, before, text[i], byte_at(text, i + 1))?;
        before = text[i];
    }
    Ok(())
}

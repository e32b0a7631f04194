//! Converts text to the characters shown on a terminal: control and invisible characters become
//! escapes.

ghost use Rattle.std.specs.Fmt.{digit_glyph};
ghost use Rattle.std.specs.List.{flat_map};
ghost use Rattle.std.specs.Prelude.{◌≡◌, ◌<◌, ◌++◌, false, OnOk};
ghost use Rattle.diff_aligned.specs.Shown.{escape, is_hidden, shown_char, surrogates, text_of};
ghost use Rattle.diff_aligned.specs.Shown.{unit_escape};

use bstr::ByteSlice;
use std::alloc::AllocError;

/// Returns whether a character is shown as an escape, because it is a control character or an
/// invisible one, such as a zero-width space or a mark of text direction.
#[tactic(auto, unfolding(crate::specs::Shown::is_hidden))]
fn is_hidden(c: char) -> bool
    ensures { result ≡ is_hidden c }
{
    let code = c as u32;
    code < 0x20
        || (0x7F <= code && code <= 0x9F)
        || code == 0xAD
        || code == 0x61C
        || (0x180B <= code && code <= 0x180F)
        || (0x200B <= code && code <= 0x200F)
        || (0x2028 <= code && code <= 0x202E)
        || (0x2060 <= code && code <= 0x206F)
        || (0xFE00 <= code && code <= 0xFE0F)
        || code == 0xFEFF
        || (0xFFF9 <= code && code <= 0xFFFB)
        || (0xE0000 <= code && code <= 0xE0FFF)
}

/// Returns `n` as a hexadecimal digit. The digits from 10 on are lower case letters.
fn hex_digit(n: u32) -> char
    requires { n < 16 }
    ensures { result ≡ digit_glyph false n }
{
    let n = n as u8;
    char::from(if n < 10 { b'0' + n } else { b'a' + (n - 10) })
}

/// Appends `\u` and the lowest 16 bits of `unit` as four hexadecimal digits.
fn push_unit(out: &mut Vec<char>, unit: u32) -> Result<(), AllocError>
    ensures { OnOk result (out.new.items ≡ out.old.items ++ unit_escape unit) }
{
    out.push('\\')?;
    out.push('u')?;
    out.push(hex_digit(unit / 4096 % 16))?;
    out.push(hex_digit(unit / 256 % 16))?;
    out.push(hex_digit(unit / 16 % 16))?;
    out.push(hex_digit(unit % 16))?;
    Ok(())
}

/// Appends the two JSON escapes of the surrogate pair of `code`, a code point above U+FFFF.
fn push_surrogates(out: &mut Vec<char>, code: u32) -> Result<(), AllocError>
    requires { 65535 < code }
    ensures { OnOk result (out.new.items ≡ out.old.items ++ surrogates code) }
{
    let above = code - 0x10000;
    push_unit(out, 0xD800 + above / 1024)?;
    push_unit(out, 0xDC00 + code % 1024)?;
    Ok(())
}

/// Appends the JSON escape of a character: `\uXXXX`, or two of these for a code point above U+FFFF.
#[tactic(auto, unfolding(crate::specs::Shown::escape))]
fn push_escape(out: &mut Vec<char>, c: char) -> Result<(), AllocError>
    ensures { OnOk result (out.new.items ≡ out.old.items ++ escape c) }
{
    let code = c as u32;
    if code < 0x10000 {
        push_unit(out, code)
    } else {
        push_surrogates(out, code)
    }
}

/// Appends a character, or its JSON escape if it is hidden (`is_hidden`).
#[tactic(auto, unfolding(crate::specs::Shown::shown_char))]
fn push_shown(out: &mut Vec<char>, c: char) -> Result<(), AllocError>
    ensures { OnOk result (out.new.items ≡ out.old.items ++ shown_char c) }
{
    if is_hidden(c) {
        push_escape(out, c)?;
        return Ok(());
    }
    out.push(c)?;
    Ok(())
}

/// Appends the characters of `bytes`, read as UTF-8. Hidden characters become JSON escapes, and
/// invalid UTF-8 becomes U+FFFD.
#[tactic(auto, unfolding(crate::specs::Shown::text_of))]
pub(crate) fn push_text(out: &mut Vec<char>, bytes: &[u8]) -> Result<(), AllocError>
    ensures { OnOk result (out.new.items ≡ out.old.items ++ text_of bytes.now) }
{
    for c in bytes.chars() {
        push_shown(out, c)?;
    }
    Ok(())
}

/// Appends the characters of an ASCII text.
pub(crate) fn push_ascii(out: &mut Vec<char>, bytes: &[u8]) -> Result<(), AllocError>
    ensures { OnOk result (out.new.items ≡ out.old.items ++ bytes.now) }
{
    for byte in bytes {
        out.push(char::from(*byte))?;
    }
    Ok(())
}

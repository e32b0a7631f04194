//! Writes JSON strings.

ghost use Rattle.std.specs.Char.{is_control};
ghost use Rattle.std.specs.Fmt.{digit_glyph};
ghost use Rattle.std.specs.Prelude.{◌≡◌, ◌<◌, ◌++◌, false, OnOk};
ghost use Rattle.diff_words.specs.Quoted.{letter_of};
ghost use Rattle.diff_json.specs.Strings.{char_text, escape_text, json_string};

use bstr::ByteSlice;
use std::alloc::AllocError;

/// Returns the letter after the backslash in the short JSON escape of a character, such as `n` for
/// a line feed. Returns `None` if this crate writes no short escape for the character.
fn letter_of(c: char) -> Option<u8>
    ensures { result ≡ letter_of c }
{
    match c {
        '"' => Some(b'"'),
        '\\' => Some(b'\\'),
        '\n' => Some(b'n'),
        '\r' => Some(b'r'),
        '\t' => Some(b't'),
        _ => None,
    }
}

/// Returns `n` as a hexadecimal digit. The digits from 10 on are lower case letters.
fn hex_digit(n: u8) -> u8
    requires { n < 16 }
    ensures { result ≡ digit_glyph false n }
{
    if n < 10 { b'0' + n } else { b'a' + (n - 10) }
}

/// Appends the JSON escape `\u00XX` of a character below U+0100.
fn push_escape(out: &mut Vec<u8>, c: char) -> Result<(), AllocError>
    requires { c < 256 }
    ensures { OnOk result (out.new.items ≡ out.old.items ++ escape_text c) }
{
    let code = c as u32 as u8;
    out.extend_from_slice(b"\\u00")?;
    out.push(hex_digit(code / 16))?;
    out.push(hex_digit(code % 16))?;
    Ok(())
}

/// Appends a character as a JSON string has it: escaped if it is a quote, a backslash or a control
/// character, and else in UTF-8.
#[tactic(auto, unfolding(crate::specs::Strings::char_text))]
fn push_char(out: &mut Vec<u8>, c: char) -> Result<(), AllocError>
    ensures { OnOk result (out.new.items ≡ out.old.items ++ char_text c) }
{
    if let Some(letter) = letter_of(c) {
        out.push(b'\\')?;
        out.push(letter)?;
        return Ok(());
    }
    if c.is_control() {
        push_escape(out, c)?;
        return Ok(());
    }
    let mut buffer = [0; 4];
    out.extend_from_slice(c.encode_utf8(&mut buffer).as_bytes())?;
    Ok(())
}

/// Appends a JSON string with the characters of `bytes`. Invalid UTF-8 is written as U+FFFD.
pub fn push_string(out: &mut Vec<u8>, bytes: &[u8]) -> Result<(), AllocError>
    ensures { OnOk result (out.new.items ≡ out.old.items ++ json_string bytes.now) }
{
    out.push(b'"')?;
    for c in bytes.chars() {
        push_char(out, c)?;
    }
    out.push(b'"')?;
    Ok(())
}

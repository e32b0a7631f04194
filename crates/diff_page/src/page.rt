//! Writes the HTML page of a report.

ghost use Rattle.std.specs.Prelude.{◌≡◌, ◌++◌, OnOk};
ghost use Rattle.diff_page.specs.Page.{closing, files_object, opening, page_of, untagged};
ghost use Rattle.diff_page.specs.Page.{untagged_byte};

use crate::frame::{BODY, END, HEAD, MIDDLE};
use crate::script::SCRIPT;
use crate::style::STYLE;
use diff_json::strings::push_string;
use std::alloc::AllocError;

/// Appends a byte. A `<` is written as its JSON escape `\u003c`, so that no HTML tag begins.
fn push_byte(out: &mut Vec<u8>, byte: u8) -> Result<(), AllocError>
    ensures { OnOk result (out.new.items ≡ out.old.items ++ untagged_byte byte) }
{
    if byte == b'<' {
        out.extend_from_slice(b"\\u003c")?;
        return Ok(());
    }
    out.push(byte)?;
    Ok(())
}

/// Appends a JSON text, with each `<` written as its JSON escape, so that no HTML tag begins.
fn push_untagged(out: &mut Vec<u8>, text: &[u8]) -> Result<(), AllocError>
    ensures { OnOk result (out.new.items ≡ out.old.items ++ untagged text.now) }
{
    for byte in text {
        push_byte(out, *byte)?;
    }
    Ok(())
}

/// Appends a JSON line of kind `files` with `left` and `right`, the names of the two files. Bytes
/// that are not UTF-8 are written as U+FFFD.
fn push_files(out: &mut Vec<u8>, left: &[u8], right: &[u8]) -> Result<(), AllocError>
    ensures { OnOk result (out.new.items ≡ out.old.items ++ files_object left.now right.now) }
{
    out.extend_from_slice(b"{\"kind\":\"files\",\"left\":")?;
    push_string(out, left)?;
    out.extend_from_slice(b",\"right\":")?;
    push_string(out, right)?;
    out.extend_from_slice(b"}\n")?;
    Ok(())
}

/// Appends the part of the page before the report.
fn push_opening(out: &mut Vec<u8>) -> Result<(), AllocError>
    ensures { OnOk result (out.new.items ≡ out.old.items ++ opening) }
{
    out.extend_from_slice(HEAD.as_bytes())?;
    out.extend_from_slice(STYLE.as_bytes())?;
    out.extend_from_slice(BODY.as_bytes())?;
    Ok(())
}

/// Appends the part of the page after the report.
fn push_closing(out: &mut Vec<u8>) -> Result<(), AllocError>
    ensures { OnOk result (out.new.items ≡ out.old.items ++ closing) }
{
    out.extend_from_slice(MIDDLE.as_bytes())?;
    out.extend_from_slice(SCRIPT.as_bytes())?;
    out.extend_from_slice(END.as_bytes())?;
    Ok(())
}

/// Appends the HTML page of a report. `report` is the report as JSON lines. `left` and `right` are
/// the names of the two compared files.
///
/// The page contains a JSON line with the names and then the report, both without any `<`. Its
/// script shows them in the browser. After an error, `out` may have a part of the page.
pub fn push_page(
    out: &mut Vec<u8>,
    left: &[u8],
    right: &[u8],
    report: &[u8],
) -> Result<(), AllocError>
    ensures { OnOk result (out.new.items ≡ out.old.items ++ page_of left.now right.now report.now) }
{
    let mut files = Vec::new(*out.allocator());
    push_files(&mut files, left, right)?;
    push_opening(out)?;
    push_untagged(out, &files)?;
    push_untagged(out, report)?;
    push_closing(out)?;
    Ok(())
}

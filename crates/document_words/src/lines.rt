//! Writes the lines of removed and added documents.

ghost use Rattle.std.specs.List.{flat_map};
ghost use Rattle.std.specs.Prelude.{◌≡◌, ◌<◌, ◌++◌, All, length, slice_index, take, OnOk};
ghost use Rattle.diff_report.specs.Sides.{row_of};
ghost use Rattle.document_words.specs.Keys.{document_name};
ghost use Rattle.document_words.specs.Lines.{alone_line, alone_object, alone_text, document_alone};
ghost use Rattle.document_words.specs.Sides.{IsDocumentSide, names_of};

use crate::keys::{push_document_name, push_key_members};
use crate::sides::DocumentSides;
use diff_report::lines::{Alone, mark_color};
use diff_report::sides::Side;
use diff_words::colors::{Color, push_color};
use diff_words::decimals::push_decimal;
use diff_words::formats::Format;
use diff_words::words::push_word;
use std::alloc::AllocError;

/// Appends the text line of the document in row `i` of `side`, which has no partner: the byte
/// `mark`, the key, the name of the file and the line number. Appends no colours and no line feed.
#[tactic(auto, unfolding(crate::specs::Lines::alone_text))]
fn push_alone(
    out: &mut Vec<u8>,
    mark: u8,
    sides: &DocumentSides<'_>,
    side: &Side,
    i: usize,
) -> Result<(), AllocError>
    requires side { IsDocumentSide (length sides.now.keys.items) side.now }
    requires row { i < length side.now.table.rows }
    ensures { OnOk result
        (out.new.items ≡ out.old.items
        ++ alone_text mark (document_name (names_of sides.now) i (row_of side.now i))
        side.now.name.items (slice_index side.now.lines.items i)) }
{
    out.push(mark)?;
    out.push(b' ')?;
    push_document_name(out, sides, side, i)?;
    out.extend_from_slice(b"  ")?;
    push_word(out, &side.name)?;
    out.extend_from_slice(b" line ")?;
    push_decimal(out, side.lines[i])?;
    Ok(())
}

/// Appends the text line of the document in row `i` of `side`, which has no partner. `mark` is `-`
/// for a removed and `+` for an added document.
#[tactic(auto, unfolding(crate::specs::Lines::alone_line, diff_words::specs::Colors::painted))]
fn push_alone_line(
    out: &mut Vec<u8>,
    mark: u8,
    sides: &DocumentSides<'_>,
    side: &Side,
    i: usize,
) -> Result<(), AllocError>
    requires side { IsDocumentSide (length sides.now.keys.items) side.now }
    requires row { i < length side.now.table.rows }
    ensures { OnOk result (out.new.items ≡ out.old.items ++ alone_line mark sides.now side.now i) }
{
    push_color(out, sides.colored, mark_color(mark))?;
    push_alone(out, mark, sides, side, i)?;
    push_color(out, sides.colored, Color::Plain)?;
    out.push(b'\n')?;
    Ok(())
}

/// Appends the JSON line of the document in row `i` of `side`, which has no partner: the kind, the
/// key and the line number. `kind` is `removed` or `added`.
#[tactic(auto, unfolding(crate::specs::Lines::alone_json, crate::specs::Lines::alone_object))]
fn push_alone_object(
    out: &mut Vec<u8>,
    kind: &[u8],
    sides: &DocumentSides<'_>,
    side: &Side,
    i: usize,
) -> Result<(), AllocError>
    requires side { IsDocumentSide (length sides.now.keys.items) side.now }
    requires row { i < length side.now.table.rows }
    ensures { OnOk result
        (out.new.items ≡ out.old.items ++ alone_object kind.now sides.now side.now i) }
{
    out.extend_from_slice(br#"{"kind":""#)?;
    out.extend_from_slice(kind)?;
    out.extend_from_slice(br#"","key":{"#)?;
    push_key_members(out, sides, side, i)?;
    out.extend_from_slice(br#"},"line":"#)?;
    push_decimal(out, side.lines[i])?;
    out.extend_from_slice(b"}\n")?;
    Ok(())
}

/// Appends the line of the document in row `i` of `side`, which has no partner, as text or JSON.
/// `alone` says whether the document is removed or added.
fn push_document_alone(
    out: &mut Vec<u8>,
    format: Format,
    alone: Alone,
    sides: &DocumentSides<'_>,
    side: &Side,
    i: usize,
) -> Result<(), AllocError>
    requires side { IsDocumentSide (length sides.now.keys.items) side.now }
    requires row { i < length side.now.table.rows }
    ensures { OnOk result
        (out.new.items ≡ out.old.items ++ document_alone format alone sides.now side.now i) }
{
    match (format, alone) {
        (Format::Text, Alone::Removed) => push_alone_line(out, b'-', sides, side, i),
        (Format::Text, Alone::Added) => push_alone_line(out, b'+', sides, side, i),
        (Format::Json, Alone::Removed) => push_alone_object(out, b"removed", sides, side, i),
        (Format::Json, Alone::Added) => push_alone_object(out, b"added", sides, side, i),
    }
}

/// Appends a line for each of the first `limit` of `rows`, the rows of documents of `side` without
/// a partner. `alone` says whether these documents are removed or added.
pub fn push_documents_alone(
    out: &mut Vec<u8>,
    format: Format,
    alone: Alone,
    sides: &DocumentSides<'_>,
    side: &Side,
    rows: &[u32],
    limit: usize,
) -> Result<(), AllocError>
    requires side { IsDocumentSide (length sides.now.keys.items) side.now }
    requires rows { All (λ i. i < length side.now.table.rows) rows.now }
    ensures { OnOk result
        (out.new.items ≡ out.old.items
        ++ flat_map (document_alone format alone sides.now side.now) (take limit rows.now)) }
{
    for n in 0..rows.len().min(limit) {
        push_document_alone(out, format, alone, sides, side, rows[n] as usize)?;
    }
    Ok(())
}

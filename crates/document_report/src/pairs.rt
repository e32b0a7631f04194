//! Writes the lines of documents that differ.

ghost use Rattle.std.specs.List.{flat_map};
ghost use Rattle.std.specs.Prelude.{◌≡◌, ◌<◌, ◌++◌, length, map, take, OnOk};
ghost use Rattle.diff_tables.specs.Comparison.{ArePairs};
ghost use Rattle.document_words.specs.Sides.{AreDocumentSides, NamesDocuments};
ghost use Rattle.document_report.specs.Documents.{HoldDocuments, changes_at};
ghost use Rattle.document_report.specs.Pairs.{change_in, changes_in, pair_at, pair_line};
ghost use Rattle.document_report.specs.Pairs.{pair_object, separator_in};
ghost use Rattle.json_changes.specs.Texts.{change_view};

use crate::documents::changes_at;
use diff_keys::matching::Matching;
use diff_words::colors::{Color, push_color};
use diff_words::decimals::push_decimal;
use diff_words::formats::Format;
use diff_words::lists::push_gap;
use document_words::changes::{push_change, push_change_object};
use document_words::keys::{push_document_name, push_key_members};
use document_words::sides::DocumentSides;
use json_changes::changes::Change;
use std::alloc::{AllocError, Global};

/// Returns the separator between two differences in a line of the format `format`.
fn separator_in(format: Format) -> &'static [u8]
    ensures { result.now ≡ separator_in format }
{
    match format {
        Format::Text => b", ",
        Format::Json => b",",
    }
}

/// Appends `change` in the format `format`: as text, with colours if `colored` is true
/// (`push_change`), or as a JSON object, which has no colours (`push_change_object`).
fn push_change_in(
    out: &mut Vec<u8>,
    format: Format,
    colored: bool,
    change: &Change,
) -> Result<(), AllocError>
    ensures { OnOk result
        (out.new.items ≡ out.old.items ++ change_in format colored (change_view change.now)) }
{
    let Change { path, left, right } = change;
    match format {
        Format::Text => push_change(out, colored, path, left, right),
        Format::Json => push_change_object(out, path, left, right),
    }
}

/// Appends `changes` in the format `format`, with separators between them. Text has colours if
/// `colored` is true.
fn push_changes(
    out: &mut Vec<u8>,
    format: Format,
    colored: bool,
    changes: &[Change],
) -> Result<(), AllocError>
    ensures { OnOk result
        (out.new.items ≡ out.old.items ++ changes_in format colored (map change_view changes.now)) }
{
    for n in 0..changes.len() {
        push_gap(out, separator_in(format), n)?;
        push_change_in(out, format, colored, &changes[n])?;
    }
    Ok(())
}

/// Appends the differences between the documents of left row `i` and right row `j` in the format
/// `format`, with separators between them. Text has colours if `colored` is true.
fn push_differences(
    alloc: Global,
    out: &mut Vec<u8>,
    format: Format,
    colored: bool,
    sides: &DocumentSides<'_>,
    i: usize,
    j: usize,
) -> Result<(), AllocError>
    requires sides { AreDocumentSides sides.now }
    requires documents { HoldDocuments sides.now }
    requires left { i < length sides.now.left.table.rows }
    requires right { j < length sides.now.right.table.rows }
    ensures { OnOk result
        (out.new.items ≡ out.old.items ++ changes_in format colored (changes_at sides.now i j)) }
{
    let changes = changes_at(alloc, sides, i, j)?;
    push_changes(out, format, colored, &changes)?;
    Ok(())
}

/// Appends the text line for the documents of left row `i` and right row `j`, which differ: `~`,
/// the key and the differences.
#[tactic(auto, unfolding(crate::specs::Pairs::pair_line, crate::specs::Pairs::pair_text, diff_words::specs::Colors::painted))]
fn push_pair_line(
    alloc: Global,
    out: &mut Vec<u8>,
    sides: &DocumentSides<'_>,
    i: usize,
    j: usize,
) -> Result<(), AllocError>
    requires sides { AreDocumentSides sides.now }
    requires documents { HoldDocuments sides.now }
    requires left { i < length sides.now.left.table.rows }
    requires right { j < length sides.now.right.table.rows }
    ensures { OnOk result (out.new.items ≡ out.old.items ++ pair_line sides.now i j) }
{
    let colored = sides.colored;
    push_color(out, colored, Color::Yellow)?;
    out.extend_from_slice(b"~ ")?;
    push_document_name(out, sides, &sides.left, i)?;
    push_color(out, colored, Color::Plain)?;
    out.extend_from_slice(b"  ")?;
    push_differences(alloc, out, Format::Text, colored, sides, i, j)?;
    out.push(b'\n')?;
    Ok(())
}

/// Appends the JSON line for the documents of left row `i` and right row `j`, which differ: the
/// key, the line numbers and the differences.
#[tactic(auto, unfolding(crate::specs::Pairs::pair_json, crate::specs::Pairs::pair_object))]
fn push_pair_object(
    alloc: Global,
    out: &mut Vec<u8>,
    sides: &DocumentSides<'_>,
    i: usize,
    j: usize,
) -> Result<(), AllocError>
    requires sides { AreDocumentSides sides.now }
    requires documents { HoldDocuments sides.now }
    requires left { i < length sides.now.left.table.rows }
    requires right { j < length sides.now.right.table.rows }
    ensures { OnOk result (out.new.items ≡ out.old.items ++ pair_object sides.now i j) }
{
    out.extend_from_slice(br#"{"kind":"changed","key":{"#)?;
    push_key_members(out, sides, &sides.left, i)?;
    out.extend_from_slice(br#"},"left_line":"#)?;
    push_decimal(out, sides.left.lines[i])?;
    out.extend_from_slice(br#","right_line":"#)?;
    push_decimal(out, sides.right.lines[j])?;
    out.extend_from_slice(br#","changes":["#)?;
    push_differences(alloc, out, Format::Json, false, sides, i, j)?;
    out.extend_from_slice(b"]}\n")?;
    Ok(())
}

/// Appends the line of matched pair `k`, whose documents differ: row `matching.left_rows[k]` of the
/// left table and row `matching.right_rows[k]` of the right table.
fn push_pair_at(
    alloc: Global,
    out: &mut Vec<u8>,
    format: Format,
    sides: &DocumentSides<'_>,
    matching: &Matching,
    k: usize,
) -> Result<(), AllocError>
    requires sides { AreDocumentSides sides.now }
    requires documents { HoldDocuments sides.now }
    requires rows { ArePairs sides.now.left.table.rows sides.now.right.table.rows
        matching.now.left_rows.items matching.now.right_rows.items }
    requires place { k < length matching.now.left_rows.items }
    ensures { OnOk result
        (out.new.items ≡ out.old.items ++ pair_at format sides.now matching.now k) }
{
    let i = matching.left_rows[k] as usize;
    let j = matching.right_rows[k] as usize;
    match format {
        Format::Text => push_pair_line(alloc, out, sides, i, j),
        Format::Json => push_pair_object(alloc, out, sides, i, j),
    }
}

/// Appends a line for each of the first `limit` pairs in `changed`. `changed` has the indices of
/// the matched pairs that differ.
pub(crate) fn push_pairs(
    alloc: Global,
    out: &mut Vec<u8>,
    format: Format,
    sides: &DocumentSides<'_>,
    matching: &Matching,
    changed: &[usize],
    limit: usize,
) -> Result<(), AllocError>
    requires sides { AreDocumentSides sides.now }
    requires documents { HoldDocuments sides.now }
    requires rows { NamesDocuments sides.now matching.now changed.now }
    ensures { OnOk result
        (out.new.items ≡ out.old.items
        ++ flat_map (pair_at format sides.now matching.now) (take limit changed.now)) }
{
    for n in 0..changed.len().min(limit) {
        let k = changed[n];
        push_pair_at(alloc, out, format, sides, matching, k)?;
    }
    Ok(())
}

//! Writes the keys of documents.

ghost use Rattle.std.specs.List.{range_with_len};
ghost use Rattle.std.specs.Prelude.{◌≡◌, ◌<◌, ◌++◌, length, map, codes, OnOk};
ghost use Rattle.diff_report.specs.Sides.{row_of};
ghost use Rattle.diff_words.specs.Lists.{listed};
ghost use Rattle.document_words.specs.Keys.{document_name, key_member, key_members, key_text};
ghost use Rattle.document_words.specs.Sides.{IsDocumentSide, names_of};

use crate::numbers::push_value;
use crate::sides::DocumentSides;
use diff_json::strings::push_string;
use diff_report::sides::Side;
use diff_words::decimals::push_decimal;
use diff_words::lists::push_gap;
use diff_words::words::push_word;
use std::alloc::AllocError;

/// Appends `NAME=VALUE` for key `k` of row `i` of `side`. Keys and rows are counted from 0.
fn push_key(
    out: &mut Vec<u8>,
    sides: &DocumentSides<'_>,
    side: &Side,
    i: usize,
    k: usize,
) -> Result<(), AllocError>
    requires side { IsDocumentSide (length sides.now.keys.items) side.now }
    requires row { i < length side.now.table.rows }
    requires key { k < length sides.now.keys.items }
    ensures { OnOk result
        (out.new.items ≡ out.old.items ++ key_text (names_of sides.now) (row_of side.now i) k) }
{
    push_word(out, &sides.keys[k])?;
    out.push(b'=')?;
    push_value(out, side.table.cell(i, k))?;
    Ok(())
}

/// Appends `NAME=VALUE` for each key of row `i` of `side`, with commas between them.
fn push_keys(
    out: &mut Vec<u8>,
    sides: &DocumentSides<'_>,
    side: &Side,
    i: usize,
) -> Result<(), AllocError>
    requires side { IsDocumentSide (length sides.now.keys.items) side.now }
    requires row { i < length side.now.table.rows }
    ensures { OnOk result
        (out.new.items ≡ out.old.items
        ++ listed (codes ",")
        (map (key_text (names_of sides.now) (row_of side.now i))
        (range_with_len 0 (length sides.now.keys.items)))) }
{
    for k in 0..sides.keys.len() {
        push_gap(out, b",", k)?;
        push_key(out, sides, side, i, k)?;
    }
    Ok(())
}

/// Appends the key of the document in row `i` of `side`: `NAME=VALUE` for each key, with commas
/// between them. If there are no keys, appends `row N`, where the first row is 1.
#[tactic(auto, unfolding(crate::specs::Keys::document_name))]
pub fn push_document_name(
    out: &mut Vec<u8>,
    sides: &DocumentSides<'_>,
    side: &Side,
    i: usize,
) -> Result<(), AllocError>
    requires side { IsDocumentSide (length sides.now.keys.items) side.now }
    requires row { i < length side.now.table.rows }
    ensures { OnOk result
        (out.new.items ≡ out.old.items
        ++ document_name (names_of sides.now) i (row_of side.now i)) }
{
    if sides.keys.is_empty() {
        out.extend_from_slice(b"row ")?;
        push_decimal(out, i + 1)?;
        return Ok(());
    }
    push_keys(out, sides, side, i)?;
    Ok(())
}

/// Appends the member `"NAME":VALUE` for key `k` of row `i` of `side`.
fn push_key_member(
    out: &mut Vec<u8>,
    sides: &DocumentSides<'_>,
    side: &Side,
    i: usize,
    k: usize,
) -> Result<(), AllocError>
    requires side { IsDocumentSide (length sides.now.keys.items) side.now }
    requires row { i < length side.now.table.rows }
    requires key { k < length sides.now.keys.items }
    ensures { OnOk result
        (out.new.items ≡ out.old.items ++ key_member (names_of sides.now) (row_of side.now i) k) }
{
    push_string(out, &sides.keys[k])?;
    out.push(b':')?;
    push_value(out, side.table.cell(i, k))?;
    Ok(())
}

/// Appends the member `"NAME":VALUE` for each key of row `i` of `side`, with commas between the
/// members.
pub fn push_key_members(
    out: &mut Vec<u8>,
    sides: &DocumentSides<'_>,
    side: &Side,
    i: usize,
) -> Result<(), AllocError>
    requires side { IsDocumentSide (length sides.now.keys.items) side.now }
    requires row { i < length side.now.table.rows }
    ensures { OnOk result
        (out.new.items ≡ out.old.items ++ key_members (names_of sides.now) (row_of side.now i)) }
{
    for k in 0..sides.keys.len() {
        push_gap(out, b",", k)?;
        push_key_member(out, sides, side, i, k)?;
    }
    Ok(())
}

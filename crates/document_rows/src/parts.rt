//! Writes the values of a document at the keys, and finds out whether the document is in the part
//! to read. A value is written as its normal text, which all equal values share.

ghost use Rattle.std.specs.List.{range_with_len};
ghost use Rattle.std.specs.Prelude.{◌≡◌, map, IfOk, OnOk};
ghost use Rattle.json.specs.Strict.{HasUniqueKeys};
ghost use Rattle.json.specs.Value.{value_view};
ghost use Rattle.json_normal.specs.Narrow.{HasNarrowNumbers};
ghost use Rattle.json_normal.specs.Normal.{normal_text};
ghost use Rattle.json_paths.specs.Paths.{part_at};
ghost use Rattle.json_paths.specs.Views.{path_view, paths_view};
ghost use Rattle.document_rows.specs.Documents.{cell_of, key_cells};
ghost use Rattle.document_rows.specs.Parts.{is_in};

use diff_parts::part::Part;
use diff_tables::string_list::StringList;
use json::{Value, Writer};
use json_decimals::error::NumberError;
use json_normal::write::write_normal;
use json_paths::path::Path;
use std::alloc::{AllocError, Global};
use std::mem;

/// Memory for writing normal texts: `number` for single numbers, `text` for the result.
#[derive(Drop)]
pub(crate) struct Room {
    pub(crate) number: Vec<u8>,
    pub(crate) text: Vec<u8>,
}

/// Sets `room.text` to the normal text of a value.
fn write_text(alloc: Global, room: &mut Room, value: &Value<'_>) -> Result<(), AllocError>
    requires unique { HasUniqueKeys (value_view value.now) }
    requires narrow { HasNarrowNumbers (value_view value.now) }
    ensures { OnOk result (room.new.text.items ≡ normal_text (value_view value.now)) }
{
    let mut text = mem::replace(&mut room.text, Vec::new(alloc));
    text.clear();
    let mut writer = Writer::new(text);
    match write_normal(alloc, &mut writer, &mut room.number, value) {
        Ok(()) => {}
        Err(NumberError::Memory) => return Err(AllocError),
        Err(NumberError::WideExponent) => unreachable!(),
    }
    room.text = writer.into_inner();
    Ok(())
}

/// Sets `room.text` to the normal text of the value that the document `value` has at the path
/// `key`, or to `null` if it has none there.
pub(crate) fn write_part(
    alloc: Global,
    room: &mut Room,
    value: &Value<'_>,
    key: &Path,
) -> Result<(), AllocError>
    requires unique { HasUniqueKeys (value_view value.now) }
    requires narrow { HasNarrowNumbers (value_view value.now) }
    ensures { OnOk result
        (room.new.text.items ≡ cell_of (part_at (path_view key.now) (value_view value.now))) }
{
    match key.part_of(value) {
        Some(part) => {
            write_text(alloc, room, part)?;
            Ok(())
        }
        None => {
            room.text.clear();
            room.text.extend_from_slice(b"null")?;
            Ok(())
        }
    }
}

/// Returns a text for each of `keys`: the normal text of the value that the document `value` has
/// there, or `null` if it has none. `room` is memory that may be overwritten.
fn key_texts(
    alloc: Global,
    room: &mut Room,
    value: &Value<'_>,
    keys: &[Path],
) -> Result<Vec<Vec<u8>>, AllocError>
    requires unique { HasUniqueKeys (value_view value.now) }
    requires narrow { HasNarrowNumbers (value_view value.now) }
    ensures { IfOk result
        (λ texts. map (λ v. v.items) texts.items
        ≡ key_cells (paths_view keys.now) (value_view value.now)) }
{
    let mut texts = Vec::new(alloc);
    for key in 0..keys.len() {
        write_part(alloc, room, value, &keys[key])?;
        texts.push(Vec::from_slice(alloc, &room.text)?)?;
    }
    Ok(texts)
}

/// Returns the columns of `count` keys in a table of documents: 0 to `count - 1`. The column after
/// these has the text of each document.
pub fn key_columns(alloc: Global, count: usize) -> Result<Vec<usize>, AllocError>
    ensures { IfOk result (λ columns. columns.items ≡ range_with_len 0 count) }
{
    (0..count).collect(alloc)
}

/// The normal texts of a document's values at the keys, as a list of strings.
#[derive(Clone, Copy)]
struct Texts<'a> {
    texts: &'a [Vec<u8>],
}

impl<'a> StringList for Texts<'a> {
    ghost strings = { λ t. map (λ v. v.items) t.texts.now };

    fn count(&self) -> usize {
        self.texts.len()
    }

    #[inline(always)]
    fn string(&self, i: usize) -> &[u8] {
        &self.texts[i]
    }
}

/// Returns whether the document `value` is in `part`. This depends on its values at `keys`. Returns
/// `true` if `part` is `None`. `room` is memory that may be overwritten.
pub(crate) fn is_in(
    alloc: Global,
    room: &mut Room,
    value: &Value<'_>,
    keys: &[Path],
    part: Option<Part>,
) -> Result<bool, AllocError>
    requires unique { HasUniqueKeys (value_view value.now) }
    requires narrow { HasNarrowNumbers (value_view value.now) }
    ensures { IfOk result (λ kept. kept ≡ is_in part (paths_view keys.now) (value_view value.now)) }
{
    let Some(part) = part else {
        return Ok(true);
    };
    let texts = key_texts(alloc, room, value, keys)?;
    let columns = key_columns(alloc, keys.len())?;
    Ok(part.has_row(&Texts { texts: &texts }, &columns))
}

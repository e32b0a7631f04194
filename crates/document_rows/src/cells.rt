//! Collects the cells of documents.

ghost use Rattle.std.specs.Prelude.{◌≡◌, ◌<◌, ◌++◌, ◌∷◌, [], ℕ, suc, true, List, IfErr, IfOk, OnOk};
ghost use Rattle.std.specs.Prelude.{MatchResult, length, get_or};
ghost use Rattle.diff_tables.specs.Strings.{AreStrings};
ghost use Rattle.json.specs.Strict.{HasUniqueKeys};
ghost use Rattle.json.specs.Value.{value_view};
ghost use Rattle.json_normal.specs.Narrow.{HasNarrowNumbers};
ghost use Rattle.json_paths.specs.Paths as paths;
ghost use Rattle.json_paths.specs.Paths.{part_at};
ghost use Rattle.json_paths.specs.Views.{path_view, paths_view};
ghost use Rattle.document_rows.specs.Documents.{IsDocument, cell_of, key_cells};
ghost use Rattle.document_rows.specs.Reading.{IsTrouble, IsTroubleMemory};
ghost use Rattle.document_rows.specs.Known.{HoldsDocumentsOf};
ghost use Rattle.document_rows.specs.Rows.{HoldsRows};
ghost use Rattle.document_rows.specs.Tables.{HoldsDocuments, line_at};
ghost use Rattle.document_rows.specs.declared.reading.Reading.{Reading};

use crate::parts::{Room, is_in, write_part};
use crate::reading::Reading;
use crate::values::{Trouble, document_in};
use diff_tables::strings::Strings;
use diff_tables::table::Table;
use document_faults::fault::LineFault;
use document_faults::place::column_of;
use json::{Scratch, Value};
use json_paths::path::Path;
use std::alloc::{AllocError, Global};

/// Memory for reading documents, reused for each one: `scratch` for parsing, `room` for numbers and
/// normal texts.
#[derive(Drop)]
pub(crate) struct Rooms {
    scratch: Box<Scratch>,
    room: Room,
}

/// Collected documents: the cells of all rows one after another, the line number of each row, and
/// the numbers of the lines that were skipped.
#[derive(Drop)]
pub(crate) struct Rows {
    pub(crate) cells: Strings,
    pub(crate) lines: Vec<u64>,
    pub(crate) skipped: Vec<u64>,
}

/// Appends to `cells` the normal text of the value that the document `value` has at the path `key`,
/// or `null` if it has none there. `room` is memory that may be overwritten.
fn push_part(
    alloc: Global,
    cells: &mut Strings,
    room: &mut Room,
    value: &Value<'_>,
    key: &Path,
) -> Result<(), AllocError>
    requires unique { HasUniqueKeys (value_view value.now) }
    requires narrow { HasNarrowNumbers (value_view value.now) }
    ensures { OnOk result
        ((all : List (List ℕ)) → AreStrings cells.old all
        → AreStrings cells.new
        (all ++ cell_of (part_at (path_view key.now) (value_view value.now)) ∷ [])) }
{
    write_part(alloc, room, value, key)?;
    cells.push(&room.text)?;
    Ok(())
}

/// Appends a cell to `cells` for each of `keys`: the normal text of the value that the document
/// `value` has there, or `null` if it has none. `room` is memory that may be overwritten.
fn push_parts(
    alloc: Global,
    cells: &mut Strings,
    room: &mut Room,
    value: &Value<'_>,
    keys: &[Path],
) -> Result<(), AllocError>
    requires unique { HasUniqueKeys (value_view value.now) }
    requires narrow { HasNarrowNumbers (value_view value.now) }
    ensures { OnOk result
        ((all : List (List ℕ)) → AreStrings cells.old all
        → AreStrings cells.new (all ++ key_cells (paths_view keys.now) (value_view value.now))) }
{
    for key in 0..keys.len() {
        push_part(alloc, cells, room, value, &keys[key])?;
    }
    Ok(())
}

impl Rooms {
    /// Creates empty buffers.
    pub(crate) fn new(alloc: Global) -> Result<Rooms, AllocError> {
        let scratch = Box::new(alloc, Scratch::new(alloc))?;
        let number = Vec::new(alloc);
        let text = Vec::new(alloc);
        let room = Room { number, text };
        Ok(Rooms { scratch, room })
    }

    /// Returns the column of `fault` in `line`, or `None` if a fault of this kind has no column
    /// (see `document_faults::place::column_of`).
    pub(crate) fn column_of(
        &mut self,
        alloc: Global,
        line: &[u8],
        fault: LineFault,
    ) -> Result<Option<u64>, AllocError> {
        column_of(alloc, line, fault, &mut self.scratch, &mut self.room.number)
    }
}

/// Appends the cells of row `row` of `table` to `cells`.
fn push_cells(cells: &mut Strings, table: &Table, row: usize) -> Result<(), AllocError>
    requires row { row < length table.now.rows }
    requires width { length (get_or table.now.rows row []) ≡ table.now.width }
    ensures { OnOk result
        ((all : List (List ℕ)) → AreStrings cells.old all
        → AreStrings cells.new (all ++ get_or table.now.rows row [])) }
{
    for column in 0..table.width() {
        cells.push(table.cell(row, column))?;
    }
    Ok(())
}

impl Rows {
    /// Creates an empty collection.
    pub(crate) fn new(alloc: Global) -> Result<Rows, AllocError>
        ensures { IfOk result
            (λ rows. (reading : Reading) (keys : List paths.Path)
            → HoldsRows reading keys [] rows) }
    {
        let cells = Strings::new(alloc)?;
        let lines = Vec::new(alloc);
        let skipped = Vec::new(alloc);
        Ok(Rows {
            cells,
            lines,
            skipped,
        })
    }

    /// Appends a copy of row `row` of `table`. `number` is the number of the input line that the
    /// copy stands for.
    pub(crate) fn push_copy(
        &mut self,
        table: &Table,
        row: usize,
        number: u64,
    ) -> Result<(), AllocError>
        requires documents { HoldsDocuments table.now }
        requires row { row < length table.now.rows }
        ensures { OnOk result
            ((reading : Reading) (keys : List paths.Path) (lines : List (List ℕ))
            → HoldsDocumentsOf reading keys table.now → number ≡ suc (length lines)
            → HoldsRows reading keys lines self.old
            → HoldsRows reading keys (lines ++ line_at table.now row ∷ []) self.new) }
    {
        push_cells(&mut self.cells, table, row)?;
        self.lines.push(number)?;
        Ok(())
    }

    /// Parses `line` as a document, and appends its row: the normal text of the value at each of
    /// `keys`, or `null` if there is none, and then the line itself. `number` is the number of the
    /// line. Appends nothing if the document is not in `reading.part`.
    ///
    /// Fails with `Fault` if the line is not a document, and then appends nothing. Fails with
    /// `Memory` if an allocation fails, possibly after some cells were appended.
    pub(crate) fn push(
        &mut self,
        alloc: Global,
        line: &[u8],
        number: u64,
        keys: &[Path],
        reading: Reading,
        rooms: &mut Rooms,
    ) -> Result<(), Trouble>
        ensures kept { MatchResult result
            (λ _. (lines : List (List ℕ)) → number ≡ suc (length lines)
            → HoldsRows reading (paths_view keys.now) lines self.old
            → HoldsRows reading (paths_view keys.now) (lines ++ line.now ∷ []) self.new)
            (IsTrouble reading (paths_view keys.now) line.now) }
        ensures unchanged { IfErr result
            (λ trouble. ¬ IsTroubleMemory trouble → self.new ≡ self.old) }
    {
        let Rooms { scratch, room } = rooms;
        let value = document_in(alloc, line, keys, reading, scratch, &mut room.number)?;
        if !is_in(alloc, room, &value, keys, reading.part)? {
            return Ok(());
        }
        push_parts(alloc, &mut self.cells, room, &value, keys)?;
        self.cells.push(line)?;
        self.lines.push(number)?;
        Ok(())
    }

    /// Records line `number` as skipped.
    pub(crate) fn skip(&mut self, number: u64) -> Result<(), AllocError>
        ensures { OnOk result
            ((reading : Reading) (keys : List paths.Path) (lines : List (List ℕ)) (line : List ℕ)
            → reading.skip_bad ≡ true → ¬ IsDocument reading keys line → number ≡ suc (length lines)
            → HoldsRows reading keys lines self.old
            → HoldsRows reading keys (lines ++ line ∷ []) self.new) }
    {
        self.skipped.push(number)?;
        Ok(())
    }
}

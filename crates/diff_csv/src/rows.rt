//! Collects rows of cells.

ghost use Rattle.std.specs.Prelude.{◌≡◌, ◌++◌, ◌∷◌, [], ℕ, suc, List, Option, get_or, length, IfOk};
ghost use Rattle.std.specs.Prelude.{IfSome, OnOk};
ghost use Rattle.csv.specs.Records.{fields_of};
ghost use Rattle.diff_tables.specs.Keys.{cells_at};
ghost use Rattle.diff_tables.specs.Strings.{AreStrings};
ghost use Rattle.diff_parts.specs.Parts.{PartNumber};
ghost use Rattle.diff_csv.specs.Rows.{HoldsRows, is_read};

use crate::wanted::Wanted;
use csv::ByteRecord;
use diff_parts::part::Part;
use diff_tables::string_list::StringList;
use diff_tables::strings::Strings;
use std::alloc::{AllocError, Global};

/// Collected rows: their cells, row by row, and the line at which each row begins.
#[derive(Drop)]
pub(crate) struct Rows {
    pub(crate) cells: Strings,
    pub(crate) lines: Vec<u64>,
    // The number of each row among all rows of the text, from 1 on, if only the rows of a part are
    // read. Else empty.
    pub(crate) numbers: Vec<u64>,
}

/// Returns the field with index `column`, or an empty field if the record has fewer fields.
fn cell(row: &ByteRecord, column: usize) -> &[u8]
    ensures { result.now ≡ get_or (fields_of row.now) column [] }
{
    match row.get(column) {
        Some(field) => field,
        None => &[],
    }
}

/// The cells of the record `row` in the columns with the indices `columns`, as a list of strings.
#[derive(Clone, Copy)]
struct Cells<'a> {
    row: &'a ByteRecord,
    columns: &'a [usize],
}

impl<'a> StringList for Cells<'a> {
    ghost strings = { λ c. cells_at c.columns.now (fields_of c.row.now) };

    fn count(&self) -> usize {
        self.columns.len()
    }

    #[inline(always)]
    fn string(&self, i: usize) -> &[u8] {
        cell(self.row, self.columns[i])
    }
}

/// Returns whether the row with the cells `cells` is to be read. This is so if `part` is `None` or
/// contains the row. `keys` are the indices of the key cells in `cells`.
#[inline(always)]
fn is_read(cells: &Cells<'_>, keys: &[usize], part: Option<Part>) -> bool
    ensures { result
        ≡ is_read part keys.now (cells_at cells.now.columns.now (fields_of cells.now.row.now)) }
{
    match part {
        Some(part) => part.has_row(cells, keys),
        None => true,
    }
}

/// Appends the cells of a record to `strings`.
#[inline(always)]
fn push_cells(strings: &mut Strings, cells: &Cells<'_>) -> Result<(), AllocError>
    ensures { OnOk result
        ((all : List (List ℕ)) → AreStrings strings.old all
        → AreStrings strings.new
        (all ++ cells_at cells.now.columns.now (fields_of cells.now.row.now))) }
{
    strings.push_all(cells)?;
    Ok(())
}

/// Appends the number of a row to `numbers` if `part` is not `None`, and else does nothing.
#[inline(always)]
fn push_number(numbers: &mut Vec<u64>, part: Option<Part>, number: u64) -> Result<(), AllocError>
    ensures { OnOk result
        (IfSome part (λ _. numbers.new.items ≡ numbers.old.items ++ number ∷ [])) }
{
    if let Some(_) = part {
        numbers.push(number)?;
    }
    Ok(())
}

impl Rows {
    /// Creates an empty collection.
    pub(crate) fn new(alloc: Global) -> Result<Rows, AllocError>
        ensures { IfOk result
            (λ rows. (columns keys : List ℕ) (part : Option PartNumber)
            → HoldsRows columns keys part rows []) }
    {
        let cells = Strings::new(alloc)?;
        let lines = Vec::new(alloc);
        let numbers = Vec::new(alloc);
        Ok(Rows {
            cells,
            lines,
            numbers,
        })
    }

    /// Appends a row: the cells of the record `row` in the wanted columns, and `line`, the line at
    /// which the record begins. Does nothing if only the rows of a part are wanted and the row is
    /// not in this part. `number` is the number of the row in the text, from 1 on. It is stored
    /// only if a part is wanted.
    pub(crate) fn push(
        &mut self,
        row: &ByteRecord,
        wanted: &Wanted<'_>,
        line: u64,
        number: u64,
    ) -> Result<(), AllocError>
        ensures { OnOk result
            ((rows : List (List (List ℕ))) → number ≡ suc (length rows)
            → HoldsRows wanted.now.columns.now wanted.now.keys.now wanted.now.part self.old rows
            → HoldsRows wanted.now.columns.now wanted.now.keys.now wanted.now.part self.new
            (rows ++ fields_of row.now ∷ [])) }
    {
        let columns = wanted.columns;
        let cells = Cells { row, columns };
        if !is_read(&cells, wanted.keys, wanted.part) {
            return Ok(());
        }
        push_cells(&mut self.cells, &cells)?;
        self.lines.push(line)?;
        push_number(&mut self.numbers, wanted.part, number)?;
        Ok(())
    }
}

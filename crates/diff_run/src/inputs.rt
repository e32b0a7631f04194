//! Reads the rows of two inputs.

ghost use Rattle.std.specs.Prelude.{◌≡◌, ℕ, List, Some, IfOk, MatchResult};
ghost use Rattle.diff_csv.specs.Reading.{IsOpen};
ghost use Rattle.diff_csv.specs.Tables.{HasShape, IsTableOf};
ghost use Rattle.diff_run.specs.Faults.{IsRunFault, text_on};
ghost use Rattle.diff_run.specs.Inputs.{AreBothOf};

use crate::error::RunError;
use crate::options::Options;
use diff_columns::error::Side;
use diff_columns::layout::Layout;
use diff_csv::source::{CsvTable, Source};
use diff_csv::wanted::Wanted;
use std::alloc::Global;
use std::io::Read;

/// The rows of two inputs, in the columns that are compared.
#[derive(Drop)]
pub(crate) struct Both {
    pub(crate) left: CsvTable,
    pub(crate) right: CsvTable,
}

/// Opens an input and reads its first record. The error is `Csv` with this side, also if an
/// allocation fails.
pub fn opened<R: Read + Drop>(
    alloc: Global,
    reader: R,
    options: &Options<'_>,
    side: Side,
) -> Result<Source<R>, RunError>
    ensures { MatchResult result
        (λ source. (text : List ℕ) → R.remaining reader ≡ Some text
        → IsOpen R.remaining options.now.csv text source)
        (λ error. (left_text right_text : List ℕ) → R.remaining reader
        ≡ Some (text_on side left_text right_text)
        → IsRunFault options.now left_text right_text error) }
{
    match Source::open(alloc, reader, options.csv) {
        Ok(source) => Ok(source),
        Err(cause) => Err(RunError::Csv { side, cause }),
    }
}

/// Reads the rows of an input, each with its cells in `columns`. `layout` has the key columns. If
/// the options have a part, reads only the rows of this part. The error is `Csv` with this side,
/// also if an allocation fails.
fn read_rows<R: Read + Drop>(
    alloc: Global,
    source: Source<R>,
    columns: &[usize],
    layout: &Layout,
    options: &Options<'_>,
    side: Side,
) -> Result<CsvTable, RunError>
    ensures shape { IfOk result (HasShape columns.now) }
    ensures table { MatchResult result
        (λ table. (text : List ℕ) → IsOpen R.remaining options.now.csv text source
        → IsTableOf options.now.csv text columns.now layout.now.keys.items options.now.part
        table)
        (λ error. (left_text right_text : List ℕ)
        → IsOpen R.remaining options.now.csv (text_on side left_text right_text) source
        → IsRunFault options.now left_text right_text error) }
{
    let wanted = Wanted {
        columns,
        keys: &layout.keys,
        part: options.part,
    };
    match source.read(alloc, &wanted) {
        Ok(table) => Ok(table),
        Err(cause) => Err(RunError::Csv { side, cause }),
    }
}

/// Reads the rows of two inputs, each with its cells in the columns that are compared. If the
/// options have a part, reads only the rows of this part. The error is `Csv`, also if an allocation
/// fails.
pub(crate) fn read_both<L: Read + Drop, R: Read + Drop>(
    alloc: Global,
    left: Source<L>,
    right: Source<R>,
    layout: &Layout,
    options: &Options<'_>,
) -> Result<Both, RunError>
    ensures left { IfOk result (λ both. HasShape layout.now.left.items both.left) }
    ensures right { IfOk result (λ both. HasShape layout.now.right.items both.right) }
    ensures tables { MatchResult result
        (λ both. (left_text right_text : List ℕ) → IsOpen L.remaining options.now.csv left_text left
        → IsOpen R.remaining options.now.csv right_text right
        → AreBothOf options.now left_text right_text layout.now both)
        (λ error. (left_text right_text : List ℕ)
        → IsOpen L.remaining options.now.csv left_text left
        → IsOpen R.remaining options.now.csv right_text right
        → IsRunFault options.now left_text right_text error) }
{
    let left = read_rows(alloc, left, &layout.left, layout, options, Side::Left)?;
    let right = read_rows(alloc, right, &layout.right, layout, options, Side::Right)?;
    Ok(Both { left, right })
}

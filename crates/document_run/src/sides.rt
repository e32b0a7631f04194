//! Reads two inputs for a report.

ghost use Rattle.std.specs.Prelude.{◌≡◌, ℕ, List, Some, map, IfOk, MatchResult};
ghost use Rattle.diff_columns.specs.Names.{names_of};
ghost use Rattle.document_run.specs.Faults.{IsDocumentFault};
ghost use Rattle.document_run.specs.Run.{AreSidesOf};
ghost use Rattle.document_run.specs.Sides.{AreComparable};

use crate::error::DocumentError;
use crate::inputs::{read_right, read_side};
use crate::options::DocumentOptions;
use crate::skipped::test_kept;
use diff_columns::error::Side;
use diff_run::run::Input;
use document_words::sides::DocumentSides;
use std::alloc::{AllocError, Global};
use std::io::Read;

/// Returns a copy of each name.
fn copied(alloc: Global, names: &[&[u8]]) -> Result<Vec<Vec<u8>>, AllocError>
    ensures { IfOk result (λ copies. map (λ v. v.items) copies.items ≡ names_of names.now) }
{
    let mut copies = Vec::new(alloc);
    for name in names {
        copies.push(Vec::from_slice(alloc, name)?)?;
    }
    Ok(copies)
}

/// Reads the documents of two inputs. The names of the keys and the options for the report are
/// copied from `options`.
///
/// Fails with `Read` if reading the documents of an input fails, with `Memory` if a name can't be
/// copied, and with `AllSkipped` if an input has lines but all of them were skipped. Never fails
/// with `AllSkipped` if `options.reading` has a part, since a part may have no documents.
pub(crate) fn sides_of<'a, L: Read + Drop, R: Read + Drop>(
    alloc: Global,
    left: Input<'_, L>,
    right: Input<'_, R>,
    options: &DocumentOptions<'a>,
) -> Result<DocumentSides<'a>, DocumentError>
    ensures comparable { IfOk result (AreComparable options.now) }
    ensures texts { MatchResult result
        (λ sides. (left_text right_text : List ℕ) → L.remaining left.entry.reader ≡ Some left_text
        → R.remaining right.entry.reader ≡ Some right_text
        → AreSidesOf options.now left_text right_text left.entry.name.now right.entry.name.now
        sides)
        (λ error. (left_text right_text : List ℕ) → L.remaining left.entry.reader ≡ Some left_text
        → R.remaining right.entry.reader ≡ Some right_text
        → IsDocumentFault options.now left_text right_text error) }
{
    let keys = copied(alloc, options.names)?;
    let left = read_side(alloc, left, options, Side::Left)?;
    test_kept(&left, options, Side::Left)?;
    let right = read_right(alloc, right, options, &left.table)?;
    test_kept(&right, options, Side::Right)?;
    Ok(DocumentSides {
        left: left.table,
        right: right.table,
        left_skipped: left.skipped,
        right_skipped: right.skipped,
        skip_bad: options.reading.skip_bad,
        keys,
        colored: options.colored,
        rules: options.rules,
    })
}

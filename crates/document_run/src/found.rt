//! Matches and compares the documents of two inputs.

ghost use Rattle.std.specs.Prelude.{◌≡◌, true, MatchResult};
ghost use Rattle.diff_tables.specs.Comparison.{IsComparison};
ghost use Rattle.document_run.specs.Faults.{IsRowsFault};
ghost use Rattle.document_run.specs.Run.{key_columns};
ghost use Rattle.document_run.specs.Sides.{AreComparable, HaveUniqueRows, IsFoundOn};

use crate::error::DocumentError;
use crate::options::DocumentOptions;
use crate::unique::test_keys;
use diff_keys::error::MatchError;
use diff_keys::matching::Matching;
use diff_tables::compare::{Comparison, compare_tables};
use document_rows::pairs::differing_pairs;
use document_rows::parts::key_columns;
use document_words::sides::DocumentSides;
use std::alloc::{AllocError, Global};

/// The result of comparing two inputs: the matched documents, and those without a partner.
#[derive(Drop)]
pub(crate) struct Found {
    pub(crate) matching: Matching,
    /// The indices of the matched pairs whose documents have a difference to report.
    pub(crate) changed: Vec<usize>,
}

/// Matches the documents of two inputs by their keys, or without keys by their order. Returns the
/// matching, and the indices of the matched pairs whose lines differ. These include pairs whose
/// difference is not to be reported.
///
/// Fails with `KeyTwice` if `options.unique` is true and two documents of an input have the same
/// key, with `TooManyRows` if an input has more than 2^32 documents, and with `Memory` if an
/// allocation fails.
fn compared(
    alloc: Global,
    sides: &DocumentSides<'_>,
    options: &DocumentOptions<'_>,
) -> Result<Comparison, DocumentError>
    requires { AreComparable options.now sides.now }
    ensures { MatchResult result
        (λ comparison. IsComparison (key_columns options.now) sides.now.left.table.rows
        sides.now.right.table.rows comparison
        × (options.now.unique ≡ true → HaveUniqueRows (key_columns options.now) sides.now))
        (IsRowsFault options.now sides.now) }
{
    let columns = key_columns(alloc, options.keys.len())?;
    test_keys(alloc, sides, &columns, options)?;
    match compare_tables(alloc, &sides.left.table, &sides.right.table, &columns) {
        Ok(comparison) => Ok(comparison),
        Err(MatchError::Memory) => Err(DocumentError::Memory),
        Err(MatchError::TooManyRows) => Err(DocumentError::TooManyRows),
    }
}

/// Finds the matched documents that have a difference to report, and the documents without a
/// partner.
///
/// Fails with `KeyTwice` if `options.unique` is true and two documents of an input have the same
/// key, with `TooManyRows` if an input has more than 2^32 documents, and with `Memory` if an
/// allocation fails.
pub(crate) fn found_on(
    alloc: Global,
    sides: &DocumentSides<'_>,
    options: &DocumentOptions<'_>,
) -> Result<Found, DocumentError>
    requires { AreComparable options.now sides.now }
    ensures { MatchResult result (IsFoundOn options.now sides.now)
        (IsRowsFault options.now sides.now) }
{
    let comparison = compared(alloc, sides, options)?;
    let (left, right) = (&sides.left.table, &sides.right.table);
    let changed = differing_pairs(alloc, left, right, &comparison, options.rules)?;
    Ok(Found {
        matching: comparison.matching,
        changed,
    })
}

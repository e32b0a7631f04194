//! Finds the pairs of documents with a difference to report.

ghost use Rattle.std.specs.Prelude.{◌≡◌, ◌<◌, ◌↔◌, ℕ, IsTrue, List, [], length, IfOk};
ghost use Rattle.diff_keys.specs.Rising.{ListsRising};
ghost use Rattle.diff_tables.specs.Comparison.{ArePairs, IsComparison};
ghost use Rattle.json_changes.specs.Rules.{differences_told};
ghost use Rattle.json_changes.specs.Texts.{rules_view};
ghost use Rattle.document_rows.specs.Documents.{tree_of};
ghost use Rattle.document_rows.specs.Tables.{HoldsDocuments, IsOtherDocument, line_at};

use crate::document::document_of;
use diff_keys::matching::Matching;
use diff_tables::compare::Comparison;
use diff_tables::table::Table;
use json::Scratch;
use json_changes::changes::{Rules, are_same_under};
use json_decimals::error::NumberError;
use std::alloc::{AllocError, Global};

/// Memory for parsing two documents. It is reused for each pair of documents.
#[derive(Drop)]
struct Scratches {
    left: Scratch,
    right: Scratch,
}

impl Scratches {
    /// Creates empty buffers.
    fn new(alloc: Global) -> Result<Box<Scratches>, AllocError> {
        let left = Scratch::new(alloc);
        let right = Scratch::new(alloc);
        let scratches = Box::new(alloc, Scratches { left, right })?;
        Ok(scratches)
    }
}

/// Returns whether `rules` report no difference between the documents of row `left_row` of `left`
/// and row `right_row` of `right`.
fn are_same_documents(
    alloc: Global,
    left: &Table,
    left_row: usize,
    right: &Table,
    right_row: usize,
    rules: &Rules,
    scratches: &mut Scratches,
) -> Result<bool, AllocError>
    requires left { HoldsDocuments left.now }
    requires right { HoldsDocuments right.now }
    requires left_row { left_row < length left.now.rows }
    requires right_row { right_row < length right.now.rows }
    ensures { IfOk result (λ same. IsTrue same ↔ (differences_told (rules_view rules.now)
        (tree_of (line_at left.now left_row)) (tree_of (line_at right.now right_row)) ≡ [])) }
{
    let left = document_of(alloc, left, left_row, &mut scratches.left)?;
    let right = document_of(alloc, right, right_row, &mut scratches.right)?;
    match are_same_under(alloc, &left, &right, rules) {
        Ok(same) => Ok(same),
        Err(NumberError::Memory) => Err(AllocError),
        Err(NumberError::WideExponent) => unreachable!(),
    }
}

/// Returns whether `rules` report a difference between the documents of matched pair `place`: row
/// `matching.left_rows[place]` of `left` and row `matching.right_rows[place]` of `right`.
fn is_other_pair(
    alloc: Global,
    left: &Table,
    right: &Table,
    matching: &Matching,
    place: usize,
    rules: &Rules,
    scratches: &mut Scratches,
) -> Result<bool, AllocError>
    requires left { HoldsDocuments left.now }
    requires right { HoldsDocuments right.now }
    requires pairs { ArePairs left.now.rows right.now.rows matching.now.left_rows.items
        matching.now.right_rows.items }
    requires place { place < length matching.now.left_rows.items }
    ensures { IfOk result (λ other. IsTrue other ↔ IsOtherDocument (rules_view rules.now)
        left.now right.now matching.now.left_rows.items matching.now.right_rows.items place) }
{
    let left_row = matching.left_rows[place] as usize;
    let right_row = matching.right_rows[place] as usize;
    let same = are_same_documents(alloc, left, left_row, right, right_row, rules, scratches)?;
    Ok(!same)
}

/// Returns the indices of the pairs in `comparison.matching` for which `rules` report a difference
/// between the two documents, in ascending order.
pub fn differing_pairs(
    alloc: Global,
    left: &Table,
    right: &Table,
    comparison: &Comparison,
    rules: &Rules,
) -> Result<Vec<usize>, AllocError>
    requires left { HoldsDocuments left.now }
    requires right { HoldsDocuments right.now }
    requires comparison { (columns : List ℕ)
        × IsComparison columns left.now.rows right.now.rows comparison.now }
    ensures { IfOk result (λ pairs. ListsRising (IsOtherDocument (rules_view rules.now)
        left.now right.now comparison.now.matching.left_rows.items
        comparison.now.matching.right_rows.items)
        (length comparison.now.matching.left_rows.items) pairs.items) }
{
    let mut scratches = Scratches::new(alloc)?;
    let matching = &comparison.matching;
    let mut differing = Vec::new(alloc);
    for place in &comparison.changed {
        if is_other_pair(alloc, left, right, matching, *place, rules, &mut scratches)? {
            differing.push(*place)?;
        }
    }
    Ok(differing)
}

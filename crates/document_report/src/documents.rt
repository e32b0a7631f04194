//! Finds the differences between two documents.

ghost use Rattle.std.specs.Prelude.{◌≡◌, ◌<◌, ℕ, List, length, map, IfOk};
ghost use Rattle.document_words.specs.Sides.{AreDocumentSides};
ghost use Rattle.document_rows.specs.Documents.{IsDocument, tree_of};
ghost use Rattle.document_rows.specs.declared.reading.Reading.{Reading};
ghost use Rattle.document_report.specs.Documents.{HoldDocuments, IsTree, changes_at};
ghost use Rattle.document_report.specs.Documents.{changes_between};
ghost use Rattle.json.specs.Value.{value_view};
ghost use Rattle.json_changes.specs.Rules.{differences_told};
ghost use Rattle.json_changes.specs.Texts.{change_view, rules_view, told};
ghost use Rattle.json_paths.specs.Paths.{Path};

use document_words::sides::DocumentSides;
use json::{Error, Scratch, Value};
use json_changes::changes::{Change, Rules, changes_under};
use json_decimals::error::NumberError;
use std::alloc::{AllocError, Global};

/// Parses a line that is known to be a document. The only error is a failed allocation.
fn read_tree<'a>(
    alloc: Global,
    line: &'a [u8],
    scratch: &'a mut Scratch,
) -> Result<Value<'a>, AllocError>
    requires { (reading : Reading) × (keys : List Path) × IsDocument reading keys line.now }
    ensures tree { IfOk result (λ v. value_view v ≡ tree_of line.now) }
    ensures document { IfOk result (λ v. IsTree (value_view v)) }
{
    match Value::from_slice(alloc, line, scratch) {
        Ok(value) => Ok(value),
        Err(Error::OutOfMemory) => Err(AllocError),
        Err(_) => unreachable!(),
    }
}

/// Returns the differences between the documents `left` and `right` that are reported under
/// `rules`. The only error is a failed allocation.
fn changes_in(
    alloc: Global,
    left: &Value<'_>,
    right: &Value<'_>,
    rules: &Rules,
) -> Result<Vec<Change>, AllocError>
    requires left { IsTree (value_view left.now) }
    requires right { IsTree (value_view right.now) }
    ensures { IfOk result (λ v. map change_view v.items ≡ map told (differences_told
        (rules_view rules.now) (value_view left.now) (value_view right.now))) }
{
    match changes_under(alloc, left, right, rules) {
        Ok(changes) => Ok(changes),
        Err(NumberError::Memory) => Err(AllocError),
        Err(NumberError::WideExponent) => unreachable!(),
    }
}

/// Parses two lines that are known to be documents, and returns the differences between them that
/// are reported under `rules`. The only error is a failed allocation.
fn changes_between(
    alloc: Global,
    left: &[u8],
    right: &[u8],
    rules: &Rules,
) -> Result<Vec<Change>, AllocError>
    requires left { (reading : Reading) × (keys : List Path) × IsDocument reading keys left.now }
    requires right { (reading : Reading) × (keys : List Path) × IsDocument reading keys right.now }
    ensures { IfOk result (λ v. map change_view v.items
        ≡ changes_between (rules_view rules.now) left.now right.now) }
{
    let mut left_scratch = Scratch::new(alloc);
    let mut right_scratch = Scratch::new(alloc);
    let left = read_tree(alloc, left, &mut left_scratch)?;
    let right = read_tree(alloc, right, &mut right_scratch)?;
    let changes = changes_in(alloc, &left, &right, rules)?;
    Ok(changes)
}

/// Returns the differences to report between the documents of left row `i` and right row `j`. The
/// only error is a failed allocation.
pub(crate) fn changes_at(
    alloc: Global,
    sides: &DocumentSides<'_>,
    i: usize,
    j: usize,
) -> Result<Vec<Change>, AllocError>
    requires sides { AreDocumentSides sides.now }
    requires documents { HoldDocuments sides.now }
    requires left { i < length sides.now.left.table.rows }
    requires right { j < length sides.now.right.table.rows }
    ensures { IfOk result (λ v. map change_view v.items ≡ changes_at sides.now i j) }
{
    // The cells of a row are its keys, and after them the document.
    let place = sides.keys.len();
    let left = sides.left.table.cell(i, place);
    let right = sides.right.table.cell(j, place);
    let changes = changes_between(alloc, left, right, sides.rules)?;
    Ok(changes)
}

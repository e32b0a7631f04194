//! Reads the documents of two inputs.

ghost use Rattle.std.specs.Prelude.{◌≡◌, ℕ, List, Some, IfOk, MatchResult};
ghost use Rattle.diff_run.specs.Faults.{text_on};
ghost use Rattle.document_run.specs.Faults.{IsDocumentFault};
ghost use Rattle.document_run.specs.Run.{IsSideOf};
ghost use Rattle.document_run.specs.Sides.{HasDocuments};

use crate::error::DocumentError;
use crate::options::DocumentOptions;
use diff_columns::error::Side;
use diff_report::sides::Side as Table;
use diff_run::run::Input;
use document_rows::read::{Documents, read_documents, read_documents_beside};
use std::alloc::Global;
use std::io::Read;

/// The documents of an input, and the numbers of the lines that were skipped.
#[derive(Drop)]
pub(crate) struct ReadSide {
    pub(crate) table: Table,
    pub(crate) skipped: Vec<u64>,
}

/// Reads the documents of an input. `side` is the side of the input. If `read_documents` fails, the
/// error is `Read` with this side. If the name of the input can't be copied, the error is `Memory`.
pub(crate) fn read_side<R: Read + Drop>(
    alloc: Global,
    input: Input<'_, R>,
    options: &DocumentOptions<'_>,
    side: Side,
) -> Result<ReadSide, DocumentError>
    ensures shape { IfOk result (λ read. HasDocuments options.now read.table) }
    ensures texts { MatchResult result
        (λ read. (text : List ℕ) → R.remaining input.entry.reader ≡ Some text
        → IsSideOf options.now text input.entry.name.now read.table read.skipped.items)
        (λ error. (left_text right_text : List ℕ) → R.remaining input.entry.reader
        ≡ Some (text_on side left_text right_text)
        → IsDocumentFault options.now left_text right_text error) }
{
    let name = Vec::from_slice(alloc, input.name)?;
    match read_documents(alloc, input.reader, options.keys, options.reading) {
        Ok(
            Documents {
                table,
                lines,
                skipped,
            },
        ) => Ok(ReadSide {
            table: Table {
                name,
                table,
                lines,
                numbers: None,
            },
            skipped,
        }),
        Err(cause) => Err(DocumentError::Read { side, cause }),
    }
}

/// Reads the documents of the right input. `left` has the documents of the left input. Most lines
/// that equal a line of the left input are not parsed again. If `read_documents_beside` fails, the
/// error is `Read` with the right side. If the name of the input can't be copied, the error is
/// `Memory`.
pub(crate) fn read_right<R: Read + Drop>(
    alloc: Global,
    input: Input<'_, R>,
    options: &DocumentOptions<'_>,
    left: &Table,
) -> Result<ReadSide, DocumentError>
    requires { HasDocuments options.now left.now }
    ensures shape { IfOk result (λ read. HasDocuments options.now read.table) }
    ensures texts { MatchResult result
        (λ read. (text : List ℕ) → R.remaining input.entry.reader ≡ Some text
        → IsSideOf options.now text input.entry.name.now read.table read.skipped.items)
        (λ error. (left_text right_text : List ℕ) → R.remaining input.entry.reader ≡ Some right_text
        → IsDocumentFault options.now left_text right_text error) }
{
    let name = Vec::from_slice(alloc, input.name)?;
    match read_documents_beside(
        alloc,
        input.reader,
        options.keys,
        options.reading,
        &left.table,
    ) {
        Ok(
            Documents {
                table,
                lines,
                skipped,
            },
        ) => Ok(ReadSide {
            table: Table {
                name,
                table,
                lines,
                numbers: None,
            },
            skipped,
        }),
        Err(cause) => Err(DocumentError::Read {
            side: Side::Right,
            cause,
        }),
    }
}

//! Reads documents, and makes their schema.

ghost use Rattle.std.specs.Prelude.{◌≡◌, ◌<◌, ◌++◌, ◌∷◌, [], ℕ, Bool, false, List, Some, length};
ghost use Rattle.std.specs.Prelude.{map, IfOk, OnOk, MatchResult};
ghost use Rattle.document_rows.specs.Tables as tables;
ghost use Rattle.schema_paths.specs.Documents.{AreGathered, IsSchemaOfText, none_kept, parts_in};
ghost use Rattle.schema_paths.specs.Documents.{whole};
ghost use Rattle.schema_paths.specs.Errors.{IsMemory, IsSchemaFault};
ghost use Rattle.schema_paths.specs.Paths.{AreSchemasOf};

use crate::error::SchemaError;
use crate::kinds::Kinds;
use crate::paths::{PathSchema, schemas_of};
use diff_tables::table::Table;
use document_rows::document::document_of;
use document_rows::read::{Documents, read_documents};
use document_rows::reading::Reading;
use json::Scratch;
use json_groups::groups::Groups;
use json_parts::laws::part_laws;
use std::alloc::{AllocError, Global};
use std::io::Read;

/// The schema of documents: the schemas of all their paths.
#[derive(Drop)]
pub struct DocumentSchema {
    /// The number of documents.
    pub documents: usize,
    /// `true` if lines that are not documents are skipped. `false` if they are errors.
    pub skip_bad: bool,
    /// The numbers of the lines that were skipped because they are not documents.
    pub skipped: Vec<u64>,
    /// The schemas of the paths, in the order in which the paths first occur.
    pub paths: Vec<PathSchema>,
}

/// Parses the document of row `row`, and adds its members and items at any depth to `groups`.
/// `scratch` is memory that can be reused for each document.
fn add_row(
    alloc: Global,
    groups: &mut Groups<Kinds>,
    table: &Table,
    row: usize,
    scratch: &mut Scratch,
) -> Result<(), AllocError>
    requires table { tables.HoldsDocuments table.now }
    requires row { row < length table.now.rows }
    requires groups { (lines : List (List ℕ)) × AreGathered lines groups.old }
    ensures { OnOk result
        ((lines : List (List ℕ)) → AreGathered lines groups.old
        → AreGathered (lines ++ tables.line_at table.now row ∷ []) groups.new) }
{
    let document = document_of(alloc, table, row, scratch)?;
    groups.add_document(alloc, &document)?;
    Ok(())
}

/// Returns the values of all documents of a table, grouped by path.
fn groups_of(alloc: Global, table: &Table) -> Result<Groups<Kinds>, AllocError>
    requires { (skip_bad : Bool) × (lines : List (List ℕ))
        × tables.AreRowsOf (whole skip_bad) [] lines table.now }
    ensures { IfOk result
        (λ groups. (skip_bad : Bool) (lines : List (List ℕ))
        → tables.AreRowsOf (whole skip_bad) [] lines table.now → AreGathered lines groups) }
{
    let mut scratch = Scratch::new(alloc);
    let mut groups = Groups::new(alloc);
    for row in 0..table.count() {
        add_row(alloc, &mut groups, table, row, &mut scratch)?;
    }
    Ok(groups)
}

/// Returns the schemas of all paths in the documents of a table. The only error is `Memory`.
fn table_paths(alloc: Global, table: &Table) -> Result<Vec<PathSchema>, SchemaError>
    requires { (skip_bad : Bool) × (lines : List (List ℕ))
        × tables.AreRowsOf (whole skip_bad) [] lines table.now }
    ensures { MatchResult result
        (λ paths. (skip_bad : Bool) (lines : List (List ℕ))
        → tables.AreRowsOf (whole skip_bad) [] lines table.now
        → AreSchemasOf (map parts_in lines) paths.items) IsMemory }
{
    part_laws();
    let gathered = groups_of(alloc, table)?;
    let groups = gathered.into_groups();
    match schemas_of(alloc, groups, table.count()) {
        Ok(paths) => Ok(paths),
        Err(_) => Err(SchemaError::Memory),
    }
}

/// Returns whether an input has lines, but all of them were skipped.
fn none_kept(read: &Documents) -> bool
    ensures { result ≡ none_kept read.now.lines.items read.now.skipped.items }
{
    read.lines.is_empty() && !read.skipped.is_empty()
}

/// Reads the documents of an input. If `skip_bad` is set, lines that are not documents are skipped.
/// Fails with `Read` if `read_documents` fails, and with `AllSkipped` if there are lines, but all
/// of them were skipped.
fn documents_in<R: Read + Drop>(
    alloc: Global,
    input: R,
    skip_bad: bool,
) -> Result<Documents, SchemaError>
    ensures shape { IfOk result
        (λ read. tables.HaveDocuments (whole skip_bad) [] read.table read.lines.items) }
    ensures some { IfOk result (λ read. none_kept read.lines.items read.skipped.items ≡ false) }
    ensures documents { MatchResult result
        (λ read. (text : List ℕ) → R.remaining input ≡ Some text
        → tables.AreDocumentsOf text (whole skip_bad) [] read.table read.lines.items
        read.skipped.items)
        (λ error. (text : List ℕ) → R.remaining input ≡ Some text
        → IsSchemaFault text skip_bad error) }
{
    let reading = Reading {
        null_keys: false,
        skip_bad,
        part: None,
    };
    match read_documents(alloc, input, &[], reading) {
        Ok(read) => {
            if none_kept(&read) {
                return Err(SchemaError::AllSkipped);
            }
            Ok(read)
        }
        Err(cause) => Err(SchemaError::Read { cause }),
    }
}

/// Reads an input with a document on each line, and returns the schema of the documents. If
/// `skip_bad` is set, lines that are not documents are skipped.
///
/// Fails with `Read` if the input can't be read, if memory runs out while it is read, or if a line
/// is not a document and `skip_bad` is not set. Fails with `AllSkipped` if there are lines, but all
/// of them were skipped. Fails with `Memory` if a later allocation fails.
pub fn read_document_schema<R: Read + Drop>(
    alloc: Global,
    input: R,
    skip_bad: bool,
) -> Result<DocumentSchema, SchemaError>
    ensures { MatchResult result
        (λ schema. (text : List ℕ) → R.remaining input ≡ Some text
        → IsSchemaOfText text skip_bad schema)
        (λ error. (text : List ℕ) → R.remaining input ≡ Some text
        → IsSchemaFault text skip_bad error) }
{
    let read = documents_in(alloc, input, skip_bad)?;
    let paths = table_paths(alloc, &read.table)?;
    Ok(DocumentSchema {
        documents: read.table.count(),
        skip_bad,
        skipped: read.skipped,
        paths,
    })
}

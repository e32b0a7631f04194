//! Writes the differences between the paths of two files of documents, as text.

ghost use Rattle.std.specs.Prelude.{◌≡◌, ◌++◌, OnOk};
ghost use Rattle.schema_documents.specs.Changes.{alone_line, document_lines, kinds_line};
ghost use Rattle.schema_documents.specs.Changes.{path_lines};

use crate::kinds::push_kinds;
use crate::skipped::push_skipped;
use diff_columns::error::Side;
use diff_words::words::push_word;
use json_plain::plain::push_plain_json;
use schema_paths::paths::PathSchema;
use schema_paths::read::DocumentSchema;
use schema_report::changes::{ChangeForm, counts_of, push_changes};
use schema_report::changes_text::push_counts;
use schema_report::files::{Files, file_on};
use std::alloc::AllocError;

/// The `ChangeForm` that writes differences between paths as lines of text. It has the names of the
/// two files.
#[derive(Clone, Copy)]
struct PathLines<'a> {
    files: Files<'a>,
}

/// Appends the line that says that only the file named `file` has values at `path`.
#[tactic(auto, unfolding(crate::specs::Changes::alone_line))]
fn push_alone(out: &mut Vec<u8>, file: &[u8], path: &[u8]) -> Result<(), AllocError>
    ensures { OnOk result (out.new.items ≡ out.old.items ++ alone_line file.now path.now) }
{
    out.extend_from_slice(b"! path ")?;
    push_plain_json(out, path)?;
    out.extend_from_slice(b" only in ")?;
    push_word(out, file)?;
    out.push(b'\n')?;
    Ok(())
}

/// Appends the line about a path that has values of different kinds in the two files. `left` and
/// `right` are the schemas of the path.
#[tactic(auto, unfolding(crate::specs::Changes::kinds_line))]
fn push_changed(out: &mut Vec<u8>, left: &PathSchema, right: &PathSchema) -> Result<(), AllocError>
    ensures { OnOk result (out.new.items ≡ out.old.items ++ kinds_line left.now right.now) }
{
    out.extend_from_slice(b"~ path ")?;
    push_plain_json(out, &left.path)?;
    out.extend_from_slice(b"  ")?;
    push_kinds(out, b", ", left)?;
    out.extend_from_slice(b" -> ")?;
    push_kinds(out, b", ", right)?;
    out.push(b'\n')?;
    Ok(())
}

impl ChangeForm<PathSchema> for PathLines<'_> {
    ghost use Rattle.schema_documents.specs.Changes.{alone_line, kinds_line};
    ghost use Rattle.schema_report.specs.ColumnChanges.{file_on};

    ghost alone = { λ f side s. alone_line (file_on f.files side) s.path.items };

    ghost changed = { λ _ s t. kinds_line s t };

    fn push_alone(
        &self,
        out: &mut Vec<u8>,
        side: Side,
        part: &PathSchema,
    ) -> Result<(), AllocError> {
        push_alone(out, file_on(self.files, side), &part.path)
    }

    fn push_changed(
        &self,
        out: &mut Vec<u8>,
        left: &PathSchema,
        right: &PathSchema,
    ) -> Result<(), AllocError> {
        push_changed(out, left, right)
    }
}

/// Appends a line for each path that only one file has or that has values of different kinds, and a
/// line with the counts. `files` has the names of the files.
fn push_path_lines(
    out: &mut Vec<u8>,
    files: Files<'_>,
    left: &[PathSchema],
    right: &[PathSchema],
) -> Result<(), AllocError>
    ensures { OnOk result
        (out.new.items ≡ out.old.items ++ path_lines files.entry left.now right.now) }
{
    push_changes(out, &PathLines { files }, left, right)?;
    push_counts(out, counts_of(left, right))?;
    Ok(())
}

/// Appends the differences between the paths of two files of documents as text: a line for each
/// path that only one file has or that has values of different kinds, a line with the counts, and a
/// line for each file with skipped lines. `files` has the names of the files.
pub fn push_document_lines(
    out: &mut Vec<u8>,
    files: Files<'_>,
    left: &DocumentSchema,
    right: &DocumentSchema,
) -> Result<(), AllocError>
    ensures { OnOk result
        (out.new.items ≡ out.old.items ++ document_lines files.entry left.now right.now) }
{
    push_path_lines(out, files, &left.paths, &right.paths)?;
    push_skipped(out, files.left, &left.skipped)?;
    push_skipped(out, files.right, &right.skipped)?;
    Ok(())
}

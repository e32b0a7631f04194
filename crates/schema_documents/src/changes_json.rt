//! Writes the differences between the paths of two files of documents, as JSON lines.

ghost use Rattle.std.specs.Prelude.{◌≡◌, ◌++◌, OnOk};
ghost use Rattle.diff_columns.specs.Errors.{word_of};
ghost use Rattle.schema_documents.specs.Changes.{alone_object, document_objects, kinds_object};
ghost use Rattle.schema_documents.specs.Changes.{path_objects};

use crate::kinds::push_kinds;
use crate::skipped::push_skipped_members;
use diff_columns::error::Side;
use diff_json::strings::push_string;
use schema_paths::paths::PathSchema;
use schema_paths::read::DocumentSchema;
use schema_report::changes::{ChangeForm, counts_of, push_changes};
use schema_report::changes_json::push_counts_members;
use std::alloc::AllocError;

/// The `ChangeForm` that writes differences between paths as JSON lines.
#[derive(Clone, Copy)]
struct PathObjects;

/// Returns the name of a side in JSON: `left` or `right`.
fn word_of(side: Side) -> &'static [u8]
    ensures { result.now ≡ word_of side }
{
    match side {
        Side::Left => b"left",
        Side::Right => b"right",
    }
}

/// Appends the JSON line that says that only the file on the side `side` has values at `path`.
#[tactic(auto, unfolding(crate::specs::Changes::alone_object))]
fn push_alone(out: &mut Vec<u8>, side: Side, path: &[u8]) -> Result<(), AllocError>
    ensures { OnOk result (out.new.items ≡ out.old.items ++ alone_object side path.now) }
{
    out.extend_from_slice(br#"{"kind":"path","path":"#)?;
    push_string(out, path)?;
    out.extend_from_slice(br#","only_in":""#)?;
    out.extend_from_slice(word_of(side))?;
    out.extend_from_slice(b"\"}\n")?;
    Ok(())
}

/// Appends the JSON line about a path that has values of different kinds in the two files. `left`
/// and `right` are the schemas of the path.
#[tactic(auto, unfolding(crate::specs::Changes::kinds_object))]
fn push_changed(out: &mut Vec<u8>, left: &PathSchema, right: &PathSchema) -> Result<(), AllocError>
    ensures { OnOk result (out.new.items ≡ out.old.items ++ kinds_object left.now right.now) }
{
    out.extend_from_slice(br#"{"kind":"type","path":"#)?;
    push_string(out, &left.path)?;
    out.extend_from_slice(br#","left":[""#)?;
    push_kinds(out, br#"",""#, left)?;
    out.extend_from_slice(br#""],"right":[""#)?;
    push_kinds(out, br#"",""#, right)?;
    out.extend_from_slice(b"\"]}\n")?;
    Ok(())
}

impl ChangeForm<PathSchema> for PathObjects {
    ghost use Rattle.schema_documents.specs.Changes.{alone_object, kinds_object};

    ghost alone = { λ _ side s. alone_object side s.path.items };

    ghost changed = { λ _ s t. kinds_object s t };

    fn push_alone(
        &self,
        out: &mut Vec<u8>,
        side: Side,
        part: &PathSchema,
    ) -> Result<(), AllocError> {
        push_alone(out, side, &part.path)
    }

    fn push_changed(
        &self,
        out: &mut Vec<u8>,
        left: &PathSchema,
        right: &PathSchema,
    ) -> Result<(), AllocError> {
        push_changed(out, left, right)
    }
}

/// Appends a JSON line for each path that only one file has or that has values of different kinds.
/// Then appends a JSON object with the counts, but without the closing brace, so that the caller
/// can append more members.
fn push_path_objects(
    out: &mut Vec<u8>,
    left: &[PathSchema],
    right: &[PathSchema],
) -> Result<(), AllocError>
    ensures { OnOk result (out.new.items ≡ out.old.items ++ path_objects left.now right.now) }
{
    push_changes(out, &PathObjects, left, right)?;
    push_counts_members(out, counts_of(left, right))?;
    Ok(())
}

/// Appends the differences between the paths of two files of documents as JSON lines: a line for
/// each path that only one file has or that has values of different kinds, and a line with the
/// counts. If `left.skip_bad` is set, the last line also has the number of skipped lines of each
/// file.
pub fn push_document_objects(
    out: &mut Vec<u8>,
    left: &DocumentSchema,
    right: &DocumentSchema,
) -> Result<(), AllocError>
    ensures { OnOk result (out.new.items ≡ out.old.items ++ document_objects left.now right.now) }
{
    push_path_objects(out, &left.paths, &right.paths)?;
    push_skipped_members(out, left.skip_bad, left.skipped.len(), right.skipped.len())?;
    out.extend_from_slice(b"}\n")?;
    Ok(())
}

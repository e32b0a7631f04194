//! Writes the differences between the columns of two tables, as text.

ghost use Rattle.std.specs.Prelude.{◌≡◌, ◌++◌, OnOk};
ghost use Rattle.schema_report.specs.ColumnChanges.{alone_line, column_lines, counts_line};
ghost use Rattle.schema_report.specs.ColumnChanges.{kind_line};

use crate::changes::{ChangeForm, SchemaCounts, counts_of, push_changes};
use crate::files::{Files, file_on};
use crate::words::push_kind;
use diff_columns::error::Side;
use diff_words::decimals::push_decimal;
use diff_words::words::push_word;
use schema_columns::column::ColumnSchema;
use schema_columns::kind::Kind;
use std::alloc::AllocError;

/// The `ChangeForm` that writes differences between columns as lines of text. It has the names of
/// the two files.
#[derive(Clone, Copy)]
struct ColumnLines<'a> {
    files: Files<'a>,
}

/// Appends the line that says that only the file named `file` has the column `name`.
#[tactic(auto, unfolding(crate::specs::ColumnChanges::alone_line))]
fn push_alone(out: &mut Vec<u8>, file: &[u8], name: &[u8]) -> Result<(), AllocError>
    ensures { OnOk result (out.new.items ≡ out.old.items ++ alone_line file.now name.now) }
{
    out.extend_from_slice(b"! column ")?;
    push_word(out, name)?;
    out.extend_from_slice(b" only in ")?;
    push_word(out, file)?;
    out.push(b'\n')?;
    Ok(())
}

/// Appends the line about the column `name`, which has the kind `left` in the left file, and the
/// kind `right` in the right file.
#[tactic(auto, unfolding(crate::specs::ColumnChanges::kind_line))]
fn push_kinds(out: &mut Vec<u8>, name: &[u8], left: Kind, right: Kind) -> Result<(), AllocError>
    ensures { OnOk result (out.new.items ≡ out.old.items ++ kind_line name.now left right) }
{
    out.extend_from_slice(b"~ column ")?;
    push_word(out, name)?;
    out.extend_from_slice(b"  ")?;
    push_kind(out, left)?;
    out.extend_from_slice(b" -> ")?;
    push_kind(out, right)?;
    out.push(b'\n')?;
    Ok(())
}

impl ChangeForm<ColumnSchema> for ColumnLines<'_> {
    ghost use Rattle.schema_report.specs.ColumnChanges.{alone_line, file_on, kind_line};

    ghost alone = { λ f side s. alone_line (file_on f.files side) s.name.items };

    ghost changed = { λ _ s t. kind_line s.name.items s.kind t.kind };

    fn push_alone(
        &self,
        out: &mut Vec<u8>,
        side: Side,
        part: &ColumnSchema,
    ) -> Result<(), AllocError> {
        push_alone(out, file_on(self.files, side), &part.name)
    }

    fn push_changed(
        &self,
        out: &mut Vec<u8>,
        left: &ColumnSchema,
        right: &ColumnSchema,
    ) -> Result<(), AllocError> {
        push_kinds(out, &left.name, left.kind, right.kind)
    }
}

/// Appends a line with the four counts, such as `1 changed, 0 removed, 2 added, 5 the same.`
#[tactic(auto, unfolding(crate::specs::ColumnChanges::counts_line))]
pub fn push_counts(out: &mut Vec<u8>, counts: SchemaCounts) -> Result<(), AllocError>
    ensures { OnOk result (out.new.items ≡ out.old.items ++ counts_line counts) }
{
    push_decimal(out, counts.changed)?;
    out.extend_from_slice(b" changed, ")?;
    push_decimal(out, counts.removed)?;
    out.extend_from_slice(b" removed, ")?;
    push_decimal(out, counts.added)?;
    out.extend_from_slice(b" added, ")?;
    push_decimal(out, counts.same)?;
    out.extend_from_slice(b" the same.\n")?;
    Ok(())
}

/// Appends the differences between the columns of two files as text: a line for each column that
/// only one file has or that has different kinds, and a line with the counts. `files` has the names
/// of the files.
pub fn push_column_lines(
    out: &mut Vec<u8>,
    files: Files<'_>,
    left: &[ColumnSchema],
    right: &[ColumnSchema],
) -> Result<(), AllocError>
    ensures { OnOk result
        (out.new.items ≡ out.old.items ++ column_lines files.entry left.now right.now) }
{
    push_changes(out, &ColumnLines { files }, left, right)?;
    push_counts(out, counts_of(left, right))?;
    Ok(())
}

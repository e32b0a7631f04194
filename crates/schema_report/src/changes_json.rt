//! Writes the differences between the columns of two tables, as JSON lines.

ghost use Rattle.std.specs.Prelude.{◌≡◌, ◌++◌, OnOk};
ghost use Rattle.schema_report.specs.ColumnChanges.{column_objects, counts_members};
ghost use Rattle.schema_report.specs.ColumnChanges.{kind_object};

use crate::changes::{ChangeForm, SchemaCounts, counts_of, push_changes};
use crate::json_lines::push_number;
use crate::words::push_kind;
use diff_columns::error::Side;
use diff_json::columns::push_json_column;
use diff_json::strings::push_string;
use schema_columns::column::ColumnSchema;
use schema_columns::kind::Kind;
use std::alloc::AllocError;

/// The `ChangeForm` that writes differences between columns as JSON lines.
#[derive(Clone, Copy)]
struct ColumnObjects;

/// Appends the JSON line about the column `name`, which has the kind `left` in the left table, and
/// the kind `right` in the right table.
#[tactic(auto, unfolding(crate::specs::ColumnChanges::kind_object))]
fn push_kinds(out: &mut Vec<u8>, name: &[u8], left: Kind, right: Kind) -> Result<(), AllocError>
    ensures { OnOk result (out.new.items ≡ out.old.items ++ kind_object name.now left right) }
{
    out.extend_from_slice(br#"{"kind":"type","column":"#)?;
    push_string(out, name)?;
    out.extend_from_slice(br#","left":""#)?;
    push_kind(out, left)?;
    out.extend_from_slice(br#"","right":""#)?;
    push_kind(out, right)?;
    out.extend_from_slice(b"\"}\n")?;
    Ok(())
}

impl ChangeForm<ColumnSchema> for ColumnObjects {
    ghost use Rattle.diff_json.specs.Columns.{column_object};
    ghost use Rattle.schema_report.specs.ColumnChanges.{kind_object};

    ghost alone = { λ _ side s. column_object side s.name.items };

    ghost changed = { λ _ s t. kind_object s.name.items s.kind t.kind };

    fn push_alone(
        &self,
        out: &mut Vec<u8>,
        side: Side,
        part: &ColumnSchema,
    ) -> Result<(), AllocError> {
        push_json_column(out, side, &part.name)
    }

    fn push_changed(
        &self,
        out: &mut Vec<u8>,
        left: &ColumnSchema,
        right: &ColumnSchema,
    ) -> Result<(), AllocError> {
        push_kinds(out, &left.name, left.kind, right.kind)
    }
}

/// Appends a JSON object with the four counts, but without the closing brace, so that the caller
/// can append more members.
#[tactic(auto, unfolding(crate::specs::ColumnChanges::counts_members))]
pub fn push_counts_members(out: &mut Vec<u8>, counts: SchemaCounts) -> Result<(), AllocError>
    ensures { OnOk result (out.new.items ≡ out.old.items ++ counts_members counts) }
{
    push_number(out, br#"{"kind":"counts","changed":"#, counts.changed)?;
    push_number(out, br#","removed":"#, counts.removed)?;
    push_number(out, br#","added":"#, counts.added)?;
    push_number(out, br#","same":"#, counts.same)?;
    Ok(())
}

/// Appends the differences between the columns of two tables as JSON lines: a line for each column
/// that only one table has or that has different kinds, and a line with the counts.
pub fn push_column_objects(
    out: &mut Vec<u8>,
    left: &[ColumnSchema],
    right: &[ColumnSchema],
) -> Result<(), AllocError>
    ensures { OnOk result (out.new.items ≡ out.old.items ++ column_objects left.now right.now) }
{
    push_changes(out, &ColumnObjects, left, right)?;
    push_counts_members(out, counts_of(left, right))?;
    out.extend_from_slice(b"}\n")?;
    Ok(())
}

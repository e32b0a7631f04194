//! Writes the schemas of columns as JSON lines.

ghost use Rattle.std.specs.Fmt.{decimal};
ghost use Rattle.std.specs.Option.{option_map};
ghost use Rattle.std.specs.Prelude.{◌≡◌, ◌++◌, OnOk};
ghost use Rattle.schema_report.specs.JsonLines.{column_line, count_member, count_members};
ghost use Rattle.schema_report.specs.JsonLines.{end_members, head_members, schema_lines};
ghost use Rattle.schema_report.specs.JsonLines.{value_member};

use crate::words::push_kind;
use diff_json::strings::push_string;
use diff_words::decimals::push_decimal;
use schema_columns::column::ColumnSchema;
use std::alloc::AllocError;

/// Appends `before`, and then `n` in decimal. For example, `push_number(out, b",\"null\":", 3)`
/// appends `,"null":3`.
pub fn push_number(out: &mut Vec<u8>, before: &[u8], n: usize) -> Result<(), AllocError>
    ensures { OnOk result (out.new.items ≡ out.old.items ++ before.now ++ decimal n) }
{
    out.extend_from_slice(before)?;
    push_decimal(out, n)?;
    Ok(())
}

/// Appends `before`, and then the count in decimal, or `null` for `None`.
pub fn push_count(out: &mut Vec<u8>, before: &[u8], count: Option<usize>) -> Result<(), AllocError>
    ensures { OnOk result (out.new.items ≡ out.old.items ++ before.now ++ count_member count) }
{
    out.extend_from_slice(before)?;
    match count {
        Some(n) => push_decimal(out, n),
        None => {
            out.extend_from_slice(b"null")?;
            Ok(())
        }
    }
}

/// Appends `before` unchanged, then `value` as a JSON string, or the JSON word `null` if `value` is
/// `None`.
pub fn push_value(
    out: &mut Vec<u8>,
    before: &[u8],
    value: &Option<Vec<u8>>,
) -> Result<(), AllocError>
    ensures { OnOk result
        (out.new.items ≡ out.old.items ++ before.now
        ++ value_member (option_map (λ v. v.items) value.now)) }
{
    out.extend_from_slice(before)?;
    match value {
        Some(bytes) => push_string(out, bytes),
        None => {
            out.extend_from_slice(b"null")?;
            Ok(())
        }
    }
}

/// Appends the beginning of the JSON object of a column, with its name and its kind. The quote that
/// closes the kind is left to `push_counts`.
#[tactic(auto, unfolding(crate::specs::JsonLines::head_members))]
fn push_head(out: &mut Vec<u8>, column: &ColumnSchema) -> Result<(), AllocError>
    ensures { OnOk result (out.new.items ≡ out.old.items ++ head_members column.now) }
{
    out.extend_from_slice(br#"{"column":"#)?;
    push_string(out, &column.name)?;
    out.extend_from_slice(br#","type":""#)?;
    push_kind(out, column.kind)?;
    Ok(())
}

/// Appends the quote that closes the kind, and then the members with the counts of a column: rows,
/// null cells, missing cells, different values.
#[tactic(auto, unfolding(crate::specs::JsonLines::count_members))]
fn push_counts(out: &mut Vec<u8>, column: &ColumnSchema) -> Result<(), AllocError>
    ensures { OnOk result (out.new.items ≡ out.old.items ++ count_members column.now) }
{
    push_number(out, br#"","rows":"#, column.rows)?;
    push_number(out, br#","null":"#, column.nulls)?;
    push_number(out, br#","missing":"#, column.missing)?;
    push_count(out, br#","distinct":"#, column.distinct)?;
    Ok(())
}

/// Appends the members for the least and the greatest value of a column, then closes the object and
/// ends the line.
#[tactic(auto, unfolding(crate::specs::JsonLines::end_members))]
fn push_ends(out: &mut Vec<u8>, column: &ColumnSchema) -> Result<(), AllocError>
    ensures { OnOk result (out.new.items ≡ out.old.items ++ end_members column.now) }
{
    push_value(out, br#","least":"#, &column.least)?;
    push_value(out, br#","greatest":"#, &column.greatest)?;
    out.extend_from_slice(b"}\n")?;
    Ok(())
}

/// Appends the JSON line of a column.
fn push_column(out: &mut Vec<u8>, column: &ColumnSchema) -> Result<(), AllocError>
    ensures { OnOk result (out.new.items ≡ out.old.items ++ column_line column.now) }
{
    push_head(out, column)?;
    push_counts(out, column)?;
    push_ends(out, column)?;
    Ok(())
}

/// Appends the schemas of columns as JSON lines, one for each column.
pub fn push_schema_json(out: &mut Vec<u8>, columns: &[ColumnSchema]) -> Result<(), AllocError>
    ensures { OnOk result (out.new.items ≡ out.old.items ++ schema_lines columns.now) }
{
    for column in columns {
        push_column(out, column)?;
    }
    Ok(())
}

//! Writes lines about columns that only one input has.

ghost use Rattle.std.specs.Prelude.{◌≡◌, ◌<◌, ◌++◌, All, length, OnOk};
ghost use Rattle.polars_arrays_bytes.specs.OffsetStrings.{offset_strings};
ghost use Rattle.diff_run.specs.Lone.{alone_line, alone_lines, lone_line};

use diff_columns::error::Side;
use diff_json::columns::push_json_column;
use diff_words::formats::Format;
use diff_words::words::push_word;
use polars_arrays_bytes::binary::BinaryArray;
use polars_arrays_flat::byte_rows::ByteRows;
use std::alloc::AllocError;

/// Appends the text line which says that only the input named `input` has the column `name`.
#[tactic(auto, unfolding(crate::specs::Lone::lone_line))]
fn push_lone_line(out: &mut Vec<u8>, input: &[u8], name: &[u8]) -> Result<(), AllocError>
    ensures { OnOk result (out.new.items ≡ out.old.items ++ lone_line input.now name.now) }
{
    out.extend_from_slice(b"! column ")?;
    push_word(out, name)?;
    out.extend_from_slice(b" only in ")?;
    push_word(out, input)?;
    out.push(b'\n')?;
    Ok(())
}

/// Appends the line, as text or JSON, which says that only the input on this side has the column
/// `name`. `input` is the name of this input, which JSON leaves out.
fn push_alone_line(
    out: &mut Vec<u8>,
    format: Format,
    side: Side,
    input: &[u8],
    name: &[u8],
) -> Result<(), AllocError>
    ensures { OnOk result
        (out.new.items ≡ out.old.items ++ alone_line format side input.now name.now) }
{
    match format {
        Format::Text => push_lone_line(out, input, name),
        Format::Json => push_json_column(out, side, name),
    }
}

/// Appends a line for each of `columns`, which only the input on this side has. They are indices
/// into `names`, which has the names of all columns of this input. `input` is the name of the
/// input.
pub(crate) fn push_alone(
    out: &mut Vec<u8>,
    format: Format,
    side: Side,
    input: &[u8],
    names: &BinaryArray<i64>,
    columns: &[usize],
) -> Result<(), AllocError>
    requires { All (λ c. c < length (offset_strings (λ x. x) names.now)) columns.now }
    ensures { OnOk result
        (out.new.items ≡ out.old.items
        ++ alone_lines format side input.now (offset_strings (λ x. x) names.now) columns.now) }
{
    for column in columns {
        push_alone_line(out, format, side, input, names.bytes(*column))?;
    }
    Ok(())
}

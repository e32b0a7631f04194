//! Writes the schemas of paths as JSON lines.

ghost use Rattle.std.specs.List.{flat_map};
ghost use Rattle.std.specs.Prelude.{◌≡◌, ◌++◌, OnOk};
ghost use Rattle.schema_documents.specs.JsonLines.{end_members, head_members, hole_members};
ghost use Rattle.schema_documents.specs.JsonLines.{kind_members, name_members, number_members};
ghost use Rattle.schema_documents.specs.JsonLines.{path_line, schema_lines, skipped_member};

use diff_json::strings::push_string;
use schema_paths::paths::PathSchema;
use schema_paths::read::DocumentSchema;
use schema_report::json_lines::{push_count, push_number, push_value};
use std::alloc::AllocError;

/// Appends the beginning of the JSON object of a path, with the path's text and the number of
/// documents.
#[tactic(auto, unfolding(crate::specs::JsonLines::name_members))]
fn push_name(out: &mut Vec<u8>, path: &PathSchema) -> Result<(), AllocError>
    ensures { OnOk result (out.new.items ≡ out.old.items ++ name_members path.now) }
{
    out.extend_from_slice(br#"{"path":"#)?;
    push_string(out, &path.path)?;
    push_number(out, br#","documents":"#, path.documents)?;
    Ok(())
}

/// Appends the member with `count`, the number of skipped lines. Appends nothing if `skip_bad` is
/// not set.
fn push_skipped(out: &mut Vec<u8>, skip_bad: bool, count: usize) -> Result<(), AllocError>
    ensures { OnOk result (out.new.items ≡ out.old.items ++ skipped_member skip_bad count) }
{
    if !skip_bad {
        return Ok(());
    }
    push_number(out, br#","skipped":"#, count)
}

/// Appends the members with the numbers of null values, and of documents without a value at the
/// path.
#[tactic(auto, unfolding(crate::specs::JsonLines::hole_members))]
fn push_holes(out: &mut Vec<u8>, path: &PathSchema) -> Result<(), AllocError>
    ensures { OnOk result (out.new.items ≡ out.old.items ++ hole_members path.now) }
{
    push_number(out, br#","null":"#, path.nulls)?;
    push_number(out, br#","missing":"#, path.missing)?;
    Ok(())
}

/// Appends the first members of the object of a path: those of `push_name`, `push_skipped` and
/// `push_holes`. `count` is the number of skipped lines, which is left out if `skip_bad` is not
/// set.
fn push_head(
    out: &mut Vec<u8>,
    skip_bad: bool,
    count: usize,
    path: &PathSchema,
) -> Result<(), AllocError>
    ensures { OnOk result (out.new.items ≡ out.old.items ++ head_members skip_bad count path.now) }
{
    push_name(out, path)?;
    push_skipped(out, skip_bad, count)?;
    push_holes(out, path)?;
    Ok(())
}

/// Appends the members with the numbers of truth values, texts, objects and arrays.
#[tactic(auto, unfolding(crate::specs::JsonLines::kind_members))]
fn push_kinds(out: &mut Vec<u8>, path: &PathSchema) -> Result<(), AllocError>
    ensures { OnOk result (out.new.items ≡ out.old.items ++ kind_members path.now) }
{
    push_number(out, br#","truth_value":"#, path.truths)?;
    push_number(out, br#","text":"#, path.texts)?;
    push_number(out, br#","object":"#, path.objects)?;
    push_number(out, br#","array":"#, path.arrays)?;
    Ok(())
}

/// Appends the members with the number of numbers, and the number of different numbers.
#[tactic(auto, unfolding(crate::specs::JsonLines::number_members))]
fn push_numbers(out: &mut Vec<u8>, path: &PathSchema) -> Result<(), AllocError>
    ensures { OnOk result (out.new.items ≡ out.old.items ++ number_members path.now) }
{
    push_number(out, br#","number":"#, path.numbers)?;
    push_count(out, br#","distinct":"#, path.distinct)?;
    Ok(())
}

/// Appends the members with the least and the greatest number, then closes the object and ends the
/// line.
#[tactic(auto, unfolding(crate::specs::JsonLines::end_members))]
fn push_ends(out: &mut Vec<u8>, path: &PathSchema) -> Result<(), AllocError>
    ensures { OnOk result (out.new.items ≡ out.old.items ++ end_members path.now) }
{
    push_value(out, br#","least":"#, &path.least)?;
    push_value(out, br#","greatest":"#, &path.greatest)?;
    out.extend_from_slice(b"}\n")?;
    Ok(())
}

/// Appends the JSON line of a path. `count` is the number of skipped lines, which is left out if
/// `skip_bad` is not set.
fn push_path(
    out: &mut Vec<u8>,
    skip_bad: bool,
    count: usize,
    path: &PathSchema,
) -> Result<(), AllocError>
    ensures { OnOk result (out.new.items ≡ out.old.items ++ path_line skip_bad count path.now) }
{
    push_head(out, skip_bad, count, path)?;
    push_kinds(out, path)?;
    push_numbers(out, path)?;
    push_ends(out, path)?;
    Ok(())
}

/// Appends a JSON line for each path. `count` is the number of skipped lines, which is left out if
/// `skip_bad` is not set.
fn push_paths(
    out: &mut Vec<u8>,
    skip_bad: bool,
    count: usize,
    paths: &[PathSchema],
) -> Result<(), AllocError>
    ensures { OnOk result
        (out.new.items ≡ out.old.items ++ flat_map (path_line skip_bad count) paths.now) }
{
    for path in paths {
        push_path(out, skip_bad, count, path)?;
    }
    Ok(())
}

/// Appends the schema of documents as JSON lines, one for each path.
pub fn push_schema_json(out: &mut Vec<u8>, schema: &DocumentSchema) -> Result<(), AllocError>
    ensures { OnOk result (out.new.items ≡ out.old.items ++ schema_lines schema.now) }
{
    push_paths(out, schema.skip_bad, schema.skipped.len(), &schema.paths)
}

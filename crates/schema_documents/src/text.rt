//! Writes the schemas of paths as text.

ghost use Rattle.std.specs.Prelude.{◌≡◌, ◌++◌, OnOk, IfErr};
ghost use Rattle.polars_arrays_bits.specs.Errors.{IsMemory};
ghost use Rattle.schema_documents.specs.Text.{documents_word, head_line, paths_word};
ghost use Rattle.schema_documents.specs.Text.{schema_text};

use crate::grid::grid_of;
use crate::skipped::push_skipped;
use diff_words::decimals::push_decimal;
use diff_words::words::push_word;
use polars_arrays_bits::error::ComputeError;
use schema_paths::read::DocumentSchema;
use schema_report::aligned::push_aligned;
use std::alloc::{AllocError, Global};

/// Returns ` document, ` if `count` is 1, and else ` documents, `.
fn documents_word(count: usize) -> &'static [u8]
    ensures { result.now ≡ documents_word count }
{
    if count == 1 {
        b" document, "
    } else {
        b" documents, "
    }
}

/// Returns ` path` if `count` is 1, and else ` paths`, with a line feed at the end.
fn paths_word(count: usize) -> &'static [u8]
    ensures { result.now ≡ paths_word count }
{
    if count == 1 { b" path\n" } else { b" paths\n" }
}

/// Appends a line with the name of a file, the number of its documents and the number of its paths.
#[tactic(auto, unfolding(crate::specs::Text::head_line))]
fn push_head(
    out: &mut Vec<u8>,
    file: &[u8],
    documents: usize,
    paths: usize,
) -> Result<(), AllocError>
    ensures { OnOk result (out.new.items ≡ out.old.items ++ head_line file.now documents paths) }
{
    push_word(out, file)?;
    out.extend_from_slice(b": ")?;
    push_decimal(out, documents)?;
    out.extend_from_slice(documents_word(documents))?;
    push_decimal(out, paths)?;
    out.extend_from_slice(paths_word(paths))?;
    Ok(())
}

/// Appends the schema of documents as text: a line with counts, a line of headings, a line for each
/// path, and a line about skipped lines if there are any. `file` is the name of the file with the
/// documents. The only error is `Memory`.
pub fn push_schema(
    alloc: Global,
    out: &mut Vec<u8>,
    file: &[u8],
    schema: &DocumentSchema,
) -> Result<(), ComputeError>
    ensures ok { OnOk result (out.new.items ≡ out.old.items ++ schema_text file.now schema.now) }
    ensures fault { IfErr result IsMemory }
{
    push_head(out, file, schema.documents, schema.paths.len())?;
    let grid = grid_of(alloc, &schema.paths)?;
    push_aligned(alloc, out, &grid)?;
    push_skipped(out, file, &schema.skipped)?;
    Ok(())
}

//! Writes the schema of a CSV text, as text or as JSON lines.

ghost use Rattle.std.specs.Option.{option_copied};
ghost use Rattle.std.specs.Prelude.{◌≡◌, ◌++◌, ℕ, List, Some, IfErr, OnOk};
ghost use Rattle.diff_csv.specs.Errors.{IsOutOfMemory};
ghost use Rattle.diff_csv.specs.Records.{IsReadFault};
ghost use Rattle.schema_run.specs.Said.{SaysSchemaOf, form_text};

use crate::read::{TableSchema, read_schema};
use diff_csv::error::CsvError;
use diff_csv::options::CsvOptions;
use schema_report::json_lines::push_schema_json;
use schema_report::text::push_schema;
use std::alloc::Global;
use std::io::Read;

/// The form in which a schema is written.
#[derive(Clone, Copy, Debug, PartialEq, Eq)]
pub enum Form {
    /// Lines of text, in aligned columns.
    Text,
    /// JSON lines, one for each column of a table or path of documents.
    Json,
}

/// Appends the schema of a table in the form `form`. `file` is the name of the table's file, which
/// only `Form::Text` shows. The only error is `Memory`.
pub fn push_form(
    alloc: Global,
    out: &mut Vec<u8>,
    file: &[u8],
    schema: &TableSchema,
    form: Form,
) -> Result<(), CsvError>
    ensures ok { OnOk result (out.new.items ≡ out.old.items ++ form_text form file.now schema.now) }
    ensures fault { IfErr result IsOutOfMemory }
{
    match form {
        Form::Text => match push_schema(alloc, out, file, schema.rows, &schema.columns) {
            Ok(()) => Ok(()),
            Err(_) => Err(CsvError::Memory),
        },
        Form::Json => match push_schema_json(out, &schema.columns) {
            Ok(()) => Ok(()),
            Err(_) => Err(CsvError::Memory),
        },
    }
}

/// Reads a CSV text from `input`, and appends the schema of its columns in the form `form`. `file`
/// is the name of the text's file. A cell that equals `null` is null; with `None` no cell is null.
/// The errors are those of `read_schema`. If the error is not `Memory`, nothing was appended.
pub fn push_schema_of<R: Read + Drop>(
    alloc: Global,
    out: &mut Vec<u8>,
    file: &[u8],
    input: R,
    options: CsvOptions,
    null: Option<&[u8]>,
    form: Form,
) -> Result<(), CsvError>
    ensures said { OnOk result
        ((text : List ℕ) → R.remaining input ≡ Some text → (said : List ℕ)
        × (out.new.items ≡ out.old.items ++ said)
        × SaysSchemaOf options text (option_copied null.entry) form file.now said) }
    ensures fault { IfErr result
        (λ error. (text : List ℕ) → R.remaining input ≡ Some text
        → IsReadFault options text error) }
{
    let schema = read_schema(alloc, input, options, null)?;
    push_form(alloc, out, file, &schema, form)?;
    Ok(())
}

//! Writes the schema of documents, as text or as JSON lines.

ghost use Rattle.std.specs.Prelude.{◌≡◌, ◌++◌, ℕ, List, Some, IfErr, OnOk};
ghost use Rattle.schema_paths.specs.Errors.{IsMemory, IsSchemaFault};
ghost use Rattle.schema_documents.specs.Said.{SaysSchemaOf, form_text};

use crate::json_lines::push_schema_json;
use crate::text::push_schema;
use schema_paths::error::SchemaError;
use schema_paths::read::{DocumentSchema, read_document_schema};
use schema_run::said::Form;
use std::alloc::Global;
use std::io::Read;

/// Appends the schema of documents in the form `form`. `file` is the name of the file with the
/// documents, which only `Form::Text` shows. The only error is `Memory`.
fn push_form(
    alloc: Global,
    out: &mut Vec<u8>,
    file: &[u8],
    schema: &DocumentSchema,
    form: Form,
) -> Result<(), SchemaError>
    ensures ok { OnOk result (out.new.items ≡ out.old.items ++ form_text form file.now schema.now) }
    ensures fault { IfErr result IsMemory }
{
    match form {
        Form::Text => match push_schema(alloc, out, file, schema) {
            Ok(()) => Ok(()),
            Err(_) => Err(SchemaError::Memory),
        },
        Form::Json => match push_schema_json(out, schema) {
            Ok(()) => Ok(()),
            Err(_) => Err(SchemaError::Memory),
        },
    }
}

/// Reads an input with a document on each line, and appends the schema of the documents in the form
/// `form`. `file` is the name of the input. If `skip_bad` is set, lines that are not documents are
/// skipped.
///
/// Fails with `Read` if the documents can't be read (`cause` says why), and with `AllSkipped` if
/// there are lines, but all of them were skipped. In these two cases nothing was appended. Fails
/// with `Memory` if a later allocation fails.
pub fn push_schema_of<R: Read + Drop>(
    alloc: Global,
    out: &mut Vec<u8>,
    file: &[u8],
    input: R,
    skip_bad: bool,
    form: Form,
) -> Result<(), SchemaError>
    ensures said { OnOk result
        ((text : List ℕ) → R.remaining input ≡ Some text → (said : List ℕ)
        × (out.new.items ≡ out.old.items ++ said)
        × SaysSchemaOf text skip_bad form file.now said) }
    ensures fault { IfErr result
        (λ error. (text : List ℕ) → R.remaining input ≡ Some text
        → IsSchemaFault text skip_bad error) }
{
    let schema = read_document_schema(alloc, input, skip_bad)?;
    push_form(alloc, out, file, &schema, form)?;
    Ok(())
}

//! Writes the kinds of the values at a path.

ghost use Rattle.std.specs.Prelude.{◌≡◌, ◌++◌, ℕ, List, IfOk, OnOk};
ghost use Rattle.schema_documents.specs.Changes.{AreJoined, joined, kind_words, word_if};

use schema_paths::paths::PathSchema;
use std::alloc::AllocError;

/// Appends `word`, the name of a kind, if `count`, the number of values of this kind, is not 0. If
/// `some` is set, another name was appended before, and `between` is appended between the two
/// names. Returns whether any name was appended so far, which is the value of `some` for the next
/// kind.
fn push_kind(
    out: &mut Vec<u8>,
    between: &[u8],
    some: bool,
    count: usize,
    word: &[u8],
) -> Result<bool, AllocError>
    ensures { IfOk result
        (λ more. (before : List ℕ) (words : List (List ℕ))
        → AreJoined between.now before words out.old.items some
        → AreJoined between.now before (words ++ word_if count word.now) out.new.items more) }
{
    if count == 0 {
        return Ok(some);
    }
    if some {
        out.extend_from_slice(between)?;
    }
    out.extend_from_slice(word)?;
    Ok(true)
}

/// Appends the names of all kinds that the values at a path have, with the text `between` between
/// two names.
pub(crate) fn push_kinds(
    out: &mut Vec<u8>,
    between: &[u8],
    path: &PathSchema,
) -> Result<(), AllocError>
    ensures { OnOk result
        (out.new.items ≡ out.old.items ++ joined between.now (kind_words path.now)) }
{
    let nulls = push_kind(out, between, false, path.nulls, b"null")?;
    let truths = push_kind(out, between, nulls, path.truths, b"truth value")?;
    let numbers = push_kind(out, between, truths, path.numbers, b"number")?;
    let texts = push_kind(out, between, numbers, path.texts, b"text")?;
    let objects = push_kind(out, between, texts, path.objects, b"object")?;
    push_kind(out, between, objects, path.arrays, b"array")?;
    Ok(())
}

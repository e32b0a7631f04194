//! Operands of calls, and truth values as text.

ghost use Rattle.std.specs.Prelude.{IfOk};
ghost use Rattle.polars_arrays_nested.specs.GoodParts.{IsGood};
ghost use Rattle.recorded_text.specs.Cases.{HasGoodArrays};

use polars_arrays_nested::any_array::AnyArray;
use recorded_text::fault::Fault;
use recorded_text::parts::read_bytes;
use recorded_text::store::Store;
use recorded_text::words::Words;
use std::alloc::Global;

/// Returns the two arrays of `store` that the next two words name. The error is `Word` if a word is
/// missing, and `Case` if there is no array of a name.
pub fn read_two<'a>(
    store: &'a Store,
    words: &mut Words,
) -> Result<(&'a AnyArray, &'a AnyArray), Fault>
    requires { HasGoodArrays store.now }
    ensures good_left { IfOk result (λ pair. IsGood pair.0.now) }
    ensures good_right { IfOk result (λ pair. IsGood pair.1.now) }
{
    let left = store.read(words)?;
    let right = store.read(words)?;
    Ok((left, right))
}

/// Reads bytes from the next word: `x` and two hexadecimal digits for each byte. The error is
/// `Word` if there is no such word, or else `Memory`.
pub fn read_next_bytes(alloc: Global, words: &mut Words) -> Result<Vec<u8>, Fault> {
    read_bytes(alloc, words.read()?)
}

/// Reads a truth value from the next word. The error is `Word` if the next word is neither `true`
/// nor `false`, or is missing.
pub fn read_truth(words: &mut Words) -> Result<bool, Fault> {
    match words.read()? {
        "true" => Ok(true),
        "false" => Ok(false),
        _ => Err(Fault::Word),
    }
}

/// Returns the text `true` or `false`. The error is `Memory`.
pub fn write_truth(alloc: Global, truth: bool) -> Result<String, Fault> {
    Ok(truth.to_string(alloc)?)
}

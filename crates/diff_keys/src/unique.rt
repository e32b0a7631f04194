//! Finds two rows with the same key.

ghost use Rattle.std.specs.Prelude.{MatchResult};
ghost use Rattle.diff_keys.specs.Errors.{IsMemory};
ghost use Rattle.diff_keys.specs.Unique.{TellsFirstTwice};

use crate::error::MatchError;
use polars_arrays_flat::byte_rows::ByteRows;
use std::alloc::Global;
use std::collections::HashMap;

/// Two rows of a table with the same key, as row numbers from 0.
#[derive(Clone, Copy)]
pub struct Twice {
    /// The earlier row.
    pub first: usize,
    /// The later row.
    pub again: usize,
}

/// Returns the first row with the same key as an earlier row, together with that earlier row.
/// Returns `None` if all keys are different. `keys` has the key of each row. The only error is
/// `Memory`.
pub fn first_twice<K: ByteRows>(alloc: Global, keys: &K) -> Result<Option<Twice>, MatchError>
    ensures { MatchResult result (TellsFirstTwice (K.strings keys.now)) IsMemory }
{
    let count = keys.count();
    let mut seen = HashMap::with_capacity(alloc, count)?;
    for i in 0..count {
        if let Some(first) = seen.insert(keys.bytes(i), i)? {
            return Ok(Some(Twice { first, again: i }));
        }
    }
    Ok(None)
}

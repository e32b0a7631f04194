//! Finds the key columns in a list of columns.

ghost use Rattle.std.specs.Prelude.{◌<◌, All, length, IfOk};
ghost use Rattle.diff_columns.specs.Layout.{AreKeyPlaces, IsPlace};
ghost use Rattle.diff_columns.specs.Names.{names_of};
ghost use Rattle.diff_columns.specs.Pairs.{HasPlace};

use polars_arrays_flat::byte_rows::ByteRows;
use std::alloc::{AllocError, Global};

/// Returns the place in `columns`, a list of column indices, at which the column with the name
/// `name` stands. `columns` must contain such a column. `names` has the names of all columns of the
/// table.
fn place_named<N: ByteRows>(names: &N, columns: &[usize], name: &[u8]) -> usize
    requires within { All (λ c. c < length (N.strings names.now)) columns.now }
    requires place { HasPlace (N.strings names.now) columns.now name.now }
    ensures { IsPlace (N.strings names.now) columns.now name.now result }
{
    for p in 0..columns.len() {
        if names.bytes(columns[p]) == name {
            return p;
        }
    }
    unreachable!()
}

/// Returns for each name in `keys` the place in `columns`, a list of column indices, at which the
/// column with this name stands. `columns` must contain such a column for each key. `names` has the
/// names of all columns of the table.
pub(crate) fn key_places<N: ByteRows>(
    alloc: Global,
    names: &N,
    columns: &[usize],
    keys: &[&[u8]],
) -> Result<Vec<usize>, AllocError>
    requires within { All (λ c. c < length (N.strings names.now)) columns.now }
    requires places { All (HasPlace (N.strings names.now) columns.now) (names_of keys.now) }
    ensures { IfOk result
        (λ places. AreKeyPlaces (N.strings names.now) columns.now (names_of keys.now)
        places.items) }
{
    let mut places = Vec::new(alloc);
    for k in 0..keys.len() {
        let place = place_named(names, columns, keys[k]);
        places.push(place)?;
    }
    Ok(places)
}

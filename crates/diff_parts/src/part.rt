//! A part of a table.

ghost use Rattle.std.specs.Option.{SomeIff};
ghost use Rattle.std.specs.Prelude.{◌≡◌};
ghost use Rattle.diff_parts.specs.Parts.{IsPart, has_hash, in_part};

use diff_keys::hash::key_hash;
use std::marker::Model;

/// One of the `count` parts of a table, with the number `index` from 1 to `count`. It has the rows
/// whose key's hash (`key_hash`) leaves the remainder `index` when divided by `count`. The last
/// part has those with the remainder 0.
#[derive(Clone, Copy, Debug)]
pub struct Part {
    index: u64,
    count: u64,
}

impl Model for Part {
    ghost use Rattle.diff_parts.specs.Parts.{IsPart, PartNumber};

    ghost Value = { PartNumber };

    ghost view = { λ p. record { index = p.index; count = p.count } };

    ghost inverse = { λ p. record { index = p.index; count = p.count } };

    ghost invariant = { λ p. IsPart (record { index = p.index; count = p.count }) };
}

impl Part {
    /// Returns part `index` of `count` parts. Returns `None` if `index` is 0 or greater than
    /// `count`.
    pub fn new(index: u64, count: u64) -> Option<Part>
        ensures { SomeIff result (IsPart (record { index = index; count = count }))
            (record { index = index; count = count }) }
    {
        if index == 0 || count < index {
            return None;
        }
        Some(Part { index, count })
    }

    /// Returns whether rows whose key has this hash are in the part.
    #[inline(always)]
    pub(crate) fn has_hash(self, hash: u64) -> bool
        ensures { result ≡ has_hash self hash }
    {
        hash % self.count == self.index % self.count
    }

    /// Returns whether rows with the key `key` are in the part. `key` must be encoded like the keys
    /// that `keys_of` of `diff_tables` returns.
    pub fn has_key(self, key: &[u8]) -> bool
        ensures { result ≡ in_part self key.now }
    {
        self.has_hash(key_hash(key))
    }
}

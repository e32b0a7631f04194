//! A trait for the parts of schemas.

ghost use Rattle.std.specs.Prelude.{◌≡◌, ℕ, Bool, List};

/// A part of a schema: a column of a table, or a path of documents. It has a name.
pub trait SchemaPart {
    // The name of the part.
    ghost name_of: { Self → List ℕ };

    // Says whether the values of two parts have the same kinds.
    ghost same_kinds: { Self → Self → Bool };

    /// Returns the name of the part.
    fn name(&self) -> &[u8]
        ensures { result.now ≡ name_of self.now };

    /// Returns whether the values of this part and of `other` have the same kinds.
    fn has_kinds_of(&self, other: &Self) -> bool
        ensures { result ≡ same_kinds self.now other.now };
}

//! A trait for lists of byte strings.

ghost use Rattle.std.specs.Prelude.{◌≡◌, ◌<◌, ℕ, List, [], length, get_or};

/// A list of byte strings with access by index.
pub trait StringList {
    // The strings of the list, in order.
    ghost strings: { Self → List (List ℕ) };

    /// Returns the number of strings.
    fn count(&self) -> usize
        ensures { result ≡ length (strings self.now) };

    /// Returns string `i`.
    fn string(&self, i: usize) -> &[u8]
        requires { i < length (strings self.now) }
        ensures { result.now ≡ get_or (strings self.now) i [] };
}

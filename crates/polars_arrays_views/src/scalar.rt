//! A byte string that is compared with many rows.

ghost use Rattle.std.specs.Prelude.{◌≡◌, length};
ghost use Rattle.polars_arrays_views.specs.Views.{HoldsScalar};

use crate::view::View;
use std::marker::Model;

/// A byte string that is compared with many rows, and a view for it. The view of a string of at
/// most 12 bytes holds the whole string. The view of a longer one holds only the prefix.
#[derive(Drop)]
pub struct ScalarRow<'a> {
    bytes: &'a [u8],
    view: View,
}

impl<'a> Model for ScalarRow<'a> {
    ghost use Rattle.std.specs.Prelude.{List, ℕ};
    ghost use Rattle.polars_arrays_views.specs.Views.{HoldsScalar};

    ghost Value = { List ℕ };

    ghost view = { λ s. s.bytes.now };

    ghost invariant = { λ s. HoldsScalar s.view s.bytes.now };
}

impl<'a> ScalarRow<'a> {
    /// Prepares a byte string for comparisons with many rows.
    pub fn new(bytes: &'a [u8]) -> ScalarRow<'a>
        ensures { result ≡ bytes.now }
    {
        let view = scalar_view(bytes);
        ScalarRow { bytes, view }
    }

    /// Returns the number of bytes.
    #[inline(always)]
    pub fn len(&self) -> usize
        ensures { result ≡ length self.now }
    {
        self.bytes.len()
    }

    /// Returns the byte string.
    #[inline(always)]
    pub fn bytes(&self) -> &[u8]
        ensures { result.now ≡ self.now }
    {
        self.bytes
    }

    /// Returns the view. The view of a string of at most 12 bytes holds the whole string. The view
    /// of a longer one holds only the prefix.
    #[inline(always)]
    pub fn view(&self) -> &View
        ensures { HoldsScalar result.now self.now }
    {
        &self.view
    }
}

// Returns the view of a byte string of at most 12 bytes. For a longer one, returns a view that has
// its prefix and is 0 elsewhere.
fn scalar_view(bytes: &[u8]) -> View
    ensures { HoldsScalar result bytes.now }
{
    if bytes.len() <= 12 {
        return View::of_short(bytes);
    }
    let (a, b, c, d) = (bytes[0], bytes[1], bytes[2], bytes[3]);
    View::new([0, 0, 0, 0, a, b, c, d, 0, 0, 0, 0, 0, 0, 0, 0])
}

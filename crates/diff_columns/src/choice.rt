//! Selects the columns that are compared.

ghost use Rattle.std.specs.Prelude.{◌↔◌, Contains, IsTrue};
ghost use Rattle.diff_columns.specs.Choice.{IsChosen};
ghost use Rattle.diff_columns.specs.Names.{names_of};

/// The names that decide which columns are compared. Key columns are always compared. Any other
/// column is compared if `only` does not exclude it and `ignored` does not contain it.
#[derive(Clone, Copy)]
pub struct Choice<'a> {
    /// The names of the key columns.
    pub keys: &'a [&'a [u8]],
    /// The names of the columns to compare, besides the key columns. `None`: all columns.
    pub only: Option<&'a [&'a [u8]]>,
    /// The names of columns that are not compared, unless they are key columns.
    pub ignored: &'a [&'a [u8]],
}

/// Returns whether `names` contains `name`.
fn is_among(names: &[&[u8]], name: &[u8]) -> bool
    ensures { IsTrue result ↔ Contains (names_of names.now) name.now }
{
    names.contains(&name)
}

impl<'a> Choice<'a> {
    /// Returns whether a column with this name is compared if both tables have it.
    pub(crate) fn has(&self, name: &[u8]) -> bool
        ensures { IsTrue result ↔ IsChosen self.now name.now }
    {
        if is_among(self.keys, name) {
            return true;
        }
        if is_among(self.ignored, name) {
            return false;
        }
        match self.only {
            Some(only) => is_among(only, name),
            None => true,
        }
    }
}

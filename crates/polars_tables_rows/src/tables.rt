//! Tables in which values are looked up by name.

ghost use Rattle.std.specs.Prelude.{◌≡◌, map};
ghost use Rattle.std.specs.Str.{bytes_eq};
ghost use Rattle.polars_tables_rows.specs.Tables.{find};

/// Returns whether two texts are equal. Not inlined, so that a loop over texts, few of which have
/// the right length, can keep their addresses and lengths in registers.
#[inline(never)]
fn are_equal(left: &str, right: &str) -> bool
    ensures { result ≡ bytes_eq left.now right.now }
{
    left == right
}

/// Returns whether two texts are equal. Does not read texts of different lengths.
#[inline(always)]
#[tactic(auto, using(crate::proofs::Lengths::apart))]
pub(crate) fn is_same(left: &str, right: &str) -> bool
    ensures { result ≡ bytes_eq left.now right.now }
{
    left.len() == right.len() && are_equal(left, right)
}

/// Returns the value of the first entry of `table` that has the name `name`, or `None` if there is
/// no such entry.
pub fn find<T: Copy>(table: &[(&str, T)], name: &str) -> Option<T>
    ensures { result ≡ find (map (λ line. (line.0.now, line.1)) table.now) name.now }
{
    for line in table {
        if is_same(name, line.0) {
            return Some(line.1);
        }
    }
    None
}

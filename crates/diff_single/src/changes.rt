//! Compares two rows, and counts the columns in which they differ.

ghost use Rattle.std.specs.Prelude.{◌≡◌, ◌<◌, ◌-◌, ◌^◌, true, false, All, length};
ghost use Rattle.diff_report.specs.Counts.{AddsWhere};
ghost use Rattle.diff_report.specs.Pairs.{differ_at};

use diff_tables::string_list::StringList;

/// Returns whether the cells of two rows at index `column` differ. Both rows must have this cell.
fn differ_at<L: StringList, R: StringList>(left: &L, right: &R, column: usize) -> bool
    requires left { column < length (L.strings left.now) }
    requires right { column < length (R.strings right.now) }
    ensures { result ≡ differ_at (L.strings left.now) (R.strings right.now) column }
{
    left.string(column) != right.string(column)
}

/// Returns whether two rows differ in at least one column. Both must have equally many cells.
fn differ<L: StringList, R: StringList>(left: &L, right: &R) -> bool
    requires { length (L.strings left.now) ≡ length (R.strings right.now) }
    ensures same { result ≡ false → L.strings left.now ≡ R.strings right.now }
    ensures apart { result ≡ true → ¬ (L.strings left.now ≡ R.strings right.now) }
{
    for column in 0..left.count() {
        if differ_at(left, right, column) {
            return true;
        }
    }
    false
}

/// Adds 1 to the count of each column in which two rows differ. Both rows must have a cell for each
/// column, and `counts` must have a count less than `usize::MAX` for each column.
fn count_columns<L: StringList, R: StringList>(left: &L, right: &R, counts: &mut Vec<usize>)
    requires left { length (L.strings left.now) ≡ length counts.old.items }
    requires right { length (R.strings right.now) ≡ length counts.old.items }
    requires room { All (λ n. n < 2 ^ 64 - 1) counts.old.items }
    ensures { AddsWhere (differ_at (L.strings left.now) (R.strings right.now)) counts.old.items
        counts.new.items }
{
    for column in 0..counts.len() {
        counts[column] += usize::from(differ_at(left, right, column));
    }
}

/// Adds 1 to the count of each column in which two rows differ. Returns whether they differ in at
/// least one column. Both rows must have a cell for each column, and `counts` must have a count
/// less than `usize::MAX` for each column.
#[tactic(auto, using(crate::proofs::CountLemmas::none_more))]
pub fn count_changes<L: StringList, R: StringList>(
    left: &L,
    right: &R,
    counts: &mut Vec<usize>,
) -> bool
    requires left { length (L.strings left.now) ≡ length counts.old.items }
    requires right { length (R.strings right.now) ≡ length counts.old.items }
    requires room { All (λ n. n < 2 ^ 64 - 1) counts.old.items }
    ensures counts { AddsWhere (differ_at (L.strings left.now) (R.strings right.now))
        counts.old.items counts.new.items }
    ensures same { result ≡ false → L.strings left.now ≡ R.strings right.now }
    ensures apart { result ≡ true → ¬ (L.strings left.now ≡ R.strings right.now) }
{
    if !differ(left, right) {
        return false;
    }
    count_columns(left, right, counts);
    true
}

//! Tolerances for the numbers of a column.

ghost use Rattle.std.specs.Prelude.{◌≡◌, false, MatchOption};
ghost use Rattle.json_decimals.specs.Decimals.{decimal_of};
ghost use Rattle.json_decimals.specs.Texts.{HasWideExponent};
ghost use Rattle.json_tolerances.specs.Closeness.{is_close};
ghost use Rattle.diff_tolerances.specs.Cells.{IsNarrowNumeral, allows, are_close, cell_by};
ghost use Rattle.diff_tolerances.specs.Cells.{is_narrow_number, is_tolerated};

use diff_numbers::cells::number_in;
use json_decimals::numbers::numeral_of;
use json_decimals::tens::tens_of;
use json_tolerances::closeness::Margin;

/// A tolerance: the name of a column, and the margin by which its numbers may differ.
#[derive(Drop)]
pub struct Tolerance<'a> {
    /// The name of the column.
    pub column: &'a [u8],
    /// The margin by which two numbers may differ.
    pub margin: Margin,
}

/// Returns a cell as text if it is a number with an exponent of at most 30 digits, leading zeros
/// not counted. Returns `None` for any other cell.
fn narrow_number(cell: &[u8]) -> Option<&str>
    ensures { MatchOption result (is_narrow_number cell.now ≡ false)
        (λ text. IsNarrowNumeral cell.now text.now) }
{
    let text = number_in(cell)?;
    match tens_of(&numeral_of(text.as_bytes())) {
        Some(_) => Some(text),
        None => None,
    }
}

/// Returns whether two numbers differ by no more than the margin allows. The exponents of both must
/// have at most 30 digits.
fn is_within(margin: &Margin, left: &str, right: &str) -> bool
    requires left { ¬ HasWideExponent left.now }
    requires right { ¬ HasWideExponent right.now }
    ensures { result ≡ is_close margin.now (decimal_of left.now) (decimal_of right.now) }
{
    match margin.allows(left, right) {
        Ok(is_close) => is_close,
        Err(_) => unreachable!(),
    }
}

/// Returns whether two cells are numbers that differ by no more than the margin allows. Returns
/// `false` if a cell is not a number, or is a number with an exponent of more than 30 digits.
fn are_close(margin: &Margin, left: &[u8], right: &[u8]) -> bool
    ensures { result ≡ are_close margin.now left.now right.now }
{
    let Some(left) = narrow_number(left) else {
        return false;
    };
    let Some(right) = narrow_number(right) else {
        return false;
    };
    is_within(margin, left, right)
}

impl<'a> Tolerance<'a> {
    /// Returns whether this tolerance is for the column named `column`, and the cells `left` and
    /// `right` are numbers that differ by no more than the margin allows. Returns `false` if a cell
    /// is not a number, or is a number with an exponent of more than 30 digits.
    fn allows(&self, column: &[u8], left: &[u8], right: &[u8]) -> bool
        ensures { result ≡ allows self.now column.now left.now right.now }
    {
        self.column == column && are_close(&self.margin, left, right)
    }
}

/// Returns whether at least one of the tolerances allows the cells `left` and `right` to differ.
/// `column` is the name of the column of both cells.
fn is_tolerated(tolerances: &[Tolerance<'_>], column: &[u8], left: &[u8], right: &[u8]) -> bool
    ensures { result ≡ is_tolerated tolerances.now column.now left.now right.now }
{
    let Some((tolerance, rest)) = tolerances.split_first() else {
        return false;
    };
    tolerance.allows(column, left, right) || is_tolerated(rest, column, left, right)
}

/// Returns the cell to compare in place of `right`: `left` if a tolerance allows the two to differ,
/// so that they count as equal, and else `right`. `column` is the name of the column of both cells.
pub(crate) fn cell_by<'a>(
    tolerances: &[Tolerance<'_>],
    column: &[u8],
    left: &'a [u8],
    right: &'a [u8],
) -> &'a [u8]
    ensures { result.now ≡ cell_by tolerances.now column.now left.now right.now }
{
    if left != right && is_tolerated(tolerances, column, left, right) {
        return left;
    }
    right
}

//! Matches the rows of two sorted texts by key.

ghost use Rattle.std.specs.Prelude.{◌≡◌, [], ℕ, suc, ⊤, List, MatchResult};
ghost use Rattle.diff_columns.specs.declared.error.Side.TheVariants.{Left, Right};
ghost use Rattle.diff_csv.specs.declared.options.CsvOptions.{CsvOptions};
ghost use Rattle.diff_merge.specs.Cursors.{IsAt};
ghost use Rattle.diff_merge.specs.Merging.{IsMergeFault};
ghost use Rattle.diff_merge.specs.Pairings.{IsPairingOf, ListsSame};

use crate::cursor::Cursor;
use crate::error::MergeError;
use crate::merge::merge;
use crate::row::Row;
use crate::sink::Sink;
use std::alloc::{AllocError, Global};
use std::io::Read;

/// The result of matching two texts. Row `left_rows[k]` of the left text and row `right_rows[k]` of
/// the right text are partners. Rows are numbered from 0.
#[derive(Drop)]
pub struct Pairing {
    /// The left rows that have a partner, in ascending order.
    pub left_rows: Vec<u64>,
    /// For each entry of `left_rows`, its partner in the right text.
    pub right_rows: Vec<u64>,
    /// The left rows without a partner, in ascending order.
    pub removed: Vec<u64>,
    /// The right rows without a partner, in ascending order.
    pub added: Vec<u64>,
}

/// Returns the number of a row, counted from 0. `Row::number` counts from 1.
fn place(row: &Row<'_>) -> u64
    ensures { (n : ℕ) → row.now.number ≡ suc n → result ≡ n }
{
    row.number.saturating_sub(1)
}

impl Sink for Pairing {
    ghost holds = { λ pairing left_rows right_rows m. ListsSame pairing m };

    ghost keeps = { λ a b. ⊤ };

    ghost keeps_self = { λ a. tt };

    ghost keeps_on = { λ a b c first second. tt };

    fn pair(&mut self, left: &Row<'_>, right: &Row<'_>) -> Result<(), AllocError> {
        self.left_rows.push(place(left))?;
        self.right_rows.push(place(right))?;
        Ok(())
    }

    fn removed(&mut self, row: &Row<'_>) -> Result<(), AllocError> {
        self.removed.push(place(row))?;
        Ok(())
    }

    fn added(&mut self, row: &Row<'_>) -> Result<(), AllocError> {
        self.added.push(place(row))?;
        Ok(())
    }
}

/// Matches the rows of two sorted texts by key, from their next rows (`Cursor::row`) to their ends.
/// The side of `left` must be `Side::Left`, and that of `right` must be `Side::Right`. Fails as
/// `merge` does.
pub fn match_sorted<L: Read + Drop, R: Read + Drop>(
    alloc: Global,
    left: &mut Cursor<'_, L>,
    right: &mut Cursor<'_, R>,
) -> Result<Pairing, MergeError>
    requires left_side { left.old.side ≡ Left }
    requires right_side { right.old.side ≡ Right }
    ensures { MatchResult result
        (λ pairing. (options : CsvOptions) (left_text right_text : List ℕ)
        → IsAt L.remaining options left_text [] left.old
        → IsAt R.remaining options right_text [] right.old
        → IsPairingOf options left_text right_text left.old right.old pairing)
        (λ error. (options : CsvOptions) (left_text right_text : List ℕ)
        → IsAt L.remaining options left_text [] left.old
        → IsAt R.remaining options right_text [] right.old
        → IsMergeFault options left_text right_text left.old right.old error) }
{
    let mut pairing = Pairing {
        left_rows: Vec::new(alloc),
        right_rows: Vec::new(alloc),
        removed: Vec::new(alloc),
        added: Vec::new(alloc),
    };
    merge(left, right, &mut pairing)?;
    Ok(pairing)
}

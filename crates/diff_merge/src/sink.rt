//! Receives the rows of a merge.

ghost use Rattle.std.specs.Prelude.{[], ◌∷◌, ◌++◌, List, length, OnOk};
ghost use Rattle.diff_joins.specs.More.{HasAdded, HasPair, HasRemoved};
ghost use Rattle.diff_keys.specs.declared.matching.Matching.{Matching};
ghost use Rattle.diff_merge.specs.Rows.{IsNext, Seen, seen_of};

use crate::row::Row;
use std::alloc::AllocError;

/// A receiver of the rows that a merge reads. Two partners are passed in one call, and each row
/// without a partner in a call of its own. The rows come in the order of their keys. If a call
/// returns an error, the merge ends and fails with `MergeError::Memory`.
pub trait Sink {
    // Says that this receiver got these left and right rows, matched in this way.
    ghost holds: { Self → List Seen → List Seen → Matching → Type 0 };

    // Relates a receiver to its later state: the parts that no call changes, such as options, are
    // equal.
    ghost keeps: { Self → Self → Type 0 };

    // `keeps` is reflexive and transitive, so it holds from the first call to the last.
    ghost keeps_self: { (a : Self) → keeps a a };

    ghost keeps_on: { (a b c : Self) → keeps a b → keeps b c → keeps a c };

    /// Receives the next row of each text. The two rows are partners.
    fn pair(&mut self, left: &Row<'_>, right: &Row<'_>) -> Result<(), AllocError>
        ensures told { OnOk result
            ((left_rows right_rows : List Seen) (before after : Matching)
            → IsNext left_rows left.now → IsNext right_rows right.now
            → holds self.old left_rows right_rows before
            → HasPair (length left_rows) (length right_rows) before after
            → holds self.new (left_rows ++ seen_of left.now ∷ [])
            (right_rows ++ seen_of right.now ∷ []) after) }
        ensures kept { OnOk result (keeps self.old self.new) };

    /// Receives the next left row, which has no partner.
    fn removed(&mut self, row: &Row<'_>) -> Result<(), AllocError>
        ensures told { OnOk result
            ((left_rows right_rows : List Seen) (before after : Matching) → IsNext left_rows row.now
            → holds self.old left_rows right_rows before
            → HasRemoved (length left_rows) before after
            → holds self.new (left_rows ++ seen_of row.now ∷ []) right_rows after) }
        ensures kept { OnOk result (keeps self.old self.new) };

    /// Receives the next right row, which has no partner.
    fn added(&mut self, row: &Row<'_>) -> Result<(), AllocError>
        ensures told { OnOk result
            ((left_rows right_rows : List Seen) (before after : Matching)
            → IsNext right_rows row.now
            → holds self.old left_rows right_rows before → HasAdded (length right_rows) before after
            → holds self.new left_rows (right_rows ++ seen_of row.now ∷ []) after) }
        ensures kept { OnOk result (keeps self.old self.new) };
}

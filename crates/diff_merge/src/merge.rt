//! Merges two sorted texts.

ghost use Rattle.std.specs.Prelude.{◌≡◌, ◌+◌, ◌<◌, ◌^◌, [], ℕ, false, List, MatchResult, IfOk};
ghost use Rattle.std.specs.Prelude.{OnOk, None, Some};
ghost use Rattle.diff_columns.specs.declared.error.Side.TheVariants.{Left, Right};
ghost use Rattle.diff_csv.specs.declared.options.CsvOptions.{CsvOptions};
ghost use Rattle.diff_joins.specs.Merge.{ComesBefore};
ghost use Rattle.diff_keys.specs.declared.matching.Matching.{Matching};
ghost use Rattle.diff_merge.specs.Cursors.{IsAlike, IsAt, next_key};
ghost use Rattle.diff_merge.specs.Merging.{IsEmpty, IsMergeAt, IsMergeFault, IsMergeOf, IsStep};
ghost use Rattle.diff_merge.specs.Order.{key_less};

use crate::cursor::Cursor;
use crate::error::MergeError;
use crate::sink::Sink;
use std::cmp::Ordering;
use std::io::Read;

/// The greatest number of steps of a merge. No machine reads this many rows.
const MOST_STEPS: usize = 1 << 62;

/// The kind of the next step of a merge.
#[derive(Clone, Copy)]
pub(crate) enum Step {
    /// The next rows of both texts have the same key, and are taken as partners.
    Pair,
    /// The next left row has no partner, and is taken alone.
    Removed,
    /// The next right row has no partner, and is taken alone.
    Added,
    /// Both texts have no more rows.
    End,
}

/// Returns the kind of the next step: the row with the lesser of the two next keys is taken, or
/// both rows if the keys are equal. If one text has no more rows, the next row of the other is
/// taken.
fn next_step<L: Read + Drop, R: Read + Drop>(left: &Cursor<'_, L>, right: &Cursor<'_, R>) -> Step
    ensures { IsStep (next_key left.now) (next_key right.now) result }
{
    match (left.line, right.line) {
        (None, None) => Step::End,
        (Some(_), None) => Step::Removed,
        (None, Some(_)) => Step::Added,
        (Some(_), Some(_)) => match left.key.as_slice().cmp(right.key.as_slice()) {
            Ordering::Less => Step::Removed,
            Ordering::Equal => Step::Pair,
            Ordering::Greater => Step::Added,
        },
    }
}

/// Passes the next rows of both texts to the sink as partners, and advances both texts. The two
/// rows must have the same key. Fails as `merge` does.
fn take_pair<L: Read + Drop, R: Read + Drop, S: Sink>(
    left: &mut Cursor<'_, L>,
    right: &mut Cursor<'_, R>,
    sink: &mut S,
) -> Result<(), MergeError>
    requires one_key { (key : List ℕ) × (next_key left.old ≡ Some key)
        × (next_key right.old ≡ Some key) }
    requires left_side { left.old.side ≡ Left }
    requires right_side { right.old.side ≡ Right }
    ensures step { MatchResult result
        (λ _. (options : CsvOptions) (left_text right_text : List ℕ) (n : ℕ) → n < 2 ^ 62
        → IsMergeAt L.remaining R.remaining S.holds options left_text right_text n left.old
        right.old sink.old
        → IsMergeAt L.remaining R.remaining S.holds options left_text right_text (n + 1) left.new
        right.new sink.new)
        (λ error. (options : CsvOptions) (left_text right_text : List ℕ) (n : ℕ)
        → IsMergeAt L.remaining R.remaining S.holds options left_text right_text n left.old
        right.old sink.old
        → IsMergeFault options left_text right_text left.old right.old error) }
    ensures kept { OnOk result (S.keeps sink.old sink.new) }
    ensures left_alike { OnOk result (IsAlike left.old left.new) }
    ensures right_alike { OnOk result (IsAlike right.old right.new) }
{
    let left_row = left.row();
    let right_row = right.row();
    sink.pair(&left_row, &right_row)?;
    left.advance()?;
    right.advance()?;
    Ok(())
}

/// Passes the next left row to the sink as a row without a partner, and advances the left text. The
/// key of this row must be less than that of the next right row, if there is one. Fails as `merge`
/// does.
fn take_removed<L: Read + Drop, R: Read + Drop, S: Sink>(
    left: &mut Cursor<'_, L>,
    right: &Cursor<'_, R>,
    sink: &mut S,
) -> Result<(), MergeError>
    requires lesser { (key : List ℕ) × (next_key left.old ≡ Some key)
        × ComesBefore key_less key (next_key right.now) }
    requires left_side { left.old.side ≡ Left }
    ensures step { MatchResult result
        (λ _. (options : CsvOptions) (left_text right_text : List ℕ) (n : ℕ) → n < 2 ^ 62
        → IsMergeAt L.remaining R.remaining S.holds options left_text right_text n left.old
        right.now sink.old
        → IsMergeAt L.remaining R.remaining S.holds options left_text right_text (n + 1) left.new
        right.now sink.new)
        (λ error. (options : CsvOptions) (left_text right_text : List ℕ) (n : ℕ)
        → IsMergeAt L.remaining R.remaining S.holds options left_text right_text n left.old
        right.now sink.old
        → IsMergeFault options left_text right_text left.old right.now error) }
    ensures kept { OnOk result (S.keeps sink.old sink.new) }
    ensures left_alike { OnOk result (IsAlike left.old left.new) }
{
    let row = left.row();
    sink.removed(&row)?;
    left.advance()?;
    Ok(())
}

/// Passes the next right row to the sink as a row without a partner, and advances the right text.
/// The key of this row must be less than that of the next left row, if there is one. Fails as
/// `merge` does.
fn take_added<L: Read + Drop, R: Read + Drop, S: Sink>(
    left: &Cursor<'_, L>,
    right: &mut Cursor<'_, R>,
    sink: &mut S,
) -> Result<(), MergeError>
    requires lesser { (key : List ℕ) × (next_key right.old ≡ Some key)
        × ComesBefore key_less key (next_key left.now) }
    requires right_side { right.old.side ≡ Right }
    ensures step { MatchResult result
        (λ _. (options : CsvOptions) (left_text right_text : List ℕ) (n : ℕ) → n < 2 ^ 62
        → IsMergeAt L.remaining R.remaining S.holds options left_text right_text n left.now
        right.old sink.old
        → IsMergeAt L.remaining R.remaining S.holds options left_text right_text (n + 1) left.now
        right.new sink.new)
        (λ error. (options : CsvOptions) (left_text right_text : List ℕ) (n : ℕ)
        → IsMergeAt L.remaining R.remaining S.holds options left_text right_text n left.now
        right.old sink.old
        → IsMergeFault options left_text right_text left.now right.old error) }
    ensures kept { OnOk result (S.keeps sink.old sink.new) }
    ensures right_alike { OnOk result (IsAlike right.old right.new) }
{
    let row = right.row();
    sink.added(&row)?;
    right.advance()?;
    Ok(())
}

/// Takes one step: passes the next row, or the next two partners, to the sink, and returns `true`.
/// Returns `false` if both texts have no more rows. Fails as `merge` does.
fn take_step<L: Read + Drop, R: Read + Drop, S: Sink>(
    left: &mut Cursor<'_, L>,
    right: &mut Cursor<'_, R>,
    sink: &mut S,
) -> Result<bool, MergeError>
    requires left_side { left.old.side ≡ Left }
    requires right_side { right.old.side ≡ Right }
    ensures step { MatchResult result
        (λ _. (options : CsvOptions) (left_text right_text : List ℕ) (n : ℕ) → n < 2 ^ 62
        → IsMergeAt L.remaining R.remaining S.holds options left_text right_text n left.old
        right.old sink.old
        → IsMergeAt L.remaining R.remaining S.holds options left_text right_text (n + 1) left.new
        right.new sink.new)
        (λ error. (options : CsvOptions) (left_text right_text : List ℕ) (n : ℕ)
        → IsMergeAt L.remaining R.remaining S.holds options left_text right_text n left.old
        right.old sink.old
        → IsMergeFault options left_text right_text left.old right.old error) }
    ensures kept { OnOk result (S.keeps sink.old sink.new) }
    ensures left_alike { OnOk result (IsAlike left.old left.new) }
    ensures right_alike { OnOk result (IsAlike right.old right.new) }
    ensures end { IfOk result
        (λ more. more ≡ false → (next_key left.new ≡ None) × (next_key right.new ≡ None)) }
{
    match next_step(left, right) {
        Step::Pair => {
            take_pair(left, right, sink)?;
            Ok(true)
        }
        Step::Removed => {
            take_removed(left, right, sink)?;
            Ok(true)
        }
        Step::Added => {
            take_added(left, right, sink)?;
            Ok(true)
        }
        Step::End => Ok(false),
    }
}

/// Merges two texts from their next rows (`Cursor::row`) to their ends, and passes all these rows
/// to the sink. The side of `left` must be `Side::Left`, and that of `right` must be `Side::Right`.
///
/// Fails with `Falls` if a key is less than the key before it, and with `KeyTwice` if two keys are
/// equal but must be unique. Fails with `Csv` if a text can't be read, even if the reason is a
/// failed allocation. Fails with `Memory` if any other allocation fails, or if the sink returns an
/// error. After an error the sink may have received some rows.
pub fn merge<L: Read + Drop, R: Read + Drop, S: Sink>(
    left: &mut Cursor<'_, L>,
    right: &mut Cursor<'_, R>,
    sink: &mut S,
) -> Result<(), MergeError>
    requires left_side { left.old.side ≡ Left }
    requires right_side { right.old.side ≡ Right }
    ensures merged { MatchResult result
        (λ _. (options : CsvOptions) (left_text right_text : List ℕ)
        → IsAt L.remaining options left_text [] left.old
        → IsAt R.remaining options right_text [] right.old
        → ((m : Matching) → IsEmpty m → S.holds sink.old [] [] m)
        → IsMergeOf S.holds options left_text right_text left.old right.old sink.new)
        (λ error. (options : CsvOptions) (left_text right_text : List ℕ)
        → IsAt L.remaining options left_text [] left.old
        → IsAt R.remaining options right_text [] right.old
        → ((m : Matching) → IsEmpty m → S.holds sink.old [] [] m)
        → IsMergeFault options left_text right_text left.old right.old error) }
    ensures kept { OnOk result (S.keeps sink.old sink.new) }
{
    for number in 0..MOST_STEPS {
        if !take_step(left, right, sink)? {
            return Ok(());
        }
    }
    // No machine takes this many steps.
    Err(MergeError::Memory)
}

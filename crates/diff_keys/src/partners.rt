//! Finds the partner of each left row.

ghost use Rattle.std.specs.Prelude.{◌≡◌, ◌<◌, ◌≤◌, ◌^◌, ℕ, All, length, map, vec_len, get_or, None};
ghost use Rattle.std.specs.Prelude.{IfOk, IfSome};
ghost use Rattle.diff_keys.specs.Chains.{AreWaiting};
ghost use Rattle.diff_keys.specs.Found.{AreClasses, AreGuesses, AreRows, HaveFound};
ghost use Rattle.diff_keys.specs.Partners.{HasKey, IsPartner};

use crate::blocks::block_end;
use crate::waiting::{Waiting, all_waiting, class_of};
use polars_arrays_flat::byte_rows::ByteRows;
use std::alloc::{AllocError, Global};

/// Returns, for each left row in `start..end`, the class of its key (see `class_of`). `left` has
/// the key of each left row, and `count` is the number of classes.
fn classes_for<L: ByteRows>(
    alloc: Global,
    left: &L,
    start: usize,
    end: usize,
    count: usize,
) -> Result<Vec<usize>, AllocError>
    requires some { 0 < count }
    requires rise { start ≤ end }
    requires within { end ≤ length (L.strings left.now) }
    ensures { IfOk result
        (λ classes. AreClasses (L.strings left.now) count start end classes.items) }
{
    let mut classes = Vec::with_capacity(alloc, end - start)?;
    for i in start..end {
        classes.push(class_of(left.bytes(i), count))?;
    }
    Ok(classes)
}

/// Returns for each of `classes` the first right row without a partner whose key has this class
/// (see `class_of`), or `None` if there is no such row.
fn heads_of(
    alloc: Global,
    classes: &[usize],
    waiting: &Waiting,
) -> Result<Vec<Option<u32>>, AllocError>
    requires { All (λ c. c < length waiting.now.heads.items) classes.now }
    ensures { IfOk result
        (λ rows. rows.items ≡ map (λ c. get_or waiting.now.heads.items c None) classes.now) }
{
    let mut rows = Vec::with_capacity(alloc, classes.len())?;
    for k in 0..classes.len() {
        rows.push(waiting.head(classes[k]))?;
    }
    Ok(rows)
}

/// Returns `row` if the row with this number has the key `key`. Returns `None` if that row has
/// another key, or if `row` is `None`. `keys` has the key of each row.
#[inline(always)]
fn row_of_key<R: ByteRows>(keys: &R, row: Option<u32>, key: &[u8]) -> Option<u32>
    requires { IfSome row (λ j. j < length (R.strings keys.now)) }
    ensures { IfSome result (HasKey (R.strings keys.now) key.now) }
{
    let j = row?;
    if keys.bytes(j as usize) == key {
        return Some(j);
    }
    None
}

/// Returns for each left row `i` in `start..end` the right row `rows[i - start]` if both have the
/// same key, and else `None`. `left` and `right` have the keys of the rows.
fn guesses_for<L: ByteRows, R: ByteRows>(
    alloc: Global,
    left: &L,
    start: usize,
    end: usize,
    right: &R,
    rows: &[Option<u32>],
) -> Result<Vec<Option<u32>>, AllocError>
    requires rows { AreRows (R.strings right.now) start end rows.now }
    requires rise { start ≤ end }
    requires within { end ≤ length (L.strings left.now) }
    ensures { IfOk result
        (λ guesses. AreGuesses (L.strings left.now) (R.strings right.now) start end guesses.items) }
{
    let mut guesses = Vec::with_capacity(alloc, end - start)?;
    for i in start..end {
        guesses.push(row_of_key(right, rows[i - start], left.bytes(i)))?;
    }
    Ok(guesses)
}

/// Appends to `found`, for each left row in `start..end`, its partner, or `None` if it has no
/// partner. Removes these partners from `waiting`. For left row `i`, `classes[i - start]` is the
/// class of its key, and `guesses[i - start]` is a right row that is known to have the same key, or
/// `None`. `left` and `right` have the keys of the rows.
fn push_partners<L: ByteRows, R: ByteRows>(
    found: &mut Vec<Option<u32>>,
    left: &L,
    start: usize,
    end: usize,
    right: &R,
    waiting: &mut Waiting,
    classes: &[usize],
    guesses: &[Option<u32>],
) -> Result<(), AllocError>
    requires found { HaveFound (L.strings left.now) (R.strings right.now) start waiting.old
        found.old.items }
    requires rise { start ≤ end }
    requires within { end ≤ length (L.strings left.now) }
    requires classes { AreClasses (L.strings left.now) (length waiting.old.heads.items) start end
        classes.now }
    requires guesses { AreGuesses (L.strings left.now) (R.strings right.now) start end guesses.now }
    ensures { IfOk result
        (λ _. HaveFound (L.strings left.now) (R.strings right.now) end waiting.new
        found.new.items) }
{
    for i in start..end {
        let (class, guess) = (classes[i - start], guesses[i - start]);
        found.push(waiting.take(right, left.bytes(i), class, guess))?;
    }
    Ok(())
}

/// Appends to `found`, for each left row in `start..end`, its partner, or `None` if it has no
/// partner. Removes these partners from `waiting`. `left` and `right` have the keys of the rows.
/// First reads, for all of these left rows, the right rows to compare with. These reads don't
/// depend on each other, so the processor can wait for many of them at once.
fn push_block<L: ByteRows, R: ByteRows>(
    alloc: Global,
    found: &mut Vec<Option<u32>>,
    left: &L,
    start: usize,
    end: usize,
    right: &R,
    waiting: &mut Waiting,
) -> Result<(), AllocError>
    requires found { HaveFound (L.strings left.now) (R.strings right.now) start waiting.old
        found.old.items }
    requires rise { start ≤ end }
    requires within { end ≤ length (L.strings left.now) }
    ensures { IfOk result
        (λ _. HaveFound (L.strings left.now) (R.strings right.now) end waiting.new
        found.new.items) }
{
    let classes = classes_for(alloc, left, start, end, waiting.heads.len())?;
    let rows = heads_of(alloc, &classes, waiting)?;
    let guesses = guesses_for(alloc, left, start, end, right, &rows)?;
    push_partners(found, left, start, end, right, waiting, &classes, &guesses)
}

/// Appends to `found`, for each left row, its partner, or `None` if it has no partner. Removes
/// these partners from `waiting`. `left` and `right` have the keys of the rows, which are processed
/// block by block.
fn push_all<L: ByteRows, R: ByteRows>(
    alloc: Global,
    found: &mut Vec<Option<u32>>,
    left: &L,
    right: &R,
    waiting: &mut Waiting,
) -> Result<(), AllocError>
    requires { HaveFound (L.strings left.now) (R.strings right.now) 0 waiting.old found.old.items }
    ensures { IfOk result
        (λ _. HaveFound (L.strings left.now) (R.strings right.now) (length (L.strings left.now))
        waiting.new found.new.items) }
{
    let mut start = 0;
    while start < left.count() {
        let end = block_end(start, left.count());
        push_block(alloc, found, left, start, end, right, waiting)?;
        start = end;
    }
    Ok(())
}

/// Returns for each left row its partner, as the number of a right row, or `None` if it has no
/// partner. `left` and `right` are arrays with the key of each row.
pub(crate) fn partners<L: ByteRows, R: ByteRows>(
    alloc: Global,
    left: &L,
    right: &R,
) -> Result<Vec<Option<u32>>, AllocError>
    requires { length (R.strings right.now) ≤ 2 ^ 32 }
    ensures one_each { IfOk result (λ found. vec_len found ≡ length (L.strings left.now)) }
    ensures partners { IfOk result
        (λ found. (i : ℕ) → i < length (L.strings left.now)
        → IsPartner (L.strings left.now) (R.strings right.now) i (get_or found.items i None)) }
{
    let mut waiting = all_waiting(alloc, right)?;
    let mut found = Vec::with_capacity(alloc, left.count())?;
    push_all(alloc, &mut found, left, right, &mut waiting)?;
    Ok(found)
}

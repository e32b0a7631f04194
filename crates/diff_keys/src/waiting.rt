//! The right rows that still have no partner.

ghost use Rattle.std.specs.Prelude.{◌≡◌, ◌≢◌, ◌<◌, ◌≤◌, ◌^◌, ℕ, Some, None, get_or, length, IfOk};
ghost use Rattle.std.specs.Prelude.{IfSome};
ghost use Rattle.diff_keys.specs.Chains.{AreChained, AreWaiting, HasTaken, class_of};
ghost use Rattle.diff_keys.specs.Partners.{HasKey, Keys, key_at};

use crate::hash::key_hash;
use polars_arrays_flat::byte_rows::ByteRows;
use std::alloc::{AllocError, Global};

/// The right rows that still have no partner. The rows are divided into classes by the hashes of
/// their keys. The rows of a class form a linked list, in ascending order.
#[derive(Drop)]
pub(crate) struct Waiting {
    // The first row of each class, or `None` if the class has no rows.
    pub(crate) heads: Vec<Option<u32>>,
    // For each row in a list, the next row of the list, or `None` if it is the last one.
    pub(crate) next: Vec<Option<u32>>,
}

/// The number of classes per row of the right table. With 4, few rows with different keys share a
/// class. One more class is added, so that there is at least one.
const CLASSES: usize = 4;

/// Returns the class of a key: its hash modulo `count`, the number of classes.
#[inline(always)]
pub(crate) fn class_of(key: &[u8], count: usize) -> usize
    requires { 0 < count }
    ensures { result ≡ class_of count key.now }
{
    (key_hash(key) % count as u64) as usize
}

/// Returns the lists of all right rows, none of which has a partner yet. `keys` has the key of each
/// right row.
pub(crate) fn all_waiting<R: ByteRows>(alloc: Global, keys: &R) -> Result<Waiting, AllocError>
    requires { length (R.strings keys.now) ≤ 2 ^ 32 }
    ensures { IfOk result
        (λ rows. AreChained (R.strings keys.now) (λ x. 0 ≤ x) rows.heads.items rows.next.items) }
{
    let count = keys.count();
    let classes = count.saturating_mul(CLASSES).saturating_add(1);
    let mut heads: Vec<Option<u32>> = vec![in alloc; None; classes]?;
    let mut next: Vec<Option<u32>> = vec![in alloc; None; count]?;
    let mut j = count;
    while j > 0 {
        j -= 1;
        let class = class_of(keys.bytes(j), heads.len());
        next[j] = heads[class];
        heads[class] = Some(j as u32);
    }
    Ok(Waiting { heads, next })
}

impl Waiting {
    /// Returns the first row of a class, or `None` if the class has no rows.
    #[inline(always)]
    pub(crate) fn head(&self, class: usize) -> Option<u32>
        requires { class < length self.now.heads.items }
        ensures { result ≡ get_or self.now.heads.items class None }
    {
        self.heads[class]
    }

    /// Removes the first waiting row with the key `key`, and returns it. Returns `None` if no
    /// waiting row has this key. `keys` has the key of each right row, and `class` is the class of
    /// `key`. `guess` is a right row that is known to have the key `key`, or `None`; it may already
    /// have a partner. If `guess` is the first row of the class, no keys are compared.
    #[inline(always)]
    pub(crate) fn take<R: ByteRows>(
        &mut self,
        keys: &R,
        key: &[u8],
        class: usize,
        guess: Option<u32>,
    ) -> Option<u32>
        requires waiting { (left : Keys) × (i : ℕ)
            × AreWaiting left (R.strings keys.now) i self.old }
        requires class { class ≡ class_of (length self.old.heads.items) key.now }
        requires guess { IfSome guess (HasKey (R.strings keys.now) key.now) }
        ensures taken { (left : Keys) (i : ℕ) → i < length left → key_at left i ≡ key.now
            → AreWaiting left (R.strings keys.now) i self.old
            → HasTaken left (R.strings keys.now) i result self.new }
        ensures classes { length self.new.heads.items ≡ length self.old.heads.items }
    {
        let head = self.heads[class]?;
        if guess == Some(head) || keys.bytes(head as usize) == key {
            self.heads[class] = self.next[head as usize];
            return Some(head);
        }
        self.take_behind(keys, key, head)
    }

    /// Removes the first row after `head` that has the key `key`, and returns it. Returns `None` if
    /// there is no such row in the list of `head`. `head` is the first row of the class of `key`,
    /// and has another key. `keys` has the key of each right row.
    #[inline(never)]
    fn take_behind<R: ByteRows>(&mut self, keys: &R, key: &[u8], head: u32) -> Option<u32>
        requires waiting { (left : Keys) × (i : ℕ)
            × AreWaiting left (R.strings keys.now) i self.old }
        requires some { 0 < length self.old.heads.items }
        requires head { get_or self.old.heads.items (class_of (length self.old.heads.items) key.now)
            None ≡ Some head }
        requires other { key_at (R.strings keys.now) head ≢ key.now }
        ensures taken { (left : Keys) (i : ℕ) → i < length left → key_at left i ≡ key.now
            → AreWaiting left (R.strings keys.now) i self.old
            → HasTaken left (R.strings keys.now) i result self.new }
        ensures classes { self.new.heads ≡ self.old.heads }
    {
        let mut before = head as usize;
        while let Some(row) = self.next[before] {
            if keys.bytes(row as usize) == key {
                self.next[before] = self.next[row as usize];
                return Some(row);
            }
            before = row as usize;
        }
        None
    }
}

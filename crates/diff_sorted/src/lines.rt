//! Collects the lines of the first differences of a kind.

ghost use Rattle.std.specs.List.{concat};
ghost use Rattle.std.specs.Prelude.{◌≡◌, ◌≤◌, [], ℕ, List, take, OnOk};
ghost use Rattle.diff_sorted.specs.Lines.{HasLines, IsClosed, IsPassed};

use std::alloc::{AllocError, Global};

/// The lines of the first differences of one kind (changed, removed or added), and the number of
/// all differences of this kind.
#[derive(Drop)]
pub struct Lines {
    /// The lines, one after another.
    pub(crate) text: Vec<u8>,
    /// For each line the offset in `text` at which it ends.
    pub(crate) ends: Vec<usize>,
    /// The number of all differences, including those without a line.
    pub(crate) count: usize,
}

impl Lines {
    /// Creates a collection without lines, with the count 0.
    pub fn new(alloc: Global) -> Lines
        ensures { (limit : ℕ) → HasLines limit [] result }
    {
        Lines {
            text: Vec::new(alloc),
            ends: Vec::new(alloc),
            count: 0,
        }
    }

    /// Counts one more difference, without adding a line. Fails if the count overflows.
    pub(crate) fn pass(&mut self) -> Result<(), AllocError>
        ensures { OnOk result (IsPassed self.old self.new) }
    {
        let Some(count) = self.count.checked_add(1) else {
            return Err(AllocError);
        };
        self.count = count;
        Ok(())
    }

    /// Counts one more difference, whose line was just appended to `text`. Fails if the count
    /// overflows or an allocation fails.
    pub(crate) fn close(&mut self) -> Result<(), AllocError>
        ensures { OnOk result (IsClosed self.old self.new) }
    {
        let end = self.text.len();
        self.ends.push(end)?;
        self.pass()?;
        Ok(())
    }

    /// Returns the first `room` lines, or all if there are fewer. `room` must be at most the
    /// `limit` with which the lines were collected (see `tell_changed`).
    pub fn first(&self, room: usize) -> &[u8]
        ensures { (limit : ℕ) (all : List (List ℕ)) → room ≤ limit → HasLines limit all self.now
            → result.now ≡ concat (take room all) }
    {
        if room == 0 {
            return &[];
        }
        if room > self.ends.len() {
            return &self.text;
        }
        let end = self.ends[room - 1];
        &self.text[..self.text.len().min(end)]
    }
}

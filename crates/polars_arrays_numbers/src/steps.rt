//! A counter of steps, such as comparisons of leaves.
ghost use Rattle.std.specs.Prelude.{◌≡◌, ℕ, min, ◌+◌, ◌-◌, ◌^◌};

use std::marker::Model;
use std::snapshot::Snapshot;

// The numbers added so far, beginning with the last one. They exist only in proofs.
#[derive(Drop)]
enum Past {
    Start,
    After(Snapshot<usize>, Snapshot<Past>),
}

/// A counter. In contracts its value is the exact count, which has no upper bound. At run time,
/// `seen` returns this count, or `u64::MAX` if it is greater.
#[derive(Drop)]
pub struct Steps {
    seen: u64,
    past: Past,
}

impl Model for Steps {
    ghost use Rattle.std.specs.Prelude.{◌≡◌, ℕ, min, ◌-◌, ◌^◌};

    ghost Value = { ℕ };

    ghost use Rattle.polars_arrays_numbers.specs.Count.{count};

    ghost view = { λ s. count s.past };

    ghost invariant = { λ s. s.seen ≡ min (count s.past) (2 ^ 64 - 1) };
}

impl Steps {
    /// Creates a counter at 0.
    pub fn new() -> Steps
        ensures { result ≡ 0 }
    {
        Steps {
            seen: 0,
            past: Past::Start,
        }
    }

    /// Adds `n` to the count. Never overflows.
    pub fn add(&mut self, n: usize)
        ensures { self.new ≡ self.old + n }
    {
        self.seen = self.seen.saturating_add(n as u64);
        let before = Snapshot::of(&self.past);
        self.past = Past::After(Snapshot::of(&n), before);
    }

    /// Returns the count, or `u64::MAX` if it is greater.
    pub fn seen(&self) -> u64
        ensures { result ≡ min self.now (2 ^ 64 - 1) }
    {
        self.seen
    }
}

impl Default for Steps {
    ghost is_default = { λ s. s ≡ 0 };

    fn default() -> Steps {
        Steps::new()
    }
}

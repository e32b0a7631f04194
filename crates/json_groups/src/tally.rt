//! Tallies of values.

ghost use Rattle.std.specs.Prelude.{◌++◌, ◌∷◌, [], List, IfOk, OnOk};
ghost use Rattle.json.specs.Json.{Json};
ghost use Rattle.json.specs.Value.{value_view};

use json::Value;
use std::alloc::{AllocError, Global};

/// A summary of values, which are added one after another.
pub trait Tally: Drop + Sized {
    // States that a tally was made from these values, in this order.
    ghost Gathers: { List Json → Self → Type 0 };

    /// Creates a tally of no values.
    fn new(alloc: Global) -> Result<Self, AllocError>
        ensures { IfOk result (λ t. Gathers [] t) };

    /// Adds a value to the tally.
    fn add(&mut self, value: &Value<'_>) -> Result<(), AllocError>
        ensures { OnOk result ((values : List Json) → Gathers values self.old
            → Gathers (values ++ value_view value.now ∷ []) self.new) };
}

//! Counts values by their kinds.

ghost use Rattle.std.specs.Prelude.{◌≡◌, ◌+◌, IfOk};

use diff_tables::strings::Strings;
use json::Value;
use json_groups::tally::Tally;
use std::alloc::{AllocError, Global};

/// The values at a path, by kind: the text of each number, and for each other kind the number of
/// values.
#[derive(Drop)]
pub struct Kinds {
    pub(crate) nulls: usize,
    pub(crate) truths: usize,
    pub(crate) texts: usize,
    pub(crate) objects: usize,
    pub(crate) arrays: usize,
    pub(crate) numbers: Strings,
}

/// Returns `n + 1`, or an error if this overflows.
fn one_more(n: usize) -> Result<usize, AllocError>
    ensures { IfOk result (λ m. m ≡ n + 1) }
{
    // No memory holds this many values.
    n.checked_add(1).ok_or(AllocError)
}

impl Tally for Kinds {
    ghost use Rattle.schema_paths.specs.Kinds.{HasKinds};

    ghost Gathers = { HasKinds };

    fn new(alloc: Global) -> Result<Kinds, AllocError> {
        let numbers = Strings::new(alloc)?;
        Ok(Kinds {
            nulls: 0,
            truths: 0,
            texts: 0,
            objects: 0,
            arrays: 0,
            numbers,
        })
    }

    fn add(&mut self, value: &Value<'_>) -> Result<(), AllocError> {
        match value {
            Value::Null => self.nulls = one_more(self.nulls)?,
            Value::Bool(_) => self.truths = one_more(self.truths)?,
            Value::Number(text) => self.numbers.push(text.as_bytes())?,
            Value::String(_) => self.texts = one_more(self.texts)?,
            Value::Array(_) => self.arrays = one_more(self.arrays)?,
            Value::Object(_) => self.objects = one_more(self.objects)?,
        }
        Ok(())
    }
}

//! The values at one path.

ghost use Rattle.std.specs.Prelude.{◌≡◌, ◌+◌, ◌==◌, ◌++◌, ◌∷◌, [], ℕ, List, if◌then◌else◌, IfOk};
ghost use Rattle.std.specs.Prelude.{OnOk};
ghost use Rattle.json.specs.Json.{Json};
ghost use Rattle.json.specs.Value.{value_view};

use crate::tally::Tally;
use json::Value;
use std::alloc::{AllocError, Global};

/// A path, and a summary of the values that documents have at this path.
#[derive(Drop)]
pub struct Group<T> {
    /// The path as text, in which `[]` is any item.
    pub path: Vec<u8>,
    /// The number of documents that have a value at the path.
    pub documents: usize,
    /// The tally of the values at the path.
    pub tally: T,
    // The number of the last document that has a value at the path. The first document is 1, and 0
    // means that there is none.
    last: usize,
}

/// Returns `n + 1`, or an error if this overflows.
pub(crate) fn one_more(n: usize) -> Result<usize, AllocError>
    ensures { IfOk result (λ m. m ≡ n + 1) }
{
    // No memory holds this many documents, so the error is that of an allocation.
    n.checked_add(1).ok_or(AllocError)
}

impl<T: Tally> Group<T> {
    /// Creates a group without values for a path.
    pub(crate) fn new(alloc: Global, path: &[u8]) -> Result<Group<T>, AllocError>
        ensures path { IfOk result (λ g. g.path.items ≡ path.now) }
        ensures documents { IfOk result (λ g. g.documents ≡ 0) }
        ensures last { IfOk result (λ g. g.last ≡ 0) }
        ensures tally { IfOk result (λ g. T.Gathers [] g.tally) }
    {
        let path = Vec::from_slice(alloc, path)?;
        let tally = T::new(alloc)?;
        Ok(Group {
            path,
            documents: 0,
            tally,
            last: 0,
        })
    }

    /// Counts the document with the number `document`, unless it is the last one that was counted.
    fn note(&mut self, document: usize) -> Result<(), AllocError>
        ensures documents { OnOk result
            (self.new.documents
            ≡ self.old.documents + (if self.old.last == document then 0 else 1)) }
        ensures last { OnOk result (self.new.last ≡ document) }
        ensures path { self.new.path ≡ self.old.path }
        ensures tally { self.new.tally ≡ self.old.tally }
    {
        if self.last == document {
            return Ok(());
        }
        self.documents = one_more(self.documents)?;
        self.last = document;
        Ok(())
    }

    /// Adds `value`, which the document with the number `document` has at the path. If this fails,
    /// the document may have been counted already.
    pub(crate) fn add(&mut self, document: usize, value: &Value<'_>) -> Result<(), AllocError>
        ensures documents { OnOk result
            (self.new.documents
            ≡ self.old.documents + (if self.old.last == document then 0 else 1)) }
        ensures last { OnOk result (self.new.last ≡ document) }
        ensures path { OnOk result (self.new.path ≡ self.old.path) }
        ensures tally { OnOk result ((values : List Json) → T.Gathers values self.old.tally
            → T.Gathers (values ++ value_view value.now ∷ []) self.new.tally) }
    {
        self.note(document)?;
        self.tally.add(value)?;
        Ok(())
    }
}

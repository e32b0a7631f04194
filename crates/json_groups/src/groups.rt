//! The values at all paths.

ghost use Rattle.std.specs.Prelude.{◌≡◌, ◌++◌, ◌∷◌, [], ℕ, List, None, OnOk};
ghost use Rattle.json.specs.Value.{value_view};
ghost use Rattle.json_parts.specs.Parts.{Part, part, parts_below};
ghost use Rattle.json_groups.specs.Groups.{AreGroupsOf, HoldsDocuments, HoldsParts, place_of};

use crate::group::{Group, one_more};
use crate::tally::Tally;
use json::Value;
use json_parts::parts::parts_of;
use std::alloc::{AllocError, Global};
use std::collections::HashMap;

/// The values of documents, grouped by path. The documents are added one after another.
#[derive(Drop)]
pub struct Groups<T> {
    // The index in `groups` of the group of each path.
    places: HashMap<Vec<u8>, usize>,
    // The groups, in the order in which their paths were first added.
    groups: Vec<Group<T>>,
    // The number of documents that were added, including the one that is being added.
    documents: usize,
}

impl<T: Tally> Groups<T> {
    /// Creates empty groups.
    pub fn new(alloc: Global) -> Groups<T>
        ensures { HoldsDocuments T.Gathers [] result }
    {
        let places = HashMap::new(alloc);
        let groups = Vec::new(alloc);
        Groups {
            places,
            groups,
            documents: 0,
        }
    }

    /// Creates the group of `path`, which has no group yet, and adds `value`, which the current
    /// document has at this path.
    fn add_first(&mut self, alloc: Global, path: &[u8], value: &Value<'_>) -> Result<(), AllocError>
        ensures { OnOk result ((done : List (List Part)) (parts : List Part)
            → place_of path.now self.old.places ≡ None → HoldsParts T.Gathers done parts self.old
            → HoldsParts T.Gathers done (parts ++ part path.now (value_view value.now) ∷ [])
            self.new) }
    {
        let mut group: Group<T> = Group::new(alloc, path)?;
        group.add(self.documents, value)?;
        let key = Vec::from_slice(alloc, path)?;
        self.places.insert(key, self.groups.len())?;
        self.groups.push(group)?;
        Ok(())
    }

    /// Adds `value`, which the current document has at `path`, to the group of this path. Creates
    /// the group if there is none.
    fn add(&mut self, alloc: Global, path: &[u8], value: &Value<'_>) -> Result<(), AllocError>
        requires { (done : List (List Part)) × (parts : List Part)
            × HoldsParts T.Gathers done parts self.old }
        ensures { OnOk result ((done : List (List Part)) (parts : List Part)
            → HoldsParts T.Gathers done parts self.old
            → HoldsParts T.Gathers done (parts ++ part path.now (value_view value.now) ∷ [])
            self.new) }
    {
        let Some(place) = self.places.get(path).copied() else {
            return self.add_first(alloc, path, value);
        };
        let document = self.documents;
        self.groups[place].add(document, value)?;
        Ok(())
    }

    /// Adds the parts of a document: all members and items at any depth. If this fails, some parts
    /// may have been added, and the groups must not be used any more.
    pub fn add_document(&mut self, alloc: Global, document: &Value<'_>) -> Result<(), AllocError>
        requires { (documents : List (List Part)) × HoldsDocuments T.Gathers documents self.old }
        ensures { OnOk result ((documents : List (List Part))
            → HoldsDocuments T.Gathers documents self.old
            → HoldsDocuments T.Gathers (documents ++ parts_below [] (value_view document.now) ∷ [])
            self.new) }
    {
        let parts = parts_of(alloc, document)?;
        self.documents = one_more(self.documents)?;
        for i in 0..parts.len() {
            self.add(alloc, &parts[i].path, parts[i].value)?;
        }
        Ok(())
    }

    /// Returns the groups, in the order in which their paths were first added.
    pub fn into_groups(self) -> Vec<Group<T>>
        ensures { (documents : List (List Part)) → HoldsDocuments T.Gathers documents self
            → AreGroupsOf T.Gathers documents result.items }
    {
        self.groups
    }
}

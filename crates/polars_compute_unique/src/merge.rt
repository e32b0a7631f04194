//! Appends many arrays to one state, and merges many states into one.

ghost use Rattle.std.specs.Prelude.{◌≡◌, ◌↔◌, ◌<◌, ℕ, IsTrue, length, map, slice_get, All};
ghost use Rattle.polars_compute_slots.specs.State.{appended_all, are_within, range_of};
ghost use Rattle.polars_compute_unique.specs.Trees.{HaveRange, leftmost, merged_tree};

use crate::kernel::RangedUniqueKernel;

/// Appends all arrays to the state, which must accept each of them. Does not allocate.
pub fn append_all<S: RangedUniqueKernel>(state: &mut S, arrays: &[S::Array])
    requires taken { All (λ array. IsTrue (S.is_taken array)) arrays.now }
    requires within { All
        (λ array. IsTrue (are_within (range_of (S.state state.old)) (S.fed array))) arrays.now }
    ensures state { S.state state.new ≡ appended_all (map S.fed arrays.now) (S.state state.old) }
    ensures dictionary { S.dictionary state.new ≡ S.dictionary state.old }
{
    for array in arrays {
        state.append(array);
    }
}

/// A binary tree of states to merge. Its shape says in which order they are merged.
#[derive(Drop)]
pub enum MergeTree<S> {
    Leaf(S),
    Node(Box<MergeTree<S>>, Box<MergeTree<S>>),
}

impl<S: RangedUniqueKernel> MergeTree<S> {
    // Returns the leftmost state of the tree.
    fn leftmost(&self) -> &S
        ensures { result.now ≡ leftmost self.now }
    {
        match self {
            MergeTree::Leaf(state) => state,
            MergeTree::Node(left, _) => left.leftmost(),
        }
    }

    // Returns whether all states of the tree have the same range as `state`.
    fn has_range_of(&self, state: &S) -> bool
        ensures { IsTrue result ↔ HaveRange S.state (range_of (S.state state.now)) self.now }
    {
        match self {
            MergeTree::Leaf(leaf) => leaf.same_range(state),
            MergeTree::Node(left, right) => left.has_range_of(state) && right.has_range_of(state),
        }
    }

    /// Returns whether all states of the tree have the same range.
    pub fn one_range(&self) -> bool
        ensures { IsTrue result
            ↔ HaveRange S.state (range_of (S.state (leftmost self.now))) self.now }
    {
        self.has_range_of(self.leftmost())
    }
}

/// Merges all states of the tree into the leftmost one, and returns it. All must have the same
/// range. The result has the dictionary of the leftmost state. Does not allocate.
pub fn merge_tree<S: RangedUniqueKernel + Drop>(tree: MergeTree<S>) -> S
    requires { HaveRange S.state (range_of (S.state (leftmost tree))) tree }
    ensures state { S.state result ≡ merged_tree S.state tree }
    ensures dictionary { S.dictionary result ≡ S.dictionary (leftmost tree) }
{
    match tree {
        MergeTree::Leaf(state) => state,
        MergeTree::Node(left, right) => {
            let mut merged = merge_tree(Box::into_inner(left));
            let other = merge_tree(Box::into_inner(right));
            merged.append_state(&other);
            merged
        }
    }
}

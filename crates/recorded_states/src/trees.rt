//! Calls on trees of states. A tree is written in postfix notation: a leaf is one or two words, and
//! `+` joins the two trees before it.
//!
//! Calls that merge all states of a tree. The result is the text of the merged state, in the form
//! that `seen` describes:
//!
//! - `merge_tree_numbers TYPE MIN MAX TREE`: a leaf A is a state of the numbers from MIN to MAX, to
//!   which the array A is appended
//! - `merge_tree_truths TREE`: a leaf A is a state of truth values, to which the array A is
//!   appended
//! - `merge_tree_keys TREE`: a leaf V A is a state of the keys of a dictionary with the entries V,
//!   to which the array A is appended
//!
//! Calls that test whether all leaves have the same range. The result is `true` or `false`:
//!
//! - `one_range_numbers TYPE TREE`: a leaf MIN MAX is a new state of the numbers from MIN to MAX
//! - `one_range_keys TREE`: a leaf V is a new state of the keys of a dictionary with the entries V

ghost use Rattle.recorded_text.specs.Cases.{HasGoodArrays};

use crate::columns::gathered;
use crate::new_states::{NewStates, read_new};
use crate::seen::write_seen;
use crate::state_kinds::RecordedState;
use polars_compute_unique::merge::{MergeTree, merge_tree};
use recorded_text::fault::Fault;
use recorded_text::store::Store;
use recorded_text::words::Words;
use std::alloc::Global;

// The meaning of the words of a leaf.
#[derive(Drop)]
enum Leaves<N: NewStates> {
    // The name of an array. The leaf is a state of the range in the field, to which the array is
    // appended.
    Within(N),
    // A range, and the name of an array. The leaf is a state of the range, to which the array is
    // appended.
    Gathered,
    // A range. The leaf is a new state of the range.
    New,
}

/// Reads a range and a tree from `words`. The leaves are names of arrays, appended to states of the
/// range. Returns the text of the merged state. The error is `Word` if the words do not form one
/// tree, or else that of `N::read`, `gathered` or `write_seen`.
pub fn merge_in_range<N: NewStates>(
    alloc: Global,
    store: &Store,
    words: &mut Words,
) -> Result<String, Fault>
    requires { HasGoodArrays store.now }
{
    let leaves = Leaves::Within(N::read(alloc, store, words)?);
    merge(alloc, &leaves, store, words)
}

/// Reads a tree from `words`, in which each leaf has a range and the name of an array. Returns the
/// text of the merged state. The error is `Word` if the words do not form one tree, `Case` if the
/// ranges of the leaves differ, or else that of `N::read`, `gathered` or `write_seen`.
pub fn merge_leaves<N: NewStates>(
    alloc: Global,
    store: &Store,
    words: &mut Words,
) -> Result<String, Fault>
    requires { HasGoodArrays store.now }
{
    merge::<N>(alloc, &Leaves::Gathered, store, words)
}

// Reads a tree from `words`, with leaves as `leaves` says, and returns the text of the merged
// state. The error is `Case` if the ranges of the leaves differ, or else that of `read_tree` or of
// `write_seen`.
fn merge<N: NewStates>(
    alloc: Global,
    leaves: &Leaves<N>,
    store: &Store,
    words: &mut Words,
) -> Result<String, Fault>
    requires { HasGoodArrays store.now }
{
    let tree = read_tree(alloc, leaves, store, words.rest())?;
    write_merged(alloc, tree)
}

// Merges all states of `tree`, and returns the text of the merged state. The error is `Case` if the
// ranges of the states differ, or else that of `write_seen`.
fn write_merged<S: RecordedState>(alloc: Global, tree: MergeTree<S>) -> Result<String, Fault> {
    if !tree.one_range() {
        return Err(Fault::Case);
    }
    write_seen(alloc, Ok(merge_tree(tree)))
}

/// Reads a tree from `words`, in which each leaf is a range, and returns whether all leaves have
/// the same range. The error is that of `read_tree`, for example `Case` if no state of a range can
/// be created.
pub fn have_one_range<N: NewStates>(
    alloc: Global,
    store: &Store,
    words: &mut Words,
) -> Result<bool, Fault>
    requires { HasGoodArrays store.now }
{
    let tree = read_tree::<N>(alloc, &Leaves::New, store, words.rest())?;
    Ok(tree.one_range())
}

// Reads a tree from `words`, with leaves as `leaves` says. The error is `Word` if the words do not
// form one tree, or else that of `read_leaf`, or `Memory`.
fn read_tree<N: NewStates>(
    alloc: Global,
    leaves: &Leaves<N>,
    store: &Store,
    words: &[&str],
) -> Result<MergeTree<N::State>, Fault>
    requires { HasGoodArrays store.now }
{
    let mut trees = Vec::new(alloc);
    read_trees(alloc, &mut trees, leaves, store, words)?;
    take_only(&mut trees)
}

// Removes the only tree of `trees`, and returns it. The error is `Word` if there is none, or more
// than one.
fn take_only<S: RecordedState>(trees: &mut Vec<MergeTree<S>>) -> Result<MergeTree<S>, Fault> {
    if trees.len() > 1 {
        return Err(Fault::Word);
    }
    match trees.pop() {
        Some(tree) => Ok(tree),
        None => Err(Fault::Word),
    }
}

// Reads trees from all of `words`, with leaves as `leaves` says, and appends them to `trees`. A `+`
// joins the last two of `trees`. The error is `Word` if there are fewer than two at a `+`, or else
// that of `read_leaf`, or `Memory`.
fn read_trees<N: NewStates>(
    alloc: Global,
    trees: &mut Vec<MergeTree<N::State>>,
    leaves: &Leaves<N>,
    store: &Store,
    words: &[&str],
) -> Result<(), Fault>
    requires { HasGoodArrays store.now }
{
    let mut left = Words::new(words);
    for _ in 0..words.len() {
        if !left.are_read() {
            read_part(alloc, trees, leaves, store, &mut left)?;
        }
    }
    Ok(())
}

// Reads a `+` from `words`, and joins the last two of `trees`. If the next word is not `+`, reads a
// leaf, and appends it to `trees`. The errors are those of `join_last` and `read_leaf`.
fn read_part<N: NewStates>(
    alloc: Global,
    trees: &mut Vec<MergeTree<N::State>>,
    leaves: &Leaves<N>,
    store: &Store,
    words: &mut Words,
) -> Result<(), Fault>
    requires { HasGoodArrays store.now }
{
    if words.take("+") {
        return join_last(alloc, trees);
    }
    let state = read_leaf(alloc, leaves, store, words)?;
    push_tree(trees, MergeTree::Leaf(state))
}

// Appends `tree` to `trees`. The error is `Memory`.
fn push_tree<S: RecordedState>(
    trees: &mut Vec<MergeTree<S>>,
    tree: MergeTree<S>,
) -> Result<(), Fault> {
    trees.push(tree)?;
    Ok(())
}

// Replaces the last two of `trees` by a tree that joins them. The error is `Word` if there are
// fewer than two, or else `Memory`.
fn join_last<S: RecordedState>(alloc: Global, trees: &mut Vec<MergeTree<S>>) -> Result<(), Fault> {
    let right = box_last(alloc, trees)?;
    let left = box_last(alloc, trees)?;
    push_tree(trees, MergeTree::Node(left, right))
}

// Removes the last of `trees`, and returns it in a box. The error is `Word` if there is none, or
// else `Memory`.
fn box_last<S: RecordedState>(
    alloc: Global,
    trees: &mut Vec<MergeTree<S>>,
) -> Result<Box<MergeTree<S>>, Fault> {
    match trees.pop() {
        Some(tree) => Ok(Box::new(alloc, tree)?),
        None => Err(Fault::Word),
    }
}

// Reads the words of a leaf as `leaves` says, and creates its state. The error is that of
// `N::read`, `read_gathered` or `read_new`.
fn read_leaf<N: NewStates>(
    alloc: Global,
    leaves: &Leaves<N>,
    store: &Store,
    words: &mut Words,
) -> Result<N::State, Fault>
    requires { HasGoodArrays store.now }
{
    match leaves {
        Leaves::Within(range) => read_gathered(alloc, range, store, words),
        Leaves::Gathered => read_gathered(alloc, &N::read(alloc, store, words)?, store, words),
        Leaves::New => read_new::<N>(alloc, store, words),
    }
}

// Reads the name of an array from the next of `words`, creates a state of `range`, and appends the
// array to it. The error is `Word` if there is no next word, or else that of `gathered`.
fn read_gathered<N: NewStates>(
    alloc: Global,
    range: &N,
    store: &Store,
    words: &mut Words,
) -> Result<N::State, Fault>
    requires { HasGoodArrays store.now }
{
    gathered(alloc, range, store, &[words.read()?])
}

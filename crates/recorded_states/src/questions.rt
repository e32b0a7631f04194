//! Calls that exist for several kinds of ranges: of numbers, of truth values, and of keys of
//! dictionaries.

ghost use Rattle.recorded_text.specs.Cases.{HasGoodArrays};

use crate::new_states::NewStates;
use crate::{appending, conditions, pairs, trees};
use recorded_text::fault::Fault;
use recorded_text::store::Store;
use recorded_text::words::Words;
use std::alloc::Global;

/// A call that exists for several kinds of ranges.
#[derive(Clone, Copy)]
pub enum Question {
    /// A test of whether there are states of a range.
    Fit,
    /// A test of whether a state accepts an array.
    Accept,
    /// A test of whether two new states have the same range.
    SameRange,
    /// The text of a state to which several arrays were appended at once.
    AppendAll,
    /// The stored values of the array to which a state is finalised, after several arrays were
    /// appended to it at once.
    Stored,
    /// Two states with arrays appended, separate and merged.
    Pair,
    /// The merged states of a tree, all of a range that is given once, before the tree.
    MergeTree,
    /// A test of whether all states of a tree have the same range.
    OneRange,
}

/// Reads the operands of `question` from `words`, for ranges of the kind `N`, and returns the
/// result as text.
pub fn answer_question<N: NewStates>(
    alloc: Global,
    question: Question,
    store: &Store,
    words: &mut Words,
) -> Result<String, Fault>
    requires { HasGoodArrays store.now }
{
    match question {
        Question::Fit => write_truth(alloc, conditions::fit::<N>(alloc, store, words)),
        Question::Accept => write_truth(alloc, conditions::accept::<N>(alloc, store, words)),
        Question::SameRange => {
            write_truth(alloc, conditions::have_one_range::<N>(alloc, store, words))
        }
        Question::AppendAll => appending::write_all::<N>(alloc, store, words),
        Question::Stored => appending::write_stored::<N>(alloc, store, words),
        Question::Pair => pairs::of_columns::<N>(alloc, store, words),
        Question::MergeTree => trees::merge_in_range::<N>(alloc, store, words),
        Question::OneRange => write_truth(alloc, trees::have_one_range::<N>(alloc, store, words)),
    }
}

/// Returns `true` or `false` as text. If `truth` is an error, returns it. Otherwise the error is
/// `Memory`.
pub fn write_truth(alloc: Global, truth: Result<bool, Fault>) -> Result<String, Fault> {
    truth?.to_string(alloc).map_err(Fault::from)
}

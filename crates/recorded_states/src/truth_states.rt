//! Calls on states of truth values. The calls are described in `conditions`, `appending`, `pairs`
//! and `trees`.

ghost use Rattle.recorded_text.specs.Cases.{HasGoodArrays};

use crate::new_states::Truths;
use crate::questions::{Question, answer_question};
use recorded_text::fault::Fault;
use recorded_text::store::Store;
use recorded_text::words::Words;
use std::alloc::Global;

// Returns the `Question` for the call with the name `call`, or `None` if it is not a call on states
// of truth values.
fn question_of(call: &str) -> Option<Question> {
    match call {
        "accepts_truths" => Some(Question::Accept),
        "append_all_truths" => Some(Question::AppendAll),
        "stored_truths" => Some(Question::Stored),
        "state_truths" => Some(Question::Pair),
        "merge_tree_truths" => Some(Question::MergeTree),
        _ => None,
    }
}

/// Reads the operands of `call` from `words`, and returns the result as text. Returns `None` if
/// `call` is not the name of a call on states of truth values.
pub fn answer(
    alloc: Global,
    call: &str,
    store: &Store,
    words: &mut Words,
) -> Result<Option<String>, Fault>
    requires { HasGoodArrays store.now }
{
    match question_of(call) {
        Some(question) => answer_question::<Truths>(alloc, question, store, words).map(Some),
        None => Ok(None),
    }
}

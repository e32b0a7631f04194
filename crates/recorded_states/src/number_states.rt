//! Calls on states of numbers. The first word after the name of a call is the type of the numbers.
//! The calls are described in `conditions`, `appending`, `pairs` and `trees`.

ghost use Rattle.recorded_text.specs.Cases.{HasGoodArrays};

use crate::new_states::{NewStates, NumberRange};
use crate::numbers::RecordedNumber;
use crate::pairs;
use crate::questions::{Question, answer_question};
use recorded_text::fault::Fault;
use recorded_text::store::Store;
use recorded_text::words::Words;
use std::alloc::Global;

// A call on states of numbers.
#[derive(Clone, Copy)]
enum NumberQuestion {
    // A call that exists for several kinds of ranges.
    OfRange(Question),
    // `state_numbers`: two states with arrays appended, separate and merged, and the numbers of
    // rows read.
    Counted,
    // `state_empty`: as `Counted`, for states of an empty range of numbers.
    CountedInNone,
}

// Returns the `NumberQuestion` for the call with the name `call`, or `None` if it is not a call on
// states of numbers.
fn question_of(call: &str) -> Option<NumberQuestion> {
    match call {
        "range_fits" => Some(NumberQuestion::OfRange(Question::Fit)),
        "accepts_numbers" => Some(NumberQuestion::OfRange(Question::Accept)),
        "same_range_numbers" => Some(NumberQuestion::OfRange(Question::SameRange)),
        "append_all_numbers" => Some(NumberQuestion::OfRange(Question::AppendAll)),
        "stored_numbers" => Some(NumberQuestion::OfRange(Question::Stored)),
        "merge_tree_numbers" => Some(NumberQuestion::OfRange(Question::MergeTree)),
        "one_range_numbers" => Some(NumberQuestion::OfRange(Question::OneRange)),
        "state_numbers" => Some(NumberQuestion::Counted),
        "state_empty" => Some(NumberQuestion::CountedInNone),
        _ => None,
    }
}

/// Reads the type and the operands of `call` from `words`, and returns the result as text. Returns
/// `None` if `call` is not the name of a call on states of numbers.
pub fn answer(
    alloc: Global,
    call: &str,
    store: &Store,
    words: &mut Words,
) -> Result<Option<String>, Fault>
    requires { HasGoodArrays store.now }
{
    match question_of(call) {
        Some(question) => answer_typed(alloc, question, store, words).map(Some),
        None => Ok(None),
    }
}

// Reads the type of the numbers from the next of `words`, and returns the result of `question` for
// this type. The error is `Word` if there is no such type, or else that of `answer_numbers`.
fn answer_typed(
    alloc: Global,
    question: NumberQuestion,
    store: &Store,
    words: &mut Words,
) -> Result<String, Fault>
    requires { HasGoodArrays store.now }
{
    match words.read()? {
        "i8" => answer_numbers::<i8>(alloc, question, store, words),
        "i16" => answer_numbers::<i16>(alloc, question, store, words),
        "i32" => answer_numbers::<i32>(alloc, question, store, words),
        "i64" => answer_numbers::<i64>(alloc, question, store, words),
        "u8" => answer_numbers::<u8>(alloc, question, store, words),
        "u16" => answer_numbers::<u16>(alloc, question, store, words),
        "u32" => answer_numbers::<u32>(alloc, question, store, words),
        "u64" => answer_numbers::<u64>(alloc, question, store, words),
        _ => Err(Fault::Word),
    }
}

// Returns the result of `question` for numbers of type `T`. `words` has the operands after the
// type.
fn answer_numbers<T: RecordedNumber>(
    alloc: Global,
    question: NumberQuestion,
    store: &Store,
    words: &mut Words,
) -> Result<String, Fault>
    requires { HasGoodArrays store.now }
{
    match question {
        NumberQuestion::OfRange(question) => {
            answer_question::<NumberRange<T>>(alloc, question, store, words)
        }
        NumberQuestion::Counted => {
            let range = NumberRange::<T>::read(alloc, store, words);
            pairs::of_range(alloc, range, store, words)
        }
        NumberQuestion::CountedInNone => {
            pairs::of_range(alloc, Ok(NumberRange::<T>::Empty), store, words)
        }
    }
}

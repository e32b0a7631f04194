//! A line of a file of cases, and its result.
//!
//! The error of a function is `Word` if a word is missing, wrong or left over, `Memory` if an
//! allocation fails, and `Case` if an array, an index or a length does not fit the line.

ghost use Rattle.std.specs.Prelude.{IfOk};
ghost use Rattle.polars_arrays_nested.specs.GoodParts.{IsGood};
ghost use Rattle.recorded_text.specs.Cases.{HasGoodArrays};

use crate::lines;
use polars_arrays_nested::any_array::AnyArray;
use recorded_text::fault::Fault;
use recorded_text::nested::read_any;
use recorded_text::store::Store;
use recorded_text::words::Words;
use recorded_text::wrapped::{FAR_LEVELS, LEVELS, read_wrapped};
use std::alloc::Global;
use std::fmt::Display;

/// The result of a line.
#[derive(Debug, Drop)]
pub enum Answer {
    /// No result: the line is empty, a heading, or names an array that was created.
    Nothing,
    /// The name of an array that was not created, and the text `refused: WHY`: its parts make no
    /// array, or it is nested too deeply.
    Refused(String, String),
    /// The result of a call.
    Returned(String),
}

impl Answer {
    /// Returns the text that is compared with the recorded result, or `None` for `Nothing`.
    pub fn text(&self) -> Option<&str> {
        match self {
            Answer::Nothing => None,
            Answer::Refused(_, why) => Some(why.as_str()),
            Answer::Returned(text) => Some(text.as_str()),
        }
    }
}

/// Returns the result of `line`, which is given without its recorded result. A heading, which
/// begins with `#`, removes all arrays from `store`. A line that creates an array adds it to
/// `store`. After an error, `store` is unchanged.
pub fn answer_line(alloc: Global, store: &mut Store, line: &str) -> Result<Answer, Fault>
    requires { HasGoodArrays store.old }
    ensures { HasGoodArrays store.new }
{
    if line.is_empty() {
        return Ok(Answer::Nothing);
    }
    if line.starts_with('#') {
        store.clear();
        return Ok(Answer::Nothing);
    }
    let words: Vec<&str> = line.split(' ').collect(alloc)?;
    let mut words = Words::new(&words);
    answer_words(alloc, store, line, &mut words)
}

// Returns the result of `line`, which has at least one word. `words` are its words, of which none
// has been read.
fn answer_words(
    alloc: Global,
    store: &mut Store,
    line: &str,
    words: &mut Words,
) -> Result<Answer, Fault>
    requires { HasGoodArrays store.old }
    ensures { HasGoodArrays store.new }
{
    let first = words.read()?;
    if words.take("=") {
        let made = read_array(alloc, store, words);
        return add_made(alloc, store, first, words, made);
    }
    answer_question(alloc, store, line, first, words).map(Answer::Returned)
}

// Returns the result of `call`, the first word of `line`. `words` are the words after it.
fn answer_question(
    alloc: Global,
    store: &Store,
    line: &str,
    call: &str,
    words: &mut Words,
) -> Result<String, Fault>
    requires { HasGoodArrays store.now }
{
    let text = line.split_once(' ').map_or("", |(_, text)| text);
    match lines::answer(alloc, call, text, words) {
        Ok(Some(answer)) => Ok(answer),
        Ok(None) => answer_operands(alloc, store, call, words),
        Err(fault) => Err(fault),
    }
}

// Returns the result of `call`, whose operands are all words that are left. The error is `Word` if
// a word follows the operands.
fn answer_operands(
    alloc: Global,
    store: &Store,
    call: &str,
    words: &mut Words,
) -> Result<String, Fault>
    requires { HasGoodArrays store.now }
{
    let answer = answer_call(alloc, store, call, words)?;
    if !words.are_read() {
        return Err(Fault::Word);
    }
    Ok(answer)
}

// Reads an array from the next words. After `copy`, this is a clone of the array with the name that
// follows. After `wrapped` or `wrapped_far`, it is an array nested in others, up to `LEVELS` or
// `FAR_LEVELS` deep. Otherwise the array is written out. The error is also `Parts` if the parts
// make no array, or `Depth` if the array is nested too deeply.
fn read_array(alloc: Global, store: &Store, words: &mut Words) -> Result<AnyArray, Fault>
    requires { HasGoodArrays store.now }
    ensures { IfOk result (λ array. IsGood array) }
{
    if words.take("copy") {
        return copy_array(alloc, store.read(words)?);
    }
    if words.take("wrapped") {
        return read_wrapped(alloc, words, LEVELS);
    }
    if words.take("wrapped_far") {
        return read_wrapped(alloc, words, FAR_LEVELS);
    }
    read_any(alloc, words)
}

// Returns a clone of `array`. The error is `Memory`.
fn copy_array(alloc: Global, array: &AnyArray) -> Result<AnyArray, Fault>
    requires { IsGood array.now }
    ensures { IfOk result (λ copy. IsGood copy) }
{
    let copy = array.clone_array(alloc)?;
    Ok(copy)
}

// Adds the array in `made` to `store` under `name`. If `made` is an error, returns `Refused` if the
// error says that there is no such array (see `refuse`), otherwise the error.
fn add_made(
    alloc: Global,
    store: &mut Store,
    name: &str,
    words: &Words,
    made: Result<AnyArray, Fault>,
) -> Result<Answer, Fault>
    requires arrays { HasGoodArrays store.old }
    requires array { IfOk made (λ array. IsGood array) }
    ensures { HasGoodArrays store.new }
{
    match made {
        Ok(array) => add(alloc, store, name, words, array),
        Err(fault) => refuse(alloc, name, fault),
    }
}

// Adds `array` to `store` under `name`. The error is `Word` if any of `words` has not been read,
// `Case` if an array of this name exists, or `Memory`.
fn add(
    alloc: Global,
    store: &mut Store,
    name: &str,
    words: &Words,
    array: AnyArray,
) -> Result<Answer, Fault>
    requires arrays { HasGoodArrays store.old }
    requires array { IsGood array }
    ensures { HasGoodArrays store.new }
{
    if !words.are_read() {
        drop(array);
        return Err(Fault::Word);
    }
    store.add(alloc, name, array)?;
    Ok(Answer::Nothing)
}

// Returns `Refused` with `name` and the reason if `fault` says that the parts make no array, or
// that the array would be nested too deeply. Returns any other fault as an error.
fn refuse(alloc: Global, name: &str, fault: Fault) -> Result<Answer, Fault> {
    match fault {
        Fault::Parts(error) => refusal(alloc, name, &error),
        Fault::Depth(_) => refusal(alloc, name, &fault),
        fault => Err(fault),
    }
}

// Returns `Refused` with `name` and the text `refused: WHY`, in which WHY is `why` as text. The
// error is `Memory`.
fn refusal(alloc: Global, name: &str, why: &impl Display) -> Result<Answer, Fault> {
    let why = format!(in alloc; "refused: {why}")?;
    let name = name.to_string(alloc)?;
    Ok(Answer::Refused(name, why))
}

// Evaluates expressions of type `Result<Option<String>, Fault>` in turn, and makes the surrounding
// function return the first text or error. Continues after the macro if all are `None`.
macro_rules! first_answer {
    ($($answer:expr),+ $(,)?) => {
        $(if let Some(answer) = $answer? {
            return Ok(answer);
        })+
    };
}

// Returns the result of `call`, which any of the six crates of recorded calls may define. The error
// is `Word` if none of them defines it.
fn answer_call(alloc: Global, store: &Store, call: &str, words: &mut Words) -> Result<String, Fault>
    requires { HasGoodArrays store.now }
{
    first_answer!(
        recorded_bits::answer(alloc, call, words),
        recorded_arrays::answer(alloc, call, store, words),
        recorded_kernels::answer(alloc, call, store, words),
        recorded_arithmetic::answer(alloc, call, store, words),
        recorded_reductions::answer(alloc, call, store, words),
        recorded_states::answer(alloc, call, store, words),
    );
    Err(Fault::Word)
}

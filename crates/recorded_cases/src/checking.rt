//! Comparisons of results with recorded ones.

ghost use Rattle.recorded_text.specs.Cases.{HasGoodArrays};

use crate::question::{Answer, answer_line};
use recorded_text::fault::Fault;
use recorded_text::store::Store;

/// A mode of checking a file. It says how the results of the file's calls are used.
#[derive(Clone, Copy, Debug, PartialEq, Eq)]
pub enum Mode {
    /// Compare them with the recorded ones.
    Compare,
    /// Compare them with recorded ones that are all wrong.
    CompareWrong,
    /// Print them.
    Print,
}

/// The numbers of results that are as recorded (`same`) and that differ (`differing`).
#[derive(Clone, Copy, Debug, Default, PartialEq, Eq)]
pub struct Tally {
    pub same: u64,
    pub differing: u64,
}

impl Tally {
    /// Counts a result: `Some(true)` is as recorded, and `Some(false)` differs. `None` is not
    /// counted.
    fn count(&mut self, agrees: Option<bool>) {
        match agrees {
            Some(true) => self.same = self.same.saturating_add(1),
            Some(false) => self.differing = self.differing.saturating_add(1),
            None => (),
        }
    }
}

/// A line of a file: the name of the file, the number of the line, counted from 1, and its text
/// without the recorded result.
#[derive(Clone, Copy)]
struct Asked<'a> {
    file: &'a str,
    number: usize,
    question: &'a str,
}

/// Splits `line` at ` -> ` into its call and its recorded result. A heading, which begins with `#`,
/// and a line without ` -> ` have no recorded result.
fn split_answer(line: &str) -> (&str, Option<&str>) {
    if line.starts_with('#') {
        return (line, None);
    }
    match line.split_once(" -> ") {
        Some((question, answer)) => (question, Some(answer)),
        None => (line, None),
    }
}

/// Makes the call that each line of `text` names. Depending on `mode`, compares its result with the
/// recorded one, or prints it. Returns how many results are as recorded, and how many differ.
/// `file` is the name that messages give to the text. If the result of a line is an error, prints
/// the line and returns the error.
pub fn check_text<R: Print + Eprint + AllocGlobal>(
    rt: &R,
    file: &str,
    text: &str,
    mode: Mode,
) -> Result<Tally, Fault> {
    let alloc = rt.alloc();
    let mut store = Store::new(alloc);
    let mut tally = Tally::default();
    let mut number = 0_usize;
    for line in text.lines() {
        number = number.saturating_add(1);
        let (question, recorded) = split_answer(line);
        let asked = Asked {
            file,
            number,
            question,
        };
        let answer = ask(rt, &mut store, asked);
        tally.count(check_answer(rt, asked, recorded, answer, mode)?);
    }
    Ok(tally)
}

/// Makes the call of the line `asked`. If an allocation fails, prints that and makes the call once
/// more. So the result also shows whether the failed call left the arrays in `store` unchanged.
fn ask<R: Eprint + AllocGlobal>(rt: &R, store: &mut Store, asked: Asked) -> Result<Answer, Fault>
    requires { HasGoodArrays store.old }
    ensures { HasGoodArrays store.new }
{
    match answer_line(rt.alloc(), store, asked.question) {
        Err(Fault::Memory) => {
            tell(rt, asked, &Fault::Memory)?;
            answer_line(rt.alloc(), store, asked.question)
        }
        answer => answer,
    }
}

/// Prints the line `asked` and the error `fault` that it led to, on standard error.
fn tell(rt: &impl Eprint, asked: Asked, fault: &Fault) -> Result<(), Fault> {
    let Asked {
        file,
        number,
        question,
    } = asked;
    eprintln!(rt; "{file}:{number}: {fault}: {question}").map_err(Fault::from)
}

/// Compares `answer` with the recorded result, and returns whether they are equal. Returns `None`
/// if there is neither, or if `mode` is `Print`, in which `answer` is printed instead. If `answer`
/// is an error, prints it with the line on standard error, and returns it.
fn check_answer<R: Print + Eprint>(
    rt: &R,
    asked: Asked,
    recorded: Option<&str>,
    answer: Result<Answer, Fault>,
    mode: Mode,
) -> Result<Option<bool>, Fault> {
    match answer {
        Ok(answer) => match mode {
            Mode::Print => print_answer(rt, asked.question, &answer),
            _ => compare(rt, asked, recorded, &answer),
        },
        Err(fault) => {
            tell(rt, asked, &fault)?;
            Err(fault)
        }
    }
}

/// Prints a heading, a call and its result, or a refused array and the reason. Prints nothing for
/// other lines. `question` is the line. Returns `None`, since nothing is compared.
fn print_answer(rt: &impl Print, question: &str, answer: &Answer) -> Result<Option<bool>, Fault> {
    match answer {
        Answer::Nothing if question.starts_with('#') => println!(rt; "{question}")?,
        Answer::Nothing => (),
        Answer::Refused(name, why) => println!(rt; "{name} = {why}")?,
        Answer::Returned(text) => println!(rt; "{question} -> {text}")?,
    }
    Ok(None)
}

/// Compares `answer` with the recorded result. Returns whether they are equal, or `None` if the
/// line has neither. If they differ, prints both, with the line `asked`.
fn compare(
    rt: &impl Print,
    asked: Asked,
    recorded: Option<&str>,
    answer: &Answer,
) -> Result<Option<bool>, Fault> {
    let answer = answer.text();
    if answer == recorded {
        return Ok(answer.map(|_| true));
    }
    let Asked {
        file,
        number,
        question,
    } = asked;
    let (answer, recorded) = (answer.unwrap_or("nothing"), recorded.unwrap_or("nothing"));
    println!(rt; "{file}:{number}: {question} -> {answer}, recorded is {recorded}")?;
    Ok(Some(false))
}

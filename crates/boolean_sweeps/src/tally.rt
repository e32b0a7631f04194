//! The counts of a kernel: its results, those that were compared, and those that differ.

use polars_arrays_bits::bitmap::Bitmap;
use recorded_text::fault::Fault;
use std::alloc::{AllocError, Global};

/// The counts for a kernel: its calls, its results (`answers`), the results that were compared, and
/// the differences (`differ`).
#[derive(Drop)]
pub struct Counts {
    calls: u64,
    answers: u64,
    compared: u64,
    differ: u64,
}

impl Counts {
    // Creates counts that are all 0.
    fn new() -> Counts {
        Counts {
            calls: 0,
            answers: 0,
            compared: 0,
            differ: 0,
        }
    }

    /// Counts a call. `is_whole` says if the result has the expected length. If not, a difference
    /// is counted too.
    pub fn begin_call(&mut self, is_whole: bool) {
        self.calls = self.calls.saturating_add(1);
        self.note(is_whole);
    }

    // Counts a difference if `agrees` is false.
    fn note(&mut self, agrees: bool) {
        self.differ = self.differ.saturating_add(u64::from(!agrees));
    }

    /// Counts a result that was compared. If `agrees` is false, counts a difference too.
    pub fn compare(&mut self, agrees: bool) {
        self.answers = self.answers.saturating_add(1);
        self.compared = self.compared.saturating_add(1);
        self.note(agrees);
    }

    /// Counts a result that is not compared, because the kernel promises nothing about it.
    pub fn pass_over(&mut self) {
        self.answers = self.answers.saturating_add(1);
    }

    /// Compares bit `i` of the result `bits` with `expected`, and counts the comparison. If
    /// `expected` is `None`, only counts a result.
    pub fn compare_bit(&mut self, expected: Option<bool>, bits: &Bitmap, i: usize) {
        match expected {
            Some(_) => self.compare(bits.get(i) == expected),
            None => self.pass_over(),
        }
    }
}

/// A kernel (`call`), its printed name, and the counts of its results.
#[derive(Drop)]
pub struct Tally<C: Copy> {
    pub name: &'static str,
    pub call: C,
    pub counts: Counts,
}

/// Creates a tally for each name and kernel of `calls`. All counts are 0.
pub fn begin<C: Copy>(
    alloc: Global,
    calls: &[(&'static str, C)],
) -> Result<Vec<Tally<C>>, AllocError> {
    let mut tallies = Vec::new(alloc);
    for (name, call) in calls {
        let counts = Counts::new();
        tallies.push(Tally {
            name: *name,
            call: *call,
            counts,
        })?;
    }
    Ok(tallies)
}

/// Prints a line with the name and the counts for each tally.
pub fn print<C: Copy>(rt: &impl Print, tallies: &[Tally<C>]) -> Result<(), Fault> {
    for tally in tallies {
        print_line(rt, tally.name, &tally.counts)?;
    }
    Ok(())
}

// Prints the line of the kernel `name`.
fn print_line(rt: &impl Print, name: &str, counts: &Counts) -> Result<(), Fault> {
    let Counts {
        calls,
        answers,
        compared,
        differ,
    } = counts;
    println!(rt; "{name}: {calls} calls, {answers} answers, {compared} compared, {differ} differ")?;
    Ok(())
}

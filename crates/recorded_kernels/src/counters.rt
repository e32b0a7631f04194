//! Counters that are lent to calls.

use polars_arrays_numbers::steps::Steps;
use recorded_text::fault::Fault;

/// The count of a counter before it is lent.
const BEFORE: usize = 1_000;

/// The text that follows the count of comparisons of leaves in a result.
pub const COMPARISONS: &str = " comparisons";

/// Returns a counter with the count `BEFORE` instead of 0, so that a decrease can be detected.
pub fn lent_counter() -> Steps {
    let mut steps = Steps::new();
    steps.add(BEFORE);
    steps
}

/// Appends ` in N` and `what` to `text`, where N is the increase from `BEFORE` to `seen`, the final
/// count of a counter of `lent_counter`. If `text` is an error, returns it. The error is `Case` if
/// the count decreased, even if `text` is an error.
pub fn add_count(text: Result<String, Fault>, seen: u64, what: &str) -> Result<String, Fault> {
    let Some(counted) = seen.checked_sub(BEFORE as u64) else {
        return Err(Fault::Case);
    };
    let mut text = text?;
    write!(text, " in {counted}{what}")?;
    Ok(text)
}

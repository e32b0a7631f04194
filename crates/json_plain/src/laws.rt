//! Laws of plain JSON texts. The function does nothing at run time; its contract states the laws.

ghost use Rattle.json_plain.specs.Laws.{HighOnesAreEscaped, LowOnesAreEscaped, ValuesAreKept};

/// States that the output of `push_plain_json` has no control character, if its input has no byte
/// below 32. If the input is a value of at most `max_depth` levels, the most that the `json` crate
/// parses, and is printed without whitespace, the output is JSON of the same value.
pub fn plain_laws()
    ensures high { HighOnesAreEscaped }
    ensures low { LowOnesAreEscaped }
    ensures values { ValuesAreKept }
{}

//! Laws of parts. The function does nothing at run time; its contract states the laws.

ghost use Rattle.json_parts.specs.Laws.{PartsHaveNumbers};

/// States that the numbers inside the parts of a value are valid JSON numbers, if all numbers
/// inside the value are.
pub fn part_laws()
    ensures { PartsHaveNumbers }
{}

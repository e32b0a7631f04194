//! Laws of numbers. The function does nothing; its contract has the law.

ghost use Rattle.schema_values.specs.Laws.{OneNumberWhereEqual};

/// States that two texts are numbers of the same value if and only if their exact decimals are
/// equal.
pub fn number_laws()
    ensures { OneNumberWhereEqual }
{}

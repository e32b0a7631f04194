//! Laws about the results of comparisons. A law is a function that does nothing at run time. Its
//! `ensures` clauses are proved facts about the definitions that contracts use. `law_tally` bounds
//! the number of comparisons of two arrays by their leaf slots. `law_steps` says that the counter
//! `Steps` compares leaves by equality.

ghost use Rattle.polars_compare.specs.ArrayLaws.{ArraysAreReflexive, ArraysAreSymmetric};
ghost use Rattle.polars_compare.specs.ArrayLaws.{ArraysAreTransitive, ArraysByRows};
ghost use Rattle.polars_compare.specs.ArrayLaws.{ArraysUnequalIsNotEqual};
ghost use Rattle.polars_compare.specs.MissingLaws.{MissingIsReflexive, MissingIsSymmetric};
ghost use Rattle.polars_compare.specs.MissingLaws.{MissingIsTransitive, UnequalIsNotEqual};
ghost use Rattle.polars_compare.specs.OrderLaws.{AtMostIsLessOrSame, LessIsTransitive, OneOfThree};
ghost use Rattle.polars_compare.specs.OrderLaws.{SameIsEqual};
ghost use Rattle.polars_compare.specs.RowsLaws.{MissingByRows, RawEqualityByRows, RawOrderByRows};

pub use polars_compare_nested::laws::{law_steps, law_tally};

/// States that the order of rows is total. Of two numbers, two truth values or two byte strings `x`
/// and `y`, exactly one holds: `x` is less than `y`, equal to `y`, or greater than `y`. At most
/// means less or equal. Less is transitive. The test `same_row` holds exactly if two rows are
/// equal.
pub fn law_total_order()
    ensures same { SameIsEqual }
    ensures one_of_three { OneOfThree }
    ensures at_most { AtMostIsLessOrSame }
    ensures transitive { LessIsTransitive }
{}

/// States that missing equality of arrays of one type and length is reflexive, symmetric and
/// transitive, and that missing inequality is its complement. The clauses `arrays_..` say this of
/// two arrays of any kind (`AnyArray`), and the others of two lists of rows.
pub fn law_missing_equivalence()
    ensures reflexive { MissingIsReflexive }
    ensures symmetric { MissingIsSymmetric }
    ensures transitive { MissingIsTransitive }
    ensures complement { UnequalIsNotEqual }
    ensures arrays_reflexive { ArraysAreReflexive }
    ensures arrays_symmetric { ArraysAreSymmetric }
    ensures arrays_transitive { ArraysAreTransitive }
    ensures arrays_complement { ArraysUnequalIsNotEqual }
{}

/// States that comparisons depend only on rows, not on the way in which the rows are stored: arrays
/// with the same rows get the same bits. For raw comparisons this holds at each index where both
/// rows are present.
pub fn law_rows_alone()
    ensures missing { MissingByRows }
    ensures arrays { ArraysByRows }
    ensures raw_equality { RawEqualityByRows }
    ensures raw_order { RawOrderByRows }
{}

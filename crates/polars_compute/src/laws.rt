//! Laws about the results of arithmetic, counts, sums, reductions, extremes and distinct values. A
//! law is a function that does nothing at run time. Its `ensures` clauses are proved facts about
//! the definitions that contracts use.

ghost use Rattle.num_traits.specs.Laws.{bit_len};
ghost use Rattle.polars_arrays_flat.specs.Row.{Bytes, Int, Truth};
ghost use Rattle.polars_compute.specs.ArithmeticLaws.{AnswersByRows, DividesBack, NumberOnLeft};
ghost use Rattle.polars_compute.specs.ArithmeticLaws.{NumberOnRight, ResultsByRows};
ghost use Rattle.polars_compute.specs.QuotientLaws.{FloorIsGreatest, FloorLeavesModulus};
ghost use Rattle.polars_compute.specs.QuotientLaws.{ModulusIsRest, TruncatedIsNearest};
ghost use Rattle.polars_compute.specs.ReductionLaws.{AnyBothByRows, AnyExtremesByRows, BothByRows};
ghost use Rattle.polars_compute.specs.ReductionLaws.{CountsByRows, ExtremesByRows};
ghost use Rattle.polars_compute.specs.ReductionLaws.{ReductionsByRows, SumsByRows};
ghost use Rattle.polars_compute.specs.StateLaws.{MergesAsAppended, MergesEitherWay, MergesInGroups};
ghost use Rattle.polars_compute.specs.StateLaws.{MergesWithItself, ReadStaysWhenAppended};
ghost use Rattle.polars_compute.specs.StateLaws.{ReadStaysWhenMerged, ReadsByRows, StatesByRows};
ghost use Rattle.polars_compute.specs.StateLaws.{StaysWhenAppended, StaysWhenMerged};
ghost use Rattle.polars_compute.specs.SumLaw.{SumsJoin};

use polars_compute_arithmetic::arithmetic::pl_num::PlNumArithmetic;
use polars_compute_reductions::wrapping::WrappingNumber;

/// States that results depend only on rows, not on the way in which the rows are stored. Two arrays
/// with the same rows have the same arithmetic results, the same counts of bits, the same sum, the
/// same reductions, and the same least and greatest rows. (For `AnyArray` the least and the
/// greatest row also depend on the type.) Appending either array has the same effect on a state of
/// distinct values, and reads the same number of rows.
pub fn law_rows_alone<T: PlNumArithmetic>()
    ensures functions { AnswersByRows T.value T.low (bit_len T.width) }
    ensures operations { ResultsByRows T.value T.low (bit_len T.width) }
    ensures counts { CountsByRows (bit_len T.width) }
    ensures truth_counts { CountsByRows 1 }
    ensures sums { SumsByRows T.low (bit_len T.width) }
    ensures reductions { ReductionsByRows (bit_len T.width) }
    ensures truth_reductions { ReductionsByRows 1 }
    ensures number_extremes { ExtremesByRows (λ number. Int (T.value number))
        × BothByRows (λ number. Int (T.value number)) }
    ensures truth_extremes { ExtremesByRows Truth × BothByRows Truth }
    ensures string_extremes { ExtremesByRows Bytes × BothByRows Bytes }
    ensures any_extremes { AnyExtremesByRows × AnyBothByRows }
    ensures states { StatesByRows }
    ensures reads { ReadsByRows }
{}

/// States that the floor quotient of `a` and `b`, times `b`, plus the modulus of `a` and `b` is
/// `a`. The divisor `b` isn't 0, and all operations wrap. For example, -7 is -4 times 2 plus 1.
pub fn law_divides_back<T: PlNumArithmetic>()
    ensures { DividesBack T.low T.high (bit_len T.width) }
{}

/// States which whole numbers the quotients and the modulus of `a` and a divisor `b` are, if `b`
/// isn't 0. The floor quotient is the greatest whole number that is at most `a / b`. The truncated
/// quotient is the whole number nearest to `a / b` among those from 0 to `a / b`. The modulus is
/// `a` minus the floor quotient times `b`. It is 0 or has the sign of `b`, and its magnitude is
/// less than that of `b`. No other number has the same properties.
pub fn law_quotients()
    ensures floor { FloorIsGreatest }
    ensures truncated { TruncatedIsNearest }
    ensures modulus { ModulusIsRest }
    ensures divided { FloorLeavesModulus }
{}

/// States that an operation on a column and a number has the same result as the operation on the
/// column and a second column, which holds the number in each row. The number may be the left or
/// the right operand.
pub fn law_repeated_number<T: PlNumArithmetic>()
    ensures right { NumberOnRight T.low (bit_len T.width) }
    ensures left { NumberOnLeft T.low (bit_len T.width) }
{}

/// States that a column can be summed in chunks: the wrapped sums of two chunks, added and wrapped,
/// are the wrapped sum of all rows of both chunks.
pub fn law_sums_join<T: WrappingNumber>()
    ensures { SumsJoin T.low (bit_len T.width) }
{}

/// States that merging states of one range is commutative, associative and idempotent. Merging two
/// new states after arrays were appended to each gives the same state as appending all these arrays
/// to one new state.
pub fn law_states_merge()
    ensures either_way { MergesEitherWay }
    ensures in_groups { MergesInGroups }
    ensures with_itself { MergesWithItself }
    ensures as_appended { MergesAsAppended }
{}

/// States that the result of a state stays the same once the state has seen all values of its range
/// and a null. Neither appending an array that the state accepts nor merging a state of the same
/// range changes it. In a state of dictionary keys, each key to a null entry counts as null.
pub fn law_all_seen()
    ensures appended { StaysWhenAppended }
    ensures merged { StaysWhenMerged }
    ensures read_appended { ReadStaysWhenAppended }
    ensures read_merged { ReadStaysWhenMerged }
{}

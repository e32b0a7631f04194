//! Laws about the definitions that contracts use. Each law is the contract of a function that does
//! nothing at run time.

ghost use Rattle.polars_arrays_nested.specs.Leaves.{LeavesAddUp};
ghost use Rattle.polars_compare_leaves.specs.Sameness.{same_leaf};
ghost use Rattle.polars_compare_nested.specs.Headline.{EqualityTellsTrees, IsEquality};
ghost use Rattle.polars_compare_nested.specs.TallyLaws.{ListLeavesAreOneWindow};
ghost use Rattle.polars_compare_nested.specs.TallyLaws.{ListTallyIsOneWindow, ListsAreAdjacent};
ghost use Rattle.polars_compare_nested.specs.TallyLaws.{StructLeavesAreColumns};
ghost use Rattle.polars_compare_nested.specs.TallyLaws.{StructTallyIsColumns, TallyAddsUp};
ghost use Rattle.polars_compare_nested.specs.TallyLaws.{TallyIsSymmetric, TallyIsWithinLeaves};
ghost use Rattle.polars_compare_nested.specs.TallyLaws.{TallyOfClone, TallyOfCut};

use polars_arrays_nested::laws::law_leaves;

/// States laws of the tally: the number of comparisons of leaves in a comparison of two windows.
///
/// The tally is at most the number of leaf slots of the left window. It stays the same if the two
/// sides are exchanged, so it is also at most the number of leaf slots of the right window. Tallies
/// of adjacent windows add up, and so do their leaf slots. The items of adjacent lists are
/// adjacent. Therefore a window of lists has the leaf slots of one window of items, and adjacent
/// lists that match have the tally of that window. The tally and the leaf slots of structs are the
/// sums of those of their columns. Slices and clones have the tally of the same rows of the
/// original.
pub fn law_tally()
    ensures within { TallyIsWithinLeaves }
    ensures adds_up { TallyAddsUp }
    ensures symmetric { TallyIsSymmetric }
    ensures leaves_add_up { LeavesAddUp }
    ensures lists_adjacent { ListsAreAdjacent }
    ensures list_leaves { ListLeavesAreOneWindow }
    ensures list_tally { ListTallyIsOneWindow }
    ensures struct_leaves { StructLeavesAreColumns }
    ensures struct_tally { StructTallyIsColumns }
    ensures of_cut { TallyOfCut }
    ensures of_clone { TallyOfClone }
{
    law_leaves();
}

/// States that `Steps` compares leaves by equality. Also states that with any comparison of leaves
/// that is equality, two rows are the same exactly if they are the same tree. A `LeafKernel` has
/// such a comparison if it compares two numbers, two truth values and two byte strings by equality.
pub fn law_steps()
    ensures equality { IsEquality same_leaf }
    ensures trees { EqualityTellsTrees }
{}

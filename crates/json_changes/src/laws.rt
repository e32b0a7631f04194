//! Laws of differences and of rules. The functions do nothing at run time; their contracts state
//! the laws.

ghost use Rattle.json_changes.specs.Laws.{AllToldWithoutRules, EachIsReal, EachIsSmallest};
ghost use Rattle.json_changes.specs.Laws.{NoneIsMissed, NoneWhereSame, NothingToldWhereSame};
ghost use Rattle.json_changes.specs.Laws.{OnlyNumbersTolerated, PathsLead, PathsPart};
ghost use Rattle.json_changes.specs.Laws.{ToldAreDifferences, TolerancesAddNone};

/// States the laws of differences between two values whose objects have no name twice. There is no
/// difference if and only if the values are equal. The path of a difference leads in each value to
/// the part that differs, or to no part if the difference says that the part is missing. The two
/// parts are not equal, and are neither two arrays nor two objects. If the parts at a path are not
/// equal, there is a difference at the path, above it or below it. No path of a difference begins
/// with the path of another difference.
pub fn change_laws()
    ensures none_where_same { NoneWhereSame }
    ensures paths_lead { PathsLead }
    ensures each_is_real { EachIsReal }
    ensures each_is_smallest { EachIsSmallest }
    ensures none_is_missed { NoneIsMissed }
    ensures paths_part { PathsPart }
{}

/// States the laws of rules. Without rules every difference is reported. Under rules only
/// differences are reported, and none if the two values are equal and no object of theirs has a
/// name twice. Tolerances allow only differences between two numbers, and never add a difference to
/// a report.
pub fn rule_laws()
    ensures all_told { AllToldWithoutRules }
    ensures told_are_differences { ToldAreDifferences }
    ensures nothing_where_same { NothingToldWhereSame }
    ensures only_numbers_tolerated { OnlyNumbersTolerated }
    ensures tolerances_add_none { TolerancesAddNone }
{}

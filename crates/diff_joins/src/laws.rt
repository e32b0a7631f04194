//! Laws about comparing tables in several ranges of keys, and about merging sorted tables. The
//! functions do nothing; their contracts are the laws.

ghost use Rattle.diff_joins.specs.Laws.{JoinsComparisons, JoinsMatchings, JoinsPartners};
ghost use Rattle.diff_joins.specs.Merge.{MergesAdded, MergesNone, MergesOn, MergesPair};
ghost use Rattle.diff_joins.specs.Merge.{MergesRemoved};
ghost use Rattle.diff_joins.specs.More.{MatchesAdded, MatchesPair, MatchesRemoved};

/// Law: a left table has the rows of `A` followed by those of `B`, and a right table has the rows
/// of `C` followed by those of `D`. Suppose that no row of `A` or `C` has the same key as a row of
/// `B` or `D`. Then two rows are partners in the two tables exactly if they are partners in `A` and
/// `C`, or in `B` and `D`. The comparison of the two tables is the comparison of `A` with `C`,
/// followed by the comparison of `B` with `D`.
pub fn law_joined()
    ensures partners { JoinsPartners }
    ensures matchings { JoinsMatchings }
    ensures comparisons { JoinsComparisons }
{}

/// Law: two tables are matched, and then rows are appended. If both tables have equally many rows
/// with a key, and each gets one more row with this key, the two new rows are partners. If only one
/// table gets a new row, and it already has at least as many rows with the same key as the other
/// table, the new row has no partner.
pub fn law_one_row_more()
    ensures pair { MatchesPair }
    ensures removed { MatchesRemoved }
    ensures added { MatchesAdded }
{}

/// Law: two sorted tables can be merged row by row. Each step takes the row with the lesser of the
/// two next keys, or both rows if their keys are equal. After each step the taken rows are matched
/// correctly, independent of the rows that follow. At the end all rows are matched.
pub fn law_merged()
    ensures begin { MergesNone }
    ensures on { MergesOn }
    ensures pair { MergesPair }
    ensures removed { MergesRemoved }
    ensures added { MergesAdded }
{}

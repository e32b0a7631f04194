//! Laws about dividing tables into parts by the keys of their rows: the comparison of two tables
//! consists of the comparisons of their parts. The functions do nothing; their contracts are the
//! laws.

ghost use Rattle.diff_parts.specs.Laws.{EachKeyHasAPart, KeepsAdded, KeepsPartners, KeepsPlaces};
ghost use Rattle.diff_parts.specs.Laws.{KeepsRemoved, KeepsRows};

/// Law: for every number of parts, each key is in exactly one part.
pub fn law_one_part()
    ensures { EachKeyHasAPart }
{}

/// Law: two tables are filtered by the same condition on keys. Exactly the rows whose keys meet the
/// condition remain, in their order. Two remaining rows are partners exactly if they were partners
/// before, and a remaining row has no partner exactly if it had none before.
pub fn law_kept_rows()
    ensures places { KeepsPlaces }
    ensures rows { KeepsRows }
    ensures partners { KeepsPartners }
    ensures removed { KeepsRemoved }
    ensures added { KeepsAdded }
{}

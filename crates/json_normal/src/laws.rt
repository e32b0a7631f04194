//! Laws of normal forms and of their texts. The function does nothing at run time; its contract
//! states the laws.

ghost use Rattle.json_normal.specs.Laws.{MembersInAnyOrder, NormalFormsTell, NormalTextsTell};
ghost use Rattle.json_normal.specs.Laws.{NumbersAreReadWhole, TextReadsBack};

/// States the laws of normal forms of values whose objects have no name twice. In the normal form
/// of a value, members are sorted by name, and each number has its normal text. Two values are
/// equal if and only if they have the same normal form, and if and only if they have the same
/// normal text. If a value has at most `max_depth` levels, the most that the `json` crate parses,
/// its normal text parses as its normal form. The order of an object's members does not change its
/// normal form. The value of a number depends on its whole text.
pub fn normal_laws()
    ensures members_in_any_order { MembersInAnyOrder }
    ensures normal_forms_tell { NormalFormsTell }
    ensures normal_texts_tell { NormalTextsTell }
    ensures text_reads_back { TextReadsBack }
    ensures numbers_are_read_whole { NumbersAreReadWhole }
{}

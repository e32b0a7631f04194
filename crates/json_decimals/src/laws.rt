//! Laws of decimals and of their texts. The function does nothing at run time; its contract states
//! the laws.

ghost use Rattle.json_decimals.specs.Laws.{NormalFormsTell, NormalIsEqual, NormalTextsTell};
ghost use Rattle.json_decimals.specs.Laws.{OneNormalForm, PassesOn, TextReadsBack};

/// States laws of decimals. A decimal is its digits, read as an integer, times `10^up / 10^down`. A
/// decimal other than zero is in normal form if its last digit is not 0, and `up` or `down` is 0.
/// Zero is in normal form if it has no sign, and `up` and `down` are both 0. The laws state that
/// equality of decimals is transitive, that each decimal has exactly one equal normal form, and
/// that the normal text of a decimal reads back as its normal form. Two decimals are equal if and
/// only if they have the same normal form, and if and only if they have the same normal text.
pub fn decimal_laws()
    ensures passes_on { PassesOn }
    ensures normal_is_equal { NormalIsEqual }
    ensures one_normal_form { OneNormalForm }
    ensures normal_forms_tell { NormalFormsTell }
    ensures text_reads_back { TextReadsBack }
    ensures normal_texts_tell { NormalTextsTell }
{}

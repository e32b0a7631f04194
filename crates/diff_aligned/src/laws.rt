//! Laws of reports in aligned columns. The function does nothing; its contract has the laws.

ghost use Rattle.diff_aligned.specs.Laws.{CutsHaveRoom, PaddedFill, ParagraphsHaveRoom};
ghost use Rattle.diff_aligned.specs.Laws.{RowsHaveRoom, TextsAreShown, WholeWhereRoom};

/// States the laws of reports in aligned columns. On a terminal of 40 or more columns, no row of
/// the table is wider than the terminal. On a terminal of any width, no line of words
/// (`push_paragraph`) is wider than the terminal. Shown texts have no hidden characters (control
/// characters and invisible ones). A cut text is at most as wide as its room, a padded text exactly
/// as wide, and a text that fits its room is not cut.
pub fn aligned_laws()
    ensures rows { RowsHaveRoom }
    ensures paragraphs { ParagraphsHaveRoom }
    ensures shown { TextsAreShown }
    ensures cut { CutsHaveRoom }
    ensures padded { PaddedFill }
    ensures whole { WholeWhereRoom }
{}

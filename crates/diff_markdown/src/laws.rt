//! Laws of reports as Markdown. The function does nothing; its contract has the laws.

ghost use Rattle.diff_markdown.specs.Laws.{TextsStayInside, ValuesAreKept};

/// States two laws of reports as Markdown. An escaped text has no backquote and no bar, which would
/// end its code span or its table cell. The text written for a JSON value, nested at most as deep
/// as the JSON reader allows, is read as the same value.
pub fn markdown_laws()
    ensures inside { TextsStayInside }
    ensures values { ValuesAreKept }
{}

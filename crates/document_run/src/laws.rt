//! Laws of reports of documents. The functions do nothing at run time; their contracts state the
//! laws.

ghost use Rattle.document_run.specs.Laws.{ChangedAreNotSame, KeepsDocuments};

/// States that, without rules, the changed pairs of a report are exactly the matched pairs whose
/// documents are not equal.
pub fn report_laws()
    ensures { ChangedAreNotSame }
{}

/// States that reading a text for part I of N (`Reading::part`) gives exactly those rows of the
/// whole text whose key belongs to part I, in the same order and with the same line numbers. So the
/// laws about dividing tables into parts (`diff_parts`) hold for documents too.
pub fn part_laws()
    ensures { KeepsDocuments }
{}

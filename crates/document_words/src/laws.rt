//! Laws of numbers in keys. The function does nothing; its contract has the laws.

ghost use Rattle.document_words.specs.Laws.{KeyTextReadsBack, KeyTextsTell};

/// States two laws. The text that a report has for a number in a key is a number of the same value.
/// Two numbers have the same text in a report if and only if they have the same value.
pub fn key_laws()
    ensures reads_back { KeyTextReadsBack }
    ensures tell { KeyTextsTell }
{}

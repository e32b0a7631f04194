//! Laws of the texts of paths. The function does nothing at run time; its contract states the laws.

ghost use Rattle.json_paths.specs.Laws.{EachHasAText, OnePath, OnePattern};

/// States that a text is the text of at most one path and of at most one pattern. A pattern is a
/// path whose steps may also be `[]`, the step to any item of an array. Each pattern with at least
/// one step has a text, if its indices are below 2^64.
pub fn path_laws()
    ensures one_path { OnePath }
    ensures one_pattern { OnePattern }
    ensures each_has_a_text { EachHasAText }
{}

//! Laws of HTML pages. The function does nothing; its contract has the law.

ghost use Rattle.std.specs.Prelude.{ℕ, List};
ghost use Rattle.diff_page.specs.Page.{HasNoTag, untagged};

/// Law: the part of a page with the report and the names of the files has no `<`, for any report
/// and any names. So no HTML tag begins there.
pub fn law_no_tag()
    ensures { (text : List ℕ) → HasNoTag (untagged text) }
{}

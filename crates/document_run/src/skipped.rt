//! Checks that not all lines of an input were skipped.

ghost use Rattle.std.specs.Prelude.{◌≡◌, false, None, MatchResult};
ghost use Rattle.document_run.specs.Skipped.{IsSkippedFault, none_kept};

use crate::error::DocumentError;
use crate::inputs::ReadSide;
use crate::options::DocumentOptions;
use diff_columns::error::Side;

/// Returns whether lines of an input were skipped, and no document was read.
fn none_kept(read: &ReadSide) -> bool
    ensures { result ≡ none_kept read.now.table.lines.items read.now.skipped.items }
{
    read.table.lines.is_empty() && !read.skipped.is_empty()
}

/// Checks that not all lines of an input were skipped, and fails with `AllSkipped` if they were.
/// Checks nothing if `options.reading` has a part, since a part may have no documents. `side` is
/// the side of the input, for the error.
pub(crate) fn test_kept(
    read: &ReadSide,
    options: &DocumentOptions<'_>,
    side: Side,
) -> Result<(), DocumentError>
    ensures { MatchResult result
        (λ _. options.now.reading.part ≡ None
        → none_kept read.now.table.lines.items read.now.skipped.items ≡ false)
        (IsSkippedFault options.now read.now side) }
{
    if options.reading.part.is_some() {
        return Ok(());
    }
    if none_kept(read) {
        return Err(DocumentError::AllSkipped { side });
    }
    Ok(())
}

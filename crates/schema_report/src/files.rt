//! The names of two files.

ghost use Rattle.std.specs.Prelude.{◌≡◌};
ghost use Rattle.schema_report.specs.ColumnChanges.{file_on};

use diff_columns::error::Side;

/// The names of two files.
#[derive(Clone, Copy)]
pub struct Files<'a> {
    pub left: &'a [u8],
    pub right: &'a [u8],
}

/// Returns the name of the file on this side.
pub fn file_on<'a>(files: Files<'a>, side: Side) -> &'a [u8]
    ensures { result.now ≡ file_on files.entry side }
{
    match side {
        Side::Left => files.left,
        Side::Right => files.right,
    }
}

//! Divides the width of the terminal among the parts of the rows. All widths are in columns of the
//! terminal.

ghost use Rattle.std.specs.Prelude.{◌≡◌, ◌<◌, ◌+◌, ◌^◌};
ghost use Rattle.diff_aligned.specs.Aligned.{rooms_for};
ghost use Rattle.diff_aligned.specs.Rooms.{needed, no_rooms, rooms_in, share, with_row};
ghost use Rattle.diff_aligned.specs.Rows.{row_view, rows_view};

use crate::rows::Row;
use diff_widths::cut::width_of;

/// The width of the mark, the gaps and the arrow in the line of a changed row.
const GAPS: usize = 10;

/// A width for each part of a row: each field is the width of the field of `Row` with the same
/// name.
#[derive(Clone, Copy)]
pub(crate) struct Rooms {
    pub(crate) key: usize,
    pub(crate) part: usize,
    pub(crate) left: usize,
    pub(crate) right: usize,
    pub(crate) note: usize,
}

/// Returns for each part the greater of two widths: the width in `rooms`, and the width that the
/// part has in `row`.
fn with_row(rooms: Rooms, row: &Row) -> Rooms
    ensures { result ≡ with_row rooms (row_view row.now) }
{
    Rooms {
        key: rooms.key.max(width_of(&row.key)),
        part: rooms.part.max(width_of(&row.part)),
        left: rooms.left.max(width_of(&row.left)),
        right: rooms.right.max(width_of(&row.right)),
        note: rooms.note.max(width_of(&row.note)),
    }
}

/// Returns for each part the greatest width that it has in any of `rows`, or 0 if there are no
/// rows.
fn needed(rows: &[Row]) -> Rooms
    ensures { result ≡ needed no_rooms (rows_view rows.now) }
{
    let mut rooms = Rooms {
        key: 0,
        part: 0,
        left: 0,
        right: 0,
        note: 0,
    };
    for row in rows {
        rooms = with_row(rooms, row);
    }
    rooms
}

/// Returns the width of one of `n` parts that share `free` columns: `need`, the columns that the
/// part needs, but at most the greater of `free / n` and `left`. `left` is the number of columns
/// that remain if each of the other parts gets what it needs.
fn share(n: usize, free: usize, need: usize, left: usize) -> usize
    requires { 0 < n }
    ensures { result ≡ share n free need left }
{
    need.min((free / n).max(left))
}

/// Divides `free` columns among the parts of the rows. `need` has the greatest width of each part.
/// Wide parts get less than they need if the columns don't suffice.
#[tactic(auto, unfolding(crate::specs::Rooms::rooms_in))]
fn rooms_in(free: usize, need: Rooms) -> Rooms
    requires { free + 10 < 2 ^ 64 }
    ensures { result ≡ rooms_in free need }
{
    let sides_leave = free
        .saturating_sub(need.part)
        .saturating_sub(need.left)
        .saturating_sub(need.right);
    let key = share(
        4,
        free,
        need.key,
        sides_leave.min(free.saturating_sub(need.note)),
    );
    let rest = free.saturating_sub(key);
    let sides_leave = rest.saturating_sub(need.left).saturating_sub(need.right);
    let part = share(3, rest, need.part, sides_leave);
    let rest = rest.saturating_sub(part);
    let left = share(2, rest, need.left, rest.saturating_sub(need.right));
    // The marks and gaps take 4 columns in a line with a note, and `GAPS` columns in other lines.
    Rooms {
        key,
        part,
        left,
        right: rest.saturating_sub(left),
        note: (free + 6).saturating_sub(key),
    }
}

/// Returns the width of each part of `rows` on a terminal of `width` columns.
pub(crate) fn rooms_for(width: usize, rows: &[Row]) -> Rooms
    ensures { result ≡ rooms_for width (rows_view rows.now) }
{
    rooms_in(width.saturating_sub(GAPS), needed(rows))
}

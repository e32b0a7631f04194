//! The kinds of cells.

ghost use Rattle.std.specs.List.{All};
ghost use Rattle.std.specs.Prelude.{◌≡◌, ◌↔◌, ℕ, List, IsTrue};
ghost use Rattle.polars_arrays_bytes.specs.OffsetStrings.{offset_strings};
ghost use Rattle.schema_columns.specs.Kinds.{IsNarrowest, same_kind, width};

use crate::wholes::whole_in;
use diff_numbers::cells::number_in;
use polars_arrays_bytes::binary::BinaryArray;
use polars_arrays_flat::byte_rows::ByteRows;

/// The kind of the values of a column. The variants are ordered from the narrowest kind to the
/// widest.
#[derive(Clone, Copy, Debug, PartialEq, Eq)]
pub enum Kind {
    /// No values.
    Empty,
    /// `true` or `false`.
    Truth,
    /// Integers in JSON syntax, from -2^63 to 2^63 - 1, without a point or an exponent.
    Whole,
    /// Numbers in JSON syntax.
    Number,
    /// Any byte strings.
    Text,
}

/// Returns the position of a kind in the order from the narrowest (0) to the widest (4).
fn width(kind: Kind) -> u8
    ensures { result ≡ width kind }
{
    match kind {
        Kind::Empty => 0,
        Kind::Truth => 1,
        Kind::Whole => 2,
        Kind::Number => 3,
        Kind::Text => 4,
    }
}

/// Returns whether two kinds are equal.
pub fn is_same_kind(left: Kind, right: Kind) -> bool
    ensures { result ≡ same_kind left right }
{
    width(left) == width(right)
}

/// A condition on a cell.
trait CellTest {
    // Says that a cell meets the condition.
    ghost Passes: { List ℕ → Type 0 };

    /// Returns whether a cell meets the condition.
    fn passes(cell: &[u8]) -> bool
        ensures { IsTrue result ↔ Passes cell.now };
}

/// The condition that a cell is `true` or `false`.
struct Truths;

/// The condition that a cell is an integer (`Kind::Whole`).
struct Wholes;

/// The condition that a cell is a number (`Kind::Number`).
struct Numbers;

impl CellTest for Truths {
    ghost use Rattle.schema_columns.specs.Kinds.{IsTruth};

    ghost Passes = { IsTruth };

    fn passes(cell: &[u8]) -> bool {
        cell == b"true".as_slice() || cell == b"false".as_slice()
    }
}

impl CellTest for Wholes {
    ghost use Rattle.schema_columns.specs.Kinds.{IsWhole};

    ghost Passes = { IsWhole };

    fn passes(cell: &[u8]) -> bool {
        whole_in(cell).is_some()
    }
}

impl CellTest for Numbers {
    ghost use Rattle.schema_values.specs.Numbers.{IsNumber};

    ghost Passes = { IsNumber };

    fn passes(cell: &[u8]) -> bool {
        number_in(cell).is_some()
    }
}

/// Returns whether all cells meet the condition `T`.
fn all_pass<T: CellTest>(cells: &BinaryArray<i64>) -> bool
    ensures { IsTrue result ↔ All T.Passes (offset_strings (λ x. x) cells.now) }
{
    for i in 0..cells.count() {
        if !T::passes(cells.bytes(i)) {
            return false;
        }
    }
    true
}

/// Returns the narrowest kind that fits all cells. Without cells, this is `Empty`.
pub fn kind_of(cells: &BinaryArray<i64>) -> Kind
    ensures { IsNarrowest (offset_strings (λ x. x) cells.now) result }
{
    if cells.count() == 0 {
        return Kind::Empty;
    }
    if all_pass::<Truths>(cells) {
        return Kind::Truth;
    }
    if all_pass::<Wholes>(cells) {
        return Kind::Whole;
    }
    if all_pass::<Numbers>(cells) {
        return Kind::Number;
    }
    Kind::Text
}

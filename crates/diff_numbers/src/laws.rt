//! Laws of the texts by which cells are compared. The function does nothing; its contract has the
//! laws.

ghost use Rattle.diff_numbers.specs.Laws.{CellsTell, NumbersTell};

/// States two laws about the text by which a cell is compared in a column whose numbers are
/// compared by value. First, two cells have the same text if and only if they are the same bytes,
/// or numbers of the same value. Second, two numbers have the same text if and only if they have
/// the same value.
pub fn comparable_laws()
    ensures cells_tell { CellsTell }
    ensures numbers_tell { NumbersTell }
{}

//! Converts cells to the texts by which they are compared. A number becomes its normal text, which
//! all numbers of the same value share: `15e-1` for 1.5 and 1.50.

ghost use Rattle.std.specs.Prelude.{◌≡◌, ◌++◌, ◌∷◌, [], ℕ, List, true, false, Err, MatchOption};
ghost use Rattle.std.specs.Prelude.{OnOk};
ghost use Rattle.diff_numbers.specs.Cells.{IsNumeral, IsWideNumber, comparable, is_number};
ghost use Rattle.diff_tables.specs.Strings.{AreStrings};
ghost use Rattle.json_decimals.specs.Texts.{normal_number};

use diff_tables::strings::Strings;
use json::is_number;
use json_decimals::error::NumberError;
use json_decimals::numbers::push_normal_number;

/// Returns the cell as text if it is a number in JSON syntax, and else `None`.
pub fn number_in(cell: &[u8]) -> Option<&str>
    ensures { MatchOption result (is_number cell.now ≡ false)
        (λ text. IsNumeral cell.now text.now) }
{
    let Ok(text) = str::from_utf8(cell) else {
        return None;
    };
    if is_number(text) { Some(text) } else { None }
}

/// Appends the normal text of the number `text` to `cells`. `room` is memory that is overwritten.
/// Fails with `WideExponent` if the exponent has more than 30 digits, leading zeros not counted,
/// and with `Memory` if an allocation fails.
fn push_number(cells: &mut Strings, room: &mut Vec<u8>, text: &str) -> Result<(), NumberError>
    requires { is_number text.now ≡ true }
    ensures ok { OnOk result
        ((all : List (List ℕ)) → AreStrings cells.old all
        → AreStrings cells.new (all ++ normal_number text.now ∷ [])) }
    ensures wide { result ≡ Err NumberError.WideExponent → IsWideNumber text.now }
{
    room.clear();
    push_normal_number(room, text)?;
    cells.push(room)?;
    Ok(())
}

/// Appends to `cells` the text by which `cell` is compared: the normal text if `numeric` is true
/// and `cell` is a number, and else `cell` itself. `room` is memory that is overwritten.
///
/// Fails with `WideExponent` if `numeric` is true and `cell` is a number with an exponent of more
/// than 30 digits, leading zeros not counted. Fails with `Memory` if an allocation fails.
pub(crate) fn push_comparable(
    cells: &mut Strings,
    room: &mut Vec<u8>,
    cell: &[u8],
    numeric: bool,
) -> Result<(), NumberError>
    ensures ok { OnOk result
        ((all : List (List ℕ)) → AreStrings cells.old all
        → AreStrings cells.new (all ++ comparable numeric cell.now ∷ [])) }
    ensures counts { result ≡ Err NumberError.WideExponent → numeric ≡ true }
    ensures wide { result ≡ Err NumberError.WideExponent → IsWideNumber cell.now }
{
    if numeric {
        if let Some(text) = number_in(cell) {
            return push_number(cells, room, text);
        }
    }
    cells.push(cell)?;
    Ok(())
}

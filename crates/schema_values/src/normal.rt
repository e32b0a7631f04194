//! Converts numbers to their normal texts. All numbers of the same value have the same normal text.

ghost use Rattle.std.specs.List.{All};
ghost use Rattle.std.specs.Prelude.{◌≡◌, ◌++◌, ◌∷◌, [], ℕ, List, true, Err, OnOk, MatchResult};
ghost use Rattle.polars_arrays_bytes.specs.OffsetStrings.{offset_strings};
ghost use Rattle.diff_numbers.specs.Cells.{is_number};
ghost use Rattle.diff_tables.specs.Strings.{AreStrings};
ghost use Rattle.json_decimals.specs.Texts.{HasWideExponent, normal_number};
ghost use Rattle.schema_values.specs.Numbers.{AreNormal, IsNumber, IsNumberFault};

use diff_numbers::cells::number_in;
use diff_tables::strings::Strings;
use json_decimals::error::NumberError;
use json_decimals::numbers::push_normal_number;
use polars_arrays_bytes::binary::BinaryArray;
use polars_arrays_flat::byte_rows::ByteRows;
use std::alloc::Global;

/// Appends the normal text of the number in `cell` to `texts`. `cell` must be a number. `room` is a
/// buffer that is overwritten. Fails with `WideExponent` if the exponent has more than 30 digits,
/// and with `Memory` if an allocation fails.
fn push_normal(texts: &mut Strings, room: &mut Vec<u8>, cell: &[u8]) -> Result<(), NumberError>
    requires { is_number cell.now ≡ true }
    ensures ok { OnOk result
        ((all : List (List ℕ)) → AreStrings texts.old all
        → AreStrings texts.new (all ++ normal_number cell.now ∷ [])) }
    ensures narrow { OnOk result (¬ HasWideExponent cell.now) }
    ensures wide { result ≡ Err NumberError.WideExponent → HasWideExponent cell.now }
{
    let Some(text) = number_in(cell) else {
        unreachable!()
    };
    room.clear();
    push_normal_number(room, text)?;
    texts.push(room)?;
    Ok(())
}

/// Returns the normal text of the number in each cell. Each cell must be a number. Fails with
/// `WideExponent` if an exponent has more than 30 digits, and with `Memory` if an allocation fails.
pub(crate) fn normal_texts(alloc: Global, cells: &BinaryArray<i64>) -> Result<Strings, NumberError>
    requires { All IsNumber (offset_strings (λ x. x) cells.now) }
    ensures { MatchResult result (AreNormal (offset_strings (λ x. x) cells.now))
        (IsNumberFault (offset_strings (λ x. x) cells.now)) }
{
    let mut texts = Strings::new(alloc)?;
    let mut room = Vec::new(alloc);
    for i in 0..cells.count() {
        push_normal(&mut texts, &mut room, cells.bytes(i))?;
    }
    Ok(texts)
}

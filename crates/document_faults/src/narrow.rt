//! Checks that the exponents of numbers have at most 30 digits.

ghost use Rattle.json.specs.Value.{items_view, members_view, value_view};
ghost use Rattle.json_decimals.specs.Texts.{HasWideExponent};
ghost use Rattle.json_normal.specs.Narrow.{HasNarrowNumbers, ItemsHaveNarrowNumbers};
ghost use Rattle.json_normal.specs.Narrow.{MembersHaveNarrowNumbers, TellsNarrow};

use json::Value;
use json_decimals::error::NumberError;
use json_decimals::numbers::push_normal_number;

/// The most digits that an exponent may have, leading zeros not counted.
const MOST_DIGITS: usize = 30;

/// Checks that the exponent of the number `text` has at most 30 digits, and fails with
/// `WideExponent` if not, or with `Memory` if an allocation fails. `room` is memory that may be
/// overwritten. A text of at most 30 bytes needs no further check.
pub(crate) fn check_number(room: &mut Vec<u8>, text: &str) -> Result<(), NumberError>
    ensures { TellsNarrow result (¬ HasWideExponent text.now) }
{
    if text.len() <= MOST_DIGITS {
        return Ok(());
    }
    room.clear();
    push_normal_number(room, text)?;
    Ok(())
}

/// Checks that the exponents of all numbers in a value have at most 30 digits, and fails with
/// `WideExponent` if not, or with `Memory` if an allocation fails. `room` is memory that may be
/// overwritten.
#[cycle(narrow)]
pub fn check_narrow<'a>(room: &mut Vec<u8>, value: &Value<'a>) -> Result<(), NumberError>
    ensures { TellsNarrow result (HasNarrowNumbers (value_view value.now)) }
{
    match value {
        Value::Number(text) => check_number(room, text),
        Value::Array(items) => check_items(room, items),
        Value::Object(members) => check_members(room, members),
        _ => Ok(()),
    }
}

/// Checks the exponents of all numbers in the items of an array. Fails like `check_narrow`.
#[cycle(narrow)]
fn check_items<'a>(room: &mut Vec<u8>, items: &Vec<Value<'a>>) -> Result<(), NumberError>
    ensures { TellsNarrow result (ItemsHaveNarrowNumbers (items_view items.now.items)) }
{
    for item in items {
        check_narrow(room, item)?;
    }
    Ok(())
}

/// Checks the exponents of all numbers in the values of an object's members. Fails like
/// `check_narrow`.
#[cycle(narrow)]
fn check_members<'a>(
    room: &mut Vec<u8>,
    members: &Vec<(&'a str, Value<'a>)>,
) -> Result<(), NumberError>
    ensures { TellsNarrow result (MembersHaveNarrowNumbers (members_view members.now.items)) }
{
    for member in members {
        check_narrow(room, &member.1)?;
    }
    Ok(())
}

//! Writing of the normal text of a value.

ghost use Rattle.std.specs.Prelude.{◌≡◌, [], ◌∷◌, ◌++◌, OnOk, ⊤};
ghost use Rattle.json.specs.Print.{IsPrintable};
ghost use Rattle.json.specs.Reads.{token_of};
ghost use Rattle.json.specs.Strict.{HasUniqueKeys, ItemsHaveUniqueKeys, MembersHaveUniqueKeys};
ghost use Rattle.json.specs.Strict.{AreDistinct, keys};
ghost use Rattle.json.specs.Token.{number};
ghost use Rattle.json.specs.Tree.{json_tokens, items_tokens, members_tokens};
ghost use Rattle.json.specs.Value.{value_view, items_view, members_view};
ghost use Rattle.json_decimals.specs.Texts.{HasWideExponent, normal_number};
ghost use Rattle.json_normal.specs.Narrow.{HasNarrowNumbers, ItemsHaveNarrowNumbers};
ghost use Rattle.json_normal.specs.Narrow.{MembersHaveNarrowNumbers, TellsNarrow};
ghost use Rattle.json_normal.specs.Normal.{normal, normal_items, normal_entries, in_order};
ghost use Rattle.json_normal.specs.Normal.{members_from};

use crate::order::in_key_order;
use json::{Token, Value, Writer};
use json_decimals::error::NumberError;
use json_decimals::numbers::push_normal_number;
use std::alloc::Global;
use std::str::from_utf8_unchecked;

/// Writes a token. Fails with `Memory` if an allocation fails.
fn write_token(writer: &mut Writer, token: Token<'_>) -> Result<(), NumberError>
    requires { IsPrintable (token_of token) }
    ensures ok { OnOk result (writer.new.tokens
        ≡ writer.old.tokens ++ token_of token.entry ∷ []) }
    ensures narrow { TellsNarrow result ⊤ }
    ensures before { writer.new.before ≡ writer.old.before }
{
    writer.token(token)?;
    Ok(())
}

/// Writes the normal text of a number. `room` is a buffer whose contents are overwritten. Fails
/// with `WideExponent` if the exponent has more than 30 digits, not counting leading zeros, and
/// with `Memory` if an allocation fails.
fn write_number(writer: &mut Writer, room: &mut Vec<u8>, text: &str) -> Result<(), NumberError>
    ensures ok { OnOk result (writer.new.tokens
        ≡ writer.old.tokens ++ number (normal_number text.now) ∷ []) }
    ensures narrow { TellsNarrow result (¬ HasWideExponent text.now) }
    ensures before { writer.new.before ≡ writer.old.before }
{
    room.clear();
    push_normal_number(room, text)?;
    let normal = unsafe { from_utf8_unchecked(room.as_slice()) };
    write_token(writer, Token::Number(normal))?;
    Ok(())
}

/// Writes the normal text of a value. `room` is a buffer whose contents are overwritten.
///
/// Fails with `WideExponent` if the exponent of a number has more than 30 digits, not counting
/// leading zeros, and with `Memory` if an allocation fails. Some tokens may then have been written.
#[cycle(normal)]
pub fn write_normal<'a>(
    alloc: Global,
    writer: &mut Writer,
    room: &mut Vec<u8>,
    value: &Value<'a>,
) -> Result<(), NumberError>
    requires unique { HasUniqueKeys (value_view value.now) }
    ensures ok { OnOk result (writer.new.tokens
        ≡ writer.old.tokens ++ json_tokens (normal (value_view value.now))) }
    ensures narrow { TellsNarrow result (HasNarrowNumbers (value_view value.now)) }
    ensures before { writer.new.before ≡ writer.old.before }
{
    match value {
        Value::Null => write_token(writer, Token::Null),
        Value::Bool(b) => write_token(writer, Token::Bool(*b)),
        Value::Number(text) => write_number(writer, room, text),
        Value::String(text) => write_token(writer, Token::String(text)),
        Value::Array(items) => {
            write_token(writer, Token::BeginArray)?;
            write_items(alloc, writer, room, items)
        }
        Value::Object(members) => {
            write_token(writer, Token::BeginObject)?;
            write_members(alloc, writer, room, members)
        }
    }
}

/// Writes the normal texts of the items of an array, and then its closing bracket. Fails like
/// `write_normal`.
#[cycle(normal)]
fn write_items<'a>(
    alloc: Global,
    writer: &mut Writer,
    room: &mut Vec<u8>,
    items: &Vec<Value<'a>>,
) -> Result<(), NumberError>
    requires unique { ItemsHaveUniqueKeys (items_view items.now.items) }
    ensures ok { OnOk result (writer.new.tokens
        ≡ writer.old.tokens ++ items_tokens (normal_items (items_view items.now.items))) }
    ensures narrow { TellsNarrow result (ItemsHaveNarrowNumbers (items_view items.now.items)) }
    ensures before { writer.new.before ≡ writer.old.before }
{
    for item in items {
        write_normal(alloc, writer, room, item)?;
    }
    write_token(writer, Token::EndArray)
}

/// Writes the members of an object, sorted by name, with the normal texts of their values, and then
/// the closing brace. Fails like `write_normal`.
#[cycle(normal)]
fn write_members<'a>(
    alloc: Global,
    writer: &mut Writer,
    room: &mut Vec<u8>,
    members: &Vec<(&'a str, Value<'a>)>,
) -> Result<(), NumberError>
    requires distinct { AreDistinct (keys (members_view members.now.items)) }
    requires unique { MembersHaveUniqueKeys (members_view members.now.items) }
    ensures ok { OnOk result (writer.new.tokens
        ≡ writer.old.tokens ++ members_tokens (members_from
        (in_order (normal_entries (members_view members.now.items))))) }
    ensures narrow { TellsNarrow result
        (MembersHaveNarrowNumbers (members_view members.now.items)) }
    ensures before { writer.new.before ≡ writer.old.before }
{
    let order = in_key_order(alloc, members)?;
    for i in 0..order.len() {
        let member = order[i];
        write_token(writer, Token::Key(member.0))?;
        write_normal(alloc, writer, room, &member.1)?;
    }
    write_token(writer, Token::EndObject)
}

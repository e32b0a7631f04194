//! Looks up members of a JSON line. If several members have the same name, the last one counts. In
//! contracts, `HasNumbers` says that the text of each number in a value is a valid JSON number. It
//! holds for all values that were parsed.

ghost use Rattle.std.specs.Prelude.{◌≡◌, IfSome, option_and_then, option_map};
ghost use Rattle.json.specs.Find.{as_array, as_object, get};
ghost use Rattle.json.specs.Tree.{HasNumbers, ItemsHaveNumbers, MembersHaveNumbers};
ghost use Rattle.json.specs.Value.{items_view, members_view, value_view};
ghost use Rattle.diff_lines.specs.Parts.{number_at, string_at};

use json::Value;

/// Returns the value of the member `name`, or `None` if `value` is not an object with this member.
/// If several members have this name, the last one counts.
pub fn part_of<'v, 'a>(value: &'v Value<'a>, name: &str) -> Option<&'v Value<'a>>
    requires { HasNumbers (value_view value.now) }
    ensures found { option_map (λ v. value_view v.now) result
        ≡ get name.now (value_view value.now) }
    ensures numbers { IfSome result (λ v. HasNumbers (value_view v.now)) }
{
    value.get(name)
}

/// Returns the members of the object that `value` has as its member `name`. Returns `None` if
/// `value` has no such member, or if the member is not an object.
pub fn members_at<'v, 'a>(value: &'v Value<'a>, name: &str) -> Option<&'v Vec<(&'a str, Value<'a>)>>
    requires { HasNumbers (value_view value.now) }
    ensures found { option_map (λ v. members_view v.now.items) result
        ≡ option_and_then as_object (get name.now (value_view value.now)) }
    ensures numbers { IfSome result (λ v. MembersHaveNumbers (members_view v.now.items)) }
{
    let part = part_of(value, name)?;
    if let Value::Object(members) = part {
        Some(members)
    } else {
        None
    }
}

/// Returns the items of the array that `value` has as its member `name`. Returns `None` if `value`
/// has no such member, or if the member is not an array.
pub fn items_at<'v, 'a>(value: &'v Value<'a>, name: &str) -> Option<&'v Vec<Value<'a>>>
    requires { HasNumbers (value_view value.now) }
    ensures found { option_map (λ v. items_view v.now.items) result
        ≡ option_and_then as_array (get name.now (value_view value.now)) }
    ensures numbers { IfSome result (λ v. ItemsHaveNumbers (items_view v.now.items)) }
{
    let part = part_of(value, name)?;
    if let Value::Array(items) = part {
        Some(items)
    } else {
        None
    }
}

/// Returns the text of the number that `value` has as its member `name`. Returns an empty text if
/// `value` has no such member, or if the member is not a number.
#[tactic(auto, unfolding(crate::specs::Parts::number_at))]
pub fn number_at<'a>(value: &Value<'a>, name: &str) -> &'a str
    ensures { result.now ≡ number_at name.now (value_view value.now) }
{
    match value.get(name) {
        Some(part) => match part.as_number() {
            Some(text) => text,
            None => "",
        },
        None => "",
    }
}

/// Returns the string that `value` has as its member `name`. Returns an empty text if `value` has
/// no such member, or if the member is not a string.
#[tactic(auto, unfolding(crate::specs::Parts::string_at))]
pub fn string_at<'a>(value: &Value<'a>, name: &str) -> &'a str
    ensures { result.now ≡ string_at name.now (value_view value.now) }
{
    match value.get(name) {
        Some(part) => match part.as_str() {
            Some(text) => text,
            None => "",
        },
        None => "",
    }
}

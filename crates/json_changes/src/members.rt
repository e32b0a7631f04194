//! Access to the items and members of values.

ghost use Rattle.std.specs.Option.{option_map};
ghost use Rattle.std.specs.Prelude.{◌≡◌, MatchOption, None};
ghost use Rattle.json.specs.Find.{as_array, as_object, get_member};
ghost use Rattle.json.specs.Json.{array, object};
ghost use Rattle.json.specs.Value.{value_view, items_view, members_view};

use json::Value;

/// Returns the items of an array, or `None` for any other value.
pub(crate) fn items_of<'v, 'a>(value: &'v Value<'a>) -> Option<&'v Vec<Value<'a>>>
    ensures { MatchOption result (as_array (value_view value.now) ≡ None)
        (λ v. value_view value.now ≡ array (items_view v.now.items)) }
{
    if let Value::Array(items) = value {
        Some(items)
    } else {
        None
    }
}

/// Returns the members of an object, or `None` for any other value.
pub(crate) fn members_of<'v, 'a>(value: &'v Value<'a>) -> Option<&'v Vec<(&'a str, Value<'a>)>>
    ensures { MatchOption result (as_object (value_view value.now) ≡ None)
        (λ v. value_view value.now ≡ object (members_view v.now.items)) }
{
    if let Value::Object(members) = value {
        Some(members)
    } else {
        None
    }
}

/// Returns the value of the last member with this name, or `None` if there is none.
pub(crate) fn find_member<'v, 'a>(
    members: &'v Vec<(&'a str, Value<'a>)>,
    name: &str,
) -> Option<&'v Value<'a>>
    ensures { option_map (λ v. value_view v.now) result
        ≡ get_member name.now (members_view members.now.items) }
{
    let mut left = members.len();
    while left > 0 {
        left -= 1;
        let member = &members[left];
        if member.0 == name {
            return Some(&member.1);
        }
    }
    None
}

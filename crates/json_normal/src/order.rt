//! Sorting of the members of an object by name.

ghost use Rattle.std.specs.List.Sorted.{IsPermutation};
ghost use Rattle.std.specs.Prelude.{◌≡◌, IfOk, map};
ghost use Rattle.json.specs.Strict.{AreDistinct, keys};
ghost use Rattle.json.specs.Value.{members_view};
ghost use Rattle.json_normal.specs.Normal.{normal_entries, in_order, entry_of};

use json::Value;
use std::alloc::{AllocError, Global};

/// Returns references to the members of an object, sorted by name. Names are compared byte by byte.
pub(crate) fn in_key_order<'v, 'a>(
    alloc: Global,
    members: &'v Vec<(&'a str, Value<'a>)>,
) -> Result<Vec<&'v (&'a str, Value<'a>)>, AllocError>
    requires { AreDistinct (keys (members_view members.now.items)) }
    ensures moved { IfOk result
        (λ v. IsPermutation members.now.items (map (λ m. m.now) v.items)) }
    ensures ordered { IfOk result
        (λ v. map entry_of v.items ≡ in_order (normal_entries (members_view members.now.items))) }
{
    let mut order = Vec::with_capacity(alloc, members.len())?;
    for member in members {
        order.push_reserved(member);
    }
    order.sort_by_key(|member| member.0)?;
    Ok(order)
}

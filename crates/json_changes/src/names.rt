//! Lookup of many members by name.

ghost use Rattle.std.specs.Prelude.{◌≡◌, ◌<◌, IfOk, length, map};
ghost use Rattle.json.specs.Find.{get_member};
ghost use Rattle.json.specs.Value.{members_view};
ghost use Rattle.json_changes.specs.Names.{FindsMembers, at_name, found_values, seen};

use crate::members::find_member;
use json::Value;
use std::alloc::{AllocError, Global};
use std::collections::BTreeMap;

/// The greatest number of members that are searched one by one.
const FEW: usize = 16;

/// Returns a map from the names of members to their values. If a name occurs twice, its last value
/// counts. The map is empty if there are at most `FEW` members, since `find_in` searches these one
/// by one.
fn by_name<'v, 'a>(
    alloc: Global,
    members: &'v Vec<(&'a str, Value<'a>)>,
) -> Result<BTreeMap<&'a str, &'v Value<'a>>, AllocError>
    ensures { IfOk result (λ names. FEW < length members.now.items
        → FindsMembers names (members_view members.now.items)) }
{
    let mut names = BTreeMap::new(alloc);
    if members.len() <= FEW {
        return Ok(names);
    }
    for i in 0..members.len() {
        let member = &members[i];
        names.insert(member.0, &member.1)?;
    }
    Ok(names)
}

/// Returns the value that a map has at `name`, or `None` if it has none.
fn look_up<'v, 'a>(names: &BTreeMap<&'a str, &'v Value<'a>>, name: &str) -> Option<&'v Value<'a>>
    ensures { result ≡ at_name names.now name.now }
{
    names.get(name).copied()
}

/// Returns the value of the last member with this name, or `None` if there is none. `names` is the
/// map that `by_name` returns for the members.
fn find_in<'v, 'a>(
    members: &'v Vec<(&'a str, Value<'a>)>,
    names: &BTreeMap<&'a str, &'v Value<'a>>,
    name: &str,
) -> Option<&'v Value<'a>>
    requires { FEW < length members.now.items
        → FindsMembers names.now (members_view members.now.items) }
    ensures { seen result ≡ get_member name.now (members_view members.now.items) }
{
    if members.len() <= FEW {
        find_member(members, name)
    } else {
        look_up(names, name)
    }
}

/// Returns an entry for each of `members`: the value of the last member of `among` with the same
/// name, or `None` if `among` has no such member.
pub(crate) fn find_all<'v, 'a, 'b>(
    alloc: Global,
    members: &Vec<(&'a str, Value<'a>)>,
    among: &'v Vec<(&'b str, Value<'b>)>,
) -> Result<Vec<Option<&'v Value<'b>>>, AllocError>
    ensures { IfOk result (λ found. map seen found.items
        ≡ found_values members.now.items (members_view among.now.items)) }
{
    let names = by_name(alloc, among)?;
    let mut found = Vec::with_capacity(alloc, members.len())?;
    for i in 0..members.len() {
        found.push(find_in(among, &names, members[i].0))?;
    }
    Ok(found)
}

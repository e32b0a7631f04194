//! Paths, and the parts of values that they lead to.

ghost use Rattle.std.specs.Prelude.{◌≡◌, map, option_map};
ghost use Rattle.json.specs.Value.{value_view};
ghost use Rattle.json_paths.specs.Paths.{part_at, step_into};
ghost use Rattle.json_paths.specs.Views.{path_view, step_view};

use json::Value;

/// A step into a value: to the last member with a name (`Name`), or to the item at an index from 0
/// (`Place`).
#[derive(Drop)]
pub enum Step {
    Name(String),
    Place(usize),
}

/// A path from a value to a part of it.
#[derive(Drop)]
pub struct Path {
    pub steps: Vec<Step>,
}

impl Step {
    /// Returns the part of a value to which the step leads, or `None` if there is none.
    pub fn part_of<'v, 'a>(&self, value: &'v Value<'a>) -> Option<&'v Value<'a>>
        ensures { option_map (λ v. value_view v.now) result
            ≡ step_into (step_view self.now) (value_view value.now) }
    {
        match self {
            Step::Name(name) => value.get(name.as_str()),
            Step::Place(place) => value.at(*place),
        }
    }
}

/// Returns the part of a value to which the steps lead, or `None` if there is none.
fn part_behind<'v, 'a>(steps: &[Step], value: &'v Value<'a>) -> Option<&'v Value<'a>>
    ensures { option_map (λ v. value_view v.now) result
        ≡ part_at (map step_view steps.now) (value_view value.now) }
{
    let Some((step, rest)) = steps.split_first() else {
        return Some(value);
    };
    match step.part_of(value) {
        Some(part) => part_behind(rest, part),
        None => None,
    }
}

impl Path {
    /// Returns the part of a value to which the path leads, or `None` if there is none.
    pub fn part_of<'v, 'a>(&self, value: &'v Value<'a>) -> Option<&'v Value<'a>>
        ensures { option_map (λ v. value_view v.now) result
            ≡ part_at (path_view self.now) (value_view value.now) }
    {
        part_behind(&self.steps, value)
    }
}

//! The rules that say which differences are reported.

ghost use Rattle.std.specs.List.{list_any};
ghost use Rattle.std.specs.Option.{option_map};
ghost use Rattle.std.specs.Prelude.{◌≡◌, map};
ghost use Rattle.json.specs.Value.{value_view};
ghost use Rattle.json_paths.specs.PatternViews.{pattern_view};
ghost use Rattle.json_decimals.specs.Decimals.{decimal_of};
ghost use Rattle.json_decimals.specs.Texts.{HasWideExponent};
ghost use Rattle.json_tolerances.specs.Closeness.{is_close};
ghost use Rattle.json_changes.specs.Rules.{PartsAreNarrow, allows, are_close, has_named};
ghost use Rattle.json_changes.specs.Rules.{is_asked_for, is_named, is_nothing, is_told};
ghost use Rattle.json_changes.specs.Rules.{is_tolerated, no_rules};
ghost use Rattle.json_changes.specs.Texts.{rules_view, tolerance_view, trail_view};

use json::Value;
use json_paths::path::Step;
use json_paths::pattern::Pattern;
use json_tolerances::closeness::Margin;
use std::alloc::Global;

/// A pattern, and the margin within which the numbers that it names may differ.
#[derive(Drop)]
pub struct Tolerance {
    /// The pattern. It names numbers, or parts that contain numbers.
    pub pattern: Pattern,
    /// The margin within which the numbers may differ.
    pub margin: Margin,
}

/// The rules that say which differences between two values are reported.
#[derive(Drop)]
pub struct Rules {
    /// The patterns of the parts whose differences are never reported. Differences inside these
    /// parts are not reported either.
    pub ignored: Vec<Pattern>,
    /// Patterns that limit the report. If there are any, only differences of these parts are
    /// reported: parts that one of the patterns names, parts inside them, and parts that contain
    /// them.
    pub only: Vec<Pattern>,
    /// `true` if a missing part is equal to null.
    pub missing_is_null: bool,
    /// The tolerances for numbers. A difference that one of them allows is not reported.
    pub tolerances: Vec<Tolerance>,
}

/// Returns whether one of the patterns names the part at a path, or a part that contains it.
fn is_named(patterns: &[Pattern], path: &[Step]) -> bool
    ensures { result ≡ is_named (map pattern_view patterns.now) (trail_view path.now) }
{
    let Some((pattern, rest)) = patterns.split_first() else {
        return false;
    };
    pattern.begins(path) || is_named(rest, path)
}

/// Returns whether one of the patterns names a part inside the part at a path. The inner part need
/// not exist.
fn has_named(patterns: &[Pattern], path: &[Step]) -> bool
    ensures { result ≡ has_named (map pattern_view patterns.now) (trail_view path.now) }
{
    let Some((pattern, rest)) = patterns.split_first() else {
        return false;
    };
    pattern.leads_inside(path) || has_named(rest, path)
}

/// Returns whether `patterns`, the list `Rules::only`, selects the part at a path: one of the
/// patterns names this part, a part that contains it, or a part inside it. An empty list selects
/// all parts.
fn is_asked_for(patterns: &[Pattern], path: &[Step]) -> bool
    ensures { result ≡ is_asked_for (map pattern_view patterns.now) (trail_view path.now) }
{
    if patterns.split_first().is_none() {
        return true;
    }
    is_named(patterns, path) || has_named(patterns, path)
}

/// Returns whether a part is missing or null.
fn is_nothing(part: Option<&Value<'_>>) -> bool
    ensures { result ≡ is_nothing (option_map (λ v. value_view v.now) part.entry) }
{
    matches!(part, None | Some(Value::Null))
}

/// Returns whether two numbers differ by at most a margin. Their exponents must have at most 30
/// digits, not counting leading zeros.
fn is_within(margin: &Margin, left: &str, right: &str) -> bool
    requires left { ¬ HasWideExponent left.now }
    requires right { ¬ HasWideExponent right.now }
    ensures { result ≡ is_close margin.now (decimal_of left.now) (decimal_of right.now) }
{
    match margin.allows(left, right) {
        Ok(is_close) => is_close,
        Err(_) => unreachable!(),
    }
}

/// Returns whether two parts are numbers that differ by at most a margin.
fn are_close(margin: &Margin, left: Option<&Value<'_>>, right: Option<&Value<'_>>) -> bool
    requires { PartsAreNarrow (option_map (λ v. value_view v.now) left)
        (option_map (λ v. value_view v.now) right) }
    ensures { result ≡ are_close margin.now (option_map (λ v. value_view v.now) left.entry)
        (option_map (λ v. value_view v.now) right.entry) }
{
    match (left, right) {
        (Some(Value::Number(a)), Some(Value::Number(b))) => is_within(margin, a, b),
        _ => false,
    }
}

impl Tolerance {
    /// Returns whether the tolerance allows the difference between `left` and `right`, the parts at
    /// `path` of two values. It does if its pattern names the part at `path` or a part that
    /// contains it, and `left` and `right` are numbers that differ by at most its margin.
    fn allows(&self, path: &[Step], left: Option<&Value<'_>>, right: Option<&Value<'_>>) -> bool
        requires { PartsAreNarrow (option_map (λ v. value_view v.now) left)
            (option_map (λ v. value_view v.now) right) }
        ensures { result ≡ allows (tolerance_view self.now) (record {
          path = trail_view path.now;
          left = option_map (λ v. value_view v.now) left.entry;
          right = option_map (λ v. value_view v.now) right.entry;
        }) }
    {
        self.pattern.begins(path) && are_close(&self.margin, left, right)
    }
}

/// Returns whether one of the tolerances allows the difference between two parts at a path.
fn is_tolerated(
    tolerances: &[Tolerance],
    path: &[Step],
    left: Option<&Value<'_>>,
    right: Option<&Value<'_>>,
) -> bool
    requires { PartsAreNarrow (option_map (λ v. value_view v.now) left)
        (option_map (λ v. value_view v.now) right) }
    ensures { result ≡ is_tolerated (map tolerance_view tolerances.now) (record {
      path = trail_view path.now;
      left = option_map (λ v. value_view v.now) left.entry;
      right = option_map (λ v. value_view v.now) right.entry;
    }) }
{
    let Some((tolerance, rest)) = tolerances.split_first() else {
        return false;
    };
    tolerance.allows(path, left, right) || is_tolerated(rest, path, left, right)
}

impl Rules {
    /// Returns empty rules, under which every difference is reported.
    pub fn none(alloc: Global) -> Rules
        ensures { rules_view result ≡ no_rules }
    {
        Rules {
            ignored: Vec::new(alloc),
            only: Vec::new(alloc),
            missing_is_null: false,
            tolerances: Vec::new(alloc),
        }
    }

    /// Returns whether the rules report the difference between `left` and `right`, the parts at
    /// `path` of the two values. `None` is a missing part.
    pub(crate) fn tell(
        &self,
        path: &[Step],
        left: Option<&Value<'_>>,
        right: Option<&Value<'_>>,
    ) -> bool
        requires { PartsAreNarrow (option_map (λ v. value_view v.now) left)
            (option_map (λ v. value_view v.now) right) }
        ensures { result ≡ is_told (rules_view self.now) (record {
          path = trail_view path.now;
          left = option_map (λ v. value_view v.now) left.entry;
          right = option_map (λ v. value_view v.now) right.entry;
        }) }
    {
        !is_named(&self.ignored, path)
            && is_asked_for(&self.only, path)
            && !(self.missing_is_null && is_nothing(left) && is_nothing(right))
            && !is_tolerated(&self.tolerances, path, left, right)
    }
}

//! Patterns, which name parts of values by their paths.

ghost use Rattle.std.specs.Prelude.{◌≡◌, map};
ghost use Rattle.json_paths.specs.PatternViews.{pattern_step_view, pattern_view};
ghost use Rattle.json_paths.specs.Patterns.{begins, fits, leads_to};
ghost use Rattle.json_paths.specs.Views.{step_view};

use crate::path::Step;

/// A step of a pattern: exactly one step of a path, or the step to any item of an array.
#[derive(Drop)]
pub enum PatternStep {
    Exactly(Step),
    AnyItem,
}

/// A path in which a step may stand for any item of an array. It names all parts of a value whose
/// paths fit it.
#[derive(Drop)]
pub struct Pattern {
    pub steps: Vec<PatternStep>,
}

impl PatternStep {
    /// Returns whether the step of a path fits this step of a pattern.
    pub fn fits(&self, step: &Step) -> bool
        ensures { result ≡ fits (pattern_step_view self.now) (step_view step.now) }
    {
        match (self, step) {
            (PatternStep::AnyItem, Step::Place(_)) => true,
            (PatternStep::Exactly(Step::Name(a)), Step::Name(b)) => a.as_str() == b.as_str(),
            (PatternStep::Exactly(Step::Place(a)), Step::Place(b)) => *a == *b,
            _ => false,
        }
    }
}

/// Returns whether the steps of a pattern name the part at a path, or a part that contains it: the
/// steps fit the beginning of the path.
fn do_begin(steps: &[PatternStep], path: &[Step]) -> bool
    ensures { result ≡ begins (map pattern_step_view steps.now) (map step_view path.now) }
{
    let Some((own, rest)) = steps.split_first() else {
        return true;
    };
    match path.split_first() {
        Some((step, further)) => own.fits(step) && do_begin(rest, further),
        None => false,
    }
}

/// Returns whether the steps of a pattern name a part inside the part at a path: the path fits the
/// beginning of the steps, and is shorter.
fn do_go_on(steps: &[PatternStep], path: &[Step]) -> bool
    ensures { result ≡ leads_to (map pattern_step_view steps.now) (map step_view path.now) }
{
    let Some((own, rest)) = steps.split_first() else {
        return false;
    };
    match path.split_first() {
        Some((step, further)) => own.fits(step) && do_go_on(rest, further),
        None => true,
    }
}

impl Pattern {
    /// Returns whether the pattern names the part at a path, or a part that contains it. For
    /// example, `a[]` names a part that contains the part at `a[0].b`.
    pub fn begins(&self, path: &[Step]) -> bool
        ensures { result ≡ begins (pattern_view self.now) (map step_view path.now) }
    {
        do_begin(&self.steps, path)
    }

    /// Returns whether the pattern names a part inside the part at a path. For example, `a[].b`
    /// names a part inside `a[0]`.
    pub fn leads_inside(&self, path: &[Step]) -> bool
        ensures { result ≡ leads_to (pattern_view self.now) (map step_view path.now) }
    {
        do_go_on(&self.steps, path)
    }
}

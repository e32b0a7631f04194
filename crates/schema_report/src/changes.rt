//! Finds the differences between two schemas. A schema is a list of parts. A part is a column of a
//! table or a path of documents, with its name and with the kinds of its values (such as integers,
//! texts, nulls). Of two schemas, the n-th parts with the same name are partners.

ghost use Rattle.std.specs.Option.{option_copied};
ghost use Rattle.std.specs.Prelude.{◌≡◌, ◌++◌, ℕ, List, [], take, OnOk};
ghost use Rattle.diff_columns.specs.declared.error.Side.{Side};
ghost use Rattle.schema_report.specs.Changes.{change_text, changes_text, count_named};
ghost use Rattle.schema_report.specs.Changes.{count_parts, counts_of, is_alone, is_changed};
ghost use Rattle.schema_report.specs.Changes.{lone_text, nth_named, partner};

use diff_columns::error::Side;
use schema_values::part::SchemaPart;
use std::alloc::AllocError;

/// The numbers of changed, removed, added and unchanged parts of two schemas. The n-th part with a
/// name is matched with the n-th part with this name in the other schema.
#[derive(Clone, Copy, Debug, PartialEq, Eq)]
pub struct SchemaCounts {
    /// The number of parts in both schemas with different kinds.
    pub changed: usize,
    /// The number of parts in the left schema alone.
    pub removed: usize,
    /// The number of parts in the right schema alone.
    pub added: usize,
    /// The number of parts in both schemas with the same kinds.
    pub same: usize,
}

/// A format in which differences between two schemas are written.
pub trait ChangeForm<S: SchemaPart> {
    // The text about a part that only one side has.
    ghost alone: { Self → Side → S → List ℕ };

    // The text about a left and a right part with different kinds.
    ghost changed: { Self → S → S → List ℕ };

    /// Appends the text about `part`, which only the schema on the side `side` has.
    fn push_alone(&self, out: &mut Vec<u8>, side: Side, part: &S) -> Result<(), AllocError>
        ensures { OnOk result (out.new.items ≡ out.old.items ++ alone self.now side part.now) };

    /// Appends the text about a left and a right part of the same name with different kinds.
    fn push_changed(&self, out: &mut Vec<u8>, left: &S, right: &S) -> Result<(), AllocError>
        ensures { OnOk result
            (out.new.items ≡ out.old.items ++ changed self.now left.now right.now) };
}

/// Returns how many of `parts` have this name.
fn count_named<S: SchemaPart>(parts: &[S], name: &[u8]) -> usize
    ensures { result ≡ count_named S.name_of name.now parts.now }
{
    let mut count = 0;
    for part in parts {
        if part.name() == name {
            count += 1;
        }
    }
    count
}

/// Returns the part with this name before which exactly `n` of `parts` have the name, or `None` if
/// at most `n` parts have it.
fn nth_named<'a, S: SchemaPart>(parts: &'a [S], name: &[u8], n: usize) -> Option<&'a S>
    ensures { option_copied result ≡ nth_named S.name_of name.now n parts.now }
{
    let mut left = n;
    for part in parts {
        if part.name() == name {
            if left == 0 {
                return Some(part);
            }
            left -= 1;
        }
    }
    None
}

/// Returns the partner of `part` among `others`, the parts of the other schema, or `None` if it has
/// no partner. `before` are the parts before `part` in its own schema.
fn partner<'a, S: SchemaPart>(others: &'a [S], before: &[S], part: &S) -> Option<&'a S>
    ensures { option_copied result ≡ partner S.name_of others.now before.now part.now }
{
    nth_named(others, part.name(), count_named(before, part.name()))
}

/// Returns whether `part`, which comes after `before`, has no partner among `others`.
fn is_alone<S: SchemaPart>(others: &[S], before: &[S], part: &S) -> bool
    ensures { result ≡ is_alone S.name_of others.now before.now part.now }
{
    partner(others, before, part).is_none()
}

/// Returns whether `part`, which comes after `before`, has a partner among `others` with other
/// kinds.
fn is_changed<S: SchemaPart>(others: &[S], before: &[S], part: &S) -> bool
    ensures { result ≡ is_changed S.name_of S.same_kinds others.now before.now part.now }
{
    match partner(others, before, part) {
        Some(other) => !part.has_kinds_of(other),
        None => false,
    }
}

/// Returns how many of `parts` have no partner among `others`.
fn count_alone<S: SchemaPart>(others: &[S], parts: &[S]) -> usize
    ensures { result ≡ count_parts (is_alone S.name_of others.now) [] parts.now }
{
    let mut count = 0;
    for i in 0..parts.len() {
        if is_alone(others, &parts[..i], &parts[i]) {
            count += 1;
        }
    }
    count
}

/// Returns how many of `parts` have a partner among `others` with other kinds.
fn count_changed<S: SchemaPart>(others: &[S], parts: &[S]) -> usize
    ensures { result ≡ count_parts (is_changed S.name_of S.same_kinds others.now) [] parts.now }
{
    let mut count = 0;
    for i in 0..parts.len() {
        if is_changed(others, &parts[..i], &parts[i]) {
            count += 1;
        }
    }
    count
}

/// Matches each part of two schemas with its partner, and returns the numbers of parts with
/// different kinds (`changed`), in the left schema alone (`removed`), in the right schema alone
/// (`added`), and with the same kinds (`same`).
pub fn counts_of<S: SchemaPart>(left: &[S], right: &[S]) -> SchemaCounts
    ensures { result ≡ counts_of S.name_of S.same_kinds left.now right.now }
{
    let changed = count_changed(right, left);
    let removed = count_alone(right, left);
    SchemaCounts {
        changed,
        removed,
        added: count_alone(left, right),
        same: left.len().saturating_sub(changed).saturating_sub(removed),
    }
}

/// Appends the text about `part`, a part of the left schema after the parts `before`, if it has no
/// partner among `right`, or if its partner has different kinds. Otherwise appends nothing.
fn push_change<S: SchemaPart, F: ChangeForm<S>>(
    out: &mut Vec<u8>,
    form: &F,
    right: &[S],
    before: &[S],
    part: &S,
) -> Result<(), AllocError>
    ensures { OnOk result
        (out.new.items ≡ out.old.items
        ++ change_text S.name_of S.same_kinds (F.alone form.now) (F.changed form.now) right.now
        before.now part.now) }
{
    match partner(right, before, part) {
        None => form.push_alone(out, Side::Left, part),
        Some(other) => {
            if part.has_kinds_of(other) {
                return Ok(());
            }
            form.push_changed(out, part, other)
        }
    }
}

/// Appends the text about `part`, a part of the right schema after the parts `before`, if it has no
/// partner among `left`.
fn push_lone<S: SchemaPart, F: ChangeForm<S>>(
    out: &mut Vec<u8>,
    form: &F,
    left: &[S],
    before: &[S],
    part: &S,
) -> Result<(), AllocError>
    ensures { OnOk result
        (out.new.items ≡ out.old.items ++ lone_text S.name_of (F.alone form.now) left.now
        before.now part.now) }
{
    if is_alone(left, before, part) {
        form.push_alone(out, Side::Right, part)?;
    }
    Ok(())
}

/// Appends the texts about all differences between two schemas: first about parts of the left
/// schema, in order, and then about parts that only the right schema has.
pub fn push_changes<S: SchemaPart, F: ChangeForm<S>>(
    out: &mut Vec<u8>,
    form: &F,
    left: &[S],
    right: &[S],
) -> Result<(), AllocError>
    ensures { OnOk result
        (out.new.items ≡ out.old.items
        ++ changes_text S.name_of S.same_kinds (F.alone form.now) (F.changed form.now) left.now
        right.now) }
{
    for i in 0..left.len() {
        push_change(out, form, right, &left[..i], &left[i])?;
    }
    for i in 0..right.len() {
        push_lone(out, form, left, &right[..i], &right[i])?;
    }
    Ok(())
}

//! Comparison of a large number with a sum, digit by digit from the highest.

ghost use Rattle.std.specs.Ordering.{nat_cmp};
ghost use Rattle.std.specs.Prelude.{◌≡◌, ℕ, ◌+◌, ◌-◌, ◌*◌, ◌/◌, ◌^◌, ◌≤◌, ◌&&◌, ◌||◌, nat_le};

use crate::terms::Term;
use std::cmp::Ordering;

/// Returns a position `p`, at most `place`, such that the digits of all three numbers at the
/// positions `p..place` are 0. The comparison skips these digits. Position 0 is the last digit.
fn next_place(x: &Term<'_>, y: &Term<'_>, z: &Term<'_>, place: u128) -> u128
    ensures within { result ≤ place }
    ensures first { x.now / 10 ^ result ≡ x.now / 10 ^ place * 10 ^ (place - result) }
    ensures second { y.now / 10 ^ result ≡ y.now / 10 ^ place * 10 ^ (place - result) }
    ensures third { z.now / 10 ^ result ≡ z.now / 10 ^ place * 10 ^ (place - result) }
{
    x.zeros_from(place)
        .max(y.zeros_from(place))
        .max(z.zeros_from(place))
}

/// Compares `by_x * x` with `by_y * y + by_z * z`.
///
/// Reads the digits from the highest one on, and stops as soon as the remaining digits can't change
/// the result. Long runs of zeros are skipped.
pub(crate) fn compare_with_sum(
    x: &Term<'_>,
    y: &Term<'_>,
    z: &Term<'_>,
    by_x: u64,
    by_y: u64,
    by_z: u64,
) -> Ordering
    ensures { result ≡ nat_cmp (by_x * x.now) (by_y * y.now + by_z * z.now) }
{
    let (by_x, by_y, by_z) = (by_x as u128, by_y as u128, by_z as u128);
    let mut place = x.top().max(y.top()).max(z.top());
    let mut over: u128 = 0;
    let mut under: u128 = 0;
    while place > 0 {
        let next = next_place(x, y, z, place);
        if over == 0 && under == 0 && next < place {
            place = next;
        } else {
            place -= 1;
            let more = over * 10 + by_x * x.digit(place);
            let less = under * 10 + by_y * y.digit(place) + by_z * z.digit(place);
            over = more.saturating_sub(less);
            under = less.saturating_sub(more);
            if over > by_y + by_z {
                return Ordering::Greater;
            }
            if under > by_x {
                return Ordering::Less;
            }
        }
    }
    over.cmp(&under)
}

/// Returns whether `x` is at most `y + by_z * z`.
fn is_at_most_sum(x: &Term<'_>, y: &Term<'_>, z: &Term<'_>, by_z: u64) -> bool
    ensures { result ≡ nat_le x.now (y.now + by_z * z.now) }
{
    compare_with_sum(x, y, z, 1, 1, by_z).is_le()
}

/// Returns whether `x + y` is at most `by_z * z`.
pub(crate) fn is_sum_at_most(x: &Term<'_>, y: &Term<'_>, z: &Term<'_>, by_z: u64) -> bool
    ensures { result ≡ nat_le (x.now + y.now) (by_z * z.now) }
{
    compare_with_sum(z, x, y, by_z, 1, 1).is_ge()
}

/// Returns whether `x` is at most `y + times * beside_x`, and `y` is at most `x + times *
/// beside_y`.
pub(crate) fn is_each_at_most(
    x: &Term<'_>,
    y: &Term<'_>,
    beside_x: &Term<'_>,
    beside_y: &Term<'_>,
    times: u64,
) -> bool
    ensures { result ≡ (nat_le x.now (y.now + times * beside_x.now)
        && nat_le y.now (x.now + times * beside_y.now)) }
{
    is_at_most_sum(x, y, beside_x, times) && is_at_most_sum(y, x, beside_y, times)
}

/// Returns whether `x + y` is at most `times * v`, or at most `times * w`.
pub(crate) fn is_sum_at_most_either(
    x: &Term<'_>,
    y: &Term<'_>,
    v: &Term<'_>,
    w: &Term<'_>,
    times: u64,
) -> bool
    ensures { result ≡ (nat_le (x.now + y.now) (times * v.now)
        || nat_le (x.now + y.now) (times * w.now)) }
{
    is_sum_at_most(x, y, v, times) || is_sum_at_most(x, y, w, times)
}

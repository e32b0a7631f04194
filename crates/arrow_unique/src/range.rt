//! The range of the numbers whose distinct values a state collects.

ghost use Rattle.std.specs.Prelude.{◌≡◌, ◌+◌, ◌<◌, ◌^◌, ◌≤ℤ◌, ◌-ℤ◌, ◌+ℤ◌, pos, unsigned_abs};
ghost use Rattle.std.specs.Prelude.{IfSome, IsNone};
ghost use Rattle.polars_compute_slots.specs.State.{RangeFits};

/// Returns how many integers there are from `least` to `greatest`, both included. For example,
/// there are 5 from -2 to 2. Returns `None` if `greatest < least`, or if there are more than
/// `usize::MAX - 1` integers, too many for a state of distinct values.
pub fn count_between(least: i128, greatest: i128) -> Option<usize>
    ensures count { IfSome result (λ n. n ≡ unsigned_abs (greatest -ℤ least +ℤ pos 1)) }
    ensures fits { IfSome result (λ _. RangeFits least greatest) }
    ensures few { IfSome result (λ n. n + 1 < 2 ^ 64) }
    ensures end { IfSome result (λ n. (least +ℤ pos n) ≤ℤ pos (2 ^ 127)) }
    ensures none { IsNone result → ¬ RangeFits least greatest }
{
    let Some(distance) = greatest.checked_sub(least) else {
        return None;
    };
    let Ok(distance) = usize::try_from(distance) else {
        return None;
    };
    if distance < usize::MAX - 1 {
        Some(distance + 1)
    } else {
        None
    }
}

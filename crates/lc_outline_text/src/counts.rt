//! Counts up to a cap.
ghost use Rattle.std.specs.Prelude.{◌≡◌, ◌+◌, ◌*◌, IfOk};
ghost use Rattle.lc_outline_text.specs.Views.{capped};

use lc_base::{CONDITION_LIMIT, OutOfMemory};

/// This many conditions count as any larger number.
pub(crate) const COUNT_CAP: u64 = CONDITION_LIMIT + 1;

/// This count, or the cap if it is more.
pub(crate) fn capped(count: u64) -> u64
    ensures { result ≡ capped count }
{
    if count < COUNT_CAP { count } else { COUNT_CAP }
}

/// The sum of two counts, up to the cap.
pub(crate) fn capped_sum(left: u64, right: u64) -> u64
    ensures { result ≡ capped (left + right) }
{
    capped(capped(left) + capped(right))
}

/// The product of two counts, up to the cap.
pub(crate) fn capped_product(left: u64, right: u64) -> u64
    ensures { result ≡ capped (left * right) }
{
    capped(capped(left) * capped(right))
}

/// The sum of two counts.
pub(crate) fn sum_of(left: u64, right: u64) -> Result<u64, OutOfMemory>
    ensures { IfOk result (λ sum. sum ≡ left + right) }
{
    match left.checked_add(right) {
        Some(sum) => Ok(sum),
        None => Err(OutOfMemory),
    }
}

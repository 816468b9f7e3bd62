//! The whole numbers of a text with commas between them.
ghost use Rattle.std.specs.Prelude.{◌≡◌, IfOk, is_some, option_map};
ghost use Rattle.lc_numbers.specs.Numbers.{whole_in, whole_numbers_in};

use lc_base::OutOfMemory;
use std::alloc::Global;

/// The number that a text says, if it says one of 64 bits.
fn whole_in(text: &str) -> Option<i64>
    ensures { result ≡ whole_in text.now }
{
    text.parse().ok()
}

/// Whether each part of a text says a number. Nothing is allocated.
pub fn are_numbers(text: &str) -> bool
    ensures { result ≡ is_some (whole_numbers_in text.now) }
{
    text.split(',').all(|part| whole_in(part).is_some())
}

/// The numbers of a text, in order, if each part of it says one.
pub fn numbers_in(alloc: Global, text: &str) -> Result<Option<Vec<i64>>, OutOfMemory>
    ensures { IfOk result (λ found. option_map (λ numbers. numbers.items) found ≡ whole_numbers_in text.now) }
{
    let mut numbers = Vec::new(alloc);
    for part in text.split(',') {
        let Some(number) = whole_in(part) else {
            return Ok(None);
        };
        numbers.push(number)?;
    }
    Ok(Some(numbers))
}

//! The numbers of a text with commas between them.
ghost use Rattle.std.specs.Prelude.{◌≡◌, IfOk, is_some, option_map};
ghost use Rattle.lc_numbers.specs.Numbers.{whole_numbers_in};

use lc_base::OutOfMemory;
use lc_numbers::{are_numbers, numbers_in};
use std::alloc::Global;

/// A text is taken exactly if each part of it says a number.
pub fn testing_numbers(text: &str) -> bool
    ensures { result ≡ is_some (whole_numbers_in text.now) }
{
    are_numbers(text)
}

/// The numbers are all that the parts of the text say, in order.
pub fn reading_numbers(alloc: Global, text: &str) -> Result<Option<Vec<i64>>, OutOfMemory>
    ensures { IfOk result (λ found. option_map (λ numbers. numbers.items) found ≡ whole_numbers_in text.now) }
{
    numbers_in(alloc, text)
}

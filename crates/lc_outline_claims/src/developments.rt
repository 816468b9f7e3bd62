//! Developments, how they are read and printed, and the lines of their conditions.
ghost use Rattle.std.specs.Prelude.{◌≡◌, IfOk, is_err};
ghost use Rattle.lc_cond.specs.ConditionView.{condition_in, IsCondition};
ghost use Rattle.lc_cond_text.specs.ConditionText.{conditions_text, condition_text};
ghost use Rattle.lc_cond_text.specs.LinesView.{is_spent, text_left, IsNextPiece};
ghost use Rattle.lc_outline.specs.DevelopmentView.{development_view};
ghost use Rattle.lc_outline_print.specs.Developments.{development_printed};
ghost use Rattle.lc_outline_text.specs.Developments.{file_reading};
ghost use Rattle.lc_reading.specs.Files.{IsAnswerTo};

use lc_base::{Fault, OutOfMemory};
use lc_cond::Condition;
use lc_cond_text::{ConditionLines, condition_text};
use lc_outline::Development;
use lc_outline_print::development_text;
use lc_outline_text::development_of;
use lc_table::Terms;
use std::alloc::Global;

/// For a file, its development is returned, or its first refusal.
pub fn reading_a_development(alloc: Global, bytes: &[u8]) -> Result<Development, Fault>
    ensures { IsAnswerTo development_view file_reading bytes.now result }
{
    development_of(alloc, bytes)
}

/// A development is printed as is defined.
pub fn printing_a_development(
    alloc: Global,
    development: &Development,
) -> Result<Vec<u8>, OutOfMemory>
    ensures { IfOk result (λ text. text.items ≡ development_printed (development_view development.now)) }
{
    development_text(alloc, development)
}

/// A condition is printed as is defined.
pub fn printing_a_condition(
    alloc: Global,
    terms: &Terms,
    development: &Development,
    number: u64,
    condition: &Condition,
) -> Result<Vec<u8>, OutOfMemory>
    requires { IsCondition terms.now condition.now }
    ensures { IfOk result (λ text. text.items ≡ condition_text (development_view development.now) number (condition_in terms.now condition.now)) }
{
    condition_text(alloc, terms, development, number, condition)
}

/// The lines of conditions begin with the first.
pub fn beginning_lines<'d>(
    alloc: Global,
    development: &'d Development,
) -> Result<ConditionLines<'d>, OutOfMemory>
    ensures { IfOk result (λ lines. text_left lines ≡ conditions_text (development_view development.entry.now)) }
{
    ConditionLines::new(alloc, development)
}

/// The lines of conditions come in pieces, which join to the text of all; and running out of memory is reported.
pub fn going_on(lines: &mut ConditionLines<'_>) -> Result<Option<Vec<u8>>, OutOfMemory>
    ensures piece { IfOk result (IsNextPiece lines.old lines.new) }
    ensures spent { is_spent lines.new ≡ is_err result }
{
    lines.next_piece()
}

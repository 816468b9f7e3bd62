//! One condition, laid out over lines.
ghost use Rattle.std.specs.Prelude.{◌≡◌, IfOk, option_map};
ghost use Rattle.lc_outline.specs.DevelopmentView.{development_view};
ghost use Rattle.lc_cond_text.specs.Shown.{IsLaid, IsLaidLine, line_at};

use crate::text::condition_text;
use lc_base::{Fault, OutOfMemory};
use lc_cond::ConditionStream;
use lc_layout::lay_out;
use lc_outline::Development;
use lc_sexp::Forms;
use lc_table::Terms;
use std::alloc::Global;

/// The line of the condition of a number, if there is one. No more is held than the conditions of one part of the list.
fn line_at(
    alloc: Global,
    development: &Development,
    number: u64,
) -> Result<Option<Vec<u8>>, OutOfMemory>
    ensures { IfOk result (λ line. option_map (λ l. l.items) line ≡ line_at (development_view development.now) number) }
{
    let mut stream = ConditionStream::new(alloc, development)?;
    'parts: loop {
        let place = (number - stream.first_number()) as usize;
        let mut terms = Terms::new(alloc);
        let Some(part) = stream.next_part(development, &mut terms)? else {
            return Ok(None);
        };
        if let Some(condition) = part.get(place) {
            let line = condition_text(alloc, &terms, development, number, condition)?;
            return Ok(Some(line));
        }
    }
}

/// A line laid out over lines; one that is beyond the limits of a file stays as it is.
fn laid_line(alloc: Global, line: Vec<u8>) -> Result<Vec<u8>, OutOfMemory>
    ensures { IfOk result (λ text. IsLaidLine line.items text.items) }
{
    match Forms::read(alloc, &line) {
        Ok(forms) => lay_out(alloc, forms.cursor()),
        Err(Fault::OutOfMemory) => Err(OutOfMemory),
        Err(Fault::Refused(_)) => {
            let mut text = line;
            text.push(b'\n')?;
            Ok(text)
        }
    }
}

/// The line of the condition of a number, as `conditions` prints it, laid out over lines, if there is such a condition.
pub fn condition_over_lines(
    alloc: Global,
    development: &Development,
    number: u64,
) -> Result<Option<Vec<u8>>, OutOfMemory>
    ensures { IfOk result (IsLaid (line_at (development_view development.now) number)) }
{
    match line_at(alloc, development, number)? {
        Some(line) => Ok(Some(laid_line(alloc, line)?)),
        None => Ok(None),
    }
}

//! The lines of the conditions of a development, in pieces.
ghost use Rattle.std.specs.Prelude.{◌≡◌, ◌++◌, ◌<◌, ◌≤◌, length, true, false, IfOk, OnOk, is_err};
ghost use Rattle.lc_text.specs.Spelling.{Spelled};
ghost use Rattle.lc_outline.specs.DevelopmentView.{development_view};
ghost use Rattle.lc_cond_text.specs.ConditionText.{total_line, conditions_text};
ghost use Rattle.lc_cond_text.specs.Recalled.{Recalls};
ghost use Rattle.lc_cond_text.specs.LinesView.{text_left, is_spent, IsLeft, IsNextPiece, GoesOn, Passes};

use crate::nodes::{push_number, push_text};
use crate::text::push_condition;
use crate::texts::{FormulaTexts, no_texts};
use lc_base::OutOfMemory;
use lc_cond::{Condition, ConditionStream};
use lc_outline::Development;
use lc_table::Terms;
use std::alloc::Global;
use std::marker::Model;

/// A piece is handed out once it has this many bytes.
const PIECE: usize = 65_536;

/// A table with no more entries than this is kept for the next part.
const FEW_ENTRIES: usize = 65_536;

// Whether lines are left.
#[derive(Clone, Copy)]
enum State {
    Going,
    Ended,
    // Out of memory.
    Failed,
}

/// What is left to write: of the last part that was made the conditions from a place on, and the parts that the stream has left.
pub(crate) struct Left {
    stream: ConditionStream,
    terms: Terms,
    texts: FormulaTexts,
    /// With more entries than this the table is begun anew, before the next part is made. It is twice what was entered for the
    /// largest part, so that what parts share, as the invariant, is rarely entered anew.
    most: usize,
    part: Vec<Condition>,
    written: usize,
    /// The number of the next condition.
    number: u64,
}

impl Drop for Left {
    fn drop(self) {
        let Left {
            stream: _,
            terms: _,
            texts: _,
            most: _,
            part: _,
            written: _,
            number: _,
        } = self;
    }
}

/// The lines of the conditions of a development, and that of how many there are, in pieces: no more is held than the
/// conditions of one part of the list, with their table, and one piece, which is as long as `PIECE` and a line.
pub struct ConditionLines<'d> {
    alloc: Global,
    development: &'d Development,
    left: Left,
    state: State,
}

impl<'d> Model for ConditionLines<'d> {
    ghost use Rattle.std.specs.Prelude.{◌≡◌};
    ghost use Rattle.lc_outline.specs.DevelopmentView.{development_view};
    ghost use Rattle.lc_cond_text.specs.LinesView.{LinesLeft, IsLeft, left_in};
    ghost use Rattle.lc_cond_text.specs.declared.lines.State.TheVariants.{Going};

    ghost Value = { LinesLeft };

    ghost view = { λ l. left_in (development_view l.development.now) l.state l.left };

    ghost invariant = { λ l. l.state ≡ Going → IsLeft (development_view l.development.now) l.left };
}

impl Drop for ConditionLines<'_> {
    fn drop(self) {
        let ConditionLines {
            alloc: _,
            development: _,
            left: _,
            state: _,
        } = self;
    }
}

fn push_total(piece: &mut Vec<u8>, count: u64) -> Result<(), OutOfMemory>
    ensures { OnOk result (piece.new.items ≡ piece.old.items ++ total_line count) }
{
    push_text(piece, "total ")?;
    push_number(piece, count)?;
    push_text(piece, "\n")
}

// The line of the next condition, which is one of the last part.
fn push_line(
    piece: &mut Vec<u8>,
    left: &mut Left,
    development: &Development,
) -> Result<(), OutOfMemory>
    requires left { IsLeft (development_view development.now) left.old }
    requires some { left.old.written < length left.old.part.items }
    ensures { OnOk result (GoesOn (development_view development.now) piece.old.items left.old piece.new.items left.new) }
{
    let condition = &left.part[left.written];
    push_condition(
        piece,
        &mut left.texts,
        &left.terms,
        development,
        left.number,
        condition,
    )?;
    push_text(piece, "\n")?;
    left.written += 1;
    left.number = left.number.checked_add(1).ok_or(OutOfMemory)?;
    Ok(())
}

// Begins the table anew, and what is recalled of it, if it has more entries than these.
fn renew(alloc: Global, terms: &mut Terms, texts: &mut FormulaTexts, most: usize)
    ensures { (by : Spelled) → Recalls by terms.old texts.old → Recalls by terms.new texts.new }
{
    if terms.len() > most {
        let fresh = Terms::new(alloc);
        let none = no_texts(alloc);
        *terms = fresh;
        *texts = none;
    }
}

// The conditions of the next part, none of them written yet; or, if nothing is left, the line with the number of conditions.
// Returns whether there was a part.
fn make_part(
    alloc: Global,
    piece: &mut Vec<u8>,
    left: &mut Left,
    development: &Development,
) -> Result<bool, OutOfMemory>
    requires left { IsLeft (development_view development.now) left.old }
    requires none { length left.old.part.items ≤ left.old.written }
    ensures { IfOk result (λ more. Passes (development_view development.now) piece.old.items left.old piece.new.items left.new more) }
{
    renew(alloc, &mut left.terms, &mut left.texts, left.most);
    let before = left.terms.len();
    match left.stream.next_part(development, &mut left.terms)? {
        Some(part) => {
            let entered = left.terms.len().saturating_sub(before);
            left.most = left.most.max(entered.saturating_mul(2));
            left.part = part;
            left.written = 0;
            Ok(true)
        }
        None => {
            push_total(piece, left.number)?;
            Ok(false)
        }
    }
}

// A line more, or the next part. Whether something may be left.
fn go_on(
    alloc: Global,
    piece: &mut Vec<u8>,
    left: &mut Left,
    development: &Development,
) -> Result<bool, OutOfMemory>
    requires { IsLeft (development_view development.now) left.old }
    ensures { IfOk result (λ more. Passes (development_view development.now) piece.old.items left.old piece.new.items left.new more) }
{
    if left.written < left.part.len() {
        push_line(piece, left, development)?;
        Ok(true)
    } else {
        make_part(alloc, piece, left, development)
    }
}

// Lines, until the piece is large enough. Whether something may be left.
fn fill(
    alloc: Global,
    piece: &mut Vec<u8>,
    left: &mut Left,
    development: &Development,
) -> Result<bool, OutOfMemory>
    requires { IsLeft (development_view development.now) left.old }
    ensures { IfOk result (λ more. Passes (development_view development.now) piece.old.items left.old piece.new.items left.new more) }
{
    loop {
        if !go_on(alloc, piece, left, development)? {
            return Ok(false);
        }
        if piece.len() >= PIECE {
            return Ok(true);
        }
    }
}

impl<'d> ConditionLines<'d> {
    /// All lines are left.
    pub fn new(
        alloc: Global,
        development: &'d Development,
    ) -> Result<ConditionLines<'d>, OutOfMemory>
        ensures text { IfOk result (λ lines. text_left lines ≡ conditions_text (development_view development.entry.now)) }
        ensures memory { IfOk result (λ lines. is_spent lines ≡ false) }
    {
        let left = Left {
            stream: ConditionStream::new(alloc, development)?,
            terms: Terms::new(alloc),
            texts: no_texts(alloc),
            most: FEW_ENTRIES,
            part: Vec::new(alloc),
            written: 0,
            number: 0,
        };
        Ok(ConditionLines {
            alloc,
            development,
            left,
            state: State::Going,
        })
    }

    /// The next piece of the lines, of 64 KiB and at most a line more unless it is the last; `None` if nothing is left.
    /// Once out of memory it returns `OutOfMemory` from then on.
    pub fn next_piece(&mut self) -> Result<Option<Vec<u8>>, OutOfMemory>
        ensures piece { IfOk result (IsNextPiece self.old self.new) }
        ensures spent { is_spent self.new ≡ is_err result }
        ensures never_again { is_spent self.old ≡ true → is_err result ≡ true }
    {
        match self.state {
            State::Ended => return Ok(None),
            State::Failed => return Err(OutOfMemory),
            State::Going => {}
        }
        self.state = State::Failed;
        let mut piece = Vec::new(self.alloc);
        let more = fill(self.alloc, &mut piece, &mut self.left, self.development)?;
        self.state = if more { State::Going } else { State::Ended };
        Ok(Some(piece))
    }
}

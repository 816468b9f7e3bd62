ghost use Rattle.std.specs.Prelude.{◌≡◌, ◌++◌, replicate, OnOk};
ghost use Rattle.lc_layout.specs.Layout.{gap_text, own_line, closing_gap};

use crate::spot::{brackets_behind, indent_of, right_of, spot_of, stage_within};
use crate::stage::{Gap, Stage};
use lc_base::OutOfMemory;
use lc_sexp::{Cursor, Item};
use std::alloc::Global;

/// If this many brackets come after a list that is broken over lines, its own bracket is on a line of its own.
const BRACKETS: usize = 30;

/// What is left of a list: its items, and how it is laid out so far.
#[derive(Clone, Copy)]
pub(crate) struct Row<'a> {
    pub(crate) rest: Cursor<'a>,
    pub(crate) stage: Stage,
    /// The column after what is on its line, where a further item may be.
    pub(crate) column: usize,
    /// How far its items are indented.
    pub(crate) indent: usize,
    /// How many brackets come right after its own.
    pub(crate) brackets: usize,
}

/// A walk that lays out a list: what is left of the innermost row, and of each row around it, from the outermost.
#[derive(Drop)]
pub(crate) struct Walk<'a> {
    row: Row<'a>,
    around: Vec<Row<'a>>,
}

/// Appends `count` spaces.
fn push_spaces(text: &mut Vec<u8>, count: usize) -> Result<(), OutOfMemory>
    ensures { OnOk result (text.new.items ≡ text.old.items ++ replicate count 32) }
{
    let mut left = count;
    while left > 0 {
        text.push(b' ')?;
        left -= 1;
    }
    Ok(())
}

/// Appends what comes before an item.
pub(crate) fn push_gap(text: &mut Vec<u8>, gap: Gap, indent: usize) -> Result<(), OutOfMemory>
    ensures { OnOk result (text.new.items ≡ text.old.items ++ gap_text gap indent) }
{
    match gap {
        Gap::Nothing => Ok(()),
        Gap::Space => {
            text.push(b' ')?;
            Ok(())
        }
        Gap::Line => {
            text.push(b'\n')?;
            push_spaces(text, indent)
        }
    }
}

/// What comes before the bracket that closes a broken list, with `brackets` brackets after it.
fn own_line(brackets: usize) -> Gap
    ensures { result ≡ own_line brackets }
{
    if brackets >= BRACKETS {
        Gap::Line
    } else {
        Gap::Nothing
    }
}

/// What comes before the bracket that closes a list, with `brackets` brackets after it.
fn closing_gap(stage: Stage, brackets: usize) -> Gap
    ensures { result ≡ closing_gap stage brackets }
{
    match stage {
        Stage::Lead | Stage::Flat => Gap::Nothing,
        Stage::Fresh | Stage::Head | Stage::Named | Stage::Below => own_line(brackets),
    }
}

impl<'a> Row<'a> {
    ghost use Rattle.std.specs.Prelude.{◌≡◌};
    ghost use Rattle.lc_sexp.specs.Shown.{rest_of};
    ghost use Rattle.lc_layout.specs.Layout.{laid_items, indent_of as indent_within, right_of as column_behind};
    ghost use Rattle.lc_layout.specs.Walking.{row_text};

    /// The row of a list that begins at this stage, and whose bracket is at this column.
    fn of_list(items: Cursor<'a>, stage: Stage, column: usize, brackets: usize) -> Row<'a>
        ensures rest { result.rest ≡ items.entry }
        ensures text { row_text result ≡ laid_items stage (column_behind column 1) (indent_within column (rest_of items.entry)) brackets (rest_of items.entry) }
    {
        Row {
            rest: items,
            stage,
            column: right_of(column, 1),
            indent: indent_of(column, items),
            brackets,
        }
    }
}

impl<'a> Walk<'a> {
    ghost use Rattle.std.specs.Prelude.{◌≡◌, ◌++◌, ◌∷◌, ◌<◌, [], true, false, IfOk, OnOk};
    ghost use Rattle.lc_sexp.specs.Trees.{none, ◌▸◌};
    ghost use Rattle.lc_sexp.specs.Shown.{rest_of, item_tree};
    ghost use Rattle.lc_layout.specs.Layout.{laid_items, indent_of as indent_within, right_of as column_behind};
    ghost use Rattle.lc_layout.specs.Walking.{row_text, left_to_lay, steps_left, left_if};

    /// A walk at the beginning of a list by itself.
    pub(crate) fn new(alloc: Global, items: Cursor<'a>, stage: Stage) -> Walk<'a>
        ensures { left_to_lay result ≡ laid_items stage (column_behind 0 1) (indent_within 0 (rest_of items.entry)) 0 (rest_of items.entry) }
    {
        Walk {
            row: Row::of_list(items, stage, 0, 0),
            around: Vec::new(alloc),
        }
    }

    /// Ends the innermost list. Returns whether it is in another.
    fn close(&mut self, text: &mut Vec<u8>) -> Result<bool, OutOfMemory>
        requires { rest_of self.old.row.rest ≡ none }
        ensures told { IfOk result (λ more. text.new.items ++ left_if more (left_to_lay self.new) ≡ text.old.items ++ left_to_lay self.old) }
        ensures fewer { IfOk result (λ more. more ≡ true → steps_left self.new < steps_left self.old) }
    {
        push_gap(
            text,
            closing_gap(self.row.stage, self.row.brackets),
            self.row.indent,
        )?;
        text.push(b')')?;
        let Some(row) = self.around.pop() else {
            return Ok(false);
        };
        self.row = row;
        Ok(true)
    }

    /// Puts an item of the innermost list, with these left after it.
    fn put(
        &mut self,
        text: &mut Vec<u8>,
        item: Item<'a>,
        rest: Cursor<'a>,
    ) -> Result<(), OutOfMemory>
        requires { rest_of self.old.row.rest ≡ item_tree item ▸ rest_of rest }
        ensures told { OnOk result (text.new.items ++ left_to_lay self.new ≡ text.old.items ++ left_to_lay self.old) }
        ensures fewer { OnOk result (steps_left self.new < steps_left self.old) }
    {
        let row = self.row;
        let brackets = brackets_behind(row.brackets, rest);
        let spot = spot_of(row.stage, row.column, row.indent, brackets, item);
        push_gap(text, spot.gap, row.indent)?;
        let behind = Row {
            rest,
            stage: spot.stage,
            column: spot.behind,
            indent: row.indent,
            brackets: row.brackets,
        };
        match item {
            Item::Atom(atom) => {
                text.extend_from_slice(atom.text().as_bytes())?;
                self.row = behind;
            }
            Item::List(inner) => {
                let stage = stage_within(row.stage, spot.column, brackets, item);
                text.push(b'(')?;
                self.around.push(behind)?;
                self.row = Row::of_list(inner, stage, spot.column, brackets);
            }
        }
        Ok(())
    }

    /// Puts an item, or ends the innermost list. Returns whether something is left.
    pub(crate) fn step(&mut self, text: &mut Vec<u8>) -> Result<bool, OutOfMemory>
        ensures told { IfOk result (λ more. text.new.items ++ left_if more (left_to_lay self.new) ≡ text.old.items ++ left_to_lay self.old) }
        ensures fewer { IfOk result (λ more. more ≡ true → steps_left self.new < steps_left self.old) }
    {
        let mut rest = self.row.rest;
        match rest.item() {
            Ok(item) => {
                self.put(text, item, rest)?;
                Ok(true)
            }
            Err(_) => self.close(text),
        }
    }
}

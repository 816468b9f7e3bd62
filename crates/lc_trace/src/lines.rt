//! The line of a step.
ghost use Rattle.std.specs.Prelude.{◌≡◌, ◌++◌, codes, flat_map, OnOk};
ghost use Rattle.lc_term.specs.UpdateView.{write_view, writes_view};
ghost use Rattle.lc_seq.specs.SpecView.{choice_of};
ghost use Rattle.lc_outline.specs.DevelopmentView.{development_view};
ghost use Rattle.lc_ride.specs.RideView.{mark_of, marks_of};
ghost use Rattle.lc_steps.specs.StepView.{what_of};
ghost use Rattle.lc_run.specs.LabelView.{label_of};
ghost use Rattle.lc_run.specs.Ordering.{call_in, call_of, calls_in};
ghost use Rattle.lc_trace.specs.Lines.{listed, numbers_text, event_text, choice_text, entry_text, mark_text, cell_text, step_text};

use crate::lists::{column_name, operation_name, point_name, push_numbers};
use lc_base::{OpId, OutOfMemory};
use lc_outline::{Development, edge_word};
use lc_ride::Mark;
use lc_run::{Begun, Label, last_call};
use lc_seq::Pick;
use lc_steps::What;
use lc_term::Write;
use std::alloc::Global;

// Appends a text, and then a list of numbers.
fn push_headed(
    alloc: Global,
    text: &mut Vec<u8>,
    head: &str,
    numbers: &[i64],
) -> Result<(), OutOfMemory>
    ensures { OnOk result (text.new.items ≡ text.old.items ++ head.now ++ numbers_text numbers.now) }
{
    text.extend_from_slice(head.as_bytes())?;
    push_numbers(alloc, text, numbers)
}

// Appends what a client does.
fn push_event(
    alloc: Global,
    text: &mut Vec<u8>,
    development: &Development,
    what: &What,
) -> Result<(), OutOfMemory>
    ensures { OnOk result (text.new.items ≡ text.old.items ++ event_text (development_view development.now) (what_of what.now)) }
{
    match what {
        What::Invoked { operation, numbers } => {
            let name = operation_name(development, *operation);
            let head = format!(in alloc; "\"call\",\"{name}\",")?;
            push_headed(alloc, text, &head, numbers)
        }
        What::Moved { point, edge } => {
            let name = point_name(development, *point);
            let word = edge_word(*edge);
            let words = format!(in alloc; "\"{name}\",\"{word}\"")?;
            text.extend_from_slice(words.as_bytes())?;
            Ok(())
        }
        What::Returned(numbers) => push_headed(alloc, text, "\"return\",", numbers),
    }
}

// Appends how a branch is chosen, if it is by its name.
fn push_choice(alloc: Global, text: &mut Vec<u8>, choice: &Pick) -> Result<(), OutOfMemory>
    ensures { OnOk result (text.new.items ≡ text.old.items ++ choice_text (choice_of choice.now)) }
{
    match choice {
        Pick::First => Ok(()),
        Pick::Named { name, numbers } => {
            let word = name.as_str();
            let head = format!(in alloc; ",[\"{word}\",")?;
            push_headed(alloc, text, &head, numbers)?;
            text.push(b']')?;
            Ok(())
        }
    }
}

// A call, as it was begun; one without numbers if none was.
fn begun_call<'a>(call: Option<Begun<'a>>) -> Begun<'a>
    ensures { call_of result ≡ call_in call.entry }
{
    match call {
        Some(begun) => begun,
        None => Begun {
            operation: OpId(0),
            numbers: &[],
        },
    }
}

// Appends the entry of a mark for a call.
fn push_entry(
    alloc: Global,
    text: &mut Vec<u8>,
    development: &Development,
    call: Begun<'_>,
    mark: &Mark,
) -> Result<(), OutOfMemory>
    ensures { OnOk result (text.new.items ≡ text.old.items ++ entry_text (development_view development.now) (call_of call.entry) (mark_of mark.now)) }
{
    let client = mark.client;
    let name = operation_name(development, call.operation);
    let head = format!(in alloc; "[{client},\"{name}\",")?;
    push_headed(alloc, text, &head, call.numbers)?;
    push_headed(alloc, text, ",", &mark.reply)?;
    push_choice(alloc, text, &mark.choice)?;
    text.push(b']')?;
    Ok(())
}

// Appends a mark, for the call that its client began last.
fn push_mark(
    alloc: Global,
    text: &mut Vec<u8>,
    development: &Development,
    calls: &[Option<Begun<'_>>],
    mark: &Mark,
) -> Result<(), OutOfMemory>
    ensures { OnOk result (text.new.items ≡ text.old.items ++ mark_text (development_view development.now) (calls_in calls.now) (mark_of mark.now)) }
{
    let call = begun_call(last_call(calls, mark.client));
    if !mark.note {
        return push_entry(alloc, text, development, call, mark);
    }
    text.extend_from_slice(b"[\"note\",")?;
    push_entry(alloc, text, development, call, mark)?;
    text.push(b']')?;
    Ok(())
}

// Appends marks, each behind a comma.
fn push_more_marks(
    alloc: Global,
    text: &mut Vec<u8>,
    development: &Development,
    calls: &[Option<Begun<'_>>],
    marks: &[Mark],
) -> Result<(), OutOfMemory>
    ensures { OnOk result (text.new.items ≡ text.old.items ++ flat_map (λ m. codes "," ++ mark_text (development_view development.now) (calls_in calls.now) m) (marks_of marks.now)) }
{
    for mark in marks {
        text.push(b',')?;
        push_mark(alloc, text, development, calls, mark)?;
    }
    Ok(())
}

// Appends a list of marks.
fn push_marks(
    alloc: Global,
    text: &mut Vec<u8>,
    development: &Development,
    calls: &[Option<Begun<'_>>],
    marks: &[Mark],
) -> Result<(), OutOfMemory>
    ensures { OnOk result (text.new.items ≡ text.old.items ++ listed (mark_text (development_view development.now) (calls_in calls.now)) (marks_of marks.now)) }
{
    text.push(b'[')?;
    if let Some((first, others)) = marks.split_first() {
        push_mark(alloc, text, development, calls, first)?;
        push_more_marks(alloc, text, development, calls, others)?;
    }
    text.push(b']')?;
    Ok(())
}

// Appends a cell, with the number that it has.
fn push_cell(
    alloc: Global,
    text: &mut Vec<u8>,
    development: &Development,
    cell: Write,
) -> Result<(), OutOfMemory>
    ensures { OnOk result (text.new.items ≡ text.old.items ++ cell_text (development_view development.now) (write_view cell)) }
{
    let name = column_name(development, cell.column);
    let index = cell.index;
    let value = cell.value;
    let words = format!(in alloc; "[\"{name}\",{index},{value}]")?;
    text.extend_from_slice(words.as_bytes())?;
    Ok(())
}

// Appends cells, each behind a comma.
fn push_more_cells(
    alloc: Global,
    text: &mut Vec<u8>,
    development: &Development,
    cells: &[Write],
) -> Result<(), OutOfMemory>
    ensures { OnOk result (text.new.items ≡ text.old.items ++ flat_map (λ w. codes "," ++ cell_text (development_view development.now) w) (writes_view cells.now)) }
{
    for cell in cells {
        text.push(b',')?;
        push_cell(alloc, text, development, *cell)?;
    }
    Ok(())
}

// Appends a list of cells.
fn push_cells(
    alloc: Global,
    text: &mut Vec<u8>,
    development: &Development,
    cells: &[Write],
) -> Result<(), OutOfMemory>
    ensures { OnOk result (text.new.items ≡ text.old.items ++ listed (cell_text (development_view development.now)) (writes_view cells.now)) }
{
    text.push(b'[')?;
    if let Some((first, others)) = cells.split_first() {
        push_cell(alloc, text, development, *first)?;
        push_more_cells(alloc, text, development, others)?;
    }
    text.push(b']')?;
    Ok(())
}

/// Appends the line of a label's step, which changes these cells.
pub(crate) fn push_step(
    alloc: Global,
    text: &mut Vec<u8>,
    development: &Development,
    calls: &[Option<Begun<'_>>],
    label: &Label,
    cells: &[Write],
) -> Result<(), OutOfMemory>
    ensures { OnOk result (text.new.items ≡ text.old.items ++ step_text (development_view development.now) (calls_in calls.now) (label_of label.now) (writes_view cells.now)) }
{
    let client = label.client;
    let head = format!(in alloc; "[{client},")?;
    text.extend_from_slice(head.as_bytes())?;
    push_event(alloc, text, development, &label.what)?;
    text.push(b',')?;
    push_marks(alloc, text, development, calls, &label.marks)?;
    text.push(b',')?;
    push_cells(alloc, text, development, cells)?;
    text.extend_from_slice(b"]\n")?;
    Ok(())
}

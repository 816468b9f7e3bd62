//! What a page says of a history and its order beside these, as JSON.
use crate::states::stores_of;
use lc_base::OutOfMemory;
use lc_history::{Done, History, JudgeFault, judge};
use lc_seq::{Column, Pick, TextCall, TextSpec};
use lc_term::Write;
use std::alloc::Global;

// `,"judged":[CODE,PLACE]`: 0 if the order linearizes the history; the number of the reason, and the place; or 6, if a number leaves
// 64 bits.
fn push_judged(
    alloc: Global,
    text: &mut Vec<u8>,
    spec: &TextSpec,
    history: &History,
    order: &[Done<TextCall, Pick, Vec<i64>>],
) -> Result<(), OutOfMemory> {
    let (code, at) = match judge(alloc, spec, history, order) {
        Ok(()) => (0, 0),
        Err(JudgeFault::Order { place, reason }) => (reason.code(), place),
        Err(JudgeFault::Overflow) => (6, 0),
        Err(JudgeFault::OutOfMemory) => return Err(OutOfMemory),
    };
    let judged = format!(in alloc; ",\"judged\":[{code},{at}]")?;
    text.extend_from_slice(judged.as_bytes())?;
    Ok(())
}

// `,"columns":[["NAME",A,B],..]`
fn push_columns(alloc: Global, text: &mut Vec<u8>, columns: &[Column]) -> Result<(), OutOfMemory> {
    text.extend_from_slice(b",\"columns\":[")?;
    for (place, column) in columns.iter().enumerate() {
        if place > 0 {
            text.push(b',')?;
        }
        let name = column.name.as_str();
        let (slope, start) = (column.slope, column.start);
        let row = format!(in alloc; "[\"{name}\",{slope},{start}]")?;
        text.extend_from_slice(row.as_bytes())?;
    }
    text.push(b']')?;
    Ok(())
}

// `[[COLUMN,INDEX,NUMBER],..]`
fn push_writes(alloc: Global, text: &mut Vec<u8>, writes: &[Write]) -> Result<(), OutOfMemory> {
    text.push(b'[')?;
    for (place, write) in writes.iter().enumerate() {
        if place > 0 {
            text.push(b',')?;
        }
        let (column, index, value) = (write.column.0, write.index, write.value);
        let row = format!(in alloc; "[{column},{index},{value}]")?;
        text.extend_from_slice(row.as_bytes())?;
    }
    text.push(b']')?;
    Ok(())
}

// `,"steps":[..]`: what each entry stores.
fn push_steps(
    alloc: Global,
    text: &mut Vec<u8>,
    spec: &TextSpec,
    order: &[Done<TextCall, Pick, Vec<i64>>],
) -> Result<(), OutOfMemory> {
    let stores = stores_of(alloc, spec, order)?;
    text.extend_from_slice(b",\"steps\":[")?;
    for (place, writes) in stores.iter().enumerate() {
        if place > 0 {
            text.push(b',')?;
        }
        push_writes(alloc, text, writes)?;
    }
    text.push(b']')?;
    Ok(())
}

/// `,"judged":[..],"columns":[..],"steps":[..]}`
pub(crate) fn said_of(
    alloc: Global,
    spec: &TextSpec,
    history: &History,
    order: &[Done<TextCall, Pick, Vec<i64>>],
) -> Result<Vec<u8>, OutOfMemory> {
    let mut text = Vec::new(alloc);
    push_judged(alloc, &mut text, spec, history, order)?;
    push_columns(alloc, &mut text, spec.columns())?;
    push_steps(alloc, &mut text, spec, order)?;
    text.push(b'}')?;
    Ok(text)
}

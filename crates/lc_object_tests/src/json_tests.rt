//! What texts say and which are refused are cases of the program `lc_cases`.
use lc_base::{Fault, OpId, Refusal};
use lc_hist::{history_from_json, history_to_json};
use lc_history::{Event, History};
use lc_seq::TextSpec;
use lc_spec_text::spec_of;
use std::alloc::Global;
use std::test::Fail;

const CELL: &str = "(spec cell (abstract) (op inc () 1 (branch (and) () (0))))";

/// Whether this item of a text is its first wrong one.
fn is_wrong_at(alloc: Global, spec: &TextSpec, text: &[u8], item: u64) -> bool {
    matches!(history_from_json(alloc, spec, text), Err(Fault::Refused(Refusal::HistoryShape(at))) if at == item)
}

/// What is written of a call of an operation that is not there.
fn unknown_call(alloc: Global, spec: &TextSpec) -> Result<Vec<u8>, Fail> {
    let unknown = Event::Invoke {
        client: 0,
        op: OpId(9),
        numbers: Vec::new(alloc),
    };
    let history = History::new(alloc, Vec::from_array(alloc, [unknown])?)?;
    Ok(history_to_json(alloc, spec, &history, &[])?)
}

#[test]
fn an_operation_that_is_not_there_is_not_read(rt: HostRuntime) -> Result<(), Fail> {
    let spec = spec_of(rt.alloc(), CELL.as_bytes())?;
    let text = unknown_call(rt.alloc(), &spec)?;
    let want = "{\"events\":[[0,\"call\",null,[]]],\"order\":[]}";
    let is_written = text.as_slice() == want.as_bytes();
    assert!(rt; is_written & is_wrong_at(rt.alloc(), &spec, &text, 1));
    Ok(())
}

#[test]
fn a_file_has_at_most_16777216_bytes(rt: HostRuntime) -> Result<(), Fail> {
    let spec = spec_of(rt.alloc(), CELL.as_bytes())?;
    let mut text = Vec::from_slice(rt.alloc(), b"{\"events\":[],\"order\":[]}")?;
    text.resize(16_777_216, b' ')?;
    let is_read = history_from_json(rt.alloc(), &spec, &text).is_ok();
    text.push(b' ')?;
    assert!(rt; is_read & is_wrong_at(rt.alloc(), &spec, &text, 0));
    Ok(())
}

//! A specification in text, as a sequential object.
ghost use Rattle.std.specs.Prelude.{◌≡◌, ◌↔◌, IsTrue};

use crate::choice::Pick;
use crate::fault::SeqFault;
use crate::object::SeqObject;
use crate::running::{call_env, run};
use crate::specification::TextSpec;
use crate::text_call::TextCall;
use crate::text_state::TextState;
use lc_base::{OpId, OutOfMemory};
use lc_term::State;
use std::alloc::Global;

// Whether these are the same numbers.
fn are_equal(a: &[i64], b: &[i64]) -> bool
    ensures { IsTrue result ↔ (a.now ≡ b.now) }
{
    a == b
}

impl SeqObject for TextSpec {
    ghost use Rattle.std.specs.Prelude.{◌≡◌, true, length};
    ghost use Rattle.lc_term.specs.Meaning.{State};
    ghost use Rattle.lc_seq.specs.Specification.{has_call};
    ghost use Rattle.lc_seq.specs.SpecView.{operations_of, columns_of, text_call_of, choice_of};
    ghost use Rattle.lc_seq.specs.TextStep.{text_step, TextFits, start_of};
    ghost use Rattle.lc_seq.specs.TextView.{text_state_of, IsStateOf};
    ghost use Rattle.lc_seq.specs.TextLaws.{calls_are_equal, replies_are_equal, text_steps_by_calls};

    type State = TextState;

    type Call = TextCall;

    type Choice = Pick;

    type Reply = Vec<i64>;

    ghost Meaning = { State };

    ghost meaning = { text_state_of };

    ghost HasState = { λ spec state. IsStateOf (length spec.columns.items) state };

    ghost call_meant = { text_call_of };

    ghost choice_meant = { choice_of };

    ghost numbers = { λ reply. reply.items };

    ghost HasCall = { λ spec call. has_call (operations_of spec.operations.items) call ≡ true };

    ghost start = { λ spec. start_of (columns_of spec.columns.items) };

    ghost step = { λ spec. text_step (operations_of spec.operations.items) };

    ghost Fits = { λ spec. TextFits (operations_of spec.operations.items) };

    ghost equal_calls = { λ a b. calls_are_equal a.op.0 b.op.0 a.numbers.items b.numbers.items };

    ghost equal_replies = { λ a b. replies_are_equal a.items b.items };

    ghost steps_by_calls = { λ spec. text_steps_by_calls (operations_of spec.operations.items) };

    fn initial(&self, alloc: Global) -> Result<TextState, OutOfMemory> {
        let mut initial = Vec::with_capacity(alloc, self.columns.len())?;
        for column in &self.columns {
            initial.push((column.slope, column.start))?;
        }
        Ok(TextState {
            cells: State::new(alloc, &initial)?,
        })
    }

    fn apply(
        &self,
        alloc: Global,
        state: &mut TextState,
        client: u32,
        call: &TextCall,
        choice: &Pick,
    ) -> Result<Option<Vec<i64>>, SeqFault> {
        let branches = self.branches_for(call.op, call.numbers.len());
        let env = call_env(alloc, client, &call.numbers, choice.numbers())?;
        match run(alloc, branches, choice, &state.cells, &env)? {
            Some(outcome) => {
                state.cells.write_all(alloc, &outcome.writes)?;
                Ok(Some(outcome.replies))
            }
            None => Ok(None),
        }
    }

    fn call_of(
        &self,
        alloc: Global,
        code: u32,
        given: &[i64],
    ) -> Result<Option<TextCall>, OutOfMemory> {
        match self.operations.get(code as usize) {
            Some(operation) if operation.arguments.len() == given.len() => Ok(Some(TextCall {
                op: OpId(code),
                numbers: Vec::from_slice(alloc, given)?,
            })),
            _ => Ok(None),
        }
    }

    fn is_call(&self, call: &TextCall, code: u32, given: &[i64]) -> bool {
        if call.op.0 != code {
            return false;
        }
        are_equal(&call.numbers, given)
    }

    fn numbers_of(&self, alloc: Global, reply: &Vec<i64>) -> Result<Vec<i64>, OutOfMemory> {
        Ok(Vec::from_slice(alloc, reply)?)
    }
}

//! A state on which writes are tried.
ghost use Rattle.lc_term.specs.Written.{kept_of, CanTakeBack, can_once};

use crate::state::{State, Undo};
use crate::update::Write;
use lc_base::OutOfMemory;
use std::alloc::Global;

/// A state, with what was written to it since it was last saved, so that this can be taken back.
pub struct Draft {
    state: State,
    done: Vec<Undo>,
    ghost can: { CanTakeBack (kept_of state) done.items } by { can_once (kept_of state) done.items },
}

impl Drop for Draft {
    fn drop(self) {
        let Draft { state: _, done: _ } = self;
    }
}

impl Draft {
    ghost use Rattle.std.specs.Prelude.{◌≡◌, OnOk};
    ghost use Rattle.lc_term.specs.State.{state_of, column_count};
    ghost use Rattle.lc_term.specs.Updates.{stored_all, AreWithin};
    ghost use Rattle.lc_term.specs.UpdateView.{writes_view};
    ghost use Rattle.lc_term.specs.Drafts.{written_in_draft, saved_in_draft, draft_columns};

    /// A state as it is saved.
    pub fn new(alloc: Global, state: State) -> Draft
        ensures written { written_in_draft result ≡ state_of state }
        ensures saved { saved_in_draft result ≡ state_of state }
        ensures columns { draft_columns result ≡ column_count state }
    {
        Draft {
            state,
            done: Vec::new(alloc),
        }
    }

    /// The state with what was written since.
    pub fn state(&self) -> &State
        ensures written { state_of result.now ≡ written_in_draft self.now }
        ensures columns { column_count result.now ≡ draft_columns self.now }
    {
        &self.state
    }

    /// Writes cells in order. On `OutOfMemory` some of them may be written.
    pub fn write_all(&mut self, writes: &[Write]) -> Result<(), OutOfMemory>
        requires { AreWithin (draft_columns self.old) (writes_view writes.now) }
        ensures ok { OnOk result (written_in_draft self.new ≡ stored_all (written_in_draft self.old) (writes_view writes.now)) }
        ensures saved { saved_in_draft self.new ≡ saved_in_draft self.old }
        ensures columns { draft_columns self.new ≡ draft_columns self.old }
    {
        self.state.write_each(writes, &mut self.done)
    }

    /// Saves what was written.
    pub fn save(&mut self)
        ensures written { written_in_draft self.new ≡ written_in_draft self.old }
        ensures saved { saved_in_draft self.new ≡ written_in_draft self.old }
        ensures columns { draft_columns self.new ≡ draft_columns self.old }
    {
        self.done.clear();
    }

    /// Takes back what was written since the state was saved.
    pub fn roll_back(&mut self)
        ensures written { written_in_draft self.new ≡ saved_in_draft self.old }
        ensures saved { saved_in_draft self.new ≡ saved_in_draft self.old }
        ensures columns { draft_columns self.new ≡ draft_columns self.old }
    {
        self.state.take_back(&mut self.done);
    }
}

//! A draft of the columns that knows what was written to it.
ghost use Rattle.std.specs.Prelude.{◌≡◌, ◌++◌, OnOk};
ghost use Rattle.lc_term.specs.Drafts as plain;
ghost use Rattle.lc_term.specs.Updates.{stored_all, AreWithin};
ghost use Rattle.lc_term.specs.UpdateView.{writes_view};
ghost use Rattle.lc_ride.specs.Writings.{IsWrittenBy, written_once};

use lc_base::OutOfMemory;
use lc_term::{State, Write};
use std::alloc::Global;

/// A state on which writes are tried, with what was written to it since it was last saved, in order.
pub struct Draft {
    columns: lc_term::Draft,
    writes: Vec<Write>,
    ghost written: { IsWrittenBy (writes_view writes.items) columns } by { written_once (writes_view writes.items) columns },
}

impl Drop for Draft {
    fn drop(self) {
        let Draft {
            columns: _,
            writes: _,
        } = self;
    }
}

// Writes cells in order, and appends them to what was written before.
fn write_noted(
    columns: &mut lc_term::Draft,
    noted: &mut Vec<Write>,
    writes: &[Write],
) -> Result<(), OutOfMemory>
    requires { AreWithin (plain.draft_columns columns.old) (writes_view writes.now) }
    ensures ok { OnOk result (plain.written_in_draft columns.new ≡ stored_all (plain.written_in_draft columns.old) (writes_view writes.now)) }
    ensures noted { OnOk result (noted.new.items ≡ noted.old.items ++ writes.now) }
    ensures saved { plain.saved_in_draft columns.new ≡ plain.saved_in_draft columns.old }
    ensures columns { plain.draft_columns columns.new ≡ plain.draft_columns columns.old }
{
    columns.write_all(writes)?;
    noted.extend_from_slice(writes)?;
    Ok(())
}

impl Draft {
    ghost use Rattle.std.specs.Prelude.{◌≡◌, OnOk};
    ghost use Rattle.lc_term.specs.State.{state_of, column_count};
    ghost use Rattle.lc_term.specs.Updates.{stored_all, AreWithin};
    ghost use Rattle.lc_term.specs.UpdateView.{writes_view};
    ghost use Rattle.lc_ride.specs.Drafts.{written_in_draft, saved_in_draft, draft_columns};

    /// A state as it is saved.
    pub fn new(alloc: Global, state: State) -> Draft
        ensures written { written_in_draft result ≡ state_of state }
        ensures saved { saved_in_draft result ≡ state_of state }
        ensures columns { draft_columns result ≡ column_count state }
    {
        Draft {
            columns: lc_term::Draft::new(alloc, state),
            writes: Vec::new(alloc),
        }
    }

    /// The state with what was written since.
    pub fn state(&self) -> &State
        ensures written { state_of result.now ≡ written_in_draft self.now }
        ensures columns { column_count result.now ≡ draft_columns self.now }
    {
        self.columns.state()
    }

    /// What was written since it was saved.
    pub fn writes(&self) -> &[Write]
        ensures written { written_in_draft self.now ≡ stored_all (saved_in_draft self.now) (writes_view result.now) }
        ensures within { AreWithin (draft_columns self.now) (writes_view result.now) }
    {
        &self.writes
    }

    /// Writes cells in order. On `OutOfMemory` nothing is written, also of what was written before.
    pub fn write_all(&mut self, writes: &[Write]) -> Result<(), OutOfMemory>
        requires { AreWithin (draft_columns self.old) (writes_view writes.now) }
        ensures ok { OnOk result (written_in_draft self.new ≡ stored_all (written_in_draft self.old) (writes_view writes.now)) }
        ensures saved { saved_in_draft self.new ≡ saved_in_draft self.old }
        ensures columns { draft_columns self.new ≡ draft_columns self.old }
    {
        if let Err(fault) = write_noted(&mut self.columns, &mut self.writes, writes) {
            self.columns.roll_back();
            self.writes.clear();
            return Err(fault);
        }
        Ok(())
    }

    /// Saves what was written.
    pub fn save(&mut self)
        ensures written { written_in_draft self.new ≡ written_in_draft self.old }
        ensures saved { saved_in_draft self.new ≡ written_in_draft self.old }
        ensures columns { draft_columns self.new ≡ draft_columns self.old }
    {
        self.columns.save();
        self.writes.clear();
    }

    /// Takes back what was written since the state was saved.
    pub fn roll_back(&mut self)
        ensures written { written_in_draft self.new ≡ saved_in_draft self.old }
        ensures saved { saved_in_draft self.new ≡ saved_in_draft self.old }
        ensures columns { draft_columns self.new ≡ draft_columns self.old }
    {
        self.columns.roll_back();
        self.writes.clear();
    }
}

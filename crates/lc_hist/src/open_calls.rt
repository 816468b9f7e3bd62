//! Which call each client is in after a beginning of a history.
ghost use Rattle.std.specs.Prelude.{◌≡◌};
ghost use Rattle.lc_hist.specs.JsonSeen.{number_of, opened};
ghost use Rattle.lc_history.specs.View.{event_of};

use lc_base::{OpId, OutOfMemory};
use lc_history::Event;
use std::alloc::Global;

/// Which operation's call each client is in.
#[derive(Drop)]
pub(crate) struct OpenCalls {
    operations: Vec<Option<OpId>>,
}

impl OpenCalls {
    ghost use Rattle.std.specs.Prelude.{◌≡◌, ℕ, ◌==◌, cond, None, OnOk};
    ghost use Rattle.lc_hist.specs.JsonSeen.{open_of};

    /// No client is in a call.
    pub(crate) fn new(alloc: Global) -> OpenCalls
        ensures { (c : ℕ) → open_of result c ≡ None }
    {
        OpenCalls {
            operations: Vec::new(alloc),
        }
    }

    /// In whose call a client is.
    pub(crate) fn of(&self, client: u32) -> Option<OpId>
        ensures { result ≡ open_of self.now client }
    {
        self.operations
            .get(client as usize)
            .copied()
            .unwrap_or(None)
    }

    /// From now on a client is in this call.
    pub(crate) fn set(&mut self, client: u32, op: Option<OpId>) -> Result<(), OutOfMemory>
        ensures { OnOk result ((c : ℕ) → open_of self.new c ≡ cond (c == client) op (open_of self.old c)) }
    {
        let place = client as usize;
        if place >= self.operations.len() {
            self.operations.resize(place + 1, None)?;
        }
        self.operations[place] = op;
        Ok(())
    }
}

/// Which operation's call a client is in after its event.
pub(crate) fn opened(event: &Event) -> Option<OpId>
    ensures { number_of result ≡ opened (event_of event.now) }
{
    match event {
        Event::Invoke { op, .. } => Some(*op),
        Event::Respond { .. } => None,
    }
}

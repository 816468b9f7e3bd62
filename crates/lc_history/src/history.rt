//! The type of histories, in which the calls and returns of each client take turns.
ghost use Rattle.std.specs.Prelude.{IfOk, MatchOption};
ghost use Rattle.lc_history.specs.View.{events_of};
ghost use Rattle.lc_history.specs.WellFormed.{IsWellFormed, IsFirstOutOfTurn};

use crate::event::Event;
use crate::limits::CLIENT_LIMIT;
use lc_base::OutOfMemory;
use std::alloc::Global;
use thiserror::Error;

/// Events in order, in which each client's calls and returns take turns, beginning with a call, and each client's
/// number is at most `CLIENT_LIMIT`.
#[derive(Drop)]
pub struct History {
    events: Vec<Event>,
    ghost well_formed: { IsWellFormed (events_of events.items) },
}

/// Why events are no history.
#[derive(Clone, Copy, Debug, PartialEq, Eq, Error)]
pub enum HistoryFault {
    /// The first event that is out of turn, or whose client's number is beyond the limit, by its place from 0.
    #[error("event {0} is out of turn")]
    OutOfTurn(u64),
    /// An allocation was refused.
    #[error("out of memory")]
    OutOfMemory,
}

impl From<OutOfMemory> for HistoryFault {
    ghost use Rattle.std.specs.Prelude.{◌≡◌};
    ghost use Rattle.lc_history.specs.declared.history.HistoryFault.TheVariants.{OutOfMemory};

    ghost from_gives = { λ _ fault. fault ≡ OutOfMemory };

    fn from(_: OutOfMemory) -> HistoryFault {
        HistoryFault::OutOfMemory
    }
}

impl History {
    ghost use Rattle.std.specs.Prelude.{◌≡◌, Result, IfOk};
    ghost use Rattle.lc_history.specs.View.{events_of};
    ghost use Rattle.lc_history.specs.Histories.{events_in, IsHistory};
    ghost use Rattle.lc_history.specs.WellFormed.{IsWellFormed};

    /// The history of these events, if each is in turn.
    pub fn new(alloc: Global, events: Vec<Event>) -> Result<History, HistoryFault>
        ensures { IsHistory (events_of events.items) result }
    {
        if let Some(place) = first_out_of_turn(alloc, &events)? {
            return Err(HistoryFault::OutOfTurn(place as u64));
        }
        Ok(History { events })
    }

    /// The history of events that are in turn.
    pub fn of_well_formed(events: Vec<Event>) -> History
        requires { IsWellFormed (events_of events.items) }
        ensures { events_in result ≡ events_of events.items }
    {
        History { events }
    }

    /// Its events.
    pub fn events(&self) -> &[Event]
        ensures { events_of result.now ≡ events_in self.now }
    {
        &self.events
    }
}

// Which clients are in a call: the clients whose numbers it has, and no other.
#[derive(Drop)]
struct InCall {
    clients: Vec<bool>,
}

impl InCall {
    ghost use Rattle.std.specs.Prelude.{◌≡◌, ℕ, ◌==◌, Bool, true, cond, OnOk, IsOk};
    ghost use Rattle.lc_history.specs.InCall.{in_call};

    fn contains(&self, client: u32) -> bool
        ensures { result ≡ in_call self.now client }
    {
        self.clients.get(client as usize).copied().unwrap_or(false)
    }

    fn set(&mut self, client: u32, is_in: bool) -> Result<(), OutOfMemory>
        ensures { OnOk result ((c : ℕ) → in_call self.new c ≡ cond (c == client) is_in (in_call self.old c)) }
    {
        let place = client as usize;
        if place >= self.clients.len() {
            self.clients.resize(place + 1, false)?;
        }
        self.clients[place] = is_in;
        Ok(())
    }
}

fn first_out_of_turn(alloc: Global, events: &[Event]) -> Result<Option<usize>, OutOfMemory>
    ensures { let history = events_of events.now in
        IfOk result (λ found. MatchOption found (IsWellFormed history) (IsFirstOutOfTurn history)) }
{
    let mut busy = InCall {
        clients: Vec::new(alloc),
    };
    for (place, event) in events.iter().enumerate() {
        let client = event.client();
        let begins = event.begins();
        if client > CLIENT_LIMIT || busy.contains(client) == begins {
            return Ok(Some(place));
        }
        busy.set(client, begins)?;
    }
    Ok(None)
}

//! The clients that occur in a history, each with the places of its calls and of its returns.
ghost use Rattle.std.specs.Prelude.{◌≡◌, ◌<◌, ◌++◌, ℕ, ◌==◌, [], ◌∷◌, cond, Some, None, OnOk, IfOk, length, slice_get};
ghost use Rattle.lc_history.specs.View.{events_of};
ghost use Rattle.lc_order.specs.Rosters.{index_at, IsRosterOf};

use lc_base::OutOfMemory;
use lc_history::Event;
use std::alloc::Global;

/// Where a call is in a history.
#[derive(Clone, Copy)]
pub(crate) struct Span {
    pub(crate) called: usize,
    pub(crate) returned: Option<usize>,
}

/// A client, with the places of its calls and of its returns in a history.
pub(crate) struct Line {
    pub(crate) client: u32,
    calls: Vec<usize>,
    returns: Vec<usize>,
}

impl Drop for Line {
    fn drop(self) {
        let Line {
            client: _,
            calls: _,
            returns: _,
        } = self;
    }
}

impl Line {
    ghost use Rattle.std.specs.Prelude.{◌≡◌, ◌++◌, [], ◌∷◌, cond, OnOk};
    ghost use Rattle.lc_order.specs.Rosters.{span_at};

    // It calls at a place, or returns there.
    fn note(&mut self, place: usize, begins: bool) -> Result<(), OutOfMemory>
        ensures client { self.new.client ≡ self.old.client }
        ensures calls { OnOk result (self.new.calls.items ≡ self.old.calls.items ++ cond begins (place ∷ []) []) }
        ensures returns { OnOk result (self.new.returns.items ≡ self.old.returns.items ++ cond begins [] (place ∷ [])) }
    {
        if begins {
            self.calls.push(place)?;
        } else {
            self.returns.push(place)?;
        }
        Ok(())
    }

    /// Where its call of this number is, from 0.
    pub(crate) fn span(&self, number: usize) -> Option<Span>
        ensures { result ≡ span_at self.now.calls.items self.now.returns.items number }
    {
        let called = *self.calls.get(number)?;
        Some(Span {
            called,
            returned: self.returns.get(number).copied(),
        })
    }
}

/// A line for each client that occurs, and by a client's number the place of its line.
#[derive(Drop)]
pub(crate) struct Roster {
    pub(crate) lines: Vec<Line>,
    index: Vec<Option<usize>>,
}

// From now on the line of a client is at a place.
fn set_line(index: &mut Vec<Option<usize>>, client: u32, line: usize) -> Result<(), OutOfMemory>
    ensures { OnOk result ((c : ℕ) → index_at index.new.items c ≡ cond (c == client) (Some line) (index_at index.old.items c)) }
{
    let place = client as usize;
    if place >= index.len() {
        index.resize(place + 1, None)?;
    }
    index[place] = Some(line);
    Ok(())
}

// The place of a client's line, if it has one.
fn line_in(index: &[Option<usize>], client: u32) -> Option<usize>
    ensures { result ≡ index_at index.now client }
{
    index.get(client as usize).copied().unwrap_or(None)
}

impl Roster {
    ghost use Rattle.std.specs.Prelude.{◌≡◌, ◌<◌, ◌++◌, ℕ, ◌==◌, ◌&&◌, not, [], ◌∷◌, cond, Some, OnOk, IfOk, length};
    ghost use Rattle.lc_order.specs.Rosters.{IsRoster, line_of, calls_of, returns_of};

    // A line without calls for a client that has none. Returns its place.
    fn add_line(&mut self, alloc: Global, client: u32) -> Result<usize, OutOfMemory>
        requires roster { IsRoster self.old }
        requires none { line_of self.old client ≡ None }
        ensures line { IfOk result (λ line. line_of self.new client ≡ Some line) }
        ensures roster { OnOk result (IsRoster self.new) }
        ensures calls { OnOk result ((c : ℕ) → calls_of self.new c ≡ calls_of self.old c) }
        ensures returns { OnOk result ((c : ℕ) → returns_of self.new c ≡ returns_of self.old c) }
    {
        let line = self.lines.len();
        self.lines.push(Line {
            client,
            calls: Vec::new(alloc),
            returns: Vec::new(alloc),
        })?;
        set_line(&mut self.index, client, line)?;
        Ok(line)
    }

    // The place of a client's line, which is added if there is none.
    fn line_for(&mut self, alloc: Global, client: u32) -> Result<usize, OutOfMemory>
        requires { IsRoster self.old }
        ensures line { IfOk result (λ line. line_of self.new client ≡ Some line) }
        ensures roster { OnOk result (IsRoster self.new) }
        ensures calls { OnOk result ((c : ℕ) → calls_of self.new c ≡ calls_of self.old c) }
        ensures returns { OnOk result ((c : ℕ) → returns_of self.new c ≡ returns_of self.old c) }
    {
        match line_in(&self.index, client) {
            Some(line) => Ok(line),
            None => self.add_line(alloc, client),
        }
    }

    // A client calls at a place, or returns there.
    fn note(
        &mut self,
        alloc: Global,
        client: u32,
        place: usize,
        begins: bool,
    ) -> Result<(), OutOfMemory>
        requires { IsRoster self.old }
        ensures roster { OnOk result (IsRoster self.new) }
        ensures calls { OnOk result ((c : ℕ) → calls_of self.new c ≡ calls_of self.old c ++ cond (client == c && begins) (place ∷ []) []) }
        ensures returns { OnOk result ((c : ℕ) → returns_of self.new c ≡ returns_of self.old c ++ cond (client == c && not begins) (place ∷ []) []) }
    {
        let line = self.line_for(alloc, client)?;
        self.lines[line].note(place, begins)?;
        Ok(())
    }

    /// From now on a client returns at a place.
    pub(crate) fn end_call(&mut self, client: u32, place: usize) -> Result<(), OutOfMemory> {
        for line in 0..self.lines.len() {
            let Some(its) = self.lines.get_mut(line) else {
                return Ok(());
            };
            if its.client == client {
                its.note(place, false)?;
            }
        }
        Ok(())
    }
}

/// The clients of these events.
pub(crate) fn roster_of(alloc: Global, events: &[Event]) -> Result<Roster, OutOfMemory>
    ensures { IfOk result (IsRosterOf (events_of events.now)) }
{
    let mut roster = Roster {
        lines: Vec::new(alloc),
        index: Vec::new(alloc),
    };
    for (place, event) in events.iter().enumerate() {
        roster.note(alloc, event.client(), place, event.begins())?;
    }
    Ok(roster)
}

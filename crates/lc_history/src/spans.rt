//! The calls of each client, from their beginning to their return.
ghost use Rattle.std.specs.Prelude.{◌≡◌, ◌<◌, ◌≤◌, ◌↔◌, ◌+◌, ℕ, List, [], Some, OnOk, IfOk, IsTrue, All, length, slice_get};
ghost use Rattle.lc_history.specs.History.{count, is_of};
ghost use Rattle.lc_history.specs.Spans.{AreClients, HaveSeen, one_more, earlier, span_of, is_before, is_preceded, return_of};
ghost use Rattle.lc_history.specs.Tests.{named};
ghost use Rattle.lc_history.specs.View.{event_of, events_of, entries_in};
ghost use Rattle.lc_history.specs.WellFormed.{client_of};
ghost use Rattle.lc_history.specs.History.{Entry};

use crate::event::{Done, Event};
use lc_base::OutOfMemory;
use lc_seq::SeqObject;
use std::alloc::Global;

// Where a call is in a history.
#[derive(Clone, Copy)]
pub(crate) struct Span {
    pub(crate) called: usize,
    pub(crate) returned: Option<usize>,
}

// A client, with the places of its calls and of its returns in a history, and how many entries of it were seen.
pub(crate) struct Client {
    calls: Vec<usize>,
    returns: Vec<usize>,
    entries: usize,
}

impl Drop for Client {
    fn drop(self) {
        let Client {
            calls: _,
            returns: _,
            entries: _,
        } = self;
    }
}

impl Client {
    ghost use Rattle.std.specs.Prelude.{◌≡◌, ◌<◌, ◌+◌, ◌++◌, [], ◌∷◌, cond, OnOk};
    ghost use Rattle.lc_history.specs.Spans.{span_at};

    // It calls at a place, or returns there.
    fn note(&mut self, place: usize, begins: bool) -> Result<(), OutOfMemory>
        ensures calls { OnOk result (self.new.calls.items ≡ self.old.calls.items ++ cond begins (place ∷ []) []) }
        ensures returns { OnOk result (self.new.returns.items ≡ self.old.returns.items ++ cond begins [] (place ∷ [])) }
        ensures entries { self.new.entries ≡ self.old.entries }
    {
        if begins {
            self.calls.push(place)?;
        } else {
            self.returns.push(place)?;
        }
        Ok(())
    }

    // Where the call of its next entry is.
    fn next(&mut self) -> Option<Span>
        requires { self.old.entries < usize.MAX }
        ensures span { result ≡ span_at self.old.calls.items self.old.returns.items self.old.entries }
        ensures seen { self.new ≡ record self.old { entries = self.old.entries + 1 } }
    {
        let number = self.entries;
        self.entries += 1;
        let called = *self.calls.get(number)?;
        Some(Span {
            called,
            returned: self.returns.get(number).copied(),
        })
    }
}

// One more than the largest number of a client.
fn client_count(events: &[Event]) -> usize
    ensures { (i : ℕ) (event : _) → slice_get (events_of events.now) i ≡ Some event → client_of event < result }
{
    let mut clients = 0;
    for event in events {
        let client = event.client() as usize;
        if client >= clients {
            clients = client + 1;
        }
    }
    clients
}

// `count` clients without calls.
fn idle_clients(alloc: Global, count: usize) -> Result<Vec<Client>, OutOfMemory>
    ensures length { IfOk result (λ clients. length clients.items ≡ count) }
    ensures idle { IfOk result (λ clients. AreClients [] clients.items) }
    ensures seen { IfOk result (λ clients. HaveSeen (λ _. 0) clients.items) }
{
    let mut clients = Vec::with_capacity(alloc, count)?;
    for _ in 0..count {
        clients.push(Client {
            calls: Vec::new(alloc),
            returns: Vec::new(alloc),
            entries: 0,
        })?;
    }
    Ok(clients)
}

// The clients of a history.
pub(crate) fn clients_of(alloc: Global, events: &[Event]) -> Result<Vec<Client>, OutOfMemory>
    ensures clients { IfOk result (λ clients. AreClients (events_of events.now) clients.items) }
    ensures seen { IfOk result (λ clients. HaveSeen (λ _. 0) clients.items) }
{
    let mut clients = idle_clients(alloc, client_count(events))?;
    for (place, event) in events.iter().enumerate() {
        clients[event.client() as usize].note(place, event.begins())?;
    }
    Ok(clients)
}

// Where the call of a client's next entry is.
fn next_span(clients: &mut [Client], client: u32) -> Option<Span>
    requires { (c : ℕ) (known : _) → slice_get clients.old c ≡ Some known → known.entries < usize.MAX }
    ensures span { (h : List _) (n : ℕ → ℕ) → AreClients h clients.old → HaveSeen n clients.old → result ≡ span_of h client (n client) }
    ensures clients { (h : List _) → AreClients h clients.old → AreClients h clients.new }
    ensures seen { (n : ℕ → ℕ) → HaveSeen n clients.old → HaveSeen (one_more client n) clients.new }
{
    let place = client as usize;
    if place >= clients.len() {
        return None;
    }
    clients[place].next()
}

// Where the calls are that the entries of an order name.
pub(crate) fn spans_of<S: SeqObject>(
    alloc: Global,
    clients: &mut [Client],
    order: &[Done<S::Call, S::Choice, S::Reply>],
) -> Result<Vec<Option<Span>>, OutOfMemory>
    requires { HaveSeen (λ _. 0) clients.old }
    ensures spans { IfOk result (λ spans. (h : List _) → AreClients h clients.old → (p : ℕ) (e : Entry) → slice_get (entries_in S.call_meant S.choice_meant S.numbers order.now) p ≡ Some e →
        slice_get spans.items p ≡ Some (span_of h e.client (named (entries_in S.call_meant S.choice_meant S.numbers order.now) p e))) }
    ensures length { IfOk result (λ spans. length spans.items ≡ length order.now) }
    ensures clients { (h : List _) → AreClients h clients.old → AreClients h clients.new }
    ensures seen { OnOk result (HaveSeen (λ c. count (is_of c) (entries_in S.call_meant S.choice_meant S.numbers order.now)) clients.new) }
{
    let mut spans = Vec::with_capacity(alloc, order.len())?;
    for done in order {
        let span = next_span(clients, done.client);
        spans.push(span)?;
    }
    Ok(spans)
}

fn earlier(a: Option<usize>, b: Option<usize>) -> Option<usize>
    ensures { result ≡ earlier a b }
{
    match (a, b) {
        (Some(a), Some(b)) => Some(a.min(b)),
        (a, b) => a.or(b),
    }
}

// Whether there is a return, and it comes before the beginning of a call.
fn is_before(returned: Option<usize>, span: Option<Span>) -> bool
    ensures { result ≡ is_before returned span }
{
    match (returned, span) {
        (Some(returned), Some(span)) => returned < span.called,
        _ => false,
    }
}

// Where a call returns.
fn return_of(span: Option<Span>) -> Option<usize>
    ensures { result ≡ return_of span }
{
    match span {
        Some(span) => span.returned,
        None => None,
    }
}

// At which places of an order the call of a later place precedes the call of this place.
pub(crate) fn preceded_places(
    alloc: Global,
    spans: &[Option<Span>],
) -> Result<Vec<bool>, OutOfMemory>
    ensures length { IfOk result (λ preceded. length preceded.items ≡ length spans.now) }
    ensures each { IfOk result (λ preceded. (p : ℕ) → p < length spans.now → slice_get preceded.items p ≡ Some (is_preceded spans.now p)) }
{
    let mut preceded = vec![in alloc; false; spans.len()]?;
    let mut earliest = None;
    for place in (0..spans.len()).rev() {
        let span = spans[place];
        preceded[place] = is_before(earliest, span);
        earliest = earlier(earliest, return_of(span));
    }
    Ok(preceded)
}

// Whether each call that returned has an entry.
pub(crate) fn are_complete(clients: &[Client]) -> bool
    ensures { IsTrue result ↔ All (λ client. length client.returns.items ≤ client.entries) clients.now }
{
    clients
        .iter()
        .all(|client| client.returns.len() <= client.entries)
}

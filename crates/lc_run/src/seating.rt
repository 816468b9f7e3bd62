//! Whether the seats that are handed in are those of the run that is held.
ghost use Rattle.std.specs.Prelude.{◌≡◌, ◌↔◌, IsTrue, All, MatchOption};
ghost use Rattle.lc_check.specs.VerdictView.{development_in};
ghost use Rattle.lc_run.specs.LabelView.{labels_of};
ghost use Rattle.lc_run.specs.Locked.{development_held, clients_held, labels_held};
ghost use Rattle.lc_run.specs.Seated.{has_seat, AreAllThere, IsLeastMissing, HasOwn, IsFirstStrange, IsWhole, IsWhyNot};

use crate::finishing::Why;
use crate::held::{Seat, Shared};
use crate::label::Label;
use crate::sameness::is_list_of;
use lc_check::Accepted;
use std::sync::ledger::Ledger;

// Whether a client's seat is there.
fn has_seat<J: Ledger>(seats: &[Seat<J>], client: u32) -> bool
    ensures { result ≡ has_seat client seats.now }
{
    for seat in seats {
        if seat.client() == client {
            return true;
        }
    }
    false
}

// The least client below `clients` without a seat, if there is one.
fn missing_seat<J: Ledger>(seats: &[Seat<J>], clients: u32) -> Option<u32>
    ensures { MatchOption result (AreAllThere clients seats.now) (IsLeastMissing clients seats.now) }
{
    for client in 0..clients {
        if !has_seat(seats, client) {
            return Some(client);
        }
    }
    None
}

// The first client whose seat has other labels than are held of it, if there is one.
fn strange_seat<J: Ledger>(labels: &[Label], seats: &[Seat<J>]) -> Option<u32>
    ensures { let held = labels_of labels.now in MatchOption result (All (HasOwn held) seats.now) (IsFirstStrange held seats.now) }
{
    for seat in seats {
        if !is_list_of(labels, seat.client(), seat.labels()) {
            return Some(seat.client());
        }
    }
    None
}

// Whether what is held is of this development and for `clients` clients.
fn is_of<J: Ledger>(shared: &Shared<J>, accepted: &Accepted, clients: u32) -> bool
    ensures { IsTrue result ↔ ((development_held shared.now ≡ development_in accepted.now) × (clients_held shared.now ≡ clients)) }
{
    shared.clients() == clients && shared.development().is_same(accepted.development())
}

// The first reason for which a run is not finished by these seats, if it is not: a seat is missing, what is held is of another
// runner, or a seat has other labels.
fn first_reason<J: Ledger>(
    shared: &Shared<J>,
    accepted: &Accepted,
    clients: u32,
    seats: &[Seat<J>],
) -> Option<Why>
    ensures { MatchOption result (IsWhole shared.now (development_in accepted.now) clients seats.now) (IsWhyNot shared.now (development_in accepted.now) clients seats.now) }
{
    if let Some(client) = missing_seat(seats, clients) {
        return Some(Why::SeatMissing(client));
    }
    if !is_of(shared, accepted, clients) {
        return Some(Why::RunMismatch);
    }
    if let Some(client) = strange_seat(shared.labels(), seats) {
        return Some(Why::SeatMismatch(client));
    }
    None
}

impl<J: Ledger> Shared<J> {
    ghost use Rattle.std.specs.Prelude.{◌≡◌, ◌↔◌, Some, None};
    ghost use Rattle.lc_check.specs.VerdictView.{development_in};
    ghost use Rattle.lc_run.specs.Seated.{IsWhole, IsWhyNot};
    ghost use Rattle.lc_run.specs.declared.finishing.Why.{Why};

    /// Why these seats do not finish the run that is held, as one of this development and for `clients` clients: the first reason
    /// that applies, and none if they are the seats of that run.
    pub fn why_not(&self, accepted: &Accepted, clients: u32, seats: &[Seat<J>]) -> Option<Why>
        ensures whole { (result ≡ None) ↔ IsWhole self.now (development_in accepted.now) clients seats.now }
        ensures why { (why : Why) → (result ≡ Some why) ↔ IsWhyNot self.now (development_in accepted.now) clients seats.now why }
    {
        first_reason(self, accepted, clients, seats)
    }
}

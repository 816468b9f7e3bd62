//! The end of a run: its history and its order, if all seats are handed in.
ghost use Rattle.std.specs.Prelude.{◌≡◌, IfOk, IfErr, All, vec_len};
ghost use Rattle.lc_history.specs.Histories.{events_in};
ghost use Rattle.lc_sound.specs.Instrumented.{history};
ghost use Rattle.lc_sound.specs.Order.{order};
ghost use Rattle.lc_run.specs.LabelView.{labels_of};
ghost use Rattle.lc_run.specs.Finished.{AreOwn};
ghost use Rattle.lc_run.specs.Locked.{clients_held, labels_held};
ghost use Rattle.lc_run.specs.Ordering.{order_entries};
ghost use Rattle.lc_check.specs.VerdictView.{development_in};
ghost use Rattle.lc_run.specs.Seated.{AreAllThere, HasOwn, IsWhole, IsWhy};

use crate::held::{Seat, Shared};
use crate::history::history_events;
use crate::label::Label;
use crate::ordering::order_of;
use crate::runner::Runner;
use lc_base::OutOfMemory;
use lc_check::Accepted;
use lc_history::{Done, History};
use lc_seq::{Pick, TextCall};
use lc_sound::laws::orders_linearize;
use std::alloc::Global;
use std::sync::Mutex;
use std::sync::ledger::Ledger;

/// What has run: the labels, the history of calls and returns, an order that linearizes it, and the labels of each client.
#[derive(Drop)]
pub struct RunLog {
    pub history: History,
    pub order: Vec<Done<TextCall, Pick, Vec<i64>>>,
    pub labels: Vec<Label>,
    /// By clients.
    pub own: Vec<Vec<Label>>,
}

/// Why a run is not finished. If several apply, the first in this order is returned.
#[derive(Clone, Copy, Debug, PartialEq, Eq)]
pub enum Why {
    /// The seat of this client was not handed in; it is the least such client.
    SeatMissing(u32),
    /// What is held is of another development, or for another number of clients.
    RunMismatch,
    /// The seat of this client has other labels than are held of it.
    SeatMismatch(u32),
    /// An allocation was refused.
    OutOfMemory,
}

impl From<OutOfMemory> for Why {
    ghost use Rattle.std.specs.Prelude.{◌≡◌};
    ghost use Rattle.lc_run.specs.declared.finishing.Why.TheVariants.{OutOfMemory};

    ghost from_gives = { λ _ why. why ≡ OutOfMemory };

    fn from(_: OutOfMemory) -> Why {
        Why::OutOfMemory
    }
}

/// A run that is not finished: runner and seats, as they were, and why.
#[derive(Drop)]
pub struct Unfinished<J: Ledger> {
    pub runner: Runner<J>,
    pub seats: Vec<Seat<J>>,
    pub why: Why,
}

// What is made of labels in memory of its own: their history and their order; and room for the lists of clients.
#[derive(Drop)]
struct Summary {
    history: History,
    order: Vec<Done<TextCall, Pick, Vec<i64>>>,
    room: Vec<Vec<Label>>,
}

// `clients` lists of labels, all empty.
fn room_for(alloc: Global, clients: u32) -> Result<Vec<Vec<Label>>, OutOfMemory>
    ensures { IfOk result (λ room. vec_len room ≡ clients) }
{
    let mut room = Vec::with_capacity(alloc, clients as usize)?;
    for _ in 0..clients {
        room.push(Vec::new(alloc))?;
    }
    Ok(room)
}

// The history and the order of what is held, and room for the lists of its clients.
fn summary_of<J: Ledger>(alloc: Global, shared: &Shared<J>) -> Result<Summary, OutOfMemory>
    ensures history { IfOk result (λ summary. events_in summary.history ≡ history (labels_held shared.now)) }
    ensures order { IfOk result (λ summary. order_entries summary.order.items ≡ order (labels_held shared.now)) }
    ensures room { IfOk result (λ summary. vec_len summary.room ≡ clients_held shared.now) }
{
    orders_linearize();
    let labels = shared.labels();
    let clients = shared.clients();
    let history = History::of_well_formed(history_events(alloc, labels)?);
    let order = order_of(alloc, labels, clients)?;
    let room = room_for(alloc, clients)?;
    Ok(Summary {
        history,
        order,
        room,
    })
}

// The history and the order of what is held, if the seats are those of its run and it is of this development and for `clients`
// clients; or why it is not finished.
fn conclusion<J: Ledger>(
    alloc: Global,
    shared: &Shared<J>,
    accepted: &Accepted,
    clients: u32,
    seats: &[Seat<J>],
) -> Result<Summary, Why>
    ensures whole { IfOk result (λ _. IsWhole shared.now (development_in accepted.now) clients seats.now) }
    ensures history { IfOk result (λ summary. events_in summary.history ≡ history (labels_held shared.now)) }
    ensures order { IfOk result (λ summary. order_entries summary.order.items ≡ order (labels_held shared.now)) }
    ensures room { IfOk result (λ summary. vec_len summary.room ≡ clients_held shared.now) }
    ensures why { IfErr result (IsWhy shared.now (development_in accepted.now) clients seats.now) }
{
    if let Some(why) = shared.why_not(accepted, clients, seats) {
        return Err(why);
    }
    Ok(summary_of(alloc, shared)?)
}

// The labels of seats that have those of their clients, each list at its client's place.
fn lists_of<J: Ledger>(
    room: Vec<Vec<Label>>,
    seats: Vec<Seat<J>>,
    _labels: &[Label],
) -> Vec<Vec<Label>>
    requires there { AreAllThere (vec_len room) seats.items }
    requires own { All (HasOwn (labels_of _labels.now)) seats.items }
    ensures count { vec_len result ≡ vec_len room }
    ensures own { AreOwn (labels_of _labels.now) (vec_len room) result.items }
{
    let mut lists = room;
    for seat in seats {
        let place = seat.client() as usize;
        if place < lists.len() {
            lists[place] = seat.into_labels();
        }
    }
    lists
}

// What is left of a run that is held, if the seats are its own.
fn log_of<J: Ledger>(summary: Summary, shared: Shared<J>, seats: Vec<Seat<J>>) -> RunLog
    requires room { vec_len summary.room ≡ clients_held shared }
    requires there { AreAllThere (clients_held shared) seats.items }
    requires own { All (HasOwn (labels_held shared)) seats.items }
    ensures history { events_in result.history ≡ events_in summary.history }
    ensures order { order_entries result.order.items ≡ order_entries summary.order.items }
    ensures labels { labels_of result.labels.items ≡ labels_held shared }
    ensures count { vec_len result.own ≡ clients_held shared }
    ensures own { AreOwn (labels_held shared) (clients_held shared) result.own.items }
{
    let Summary {
        history,
        order,
        room,
    } = summary;
    let own = lists_of(room, seats, shared.labels());
    RunLog {
        history,
        order,
        labels: shared.into_labels(),
        own,
    }
}

impl<J: Ledger> Runner<J> {
    ghost use Rattle.std.specs.Prelude.{◌≡◌, ℕ, All, IfOk, IfErr, vec_len, length, map, sum};
    ghost use Rattle.lc_seq.specs.TextStep.{text_step, start_of};
    ghost use Rattle.lc_history.specs.Histories.{events_in};
    ghost use Rattle.lc_history.specs.History.{Linearizes};
    ghost use Rattle.lc_machine.specs.World.{World};
    ghost use Rattle.lc_sound.specs.Instrumented.{IsRun, history};
    ghost use Rattle.lc_sound.specs.Order.{order};
    ghost use Rattle.lc_run.specs.Finished.{AreOwn, IsConcluded, lists_in};
    ghost use Rattle.lc_run.specs.LabelView.{labels_of};
    ghost use Rattle.lc_run.specs.Ordering.{order_entries};
    ghost use Rattle.lc_run.specs.Running.{development_of, clients_of};
    ghost use Rattle.lc_run.specs.Seated.{AreAllThere, IsLeastMissing, HasOwn};
    ghost use Rattle.lc_run.specs.declared.held.Shared.{Shared};

    /// What has run, if all seats are handed in. If it is not finished, runner and seats come back.
    pub fn finish(self, seats: Vec<Seat<J>>) -> Result<RunLog, Unfinished<J>>
        ensures run { IfOk result (λ log. ∥ ((w : World) × IsRun (development_of self) (clients_of self) (labels_of log.labels.items) w) ∥₁) }
        ensures history { IfOk result (λ log. events_in log.history ≡ history (labels_of log.labels.items)) }
        ensures order { IfOk result (λ log. order_entries log.order.items ≡ order (labels_of log.labels.items)) }
        ensures linearizes { IfOk result (λ log. let D = development_of self in
            ∥ Linearizes (text_step D.specification.operations) (start_of D.specification.columns) (events_in log.history) (order_entries log.order.items) ∥₁) }
        ensures count { IfOk result (λ log. vec_len log.own ≡ clients_of self) }
        ensures own { IfOk result (λ log. AreOwn (labels_of log.labels.items) (clients_of self) log.own.items) }
        ensures together { IfOk result (λ log. sum (map length (lists_in log.own.items)) ≡ length (labels_of log.labels.items)) }
        ensures seats { IfOk result (λ log. All (HasOwn (labels_of log.labels.items)) seats.items) }
        ensures there { IfOk result (λ log. AreAllThere (clients_of self) seats.items) }
        ensures missing { IfErr result (λ u. (c : ℕ) → u.why ≡ Why.SeatMissing c → IsLeastMissing (clients_of self) seats.items c) }
        ensures concluded { ∥ ((s : Shared J) × IsConcluded s (development_of self) (clients_of self) seats.items result) ∥₁ }
        ensures same { IfErr result (λ u. u.seats.items ≡ seats.items) }
        ensures development { IfErr result (λ u. development_of u.runner ≡ development_of self) }
        ensures clients { IfErr result (λ u. clients_of u.runner ≡ clients_of self) }
    {
        let Runner {
            alloc,
            shared,
            accepted,
            clients,
        } = self;
        let shared = shared.into_inner();
        orders_linearize();
        match conclusion(alloc, &shared, &accepted, clients, &seats) {
            Ok(summary) => Ok(log_of(summary, shared, seats)),
            Err(why) => {
                let runner = Runner {
                    alloc,
                    shared: Mutex::new(shared),
                    accepted,
                    clients,
                };
                Err(Unfinished { runner, seats, why })
            }
        }
    }
}

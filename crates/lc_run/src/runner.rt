//! Runners: clients take the steps of a development one at a time, each under one taking of one lock.
ghost use Rattle.std.specs.Prelude.{◌≡◌, ◌≤◌, [], length, vec_capacity, IfSome};
ghost use Rattle.lc_base.specs.Limits.{reply_limit};
ghost use Rattle.lc_steps.specs.StepView.{what_of, GoesOn};
ghost use Rattle.lc_run.specs.LabelView.{labels_of};
ghost use Rattle.lc_run.specs.Labels.{last_of};
ghost use Rattle.lc_run.specs.Running.{IsSaid};

use crate::fault::RunFault;
use crate::held::{Seat, Shared};
use crate::label::Label;
use lc_base::{OpId, REPLY_LIMIT, SEAT_LIMIT};
use lc_check::Accepted;
use lc_outline::Development;
use lc_steps::What;
use std::alloc::Global;
use std::sync::ledger::{Blank, Ledger};
use std::sync::{Arc, Mutex, Wait};
use std::thread::yield_now;

/// How many labels a client has made before it gives way to others for a moment alone.
const EARLY_LABELS: usize = 3_000;

/// How often a thread gives way in the time in which one that waits for a lock, and sleeps, is woken.
const WAKING_TURNS: u32 = 64;

/// What a step of a call came to.
#[derive(Drop)]
pub enum Progress {
    /// The call goes on.
    Running,
    /// It returned these numbers.
    Returned(Vec<i64>),
}

/// What a whole call came to.
#[derive(Drop)]
pub enum Called {
    /// It returned these numbers.
    Returned(Vec<i64>),
    /// It goes on, and has used its turns.
    TurnsSpent,
}

/// A runner of an accepted development, for a number of clients. What has run lies under one lock.
#[derive(Drop)]
pub struct Runner<J: Ledger> {
    pub(crate) alloc: Global,
    pub(crate) shared: Mutex<Shared<J>>,
    pub(crate) accepted: Arc<Accepted>,
    pub(crate) clients: u32,
}

// These numbers, if there is room for them.
fn filled(room: Vec<i64>, numbers: &[i64]) -> Vec<i64>
    requires empty { room.items ≡ [] }
    requires few { length numbers.now ≤ vec_capacity room }
    ensures { result.items ≡ numbers.now }
{
    let mut filled = room;
    if filled.extend_from_slice(numbers).is_err() {
        unreachable!()
    }
    filled
}

// What a step came to, its numbers in this room.
fn said(what: &What, room: Vec<i64>) -> Progress
    requires goes { GoesOn (what_of what.now) }
    requires empty { room.items ≡ [] }
    requires few { reply_limit ≤ vec_capacity room }
    ensures { IsSaid result (what_of what.now) }
{
    match what {
        What::Returned(numbers) => Progress::Returned(filled(room, numbers)),
        What::Moved { .. } | What::Invoked { .. } => Progress::Running,
    }
}

// What the last of these labels came to.
fn said_last(labels: &[Label], room: Vec<i64>) -> Progress
    requires goes { IfSome (last_of (labels_of labels.now)) (λ label. GoesOn label.what) }
    requires empty { room.items ≡ [] }
    requires few { reply_limit ≤ vec_capacity room }
    ensures { IfSome (last_of (labels_of labels.now)) (λ label. IsSaid result label.what) }
{
    match labels.last() {
        None => Progress::Running,
        Some(label) => said(&label.what, room),
    }
}

// Gives way to others: after few labels until one that waits for the lock has it, so that calls overlap.
fn give_way(labels: usize) {
    let times = if labels < EARLY_LABELS {
        WAKING_TURNS
    } else {
        1
    };
    for _ in 0..times {
        yield_now();
    }
}

impl<J: Ledger> Runner<J> {
    ghost use Rattle.std.specs.Prelude.{◌≡◌, ◌<◌, ◌⊎◌, ◌↔◌, ℕ, [], true, false, OnOk, OnErr, IfOk, IfErr, IfSome, IsErrOf, slice_get, vec_len};
    ghost use Rattle.std.specs.Arc.{arc_value};
    ghost use Rattle.lc_base.specs.Limits.{seat_limit};
    ghost use Rattle.lc_machine.specs.Step.{Invoked};
    ghost use Rattle.lc_outline.specs.DevelopmentView.{development_view};
    ghost use Rattle.lc_check.specs.VerdictView.{development_in};
    ghost use Rattle.lc_run.specs.Labels.{is_unfinished, HasMade};
    ghost use Rattle.lc_run.specs.Locked.{client_in, labels_made};
    ghost use Rattle.lc_run.specs.Running.{development_of, clients_of, IsSaid, IsCalled, IsLeft, IsLeftBy, IsUnbegun, IsUnstepped, IsUncalled};

    /// A runner for `clients` clients, with their seats, by their numbers.
    pub fn new(
        alloc: Global,
        blank: Blank,
        accepted: Arc<Accepted>,
        clients: u32,
    ) -> Result<(Runner<J>, Vec<Seat<J>>), RunFault>
        requires name { blank.name ≡ J.name }
        requires parts { (blank.parts ≡ J.parts) × (blank.parts ≡ seat_limit) }
        ensures clients { IsErrOf result RunFault.Clients ↔ ((clients ≡ 0) ⊎ (seat_limit < clients)) }
        ensures memory { IfErr result (λ e. (e ≡ RunFault.Clients) ⊎ (e ≡ RunFault.OutOfMemory)) }
        ensures development { IfOk result (λ r. development_of r.0 ≡ development_in (arc_value accepted)) }
        ensures runs { IfOk result (λ r. clients_of r.0 ≡ clients) }
        ensures count { IfOk result (λ r. vec_len r.1 ≡ clients) }
        ensures seats { IfOk result (λ r. (k : ℕ) → k < clients → IfSome (slice_get r.1.items k) (λ seat. (client_in seat ≡ k) × (labels_made seat ≡ []))) }
    {
        if clients == 0 || clients > SEAT_LIMIT {
            return Err(RunFault::Clients);
        }
        let ours = Arc::try_clone(&accepted)?;
        let made: Result<(Shared<J>, Vec<Seat<J>>), RunFault> = Shared::new(
            alloc, blank, accepted, clients,
        );
        let (shared, seats) = made?;
        let runner = Runner {
            alloc,
            shared: Mutex::new(shared),
            accepted: ours,
            clients,
        };
        Ok((runner, seats))
    }

    /// The development that it runs.
    pub fn development(&self) -> &Development
        ensures { development_view result.now ≡ development_of self.now }
    {
        self.accepted.development()
    }

    /// How many clients it has.
    pub fn clients(&self) -> u32
        ensures { result ≡ clients_of self.now }
    {
        self.clients
    }

    /// The seat's client begins a call of an operation with these numbers.
    pub fn begin<R: Wait>(
        &self,
        rt: &R,
        seat: &mut Seat<J>,
        operation: OpId,
        numbers: &[i64],
    ) -> Result<(), RunFault>
        ensures ok { OnOk result (HasMade (λ what. what ≡ Invoked operation.0 numbers.now) (client_in seat.old) (labels_made seat.old) (labels_made seat.new)) }
        ensures err { OnErr result (labels_made seat.new ≡ labels_made seat.old) }
        ensures busy { IsErrOf result RunFault.Busy ↔ (is_unfinished (labels_made seat.old) ≡ true) }
        ensures never { IsErrOf result RunFault.Idle → ⊥ }
        ensures fault { IfErr result (IsUnbegun seat.old operation.0 numbers.now) }
        ensures same { client_in seat.new ≡ client_in seat.old }
    {
        self.shared.lock(rt).take_begin(seat, operation, numbers)
    }

    /// The seat's client, which is in a call, takes one instruction or returns.
    pub fn step<R: Wait>(&self, rt: &R, seat: &mut Seat<J>) -> Result<Progress, RunFault>
        ensures ok { IfOk result (λ progress. HasMade (IsSaid progress) (client_in seat.old) (labels_made seat.old) (labels_made seat.new)) }
        ensures err { OnErr result (labels_made seat.new ≡ labels_made seat.old) }
        ensures idle { IsErrOf result RunFault.Idle ↔ (is_unfinished (labels_made seat.old) ≡ false) }
        ensures never { IsErrOf result RunFault.Busy → ⊥ }
        ensures fault { IfErr result (IsUnstepped seat.old) }
        ensures same { client_in seat.new ≡ client_in seat.old }
    {
        match Vec::with_capacity(self.alloc, REPLY_LIMIT as usize) {
            Ok(room) => {
                self.shared.lock(rt).take_step(seat)?;
                Ok(said_last(seat.labels(), room))
            }
            Err(_) => Err(self.shared.lock(rt).fault_without_memory(seat)),
        }
    }

    /// A call of an operation with these numbers, with at most `turns` turns. Between two of its steps others may take theirs, and are
    /// given way to.
    pub fn call<R: Wait>(
        &self,
        rt: &R,
        seat: &mut Seat<J>,
        operation: OpId,
        numbers: &[i64],
        turns: u64,
    ) -> Result<Called, RunFault>
        ensures ok { IfOk result (λ called. IsCalled called turns (Invoked operation.0 numbers.now) (client_in seat.old) (labels_made seat.old) (labels_made seat.new)) }
        ensures err { OnErr result (IsLeft turns (Invoked operation.0 numbers.now) (client_in seat.old) (labels_made seat.old) (labels_made seat.new)) }
        ensures left { IfErr result (λ e. IsLeftBy e turns (Invoked operation.0 numbers.now) (client_in seat.old) (labels_made seat.old) (labels_made seat.new)) }
        ensures busy { IsErrOf result RunFault.Busy ↔ (is_unfinished (labels_made seat.old) ≡ true) }
        ensures never { IsErrOf result RunFault.Idle → ⊥ }
        ensures fault { IfErr result (IsUncalled seat.old seat.new operation.0 numbers.now turns) }
        ensures same { client_in seat.new ≡ client_in seat.old }
    {
        self.begin(rt, seat, operation, numbers)?;
        for _turn in 0..turns {
            if let Progress::Returned(reply) = self.step(rt, seat)? {
                return Ok(Called::Returned(reply));
            }
            give_way(seat.labels().len());
        }
        Ok(Called::TurnsSpent)
    }
}

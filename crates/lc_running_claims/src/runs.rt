//! Runs of an accepted development: a step and a beginning under the lock, beginnings, steps and calls of a runner, why a run is not
//! finished, and its end.
ghost use Rattle.std.specs.Prelude.{◌≡◌, ◌↔◌, ℕ, All, Some, None, true, false, IfErr, IfOk, IsErrOf, OnErr, OnOk, length, map, sum, vec_len};
ghost use Rattle.lc_check.specs.VerdictView.{development_in};
ghost use Rattle.lc_history.specs.Histories.{events_in};
ghost use Rattle.lc_history.specs.History.{Linearizes};
ghost use Rattle.lc_machine.specs.Step.{Invoked};
ghost use Rattle.lc_machine.specs.World.{World};
ghost use Rattle.lc_run.specs.Finished.{AreOwn, IsConcluded, lists_in};
ghost use Rattle.lc_run.specs.LabelView.{labels_of};
ghost use Rattle.lc_run.specs.Labels.{is_unfinished, HasMade};
ghost use Rattle.lc_run.specs.Locked.{development_held, clients_held, labels_held, world_held, client_in, labels_made};
ghost use Rattle.lc_run.specs.Ordering.{order_entries};
ghost use Rattle.lc_run.specs.Running.{development_of, clients_of, IsCalled, IsLeft, IsLeftBy, IsSaid, IsUnbegun, IsUncalled, IsUnstepped};
ghost use Rattle.lc_run.specs.Seated.{AreAllThere, HasOwn, IsLeastMissing, IsWhole, IsWhyNot};
ghost use Rattle.lc_run.specs.Taken.{HasGrown, HaveRoom, IsBeginFault, IsStepFault};
ghost use Rattle.lc_run.specs.declared.fault.RunFault.TheVariants.{Busy, Idle};
ghost use Rattle.lc_run.specs.declared.finishing.Why.{Why as Reason};
ghost use Rattle.lc_run.specs.declared.finishing.Why.TheVariants.{SeatMissing};
ghost use Rattle.lc_run.specs.declared.held.Shared.{Shared as Held};
ghost use Rattle.lc_seq.specs.TextStep.{text_step, start_of};
ghost use Rattle.lc_sound.specs.Instrumented.{IsRun, history};
ghost use Rattle.lc_sound.specs.Order.{order};
ghost use Rattle.lc_steps.specs.StepView.{GoesOn};

use lc_base::OpId;
use lc_check::Accepted;
use lc_run::{Called, Progress, RunFault, RunLog, Runner, Seat, Shared, Unfinished, Why};
use std::sync::Wait;
use std::sync::ledger::Ledger;

/// A step adds one label to what the lock holds, and the same to the seat of its client, and to no other seat; or the fault says
/// why not, and nothing changes.
pub fn taking_a_step<J: Ledger>(
    shared: &mut Shared<J>,
    seat: &mut Seat<J>,
    other: &mut Seat<J>,
) -> Result<(), RunFault>
    ensures grown { OnOk result (HasGrown GoesOn shared.old shared.new seat.old seat.new) }
    ensures room { OnOk result (HaveRoom (labels_held shared.old)) }
    ensures idle { IsErrOf result Idle ↔ (is_unfinished (labels_made seat.old) ≡ false) }
    ensures fault { IfErr result (IsStepFault (development_held shared.old) (world_held shared.old) (labels_held shared.old) (client_in seat.old) (labels_made seat.old)) }
    ensures labels { OnErr result (labels_held shared.new ≡ labels_held shared.old) }
    ensures world { OnErr result (world_held shared.new ≡ world_held shared.old) }
    ensures made { OnErr result (labels_made seat.new ≡ labels_made seat.old) }
    ensures development { development_held shared.new ≡ development_held shared.old }
    ensures clients { clients_held shared.new ≡ clients_held shared.old }
    ensures same { client_in seat.new ≡ client_in seat.old }
    ensures elsewhere { labels_made other.new ≡ labels_made other.old }
{
    let _ = other;
    shared.take_step(seat)
}

/// The beginning of a call adds one label to what the lock holds, and the same to the seat of its client; or the fault says why not, and
/// nothing changes.
pub fn taking_a_beginning<J: Ledger>(
    shared: &mut Shared<J>,
    seat: &mut Seat<J>,
    operation: OpId,
    numbers: &[i64],
) -> Result<(), RunFault>
    ensures grown { OnOk result (HasGrown (λ what. what ≡ Invoked operation.0 numbers.now) shared.old shared.new seat.old seat.new) }
    ensures room { OnOk result (HaveRoom (labels_held shared.old)) }
    ensures busy { IsErrOf result Busy ↔ (is_unfinished (labels_made seat.old) ≡ true) }
    ensures fault { IfErr result (IsBeginFault (development_held shared.old) (world_held shared.old) (labels_held shared.old) (client_in seat.old) (labels_made seat.old) operation.0 numbers.now) }
    ensures labels { OnErr result (labels_held shared.new ≡ labels_held shared.old) }
    ensures world { OnErr result (world_held shared.new ≡ world_held shared.old) }
    ensures made { OnErr result (labels_made seat.new ≡ labels_made seat.old) }
    ensures development { development_held shared.new ≡ development_held shared.old }
    ensures clients { clients_held shared.new ≡ clients_held shared.old }
    ensures same { client_in seat.new ≡ client_in seat.old }
{
    shared.take_begin(seat, operation, numbers)
}

/// The beginning of a call adds one label to the seat, which is the call; or the fault says why not.
pub fn beginning_a_call<J: Ledger, R: Wait>(
    runner: &Runner<J>,
    rt: &R,
    seat: &mut Seat<J>,
    operation: OpId,
    numbers: &[i64],
) -> Result<(), RunFault>
    ensures ok { OnOk result (HasMade (λ what. what ≡ Invoked operation.0 numbers.now) (client_in seat.old) (labels_made seat.old) (labels_made seat.new)) }
    ensures err { OnErr result (labels_made seat.new ≡ labels_made seat.old) }
    ensures busy { IsErrOf result Busy ↔ (is_unfinished (labels_made seat.old) ≡ true) }
    ensures never { IsErrOf result Idle → ⊥ }
    ensures fault { IfErr result (IsUnbegun seat.old operation.0 numbers.now) }
    ensures same { client_in seat.new ≡ client_in seat.old }
{
    runner.begin(rt, seat, operation, numbers)
}

/// A step of a call adds one label to the seat, which is what is returned; or the fault says why not.
pub fn stepping<J: Ledger, R: Wait>(
    runner: &Runner<J>,
    rt: &R,
    seat: &mut Seat<J>,
) -> Result<Progress, RunFault>
    ensures ok { IfOk result (λ progress. HasMade (IsSaid progress) (client_in seat.old) (labels_made seat.old) (labels_made seat.new)) }
    ensures err { OnErr result (labels_made seat.new ≡ labels_made seat.old) }
    ensures idle { IsErrOf result Idle ↔ (is_unfinished (labels_made seat.old) ≡ false) }
    ensures never { IsErrOf result Busy → ⊥ }
    ensures fault { IfErr result (IsUnstepped seat.old) }
    ensures same { client_in seat.new ≡ client_in seat.old }
{
    runner.step(rt, seat)
}

/// A call is its beginning and its steps, at most as many as it has turns.
pub fn calling<J: Ledger, R: Wait>(
    runner: &Runner<J>,
    rt: &R,
    seat: &mut Seat<J>,
    operation: OpId,
    numbers: &[i64],
    turns: u64,
) -> Result<Called, RunFault>
    ensures ok { IfOk result (λ called. IsCalled called turns (Invoked operation.0 numbers.now) (client_in seat.old) (labels_made seat.old) (labels_made seat.new)) }
    ensures err { OnErr result (IsLeft turns (Invoked operation.0 numbers.now) (client_in seat.old) (labels_made seat.old) (labels_made seat.new)) }
    ensures left { IfErr result (λ e. IsLeftBy e turns (Invoked operation.0 numbers.now) (client_in seat.old) (labels_made seat.old) (labels_made seat.new)) }
    ensures busy { IsErrOf result Busy ↔ (is_unfinished (labels_made seat.old) ≡ true) }
    ensures never { IsErrOf result Idle → ⊥ }
    ensures fault { IfErr result (IsUncalled seat.old seat.new operation.0 numbers.now turns) }
    ensures same { client_in seat.new ≡ client_in seat.old }
{
    runner.call(rt, seat, operation, numbers, turns)
}

/// Why seats are not those of the run that is held is the first reason that applies, and none if they are.
pub fn naming_the_reason<J: Ledger>(
    shared: &Shared<J>,
    accepted: &Accepted,
    clients: u32,
    seats: &[Seat<J>],
) -> Option<Why>
    ensures whole { (result ≡ None) ↔ IsWhole shared.now (development_in accepted.now) clients seats.now }
    ensures why { (why : Reason) → (result ≡ Some why) ↔ IsWhyNot shared.now (development_in accepted.now) clients seats.now why }
{
    shared.why_not(accepted, clients, seats)
}

/// A run that is finished is an instrumented run, with its history, an order that linearizes it, and the labels of each seat. Else
/// runner and seats are returned, and why it is not finished.
pub fn finishing<J: Ledger>(runner: Runner<J>, seats: Vec<Seat<J>>) -> Result<RunLog, Unfinished<J>>
    ensures run { IfOk result (λ log. ∥ ((w : World) × IsRun (development_of runner) (clients_of runner) (labels_of log.labels.items) w) ∥₁) }
    ensures history { IfOk result (λ log. events_in log.history ≡ history (labels_of log.labels.items)) }
    ensures order { IfOk result (λ log. order_entries log.order.items ≡ order (labels_of log.labels.items)) }
    ensures linearizes { IfOk result (λ log. let D = development_of runner in
        ∥ Linearizes (text_step D.specification.operations) (start_of D.specification.columns) (events_in log.history) (order_entries log.order.items) ∥₁) }
    ensures count { IfOk result (λ log. vec_len log.own ≡ clients_of runner) }
    ensures own { IfOk result (λ log. AreOwn (labels_of log.labels.items) (clients_of runner) log.own.items) }
    ensures together { IfOk result (λ log. sum (map length (lists_in log.own.items)) ≡ length (labels_of log.labels.items)) }
    ensures seats { IfOk result (λ log. All (HasOwn (labels_of log.labels.items)) seats.items) }
    ensures there { IfOk result (λ log. AreAllThere (clients_of runner) seats.items) }
    ensures missing { IfErr result (λ u. (c : ℕ) → u.why ≡ SeatMissing c → IsLeastMissing (clients_of runner) seats.items c) }
    ensures concluded { ∥ ((s : Held J) × IsConcluded s (development_of runner) (clients_of runner) seats.items result) ∥₁ }
    ensures same { IfErr result (λ u. u.seats.items ≡ seats.items) }
    ensures development { IfErr result (λ u. development_of u.runner ≡ development_of runner) }
    ensures clients { IfErr result (λ u. clients_of u.runner ≡ clients_of runner) }
{
    runner.finish(seats)
}

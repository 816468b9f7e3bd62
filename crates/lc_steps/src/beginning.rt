//! A call that begins.
ghost use Rattle.std.specs.Prelude.{◌≡◌, true, [], length, slice_get, Some, IfOk};
ghost use Rattle.lc_ride.specs.Drafts.{written_in_draft, saved_in_draft, draft_columns};
ghost use Rattle.lc_term.specs.SystemColumns.{column_count};
ghost use Rattle.lc_term.specs.UpdateView.{write_view, writes_view};
ghost use Rattle.lc_action.specs.ActionView.{first_of};
ghost use Rattle.lc_object.specs.View.{operation_of};
ghost use Rattle.lc_object.specs.WellFormed.{variable_count};
ghost use Rattle.lc_machine.specs.MayRun.{variables_at};
ghost use Rattle.lc_machine.specs.Placed.{is_placed};
ghost use Rattle.lc_machine.specs.Step.{Invoked, IsClient};
ghost use Rattle.lc_machine.specs.View.{client_of};
ghost use Rattle.lc_machine.specs.World.{World, Idle, In, first_variables};
ghost use Rattle.lc_rider.specs.Rider.{argument, invocation_writes};
ghost use Rattle.lc_outline.specs.Development.{first_system};
ghost use Rattle.lc_outline.specs.DevelopmentView.{development_view};
ghost use Rattle.lc_ride.specs.RideView.{marks_of};
ghost use Rattle.lc_steps.specs.StepView.{what_of, world_in, IsBegun};

use crate::lookup::{body_of, client_at, count_of, system_columns};
use crate::steps::{Step, What};
use lc_action::SystemColumns;
use lc_base::{ColId, OpId, OutOfMemory, PointId};
use lc_machine::{Client, Place, StepFault};
use lc_object::Operation;
use lc_outline::Development;
use lc_ride::Draft;
use lc_term::{Env, Write};
use std::alloc::Global;

// The variables as a call begins.
fn first_variables(
    alloc: Global,
    clients: u32,
    client: u32,
    body: &Operation,
    numbers: &[i64],
) -> Result<Env, OutOfMemory>
    ensures { IfOk result (λ variables. variables.values.items ≡ first_variables clients client (operation_of body.now) numbers.now) }
{
    let mut values = Vec::new(alloc);
    values.push(i64::from(clients))?;
    values.push(i64::from(client))?;
    values.extend_from_slice(numbers)?;
    for _ in &body.locals {
        values.push(0)?;
    }
    Ok(Env { values })
}

fn copied(alloc: Global, numbers: &[i64]) -> Result<Vec<i64>, OutOfMemory>
    ensures { IfOk result (λ copy. copy.items ≡ numbers.now) }
{
    Ok(Vec::from_slice(alloc, numbers)?)
}

// The number of this place, or 0 if there is none.
fn argument(numbers: &[i64], place: usize) -> i64
    ensures { result ≡ argument numbers.now place }
{
    match numbers.get(place) {
        Some(number) => *number,
        None => 0,
    }
}

fn write(column: ColId, index: i64, value: i64) -> Write
    ensures { write_view result ≡ record { column = column.0; index = index; value = value } }
{
    Write {
        column,
        index,
        value,
    }
}

// What a client's invocation stores.
fn invocation_writes(
    system: SystemColumns,
    client: u32,
    operation: OpId,
    numbers: &[i64],
) -> [Write; 6]
    ensures { writes_view result ≡ invocation_writes (first_of system) client operation.0 numbers.now }
{
    let index = i64::from(client);
    let [first, second, third] = system.arguments();
    [
        write(system.pend(), index, 1),
        write(system.operation(), index, i64::from(operation.0)),
        write(first, index, argument(numbers, 0)),
        write(second, index, argument(numbers, 1)),
        write(third, index, argument(numbers, 2)),
        write(system.noted(), index, 0),
    ]
}

// The step of a client that calls an operation with these numbers, and is then at this point.
fn entered(
    alloc: Global,
    operation: OpId,
    numbers: Vec<i64>,
    point: PointId,
    variables: Env,
) -> Step
    ensures what { what_of result.what ≡ Invoked operation.0 numbers.items }
    ensures marks { marks_of result.marks.items ≡ [] }
    ensures client { client_of result.client ≡ In point.0 variables.values.items }
{
    Step {
        what: What::Invoked { operation, numbers },
        marks: Vec::new(alloc),
        client: Client::In(Place { point, variables }),
    }
}

// A client in no call, below `clients`, begins a call of this operation with as many numbers as it takes.
fn enter(
    alloc: Global,
    development: &Development,
    draft: &mut Draft,
    clients: u32,
    client: u32,
    operation: OpId,
    body: &Operation,
    numbers: &[i64],
) -> Result<Step, StepFault>
    requires columns { draft_columns draft.old ≡ column_count (first_system (development_view development.now)) }
    requires body { slice_get (development_view development.now).object.operations operation.0 ≡ Some (operation_of body.now) }
    requires numbers { length numbers.now ≡ length (operation_of body.now).arguments }
    requires entry { variables_at (development_view development.now).object (operation_of body.now).entry ≡ Some (variable_count (operation_of body.now)) }
    ensures begun { (w : World) → w.columns ≡ written_in_draft draft.old → length w.clients ≡ clients → IsClient w client Idle →
        IsBegun (development_view development.now) w client operation.0 numbers.now (written_in_draft draft.new) result }
    ensures placed { IfOk result (λ step. is_placed (development_view development.now).object (client_of step.client) ≡ true) }
    ensures saved { saved_in_draft draft.new ≡ saved_in_draft draft.old }
    ensures columns { draft_columns draft.new ≡ draft_columns draft.old }
{
    let system = system_columns(development);
    let variables = first_variables(alloc, clients, client, body, numbers)?;
    let given = copied(alloc, numbers)?;
    draft.write_all(&invocation_writes(system, client, operation, numbers))?;
    Ok(entered(alloc, operation, given, body.entry, variables))
}

/// A client in no call begins a call of an operation with these numbers, in the state that is saved. What is stored is written
/// to the draft, and nothing is saved.
pub fn begin(
    alloc: Global,
    development: &Development,
    draft: &mut Draft,
    clients: &[Client],
    client: u32,
    operation: OpId,
    numbers: &[i64],
) -> Result<Step, StepFault>
    requires { draft_columns draft.old ≡ column_count (first_system (development_view development.now)) }
    ensures begun { IsBegun (development_view development.now) (world_in draft.old clients.now) client operation.0 numbers.now (written_in_draft draft.new) result }
    ensures placed { IfOk result (λ step. is_placed (development_view development.now).object (client_of step.client) ≡ true) }
    ensures saved { saved_in_draft draft.new ≡ saved_in_draft draft.old }
    ensures columns { draft_columns draft.new ≡ draft_columns draft.old }
{
    draft.roll_back();
    match client_at(clients, client) {
        None => return Err(StepFault::NoClient),
        Some(Client::In(_)) => return Err(StepFault::Busy),
        Some(Client::Idle) => {}
    }
    let Some(body) = body_of(development, operation) else {
        return Err(StepFault::NoOp);
    };
    if numbers.len() != body.arguments.len() {
        return Err(StepFault::Arity);
    }
    let count = count_of(clients.len())?;
    enter(
        alloc,
        development,
        draft,
        count,
        client,
        operation,
        body,
        numbers,
    )
}

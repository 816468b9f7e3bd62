//! Tests of the machine of an object.
use lc_base::{ColId, OpId, PointId};
use lc_machine::{Bare, Moved, StepFault, laws};
use lc_object::{EdgeKind, Object};
use lc_object_text::{object_of, objects_are_read_or_refused, objects_read_are_sound};
use lc_sexp::read;
use lc_term::EvalFault;
use std::alloc::Global;
use std::test::Fail;

/// `inc` loads a cell and swaps it for one more, until it was the same in between; `get` loads it.
const COUNTER: &str = "(spec counter (abstract (v)) (op inc () 1) (op get () 1))
    (object counter (array cell (c 0 0)) (aux) (invariant) (idle)
      (body inc (x)
        (point p0 (load cell 0 (x) p1) (assert))
        (point p1 (cas cell 0 (x) ((+ x 1)) p2 p0) (assert))
        (point p2 (return x) (assert)))
      (body get (y)
        (point q0 (load cell 0 (y) q1) (assert))
        (point q1 (return y) (assert))))";

/// A counter at the greatest number.
const FULL_COUNTER: &str = "(spec counter (abstract) (op inc () 1))
    (object counter (array cell (c 0 9223372036854775807)) (aux) (invariant) (idle)
      (body inc (x)
        (point p0 (load cell 0 (x) p1) (assert))
        (point p1 (cas cell 0 (x) ((+ x 1)) p2 p0) (assert))
        (point p2 (return x) (assert))))";

/// A compare-and-swap that does not find its row.
const SWAP: &str = "(spec pair (abstract) (op swap () 0))
    (object pair (array pair (a 0 0) (b 9223372036854775807 5)) (aux) (invariant) (idle)
      (body swap ()
        (point k (cas pair 0 (0 0) (1 1) d d) (assert))
        (point d (return) (assert))))";

/// A compare-and-swap whose second cell leaves 64 bits, and then a load of the same row.
const FAR_SWAP: &str = "(spec pair (abstract) (op swap () 0))
    (object pair (array pair (a 0 0) (b 9223372036854775807 5)) (aux) (invariant) (idle)
      (body swap (x y)
        (point k (cas pair 2 (7 0) (1 1) l l) (assert))
        (point l (load pair 2 (x y) d) (assert))
        (point d (return) (assert))))";

/// Two locals, exchanged and stored.
const EXCHANGE: &str = "(spec pair (abstract) (op swap () 0))
    (object pair (array pair (a 0 0) (b 0 5)) (aux) (invariant) (idle)
      (body swap (x y)
        (point first (set ((x 3) (y 4)) turn) (assert))
        (point turn (set ((x y) (y x)) put) (assert))
        (point put (store pair self (x y) test) (assert))
        (point test (if (<= x y) first d) (assert))
        (point d (return) (assert))))";

/// A ticket and a sum; a client takes both and adds to each; the second client's sum leaves 64 bits.
const TICKETS: &str = "(spec tickets (abstract) (op take () 1))
    (object tickets (array row (t 0 5) (s 0 9223372036854775806)) (aux) (invariant) (idle)
      (body take (x y)
        (point k (faa row x (x y) ((+ x 2) 1) d) (assert))
        (point d (return x) (assert))))";

fn object(alloc: Global, text: &str) -> Result<Object, Fail> {
    let forms = read(alloc, text.as_bytes())?;
    let object = object_of(alloc, &forms)?;
    Ok(object)
}

/// Whether the client calls operation 0.
fn calls(bare: &mut Bare<'_>, client: u32) -> bool {
    bare.invoke(client, OpId(0), &[]) == Ok(())
}

/// Whether the client goes on to this point, by this edge.
fn goes(bare: &mut Bare<'_>, client: u32, point: u32, edge: EdgeKind) -> bool {
    matches!(bare.advance(client), Ok(Moved::Went { point: reached, edge: by }) if reached == PointId(point) && by == edge)
}

/// Whether the call of the client returns this number.
fn returns(bare: &mut Bare<'_>, client: u32, number: i64) -> bool {
    match bare.advance(client) {
        Ok(Moved::Returned(reply)) => reply.as_slice() == [number].as_slice(),
        _ => false,
    }
}

fn overflows(bare: &mut Bare<'_>, client: u32) -> bool {
    matches!(bare.advance(client), Err(StepFault::Overflow))
}

/// A cell of one of the machine's columns.
fn cell(bare: &Bare<'_>, column: u32, index: i64) -> Option<Result<i64, EvalFault>> {
    if (column as usize) < bare.column_count() {
        Some(bare.cell(ColId(column), index))
    } else {
        None
    }
}

fn has(bare: &Bare<'_>, column: u32, index: i64, number: i64) -> bool {
    cell(bare, column, index) == Some(Ok(number))
}

/// Both clients load before one of them swaps, so the other has to begin again.
fn one_of_two_swaps(bare: &mut Bare<'_>) -> bool {
    let first_loads = calls(bare, 0) & goes(bare, 0, 1, EdgeKind::Next);
    let second_loads = calls(bare, 1) & goes(bare, 1, 1, EdgeKind::Next);
    let second_swaps = goes(bare, 1, 2, EdgeKind::Then);
    let first_begins_again = goes(bare, 0, 0, EdgeKind::Else);
    first_loads & second_loads & second_swaps & first_begins_again
}

fn two_clients_count(bare: &mut Bare<'_>) -> bool {
    let swapped = one_of_two_swaps(bare) & returns(bare, 1, 0);
    let is_idle = matches!(bare.advance(1), Err(StepFault::Idle));
    let is_missing = bare.invoke(2, OpId(0), &[]) == Err(StepFault::NoClient);
    swapped & is_idle & is_missing & has(bare, 1, 0, 1)
}

/// A call that is wrong in several ways has the first fault, and a client in a call is busy before all else.
fn calls_are_refused_in_order(bare: &mut Bare<'_>) -> bool {
    let no_client = bare.invoke(1, OpId(9), &[5]) == Err(StepFault::NoClient);
    let no_operation = bare.invoke(0, OpId(9), &[5]) == Err(StepFault::NoOp);
    let wrong_numbers = bare.invoke(0, OpId(0), &[5]) == Err(StepFault::Arity);
    let is_busy = calls(bare, 0) & (bare.invoke(0, OpId(9), &[5]) == Err(StepFault::Busy));
    no_client & no_operation & wrong_numbers & is_busy
}

fn faults_come_in_their_order(bare: &mut Bare<'_>) -> bool {
    let refused = calls_are_refused_in_order(bare) & goes(bare, 0, 1, EdgeKind::Next);
    // The new row is one more than the greatest number, again and again.
    let too_large = overflows(bare, 0) & overflows(bare, 0);
    refused & too_large & has(bare, 0, 0, i64::MAX)
}

fn a_compare_and_swap_compares_the_whole_row(bare: &mut Bare<'_>) -> bool {
    let differs = calls(bare, 0) & goes(bare, 0, 1, EdgeKind::Else);
    let stays = has(bare, 0, 0, 0) & has(bare, 1, 0, 5);
    let is_too_far = cell(bare, 1, 2) == Some(Err(EvalFault::Overflow));
    differs & stays & is_too_far
}

fn a_comparison_stops_at_the_first_difference(bare: &mut Bare<'_>) -> bool {
    // The cell beyond the difference leaves 64 bits, and is not reached; a load reaches it.
    calls(bare, 0) & goes(bare, 0, 1, EdgeKind::Else) & overflows(bare, 0)
}

fn locals_are_set_at_once(bare: &mut Bare<'_>) -> bool {
    let set = calls(bare, 1) & goes(bare, 1, 1, EdgeKind::Next);
    let turned = goes(bare, 1, 2, EdgeKind::Next) & goes(bare, 1, 3, EdgeKind::Next);
    let tested = goes(bare, 1, 4, EdgeKind::Else);
    let returned = matches!(bare.advance(1), Ok(Moved::Returned(_)));
    let stored = has(bare, 0, 1, 4) & has(bare, 1, 1, 3) & has(bare, 0, 0, 0);
    set & turned & tested & returned & stored
}

fn a_row_is_read_and_added_to_at_once(bare: &mut Bare<'_>) -> bool {
    let first = calls(bare, 0) & goes(bare, 0, 1, EdgeKind::Next);
    let added = has(bare, 0, 0, 7) & has(bare, 1, 0, i64::MAX);
    // The sum of the second column is too large, so nothing is stored, again and again.
    let too_large = calls(bare, 1) & overflows(bare, 1) & overflows(bare, 1);
    let stays = has(bare, 0, 0, 7) & has(bare, 1, 0, i64::MAX);
    first & added & too_large & stays & returns(bare, 0, 5)
}

#[derive(Clone, Copy)]
enum Scene {
    Counting,
    FullCounter,
    Swap,
    FarSwap,
    Exchange,
    Tickets,
}

/// Whether a scene is as it should be, with `clients` clients on the object of a text.
fn is_played(alloc: Global, scene: Scene, text: &str, clients: u32) -> Result<bool, Fail> {
    let object = object(alloc, text)?;
    let mut bare = Bare::new(alloc, &object, clients)?;
    Ok(match scene {
        Scene::Counting => two_clients_count(&mut bare),
        Scene::FullCounter => faults_come_in_their_order(&mut bare),
        Scene::Swap => a_compare_and_swap_compares_the_whole_row(&mut bare),
        Scene::FarSwap => a_comparison_stops_at_the_first_difference(&mut bare),
        Scene::Exchange => locals_are_set_at_once(&mut bare),
        Scene::Tickets => a_row_is_read_and_added_to_at_once(&mut bare),
    })
}

#[test]
fn clients_take_their_steps(rt: HostRuntime) -> Result<(), Fail> {
    for (scene, text, clients) in [
        (Scene::Counting, COUNTER, 2),
        (Scene::FullCounter, FULL_COUNTER, 1),
        (Scene::Swap, SWAP, 1),
        (Scene::FarSwap, FAR_SWAP, 1),
        (Scene::Exchange, EXCHANGE, 2),
        (Scene::Tickets, TICKETS, 2),
    ] {
        assert!(rt; is_played(rt.alloc(), scene, text, clients)?, "{text}");
    }
    Ok(())
}

#[test]
fn laws_have_no_effect() {
    laws::edges_give_the_steps();
    objects_are_read_or_refused();
    objects_read_are_sound();
}

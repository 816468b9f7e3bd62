//! Tests of native objects by themselves.
use lc_base::{OpId, OutOfMemory};
use lc_history::{Done, Event, History, JudgeFault, Reason, judge};
use lc_native::{
    NatCounter, NatLock, NatPoolStack, NatQueue, NatSnapshot, NatStack, PoolChoice, QueueCall,
    QueueReply,
};
use lc_seq::{SeqFault, SeqObject};
use std::alloc::Global;
use std::test::Fail;

/// A client's call by its code and numbers, with a choice for it, and what should be replied, if it is a step.
#[derive(Clone, Copy)]
struct Asked<'a, H> {
    client: u32,
    code: u32,
    given: &'a [i64],
    choice: H,
    wanted: Option<&'a [i64]>,
}

fn asking<'a>(
    client: u32,
    code: u32,
    given: &'a [i64],
    wanted: Option<&'a [i64]>,
) -> Asked<'a, ()> {
    Asked {
        client,
        code,
        given,
        choice: (),
        wanted,
    }
}

/// Whether the call is there, and is answered so.
fn answers<S: SeqObject>(
    alloc: Global,
    object: &S,
    state: &mut S::State,
    asked: &Asked<'_, S::Choice>,
) -> Result<bool, SeqFault>
    requires { S.HasState object.now state.old }
    ensures { S.HasState object.now state.new }
{
    let Some(call) = object.call_of(alloc, asked.code, asked.given)? else {
        return Ok(false);
    };
    match object.apply(alloc, state, asked.client, &call, &asked.choice)? {
        Some(reply) => {
            let numbers = object.numbers_of(alloc, &reply)?;
            Ok(asked.wanted == Some(numbers.as_slice()))
        }
        None => Ok(asked.wanted.is_none()),
    }
}

/// Whether calls from the start on are answered so.
fn answers_each<S: SeqObject>(
    alloc: Global,
    object: &S,
    calls: &[Asked<'_, S::Choice>],
) -> Result<bool, SeqFault> {
    let mut state = object.initial(alloc)?;
    for asked in calls {
        if !answers(alloc, object, &mut state, asked)? {
            return Ok(false);
        }
    }
    Ok(true)
}

#[test]
fn a_counter_counts(rt: HostRuntime) -> Result<(), Fail> {
    let calls = [
        asking(0, 0, &[], Some(&[0])),
        asking(1, 0, &[], Some(&[1])),
        asking(0, 1, &[], Some(&[2])),
    ];
    assert!(rt; answers_each(rt.alloc(), &NatCounter, &calls)?);
    Ok(())
}

#[test]
fn a_stack_gives_the_last(rt: HostRuntime) -> Result<(), Fail> {
    let calls = [
        asking(0, 0, &[4], Some(&[])),
        asking(1, 0, &[5], Some(&[])),
        asking(0, 1, &[], Some(&[1, 5])),
        asking(0, 1, &[], Some(&[1, 4])),
        asking(0, 1, &[], Some(&[0, 0])),
    ];
    assert!(rt; answers_each(rt.alloc(), &NatStack, &calls)?);
    Ok(())
}

#[test]
fn a_lock_has_one_holder(rt: HostRuntime) -> Result<(), Fail> {
    let calls = [
        asking(0, 0, &[], Some(&[])),
        asking(1, 0, &[], None),
        asking(1, 1, &[], Some(&[0])),
        asking(0, 1, &[], Some(&[1])),
    ];
    assert!(rt; answers_each(rt.alloc(), &NatLock, &calls)?);
    Ok(())
}

#[test]
fn a_snapshot_reads_both(rt: HostRuntime) -> Result<(), Fail> {
    let calls = [
        asking(0, 0, &[4], Some(&[])),
        asking(1, 1, &[5], Some(&[])),
        asking(0, 2, &[], Some(&[4, 5])),
    ];
    assert!(rt; answers_each(rt.alloc(), &NatSnapshot, &calls)?);
    Ok(())
}

/// A push of a number by a choice.
fn pushed<'a>(
    given: &'a [i64],
    choice: PoolChoice,
    wanted: Option<&'a [i64]>,
) -> Asked<'a, PoolChoice> {
    Asked {
        client: 0,
        code: 0,
        given,
        choice,
        wanted,
    }
}

#[test]
fn a_full_stack_keeps_what_it_has(rt: HostRuntime) -> Result<(), Fail> {
    let popped = Asked {
        client: 0,
        code: 1,
        given: &[],
        choice: PoolChoice::Full,
        wanted: Some(&[1, 5]),
    };
    let calls = [
        pushed(&[5], PoolChoice::Put, Some(&[1])),
        pushed(&[6], PoolChoice::Full, Some(&[0])),
        popped,
    ];
    assert!(rt; answers_each(rt.alloc(), &NatPoolStack, &calls)?);
    Ok(())
}

/// Whether objects have no calls but those of their codes and counts of numbers.
fn have_no_others(alloc: Global) -> Result<bool, OutOfMemory> {
    let stack = NatStack.call_of(alloc, 2, &[])?.is_none()
        & NatStack.call_of(alloc, 0, &[])?.is_none();
    let queue = NatQueue.call_of(alloc, 1, &[1])?.is_none();
    Ok(stack & queue & NatSnapshot.call_of(alloc, 2, &[1])?.is_none())
}

#[test]
fn no_call_has_another_count_of_numbers(rt: HostRuntime) -> Result<(), Fail> {
    assert!(rt; have_no_others(rt.alloc())?);
    Ok(())
}

/// A client calls `enq 4` and then `deq`, which returns these numbers.
fn in_and_out(alloc: Global, left: &[i64]) -> Result<History, Fail> {
    let enq = Event::Invoke {
        client: 0,
        op: OpId(0),
        numbers: Vec::from_array(alloc, [4])?,
    };
    let entered = Event::Respond {
        client: 0,
        numbers: Vec::new(alloc),
    };
    let deq = Event::Invoke {
        client: 0,
        op: OpId(1),
        numbers: Vec::new(alloc),
    };
    let left = Event::Respond {
        client: 0,
        numbers: Vec::from_slice(alloc, left)?,
    };
    let events = Vec::from_array(alloc, [enq, entered, deq, left])?;
    Ok(History::new(alloc, events)?)
}

/// The two calls in that order, with a reply to the second.
fn in_turn(reply: QueueReply) -> [Done<QueueCall, (), QueueReply>; 2] {
    let enq = Done {
        client: 0,
        call: QueueCall::Enq(4),
        choice: (),
        reply: QueueReply::Entered,
    };
    let deq = Done {
        client: 0,
        call: QueueCall::Deq,
        choice: (),
        reply,
    };
    [enq, deq]
}

#[test]
fn a_history_is_judged_by_a_queue(rt: HostRuntime) -> Result<(), Fail> {
    let alloc = rt.alloc();
    let history = in_and_out(alloc, &[1, 4])?;
    assert!(rt; judge(alloc, &NatQueue, &history, &in_turn(QueueReply::Left(4))) == Ok(()));
    let history = in_and_out(alloc, &[0, 0])?;
    let fault = JudgeFault::Order {
        place: 1,
        reason: Reason::NoStep,
    };
    assert!(rt; judge(alloc, &NatQueue, &history, &in_turn(QueueReply::Empty)) == Err(fault));
    Ok(())
}

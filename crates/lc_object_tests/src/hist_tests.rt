//! The reasons for which an order is refused are cases of the program `lc_cases`.
use lc_base::{OpId, OutOfMemory};
use lc_history::{CLIENT_LIMIT, Done, Event, History, HistoryFault, JudgeFault, Reason, judge};
use lc_seq::{SeqFault, SeqObject};
use std::alloc::Global;
use std::test::Fail;

// A counter: an example of a sequential object.
#[derive(Clone, Copy, Debug)]
struct Counter {
    start: i64,
}

#[derive(Clone, Copy, Debug, PartialEq, Eq)]
enum CounterCall {
    Increment,
    Get,
}

impl SeqObject for Counter {
    ghost use Rattle.std.specs.Prelude.{ℤ, [], ◌∷◌, refl};
    ghost use Rattle.std.proofs.Common.{sym};
    ghost use Rattle.lc_seq.specs.Sequential.{InOrder};
    ghost use Rattle.lc_object_tests.specs.Counter.{increment, get, counter_step, CounterFits, IsCounterCall, counter_steps_by_calls, replies_are_equal, calls_differ};
    ghost use Rattle.lc_object_tests.specs.declared.hist_tests.CounterCall.TheVariants.{Increment, Get};

    type State = i64;

    type Call = CounterCall;

    // A call has one branch.
    type Choice = ();

    type Reply = i64;

    ghost Meaning = { ℤ };

    ghost meaning = { λ number. number };

    ghost HasState = { λ _ _. Unit {0} };

    ghost call_meant = { elim [ Increment ↦ increment | Get ↦ get ] };

    ghost choice_meant = { λ _. InOrder };

    ghost numbers = { λ number. number ∷ [] };

    ghost HasCall = { λ _ call. IsCounterCall call };

    ghost start = { λ counter. counter.start };

    ghost step = { λ _ number client call choice. counter_step number call };

    ghost Fits = { λ _ number client call choice. CounterFits number call };

    ghost equal_calls = { elim [
      | Increment ↦ elim [ Increment ↦ (λ _. refl, λ _. refl) | Get ↦ (λ e. absurd (Prim.cc e), λ e. absurd (calls_differ e)) ]
      | Get ↦ elim [ Increment ↦ (λ e. absurd (Prim.cc e), λ e. absurd (calls_differ (sym e))) | Get ↦ (λ _. refl, λ _. refl) ]
    ] };

    ghost equal_replies = { λ a b. replies_are_equal a b };

    ghost steps_by_calls = { λ _ number client call choice next reply. counter_steps_by_calls number call next reply };

    fn initial(&self, _alloc: Global) -> Result<i64, OutOfMemory> {
        Ok(self.start)
    }

    fn apply(
        &self,
        _alloc: Global,
        state: &mut i64,
        _client: u32,
        call: &CounterCall,
        _choice: &(),
    ) -> Result<Option<i64>, SeqFault> {
        let before = *state;
        match call {
            CounterCall::Increment => match before.checked_add(1) {
                Some(after) => {
                    *state = after;
                    Ok(Some(before))
                }
                None => Err(SeqFault::Overflow),
            },
            CounterCall::Get => Ok(Some(before)),
        }
    }

    fn call_of(
        &self,
        _alloc: Global,
        code: u32,
        given: &[i64],
    ) -> Result<Option<CounterCall>, OutOfMemory> {
        if !given.is_empty() {
            return Ok(None);
        }
        match code {
            0 => Ok(Some(CounterCall::Increment)),
            1 => Ok(Some(CounterCall::Get)),
            _ => Ok(None),
        }
    }

    fn is_call(&self, call: &CounterCall, code: u32, given: &[i64]) -> bool {
        let its = match call {
            CounterCall::Increment => 0,
            CounterCall::Get => 1,
        };
        its == code && given.is_empty()
    }

    fn numbers_of(&self, alloc: Global, reply: &i64) -> Result<Vec<i64>, OutOfMemory> {
        let mut numbers = Vec::new(alloc);
        numbers.push(*reply)?;
        Ok(numbers)
    }
}

fn called(alloc: Global, client: u32, op: u32) -> Event {
    Event::Invoke {
        client,
        op: OpId(op),
        numbers: Vec::new(alloc),
    }
}

fn replied(alloc: Global, client: u32, number: i64) -> Result<Event, OutOfMemory> {
    let numbers = Vec::from_array(alloc, [number])?;
    Ok(Event::Respond { client, numbers })
}

fn incremented(client: u32, reply: i64) -> Done<CounterCall, (), i64> {
    Done {
        client,
        call: CounterCall::Increment,
        choice: (),
        reply,
    }
}

fn got(client: u32, reply: i64) -> Done<CounterCall, (), i64> {
    Done {
        client,
        call: CounterCall::Get,
        choice: (),
        reply,
    }
}

/// The history in which client 0 increments and does not return.
fn pending(alloc: Global) -> Result<History, Fail> {
    Ok(History::new(alloc, Vec::from_array(alloc, [called(alloc, 0, 0)])?)?)
}

/// Whether a counter at the greatest number overflows, whatever the reply is said to be.
fn overflows(alloc: Global, history: &History) -> bool {
    let full = Counter { start: i64::MAX };
    let same = judge(alloc, &full, history, &[incremented(0, i64::MAX)]);
    let other = judge(alloc, &full, history, &[incremented(0, 5)]);
    (same == Err(JudgeFault::Overflow)) & (other == Err(JudgeFault::Overflow))
}

/// Whether an entry of another call is refused.
fn is_refused(alloc: Global, history: &History) -> bool {
    let fault = JudgeFault::Order {
        place: 0,
        reason: Reason::OtherCall,
    };
    judge(alloc, &Counter { start: 0 }, history, &[got(0, 0)]) == Err(fault)
}

#[test]
fn an_overflow_is_told_before_the_reply_is_compared(rt: HostRuntime) -> Result<(), Fail> {
    let history = pending(rt.alloc())?;
    assert!(rt; overflows(rt.alloc(), &history) & is_refused(rt.alloc(), &history));
    Ok(())
}

/// Whether the event at this place is the first out of turn.
fn is_out_of_turn(alloc: Global, events: [Event; 2], place: u64) -> Result<bool, OutOfMemory> {
    let events = Vec::from_array(alloc, events)?;
    Ok(History::new(alloc, events).err() == Some(HistoryFault::OutOfTurn(place)))
}

#[test]
fn events_out_of_turn_are_no_history(rt: HostRuntime) -> Result<(), Fail> {
    let alloc = rt.alloc();
    let twice = [called(alloc, 0, 0), called(alloc, 0, 0)];
    let far = [
        called(alloc, CLIENT_LIMIT, 0),
        called(alloc, CLIENT_LIMIT + 1, 0),
    ];
    assert!(rt; is_out_of_turn(alloc, twice, 1)? & is_out_of_turn(alloc, far, 1)?);
    Ok(())
}

/// Clients in turn increment: each calls before the one before it returns.
fn long_history(alloc: Global) -> Result<Vec<Event>, OutOfMemory> {
    let mut events = Vec::new(alloc);
    for call in 0..100_000_u32 {
        events.push(called(alloc, call % 64, 0))?;
        if call >= 32 {
            let earlier = call - 32;
            events.push(replied(alloc, earlier % 64, i64::from(earlier))?)?;
        }
    }
    Ok(events)
}

/// The calls of the long history in the order in which they are made.
fn long_order(alloc: Global) -> Result<Vec<Done<CounterCall, (), i64>>, OutOfMemory> {
    let mut order = Vec::new(alloc);
    for call in 0..100_000_u32 {
        order.push(incremented(call % 64, i64::from(call)))?;
    }
    Ok(order)
}

#[test]
fn a_long_history_is_judged(rt: HostRuntime) -> Result<(), Fail> {
    let history = History::new(rt.alloc(), long_history(rt.alloc())?)?;
    let order = long_order(rt.alloc())?;
    assert!(rt; judge(rt.alloc(), &Counter { start: 0 }, &history, &order) == Ok(()));
    Ok(())
}

//! The order of a run: its marks in time, and of a call that returned by its note only its last note.
ghost use Rattle.std.specs.Prelude.{◌≡◌, ℕ, ◌==◌, ◌<◌, ◌^◌, [], ◌∷◌, ◌++◌, cond, length, map, replicate, true, false, None, OnOk, IfOk};
ghost use Rattle.std.specs.List.{list_all};
ghost use Rattle.lc_seq.specs.SpecView.{text_call_of};
ghost use Rattle.lc_ride.specs.RideView.{mark_of, marks_of};
ghost use Rattle.lc_sound.specs.Happening.{Happens, client_of, is_reply, counted};
ghost use Rattle.lc_sound.specs.Instrumented.{event_of};
ghost use Rattle.lc_sound.specs.Order.{called_last, marked, happenings, order, no_call};
ghost use Rattle.lc_steps.specs.StepView.{what_of};
ghost use Rattle.lc_run.specs.LabelView.{labels_of};
ghost use Rattle.lc_run.specs.Ordering.{entry_of, order_entries, call_in, calls_in, happening_of, happenings_of, has_client, returns_in, is_within, counted_first, is_small};

use crate::label::{Label, copied, copied_pick};
use lc_base::{OpId, OutOfMemory};
use lc_history::Done;
use lc_ride::Mark;
use lc_seq::{Pick, TextCall};
use lc_steps::What;
use std::alloc::Global;

/// A call, as it was begun.
#[derive(Clone, Copy)]
pub struct Begun<'a> {
    pub operation: OpId,
    pub numbers: &'a [i64],
}

/// What happens in a run.
#[derive(Clone, Copy)]
enum Happening<'a> {
    /// A client begins a call.
    Called {
        client: u32,
        call: Begun<'a>,
    },
    /// Its call returns.
    Replied {
        client: u32,
        numbers: &'a [i64],
    },
    /// A mark is made, for the call that its client began last, if it began one.
    Marked {
        mark: &'a Mark,
        call: Option<Begun<'a>>,
    },
}

/// No calls, for `clients` clients.
pub fn no_calls<'a>(alloc: Global, clients: u32) -> Result<Vec<Option<Begun<'a>>>, OutOfMemory>
    ensures { IfOk result (λ calls. calls.items ≡ replicate clients None) }
{
    let mut calls = Vec::with_capacity(alloc, clients as usize)?;
    for _ in 0..clients {
        calls.push(None)?;
    }
    Ok(calls)
}

/// The call that a client began last, if it began one.
pub fn last_call<'a>(calls: &[Option<Begun<'a>>], client: u64) -> Option<Begun<'a>>
    ensures { call_in result ≡ calls_in calls.now client }
{
    match calls.get(client as usize) {
        None => None,
        Some(call) => *call,
    }
}

// Appends marks, for the calls that their clients began last, to what happened before.
fn push_marks<'a>(
    marks: &'a [Mark],
    calls: &[Option<Begun<'a>>],
    happenings: &mut Vec<Happening<'a>>,
) -> Result<(), OutOfMemory>
    ensures { OnOk result (happenings_of happenings.new.items ≡ happenings_of happenings.old.items ++ map (marked (calls_in calls.now)) (marks_of marks.now)) }
{
    for mark in marks {
        let call = last_call(calls, mark.client);
        happenings.push(Happening::Marked { mark, call })?;
    }
    Ok(())
}

// Appends the call or the return of a label, if it is one, to what happened before; and notes which calls clients began last then.
fn push_event<'a>(
    label: &'a Label,
    calls: &mut [Option<Begun<'a>>],
    happenings: &mut Vec<Happening<'a>>,
) -> Result<(), OutOfMemory>
    requires { label.now.client < length calls.old }
    ensures happenings { OnOk result (happenings_of happenings.new.items ≡ happenings_of happenings.old.items ++ map Happens (event_of label.now.client (what_of label.now.what))) }
    ensures calls { OnOk result (calls_in calls.new ≡ called_last (calls_in calls.old) label.now.client (what_of label.now.what)) }
{
    let client = label.client;
    match &label.what {
        What::Invoked { operation, numbers } => {
            let call = Begun {
                operation: *operation,
                numbers,
            };
            calls[client as usize] = Some(call);
            happenings.push(Happening::Called { client, call })?;
        }
        What::Moved { .. } => {}
        What::Returned(numbers) => {
            happenings.push(Happening::Replied { client, numbers })?;
        }
    }
    Ok(())
}

// What happens in a run of `clients` clients, in time.
fn happenings(
    alloc: Global,
    labels: &[Label],
    clients: u32,
) -> Result<Vec<Happening<'_>>, OutOfMemory>
    requires { list_all (has_client clients) (labels_of labels.now) ≡ true }
    ensures { IfOk result (λ found. happenings_of found.items ≡ happenings (λ _. no_call) (labels_of labels.now)) }
{
    let mut calls = no_calls(alloc, clients)?;
    let mut happenings = Vec::new(alloc);
    for label in labels {
        push_marks(&label.marks, &calls, &mut happenings)?;
        push_event(label, &mut calls, &mut happenings)?;
    }
    Ok(happenings)
}

// No returns, for `clients` clients.
fn no_returns(alloc: Global, clients: u32) -> Result<Vec<bool>, OutOfMemory>
    ensures { IfOk result (λ returns. returns.items ≡ replicate clients false) }
{
    let mut returns = Vec::with_capacity(alloc, clients as usize)?;
    for _ in 0..clients {
        returns.push(false)?;
    }
    Ok(returns)
}

// Whether a client has a return next.
fn returns_next(returns: &[bool], client: u64) -> bool
    ensures { result ≡ returns_in returns.now client }
{
    match returns.get(client as usize) {
        None => false,
        Some(next) => *next,
    }
}

// A call, in memory of its own.
fn made_call(alloc: Global, call: &Option<Begun<'_>>) -> Result<TextCall, OutOfMemory>
    ensures { IfOk result (λ made. text_call_of made ≡ call_in call.now) }
{
    match call {
        None => Ok(TextCall {
            op: OpId(0),
            numbers: Vec::new(alloc),
        }),
        Some(call) => Ok(TextCall {
            op: call.operation,
            numbers: copied(alloc, call.numbers)?,
        }),
    }
}

// Appends the entry of a mark.
fn push_entry(
    alloc: Global,
    mark: &Mark,
    call: &Option<Begun<'_>>,
    entries: &mut Vec<Done<TextCall, Pick, Vec<i64>>>,
) -> Result<(), OutOfMemory>
    requires { mark.now.client < 2 ^ 32 }
    ensures { OnOk result (order_entries entries.new.items ≡ order_entries entries.old.items ++ entry_of (call_in call.now) (mark_of mark.now) ∷ []) }
{
    let Ok(client) = u32::try_from(mark.client) else {
        unreachable!()
    };
    let call = made_call(alloc, call)?;
    let choice = copied_pick(alloc, &mark.choice)?;
    let reply = copied(alloc, &mark.reply)?;
    entries.push(Done {
        client,
        call,
        choice,
        reply,
    })?;
    Ok(())
}

// Appends the entry of a mark that counts if these clients have a return next.
fn push_counted(
    alloc: Global,
    happening: &Happening<'_>,
    returns: &[bool],
    entries: &mut Vec<Done<TextCall, Pick, Vec<i64>>>,
) -> Result<(), OutOfMemory>
    requires { list_all is_small (counted_first (returns_in returns.now) (happening_of happening.now)) ≡ true }
    ensures { OnOk result (order_entries entries.new.items ≡ order_entries entries.old.items ++ counted_first (returns_in returns.now) (happening_of happening.now)) }
{
    match happening {
        Happening::Called { .. } | Happening::Replied { .. } => Ok(()),
        Happening::Marked { mark, call } => {
            if mark.note && !returns_next(returns, mark.client) {
                return Ok(());
            }
            push_entry(alloc, mark, call, entries)
        }
    }
}

// This client has a return next, or another thing.
fn set_next(returns: &mut [bool], client: u64, next: bool)
    requires { next ≡ true → client < length returns.old }
    ensures { (c : ℕ) → returns_in returns.new c ≡ cond (client == c) next (returns_in returns.old c) }
{
    let place = client as usize;
    if place >= returns.len() {
        return;
    }
    returns[place] = next;
}

// Which clients have a return next, if this happens first.
fn see(returns: &mut [bool], happening: &Happening<'_>)
    requires { is_within (length returns.old) (happening_of happening.now) ≡ true }
    ensures { let h = happening_of happening.now in
        (c : ℕ) → returns_in returns.new c ≡ cond (client_of h == c) (is_reply h) (returns_in returns.old c) }
{
    match happening {
        Happening::Called { client, .. } => set_next(returns, u64::from(*client), false),
        Happening::Replied { client, .. } => set_next(returns, u64::from(*client), true),
        Happening::Marked { mark, .. } => set_next(returns, mark.client, false),
    }
}

// The entries of the marks that count.
fn entries(
    alloc: Global,
    happenings: &[Happening<'_>],
    clients: u32,
) -> Result<Vec<Done<TextCall, Pick, Vec<i64>>>, OutOfMemory>
    requires within { list_all (is_within clients) (happenings_of happenings.now) ≡ true }
    requires small { list_all is_small (counted (happenings_of happenings.now)) ≡ true }
    ensures { IfOk result (λ entries. order_entries entries.items ≡ counted (happenings_of happenings.now)) }
{
    let mut returns = no_returns(alloc, clients)?;
    let mut entries = Vec::new(alloc);
    for place in (0..happenings.len()).rev() {
        let happening = &happenings[place];
        push_counted(alloc, happening, &returns, &mut entries)?;
        see(&mut returns, happening);
    }
    entries.reverse();
    Ok(entries)
}

/// The order of a run of `clients` clients.
pub(crate) fn order_of(
    alloc: Global,
    labels: &[Label],
    clients: u32,
) -> Result<Vec<Done<TextCall, Pick, Vec<i64>>>, OutOfMemory>
    requires clients { list_all (has_client clients) (labels_of labels.now) ≡ true }
    requires small { list_all is_small (order (labels_of labels.now)) ≡ true }
    ensures { IfOk result (λ entries. order_entries entries.items ≡ order (labels_of labels.now)) }
{
    let happenings = happenings(alloc, labels, clients)?;
    entries(alloc, &happenings, clients)
}

//! Refusals of specifications, replies and overflows of whole histories are cases of the program `lc_cases`.
ghost use Rattle.std.specs.Prelude.{length};
ghost use Rattle.lc_seq.specs.TextView.{IsStateOf};

use lc_base::{Name, OpId, OutOfMemory};
use lc_seq::{Branch, Label, Operation, Pick, SeqFault, SeqObject, TextCall, TextSpec, TextState};
use lc_spec_text::spec_of;
use lc_term::{Formula, Term};
use std::alloc::Global;
use std::test::Fail;

const COUNTER: &str = "(spec counter (abstract (v 0 5))
  (op add () 1 (branch (and) ((v 0 (+ (rd v 0) 1))) ((rd v 0))))
  (op get () 1 (branch (and) () ((rd v self)))))
  (nonsense)";

/// A counter that starts below the greatest number.
const NEARLY_FULL: &str = "(spec counter (abstract (v 0 9223372036854775806))
  (op add () 1 (branch (and) ((v 0 (+ (rd v 0) 1))) ((rd v 0)))))";

/// By client 2 it adds 10; else it adds 100 if the argument is 5.
const GUARDED: &str = "(spec counter (abstract (v 0 0))
  (op add (x) 1
    (branch (= self 2) ((v 0 (+ (rd v 0) 10))) ((rd v 0)))
    (branch (= x 5) ((v 0 (+ (rd v 0) 100))) ((rd v 0)))))";

/// The first number that is replied to a call with these numbers.
fn reply(
    alloc: Global,
    spec: &TextSpec,
    state: &mut TextState,
    client: u32,
    numbers: &[i64],
) -> Result<Option<i64>, SeqFault>
    requires { IsStateOf (length spec.now.columns.items) state.old }
    ensures { IsStateOf (length spec.now.columns.items) state.new }
{
    let call = TextCall {
        op: OpId(0),
        numbers: Vec::from_slice(alloc, numbers)?,
    };
    match spec.apply(alloc, state, client, &call, &Pick::First)? {
        Some(reply) => Ok(reply.first().copied()),
        None => Ok(None),
    }
}

/// A call with too many numbers is no step.
fn counts(alloc: Global, spec: &TextSpec) -> Result<bool, OutOfMemory> {
    let mut state = spec.initial(alloc)?;
    let first = reply(alloc, spec, &mut state, 0, &[]) == Ok(Some(5));
    let second = reply(alloc, spec, &mut state, 3, &[]) == Ok(Some(6));
    let no_step = reply(alloc, spec, &mut state, 0, &[1]) == Ok(None);
    Ok(first & second & no_step & (reply(alloc, spec, &mut state, 3, &[]) == Ok(Some(7))))
}

fn takes_the_first_enabled(alloc: Global, spec: &TextSpec) -> Result<bool, OutOfMemory> {
    let mut state = spec.initial(alloc)?;
    let second = reply(alloc, spec, &mut state, 0, &[5]) == Ok(Some(0));
    let first = reply(alloc, spec, &mut state, 2, &[5]) == Ok(Some(100));
    let none = reply(alloc, spec, &mut state, 0, &[6]) == Ok(None);
    Ok(first & second & none & (reply(alloc, spec, &mut state, 2, &[6]) == Ok(Some(110))))
}

fn overflows_again(alloc: Global, spec: &TextSpec) -> Result<bool, OutOfMemory> {
    let mut state = spec.initial(alloc)?;
    let fits = reply(alloc, spec, &mut state, 0, &[]) == Ok(Some(i64::MAX - 1));
    let once = reply(alloc, spec, &mut state, 0, &[]) == Err(SeqFault::Overflow);
    Ok(fits & once & (reply(alloc, spec, &mut state, 0, &[]) == Err(SeqFault::Overflow)))
}

#[test]
fn a_counter_counts(rt: HostRuntime) -> Result<(), Fail> {
    let spec = spec_of(rt.alloc(), COUNTER.as_bytes())?;
    assert!(rt; counts(rt.alloc(), &spec)?);
    Ok(())
}

#[test]
fn the_first_branch_that_is_enabled_is_taken(rt: HostRuntime) -> Result<(), Fail> {
    let spec = spec_of(rt.alloc(), GUARDED.as_bytes())?;
    assert!(rt; takes_the_first_enabled(rt.alloc(), &spec)?);
    Ok(())
}

#[test]
fn an_overflow_leaves_the_state(rt: HostRuntime) -> Result<(), Fail> {
    let spec = spec_of(rt.alloc(), NEARLY_FULL.as_bytes())?;
    assert!(rt; overflows_again(rt.alloc(), &spec)?);
    Ok(())
}

/// Whether an operation is called with these numbers.
fn is_called(
    alloc: Global,
    spec: &TextSpec,
    op: u32,
    numbers: &[i64],
) -> Result<bool, OutOfMemory> {
    Ok(spec.call_of(alloc, op, numbers)?.is_some())
}

fn has_its_parts(spec: &TextSpec) -> bool {
    let starts = match spec.columns().first() {
        Some(column) => (column.slope == 0) & (column.start == 5),
        None => false,
    };
    let one_and_two = (spec.columns().len() == 1) & (spec.operations().len() == 2);
    starts & one_and_two & (spec.name().as_str() == "counter")
}

#[test]
fn the_parts_and_calls_of_a_specification(rt: HostRuntime) -> Result<(), Fail> {
    let alloc = rt.alloc();
    let spec = spec_of(alloc, COUNTER.as_bytes())?;
    let last = is_called(alloc, &spec, 1, &[])? & !is_called(alloc, &spec, 2, &[])?;
    let first = is_called(alloc, &spec, 0, &[])? & !is_called(alloc, &spec, 0, &[1])?;
    assert!(rt; has_its_parts(&spec) & first & last);
    Ok(())
}

/// Whether an operation with this guard, on no columns and without an argument, is a specification.
fn is_resolved(alloc: Global, guard: Formula) -> Result<bool, OutOfMemory> {
    let name = Name::new("counter").ok_or(OutOfMemory)?;
    let branch = Branch {
        label: Label::First,
        guard,
        updates: Vec::new(alloc),
        replies: Vec::new(alloc),
    };
    let operation = Operation {
        name,
        arguments: Vec::new(alloc),
        replies: 0,
        branches: Vec::from_array(alloc, [branch])?,
    };
    let operations = Vec::from_array(alloc, [operation])?;
    Ok(TextSpec::new(name, Vec::new(alloc), operations).is_some())
}

fn is_quantified_resolved(alloc: Global) -> Result<bool, OutOfMemory> {
    let always = Formula::And(Vec::new(alloc));
    is_resolved(alloc, Formula::Forall(Box::new(alloc, always)?))
}

#[test]
fn what_is_not_declared_is_not_resolved(rt: HostRuntime) -> Result<(), Fail> {
    let alloc = rt.alloc();
    let always = is_resolved(alloc, Formula::And(Vec::new(alloc)))?;
    let other = is_resolved(alloc, Formula::Eq(Term::Variable(2), Term::Number(2)))?;
    assert!(rt; always & !other & !is_quantified_resolved(alloc)?);
    Ok(())
}

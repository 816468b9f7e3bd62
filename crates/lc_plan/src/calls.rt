//! How the steps of a script are read.
ghost use Rattle.std.specs.Prelude.{◌≡◌};
ghost use Rattle.lc_sexp.specs.Shown.{rest_of, number_of, owner_of};
ghost use Rattle.lc_reading.specs.Parts.{tree_of, place_of};
ghost use Rattle.lc_reading.specs.Readings.{mapped};
ghost use Rattle.lc_reading.specs.Results.{IsReading};
ghost use Rattle.lc_plan.specs.Limits.{usual_turns};
ghost use Rattle.lc_plan.specs.Readings.{head_of, call_reading, once, repeatedly, upto_reading, times_parts_reading, calls_with, calls_reading};
ghost use Rattle.lc_plan.specs.View.{all_in, calls_of, times_parts};

use crate::call::{read_call, read_call_form};
use crate::limits::USUAL_TURNS;
use crate::numbers::read_turns;
use crate::operations::Operations;
use crate::plan::Calls;
use lc_reading::{Part, Pass, ReadFault, Reads, both, ended, headed, next_part, two, wrong};
use lc_seq::TextCall;
use lc_sexp::{Cursor, Item};
use std::alloc::Global;

/// What the first word of a step says.
#[derive(Clone, Copy)]
pub(crate) enum Head {
    Call,
    UpTo,
    Times,
}

/// What this word says.
fn head_of(word: &str) -> Option<Head>
    ensures { result ≡ head_of word.now }
{
    match word {
        "call" => Some(Head::Call),
        "upto" => Some(Head::UpTo),
        "times" => Some(Head::Times),
        _ => None,
    }
}

/// A call that is made once.
fn read_once(
    alloc: Global,
    operations: &Operations<'_>,
    list: Cursor<'_>,
) -> Result<Calls, ReadFault>
    ensures { IsReading calls_of (mapped (once usual_turns) (call_reading (all_in operations.now) (owner_of list.entry) (number_of list.entry) (rest_of list.entry))) result }
{
    match read_call(alloc, operations, list) {
        Ok(call) => Ok(Calls {
            count: 1,
            turns: USUAL_TURNS,
            call,
        }),
        Err(fault) => Err(fault),
    }
}

/// `TURNS OP n*`
fn read_upto(
    alloc: Global,
    operations: &Operations<'_>,
    list: Cursor<'_>,
) -> Result<Calls, ReadFault>
    ensures { IsReading calls_of (upto_reading (all_in operations.now) (owner_of list.entry) (number_of list.entry) (rest_of list.entry)) result }
{
    let mut rest = list;
    let first = next_part(&mut rest)?;
    let turns = read_turns(first);
    match both(turns, read_call(alloc, operations, rest)) {
        Ok((turns, call)) => Ok(Calls {
            count: 1,
            turns,
            call,
        }),
        Err(fault) => Err(fault),
    }
}

/// `K (call OP n*)`
fn read_times_parts(
    alloc: Global,
    operations: &Operations<'_>,
    list: Cursor<'_>,
) -> Result<(u32, TextCall), ReadFault>
    ensures { IsReading times_parts (times_parts_reading (all_in operations.now) (owner_of list.entry) (number_of list.entry) (rest_of list.entry)) result }
{
    let (first, second, rest) = two(list)?;
    let count = read_turns(first);
    let call = read_call_form(alloc, operations, second);
    ended(both(count, call), rest)
}

/// A call that is made several times.
fn read_times(
    alloc: Global,
    operations: &Operations<'_>,
    list: Cursor<'_>,
) -> Result<Calls, ReadFault>
    ensures { IsReading calls_of (mapped repeatedly (times_parts_reading (all_in operations.now) (owner_of list.entry) (number_of list.entry) (rest_of list.entry))) result }
{
    match read_times_parts(alloc, operations, list) {
        Ok((count, call)) => Ok(Calls {
            count,
            turns: USUAL_TURNS,
            call,
        }),
        Err(fault) => Err(fault),
    }
}

/// What a list has after this word.
fn read_headed(
    alloc: Global,
    operations: &Operations<'_>,
    head: Option<Head>,
    list: Cursor<'_>,
) -> Result<Calls, ReadFault>
    ensures { IsReading calls_of (calls_with (all_in operations.now) (owner_of list.entry) (number_of list.entry) (rest_of list.entry) head) result }
{
    match head {
        Some(Head::Call) => read_once(alloc, operations, list),
        Some(Head::UpTo) => read_upto(alloc, operations, list),
        Some(Head::Times) => read_times(alloc, operations, list),
        None => Err(wrong(Pass::Shape, list.owner())),
    }
}

/// `(call OP n*)`, `(upto TURNS OP n*)` or `(times K (call OP n*))`
fn read_calls(
    alloc: Global,
    operations: &Operations<'_>,
    part: Part<'_>,
) -> Result<Calls, ReadFault>
    ensures { IsReading calls_of (calls_reading (all_in operations.now) (place_of part.entry) (tree_of part.entry)) result }
{
    let list = match part.item() {
        Item::Atom(atom) => return Err(wrong(Pass::Shape, atom.number())),
        Item::List(list) => list,
    };
    let (word, parts) = headed(list)?;
    read_headed(alloc, operations, head_of(word), parts)
}

/// Reads the steps of a script.
#[derive(Drop)]
pub(crate) struct Steps<'o, 'a>(pub(crate) &'o Operations<'a>);

impl Reads for Steps<'_, '_> {
    ghost use Rattle.lc_plan.specs.Plans.{Calls};
    ghost use Rattle.lc_plan.specs.Readings.{calls_reading};
    ghost use Rattle.lc_plan.specs.View.{all_in, calls_of};

    type Value = Calls;

    ghost Meaning = { Calls };

    ghost meaning = { calls_of };

    ghost reading = { λ reader. calls_reading (all_in reader.0.now) };

    fn read(&self, alloc: Global, part: Part<'_>) -> Result<Calls, ReadFault> {
        read_calls(alloc, self.0, part)
    }
}

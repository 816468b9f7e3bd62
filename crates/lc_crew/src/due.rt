//! What a client still calls in a phase.
ghost use Rattle.std.specs.Prelude.{◌≡◌, [], ◌∷◌, ◌++◌, IfOk, OnOk, map};
ghost use Rattle.std.specs.Vec.Iter.{into_iter_items};
ghost use Rattle.lc_plan.specs.View.{calls_of, script_of};
ghost use Rattle.lc_crew.specs.Playing.{calls_in};
ghost use Rattle.lc_crew.specs.Turns.{dues_of, left_of, lessened, made_ever};

use lc_base::OutOfMemory;
use lc_plan::{Calls, Script};
use std::alloc::Global;
use std::vec::IntoIter;

/// A call that a client makes once, and so many times more.
#[derive(Clone, Copy, Drop)]
pub(crate) struct Due<'p> {
    pub(crate) calls: &'p Calls,
    pub(crate) more: u32,
}

// Appends these calls, if they are made at all.
fn push_due<'p>(dues: &mut Vec<Due<'p>>, calls: &'p Calls) -> Result<(), OutOfMemory>
    ensures { OnOk result (dues_of dues.new.items ≡ dues_of dues.old.items ++ made_ever (calls_of calls.now ∷ [])) }
{
    let Some(more) = calls.count.checked_sub(1) else {
        return Ok(());
    };
    dues.push(Due { calls, more })?;
    Ok(())
}

// Appends the calls of a script that are made at all.
fn push_dues<'p>(dues: &mut Vec<Due<'p>>, script: &'p Script) -> Result<(), OutOfMemory>
    ensures { OnOk result (dues_of dues.new.items ≡ dues_of dues.old.items ++ made_ever (map calls_of script.now.calls.items)) }
{
    for calls in &script.calls {
        push_due(dues, calls)?;
    }
    Ok(())
}

/// What a client calls in a phase, in order.
pub(crate) fn dues_in<'p>(
    alloc: Global,
    phase: &'p [Script],
    client: u32,
) -> Result<Vec<Due<'p>>, OutOfMemory>
    ensures { IfOk result (λ dues. dues_of dues.items ≡ made_ever (calls_in client (map script_of phase.now))) }
{
    let mut dues = Vec::new(alloc);
    for script in phase {
        if script.client == client {
            push_dues(&mut dues, script)?;
        }
    }
    Ok(dues)
}

/// What is called first of what is left.
pub(crate) fn first_due<'p>(rest: &mut IntoIter<Due<'p>>) -> Option<Due<'p>>
    ensures { left_of result (into_iter_items rest.new) ≡ into_iter_items rest.old }
{
    rest.next()
}

/// What is called next after a call has returned, with what is left behind it.
pub(crate) fn next_due<'p>(due: Due<'p>, rest: &mut IntoIter<Due<'p>>) -> Option<Due<'p>>
    ensures { left_of result (into_iter_items rest.new) ≡ lessened due.entry.more due.entry (into_iter_items rest.old) }
{
    match due.more.checked_sub(1) {
        None => first_due(rest),
        Some(more) => Some(Due { more, ..due }),
    }
}

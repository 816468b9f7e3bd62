//! How the names of actions are read, and which one is put in.
ghost use Rattle.std.specs.Prelude.{◌≡◌, ◌++◌, codes, true, length, string_bytes, IfOk};
ghost use Rattle.lc_sexp.specs.Printed.{is_atom};
ghost use Rattle.lc_sexp.specs.Shown.{rest_of};
ghost use Rattle.lc_reading.specs.Parts.{tree_of};
ghost use Rattle.lc_reading.specs.Rows.{all_declared};
ghost use Rattle.lc_reading.specs.TableView.{listed};
ghost use Rattle.lc_fill.specs.Acts.{action_name, unused, acts_of};
ghost use Rattle.lc_fill.specs.PlanView.{plan_view};
ghost use Rattle.lc_fill.specs.Seen.{acts_view};

use crate::acts::Acts;
use crate::plan::{Plan, found};
use crate::row::{bare, list_of};
use lc_base::OutOfMemory;
use lc_reading::{NameTable, Part, behind_word, next_part};
use lc_sexp::{Cursor, Sexp};
use std::alloc::Global;

/// The names of the actions that these parts of an object declare.
fn action_names<'a>(alloc: Global, parts: Cursor<'a>) -> Result<NameTable<'a>, OutOfMemory>
    ensures { IfOk result (λ names. listed names ≡ all_declared action_name (rest_of parts.entry)) }
{
    let mut names = NameTable::new(alloc);
    let mut rest = parts;
    'items: loop {
        let Ok(part) = next_part(&mut rest) else {
            return Ok(names);
        };
        names = with_declared(names, part)?;
    }
}

/// These names, and that of the action which an item declares.
fn with_declared<'a>(names: NameTable<'a>, part: Part<'a>) -> Result<NameTable<'a>, OutOfMemory>
    ensures { IfOk result (λ after. listed after ≡ listed names.entry ++ action_name (tree_of part.entry)) }
{
    let Ok(_) = behind_word(part, "action") else {
        return Ok(names);
    };
    let more = names.enter_second(part)?;
    Ok(more)
}

/// A name that is none of these.
fn unused(alloc: Global, names: &NameTable<'_>) -> Result<String, OutOfMemory>
    ensures name { IfOk result (λ name. string_bytes name ≡ unused (listed names.now) (length (listed names.now)) (codes "todo")) }
    ensures spelled { IfOk result (λ name. is_atom (string_bytes name) ≡ true) }
{
    let mut name = String::from_str(alloc, "todo")?;
    let mut left = names.len();
    while left > 0 {
        if !names.contains(name.as_str()) {
            return Ok(name);
        }
        name.push_str("-")?;
        left -= 1;
    }
    Ok(name)
}

/// The names of the actions of an object with these parts.
pub(crate) fn read_acts<'a, 'b>(
    alloc: Global,
    plan: &'b Plan,
    parts: Cursor<'a>,
) -> Result<Acts<'a, 'b>, OutOfMemory>
    ensures { IfOk result (λ acts. acts_view acts ≡ acts_of (plan_view plan.now) (rest_of parts.entry)) }
{
    let names = action_names(alloc, parts)?;
    let stand_in = unused(alloc, &names)?;
    Ok(Acts {
        names,
        stand_in,
        plan,
    })
}

impl<'a, 'b> Acts<'a, 'b> {
    ghost use Rattle.std.specs.Prelude.{◌≡◌, IfOk};
    ghost use Rattle.lc_fill.specs.Acts.{call_at, is_lacking, stand_in_of};
    ghost use Rattle.lc_fill.specs.Seen.{acts_view};

    /// The call that is put in before the item of this number.
    pub(crate) fn call(&self, alloc: Global, place: u64) -> Result<Sexp, OutOfMemory>
        ensures { IfOk result (λ call. call ≡ call_at (acts_view self.now) place) }
    {
        let planned = found(&self.plan.calls, place);
        if planned.is_empty() {
            let call = bare(alloc, self.stand_in.as_str())?;
            return Ok(call);
        }
        let list = list_of(alloc, planned)?;
        Ok(list)
    }

    /// Whether that is a call of the stand-in.
    pub(crate) fn is_lacking(&self, place: u64) -> bool
        ensures { result ≡ is_lacking (acts_view self.now) place }
    {
        found(&self.plan.calls, place).is_empty()
    }

    /// The stand-in.
    #[tactic(auto, unfolding(lc_sexp::specs::Text::class_of))]
    pub(crate) fn stand_in(&self, alloc: Global) -> Result<Sexp, OutOfMemory>
        ensures { IfOk result (λ action. action ≡ stand_in_of (acts_view self.now)) }
    {
        let word = Sexp::atom(alloc, "action")?;
        let name = Sexp::atom(alloc, self.stand_in.as_str())?;
        let parameters = Sexp::list(alloc, &[])?;
        let guard = bare(alloc, "and")?;
        let action = Sexp::list(alloc, &[word, name, parameters, guard])?;
        Ok(action)
    }
}

//! The guards of actions, as forms.
use crate::marks::is_set;
use lc_base::OutOfMemory;
use lc_sexp::{Cursor, Forms, Item, Sexp};
use std::alloc::Global;

/// The place of the guard in `(action NAME (..) GUARD ..)`.
const GUARD: usize = 3;

/// How many actions a file with these forms declares.
pub fn written_actions(forms: &Forms) -> usize {
    let mut file = forms.cursor();
    let _ = file.item();
    let Ok(mut object) = file.list() else {
        return 0;
    };
    let mut count = 0usize;
    for _ in 0..object.len() {
        if let Ok(Item::List(mut parts)) = object.item()
            && parts.name().is_ok_and(|word| word == "action")
        {
            count = count.saturating_add(1);
        }
    }
    count
}

/// The conjuncts of the guard of an action, whose items these are.
pub(crate) fn guard_of(action: Cursor<'_>) -> Cursor<'_> {
    let mut rest = action;
    for _ in 0..GUARD {
        let _ = rest.item();
    }
    rest.form("and").unwrap_or(Cursor::empty())
}

/// The guard with these conjuncts but those that are not marked; `number` is that of the first.
#[tactic(auto, unfolding(lc_sexp::specs::Text::class_of))]
fn marked_guard(
    alloc: Global,
    guard: Cursor<'_>,
    marks: &[bool],
    number: &mut usize,
) -> Result<Sexp, OutOfMemory> {
    let mut items = Vec::new(alloc);
    items.push(Sexp::atom(alloc, "and")?)?;
    let mut rest = guard;
    for _ in 0..guard.len() {
        if let Ok(item) = rest.item()
            && is_set(marks, *number)
        {
            items.push(item.to_sexp(alloc)?)?;
        }
        *number = number.saturating_add(1);
    }
    Ok(Sexp::list(alloc, &items)?)
}

/// An action, whose items these are, without the conjuncts of its guard that are not marked.
fn marked_action(
    alloc: Global,
    action: Cursor<'_>,
    marks: &[bool],
    number: &mut usize,
) -> Result<Sexp, OutOfMemory> {
    let mut items = Vec::new(alloc);
    let mut rest = action;
    for place in 0..action.len() {
        if place == GUARD {
            let _ = rest.item();
            items.push(marked_guard(alloc, guard_of(action), marks, number)?)?;
        } else if let Ok(item) = rest.item() {
            items.push(item.to_sexp(alloc)?)?;
        }
    }
    Ok(Sexp::list(alloc, &items)?)
}

/// Actions without the conjuncts of their guards that are not marked; `number` is that of the first.
pub(crate) fn marked_actions(
    alloc: Global,
    actions: &Forms,
    marks: &[bool],
    number: usize,
) -> Result<Forms, OutOfMemory> {
    let mut items = Vec::new(alloc);
    let mut number = number;
    let mut rest = actions.cursor();
    for _ in 0..actions.cursor().len() {
        if let Ok(action) = rest.list() {
            items.push(marked_action(alloc, action, marks, &mut number)?)?;
        }
    }
    Ok(Forms::of(alloc, &items)?)
}

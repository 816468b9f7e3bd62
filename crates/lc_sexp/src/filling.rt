//! Forms that are answered with those of their parts that nobody has taken.
ghost use Rattle.std.specs.Prelude.{◌≡◌, ◌+◌, ◌++◌, ℕ, List, ◌∷◌, length, true, IfOk, OnOk, MatchOption};
ghost use Rattle.std.specs.VecDeque.{deque_len};
ghost use Rattle.lc_sexp.specs.Trees.{Trees, none, ◌▸◌, row};
ghost use Rattle.lc_sexp.specs.Text.{are_letters};
ghost use Rattle.lc_sexp.specs.Entries.{Entry, entries_of_all};
ghost use Rattle.lc_sexp.specs.Flat.{entry_of, is_within};
ghost use Rattle.lc_sexp.specs.Built.{entries_in};
ghost use Rattle.lc_sexp.specs.Filling.{front_of, behind_of, filled};

use crate::builder::Builder;
use crate::forms::Forms;
use crate::node::Node;
use crate::part::Part;
use crate::sexp::{Sexp, count_of_all, put_all};
use lc_base::OutOfMemory;
use std::alloc::Global;
use std::collections::VecDeque;

/// Takes the first part, if it belongs to this form.
fn take_of(ready: &mut VecDeque<Part>, form: u64) -> Option<Sexp>
    ensures { MatchOption result
        ((front_of form ready.old.items ≡ none) × (behind_of form ready.old.items ≡ ready.new.items))
        (λ sexp. (front_of form ready.old.items ≡ sexp ▸ front_of form ready.new.items)
        × (behind_of form ready.old.items ≡ behind_of form ready.new.items)
        × (deque_len ready.new + 1 ≡ deque_len ready.old)) }
{
    if ready.front()?.form != form {
        return None;
    }
    let part = ready.pop_front()?;
    Some(part.sexp)
}

/// Takes the first parts that belong to this form.
fn take_all_of(
    alloc: Global,
    ready: &mut VecDeque<Part>,
    form: u64,
) -> Result<Vec<Sexp>, OutOfMemory>
    ensures { IfOk result (λ sexps. (row sexps.items ≡ front_of form ready.old.items)
        × (ready.new.items ≡ behind_of form ready.old.items)) }
{
    let mut sexps = Vec::new(alloc);
    while let Some(sexp) = take_of(ready, form) {
        sexps.push(sexp)?;
    }
    Ok(sexps)
}

/// Appends a form, a list with the first parts that belong to it.
fn put_form(
    alloc: Global,
    built: &mut Builder,
    ready: &mut VecDeque<Part>,
    form: u64,
    node: Node,
    text: &[u8],
) -> Result<(), OutOfMemory>
    requires within { is_within (length text.now) node ≡ true }
    requires letters { are_letters text.now ≡ true }
    ensures { OnOk result ((es : List Entry) →
        entries_in built.new ++ entries_of_all (filled (form + 1) es ready.new.items)
        ≡ entries_in built.old ++ entries_of_all (filled form (entry_of text.now node ∷ es) ready.old.items)) }
{
    match node {
        Node::Atom { .. } => built.push_copy(node, text)?,
        Node::List { .. } => {
            let sexps = take_all_of(alloc, ready, form)?;
            built.push_list(count_of_all(&sexps)?)?;
            put_all(built, &sexps)?;
        }
        Node::Open => {}
    }
    Ok(())
}

/// The forms that have ended, with the parts that were not taken in their lists.
pub(crate) fn fill(
    alloc: Global,
    ended: &Builder,
    mut ready: VecDeque<Part>,
) -> Result<Forms, OutOfMemory>
    ensures { IfOk result (λ forms. forms ≡ filled 0 (entries_in ended.now) ready.items) }
{
    let mut built = Builder::new(alloc);
    let mut form = 0;
    for node in &ended.nodes {
        put_form(alloc, &mut built, &mut ready, form, *node, &ended.text)?;
        form += 1;
    }
    Ok(built.into_forms())
}

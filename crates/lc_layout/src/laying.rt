ghost use Rattle.std.specs.Prelude.{◌≡◌, ◌++◌, IfOk, OnOk};
ghost use Rattle.lc_sexp.specs.Shown.{rest_of, item_tree};
ghost use Rattle.lc_layout.specs.Layout.{laid_at, laid_items, laid_out, line_start, indent_of, right_of};
ghost use Rattle.lc_layout.specs.declared.stage.Stage.TheVariants.{Below as BelowStage};

use crate::spot::stage_within;
use crate::stage::Stage;
use crate::walk::Walk;
use lc_base::OutOfMemory;
use lc_sexp::{Cursor, Item};
use std::alloc::Global;

/// Lays out the items of a list by itself, after its bracket.
fn lay_list(
    alloc: Global,
    text: &mut Vec<u8>,
    items: Cursor<'_>,
    stage: Stage,
) -> Result<(), OutOfMemory>
    ensures { OnOk result (text.new.items ≡ text.old.items ++ laid_items stage (right_of 0 1) (indent_of 0 (rest_of items.entry)) 0 (rest_of items.entry)) }
{
    let mut walk = Walk::new(alloc, items, stage);
    while walk.step(text)? {}
    Ok(())
}

/// Appends a form, laid out.
fn lay_form(alloc: Global, text: &mut Vec<u8>, form: Item<'_>) -> Result<(), OutOfMemory>
    ensures { OnOk result (text.new.items ≡ text.old.items ++ laid_at BelowStage 0 0 (item_tree form.entry) line_start) }
{
    match form {
        Item::Atom(atom) => {
            text.extend_from_slice(atom.text().as_bytes())?;
            Ok(())
        }
        Item::List(items) => {
            let stage = stage_within(Stage::Below, 0, 0, form);
            text.push(b'(')?;
            lay_list(alloc, text, items, stage)
        }
    }
}

/// Lays out s-expressions over lines, each of which begins a line. A list that fits into the rest of a line of 100 columns is on
/// it. Otherwise its first items stay on the line of its bracket, its head with the atoms after it, and each further item is on a
/// line of its own, indented by 2 more than the bracket, and by 60 at most.
///
/// The text is a function of the trees alone, and reads back as them. Nothing recurses along a list, nor along the nesting of the
/// text.
pub fn lay_out(alloc: Global, forms: Cursor<'_>) -> Result<Vec<u8>, OutOfMemory>
    ensures { IfOk result (λ text. text.items ≡ laid_out (rest_of forms.entry)) }
{
    let mut text = Vec::new(alloc);
    let mut rest = forms;
    while let Ok(form) = rest.item() {
        lay_form(alloc, &mut text, form)?;
        text.push(b'\n')?;
    }
    Ok(text)
}

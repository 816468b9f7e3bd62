//! How s-expressions are printed.
ghost use Rattle.std.specs.Prelude.{◌≡◌, ◌++◌, ◌<◌, [], true, false, IfOk, OnOk};
ghost use Rattle.lc_sexp.specs.Trees.{row};
ghost use Rattle.lc_sexp.specs.Printed.{printed, printed_items};
ghost use Rattle.lc_sexp.specs.Shown.{rest_of};

use crate::cursor::{Cursor, Item};
use crate::sexp::Sexp;
use lc_base::OutOfMemory;
use std::alloc::Global;

/// A walk that prints: the rest of a row, nothing of which was printed yet if it is fresh, and the rest of
/// each row around it, from the outermost.
#[derive(Drop)]
pub(crate) struct Walk<'a> {
    rest: Cursor<'a>,
    fresh: bool,
    around: Vec<Cursor<'a>>,
}

impl<'a> Walk<'a> {
    ghost use Rattle.lc_sexp.specs.Printing.{left_to_print, steps_left};

    /// Prints an atom or a bracket, with a space before it if one is expected. Returns whether something was left.
    fn step(&mut self, out: &mut Vec<u8>) -> Result<bool, OutOfMemory>
        ensures told { OnOk result (out.new.items ++ left_to_print self.new ≡ out.old.items ++ left_to_print self.old) }
        ensures ended { IfOk result (λ more. more ≡ false → left_to_print self.new ≡ []) }
        ensures fewer { IfOk result (λ more. more ≡ true → steps_left self.new < steps_left self.old) }
    {
        let Ok(item) = self.rest.item() else {
            let Some(behind) = self.around.pop() else {
                return Ok(false);
            };
            out.push(b')')?;
            self.rest = behind;
            self.fresh = false;
            return Ok(true);
        };
        if !self.fresh {
            out.push(b' ')?;
        }
        match item {
            Item::Atom(atom) => {
                out.extend_from_slice(atom.letters())?;
                self.fresh = false;
            }
            Item::List(inner) => {
                out.push(b'(')?;
                self.around.push(self.rest)?;
                self.rest = inner;
                self.fresh = true;
            }
        }
        Ok(true)
    }
}

/// Appends the text of items, with one space between them. Nothing recurses.
fn print_items(alloc: Global, out: &mut Vec<u8>, items: Cursor<'_>) -> Result<(), OutOfMemory>
    ensures { OnOk result (out.new.items ≡ out.old.items ++ printed_items (rest_of items.entry)) }
{
    let mut walk = Walk {
        rest: items,
        fresh: true,
        around: Vec::new(alloc),
    };
    while walk.step(out)? {}
    Ok(())
}

/// Prints s-expressions: each with a line feed, and one space between the items of a list.
///
/// What is printed reads back as the same trees if each atom is one letter or more, lists are nested at
/// most 1,000 deep, and the text is within the file limit.
pub fn print(alloc: Global, sexps: &[Sexp]) -> Result<Vec<u8>, OutOfMemory>
    ensures { IfOk result (λ text. text.items ≡ printed (row sexps.now)) }
{
    let mut text = Vec::new(alloc);
    for sexp in sexps {
        print_items(alloc, &mut text, sexp.cursor())?;
        text.push(b'\n')?;
    }
    Ok(text)
}

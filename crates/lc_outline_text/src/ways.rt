//! What riders do, read off a text.
ghost use Rattle.std.specs.Prelude.{◌≡◌, map, IfOk};
ghost use Rattle.lc_sexp.specs.Shown.{rest_of};
ghost use Rattle.lc_outline_text.specs.DeclarationsView.{declarations_view};
ghost use Rattle.lc_outline_text.specs.Paths.{ways_kept};
ghost use Rattle.lc_outline_text.specs.Sizes.{ways_with, deed_ways, rider_ways, all_ways};
ghost use Rattle.lc_outline_text.specs.StoredView.{ways_of_deed, ways_of_rider, ways_of_riders, IsStored};

use crate::columns_stored::column_of;
use crate::declarations::Declarations;
use crate::needs::items_within;
use crate::riders::{Deed, Rider};
use crate::stored::{Stored, marked_by_branches, marked_by_choice};
use lc_base::OutOfMemory;
use lc_object_text::{behind_first, first_text, within_first};
use lc_reading::next_part;
use lc_sexp::Cursor;
use std::alloc::Global;

/// What is done by a list's other parts, if it begins with this word, in the body of the operation of this number.
fn deed_with<'b>(
    declarations: &Declarations<'_>,
    stored: &'b Stored,
    operation: u32,
    word: &str,
    list: Cursor<'_>,
) -> Result<Deed<'b>, OutOfMemory>
    requires { IsStored (declarations_view declarations.now) stored.now }
    ensures { IfOk result (λ deed. ways_kept (ways_of_deed deed) ≡ ways_kept (ways_with (declarations_view declarations.now) operation word.now (rest_of list.entry))) }
{
    let own = Some(operation as usize);
    let other = declarations
        .declared
        .operations
        .place(first_text(&behind_first(list)));
    let deed = match word {
        "set" => Deed::Set(column_of(&declarations.declared.columns, first_text(&list))?),
        "lin" => Deed::Marks {
            asked: 2,
            rows: marked_by_branches(declarations, stored, own, false),
        },
        "lin-other" => Deed::Marks {
            asked: 3,
            rows: marked_by_branches(declarations, stored, other, false),
        },
        "note" => Deed::Marks {
            asked: 3,
            rows: marked_by_branches(declarations, stored, own, true),
        },
        "lin-by" => Deed::Marks {
            asked: 2,
            rows: marked_by_choice(declarations, stored, own, first_text(&list), false),
        },
        "lin-other-by" => {
            let name = first_text(&behind_first(behind_first(list)));
            Deed::Marks {
                asked: 3,
                rows: marked_by_choice(declarations, stored, other, name, false),
            }
        }
        "note-by" => Deed::Marks {
            asked: 3,
            rows: marked_by_choice(declarations, stored, own, first_text(&list), true),
        },
        _ => Deed::Marks {
            asked: 0,
            rows: &[],
        },
    };
    Ok(deed)
}

/// What a list of these items does, which is no `when`.
fn deed_of<'b>(
    declarations: &Declarations<'_>,
    stored: &'b Stored,
    operation: u32,
    list: Cursor<'_>,
) -> Result<Deed<'b>, OutOfMemory>
    requires { IsStored (declarations_view declarations.now) stored.now }
    ensures { IfOk result (λ deed. ways_kept (ways_of_deed deed) ≡ ways_kept (deed_ways (declarations_view declarations.now) operation (rest_of list.entry))) }
{
    let deed = deed_with(
        declarations,
        stored,
        operation,
        first_text(&list),
        behind_first(list),
    )?;
    Ok(deed)
}

/// The rider of these items.
fn rider_of<'b>(
    declarations: &Declarations<'_>,
    stored: &'b Stored,
    operation: u32,
    list: Cursor<'_>,
) -> Result<Rider<'b>, OutOfMemory>
    requires { IsStored (declarations_view declarations.now) stored.now }
    ensures { IfOk result (λ rider. ways_kept (ways_of_rider rider) ≡ ways_kept (rider_ways (declarations_view declarations.now) operation (rest_of list.entry))) }
{
    if first_text(&list) != "when" {
        let deed = deed_of(declarations, stored, operation, list)?;
        return Ok(Rider {
            deed,
            is_conditional: false,
        });
    }
    let inner = within_first(behind_first(behind_first(list)));
    let deed = deed_of(declarations, stored, operation, inner)?;
    Ok(Rider {
        deed,
        is_conditional: true,
    })
}

/// The riders that are left in a list.
pub(crate) fn riders_in<'b>(
    alloc: Global,
    declarations: &Declarations<'_>,
    stored: &'b Stored,
    operation: u32,
    list: Cursor<'_>,
) -> Result<Vec<Rider<'b>>, OutOfMemory>
    requires { IsStored (declarations_view declarations.now) stored.now }
    ensures { IfOk result (λ riders. map ways_kept (ways_of_riders riders.items) ≡ map ways_kept (all_ways (declarations_view declarations.now) operation (rest_of list.entry))) }
{
    let mut riders = Vec::new(alloc);
    let mut rest = list;
    'riders: loop {
        let Ok(part) = next_part(&mut rest) else {
            return Ok(riders);
        };
        let rider = rider_of(declarations, stored, operation, items_within(part))?;
        riders.push(rider)?;
    }
}

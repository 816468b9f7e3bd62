//! How a rider is read.
ghost use Rattle.std.specs.Prelude.{ℕ, []};
ghost use Rattle.lc_sexp.specs.Shown.{rest_of, number_of, owner_of};
ghost use Rattle.lc_reading.specs.Naming.{use_reading};
ghost use Rattle.lc_reading.specs.Parts.{tree_of, place_of};
ghost use Rattle.lc_reading.specs.Readings.{Reading, mapped, both};
ghost use Rattle.lc_reading.specs.Results.{IsReading};
ghost use Rattle.lc_rider.specs.Rider as R;
ghost use Rattle.lc_rider.specs.RiderView.{choosing_of, formula_in, rider_of, riders_of};
ghost use Rattle.lc_seq.specs.Sequential.{Chosen};
ghost use Rattle.lc_term.specs.Syntax as T;
ghost use Rattle.lc_term.specs.Updates as U;
ghost use Rattle.lc_term.specs.UpdateView.{update_of};
ghost use Rattle.lc_text.specs.Formulas.{formula_reading};
ghost use Rattle.lc_rider_text.specs.KnownView.{known_view, ways_there};
ghost use Rattle.lc_rider_text.specs.Riders.{other_reading, mark_of_other, lin_other_reading, lin_other_by_reading, headed_reading, deed_with, deed_reading, when_reading, always, where_holds, rider_reading, riders_reading};
ghost use Rattle.lc_rider_text.specs.Scopes.{quiet};
ghost use Rattle.lc_rider_text.specs.Seen.{deed_of, other_parts, when_parts};

use crate::choice::{read_by, read_in_order};
use crate::deed::Deed;
use crate::known::{Known, Ways};
use crate::numbers::number_at;
use crate::scope::Quiet;
use crate::update::{Stores, read_update};
use crate::words::{Head, head_of};
use lc_base::{OpId, RIDER_LIMIT};
use lc_object_text::{ReadsPlaced, read_placed};
use lc_reading::{
    Part, Pass, ReadFault, both, ended, headed, limited, next_part, read_use, two, wrong,
};
use lc_rider::{Choosing, Rider, When};
use lc_sexp::{Cursor, Item};
use lc_term::{Term, Update};
use lc_text::{Scope, read_formula, read_term};
use std::alloc::Global;

/// The operation that an item names.
fn read_operation(known: Known<'_, '_>, part: Part<'_>) -> Result<OpId, ReadFault>
    ensures { IsReading (λ operation. operation.0) (use_reading (known_view known.entry).operations (place_of part.entry) (tree_of part.entry)) result }
{
    Ok(OpId(number_at(read_use(known.operations, part)?)?))
}

/// `T OP`: the client and the operation of a call.
fn read_other<S: Scope>(
    alloc: Global,
    known: Known<'_, '_>,
    scope: &S,
    client: Part<'_>,
    operation: Part<'_>,
) -> Result<(Term, OpId), ReadFault>
    ensures { IsReading other_parts (other_reading (known_view known.entry) (S.names scope.now) (place_of client.entry) (tree_of client.entry) (place_of operation.entry) (tree_of operation.entry)) result }
{
    both(
        read_term(alloc, scope, client),
        read_operation(known, operation),
    )
}

/// A mark of another client's call.
fn made_other(
    call: Result<(Term, OpId), ReadFault>,
    by: Result<Choosing, ReadFault>,
) -> Result<Deed, ReadFault>
    ensures { (r : Reading (T.Term × ℕ)) (s : Reading (Chosen T.Term)) → IsReading other_parts r call → IsReading choosing_of s by → IsReading deed_of (both mark_of_other r s) result }
{
    match both(call, by) {
        Ok(((client, operation), by)) => Ok(Deed::LinOther {
            client,
            operation,
            by,
        }),
        Err(fault) => Err(fault),
    }
}

/// `T OP`: a mark of another client's call that names no choice.
fn read_lin_other<S: Scope>(
    alloc: Global,
    known: Known<'_, '_>,
    scope: &S,
    list: Cursor<'_>,
) -> Result<Deed, ReadFault>
    ensures { IsReading deed_of (lin_other_reading (known_view known.entry) (S.names scope.now) (owner_of list.entry) (number_of list.entry) (rest_of list.entry)) result }
{
    let (client, operation, rest) = two(list)?;
    let call = read_other(alloc, known, scope, client, operation);
    let by = read_in_order(known.ways_named(operation), list.owner());
    ended(made_other(call, by), rest)
}

/// `T OP NAME T*`: a mark of another client's call that names a choice.
fn read_lin_other_by<S: Scope>(
    alloc: Global,
    known: Known<'_, '_>,
    scope: &S,
    list: Cursor<'_>,
) -> Result<Deed, ReadFault>
    ensures { IsReading deed_of (lin_other_by_reading (known_view known.entry) (S.names scope.now) (owner_of list.entry) (number_of list.entry) (rest_of list.entry)) result }
{
    let mut rest = list;
    let client = next_part(&mut rest)?;
    let operation = next_part(&mut rest)?;
    let call = read_other(alloc, known, scope, client, operation);
    let by = read_by(alloc, scope, known.ways_named(operation), rest);
    made_other(call, by)
}

/// A mark of the client's own call.
fn made_lin(by: Result<Choosing, ReadFault>) -> Result<Deed, ReadFault>
    ensures { (r : Reading (Chosen T.Term)) → IsReading choosing_of r by → IsReading deed_of (mapped (R.Marks R.Own) r) result }
{
    Ok(Deed::LinSelf { by: by? })
}

/// A note of the replies of the client's own call.
fn made_note(by: Result<Choosing, ReadFault>) -> Result<Deed, ReadFault>
    ensures { (r : Reading (Chosen T.Term)) → IsReading choosing_of r by → IsReading deed_of (mapped (R.Marks R.Note) r) result }
{
    Ok(Deed::Note { by: by? })
}

/// What is stored.
fn made_store(update: Result<Update, ReadFault>) -> Result<Deed, ReadFault>
    ensures { (r : Reading U.Update) → IsReading update_of r update → IsReading deed_of (mapped R.Assign r) result }
{
    Ok(Deed::Assign(update?))
}

/// What is done by a list's other parts, after this word.
fn read_headed<S: Scope>(
    alloc: Global,
    known: Known<'_, '_>,
    scope: &S,
    own: Option<&Ways<'_>>,
    head: Head,
    list: Cursor<'_>,
) -> Result<Deed, ReadFault>
    ensures { IsReading deed_of (headed_reading (known_view known.entry) (S.names scope.now) (ways_there own.entry) head (owner_of list.entry) (number_of list.entry) (rest_of list.entry)) result }
{
    match head {
        Head::Set => made_store(read_update(alloc, Stores::InAuxiliary, known, scope, list)),
        Head::Lin => ended(made_lin(read_in_order(own, list.owner())), list),
        Head::LinOther => read_lin_other(alloc, known, scope, list),
        Head::Note => ended(made_note(read_in_order(own, list.owner())), list),
        Head::LinBy => made_lin(read_by(alloc, scope, own, list)),
        Head::LinOtherBy => read_lin_other_by(alloc, known, scope, list),
        Head::NoteBy => made_note(read_by(alloc, scope, own, list)),
    }
}

/// What a rider does whose list begins so.
fn read_deed_with<S: Scope>(
    alloc: Global,
    known: Known<'_, '_>,
    scope: &S,
    own: Option<&Ways<'_>>,
    head: Option<Head>,
    list: Cursor<'_>,
) -> Result<Deed, ReadFault>
    ensures { IsReading deed_of (deed_with (known_view known.entry) (S.names scope.now) (ways_there own.entry) (owner_of list.entry) (number_of list.entry) (rest_of list.entry) head) result }
{
    match head {
        Some(head) => read_headed(alloc, known, scope, own, head, list),
        None => Err(wrong(Pass::Shape, list.owner())),
    }
}

/// What is done, by an item that is no `when`.
fn read_deed<S: Scope>(
    alloc: Global,
    known: Known<'_, '_>,
    scope: &S,
    own: Option<&Ways<'_>>,
    part: Part<'_>,
) -> Result<Deed, ReadFault>
    ensures { IsReading deed_of (deed_reading (known_view known.entry) (S.names scope.now) (ways_there own.entry) (place_of part.entry) (tree_of part.entry)) result }
{
    let list = match part.item() {
        Item::Atom(atom) => return Err(wrong(Pass::Shape, atom.number())),
        Item::List(list) => list,
    };
    let (word, parts) = headed(list)?;
    read_deed_with(alloc, known, scope, own, head_of(word), parts)
}

/// The condition of a rider.
fn read_condition<S: Scope>(alloc: Global, scope: &S, part: Part<'_>) -> Result<When, ReadFault>
    ensures { IsReading formula_in (formula_reading (quiet (S.names scope.now)) [] (place_of part.entry) (tree_of part.entry)) result }
{
    let formula = read_formula(alloc, &Quiet(scope), part)?;
    match When::new(formula) {
        Some(condition) => Ok(condition),
        None => unreachable!(),
    }
}

/// `F RIDER`, where the inner rider is no `when`.
fn read_when<S: Scope>(
    alloc: Global,
    known: Known<'_, '_>,
    scope: &S,
    own: Option<&Ways<'_>>,
    list: Cursor<'_>,
) -> Result<(When, Deed), ReadFault>
    ensures { IsReading when_parts (when_reading (known_view known.entry) (S.names scope.now) (ways_there own.entry) (owner_of list.entry) (number_of list.entry) (rest_of list.entry)) result }
{
    let (first, second, rest) = two(list)?;
    let condition = read_condition(alloc, scope, first);
    let deed = read_deed(alloc, known, scope, own, second);
    ended(both(condition, deed), rest)
}

/// A rider without a condition.
fn made_rider(deed: Result<Deed, ReadFault>) -> Result<Rider, ReadFault>
    ensures { (r : Reading R.Deed) → IsReading deed_of r deed → IsReading rider_of (mapped always r) result }
{
    Ok(deed?.under(None))
}

/// A rider with a condition.
fn made_when(parts: Result<(When, Deed), ReadFault>) -> Result<Rider, ReadFault>
    ensures { (r : Reading (T.Formula × R.Deed)) → IsReading when_parts r parts → IsReading rider_of (mapped where_holds r) result }
{
    let (condition, deed) = parts?;
    Ok(deed.under(Some(condition)))
}

/// The rider that an item reads as, in the body of an operation that goes so, if it is known.
pub fn read_rider<S: Scope>(
    alloc: Global,
    known: Known<'_, '_>,
    scope: &S,
    own: Option<&Ways<'_>>,
    part: Part<'_>,
) -> Result<Rider, ReadFault>
    ensures { IsReading rider_of (rider_reading (known_view known.entry) (S.names scope.now) (ways_there own.entry) (place_of part.entry) (tree_of part.entry)) result }
{
    let list = match part.item() {
        Item::Atom(atom) => return Err(wrong(Pass::Shape, atom.number())),
        Item::List(list) => list,
    };
    let (word, parts) = headed(list)?;
    if word == "when" {
        return made_when(read_when(alloc, known, scope, own, parts));
    }
    made_rider(read_deed_with(alloc, known, scope, own, head_of(word), parts))
}

/// Reads the riders of an edge.
#[derive(Drop)]
struct Riders<'a, 'b, 's, S> {
    known: Known<'a, 'b>,
    scope: &'s S,
    own: Option<&'b Ways<'a>>,
}

impl<S: Scope> ReadsPlaced for Riders<'_, '_, '_, S> {
    ghost use Rattle.lc_rider.specs.Rider.{Rider};
    ghost use Rattle.lc_rider.specs.RiderView.{rider_of};
    ghost use Rattle.lc_rider_text.specs.KnownView.{known_view, ways_there};
    ghost use Rattle.lc_rider_text.specs.Riders.{ith_rider_reading};

    type Value = Rider;

    ghost Meaning = { Rider };

    ghost meaning = { rider_of };

    ghost reading = { λ reader. ith_rider_reading (known_view reader.known) (S.names reader.scope.now) (ways_there reader.own) };

    fn read(&self, alloc: Global, place: u32, part: Part<'_>) -> Result<Rider, ReadFault> {
        let rider = read_rider(alloc, self.known, self.scope, self.own, part);
        limited(RIDER_LIMIT <= u64::from(place), part.number(), rider)
    }
}

/// The riders of an edge, which must be the whole rest of a list, in the body of an operation that goes so, if it is known.
pub fn read_riders<'a, 'b, S: Scope>(
    alloc: Global,
    known: Known<'a, 'b>,
    scope: &S,
    own: Option<&'b Ways<'a>>,
    list: Cursor<'_>,
) -> Result<Vec<Rider>, ReadFault>
    ensures { IsReading (λ riders. riders_of riders.items) (riders_reading (known_view known.entry) (S.names scope.now) (ways_there own.entry) (number_of list.entry) (rest_of list.entry)) result }
{
    read_placed(alloc, &Riders { known, scope, own }, list)
}

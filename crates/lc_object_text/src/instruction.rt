//! How an instruction is read.
ghost use Rattle.std.specs.Prelude.{◌≡◌, ℕ, List, map, IfOk};
ghost use Rattle.lc_sexp.specs.Shown.{rest_of, number_of, owner_of};
ghost use Rattle.lc_term.specs.Syntax as T;
ghost use Rattle.lc_term.specs.View.{formula_of};
ghost use Rattle.lc_object.specs.View.{instruction_of, locals_of, terms_of};
ghost use Rattle.lc_reading.specs.Parts.{tree_of, place_of};
ghost use Rattle.lc_reading.specs.Readings.{Reading, both};
ghost use Rattle.lc_reading.specs.Results.{IsReading};
ghost use Rattle.lc_object_text.specs.Heads.{own_parts};
ghost use Rattle.lc_object_text.specs.Instructions.{place_reading, labels_reading, moved_reading, stored_reading, rows_reading, exchange_reading, cas_of, set_of, load_reading, store_reading, cas_reading, set_reading, adding_reading, faa_of, faa_reading, if_of, if_reading, own_reading, headed_reading, return_reading, instruction_reading};
ghost use Rattle.lc_object_text.specs.Own.{IsOwn, place_view, labels_view, moved_view, stored_view, rows_view, exchange_view, adding_view, assignments_view};

use crate::cells::{
    read_array, read_assignments, read_label, read_targets, read_values, row_width,
};
use crate::code_scope::CodeScope;
use crate::counts::read_count;
use crate::words::{Head, head_of};
use lc_base::{OutOfMemory, PointId};
use lc_object::{ArrayId, Instr, LocalId};
use lc_reading::{
    Part, Pass, ReadFault, both, ended, headed, next_part, read_each, three, two, wrong,
};
use lc_sexp::{Cursor, Item, Misfit};
use lc_term::{Formula, Term};
use lc_text::{Scope, Terms, read_formula, read_term};
use std::alloc::Global;
use std::sync::Arc;

/// An array and a cell in it.
fn read_place<S: Scope + CodeScope>(
    alloc: Global,
    scope: &S,
    first: Part<'_>,
    second: Part<'_>,
) -> Result<(ArrayId, Term), ReadFault>
    ensures { IsReading place_view (place_reading (S.names scope.now) (S.code scope.now) (place_of first.entry) (tree_of first.entry) (place_of second.entry) (tree_of second.entry)) result }
{
    both(read_array(scope, first), read_term(alloc, scope, second))
}

/// Two labels.
fn read_labels<S: CodeScope>(
    scope: &S,
    first: Part<'_>,
    second: Part<'_>,
) -> Result<(PointId, PointId), ReadFault>
    ensures { IsReading labels_view (labels_reading (S.code scope.now) (place_of first.entry) (tree_of first.entry) (place_of second.entry) (tree_of second.entry)) result }
{
    both(read_label(scope, first), read_label(scope, second))
}

/// `(r ..) L`
fn read_moved<S: CodeScope>(
    alloc: Global,
    scope: &S,
    width: Option<u64>,
    first: Part<'_>,
    second: Part<'_>,
) -> Result<(Vec<LocalId>, PointId), ReadFault>
    ensures { IsReading moved_view (moved_reading (S.code scope.now) width (place_of first.entry) (tree_of first.entry) (place_of second.entry) (tree_of second.entry)) result }
{
    both(
        read_targets(alloc, scope, width, first),
        read_label(scope, second),
    )
}

/// `(T ..) L`
fn read_stored<S: Scope + CodeScope>(
    alloc: Global,
    scope: &S,
    width: Option<u64>,
    first: Part<'_>,
    second: Part<'_>,
) -> Result<(Vec<Term>, PointId), ReadFault>
    ensures { IsReading stored_view (stored_reading (S.names scope.now) (S.code scope.now) width (place_of first.entry) (tree_of first.entry) (place_of second.entry) (tree_of second.entry)) result }
{
    both(
        read_values(alloc, scope, width, first),
        read_label(scope, second),
    )
}

/// `(T ..) (T ..)`
fn read_rows<S: Scope>(
    alloc: Global,
    scope: &S,
    width: Option<u64>,
    first: Part<'_>,
    second: Part<'_>,
) -> Result<(Vec<Term>, Vec<Term>), ReadFault>
    ensures { IsReading rows_view (rows_reading (S.names scope.now) width (place_of first.entry) (tree_of first.entry) (place_of second.entry) (tree_of second.entry)) result }
{
    both(
        read_values(alloc, scope, width, first),
        read_values(alloc, scope, width, second),
    )
}

/// What an instruction is read into before it is made: of `cas`, the rows and the labels.
type Exchange = ((Vec<Term>, Vec<Term>), (PointId, PointId));

/// `(T ..) (T ..) L M`
fn read_exchange<S: Scope + CodeScope>(
    alloc: Global,
    scope: &S,
    width: Option<u64>,
    first: Part<'_>,
    second: Part<'_>,
    third: Part<'_>,
    fourth: Part<'_>,
) -> Result<Exchange, ReadFault>
    ensures { IsReading exchange_view (exchange_reading (S.names scope.now) (S.code scope.now) width (place_of first.entry) (tree_of first.entry)
        (place_of second.entry) (tree_of second.entry) (place_of third.entry) (tree_of third.entry) (place_of fourth.entry) (tree_of fourth.entry)) result }
{
    both(
        read_rows(alloc, scope, width, first, second),
        read_labels(scope, third, fourth),
    )
}

/// `A T (r ..) L`
fn read_load<'a, S: Scope + CodeScope>(
    alloc: Global,
    scope: &S,
    list: Cursor<'a>,
) -> Result<(Result<Instr, ReadFault>, Cursor<'a>), Misfit>
    ensures { IsOwn (load_reading (S.names scope.now) (S.code scope.now) (owner_of list.entry) (number_of list.entry) (rest_of list.entry)) 4 list.entry result }
{
    let mut rest = list;
    let array = next_part(&mut rest)?;
    let index = next_part(&mut rest)?;
    let row = next_part(&mut rest)?;
    let label = next_part(&mut rest)?;
    let place = read_place(alloc, scope, array, index);
    let moved = read_moved(alloc, scope, row_width(scope, array), row, label);
    let instruction = match both(place, moved) {
        Ok(((array, index), (targets, next))) => Ok(Instr::Load {
            array,
            index,
            targets,
            next,
        }),
        Err(fault) => Err(fault),
    };
    Ok((instruction, rest))
}

/// `A T (T ..) L`
fn read_store<'a, S: Scope + CodeScope>(
    alloc: Global,
    scope: &S,
    list: Cursor<'a>,
) -> Result<(Result<Instr, ReadFault>, Cursor<'a>), Misfit>
    ensures { IsOwn (store_reading (S.names scope.now) (S.code scope.now) (owner_of list.entry) (number_of list.entry) (rest_of list.entry)) 4 list.entry result }
{
    let mut rest = list;
    let array = next_part(&mut rest)?;
    let index = next_part(&mut rest)?;
    let row = next_part(&mut rest)?;
    let label = next_part(&mut rest)?;
    let place = read_place(alloc, scope, array, index);
    let stored = read_stored(alloc, scope, row_width(scope, array), row, label);
    let instruction = match both(place, stored) {
        Ok(((array, index), (values, next))) => Ok(Instr::Store {
            array,
            index,
            values,
            next,
        }),
        Err(fault) => Err(fault),
    };
    Ok((instruction, rest))
}

/// The instruction `cas` of its parts.
fn made_cas(
    place: Result<(ArrayId, Term), ReadFault>,
    exchange: Result<Exchange, ReadFault>,
) -> Result<Instr, ReadFault>
    ensures { (p : Reading (ℕ × T.Term)) (e : Reading ((List T.Term × List T.Term) × (ℕ × ℕ))) → IsReading place_view p place → IsReading exchange_view e exchange →
        IsReading instruction_of (both cas_of p e) result }
{
    match both(place, exchange) {
        Ok(((array, index), ((old, new), (equal, different)))) => Ok(Instr::Cas {
            array,
            index,
            old,
            new,
            equal,
            different,
        }),
        Err(fault) => Err(fault),
    }
}

/// `A T (T ..) (T ..) L M`
fn read_cas<'a, S: Scope + CodeScope>(
    alloc: Global,
    scope: &S,
    list: Cursor<'a>,
) -> Result<(Result<Instr, ReadFault>, Cursor<'a>), Misfit>
    ensures { IsOwn (cas_reading (S.names scope.now) (S.code scope.now) (owner_of list.entry) (number_of list.entry) (rest_of list.entry)) 6 list.entry result }
{
    let mut rest = list;
    let array = next_part(&mut rest)?;
    let index = next_part(&mut rest)?;
    let old = next_part(&mut rest)?;
    let new = next_part(&mut rest)?;
    let equal = next_part(&mut rest)?;
    let different = next_part(&mut rest)?;
    let place = read_place(alloc, scope, array, index);
    let width = row_width(scope, array);
    let exchange = read_exchange(alloc, scope, width, old, new, equal, different);
    Ok((made_cas(place, exchange), rest))
}

/// The locals, and the values of each.
fn split(
    alloc: Global,
    cells: Vec<(LocalId, Term)>,
) -> Result<(Vec<LocalId>, Vec<Term>), OutOfMemory>
    ensures targets { IfOk result (λ r. locals_of r.0.items ≡ map (λ cell. cell.0) (assignments_view cells)) }
    ensures values { IfOk result (λ r. terms_of r.1.items ≡ map (λ cell. cell.1) (assignments_view cells)) }
{
    let mut targets = Vec::with_capacity(alloc, cells.len())?;
    let mut values = Vec::with_capacity(alloc, cells.len())?;
    for (target, value) in cells {
        targets.push(target)?;
        values.push(value)?;
    }
    Ok((targets, values))
}

/// The instruction `set` of its parts.
fn made_set(
    alloc: Global,
    cells: Result<Vec<(LocalId, Term)>, ReadFault>,
    label: Result<PointId, ReadFault>,
) -> Result<Instr, ReadFault>
    ensures { (c : Reading (List (ℕ × T.Term))) (l : Reading ℕ) → IsReading assignments_view c cells → IsReading (λ point. point.0) l label → IsReading instruction_of (both set_of c l) result }
{
    let (cells, next) = both(cells, label)?;
    let (targets, values) = split(alloc, cells)?;
    Ok(Instr::Set {
        targets,
        values,
        next,
    })
}

/// `((r T) ..) L`
fn read_set<'a, S: Scope + CodeScope>(
    alloc: Global,
    scope: &S,
    list: Cursor<'a>,
) -> Result<(Result<Instr, ReadFault>, Cursor<'a>), Misfit>
    ensures { IsOwn (set_reading (S.names scope.now) (S.code scope.now) (owner_of list.entry) (number_of list.entry) (rest_of list.entry)) 2 list.entry result }
{
    let (first, second, rest) = two(list)?;
    let cells = read_assignments(alloc, scope, first);
    let label = read_label(scope, second);
    Ok((made_set(alloc, cells, label), rest))
}

/// What an instruction is read into before it is made: of `faa`, the targets, and what is added and the label.
type Adding = (Vec<LocalId>, (Vec<Term>, PointId));

/// `(r ..) (T ..) L`
fn read_adding<S: Scope + CodeScope>(
    alloc: Global,
    scope: &S,
    width: Option<u64>,
    first: Part<'_>,
    second: Part<'_>,
    third: Part<'_>,
) -> Result<Adding, ReadFault>
    ensures { IsReading adding_view (adding_reading (S.names scope.now) (S.code scope.now) width (place_of first.entry) (tree_of first.entry)
        (place_of second.entry) (tree_of second.entry) (place_of third.entry) (tree_of third.entry)) result }
{
    both(
        read_targets(alloc, scope, width, first),
        read_stored(alloc, scope, width, second, third),
    )
}

/// The instruction `faa` of its parts.
fn made_faa(
    place: Result<(ArrayId, Term), ReadFault>,
    adding: Result<Adding, ReadFault>,
) -> Result<Instr, ReadFault>
    ensures { (p : Reading (ℕ × T.Term)) (q : Reading (List ℕ × (List T.Term × ℕ))) → IsReading place_view p place → IsReading adding_view q adding →
        IsReading instruction_of (both faa_of p q) result }
{
    match both(place, adding) {
        Ok(((array, index), (targets, (added, next)))) => Ok(Instr::Faa {
            array,
            index,
            targets,
            added,
            next,
        }),
        Err(fault) => Err(fault),
    }
}

/// `A T (r ..) (T ..) L`
fn read_faa<'a, S: Scope + CodeScope>(
    alloc: Global,
    scope: &S,
    list: Cursor<'a>,
) -> Result<(Result<Instr, ReadFault>, Cursor<'a>), Misfit>
    ensures { IsOwn (faa_reading (S.names scope.now) (S.code scope.now) (owner_of list.entry) (number_of list.entry) (rest_of list.entry)) 5 list.entry result }
{
    let mut rest = list;
    let array = next_part(&mut rest)?;
    let index = next_part(&mut rest)?;
    let row = next_part(&mut rest)?;
    let added = next_part(&mut rest)?;
    let label = next_part(&mut rest)?;
    let place = read_place(alloc, scope, array, index);
    let width = row_width(scope, array);
    let adding = read_adding(alloc, scope, width, row, added, label);
    Ok((made_faa(place, adding), rest))
}

/// The instruction `if` of its parts.
fn made_if(
    alloc: Global,
    condition: Result<Formula, ReadFault>,
    labels: Result<(PointId, PointId), ReadFault>,
) -> Result<Instr, ReadFault>
    ensures { (f : Reading T.Formula) (l : Reading (ℕ × ℕ)) → IsReading formula_of f condition → IsReading labels_view l labels → IsReading instruction_of (both if_of f l) result }
{
    let (condition, (holds, fails)) = both(condition, labels)?;
    let condition = Arc::new(alloc, condition)?;
    Ok(Instr::If {
        condition,
        holds,
        fails,
    })
}

/// `F L M`
fn read_if<'a, S: Scope + CodeScope>(
    alloc: Global,
    scope: &S,
    list: Cursor<'a>,
) -> Result<(Result<Instr, ReadFault>, Cursor<'a>), Misfit>
    ensures { IsOwn (if_reading (S.names scope.now) (S.code scope.now) (owner_of list.entry) (number_of list.entry) (rest_of list.entry)) 3 list.entry result }
{
    let (first, second, third, rest) = three(list)?;
    let condition = read_formula(alloc, scope, first);
    let labels = read_labels(scope, second, third);
    Ok((made_if(alloc, condition, labels), rest))
}

/// The instruction that begins so, and the rest after its parts.
fn read_own<'a, S: Scope + CodeScope>(
    alloc: Global,
    scope: &S,
    head: Head,
    list: Cursor<'a>,
) -> Result<(Result<Instr, ReadFault>, Cursor<'a>), Misfit>
    ensures { IsOwn (own_reading (S.names scope.now) (S.code scope.now) head (owner_of list.entry) (number_of list.entry) (rest_of list.entry)) (own_parts head) list.entry result }
{
    match head {
        Head::Load => read_load(alloc, scope, list),
        Head::Store => read_store(alloc, scope, list),
        Head::Cas => read_cas(alloc, scope, list),
        Head::Set => read_set(alloc, scope, list),
        Head::Faa => read_faa(alloc, scope, list),
        Head::If => read_if(alloc, scope, list),
    }
}

/// The instruction of a list's other parts that begins so.
fn read_headed<S: Scope + CodeScope>(
    alloc: Global,
    scope: &S,
    head: Head,
    list: Cursor<'_>,
) -> Result<Instr, ReadFault>
    ensures { IsReading instruction_of (headed_reading (S.names scope.now) (S.code scope.now) (owner_of list.entry) (number_of list.entry) (rest_of list.entry) head) result }
{
    let (instruction, rest) = read_own(alloc, scope, head, list)?;
    ended(instruction, rest)
}

/// `T ..`: as many terms as the operation returns numbers.
fn read_return<S: Scope + CodeScope>(
    alloc: Global,
    scope: &S,
    list: Cursor<'_>,
) -> Result<Instr, ReadFault>
    ensures { IsReading instruction_of (return_reading (S.names scope.now) (S.code scope.now) (owner_of list.entry) (number_of list.entry) (rest_of list.entry)) result }
{
    let values = read_each(alloc, &Terms(scope), list);
    match both(read_count(scope.replies(), list), values) {
        Ok(((), values)) => Ok(Instr::Return { values }),
        Err(fault) => Err(fault),
    }
}

/// The instruction that an item reads as.
pub fn read_instruction<S: Scope + CodeScope>(
    alloc: Global,
    scope: &S,
    part: Part<'_>,
) -> Result<Instr, ReadFault>
    ensures { IsReading instruction_of (instruction_reading (S.names scope.now) (S.code scope.now) (place_of part.entry) (tree_of part.entry)) result }
{
    let list = match part.item() {
        Item::Atom(atom) => return Err(wrong(Pass::Shape, atom.number())),
        Item::List(list) => list,
    };
    let (word, parts) = headed(list)?;
    if word == "return" {
        return read_return(alloc, scope, parts);
    }
    match head_of(word) {
        Some(head) => read_headed(alloc, scope, head, parts),
        None => Err(wrong(Pass::Shape, list.owner())),
    }
}

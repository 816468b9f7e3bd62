//! What riders store, said as an action says it.
use crate::acting::Deeds;
use crate::code::Point;
use crate::formula::cell_at;
use crate::said::{Given, Scope};
use crate::seen::Body;
use crate::signature::{Branch, Operation};
use crate::stores::Stored;
use crate::switching::switch_at;
use crate::text::{
    each_item, each_numbered, first_text, items_within, later, printed_first, text_of, within_first,
};
use lc_base::OutOfMemory;
use lc_reading::{NameTable, Part};
use lc_sexp::Cursor;
use std::alloc::Global;

/// The parameter of an action that takes back what it stores for a client: that client, or another one, of whom all stays as it is.
pub(crate) const TAKER: &str = "j";

/// A mark of a call.
struct Mark<'a> {
    operation: Operation<'a>,
    branch: Branch<'a>,
    /// The client whose call it is, as it is said.
    client: String,
    /// What is given for the parameters of the branch.
    terms: Cursor<'a>,
    /// Whether the replies are only noted.
    is_note: bool,
}

impl Drop for Mark<'_> {
    fn drop(self) {
        let Mark {
            operation: _,
            branch: _,
            client: _,
            terms: _,
            is_note: _,
        } = self;
    }
}

/// The system's column of a reply, by its place, or of one that is noted.
pub(crate) fn reply_column(place: usize, is_note: bool) -> &'static str {
    match (place, is_note) {
        (0, false) => "rep1",
        (1, false) => "rep2",
        (_, false) => "rep3",
        (0, true) => "note1",
        (1, true) => "note2",
        (_, true) => "note3",
    }
}

/// What is given for the parameters of a branch.
fn given_for<'a>(
    alloc: Global,
    scope: &mut Scope<'a, '_>,
    mark: &Mark<'a>,
) -> Result<Vec<Given<'a>>, OutOfMemory> {
    let mut given = Vec::new(alloc);
    for (parameter, term) in each_item(mark.branch.parameters).zip(each_item(mark.terms)) {
        let text = scope.said(term)?;
        given.push(Given {
            name: text_of(parameter),
            text,
        })?;
    }
    Ok(given)
}

/// What a mark stores, with terms said by the scope of its call.
fn stored_by<'a>(
    alloc: Global,
    own: &mut Scope<'a, '_>,
    mark: &Mark<'a>,
) -> Result<Vec<Stored<'a>>, OutOfMemory> {
    let mut stored = Vec::new(alloc);
    for update in each_item(mark.branch.updates) {
        stored.push(own.said_update(items_within(update))?)?;
    }
    for (place, reply) in each_numbered(mark.branch.replies) {
        stored.push(Stored {
            column: reply_column(place, mark.is_note),
            index: mark.client.clone()?,
            value: own.said(reply)?,
        })?;
    }
    stored.push(Stored {
        column: if mark.is_note { "noted" } else { "pend" },
        index: mark.client.clone()?,
        value: String::from_str(alloc, if mark.is_note { "1" } else { "2" })?,
    })?;
    Ok(stored)
}

/// Puts in what a mark stores: that its call is marked, or that its replies are noted.
fn put_mark<'a>(
    alloc: Global,
    scope: &mut Scope<'a, '_>,
    deeds: &mut Deeds<'a>,
    mark: &Mark<'a>,
) -> Result<(), OutOfMemory> {
    let given = given_for(alloc, scope, mark)?;
    let none = NameTable::new(alloc);
    let mut own = Scope::new(
        alloc,
        mark.operation.arguments,
        &mark.client,
        &none,
        scope.is_tried,
    )?;
    own.given = given;
    own.set_stores(deeds.stores.copy(alloc)?);
    let stored = stored_by(alloc, &mut own, mark)?;
    scope.is_unsaid = scope.is_unsaid || own.is_unsaid;
    for one in stored {
        deeds.stores.put(one)?;
    }
    Ok(())
}

/// The branch of a mark: of the choice that it names, or the only one that may be what is returned; else, where it is tried, the first of these
/// that stores something if the instruction does.
pub(crate) fn branch_of<'a>(
    operation: Operation<'a>,
    choice: Option<&str>,
    returned: Cursor<'_>,
    stores: Option<bool>,
) -> Option<Branch<'a>> {
    if let Some(name) = choice {
        return operation.choice(name);
    }
    let only = operation.only_branch(returned);
    match stores {
        Some(stores) if only.is_none() => operation.likely_branch(returned, stores),
        _ => only,
    }
}

/// The choice that is the first of these items, if a mark names one.
fn choice_in(rest: Cursor<'_>, is_named: bool) -> Option<&str> {
    if is_named {
        Some(first_text(rest))
    } else {
        None
    }
}

/// The mark of the own call, with what comes after its word.
fn own_mark<'a>(
    alloc: Global,
    body: Body<'a, '_>,
    rest: Cursor<'a>,
    is_named: bool,
    is_note: bool,
    returned: Cursor<'_>,
    stores: Option<bool>,
) -> Result<Option<Mark<'a>>, OutOfMemory> {
    let choice = choice_in(rest, is_named);
    let Some(branch) = branch_of(body.operation, choice, returned, stores) else {
        return Ok(None);
    };
    Ok(Some(Mark {
        operation: body.operation,
        branch,
        client: String::from_str(alloc, "self")?,
        terms: later(rest),
        is_note,
    }))
}

/// The mark of another client's call, with what comes after its word.
fn other_mark<'a>(
    alloc: Global,
    scope: &mut Scope<'a, '_>,
    body: Body<'a, '_>,
    rest: Cursor<'a>,
    is_named: bool,
) -> Result<Option<Mark<'a>>, OutOfMemory> {
    let behind = later(rest);
    let Some(operation) = body.operations.named(first_text(behind)) else {
        return Ok(None);
    };
    let choice = choice_in(later(behind), is_named);
    let Some(branch) = branch_of(operation, choice, Cursor::empty(), scope.stores_here) else {
        return Ok(None);
    };
    let client = scope.said_first(rest)?;
    Ok(Some(Mark {
        operation,
        branch,
        client,
        terms: later(later(behind)),
        is_note: false,
    }))
}

/// The mark of the own call that a rider is, if it is one.
fn mark_in<'a>(
    alloc: Global,
    body: Body<'a, '_>,
    rider: Cursor<'a>,
    returned: Cursor<'_>,
    stores: Option<bool>,
) -> Result<Option<Mark<'a>>, OutOfMemory> {
    let rest = later(rider);
    match first_text(rider) {
        "lin" => own_mark(alloc, body, rest, false, false, returned, stores),
        "lin-by" => own_mark(alloc, body, rest, true, false, returned, stores),
        "note" => own_mark(alloc, body, rest, false, true, returned, stores),
        "note-by" => own_mark(alloc, body, rest, true, true, returned, stores),
        _ => Ok(None),
    }
}

/// Puts in that a cell of a client stays what it was.
fn put_unchanged<'a>(
    alloc: Global,
    deeds: &mut Deeds<'a>,
    column: &'a str,
) -> Result<(), OutOfMemory> {
    deeds.stores.put(Stored {
        column,
        index: String::from_str(alloc, TAKER)?,
        value: cell_at(alloc, column, TAKER)?,
    })
}

/// Puts in that what a mark without updates stores is taken back, where the parameter is the client.
fn take_back<'a>(alloc: Global, deeds: &mut Deeds<'a>, mark: &Mark<'a>) -> Result<(), OutOfMemory> {
    for (place, _) in each_numbered(mark.branch.replies) {
        put_unchanged(alloc, deeds, reply_column(place, mark.is_note))?;
    }
    put_unchanged(alloc, deeds, if mark.is_note { "noted" } else { "pend" })
}

/// Puts in what a mark under a condition stores, with what takes it back, and reports whether it is known what that is.
fn put_when<'a>(
    alloc: Global,
    scope: &mut Scope<'a, '_>,
    deeds: &mut Deeds<'a>,
    body: Body<'a, '_>,
    point: &Point<'a>,
    rest: Cursor<'a>,
    returned: Cursor<'_>,
) -> Result<bool, OutOfMemory> {
    let Some(mark) = mark_in(
        alloc,
        body,
        within_first(later(rest)),
        returned,
        scope.stores_here,
    )?
    else {
        return Ok(false);
    };
    if !mark.branch.updates.is_empty() || deeds.switch.is_some() || scope.locals.contains(TAKER) {
        return Ok(false);
    }
    let condition = printed_first(alloc, rest)?;
    deeds.switch = switch_at(alloc, body.object, point, &condition)?;
    if deeds.switch.is_none() {
        return Ok(false);
    }
    put_mark(alloc, scope, deeds, &mark)?;
    take_back(alloc, deeds, &mark)?;
    Ok(true)
}

/// Puts in what a rider stores, and reports whether it is known what that is.
fn put_rider<'a>(
    alloc: Global,
    scope: &mut Scope<'a, '_>,
    deeds: &mut Deeds<'a>,
    body: Body<'a, '_>,
    point: &Point<'a>,
    rider: Part<'a>,
    returned: Cursor<'_>,
) -> Result<bool, OutOfMemory> {
    let parts = items_within(rider);
    let rest = later(parts);
    scope.set_stores(deeds.stores.copy(alloc)?);
    let mark = match first_text(parts) {
        "set" => {
            deeds.stores.put(scope.said_update(rest)?)?;
            return Ok(true);
        }
        "when" => return put_when(alloc, scope, deeds, body, point, rest, returned),
        "lin-other" => other_mark(alloc, scope, body, rest, false)?,
        "lin-other-by" => other_mark(alloc, scope, body, rest, true)?,
        _ => mark_in(alloc, body, parts, returned, scope.stores_here)?,
    };
    match mark {
        Some(mark) => {
            put_mark(alloc, scope, deeds, &mark)?;
            Ok(true)
        }
        None => Ok(false),
    }
}

/// Puts in what riders store, where these terms are returned if the call goes on, and reports whether it is known what that is.
pub(crate) fn put_riders<'a>(
    alloc: Global,
    scope: &mut Scope<'a, '_>,
    deeds: &mut Deeds<'a>,
    body: Body<'a, '_>,
    point: &Point<'a>,
    riders: Cursor<'a>,
    returned: Cursor<'_>,
) -> Result<bool, OutOfMemory> {
    for rider in each_item(riders) {
        if !put_rider(alloc, scope, deeds, body, point, rider, returned)? {
            return Ok(false);
        }
    }
    Ok(true)
}

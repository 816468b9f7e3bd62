//! What a client knows of a call that it has posted in a row, where other clients may do it: that it still stands there, or what who does it stores.
use crate::code::Point;
use crate::fact::{Basis, Fact};
use crate::formula::{cell_at, holds, negated};
use crate::marking::reply_column;
use crate::noting::tied_to;
use crate::object::Object;
use crate::seen::{Body, Seen};
use crate::signature::Branch;
use crate::text::{
    each_cell, each_item, each_numbered, first_text, items_within, later, nth_text, printed,
    text_of, within_first,
};
use lc_base::OutOfMemory;
use lc_reading::behind_word;
use lc_sexp::Cursor;
use std::alloc::Global;

/// How a client posts its number.
const POSTED: &str = "(+ self 1)";

/// A mark of another client's call, at a `cas` with this code.
#[derive(Clone, Copy)]
struct Help<'a> {
    code: Cursor<'a>,
    /// The client, and the operation.
    call: Cursor<'a>,
}

impl<'a> Help<'a> {
    /// The terms that the `cas` expects in the cells of its row.
    fn expected(self) -> Cursor<'a> {
        within_first(later(later(self.code)))
    }

    /// The terms that it stores there.
    fn stored(self) -> Cursor<'a> {
        within_first(later(later(later(self.code))))
    }

    /// The local that it expects in the cell of a column; empty if it is none.
    fn local(self, columns: Cursor<'a>, column: &str) -> &'a str {
        for (name, term) in each_cell(columns, self.expected()) {
            if name == column {
                return text_of(term);
            }
        }
        ""
    }

    /// The column in which it stores what it expects as this local; empty if there is none.
    fn kept_in(self, columns: Cursor<'a>, local: &str) -> &'a str {
        for (name, term) in each_cell(columns, self.stored()) {
            if !local.is_empty() && text_of(term) == local {
                return name;
            }
        }
        ""
    }

    /// Whether the call is that of the client whose number is in a column.
    fn is_of(self, columns: Cursor<'a>, column: &str) -> bool {
        let client = within_first(self.call);
        let local = self.local(columns, column);
        !local.is_empty()
            && first_text(client) == "-"
            && nth_text(client, 1) == local
            && nth_text(client, 2) == "1"
    }
}

/// The mark of another client's call among these parts of a point.
fn help_in<'a>(code: Cursor<'a>, ons: Cursor<'a>) -> Option<Help<'a>> {
    for part in each_item(ons) {
        let Ok(on) = behind_word(part, "on") else {
            continue;
        };
        for rider in each_item(later(on)) {
            if let Ok(call) = behind_word(rider, "lin-other") {
                return Some(Help { code, call });
            }
        }
    }
    None
}

/// The mark of the call of the client whose number is in a column of an array.
fn help_for<'a>(object: &Object<'a>, array: &str, column: &str) -> Option<Help<'a>> {
    let columns = object.columns_of(array);
    for part in each_item(object.parts) {
        let Ok(body) = behind_word(part, "body") else {
            continue;
        };
        for point in each_item(later(later(body))) {
            let parts = items_within(point);
            let instruction = within_first(later(later(parts)));
            let code = later(instruction);
            if first_text(instruction) == "cas"
                && first_text(code) == array
                && let Some(help) = help_in(code, parts)
                && help.is_of(columns, column)
            {
                return Some(help);
            }
        }
    }
    None
}

/// The column in which a point posts the number of the client; empty if it posts it in none.
fn posted_by<'a>(
    alloc: Global,
    object: &Object<'a>,
    point: &Point<'a>,
) -> Result<&'a str, OutOfMemory> {
    if point.word != "cas" {
        return Ok("");
    }
    let new = within_first(later(later(later(point.code))));
    let columns = object.columns_of(first_text(point.code));
    for (column, term) in each_cell(columns, new) {
        if printed(alloc, term)?.as_str() == POSTED {
            return Ok(column);
        }
    }
    Ok("")
}

/// The column in which a help keeps what it finds in a cell of its row at an index; empty if it keeps it in none.
fn keeper_of<'a>(
    alloc: Global,
    columns: Cursor<'a>,
    help: Help<'a>,
    index: &str,
    cell: &str,
) -> Result<&'a str, OutOfMemory> {
    for column in each_item(columns) {
        let name = first_text(items_within(column));
        if cell_at(alloc, name, index)?.as_str() == cell {
            return Ok(help.kept_in(columns, help.local(columns, name)));
        }
    }
    Ok("")
}

/// Appends what the replies of a call are that another client has done, as the cells in which these are kept.
fn push_replies<'a>(
    alloc: Global,
    claims: &mut Vec<String>,
    object: &Object<'a>,
    help: Help<'a>,
    branch: Branch<'a>,
    index: &str,
) -> Result<(), OutOfMemory> {
    let columns = object.columns_of(first_text(help.code));
    for (place, reply) in each_numbered(branch.replies) {
        let reply = printed(alloc, reply)?;
        let Some(cell) = tied_to(&object.claims, &reply) else {
            continue;
        };
        let kept = keeper_of(alloc, columns, help, index, cell)?;
        if !kept.is_empty() {
            let kept = cell_at(alloc, kept, index)?;
            claims.push(holds(alloc, reply_column(place, false), "self", &kept)?)?;
        }
    }
    Ok(())
}

/// What holds if another client has done the call that was posted in a column.
fn done_by_other<'a>(
    alloc: Global,
    body: Body<'a, '_>,
    help: Help<'a>,
    column: &str,
    index: &str,
) -> Result<Vec<String>, OutOfMemory> {
    let columns = body.object.columns_of(first_text(help.code));
    let mut claims = Vec::new(alloc);
    claims.push(holds(alloc, "pend", "self", "2")?)?;
    let keeper = help.kept_in(columns, help.local(columns, column));
    if !keeper.is_empty() {
        claims.push(holds(alloc, keeper, index, POSTED)?)?;
    }
    if let Some(operation) = body.operations.named(first_text(later(help.call)))
        && let Some(branch) = operation.only_branch(Cursor::empty())
    {
        push_replies(alloc, &mut claims, body.object, help, branch, index)?;
    }
    Ok(claims)
}

/// That the call of the client is not posted in a column.
fn is_unposted(alloc: Global, column: &str, index: &str) -> Result<String, OutOfMemory> {
    let posted = holds(alloc, column, index, POSTED)?;
    negated(alloc, &posted)
}

/// Appends what is known after a call was posted: if it stands there no more, it is done.
pub(crate) fn push_posted(
    alloc: Global,
    told: &mut Vec<Fact>,
    seen: Seen<'_, '_>,
) -> Result<(), OutOfMemory> {
    let object = seen.body.object;
    if seen.edge.word != "then" || !object.is_helped {
        return Ok(());
    }
    let column = posted_by(alloc, object, seen.point)?;
    let Some(help) = help_for(object, first_text(seen.point.code), column) else {
        return Ok(());
    };
    let index = seen.point.index(alloc)?;
    for claim in done_by_other(alloc, seen.body, help, column, &index)? {
        let premise = is_unposted(alloc, column, &index)?;
        told.push(Fact::under(alloc, premise, claim, Basis::Posted))?;
    }
    Ok(())
}

/// What is known before a call is posted: that it is not.
pub(crate) fn unposted<'a>(
    alloc: Global,
    body: Body<'a, '_>,
    points: &[Point<'a>],
) -> Result<Vec<Fact>, OutOfMemory> {
    let mut facts = Vec::new(alloc);
    if !body.object.is_helped {
        return Ok(facts);
    }
    for point in points {
        let column = posted_by(alloc, body.object, point)?;
        if help_for(body.object, first_text(point.code), column).is_some() {
            let index = point.index(alloc)?;
            let claim = is_unposted(alloc, column, &index)?;
            facts.push(Fact::plain(alloc, claim))?;
        }
    }
    Ok(facts)
}

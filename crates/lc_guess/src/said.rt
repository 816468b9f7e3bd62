//! Terms of the code and of the specification, said as an action says them.
use crate::formula::MARKS;
use crate::stores::{Held, Stored, Stores};
use crate::text::{each_item, first_part, first_text, items_within, later, place_of};
use lc_base::OutOfMemory;
use lc_reading::{NameTable, Part, next_part};
use lc_sexp::{Cursor, Item};
use std::alloc::Global;

/// An action has at most this many parameters.
pub(crate) const PARAMETERS: usize = 3;

/// A local that is known to be a cell, whose index is an atom.
#[derive(Clone, Copy)]
pub(crate) struct KnownCell<'a> {
    pub(crate) name: &'a str,
    pub(crate) column: &'a str,
    pub(crate) index: &'a str,
}

/// What is given for a name.
#[derive(Drop)]
pub(crate) struct Given<'a> {
    pub(crate) name: &'a str,
    pub(crate) text: String,
}

/// How names are said.
#[derive(Drop)]
pub(crate) struct Scope<'a, 'b> {
    alloc: Global,
    /// What was stored before it.
    stores: Stores<'a>,
    pub(crate) arguments: Cursor<'a>,
    /// The client whose call has the arguments.
    pub(crate) client: String,
    pub(crate) locals: &'b NameTable<'a>,
    pub(crate) known: Vec<KnownCell<'a>>,
    pub(crate) given: Vec<Given<'a>>,
    /// The locals that have another number afterwards, of which it is not known which.
    pub(crate) lost: Vec<&'a str>,
    /// Whether one of them was to be said, or more locals than an action has parameters.
    pub(crate) is_unsaid: bool,
    /// Whether the instruction stores something, where it is tried what marks do.
    pub(crate) stores_here: Option<bool>,
    /// Whether a cell of which it is not known whether something was stored in it is said as it was before.
    pub(crate) is_tried: bool,
    /// The locals that were said, which become parameters.
    pub(crate) used: Vec<&'a str>,
}

/// The system's column of an argument, by its place.
fn argument_column(place: usize) -> &'static str {
    match place {
        0 => "arg1",
        1 => "arg2",
        _ => "arg3",
    }
}

impl<'a, 'b> Scope<'a, 'b> {
    /// A scope of a client's call with these arguments, in which nothing is known of locals.
    pub(crate) fn new(
        alloc: Global,
        arguments: Cursor<'a>,
        client: &str,
        locals: &'b NameTable<'a>,
        is_tried: bool,
    ) -> Result<Scope<'a, 'b>, OutOfMemory> {
        Ok(Scope {
            alloc,
            stores: Stores::new(alloc),
            arguments,
            client: String::from_str(alloc, client)?,
            locals,
            known: Vec::new(alloc),
            given: Vec::new(alloc),
            lost: Vec::new(alloc),
            is_unsaid: false,
            stores_here: None,
            is_tried,
            used: Vec::new(alloc),
        })
    }

    /// Says cells as they are after these stores.
    pub(crate) fn set_stores(&mut self, stores: Stores<'a>) {
        self.stores = stores;
    }

    /// Notes that a local was said.
    fn note(&mut self, name: &'a str) -> Result<(), OutOfMemory> {
        if self.lost.contains(&name) {
            self.is_unsaid = true;
        }
        if self.used.contains(&name) {
            return Ok(());
        }
        if self.used.len() < PARAMETERS {
            self.used.push(name)?;
        } else {
            self.is_unsaid = true;
        }
        Ok(())
    }

    /// The cell that a local is known to be.
    fn known(&self, name: &str) -> Option<KnownCell<'a>> {
        for known in &self.known {
            if known.name == name {
                return Some(*known);
            }
        }
        None
    }

    /// Writes an argument, the client, or what is given for a name, and reports whether it is one of them.
    fn write_given(&self, out: &mut String, name: &str) -> Result<bool, OutOfMemory> {
        if let Some(place) = place_of(self.arguments, name) {
            out.push_str("(rd ")?;
            out.push_str(argument_column(place))?;
            out.push_str(" ")?;
            out.push_str(&self.client)?;
            out.push_str(")")?;
            return Ok(true);
        }
        if name == "self" {
            out.push_str(&self.client)?;
            return Ok(true);
        }
        for given in &self.given {
            if given.name == name {
                out.push_str(&given.text)?;
                return Ok(true);
            }
        }
        Ok(false)
    }

    /// Writes a name that is no known cell.
    fn write_plain(&mut self, out: &mut String, name: &'a str) -> Result<(), OutOfMemory> {
        if self.write_given(out, name)? {
            return Ok(());
        }
        if self.locals.contains(name) {
            self.note(name)?;
        }
        out.push_str(name)?;
        Ok(())
    }

    /// Writes a name.
    fn write_name(&mut self, out: &mut String, name: &'a str) -> Result<(), OutOfMemory> {
        let Some(known) = self.known(name) else {
            return self.write_plain(out, name);
        };
        out.push_str("(rd ")?;
        out.push_str(known.column)?;
        out.push_str(" ")?;
        self.write_plain(out, known.index)?;
        out.push_str(")")?;
        Ok(())
    }

    /// Writes a list with these items, which are said already: of a cell in which something was stored, what was.
    fn write_list(&mut self, out: &mut String, items: &str) -> Result<(), OutOfMemory> {
        let cell = items
            .strip_prefix("rd ")
            .and_then(|cell| cell.split_once(" "));
        if let Some((column, index)) = cell {
            match self.stores.held(column, index) {
                Held::Before => {}
                Held::Unknown if self.is_tried => {}
                Held::Stored(value) => {
                    out.push_str(value)?;
                    return Ok(());
                }
                Held::Unknown => self.is_unsaid = true,
            }
        }
        out.push_str("(")?;
        out.push_str(items)?;
        out.push_str(")")?;
        Ok(())
    }

    /// An item as it is said.
    pub(crate) fn said(&mut self, part: Part<'a>) -> Result<String, OutOfMemory> {
        let mut out = String::new(self.alloc);
        match part.item() {
            Item::Atom(atom) => self.write_name(&mut out, atom.text())?,
            Item::List(inside) => {
                let items = said_row(self, inside)?;
                self.write_list(&mut out, &items)?;
            }
        }
        Ok(out)
    }

    /// The first of these items as it is said; nothing if there is none.
    pub(crate) fn said_first(&mut self, list: Cursor<'a>) -> Result<String, OutOfMemory> {
        match first_part(list) {
            Some(part) => self.said(part),
            None => Ok(String::new(self.alloc)),
        }
    }

    /// What an update `(COLUMN INDEX VALUE)` with these items stores.
    pub(crate) fn said_update(&mut self, update: Cursor<'a>) -> Result<Stored<'a>, OutOfMemory> {
        let behind = later(update);
        Ok(Stored {
            column: first_text(update),
            index: self.said_first(behind)?,
            value: self.said_first(later(behind))?,
        })
    }

    /// Whether a local is known to be a cell, whose index is no local.
    pub(crate) fn is_cell(&self, name: &str) -> bool {
        match self.known(name) {
            Some(known) => !self.lost.contains(&name) && !self.locals.contains(known.index),
            None => false,
        }
    }

    /// Writes a word of a text in which all locals are parameters or cells.
    fn write_word(&self, out: &mut String, word: &str) -> Result<(), OutOfMemory> {
        match self.known(word) {
            Some(known) if self.is_cell(word) => {
                out.push_str("(rd ")?;
                out.push_str(known.column)?;
                out.push_str(" ")?;
                if !self.write_given(out, known.index)? {
                    out.push_str(known.index)?;
                }
                out.push_str(")")?;
            }
            _ => {
                if !self.write_given(out, word)? {
                    out.push_str(word)?;
                }
            }
        }
        Ok(())
    }

    /// Writes a text in which all locals are parameters or cells. The word behind `rd` is a column.
    pub(crate) fn write_text(&self, out: &mut String, text: &str) -> Result<(), OutOfMemory> {
        let mut is_column = false;
        for piece in text.split_inclusive(MARKS) {
            let word = piece.trim_end_matches(MARKS);
            if is_column {
                out.push_str(word)?;
            } else {
                self.write_word(out, word)?;
            }
            is_column = word == "rd";
            if let Some(mark) = piece.strip_prefix(word) {
                out.push_str(mark)?;
            }
        }
        Ok(())
    }
}

/// Items in a row as they are said.
fn said_row<'a>(scope: &mut Scope<'a, '_>, list: Cursor<'a>) -> Result<String, OutOfMemory> {
    let mut out = String::new(scope.alloc);
    let mut rest = list;
    let mut is_first = true;
    'items: loop {
        let Ok(part) = next_part(&mut rest) else {
            return Ok(out);
        };
        if !is_first {
            out.push_str(" ")?;
        }
        is_first = false;
        match part.item() {
            Item::Atom(atom) => scope.write_name(&mut out, atom.text())?,
            Item::List(inside) => {
                let items = said_row(scope, inside)?;
                scope.write_list(&mut out, &items)?;
            }
        }
    }
}

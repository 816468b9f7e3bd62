//! What is looked at of an object.
use crate::changes::{Change, Column, find_columns, is_of_bits, may_grow, stores_bits};
use crate::text::{
    each_item, first_part, first_text, items_within, later, mentions, printed, printed_first,
    push_each, push_parts,
};
use lc_base::OutOfMemory;
use lc_reading::{NameTable, Part, behind_word, next_part};
use lc_sexp::{Cursor, Item};
use std::alloc::Global;

/// How many claims of the invariant are looked at, and how long they may be.
const MOST_CLAIMS: usize = 64;

const LONGEST_CLAIM: usize = 256;

/// How many formulas of idle clients are looked at.
const MOST_ATOMS: usize = 8;

/// An object.
pub(crate) struct Object<'a> {
    pub(crate) parts: Cursor<'a>,
    /// How the cells of its arrays are changed.
    changes: Vec<Column<'a>>,
    arrays: NameTable<'a>,
    /// The columns of each array: `(COL A B) ..`.
    columns: Vec<Cursor<'a>>,
    /// What the invariant claims, one after the other, of the beginning of it.
    pub(crate) claims: Vec<String>,
    /// The equations in it that speak of no bound variable.
    pub(crate) equations: Vec<String>,
    /// What it leaves open.
    pub(crate) choices: Vec<Choice>,
    /// What it claims where something holds.
    pub(crate) implied: Vec<Implied>,
    /// The claims for all numbers, `V F`, of the beginning of it.
    pub(crate) general: Vec<Cursor<'a>>,
    /// What holds of idle clients.
    pub(crate) idle: Vec<String>,
    /// Of what holds of idle clients, what is no connective of others.
    pub(crate) idle_atoms: Vec<String>,
    /// The names of the actions that it declares.
    pub(crate) actions: NameTable<'a>,
    /// Whether clients mark calls of others.
    pub(crate) is_helped: bool,
}

impl Drop for Object<'_> {
    fn drop(self) {
        let Object {
            parts: _,
            changes: _,
            arrays: _,
            columns: _,
            claims: _,
            equations: _,
            choices: _,
            implied: _,
            general: _,
            idle: _,
            idle_atoms: _,
            actions: _,
            is_helped: _,
        } = self;
    }
}

/// A formula `(or A B ..)`.
#[derive(Drop)]
pub(crate) struct Choice {
    pub(crate) first: String,
    pub(crate) text: String,
}

/// What is claimed where a premise holds.
#[derive(Drop)]
pub(crate) struct Implied {
    pub(crate) premise: String,
    pub(crate) claims: Vec<String>,
}

/// Appends what a conjunct `(NAME F)` claims where a premise holds.
fn push_implied(
    alloc: Global,
    implied: &mut Vec<Implied>,
    conjunct: Part<'_>,
) -> Result<(), OutOfMemory> {
    for formula in each_item(later(items_within(conjunct))) {
        if let Ok(parts) = behind_word(formula, "=>")
            && let Some(claim) = first_part(later(parts))
            && implied.len() < MOST_CLAIMS
        {
            let mut claims = Vec::new(alloc);
            push_parts(alloc, &mut claims, claim)?;
            implied.push(Implied {
                premise: printed_first(alloc, parts)?,
                claims,
            })?;
        }
    }
    Ok(())
}

/// Appends what a conjunct `(NAME F)` leaves open.
fn push_choices(
    alloc: Global,
    choices: &mut Vec<Choice>,
    conjunct: Part<'_>,
) -> Result<(), OutOfMemory> {
    for formula in each_item(later(items_within(conjunct))) {
        if let Ok(parts) = behind_word(formula, "or")
            && choices.len() < MOST_CLAIMS
        {
            choices.push(Choice {
                first: printed_first(alloc, parts)?,
                text: printed(alloc, formula)?,
            })?;
        }
    }
    Ok(())
}

/// Appends the equations in these formulas that speak of no bound variable.
fn push_equations(
    alloc: Global,
    equations: &mut Vec<String>,
    formulas: Cursor<'_>,
) -> Result<(), OutOfMemory> {
    let mut rest = formulas;
    'items: loop {
        let Ok(part) = next_part(&mut rest) else {
            return Ok(());
        };
        if let Item::List(inside) = part.item() {
            match first_text(inside) {
                "=" if equations.len() < MOST_CLAIMS => equations.push(printed(alloc, part)?)?,
                "=" | "forall" | "exists" => {}
                _ => push_equations(alloc, equations, inside)?,
            }
        }
    }
}

/// Appends the formulas in these that are no connective of others.
fn push_atoms(
    alloc: Global,
    atoms: &mut Vec<String>,
    formulas: Cursor<'_>,
) -> Result<(), OutOfMemory> {
    let mut rest = formulas;
    'items: loop {
        let Ok(part) = next_part(&mut rest) else {
            return Ok(());
        };
        if let Item::List(inside) = part.item() {
            match first_text(inside) {
                "and" | "or" | "=>" => push_atoms(alloc, atoms, inside)?,
                "=" | "<=" | "not" if atoms.len() < MOST_ATOMS => {
                    atoms.push(printed(alloc, part)?)?
                }
                _ => {}
            }
        }
    }
}

/// Appends what a conjunct `(NAME F)` claims for all numbers.
fn push_general<'a>(general: &mut Vec<Cursor<'a>>, conjunct: Part<'a>) -> Result<(), OutOfMemory> {
    for formula in each_item(later(items_within(conjunct))) {
        if let Ok(claim) = behind_word(formula, "forall")
            && general.len() < MOST_CLAIMS
        {
            general.push(claim)?;
        }
    }
    Ok(())
}

/// Appends what a conjunct `(NAME F)` claims.
fn push_claims(
    alloc: Global,
    claims: &mut Vec<String>,
    conjunct: Part<'_>,
) -> Result<(), OutOfMemory> {
    let mut parts = Vec::new(alloc);
    for formula in each_item(later(items_within(conjunct))) {
        push_parts(alloc, &mut parts, formula)?;
    }
    for part in parts {
        if claims.len() < MOST_CLAIMS && part.len() <= LONGEST_CLAIM {
            claims.push(part)?;
        }
    }
    Ok(())
}

impl<'a> Object<'a> {
    /// The object with these parts.
    pub(crate) fn new(alloc: Global, parts: Cursor<'a>) -> Result<Object<'a>, OutOfMemory> {
        let mut arrays = NameTable::new(alloc);
        let mut columns = Vec::new(alloc);
        let mut claims = Vec::new(alloc);
        let mut equations = Vec::new(alloc);
        let mut choices = Vec::new(alloc);
        let mut implied = Vec::new(alloc);
        let mut general = Vec::new(alloc);
        let mut idle = Vec::new(alloc);
        let mut idle_atoms = Vec::new(alloc);
        let mut actions = NameTable::new(alloc);
        for part in each_item(parts) {
            let inside = items_within(part);
            let behind = later(inside);
            match first_text(inside) {
                "array" => {
                    arrays = arrays.enter(first_text(behind))?;
                    columns.push(later(behind))?;
                }
                "action" => actions = actions.enter(first_text(behind))?,
                "idle" => {
                    push_each(alloc, &mut idle, behind)?;
                    push_atoms(alloc, &mut idle_atoms, behind)?;
                }
                "invariant" => {
                    push_equations(alloc, &mut equations, behind)?;
                    for conjunct in each_item(behind) {
                        push_claims(alloc, &mut claims, conjunct)?;
                        push_choices(alloc, &mut choices, conjunct)?;
                        push_implied(alloc, &mut implied, conjunct)?;
                        push_general(&mut general, conjunct)?;
                    }
                }
                _ => {}
            }
        }
        let is_helped = mentions(parts, "lin-other") || mentions(parts, "lin-other-by");
        Ok(Object {
            parts,
            changes: find_columns(alloc, parts)?,
            arrays,
            columns,
            claims,
            equations,
            choices,
            implied,
            general,
            idle,
            idle_atoms,
            actions,
            is_helped,
        })
    }

    /// The columns of the array of a name.
    pub(crate) fn columns_of(&self, name: &str) -> Cursor<'a> {
        match self.arrays.place(name) {
            Some(place) => match self.columns.get(place) {
                Some(columns) => *columns,
                None => Cursor::empty(),
            },
            None => Cursor::empty(),
        }
    }

    /// How the cells of a column of an array are changed.
    pub(crate) fn change(&self, name: &str) -> Change {
        for column in &self.changes {
            if column.name == name {
                return column.change;
            }
        }
        Change::Other
    }

    /// Whether a sum is stored in a column, or something added.
    pub(crate) fn may_grow(&self, name: &str) -> bool {
        may_grow(self.parts, &self.changes, name)
    }

    /// Whether each cell of a column of an array is 0 or 1.
    pub(crate) fn stores_bits(&self, name: &str) -> bool {
        stores_bits(self.parts, name)
    }

    /// Whether each cell of a column is 0 or 1.
    pub(crate) fn is_of_bits(&self, name: &str) -> bool {
        is_of_bits(self.parts, name)
    }

    /// The names of its auxiliary columns: `(COL A B) ..`.
    pub(crate) fn auxiliary(&self) -> Cursor<'a> {
        for part in each_item(self.parts) {
            let inside = items_within(part);
            if first_text(inside) == "aux" {
                return later(inside);
            }
        }
        Cursor::empty()
    }
}

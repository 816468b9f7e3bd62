//! By which names columns and free variables are shown.
use crate::naming::point_at;
use lc_base::{ColId, Name, OutOfMemory};
use lc_cond::{Condition, Passage};
use lc_outline::{Parts, column_names};
use lc_text::Spelling;
use std::alloc::Global;

/// The names of columns and of free variables, by their numbers. A variable whose name is empty is shown by its number.
pub(crate) struct Names<'a> {
    pub variables: Vec<&'a str>,
    pub columns: Vec<&'a str>,
}

impl Drop for Names<'_> {
    fn drop(self) {
        let Names {
            variables: _,
            columns: _,
        } = self;
    }
}

impl Spelling for Names<'_> {
    ghost use Rattle.lc_explain_cert.specs.Names.{spelled};

    ghost spelled = { λ names. spelled names };

    fn variable(&self, out: &mut String, number: u32) -> Result<(), OutOfMemory> {
        match self.variables.get(number as usize) {
            Some(name) if !name.is_empty() => out.push_str(name)?,
            _ => write!(out, "?{number}")?,
        }
        Ok(())
    }

    fn column(&self, out: &mut String, column: ColId) -> Result<(), OutOfMemory> {
        if let Some(name) = self.columns.get(column.0 as usize) {
            out.push_str(name)?;
        }
        Ok(())
    }
}

/// A name more, unless another variable has it.
fn push_name<'a>(names: &mut Vec<&'a str>, name: &'a str) -> Result<(), OutOfMemory> {
    if names.iter().any(|other| *other == name) {
        names.push("")?;
    } else {
        names.push(name)?;
    }
    Ok(())
}

/// Appends these names to the others.
fn push_names<'a>(names: &mut Vec<&'a str>, more: &'a [Name]) -> Result<(), OutOfMemory> {
    for name in more {
        push_name(names, name.as_str())?;
    }
    Ok(())
}

/// The names of the variables of a condition: the number of clients and a client, arguments and locals of the body that it is about,
/// and, if another client acts, that one and the parameters of its action.
fn variable_names<'a>(
    alloc: Global,
    parts: &'a Parts,
    condition: &Condition,
) -> Result<Vec<&'a str>, OutOfMemory> {
    let mut names = Vec::new(alloc);
    push_name(&mut names, "N")?;
    push_name(&mut names, "self")?;
    let object = parts.object.parts();
    let point = condition.place.point.and_then(|id| point_at(parts, id));
    if let Some(operation) = point.and_then(|it| object.operations.get(it.operation.0 as usize)) {
        push_names(&mut names, &operation.arguments)?;
        push_names(&mut names, &operation.locals)?;
    }
    if let Passage::Action(place) = condition.place.passage {
        push_name(&mut names, "u")?;
        if let Some(action) = parts.actions.get(place) {
            push_names(&mut names, &action.params)?;
        }
    }
    Ok(names)
}

impl<'a> Names<'a> {
    /// The names by which a condition of a development is shown: if it is about no client, it has no variable for one.
    pub(crate) fn of_condition(
        alloc: Global,
        parts: &'a Parts,
        condition: &Condition,
    ) -> Result<Names<'a>, OutOfMemory> {
        let mut variables = variable_names(alloc, parts, condition)?;
        variables.truncate(condition.goal.vars as usize);
        Ok(Names {
            variables,
            columns: column_names(alloc, parts)?,
        })
    }

    /// The names of variables, each with the number that proofs use for it.
    pub(crate) fn push_variables(&self, text: &mut String) -> Result<(), OutOfMemory> {
        let mut begun = false;
        for (number, name) in self.variables.iter().enumerate() {
            if name.is_empty() {
                continue;
            }
            let before = if begun { ", " } else { "  in proofs " };
            write!(text, "{before}?{number} is {name}")?;
            begun = true;
        }
        if begun {
            text.push_str("\n")?;
        }
        Ok(())
    }
}

//! The state in which the search for a proof of a goal ended.
ghost use Rattle.lc_table.specs.Tables.{IsFormula, AreFormulas};

use crate::after::push_decisive;
use crate::looked::broken_hypothesis;
use crate::names::Names;
use lc_base::OutOfMemory;
use lc_cond::Kind;
use lc_copy::{formula_tree, formula_trees};
use lc_kernel::Goal;
use lc_proof_state::{Failing, Numbered, Told, content_words, tell, words_of};
use lc_search::{Counted, CounterModel};
use lc_table::Terms;
use lc_term::{ColExpr, Term};
use lc_text::write_term;
use std::alloc::Global;

/// The numbers that are whole and fit 64 bits.
fn whole_numbers(alloc: Global, numbers: &[Counted]) -> Result<Vec<Numbered>, OutOfMemory> {
    let mut whole = Vec::new(alloc);
    for counted in numbers {
        if let (1, Ok(number)) = (counted.denominator, i64::try_from(counted.numerator)) {
            let term = counted.term.try_clone(alloc)?;
            whole.push(Numbered { term, number })?;
        }
    }
    Ok(whole)
}

/// A term and its number, as the search reported it, in a line.
fn push_counted(
    text: &mut String,
    names: &Names<'_>,
    counted: &Counted,
) -> Result<(), OutOfMemory> {
    let (numerator, denominator) = (counted.numerator, counted.denominator);
    text.push_str("    ")?;
    write_term(text, names, 0, &counted.term)?;
    if denominator == 1 {
        writeln!(text, " is {numerator}")?;
    } else {
        writeln!(text, " is {numerator}/{denominator}")?;
    }
    Ok(())
}

/// The numbers of a model, as the search reported them.
fn push_model(
    text: &mut String,
    names: &Names<'_>,
    model: &CounterModel,
) -> Result<(), OutOfMemory> {
    for counted in &model.numbers {
        push_counted(text, names, counted)?;
    }
    Ok(())
}

/// A term and its number, in a line.
pub(crate) fn push_number(
    text: &mut String,
    names: &Names<'_>,
    term: &Term,
    number: i64,
) -> Result<(), OutOfMemory> {
    text.push_str("    ")?;
    write_term(text, names, 0, term)?;
    writeln!(text, " is {number}")?;
    Ok(())
}

/// The numbers of the `variables` variables of a goal, of those of its `forall`s and of the cells of a state.
fn push_told(
    alloc: Global,
    text: &mut String,
    names: &Names<'_>,
    variables: u32,
    told: &Told,
) -> Result<(), OutOfMemory> {
    let situation = &told.situation;
    for variable in 0..variables {
        if let Some(number) = situation.env.values.get(variable as usize) {
            push_number(text, names, &Term::Variable(variable), *number)?;
        }
    }
    for (place, number) in told.numbers.iter().enumerate() {
        writeln!(text, "    in the goal b{place} is {number}")?;
    }
    for cell in &situation.cells {
        let read = Term::read(alloc, ColExpr::Base(cell.column), Term::Number(cell.index))?;
        push_number(text, names, &read, cell.value)?;
    }
    writeln!(text, "    {}", content_words(situation.content))?;
    Ok(())
}

/// The numbers of a model of the goal of a condition of this kind: as a state, with what decides there that the goal fails, if it does and no
/// hypothesis with quantifiers is seen not to hold; else as the search reported them.
pub(crate) fn model_text(
    alloc: Global,
    names: &Names<'_>,
    terms: &Terms,
    kind: Kind,
    goal: &Goal,
    model: &CounterModel,
) -> Result<String, OutOfMemory>
    requires hypotheses { AreFormulas terms.now goal.now.hypotheses }
    requires goal { IsFormula terms.now goal.now.goal }
{
    let hypotheses = formula_trees(terms, alloc, goal.hypotheses.as_slice())?;
    let claim = formula_tree(terms, alloc, goal.goal)?;
    let numbers = whole_numbers(alloc, &model.numbers)?;
    let columns = u32::try_from(names.columns.len()).unwrap_or(0);
    let witnesses = &model.witnesses;
    let told = tell(
        alloc,
        columns,
        goal.vars,
        &numbers,
        witnesses,
        &hypotheses,
        &claim,
    )?;
    let mut text = String::new(alloc);
    if told.failing == Failing::Unknown {
        writeln!(text, "  {}:", words_of(Failing::Unknown))?;
        push_model(&mut text, names, model)?;
        return Ok(text);
    }
    if let Some(place) = broken_hypothesis(alloc, &told, &hypotheses)? {
        let words = words_of(Failing::Unknown);
        writeln!(text, "  {words} (hypothesis {place} does not hold there):")?;
        push_model(&mut text, names, model)?;
        return Ok(text);
    }
    writeln!(text, "  {}:", words_of(told.failing))?;
    push_told(alloc, &mut text, names, goal.vars, &told)?;
    push_decisive(alloc, &mut text, names, kind, &told)?;
    Ok(text)
}

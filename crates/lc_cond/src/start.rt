//! The conditions at the start.
ghost use Rattle.std.specs.Prelude.{◌≡◌, [], ◌∷◌, map, pos, None, IfOk, OnOk};
ghost use Rattle.lc_put.specs.Put.{column_by_number};
ghost use Rattle.lc_term.specs.Replacement.{replace, replacing};
ghost use Rattle.lc_term.specs.Syntax.{Number, Variable, Le};
ghost use Rattle.lc_table.specs.Tables.{Keeps};
ghost use Rattle.lc_term.specs.View.{column_of, formulas_of};
ghost use Rattle.lc_outline.specs.Development.{invariant_of};
ghost use Rattle.lc_outline.specs.DevelopmentView.{development_view};
ghost use Rattle.lc_cond.specs.Adding.{HasFormulas, Adds};
ghost use Rattle.lc_cond.specs.Conditions as S;
ghost use Rattle.lc_cond.specs.Conditions.{at_start, conditions_of, start_conditions};

use crate::condition::{Condition, Kind, Passage};
use crate::entering::{entered, entered_invariant};
use crate::known::range;
use crate::lookup::idle_of;
use crate::making::Head;
use crate::telling::push_all_told;
use lc_base::OutOfMemory;
use lc_kernel::Hypotheses;
use lc_outline::Development;
use lc_put::{Put, PutColumns, PutVariables};
use lc_table::{FormulaId, Terms};
use lc_term::{ColExpr, Formula, Term};
use std::alloc::Global;

// What the conditions of a kind at the start share.
fn at_start(kind: Kind, variables: u32) -> Head
    ensures { result ≡ record { kind = kind; variables = variables; point = None; passage = Passage.Nothing; path = None } }
{
    Head {
        kind,
        variables,
        point: None,
        passage: Passage::Nothing,
        path: None,
    }
}

// There are no fewer than 0 clients.
fn counted(alloc: Global) -> Result<Vec<Formula>, OutOfMemory>
    ensures { IfOk result (λ fs. formulas_of fs.items ≡ Le (Number (pos 0)) (Variable 0) ∷ []) }
{
    let mut formulas = Vec::with_capacity(alloc, 1)?;
    formulas.push(Formula::Le(Term::Number(0), Term::Variable(0)))?;
    Ok(formulas)
}

// The number of clients, entered.
fn entered_count(alloc: Global, terms: &mut Terms) -> Result<Vec<FormulaId>, OutOfMemory>
    ensures list { IfOk result (λ ks. HasFormulas terms.new ks.items (Le (Number (pos 0)) (Variable 0) ∷ [])) }
    ensures kept { Keeps terms.old terms.new }
{
    let formulas = counted(alloc)?;
    entered(alloc, terms, &formulas)
}

// The invariant holds in these columns.
#[tactic(auto, using(lc_table::proofs::Later::kept_on))]
fn push_init(
    alloc: Global,
    terms: &mut Terms,
    development: &Development,
    columns: &[ColExpr],
    conditions: &mut Vec<Condition>,
) -> Result<(), OutOfMemory>
    ensures list { OnOk result (Adds conditions.old.items terms.new conditions.new.items
        (conditions_of (at_start S.Init 1) (Le (Number (pos 0)) (Variable 0) ∷ [])
        (map (replace (replacing (column_by_number (map column_of columns.now)) Variable)) (invariant_of (development_view development.now))))) }
    ensures kept { Keeps terms.old terms.new }
{
    let put = Put {
        columns: PutColumns::All(columns),
        variables: PutVariables::Own,
    };
    let count = entered_count(alloc, terms)?;
    let known = Hypotheses::new(count)?;
    let invariant = entered_invariant(alloc, terms, &development.parts().tie)?;
    let head = at_start(Kind::Init, 1);
    push_all_told(alloc, terms, head, &put, &known, &invariant, conditions)
}

// What holds of idle clients holds of each client in these columns.
#[tactic(auto, using(lc_table::proofs::Later::kept_on))]
fn push_init_idle(
    alloc: Global,
    terms: &mut Terms,
    development: &Development,
    columns: &[ColExpr],
    conditions: &mut Vec<Condition>,
) -> Result<(), OutOfMemory>
    ensures list { OnOk result (Adds conditions.old.items terms.new conditions.new.items
        (conditions_of (at_start S.InitIdle 2) (S.range (Variable 1))
        (map (replace (replacing (column_by_number (map column_of columns.now)) Variable)) (development_view development.now).idle))) }
    ensures kept { Keeps terms.old terms.new }
{
    let put = Put {
        columns: PutColumns::All(columns),
        variables: PutVariables::Own,
    };
    let ranges = range(alloc, terms, 1)?;
    let known = Hypotheses::new(ranges)?;
    let idle = entered(alloc, terms, idle_of(development))?;
    let head = at_start(Kind::InitIdle, 2);
    push_all_told(alloc, terms, head, &put, &known, &idle, conditions)
}

/// The conditions at the start.
#[tactic(auto, using(lc_table::proofs::Later::kept_on))]
pub(crate) fn push_start(
    alloc: Global,
    terms: &mut Terms,
    development: &Development,
    conditions: &mut Vec<Condition>,
) -> Result<(), OutOfMemory>
    ensures list { OnOk result (Adds conditions.old.items terms.new conditions.new.items (start_conditions (development_view development.now))) }
    ensures kept { Keeps terms.old terms.new }
{
    let columns = development.parts().tie.initial_columns(alloc)?;
    push_init(alloc, terms, development, &columns, conditions)?;
    push_init_idle(alloc, terms, development, &columns, conditions)
}

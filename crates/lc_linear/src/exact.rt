//! Forms made part by part, each part's form before the sum, difference or product that it is in. `Large` is
//! returned exactly if one of them does not fit.
//!
//! The parts of a node have smaller numbers than it, so forms are made in the order of the nodes' numbers: what is shared in
//! a table is made once, and a deep term takes nothing of the stack. When a part is used for the last time its form is
//! taken, and before that a copy of it, so that no forms pile up.
ghost use Rattle.std.specs.Prelude.{◌≡◌, IfOk, IfSome};
ghost use Rattle.std.specs.List.{All};
ghost use Rattle.lc_term.specs.Syntax as S;
ghost use Rattle.lc_table.specs.NodeTables.{Table};
ghost use Rattle.lc_table.specs.Tables.{term_in, IsTerm};
ghost use Rattle.lc_table.specs.declared.node.TermId.{TermId};
ghost use Rattle.lc_linear.specs.Form.{form_of, HasForm, IsLeaf};
ghost use Rattle.lc_linear.specs.LinForm.{numbers, HasNumbers, GivesFormIn};
ghost use Rattle.lc_linear.specs.PartForms.{IsMade, AreMade};

use crate::shared::summands_of;
use crate::{LinFault, LinForm};
use indexmap::IndexMap;
use lc_base::OutOfMemory;
use lc_table::{TermId, TermNode, Terms, numbers_are_exact};
use std::alloc::Global;

#[tactic(auto, using(crate::proofs::PartForms::made_noted))]
pub(crate) fn exact_form(terms: &Terms, alloc: Global, term: TermId) -> Result<LinForm, LinFault>
    requires { IsTerm terms.now term }
    ensures { let t = term_in terms.now term in GivesFormIn terms.now result (HasForm t) (form_of t) }
{
    let mut roots = Vec::new(alloc);
    roots.push(term)?;
    let nodes = summands_of(terms, alloc, roots)?;
    let mut uses = uses_of(terms, alloc, &nodes)?;
    let mut forms = IndexMap::new(alloc);
    for node in &nodes {
        let form = node_form(terms, alloc, &mut forms, &mut uses, *node)?;
        forms.insert(node.0, form)?;
    }
    told(forms.swap_remove(&term.0))
}

// A node is a part once more.
fn note_use(uses: &mut IndexMap<u32, u64>, part: TermId) -> Result<(), OutOfMemory> {
    let before = uses.get(&part.0).copied().unwrap_or(0);
    uses.insert(part.0, before.saturating_add(1))?;
    Ok(())
}

// How often each node is a part of one of these.
fn uses_of(
    terms: &Terms,
    alloc: Global,
    nodes: &[TermId],
) -> Result<IndexMap<u32, u64>, OutOfMemory>
    requires { All (IsTerm terms.now) nodes.now }
{
    let mut uses = IndexMap::new(alloc);
    for node in nodes {
        match terms.term_node(*node) {
            TermNode::Add(left, right) | TermNode::Subtract(left, right) => {
                note_use(&mut uses, left)?;
                note_use(&mut uses, right)?;
            }
            TermNode::Multiply(_, part) => note_use(&mut uses, part)?,
            _ => {}
        }
    }
    Ok(uses)
}

// Whether a node is a part for the last time. It was one once more.
fn is_last_use(uses: &mut IndexMap<u32, u64>, part: TermId) -> Result<bool, OutOfMemory> {
    let left = uses.get(&part.0).copied().unwrap_or(0);
    uses.insert(part.0, left.saturating_sub(1))?;
    Ok(left <= 1)
}

// A form again. Its numbers fit, so that it is never too large.
fn copy_of(alloc: Global, form: &LinForm) -> Result<LinForm, OutOfMemory>
    ensures { IfOk result (λ copy. HasNumbers copy (numbers form.now)) }
{
    match LinForm::zero(alloc).add_scaled(1, form) {
        Ok(copy) => Ok(copy),
        Err(_) => Err(OutOfMemory),
    }
}

// The form that is made of a part, which is there as long as it is used.
fn taken(
    terms: &Terms,
    alloc: Global,
    forms: &mut IndexMap<u32, Option<LinForm>>,
    uses: &mut IndexMap<u32, u64>,
    part: TermId,
) -> Result<Option<LinForm>, OutOfMemory>
    requires { AreMade terms.now forms.old.entries }
    ensures made { IfOk result (IsMade terms.now part) }
    ensures kept { AreMade terms.now forms.new.entries }
{
    let _ = terms;
    if is_last_use(uses, part)? {
        return forms.swap_remove(&part.0).ok_or(OutOfMemory);
    }
    match forms.get(&part.0) {
        Some(Some(form)) => Ok(Some(copy_of(alloc, form)?)),
        Some(None) => Ok(None),
        None => Err(OutOfMemory),
    }
}

// What is made of a node, of what came of its form.
fn made(form: Result<LinForm, LinFault>) -> Result<Option<LinForm>, OutOfMemory>
    ensures { (ts : Table) (k : TermId) → GivesFormIn ts form (HasForm (term_in ts k)) (form_of (term_in ts k)) → IfOk result (IsMade ts k) }
{
    match form {
        Ok(form) => Ok(Some(form)),
        Err(LinFault::Large) => Ok(None),
        Err(LinFault::OutOfMemory) => Err(OutOfMemory),
    }
}

// What came of a form, of what is made.
fn told(made: Option<Option<LinForm>>) -> Result<LinForm, LinFault>
    ensures { (ts : Table) (k : TermId) → IfSome made (IsMade ts k) → GivesFormIn ts result (HasForm (term_in ts k)) (form_of (term_in ts k)) }
{
    match made {
        Some(Some(form)) => Ok(form),
        Some(None) => Err(LinFault::Large),
        None => Err(LinFault::OutOfMemory),
    }
}

fn sum_of(left: Option<LinForm>, right: Option<LinForm>) -> Result<Option<LinForm>, OutOfMemory>
    ensures { (ts : Table) (k l r : TermId) → term_in ts k ≡ S.Add (term_in ts l) (term_in ts r) → IsMade ts l left → IsMade ts r right → IfOk result (IsMade ts k) }
{
    let Some(left) = left else {
        return Ok(None);
    };
    let Some(right) = right else {
        return Ok(None);
    };
    made(left.plus(right))
}

fn difference_of(
    left: Option<LinForm>,
    right: Option<LinForm>,
) -> Result<Option<LinForm>, OutOfMemory>
    ensures { (ts : Table) (k l r : TermId) → term_in ts k ≡ S.Subtract (term_in ts l) (term_in ts r) → IsMade ts l left → IsMade ts r right → IfOk result (IsMade ts k) }
{
    let Some(left) = left else {
        return Ok(None);
    };
    let Some(right) = right else {
        return Ok(None);
    };
    made(left.subtract(&right))
}

fn product_of(
    alloc: Global,
    factor: i64,
    form: Option<LinForm>,
) -> Result<Option<LinForm>, OutOfMemory>
    ensures { (ts : Table) (k l : TermId) → term_in ts k ≡ S.Multiply factor (term_in ts l) → IsMade ts l form → IfOk result (IsMade ts k) }
{
    let Some(form) = form else {
        return Ok(None);
    };
    made(LinForm::zero(alloc).add_scaled(i128::from(factor), &form))
}

// The form of a node, of those of its parts.
fn node_form(
    terms: &Terms,
    alloc: Global,
    forms: &mut IndexMap<u32, Option<LinForm>>,
    uses: &mut IndexMap<u32, u64>,
    node: TermId,
) -> Result<Option<LinForm>, OutOfMemory>
    requires node { IsTerm terms.now node }
    requires forms { AreMade terms.now forms.old.entries }
    ensures made { IfOk result (IsMade terms.now node) }
    ensures forms { AreMade terms.now forms.new.entries }
{
    match terms.term_node(node) {
        TermNode::Number(_) | TermNode::Variable(_) | TermNode::Bound(_) | TermNode::Read(_, _) =>
            made(leaf_form(terms, alloc, node)),
        TermNode::Add(left, right) => {
            let left = taken(terms, alloc, forms, uses, left)?;
            let right = taken(terms, alloc, forms, uses, right)?;
            sum_of(left, right)
        }
        TermNode::Subtract(left, right) => {
            let left = taken(terms, alloc, forms, uses, left)?;
            let right = taken(terms, alloc, forms, uses, right)?;
            difference_of(left, right)
        }
        TermNode::Multiply(factor, part) => {
            let part = taken(terms, alloc, forms, uses, part)?;
            product_of(alloc, factor, part)
        }
        TermNode::Base(_) | TermNode::Store(_, _, _) | TermNode::Affine(_, _) => unreachable!(),
    }
}

// A number alone, or an atom alone.
fn leaf_form(terms: &Terms, alloc: Global, leaf: TermId) -> Result<LinForm, LinFault>
    requires term { IsTerm terms.now leaf }
    requires leaf { IsLeaf (term_in terms.now leaf) }
    ensures { let t = term_in terms.now leaf in GivesFormIn terms.now result (HasForm t) (form_of t) }
{
    let mut form = LinForm::zero(alloc);
    match terms.term_node(leaf) {
        TermNode::Number(number) => {
            form.add_number(i128::from(number))?;
            Ok(form)
        }
        TermNode::Variable(_) | TermNode::Bound(_) | TermNode::Read(_, _) => {
            numbers_are_exact(terms);
            form.add_atom(leaf, 1)?;
            Ok(form)
        }
        TermNode::Add(_, _)
        | TermNode::Subtract(_, _)
        | TermNode::Multiply(_, _)
        | TermNode::Base(_)
        | TermNode::Store(_, _, _)
        | TermNode::Affine(_, _) => unreachable!(),
    }
}

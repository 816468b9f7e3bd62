//! Forms made of terms whose parts are shared, each part once.
//!
//! If a term is put in at many places of another one, the tree has as many copies of it, and the table has one node.
//! So what is owed to a form is kept as multiples of nodes, and taken to their parts from the largest number down: the
//! parts of a node have smaller numbers than it, so all that is owed of a node has come together when its turn comes.
ghost use Rattle.std.specs.Prelude.{◌≡◌, IfOk, IfSome, OnOk};
ghost use Rattle.std.specs.List.{All};
ghost use Rattle.lc_table.specs.Tables.{term_in, IsTerm};
ghost use Rattle.lc_linear.specs.LinForm.{numbers, IsFormIn};
ghost use Rattle.lc_linear.specs.Owed.{owed_in, AreOfTerms, AreWeights, IsLightTotal, StaysTogether, load, total};
ghost use Rattle.lc_linear.specs.Weight.{weight};

use crate::number::product;
use crate::quick::is_light;
use crate::{LinFault, LinForm};
use indexmap::{IndexMap, IndexSet};
use lc_base::OutOfMemory;
use lc_table::{TermId, TermNode, Terms, numbers_are_exact};
use std::alloc::Global;

/// The sum of the multiples of the terms' forms. None if a number on the way may leave 128 bits.
pub(crate) fn shared_form(
    terms: &Terms,
    alloc: Global,
    multiples: &[(TermId, i128)],
) -> Result<Option<LinForm>, OutOfMemory>
    requires { AreOfTerms terms.now multiples.now }
    ensures { IfOk result (λ found. IfSome found (IsLightTotal terms.now multiples.now)) }
{
    let nodes = summands_of(terms, alloc, roots_of(terms, alloc, multiples)?)?;
    let weights = weights_of(terms, alloc, &nodes)?;
    if !is_light(load_of(terms, &weights, multiples)) {
        return Ok(None);
    }
    match light_form(terms, alloc, &nodes, multiples) {
        Ok(form) => Ok(Some(form)),
        Err(LinFault::Large) => Ok(None),
        Err(LinFault::OutOfMemory) => Err(OutOfMemory),
    }
}

fn roots_of(
    terms: &Terms,
    alloc: Global,
    multiples: &[(TermId, i128)],
) -> Result<Vec<TermId>, OutOfMemory>
    requires { AreOfTerms terms.now multiples.now }
    ensures { IfOk result (λ roots. All (IsTerm terms.now) roots.items) }
{
    let _ = terms;
    let mut roots = Vec::new(alloc);
    for (term, _) in multiples {
        roots.push(*term)?;
    }
    Ok(roots)
}

// Puts a term into the list, unless it was met before.
fn note(
    terms: &Terms,
    met: &mut IndexSet<TermId>,
    nodes: &mut Vec<TermId>,
    node: TermId,
) -> Result<(), OutOfMemory>
    requires node { IsTerm terms.now node }
    requires nodes { All (IsTerm terms.now) nodes.old.items }
    ensures { All (IsTerm terms.now) nodes.new.items }
{
    let _ = terms;
    if met.insert(node)? {
        nodes.push(node)?;
    }
    Ok(())
}

// The terms in the list and those that occur in their sums, differences and products, by their numbers.
pub(crate) fn summands_of(
    terms: &Terms,
    alloc: Global,
    roots: Vec<TermId>,
) -> Result<Vec<TermId>, OutOfMemory>
    requires { All (IsTerm terms.now) roots.items }
    ensures { IfOk result (λ nodes. All (IsTerm terms.now) nodes.items) }
{
    let mut met = IndexSet::new(alloc);
    let mut nodes = roots;
    for place in 0..usize::MAX {
        let Some(node) = nodes.get(place).copied() else {
            break;
        };
        match terms.term_node(node) {
            TermNode::Add(left, right) | TermNode::Subtract(left, right) => {
                note(terms, &mut met, &mut nodes, left)?;
                note(terms, &mut met, &mut nodes, right)?;
            }
            TermNode::Multiply(_, part) => note(terms, &mut met, &mut nodes, part)?,
            _ => {}
        }
    }
    nodes.sort_by_key(|node| node.0)?;
    Ok(nodes)
}

// The weight of a term in the list of them.
fn known_weight(terms: &Terms, weights: &IndexMap<TermId, u128>, term: TermId) -> Option<u128>
    requires { AreWeights terms.now weights.now.entries }
    ensures { IfSome result (λ w. w ≡ weight (term_in terms.now term)) }
{
    let _ = terms;
    weights.get(&term).copied()
}

// The weight of a node by those of its parts; none if one of them is not known, or if it leaves 128 bits.
fn weight_by(terms: &Terms, weights: &IndexMap<TermId, u128>, node: TermId) -> Option<u128>
    requires node { IsTerm terms.now node }
    requires weights { AreWeights terms.now weights.now.entries }
    ensures { IfSome result (λ w. w ≡ weight (term_in terms.now node)) }
{
    match terms.term_node(node) {
        TermNode::Number(number) => Some(u128::from(number.unsigned_abs())),
        TermNode::Variable(_) | TermNode::Bound(_) | TermNode::Read(_, _) => Some(1),
        TermNode::Add(left, right) | TermNode::Subtract(left, right) => {
            known_weight(terms, weights, left)?.checked_add(known_weight(terms, weights, right)?)
        }
        TermNode::Multiply(factor, part) => {
            u128::from(factor.unsigned_abs().max(1)).checked_mul(known_weight(
                terms, weights, part,
            )?)
        }
        TermNode::Base(_) | TermNode::Store(_, _, _) | TermNode::Affine(_, _) => unreachable!(),
    }
}

// Puts the weight of a node into the list, if it can be computed.
fn put_weight(
    terms: &Terms,
    weights: &mut IndexMap<TermId, u128>,
    node: TermId,
) -> Result<(), OutOfMemory>
    requires node { IsTerm terms.now node }
    requires weights { AreWeights terms.now weights.old.entries }
    ensures { OnOk result (AreWeights terms.now weights.new.entries) }
{
    let Some(weight) = weight_by(terms, weights, node) else {
        return Ok(());
    };
    weights.insert(node, weight)?;
    Ok(())
}

// The weights of nodes, parts first, as far as they fit 128 bits.
fn weights_of(
    terms: &Terms,
    alloc: Global,
    nodes: &[TermId],
) -> Result<IndexMap<TermId, u128>, OutOfMemory>
    requires { All (IsTerm terms.now) nodes.now }
    ensures { IfOk result (λ weights. AreWeights terms.now weights.entries) }
{
    let mut weights = IndexMap::new(alloc);
    for node in nodes {
        put_weight(terms, &mut weights, *node)?;
    }
    Ok(weights)
}

// A bound of all numbers that go into the sum of the multiples of the terms' forms.
fn load_of(
    terms: &Terms,
    weights: &IndexMap<TermId, u128>,
    multiples: &[(TermId, i128)],
) -> Option<u128>
    requires { AreWeights terms.now weights.now.entries }
    ensures { IfSome result (λ w. w ≡ load terms.now multiples.now) }
{
    let mut sum: u128 = 0;
    for (term, count) in multiples {
        let weight = known_weight(terms, weights, *term)?;
        sum = sum.checked_add(count.unsigned_abs().max(1).checked_mul(weight)?)?;
    }
    Some(sum)
}

// What is owed when nothing is added up yet.
fn owed_of(terms: &Terms, alloc: Global, multiples: &[(TermId, i128)]) -> Result<LinForm, LinFault>
    requires { AreOfTerms terms.now multiples.now }
    ensures { IfOk result (λ owed. (p : _) → owed_in terms.now (numbers owed) p ≡ total terms.now multiples.now p) }
{
    let _ = terms;
    let mut owed = LinForm::zero(alloc);
    for (term, count) in multiples {
        owed.add_atom(*term, *count)?;
    }
    Ok(owed)
}

// Takes what is owed of a node to its parts, or to the form if it has none.
fn settle(
    form: &mut LinForm,
    owed: &mut LinForm,
    terms: &Terms,
    node: TermId,
) -> Result<(), LinFault>
    requires { IsTerm terms.now node }
    ensures { OnOk result (StaysTogether terms.now form.old owed.old form.new owed.new) }
{
    let count = owed.coefficient(node);
    owed.subtract_atom(node, count)?;
    match terms.term_node(node) {
        TermNode::Number(number) => {
            form.add_number(product(count, i128::from(number))?)?;
            Ok(())
        }
        TermNode::Variable(_) | TermNode::Bound(_) | TermNode::Read(_, _) => {
            numbers_are_exact(terms);
            form.add_atom(node, count)?;
            Ok(())
        }
        TermNode::Add(left, right) => {
            owed.add_atom(left, count)?;
            owed.add_atom(right, count)?;
            Ok(())
        }
        TermNode::Subtract(left, right) => {
            owed.add_atom(left, count)?;
            owed.subtract_atom(right, count)?;
            Ok(())
        }
        TermNode::Multiply(factor, part) => {
            owed.add_atom(part, product(count, i128::from(factor))?)?;
            Ok(())
        }
        TermNode::Base(_) | TermNode::Store(_, _, _) | TermNode::Affine(_, _) => unreachable!(),
    }
}

// The sum of the multiples of the terms' forms. If it returns `Large`, that says nothing about the form.
fn light_form(
    terms: &Terms,
    alloc: Global,
    nodes: &[TermId],
    multiples: &[(TermId, i128)],
) -> Result<LinForm, LinFault>
    requires nodes { All (IsTerm terms.now) nodes.now }
    requires multiples { AreOfTerms terms.now multiples.now }
    ensures { IfOk result (λ form. IsFormIn terms.now form (total terms.now multiples.now)) }
{
    let mut form = LinForm::zero(alloc);
    let mut owed = owed_of(terms, alloc, multiples)?;
    for node in nodes.iter().rev() {
        settle(&mut form, &mut owed, terms, *node)?;
    }
    if owed.is_constant() {
        Ok(form)
    } else {
        Err(LinFault::Large)
    }
}

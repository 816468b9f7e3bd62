//! The text of a table's formulas, from their nodes.
ghost use Rattle.std.specs.Prelude.{◌≡◌, ◌++◌, ◌<◌, OnOk, codes};
ghost use Rattle.std.specs.Fmt.{decimal, signed_decimal};
ghost use Rattle.lc_term.specs.Syntax.{formulas};
ghost use Rattle.lc_table.specs.Tables.{formula_in, formulas_in, IsFormula, AreFormulas};
ghost use Rattle.lc_text.specs.Spelled.{binder, one_deeper, spaced, spelled_formula, spelled_parts};
ghost use Rattle.lc_outline.specs.DevelopmentView.{development_view};
ghost use Rattle.lc_cond_text.specs.ConditionText.{spelled};

use crate::term_text::push_pair;
use itoa::Buffer;
use lc_base::OutOfMemory;
use lc_outline::Development;
use lc_table::{FormulaId, FormulaNode, Terms};

// Appends a text.
pub(crate) fn push_text(out: &mut Vec<u8>, text: &str) -> Result<(), OutOfMemory>
    ensures { OnOk result (out.new.items ≡ out.old.items ++ text.now) }
{
    out.extend_from_slice(text.as_bytes())?;
    Ok(())
}

// A space, which is one byte and no text, since half of what is written are these and brackets.
pub(crate) fn push_space(out: &mut Vec<u8>) -> Result<(), OutOfMemory>
    ensures { OnOk result (out.new.items ≡ out.old.items ++ codes " ") }
{
    out.push(b' ')?;
    Ok(())
}

// The bracket that ends a part.
pub(crate) fn push_end(out: &mut Vec<u8>) -> Result<(), OutOfMemory>
    ensures { OnOk result (out.new.items ≡ out.old.items ++ codes ")") }
{
    out.push(b')')?;
    Ok(())
}

// Appends a number of one digit, as most are.
#[tactic(auto, using(std::proofs::lemmas::Fmt::decimal_digit))]
fn push_digit(out: &mut Vec<u8>, digit: u8) -> Result<(), OutOfMemory>
    requires { digit < 10 }
    ensures { OnOk result (out.new.items ≡ out.old.items ++ decimal digit) }
{
    out.push(b'0' + digit)?;
    Ok(())
}

// Appends a number.
pub(crate) fn push_number(out: &mut Vec<u8>, number: u64) -> Result<(), OutOfMemory>
    ensures { OnOk result (out.new.items ≡ out.old.items ++ decimal number) }
{
    if number < 10 {
        return push_digit(out, number as u8);
    }
    let mut digits = Buffer::new();
    push_text(out, digits.format(number))
}

pub(crate) fn push_integer(out: &mut Vec<u8>, number: i64) -> Result<(), OutOfMemory>
    ensures { OnOk result (out.new.items ≡ out.old.items ++ signed_decimal number) }
{
    if 0 <= number && number < 10 {
        return push_digit(out, number as u8);
    }
    let mut digits = Buffer::new();
    push_text(out, digits.format(number))
}

// A free variable.
pub(crate) fn push_variable(out: &mut Vec<u8>, number: u32) -> Result<(), OutOfMemory>
    ensures { OnOk result (out.new.items ≡ out.old.items ++ (codes "?" ++ decimal number)) }
{
    push_text(out, "?")?;
    push_number(out, u64::from(number))
}

// The variable of a quantifier.
pub(crate) fn push_binder(out: &mut Vec<u8>, depth: u64) -> Result<(), OutOfMemory>
    ensures { OnOk result (out.new.items ≡ out.old.items ++ binder depth) }
{
    push_text(out, "b")?;
    push_number(out, depth)
}

pub(crate) fn push_affine(out: &mut Vec<u8>, slope: i64, start: i64) -> Result<(), OutOfMemory>
    ensures { OnOk result (out.new.items ≡ out.old.items ++ (codes "(affine " ++ signed_decimal slope ++ spaced (signed_decimal start) ++ codes ")")) }
{
    push_text(out, "(affine ")?;
    push_integer(out, slope)?;
    push_space(out)?;
    push_integer(out, start)?;
    push_end(out)
}

/// Appends a formula with `depth` quantifiers around it.
#[cycle(push_formula)]
pub(crate) fn push_formula(
    out: &mut Vec<u8>,
    terms: &Terms,
    development: &Development,
    depth: u64,
    formula: FormulaId,
) -> Result<(), OutOfMemory>
    requires { IsFormula terms.now formula }
    ensures { OnOk result (out.new.items ≡ out.old.items ++ spelled_formula (spelled (development_view development.now)) depth (formula_in terms.now formula)) }
{
    match terms.formula_node(formula) {
        FormulaNode::Le(left, right) => {
            push_pair(out, terms, development, depth, "(<= ", *left, *right)
        }
        FormulaNode::Eq(left, right) => {
            push_pair(out, terms, development, depth, "(= ", *left, *right)
        }
        FormulaNode::Not(part) => {
            push_text(out, "(not ")?;
            push_formula(out, terms, development, depth, *part)?;
            push_end(out)
        }
        FormulaNode::And(parts) => push_parts(out, terms, development, depth, "(and", parts),
        FormulaNode::Or(parts) => push_parts(out, terms, development, depth, "(or", parts),
        FormulaNode::Implies(left, right) => {
            push_text(out, "(=> ")?;
            push_formula(out, terms, development, depth, *left)?;
            push_space(out)?;
            push_formula(out, terms, development, depth, *right)?;
            push_end(out)
        }
        FormulaNode::Forall(body) => {
            push_below(out, terms, development, depth, "(forall ", *body)
        }
        FormulaNode::Exists(body) => {
            push_below(out, terms, development, depth, "(exists ", *body)
        }
    }
}

// A quantifier, by its word, and what is below it.
#[cycle(push_formula)]
fn push_below(
    out: &mut Vec<u8>,
    terms: &Terms,
    development: &Development,
    depth: u64,
    word: &str,
    body: FormulaId,
) -> Result<(), OutOfMemory>
    requires { IsFormula terms.now body }
    ensures { OnOk result (out.new.items ≡ out.old.items ++
        (word.now ++ binder depth ++ spaced (spelled_formula (spelled (development_view development.now)) (one_deeper depth) (formula_in terms.now body)) ++ codes ")")) }
{
    push_text(out, word)?;
    push_binder(out, depth)?;
    push_space(out)?;
    push_formula(out, terms, development, depth.saturating_add(1), body)?;
    push_end(out)
}

// A connective, by its word, and its parts.
#[cycle(push_formula)]
fn push_parts(
    out: &mut Vec<u8>,
    terms: &Terms,
    development: &Development,
    depth: u64,
    word: &str,
    parts: &[FormulaId],
) -> Result<(), OutOfMemory>
    requires { AreFormulas terms.now parts.now }
    ensures { OnOk result (out.new.items ≡ out.old.items ++
        (word.now ++ spelled_parts (spelled (development_view development.now)) depth (formulas (formulas_in terms.now parts.now)) ++ codes ")")) }
{
    push_text(out, word)?;
    for part in parts {
        push_space(out)?;
        push_formula(out, terms, development, depth, *part)?;
    }
    push_end(out)
}

//! How terms, column expressions and formulas are printed.
ghost use Rattle.std.specs.Prelude.{◌≡◌, ◌++◌, OnOk, OnErr, codes, string_bytes, false};
ghost use Rattle.lc_term.specs.Chains.{is_store};
ghost use Rattle.lc_term.specs.View.{term_of, column_of, formula_of, formulas_of};
ghost use Rattle.lc_term.specs.Syntax.{formulas};
ghost use Rattle.lc_text.specs.Spelled.{spaced, spelled_term, spelled_column, spelled_formula, spelled_parts};

use lc_base::{ColId, OutOfMemory};
use lc_term::{ColExpr, Formula, Term, chain_of};

/// How free variables and columns are spelled in a text.
pub trait Spelling {
    ghost use Rattle.std.specs.Prelude.{◌≡◌, ◌++◌, OnOk, string_bytes};
    ghost use Rattle.lc_text.specs.Spelling.{Spelled};

    ghost spelled: { Self → Spelled };

    /// Appends a free variable. On `OutOfMemory` the text is to be dropped, whatever it holds.
    fn variable(&self, out: &mut String, number: u32) -> Result<(), OutOfMemory>
        ensures { OnOk result (string_bytes out.new ≡ string_bytes out.old ++ (spelled self.now).variable number) };

    /// Appends a column. On `OutOfMemory` the text is to be dropped, whatever it holds.
    fn column(&self, out: &mut String, column: ColId) -> Result<(), OutOfMemory>
        ensures { OnOk result (string_bytes out.new ≡ string_bytes out.old ++ (spelled self.now).column column.0) };
}

/// Appends a term, at a place inside `depth` quantifiers. On `OutOfMemory` nothing is written.
pub fn write_term<S: Spelling>(
    out: &mut String,
    spelling: &S,
    depth: u64,
    term: &Term,
) -> Result<(), OutOfMemory>
    ensures text { OnOk result (string_bytes out.new ≡ string_bytes out.old ++ spelled_term (S.spelled spelling.now) depth (term_of term.now)) }
    ensures unchanged { OnErr result (string_bytes out.new ≡ string_bytes out.old) }
{
    let mut text = String::new(*out.allocator());
    push_term(&mut text, spelling, depth, term)?;
    out.push_str(&text)?;
    Ok(())
}

/// Appends a column expression, at a place inside `depth` quantifiers. On `OutOfMemory` nothing is written.
pub fn write_column<S: Spelling>(
    out: &mut String,
    spelling: &S,
    depth: u64,
    column: &ColExpr,
) -> Result<(), OutOfMemory>
    ensures text { OnOk result (string_bytes out.new ≡ string_bytes out.old ++ spelled_column (S.spelled spelling.now) depth (column_of column.now)) }
    ensures unchanged { OnErr result (string_bytes out.new ≡ string_bytes out.old) }
{
    let mut text = String::new(*out.allocator());
    push_column(&mut text, spelling, depth, column)?;
    out.push_str(&text)?;
    Ok(())
}

/// Appends a formula, at a place inside `depth` quantifiers. The variable of a quantifier is written `b` and the number
/// of quantifiers around it. On `OutOfMemory` nothing is written.
pub fn write_formula<S: Spelling>(
    out: &mut String,
    spelling: &S,
    depth: u64,
    formula: &Formula,
) -> Result<(), OutOfMemory>
    ensures text { OnOk result (string_bytes out.new ≡ string_bytes out.old ++ spelled_formula (S.spelled spelling.now) depth (formula_of formula.now)) }
    ensures unchanged { OnErr result (string_bytes out.new ≡ string_bytes out.old) }
{
    let mut text = String::new(*out.allocator());
    push_formula(&mut text, spelling, depth, formula)?;
    out.push_str(&text)?;
    Ok(())
}

// Appends a term. On `OutOfMemory` a beginning of it may have been written.
#[cycle(push_term)]
fn push_term<S: Spelling>(
    out: &mut String,
    spelling: &S,
    depth: u64,
    term: &Term,
) -> Result<(), OutOfMemory>
    ensures { OnOk result (string_bytes out.new ≡ string_bytes out.old ++ spelled_term (S.spelled spelling.now) depth (term_of term.now)) }
{
    match term {
        Term::Number(number) => write!(out, "{number}")?,
        Term::Variable(number) => spelling.variable(out, *number)?,
        Term::Bound(number) => {
            let binder = depth.saturating_sub(1).saturating_sub(u64::from(*number));
            write!(out, "b{binder}")?;
        }
        Term::Add(left, right) => {
            out.push_str("(+ ")?;
            push_term(out, spelling, depth, left)?;
            out.push_str(" ")?;
            push_term(out, spelling, depth, right)?;
            out.push_str(")")?;
        }
        Term::Subtract(left, right) => {
            out.push_str("(- ")?;
            push_term(out, spelling, depth, left)?;
            out.push_str(" ")?;
            push_term(out, spelling, depth, right)?;
            out.push_str(")")?;
        }
        Term::Multiply(factor, term) => {
            write!(out, "(* {factor} ")?;
            push_term(out, spelling, depth, term)?;
            out.push_str(")")?;
        }
        Term::Read(column, index) => {
            out.push_str("(rd ")?;
            push_column(out, spelling, depth, column)?;
            out.push_str(" ")?;
            push_term(out, spelling, depth, index)?;
            out.push_str(")")?;
        }
    }
    Ok(())
}

// Appends a column expression: the words of all its stores, what is stored to, and what is stored, the innermost first.
// On `OutOfMemory` a beginning of it may have been written.
#[cycle(push_term)]
fn push_column<S: Spelling>(
    out: &mut String,
    spelling: &S,
    depth: u64,
    column: &ColExpr,
) -> Result<(), OutOfMemory>
    ensures { OnOk result (string_bytes out.new ≡ string_bytes out.old ++ spelled_column (S.spelled spelling.now) depth (column_of column.now)) }
{
    let mut chain = chain_of(*out.allocator(), column)?;
    for _ in 0..chain.stores.len() {
        out.push_str("(store ")?;
    }
    push_base(out, spelling, depth, chain.base)?;
    'stores: while let Some(store) = chain.stores.pop() {
        out.push_str(" ")?;
        push_term(out, spelling, depth, store.index)?;
        out.push_str(" ")?;
        push_term(out, spelling, depth, store.value)?;
        out.push_str(")")?;
    }
    Ok(())
}

// A column expression that is no store.
fn push_base<S: Spelling>(
    out: &mut String,
    spelling: &S,
    depth: u64,
    base: &ColExpr,
) -> Result<(), OutOfMemory>
    requires { is_store (column_of base.now) ≡ false }
    ensures { OnOk result (string_bytes out.new ≡ string_bytes out.old ++ spelled_column (S.spelled spelling.now) depth (column_of base.now)) }
{
    let _depth = depth;
    match base {
        ColExpr::Base(column) => spelling.column(out, *column)?,
        ColExpr::Affine(slope, start) => write!(out, "(affine {slope} {start})")?,
        ColExpr::Store(..) => unreachable!(),
    }
    Ok(())
}

// Appends a formula. On `OutOfMemory` a beginning of it may have been written.
#[cycle(push_formula)]
fn push_formula<S: Spelling>(
    out: &mut String,
    spelling: &S,
    depth: u64,
    formula: &Formula,
) -> Result<(), OutOfMemory>
    ensures { OnOk result (string_bytes out.new ≡ string_bytes out.old ++ spelled_formula (S.spelled spelling.now) depth (formula_of formula.now)) }
{
    match formula {
        Formula::Le(left, right) => push_comparison(out, spelling, depth, "(<= ", left, right)?,
        Formula::Eq(left, right) => push_comparison(out, spelling, depth, "(= ", left, right)?,
        Formula::Not(formula) => {
            out.push_str("(not ")?;
            push_formula(out, spelling, depth, formula)?;
            out.push_str(")")?;
        }
        Formula::And(parts) => {
            out.push_str("(and")?;
            push_parts(out, spelling, depth, parts)?;
            out.push_str(")")?;
        }
        Formula::Or(parts) => {
            out.push_str("(or")?;
            push_parts(out, spelling, depth, parts)?;
            out.push_str(")")?;
        }
        Formula::Implies(left, right) => {
            out.push_str("(=> ")?;
            push_formula(out, spelling, depth, left)?;
            out.push_str(" ")?;
            push_formula(out, spelling, depth, right)?;
            out.push_str(")")?;
        }
        Formula::Forall(body) => {
            write!(out, "(forall b{depth} ")?;
            push_formula(out, spelling, depth.saturating_add(1), body)?;
            out.push_str(")")?;
        }
        Formula::Exists(body) => {
            write!(out, "(exists b{depth} ")?;
            push_formula(out, spelling, depth.saturating_add(1), body)?;
            out.push_str(")")?;
        }
    }
    Ok(())
}

fn push_comparison<S: Spelling>(
    out: &mut String,
    spelling: &S,
    depth: u64,
    word: &str,
    left: &Term,
    right: &Term,
) -> Result<(), OutOfMemory>
    ensures { OnOk result (string_bytes out.new ≡ string_bytes out.old ++
        (word.now ++ spelled_term (S.spelled spelling.now) depth (term_of left.now) ++ spaced (spelled_term (S.spelled spelling.now) depth (term_of right.now)) ++ codes ")")) }
{
    out.push_str(word)?;
    push_term(out, spelling, depth, left)?;
    out.push_str(" ")?;
    push_term(out, spelling, depth, right)?;
    out.push_str(")")?;
    Ok(())
}

#[cycle(push_formula)]
fn push_parts<S: Spelling>(
    out: &mut String,
    spelling: &S,
    depth: u64,
    parts: &[Formula],
) -> Result<(), OutOfMemory>
    ensures { OnOk result (string_bytes out.new ≡ string_bytes out.old ++ spelled_parts (S.spelled spelling.now) depth (formulas (formulas_of parts.now))) }
{
    for part in parts {
        out.push_str(" ")?;
        push_formula(out, spelling, depth, part)?;
    }
    Ok(())
}

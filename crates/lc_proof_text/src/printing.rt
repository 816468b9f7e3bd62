//! How proofs are printed.
ghost use Rattle.std.specs.Prelude.{◌≡◌, ◌++◌, OnOk, OnErr, codes, string_bytes, map};
ghost use Rattle.lc_kernel.specs.View.{multiple_of, step_of, proof_of, proofs_of};
ghost use Rattle.lc_kernel.specs.Proofs.{proofs};
ghost use Rattle.lc_proof_text.specs.SpelledProofs.{spaced_number, spelled_multiple, spelled_multiples, spelled_step, spelled_proof, spelled_proofs};
ghost use Rattle.lc_term.specs.View.{term_of, column_of, formula_of};
ghost use Rattle.lc_text.specs.Spelled.{spaced, spelled_term, spelled_column, spelled_formula};

use lc_base::OutOfMemory;
use lc_kernel::{Multiple, Proof, Step};
use lc_term::{ColExpr, Formula, Term};
use lc_text::{Spelling, write_column, write_formula, write_term};

/// Writes a number after a space.
fn write_number(out: &mut String, number: i64) -> Result<(), OutOfMemory>
    ensures { OnOk result (string_bytes out.new ≡ string_bytes out.old ++ spaced_number number) }
{
    write!(out, " {number}")?;
    Ok(())
}

/// Writes a term after a space.
fn write_index<S: Spelling>(out: &mut String, spelling: &S, term: &Term) -> Result<(), OutOfMemory>
    ensures { OnOk result (string_bytes out.new ≡ string_bytes out.old ++ spaced (spelled_term (S.spelled spelling.now) 0 (term_of term.now))) }
{
    out.push_str(" ")?;
    write_term(out, spelling, 0, term)
}

/// Writes a formula after a space.
fn write_part<S: Spelling>(
    out: &mut String,
    spelling: &S,
    formula: &Formula,
) -> Result<(), OutOfMemory>
    ensures { OnOk result (string_bytes out.new ≡ string_bytes out.old ++ spaced (spelled_formula (S.spelled spelling.now) 0 (formula_of formula.now))) }
{
    out.push_str(" ")?;
    write_formula(out, spelling, 0, formula)
}

/// Writes a word, and a column and an index after it.
fn write_cell<S: Spelling>(
    out: &mut String,
    spelling: &S,
    word: &str,
    column: &ColExpr,
    index: &Term,
) -> Result<(), OutOfMemory>
    ensures { OnOk result (string_bytes out.new ≡ string_bytes out.old ++
        (word.now ++ spaced (spelled_column (S.spelled spelling.now) 0 (column_of column.now)) ++ spaced (spelled_term (S.spelled spelling.now) 0 (term_of index.now)))) }
{
    out.push_str(word)?;
    out.push_str(" ")?;
    write_column(out, spelling, 0, column)?;
    write_index(out, spelling, index)
}

/// Writes a word and a number.
fn write_numbered(out: &mut String, word: &str, number: i64) -> Result<(), OutOfMemory>
    ensures { OnOk result (string_bytes out.new ≡ string_bytes out.old ++ (word.now ++ spaced_number number)) }
{
    out.push_str(word)?;
    write_number(out, number)
}

/// Writes a word and two numbers.
fn write_pair(out: &mut String, word: &str, first: i64, second: i64) -> Result<(), OutOfMemory>
    ensures { OnOk result (string_bytes out.new ≡ string_bytes out.old ++ (word.now ++ spaced_number first ++ spaced_number second)) }
{
    write_numbered(out, word, first)?;
    write_number(out, second)
}

/// Writes `(h k)`.
fn write_multiple(out: &mut String, multiple: &Multiple) -> Result<(), OutOfMemory>
    ensures { OnOk result (string_bytes out.new ≡ string_bytes out.old ++ spelled_multiple (multiple_of multiple.now)) }
{
    let Multiple {
        hypothesis,
        multiplier,
    } = *multiple;
    write!(out, "({hypothesis} {multiplier})")?;
    Ok(())
}

/// Writes `sum (h k) ..`.
fn write_sum(out: &mut String, multiples: &[Multiple]) -> Result<(), OutOfMemory>
    ensures { OnOk result (string_bytes out.new ≡ string_bytes out.old ++ (codes "sum" ++ spelled_multiples (map multiple_of multiples.now))) }
{
    out.push_str("sum")?;
    for multiple in multiples {
        out.push_str(" ")?;
        write_multiple(out, multiple)?;
    }
    Ok(())
}

/// Writes a step's word, and the parts that come before its proofs.
fn write_step<S: Spelling>(out: &mut String, spelling: &S, step: &Step) -> Result<(), OutOfMemory>
    ensures { OnOk result (string_bytes out.new ≡ string_bytes out.old ++ spelled_step (S.spelled spelling.now) (step_of step.now)) }
{
    match step {
        Step::Split { hypothesis } => write_numbered(out, "split", *hypothesis),
        Step::Cases { hypothesis } => write_numbered(out, "cases", *hypothesis),
        Step::Push { hypothesis } => write_numbered(out, "push", *hypothesis),
        Step::Fresh { hypothesis } => write_numbered(out, "fresh", *hypothesis),
        Step::Trichotomy { hypothesis } => write_numbered(out, "trich", *hypothesis),
        Step::Instantiate { hypothesis, term } => {
            write_numbered(out, "inst", *hypothesis)?;
            write_index(out, spelling, term)
        }
        Step::Cut { formula } => {
            out.push_str("cut")?;
            write_part(out, spelling, formula)
        }
        Step::Written { access } => {
            write_cell(out, spelling, "written", &access.column, &access.index)?;
            write_index(out, spelling, &access.value)?;
            write_index(out, spelling, &access.other)
        }
        Step::Same { access } => {
            write_cell(out, spelling, "same", &access.column, &access.index)?;
            write_index(out, spelling, &access.other)
        }
        Step::Affine {
            slope,
            start,
            index,
        } => {
            write_pair(out, "affine", *slope, *start)?;
            write_index(out, spelling, index)
        }
        Step::Divide {
            hypothesis,
            divisor,
            quotient,
        } => {
            write_pair(out, "divide", *hypothesis, *divisor)?;
            write_part(out, spelling, quotient)
        }
        Step::Sum { multiples } => write_sum(out, multiples),
        Step::Opposite {
            hypothesis,
            negation,
        } => write_pair(out, "opposite", *hypothesis, *negation),
        Step::Open => {
            out.push_str("open")?;
            Ok(())
        }
    }
}

/// Appends a proof. On `OutOfMemory` nothing is written.
pub fn write_proof<S: Spelling>(
    out: &mut String,
    spelling: &S,
    proof: &Proof,
) -> Result<(), OutOfMemory>
    ensures text { OnOk result (string_bytes out.new ≡ string_bytes out.old ++ spelled_proof (S.spelled spelling.now) (proof_of proof.now)) }
    ensures unchanged { OnErr result (string_bytes out.new ≡ string_bytes out.old) }
{
    let mut text = String::new(*out.allocator());
    push_proof(&mut text, spelling, proof)?;
    out.push_str(&text)?;
    Ok(())
}

// Appends a proof. On `OutOfMemory` a beginning of it may have been written.
#[cycle(push_proof)]
fn push_proof<S: Spelling>(out: &mut String, spelling: &S, proof: &Proof) -> Result<(), OutOfMemory>
    ensures { OnOk result (string_bytes out.new ≡ string_bytes out.old ++ spelled_proof (S.spelled spelling.now) (proof_of proof.now)) }
{
    out.push_str("(")?;
    write_step(out, spelling, &proof.step)?;
    push_proofs(out, spelling, &proof.branches)?;
    out.push_str(")")?;
    Ok(())
}

// Proofs, each after a space.
#[cycle(push_proof)]
fn push_proofs<S: Spelling>(
    out: &mut String,
    spelling: &S,
    branches: &[Proof],
) -> Result<(), OutOfMemory>
    ensures { OnOk result (string_bytes out.new ≡ string_bytes out.old ++ spelled_proofs (S.spelled spelling.now) (proofs (proofs_of branches.now))) }
{
    for branch in branches {
        out.push_str(" ")?;
        push_proof(out, spelling, branch)?;
    }
    Ok(())
}

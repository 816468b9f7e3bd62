//! How a formula file is read.
ghost use Rattle.std.specs.Prelude.{◌≡◌, ◌+◌, ◌<◌, ◌^◌, ℕ, List, IfOk, IsTrue, []};
ghost use Rattle.lc_sexp.specs.Reads.{ReadsAs};
ghost use Rattle.lc_sexp.specs.Shown.{rest_of, number_of, owner_of};
ghost use Rattle.lc_sexp.specs.Trees.{item_count, item_count_of_all};
ghost use Rattle.lc_table.specs.Tables.{formula_in, formulas_in};
ghost use Rattle.lc_term.specs.View.{formula_of};
ghost use Rattle.lc_kernel.specs.Below.{all_below, formula_below};
ghost use Rattle.lc_kernel.specs.Proofs.{size};
ghost use Rattle.lc_kernel.specs.View.{proof_of};
ghost use Rattle.lc_reading.specs.Files.{IsAnswerTo};
ghost use Rattle.lc_reading.specs.Parts.{tree_of, place_of};
ghost use Rattle.lc_reading.specs.Results.{IsReading};
ghost use Rattle.lc_text.specs.Seen.{row_of};
ghost use Rattle.lc_text.specs.Formulas.{formula_reading};
ghost use Rattle.lc_proof_text.specs.FileNames.{declared_of, claim_names, proof_names};
ghost use Rattle.lc_proof_text.specs.Files.{seen_claim, claim_in, AreEntered, seen_statement, hypotheses_reading, goal_reading, shown_reading, statement_reading, claim_reading, sections_reading, form_reading, file_reading, only};
ghost use Rattle.lc_proof_text.specs.Proofs.{proof_reading};

use crate::claim::{ClaimTrees, FormulaFile, entered};
use crate::declared::Declared;
use crate::names::{InClaim, InProof, read_declarations};
use crate::proof::read_proof;
use lc_base::Fault;
use lc_kernel::Proof;
use lc_reading::{Part, ReadFault, behind_word, both, ended, next_part, one};
use lc_sexp::{Cursor, Forms};
use lc_term::Formula;
use lc_text::{read_formula, read_formulas};
use std::alloc::Global;

/// `(hyps F*)`
fn read_hypotheses(
    alloc: Global,
    declared: &Declared<'_>,
    part: Part<'_>,
) -> Result<Vec<Formula>, ReadFault>
    ensures { IsReading row_of (hypotheses_reading (declared_of declared.now) (place_of part.entry) (tree_of part.entry)) result }
{
    let list = behind_word(part, "hyps")?;
    read_formulas(alloc, &InClaim(declared), list)
}

/// A formula of the claim, which must be the whole rest of a list.
fn read_only_formula(
    alloc: Global,
    declared: &Declared<'_>,
    list: Cursor<'_>,
) -> Result<Formula, ReadFault>
    ensures { IsReading formula_of (only (formula_reading (claim_names (declared_of declared.now)) []) (owner_of list.entry) (number_of list.entry) (rest_of list.entry)) result }
{
    let (part, rest) = one(list)?;
    ended(read_formula(alloc, &InClaim(declared), part), rest)
}

/// `(goal F)`
fn read_goal(alloc: Global, declared: &Declared<'_>, part: Part<'_>) -> Result<Formula, ReadFault>
    ensures { IsReading formula_of (goal_reading (declared_of declared.now) (place_of part.entry) (tree_of part.entry)) result }
{
    let list = behind_word(part, "goal")?;
    read_only_formula(alloc, declared, list)
}

/// A proof, which must be the whole rest of a list.
fn read_only_proof(
    alloc: Global,
    declared: &Declared<'_>,
    list: Cursor<'_>,
) -> Result<Proof, ReadFault>
    ensures { IsReading proof_of (only (proof_reading (proof_names (declared_of declared.now))) (owner_of list.entry) (number_of list.entry) (rest_of list.entry)) result }
{
    let (part, rest) = one(list)?;
    ended(read_proof(alloc, &InProof(declared), part), rest)
}

/// `(proof P)`
fn read_shown(alloc: Global, declared: &Declared<'_>, part: Part<'_>) -> Result<Proof, ReadFault>
    ensures { IsReading proof_of (shown_reading (declared_of declared.now) (place_of part.entry) (tree_of part.entry)) result }
{
    let list = behind_word(part, "proof")?;
    read_only_proof(alloc, declared, list)
}

/// The hypotheses and the goal.
fn read_statement(
    alloc: Global,
    declared: &Declared<'_>,
    hypotheses: Part<'_>,
    goal: Part<'_>,
) -> Result<(Vec<Formula>, Formula), ReadFault>
    ensures { IsReading seen_statement (statement_reading (declared_of declared.now) (place_of hypotheses.entry) (tree_of hypotheses.entry) (place_of goal.entry) (tree_of goal.entry)) result }
{
    let hypotheses = read_hypotheses(alloc, declared, hypotheses);
    let goal = read_goal(alloc, declared, goal);
    both(hypotheses, goal)
}

/// The hypotheses, the goal and the proof.
fn read_claim(
    alloc: Global,
    declared: &Declared<'_>,
    hypotheses: Part<'_>,
    goal: Part<'_>,
    proof: Part<'_>,
) -> Result<ClaimTrees, ReadFault>
    ensures { IsReading seen_claim (claim_reading (declared_of declared.now) (place_of hypotheses.entry) (tree_of hypotheses.entry) (place_of goal.entry) (tree_of goal.entry) (place_of proof.entry) (tree_of proof.entry)) result }
{
    let statement = read_statement(alloc, declared, hypotheses, goal);
    let proof = read_shown(alloc, declared, proof);
    let ((hypotheses, goal), proof) = both(statement, proof)?;
    let variables = declared.variables.len() as u32;
    Ok(ClaimTrees {
        variables,
        hypotheses,
        goal,
        proof,
    })
}

/// The five sections, which must be the whole rest of a list.
fn read_sections(alloc: Global, list: Cursor<'_>) -> Result<ClaimTrees, ReadFault>
    requires { item_count_of_all (rest_of list) < 2 ^ 32 }
    ensures { IsReading seen_claim (sections_reading (owner_of list.entry) (number_of list.entry) (rest_of list.entry)) result }
{
    let mut rest = list;
    let variables = next_part(&mut rest)?;
    let columns = next_part(&mut rest)?;
    let hypotheses = next_part(&mut rest)?;
    let goal = next_part(&mut rest)?;
    let proof = next_part(&mut rest)?;
    let (declared, wrong) = read_declarations(alloc, variables, columns)?;
    let claim = read_claim(alloc, &declared, hypotheses, goal, proof);
    let ((), claim) = ended(both(wrong, claim), rest)?;
    Ok(claim)
}

/// The form of a formula file.
fn read_form(alloc: Global, part: Part<'_>) -> Result<ClaimTrees, ReadFault>
    requires { item_count (tree_of part) < 2 ^ 32 }
    ensures { IsReading seen_claim (form_reading (place_of part.entry) (tree_of part.entry)) result }
{
    let list = behind_word(part, "formula")?;
    read_sections(alloc, list)
}

/// The form of a formula file, which must be the whole rest of a list.
fn read_file(alloc: Global, forms: Cursor<'_>) -> Result<ClaimTrees, ReadFault>
    requires { item_count_of_all (rest_of forms) < 2 ^ 32 }
    ensures { IsReading seen_claim (only form_reading (owner_of forms.entry) (number_of forms.entry) (rest_of forms.entry)) result }
{
    let (form, rest) = one(forms)?;
    ended(read_form(alloc, form), rest)
}

/// The goal and the proof of the formula file that has these forms, with a table of the goal's formulas. If it is none,
/// `Refused` has its first refusal, as in `formula_of`.
pub fn formula_in(alloc: Global, forms: Forms) -> Result<FormulaFile, Fault>
    requires { (bytes : List ℕ) × ReadsAs bytes forms }
    ensures answer { (bytes : List ℕ) → ReadsAs bytes forms → IsAnswerTo claim_in file_reading bytes result }
    ensures numbers { IfOk result AreEntered }
    ensures hypotheses { IfOk result (λ file. IsTrue (all_below file.goal.vars (formulas_in file.terms file.goal.hypotheses))) }
    ensures goal { IfOk result (λ file. IsTrue (formula_below file.goal.vars (formula_in file.terms file.goal.goal))) }
    ensures steps { IfOk result (λ file. file.goal.vars + size (proof_of file.proof) < 2 ^ 32) }
{
    let claim = read_file(alloc, forms.cursor())?;
    Ok(entered(alloc, claim)?)
}

/// The goal and the proof of a formula file, with a table of the goal's formulas:
/// `(formula (vars NAME*) (cols NAME*) (hyps F*) (goal F) (proof P))`.
///
/// If the file is none, `Refused` has its first refusal: `Text` with the offset of its first text fault; else of
/// `Shape`, `Unknown`, `Repeated` and `Bound`, in this order, the first for which an item is wrong, with the least such
/// item. `OutOfMemory` says nothing about the file. `prove` may be called with what is read.
pub fn formula_of(alloc: Global, bytes: &[u8]) -> Result<FormulaFile, Fault>
    ensures answer { IsAnswerTo claim_in file_reading bytes.now result }
    ensures numbers { IfOk result AreEntered }
    ensures hypotheses { IfOk result (λ file. IsTrue (all_below file.goal.vars (formulas_in file.terms file.goal.hypotheses))) }
    ensures goal { IfOk result (λ file. IsTrue (formula_below file.goal.vars (formula_in file.terms file.goal.goal))) }
    ensures steps { IfOk result (λ file. file.goal.vars + size (proof_of file.proof) < 2 ^ 32) }
{
    let forms = Forms::read(alloc, bytes)?;
    formula_in(alloc, forms)
}

//! Terms, columns, formulas and proofs: how they are read and printed, and formula files.
ghost use Rattle.std.specs.Prelude.{◌≡◌, ◌++◌, [], OnOk, OnErr, string_bytes};
ghost use Rattle.lc_kernel.specs.View.{proof_of};
ghost use Rattle.lc_proof_text.specs.Files.{claim_in, file_reading};
ghost use Rattle.lc_proof_text.specs.Proofs.{proof_reading};
ghost use Rattle.lc_proof_text.specs.SpelledProofs.{spelled_proof};
ghost use Rattle.lc_reading.specs.Files.{IsAnswerTo};
ghost use Rattle.lc_reading.specs.Parts.{tree_of, place_of};
ghost use Rattle.lc_reading.specs.Results.{IsReading};
ghost use Rattle.lc_term.specs.View.{term_of, column_of, formula_of};
ghost use Rattle.lc_text.specs.Formulas.{formula_reading};
ghost use Rattle.lc_text.specs.Spelled.{spelled_formula};
ghost use Rattle.lc_text.specs.Terms.{column_reading, term_reading};

use lc_base::{Fault, OutOfMemory};
use lc_kernel::Proof;
use lc_proof_text::{FormulaFile, formula_of, read_proof, write_proof};
use lc_reading::{Part, ReadFault};
use lc_term::{ColExpr, Formula, Term};
use lc_text::{Scope, Spelling, read_column, read_formula, read_term, write_formula};
use std::alloc::Global;

/// A term reads as is defined.
pub fn reading_a_term<S: Scope>(alloc: Global, scope: &S, part: Part<'_>) -> Result<Term, ReadFault>
    ensures { IsReading term_of (term_reading (S.names scope.now) [] (place_of part.entry) (tree_of part.entry)) result }
{
    read_term(alloc, scope, part)
}

/// A column expression reads as is defined; one that may not be read there is reported at the reader.
pub fn reading_a_column<S: Scope>(
    alloc: Global,
    scope: &S,
    reader: u64,
    part: Part<'_>,
) -> Result<ColExpr, ReadFault>
    ensures { IsReading column_of (column_reading (S.names scope.now) [] reader (place_of part.entry) (tree_of part.entry)) result }
{
    read_column(alloc, scope, reader, part)
}

/// A formula reads as is defined.
pub fn reading_a_formula<S: Scope>(
    alloc: Global,
    scope: &S,
    part: Part<'_>,
) -> Result<Formula, ReadFault>
    ensures { IsReading formula_of (formula_reading (S.names scope.now) [] (place_of part.entry) (tree_of part.entry)) result }
{
    read_formula(alloc, scope, part)
}

/// A formula is printed as it is spelled, or nothing is written.
pub fn printing_a_formula<S: Spelling>(
    out: &mut String,
    spelling: &S,
    depth: u64,
    formula: &Formula,
) -> Result<(), OutOfMemory>
    ensures text { OnOk result (string_bytes out.new ≡ string_bytes out.old ++ spelled_formula (S.spelled spelling.now) depth (formula_of formula.now)) }
    ensures unchanged { OnErr result (string_bytes out.new ≡ string_bytes out.old) }
{
    write_formula(out, spelling, depth, formula)
}

/// A proof reads as is defined.
pub fn reading_a_proof<S: Scope>(
    alloc: Global,
    scope: &S,
    part: Part<'_>,
) -> Result<Proof, ReadFault>
    ensures { IsReading proof_of (proof_reading (S.names scope.now) (place_of part.entry) (tree_of part.entry)) result }
{
    read_proof(alloc, scope, part)
}

/// A proof is printed as it is spelled, or nothing is written.
pub fn printing_a_proof<S: Spelling>(
    out: &mut String,
    spelling: &S,
    proof: &Proof,
) -> Result<(), OutOfMemory>
    ensures text { OnOk result (string_bytes out.new ≡ string_bytes out.old ++ spelled_proof (S.spelled spelling.now) (proof_of proof.now)) }
    ensures unchanged { OnErr result (string_bytes out.new ≡ string_bytes out.old) }
{
    write_proof(out, spelling, proof)
}

/// For a formula file, its claim is returned, or its first refusal.
pub fn reading_a_claim(alloc: Global, bytes: &[u8]) -> Result<FormulaFile, Fault>
    ensures { IsAnswerTo claim_in file_reading bytes.now result }
{
    formula_of(alloc, bytes)
}

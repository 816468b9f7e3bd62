//! The command `formula`.
ghost use Rattle.std.specs.Prelude.{◌≡◌, ℕ, List, IfOk, IsErr};
ghost use Rattle.lc_sexp.specs.Reads.{ReadsAs};
ghost use Rattle.lc_sexp.specs.Pieces.{WasFed};
ghost use Rattle.lincheck.specs.Formula.{IsVerdict, AnswersFormula, fault_of};
ghost use Rattle.lincheck.specs.Reading.{OfFile};

use crate::answer::{Answer, Failure, told};
use crate::files::Files;
use crate::reading::feed_forms;
use lc_base::{Fault, Refusal};
use lc_kernel::{ProofFault, prove};
use lc_proof_text::formula_in;
use lc_sexp::{Forms, FormsReader};
use std::alloc::Global;

/// The number of the only condition that a formula file has.
const ONLY_CONDITION: u64 = 0;

/// The fault of a proof as that of its file.
fn fault_of(fault: ProofFault) -> Fault
    ensures { result ≡ fault_of fault }
{
    match fault {
        ProofFault::Bad { step, reason } => {
            let reason = reason.code();
            Fault::Refused(Refusal::Proof(ONLY_CONDITION, u64::from(step), reason))
        }
        ProofFault::Large { step } => {
            Fault::Refused(Refusal::Large(ONLY_CONDITION, u64::from(step)))
        }
        ProofFault::OutOfMemory => Fault::OutOfMemory,
    }
}

/// Whether the proof in the formula file with these forms derives what the file claims; else the first refusal.
fn check_forms(alloc: Global, forms: Forms) -> Result<(), Fault>
    requires { (bytes : List ℕ) × ReadsAs bytes forms }
    ensures { (bytes : List ℕ) → ReadsAs bytes forms → IsVerdict bytes result }
{
    let mut file = formula_in(alloc, forms)?;
    match prove(&mut file.terms, alloc, &file.goal, &file.proof) {
        Ok(()) => Ok(()),
        Err(fault) => Err(fault_of(fault)),
    }
}

/// Whether the proof in a formula file derives what the file claims; else the first refusal.
pub fn check_formula(alloc: Global, bytes: &[u8]) -> Result<(), Fault>
    ensures { IsVerdict bytes.now result }
{
    let forms = Forms::read(alloc, bytes)?;
    check_forms(alloc, forms)
}

/// Whether the proof in the formula file that a reader has been fed derives what the file claims; else the first refusal.
fn check_fed(alloc: Global, reader: FormsReader) -> Result<(), Fault>
    requires { (bytes : List ℕ) × WasFed reader bytes }
    ensures { (bytes : List ℕ) → WasFed reader bytes → IsVerdict bytes result }
{
    let forms = reader.finish()?;
    check_forms(alloc, forms)
}

/// The answer of the command `formula` to the file at a path, which is read in pieces and never held whole.
pub fn answer_formula<'a, F: Files>(
    alloc: Global,
    files: &mut F,
    path: &'a str,
) -> Result<Answer, Failure<'a>>
    ensures unread { F.CannotOpen files.old path.now → IsErr result }
    ensures answers { IfOk result (λ answer. OfFile (F.bytes_at files.old path.now) (λ file. AnswersFormula file answer.text.items answer.status)) }
{
    let reader = feed_forms(alloc, files, path)?;
    let verdict = check_fed(alloc, reader);
    Ok(told(alloc, "proved", verdict)?)
}

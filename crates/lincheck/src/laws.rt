//! What holds of answers. Each function is a law: it does nothing, and its contract is the law.
ghost use Rattle.std.specs.Prelude.{◌≡◌, ◌≤◌, ℕ, List, Some, length};
ghost use Rattle.lc_base.specs.Limits.{file_limit};
ghost use Rattle.lc_proof_text.specs.Files.{Claim, file_reading};
ghost use Rattle.lc_reading.specs.Files.{Says};
ghost use Rattle.lc_history.specs.History.{Event, Entry};
ghost use Rattle.lc_hist.specs.JsonHistories.{SaysHistory};
ghost use Rattle.lc_spec_text.specs.Specifications.{first_reading};
ghost use Rattle.lc_seq.specs.Specification.{Specification};
ghost use Rattle.lc_outline.specs.Development.{Development};
ghost use Rattle.lc_outline_text.specs.Developments as Outline;
ghost use Rattle.lc_sound.specs.Linearizable.{IsLinearizableObject};
ghost use Rattle.lincheck.specs.Check.{AnswersCheck};
ghost use Rattle.lincheck.specs.Formula.{AnswersFormula, IsTrueClaim};
ghost use Rattle.lincheck.specs.Lines.{AnswersLines};
ghost use Rattle.lincheck.specs.Judge.{AnswersJudge, IsSpecified};

use lc_layout::laid_out_reads_back;

/// A formula file has one answer at most: what is printed and the status are determined by its bytes.
pub fn a_file_has_one_answer()
    ensures { (file text text' : List ℕ) (status status' : ℕ) →
        AnswersFormula file text status → AnswersFormula file text' status' → (text ≡ text') × (status ≡ status') }
{}

/// If the answer to a formula file has the status 0, what the file claims is true.
pub fn what_is_accepted_is_true()
    ensures { (file text : List ℕ) → AnswersFormula file text 0 → (claim : Claim) × Says file_reading file claim × IsTrueClaim claim }
{}

/// A development's file and a history's have one answer at most: what is printed and the status are determined by their
/// bytes.
pub fn a_history_has_one_answer()
    ensures { (development history text text' : List ℕ) (status status' : ℕ) →
        AnswersJudge development (Some history) text status → AnswersJudge development (Some history) text' status' → (text ≡ text') × (status ≡ status') }
{}

/// If the answer to a development's file and a history's has the status 0, the history is linearizable: some order
/// linearizes it by the steps of the specification.
pub fn what_is_accepted_is_linearizable()
    ensures { (development history text : List ℕ) → AnswersJudge development (Some history) text 0 →
        (spec : Specification) (events : List Event) (order : List Entry) → Says first_reading development spec → SaysHistory spec.operations history events order → IsSpecified spec events }
{}

/// A development's file and a certificate's have one answer at most: what is printed and the status are determined by their
/// bytes.
pub fn a_check_has_one_answer()
    ensures { (development certificate text text' : List ℕ) (status status' : ℕ) →
        AnswersCheck development (Some certificate) text status → AnswersCheck development (Some certificate) text' status' → (text ≡ text') × (status ≡ status') }
{}

/// If the answer to a development's file and a certificate's has the status 0, the file says a development, and for every
/// number of clients and every list of single-access steps of its object the history of calls and returns is linearizable by
/// its specification.
pub fn a_checked_object_is_linearizable()
    ensures { (development certificate text : List ℕ) → AnswersCheck development (Some certificate) text 0 →
        (D : Development) × Says Outline.file_reading development D × IsLinearizableObject D.specification D.object }
{}

/// A development's file has one layout at most: what `show` prints with `--lines`, and the status, are determined by its bytes.
pub fn a_file_has_one_layout()
    ensures { (file text text' : List ℕ) (status status' : ℕ) →
        AnswersLines file text status → AnswersLines file text' status' → (text ≡ text') × (status ≡ status') }
{}

/// What `show` prints with `--lines` is a file that says the same development, and for which the same is printed, if it is within
/// the limit of size.
pub fn a_layout_stays()
    ensures says { (file text : List ℕ) (D : Development) → AnswersLines file text 0 → Says Outline.file_reading file D → length text ≤ file_limit → Says Outline.file_reading text D }
    ensures again { (file text : List ℕ) → AnswersLines file text 0 → length text ≤ file_limit → AnswersLines text text 0 }
{
    laid_out_reads_back();
}

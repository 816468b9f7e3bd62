//! What holds of the texts of proofs that are printed. The function is a law: it does nothing, and its contract is the law.
ghost use Rattle.std.specs.Prelude.{◌≡◌, ℕ};
ghost use Rattle.lc_kernel.specs.Proofs.{Proof};
ghost use Rattle.lc_proof_text.specs.ProofTrees.{proof_tree, ProofReadsBack};
ghost use Rattle.lc_proof_text.specs.Proofs.{proof_reading};
ghost use Rattle.lc_proof_text.specs.SpelledProofs.{spelled_proof};
ghost use Rattle.lc_reading.specs.Readings.{fine};
ghost use Rattle.lc_sexp.specs.Printed.{printed_tree};
ghost use Rattle.lc_text.specs.Names.{Names};
ghost use Rattle.lc_text.specs.Spelling.{Spelled};

/// What is printed of a proof is the text of an s-expression, which reads as the same proof if it is one that reads back,
/// whatever its item's number.
pub fn printed_proofs_read_back()
    ensures text { (by : Spelled) (p : Proof) → printed_tree (proof_tree by p) ≡ spelled_proof by p }
    ensures back { (names : Names) (by : Spelled) (n : ℕ) (p : Proof) → ProofReadsBack names by p → proof_reading names n (proof_tree by p) ≡ fine p }
{}

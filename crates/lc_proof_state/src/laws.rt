//! What holds of the steps of proofs, and of the states in which goals fail. Each function is a law: it does nothing, and its contract is
//! the law.
ghost use Rattle.std.specs.Prelude.{◌≡◌, ℕ, List};
ghost use Rattle.lc_term.specs.Syntax.{Formula};
ghost use Rattle.lc_kernel.specs.Derivation.{Fails};
ghost use Rattle.lc_kernel.specs.Proofs.{Step, Proof, Proofs, proof, proof_count};
ghost use Rattle.lc_kernel.specs.Table.{flawed, Gives};
ghost use Rattle.lc_kernel.specs.declared.reason.Flaw.{Flaw};
ghost use Rattle.lc_proof_state.specs.Standing.{Stands};
ghost use Rattle.lc_proof_state.specs.Failing.{FailingIsNotValid};

/// The first step of a proof that does not hold is at the number that its flaw reports, with the hypotheses that are there.
pub fn a_flaw_is_told_where_the_step_stands()
    ensures { (v : ℕ) (hypotheses : List Formula) (p : Proof) (n : ℕ) (why : Flaw) → Fails v hypotheses p n why →
        (u : ℕ) × (G : List Formula) × (s : Step) × (ps : Proofs) × Stands v hypotheses p n u G (proof s ps) × Gives u G (proof_count ps) s (flawed why) }
{}

/// A step is at one spot.
pub fn a_step_stands_at_one_spot()
    ensures { (v : ℕ) (hypotheses : List Formula) (p : Proof) (n u u' : ℕ) (G G' : List Formula) (q q' : Proof) →
        Stands v hypotheses p n u G q → Stands v hypotheses p n u' G' q' → (u ≡ u') × (G ≡ G') × (q ≡ q') }
{}

/// A goal that fails in a state is not valid: in that state its hypotheses hold and it does not, whatever proof is tried.
pub fn what_fails_is_not_valid()
    ensures { FailingIsNotValid }
{}

//! What holds of derivations. Each function is a law: it does nothing, and its contract is the law.
ghost use Rattle.std.specs.Prelude.{◌≡◌, ◌⊎◌, ℕ, List, length, IsTrue};
ghost use Rattle.lc_term.specs.Meaning.{Valid};
ghost use Rattle.lc_term.specs.Syntax.{Formula};
ghost use Rattle.lc_kernel.specs.Below.{all_below, formula_below};
ghost use Rattle.lc_kernel.specs.Derivation.{Derives, DerivesGoal, Fails};
ghost use Rattle.lc_kernel.specs.Proofs.{Step, Proof};
ghost use Rattle.lc_kernel.specs.Table.{Outcome, opens, Gives};
ghost use Rattle.lc_kernel.specs.declared.reason.Flaw.{Flaw};

/// What has a derivation is true: if the hypotheses and the goal have no variables but those in use, the
/// hypotheses imply the goal, in every state and for all numbers of the variables.
pub fn derivations_are_valid()
    ensures { (v : ℕ) (hypotheses : List Formula) (goal : Formula) (p : Proof) →
        DerivesGoal v hypotheses goal p → IsTrue (all_below v hypotheses) → IsTrue (formula_below v goal) → Valid hypotheses goal }
{}

/// A step comes to an outcome, and to no other.
pub fn a_step_comes_to_one_outcome()
    ensures some { (v : ℕ) (hypotheses : List Formula) (n : ℕ) (s : Step) → (o : Outcome) × Gives v hypotheses n s o }
    ensures one { (v : ℕ) (hypotheses : List Formula) (n : ℕ) (s : Step) (o o' : Outcome) →
        Gives v hypotheses n s o → Gives v hypotheses n s o' → o ≡ o' }
{}

/// A step that opens branches opens one for each proof below it.
pub fn branches_have_proofs()
    ensures { (v w : ℕ) (hypotheses : List Formula) (n : ℕ) (s : Step) (bs : List (List Formula)) →
        Gives v hypotheses n s (opens w bs) → length bs ≡ n }
{}

/// A proof derives a contradiction, or one of its steps is the first that does not hold.
pub fn a_proof_derives_or_fails()
    ensures { (v : ℕ) (hypotheses : List Formula) (p : Proof) →
        Derives v hypotheses p ⊎ ((n : ℕ) × (why : Flaw) × Fails v hypotheses p n why) }
{}

/// A proof that fails does so at one step, for one flaw, and derives nothing.
pub fn a_proof_has_one_first_flaw()
    ensures one { (v : ℕ) (hypotheses : List Formula) (p : Proof) (n m : ℕ) (why why' : Flaw) →
        Fails v hypotheses p n why → Fails v hypotheses p m why' → (n ≡ m) × (why ≡ why') }
    ensures excludes { (v : ℕ) (hypotheses : List Formula) (p : Proof) (n : ℕ) (why : Flaw) →
        Fails v hypotheses p n why → Derives v hypotheses p → ⊥ }
{}

//! What holds of verdicts. Each function is a law: it does nothing, and its contract is the law.
ghost use Rattle.std.specs.Prelude.{◌≡◌, ◌⊎◌, ℕ, List};
ghost use Rattle.lc_base.specs.declared.refusal.Refusal.{Refusal};
ghost use Rattle.lc_outline.specs.Development.{Development};
ghost use Rattle.lc_sound.specs.Linearizable.{IsLinearizableObject};
ghost use Rattle.lc_check.specs.Verdicts.{IsAccepted, IsRefused};

/// Each pair of files has one verdict: a development of theirs is accepted, or they have one first refusal; and never both.
pub fn two_files_have_one_verdict()
    ensures one { (dev cert : List ℕ) → ((D : Development) × IsAccepted dev cert D) ⊎ ((refusal : Refusal) × IsRefused dev cert refusal) }
    ensures not_both { (dev cert : List ℕ) (D : Development) (refusal : Refusal) → IsAccepted dev cert D → IsRefused dev cert refusal → ⊥ }
    ensures one_development { (dev cert : List ℕ) (D E : Development) → IsAccepted dev cert D → IsAccepted dev cert E → D ≡ E }
    ensures one_refusal { (dev cert : List ℕ) (r s : Refusal) → IsRefused dev cert r → IsRefused dev cert s → r ≡ s }
{}

/// If two files are accepted, then for every number of clients and every list of single-access steps of the development's
/// object the history of calls and returns is linearizable by its specification.
pub fn what_is_accepted_is_linearizable()
    ensures { (dev cert : List ℕ) (D : Development) → IsAccepted dev cert D → IsLinearizableObject D.specification D.object }
{}

//! What holds of the texts of plans. The functions are laws: they do nothing, and their contracts are the laws.
ghost use Rattle.std.specs.Prelude.{◌≡◌, ◌⊎◌, ℕ, List};
ghost use Rattle.lc_base.specs.declared.refusal.Refusal.{Refusal};
ghost use Rattle.lc_outline.specs.Development.{Development};
ghost use Rattle.lc_reading.specs.Files.{Says, IsFirstRefusal};
ghost use Rattle.lc_plan.specs.Fitting.{PlansFit};
ghost use Rattle.lc_plan.specs.Plans.{Plan};
ghost use Rattle.lc_plan.specs.Readings.{plan_reading};

/// Each text is a plan for a development, and says one, or it has one first refusal; and never both.
pub fn plans_are_read_or_refused()
    ensures one { (D : Development) (bytes : List ℕ) → ((p : Plan) × Says (plan_reading D) bytes p) ⊎ ((refusal : Refusal) × IsFirstRefusal (plan_reading D) bytes refusal) }
    ensures not_both { (D : Development) (bytes : List ℕ) (p : Plan) (refusal : Refusal) → Says (plan_reading D) bytes p → IsFirstRefusal (plan_reading D) bytes refusal → ⊥ }
    ensures one_plan { (D : Development) (bytes : List ℕ) (p q : Plan) → Says (plan_reading D) bytes p → Says (plan_reading D) bytes q → p ≡ q }
    ensures one_refusal { (D : Development) (bytes : List ℕ) (r s : Refusal) → IsFirstRefusal (plan_reading D) bytes r → IsFirstRefusal (plan_reading D) bytes s → r ≡ s }
{}

/// A plan that is read for a development has an allowed number of clients; each script is of one of them, and each call of an
/// operation of the development, with as many numbers as it takes, and with counts and turns within their limits.
pub fn plans_fit_their_development()
    ensures { PlansFit }
{}

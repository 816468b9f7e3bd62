//! What holds of the texts of specifications. Each function is a law: it does nothing, and its contract is the law.
ghost use Rattle.std.specs.Prelude.{◌≡◌, ◌⊎◌, ℕ, List};
ghost use Rattle.lc_base.specs.declared.refusal.Refusal.{Refusal};
ghost use Rattle.lc_seq.specs.Specification.{Specification};
ghost use Rattle.lc_reading.specs.Files.{Says, IsFirstRefusal};
ghost use Rattle.lc_spec_text.specs.Specifications.{first_reading};

/// The first form of each file is a specification, which says one thing, or the file has one first refusal; and never
/// both.
pub fn a_specification_is_read_or_refused()
    ensures one { (bytes : List ℕ) → ((spec : Specification) × Says first_reading bytes spec) ⊎ ((refusal : Refusal) × IsFirstRefusal first_reading bytes refusal) }
    ensures not_both { (bytes : List ℕ) (spec : Specification) (refusal : Refusal) → Says first_reading bytes spec → IsFirstRefusal first_reading bytes refusal → ⊥ }
    ensures one_spec { (bytes : List ℕ) (c d : Specification) → Says first_reading bytes c → Says first_reading bytes d → c ≡ d }
    ensures one_refusal { (bytes : List ℕ) (r s : Refusal) → IsFirstRefusal first_reading bytes r → IsFirstRefusal first_reading bytes s → r ≡ s }
{}

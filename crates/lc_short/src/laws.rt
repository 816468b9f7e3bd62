//! What holds of the texts of short developments. The function is a law: it does nothing, and its contract is the law.
ghost use Rattle.std.specs.Prelude.{◌≡◌, ◌⊎◌, ℕ, List, []};
ghost use Rattle.lc_base.specs.declared.refusal.Refusal.{Refusal};
ghost use Rattle.lc_outline.specs.Development.{Development};
ghost use Rattle.lc_reading.specs.Files.{Says};
ghost use Rattle.lc_outline_text.specs.Developments.{file_reading};
ghost use Rattle.lc_short.specs.Shorts.{Short, SaysShort, IsShortRefusal};

/// Each development is a short one that lacks nothing, and says nothing else.
pub fn a_development_is_a_short_one()
    ensures left_as_it_is { (bytes : List ℕ) (d : Development) → Says file_reading bytes d → SaysShort bytes (record { whole = d; lacking = [] }) }
    ensures and_no_other { (bytes : List ℕ) (d : Development) (s : Short) → Says file_reading bytes d → SaysShort bytes s → (s.whole ≡ d) × (s.lacking ≡ []) }
{}

/// Each file says one short development, or it has one first refusal; and never both.
pub fn a_short_one_is_read_or_refused()
    ensures one { (bytes : List ℕ) → ((s : Short) × SaysShort bytes s) ⊎ ((refusal : Refusal) × IsShortRefusal bytes refusal) }
    ensures not_both { (bytes : List ℕ) (s : Short) (refusal : Refusal) → SaysShort bytes s → IsShortRefusal bytes refusal → ⊥ }
    ensures one_refusal { (bytes : List ℕ) (r s : Refusal) → IsShortRefusal bytes r → IsShortRefusal bytes s → r ≡ s }
{}

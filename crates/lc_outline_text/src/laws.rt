//! What holds of the texts of developments. The function is a law: it does nothing, and its contract is the law.
ghost use Rattle.std.specs.Prelude.{◌≡◌, ◌⊎◌, ℕ, List};
ghost use Rattle.lc_base.specs.declared.refusal.Refusal.{Refusal};
ghost use Rattle.lc_outline.specs.Development.{Development};
ghost use Rattle.lc_reading.specs.Files.{Says, IsFirstRefusal};
ghost use Rattle.lc_outline_text.specs.Developments.{file_reading};

/// Each file is a development file, which says one development, or it has one first refusal; and never both.
pub fn a_development_is_read_or_refused()
    ensures one { (bytes : List ℕ) → ((d : Development) × Says file_reading bytes d) ⊎ ((refusal : Refusal) × IsFirstRefusal file_reading bytes refusal) }
    ensures not_both { (bytes : List ℕ) (d : Development) (refusal : Refusal) → Says file_reading bytes d → IsFirstRefusal file_reading bytes refusal → ⊥ }
    ensures one_development { (bytes : List ℕ) (c d : Development) → Says file_reading bytes c → Says file_reading bytes d → c ≡ d }
    ensures one_refusal { (bytes : List ℕ) (r s : Refusal) → IsFirstRefusal file_reading bytes r → IsFirstRefusal file_reading bytes s → r ≡ s }
{}

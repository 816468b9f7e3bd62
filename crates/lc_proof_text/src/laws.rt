//! What holds of the texts of formula files. The function is a law: it does nothing, and its contract is the law.
ghost use Rattle.std.specs.Prelude.{◌≡◌, ◌⊎◌, ℕ, List};
ghost use Rattle.lc_base.specs.declared.refusal.Refusal.{Refusal};
ghost use Rattle.lc_reading.specs.Files.{Says, IsFirstRefusal};
ghost use Rattle.lc_proof_text.specs.Files.{Claim, file_reading};

/// Each file is a formula file, which says one thing, or it has one first refusal; and never both.
pub fn a_file_is_read_or_refused()
    ensures one { (bytes : List ℕ) → ((claim : Claim) × Says file_reading bytes claim) ⊎ ((refusal : Refusal) × IsFirstRefusal file_reading bytes refusal) }
    ensures not_both { (bytes : List ℕ) (claim : Claim) (refusal : Refusal) → Says file_reading bytes claim → IsFirstRefusal file_reading bytes refusal → ⊥ }
    ensures one_claim { (bytes : List ℕ) (c d : Claim) → Says file_reading bytes c → Says file_reading bytes d → c ≡ d }
    ensures one_refusal { (bytes : List ℕ) (r s : Refusal) → IsFirstRefusal file_reading bytes r → IsFirstRefusal file_reading bytes s → r ≡ s }
{}

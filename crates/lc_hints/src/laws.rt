//! What holds of the texts of hints. The function is a law: it does nothing, and its contract is the law.
ghost use Rattle.std.specs.Prelude.{◌≡◌, ◌⊎◌, ℕ, List};
ghost use Rattle.lc_base.specs.declared.refusal.Refusal.{Refusal};
ghost use Rattle.lc_outline.specs.Development.{Development};
ghost use Rattle.lc_reading.specs.Files.{Says, IsFirstRefusal};
ghost use Rattle.lc_hints.specs.Hints.{Hint};
ghost use Rattle.lc_hints.specs.Readings.{hints_reading};

/// Each text is hints for a development, and says one list of them, or it has one first refusal; and never both.
pub fn hints_are_read_or_refused()
    ensures one { (D : Development) (bytes : List ℕ) → ((hs : List Hint) × Says (hints_reading D) bytes hs) ⊎ ((refusal : Refusal) × IsFirstRefusal (hints_reading D) bytes refusal) }
    ensures not_both { (D : Development) (bytes : List ℕ) (hs : List Hint) (refusal : Refusal) → Says (hints_reading D) bytes hs → IsFirstRefusal (hints_reading D) bytes refusal → ⊥ }
    ensures one_list { (D : Development) (bytes : List ℕ) (hs gs : List Hint) → Says (hints_reading D) bytes hs → Says (hints_reading D) bytes gs → hs ≡ gs }
    ensures one_refusal { (D : Development) (bytes : List ℕ) (r s : Refusal) → IsFirstRefusal (hints_reading D) bytes r → IsFirstRefusal (hints_reading D) bytes s → r ≡ s }
{}

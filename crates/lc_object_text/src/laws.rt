//! What holds of the texts of objects. Each function is a law: it does nothing, and its contract is the law.
ghost use Rattle.std.specs.Prelude.{◌≡◌, ◌⊎◌, true};
ghost use Rattle.lc_base.specs.declared.refusal.Refusal.{Refusal};
ghost use Rattle.lc_sexp.specs.Trees.{Trees};
ghost use Rattle.lc_object.specs.Syntax.{Object};
ghost use Rattle.lc_object.specs.WellFormed.{is_object};
ghost use Rattle.lc_object_text.specs.Answers.{Says, IsFirstRefusal};

/// The forms of each development file say one object, or the file has one first refusal; and never both.
pub fn objects_are_read_or_refused()
    ensures one { (ts : Trees) → ((object : Object) × Says ts object) ⊎ ((refusal : Refusal) × IsFirstRefusal ts refusal) }
    ensures not_both { (ts : Trees) (object : Object) (refusal : Refusal) → Says ts object → IsFirstRefusal ts refusal → ⊥ }
    ensures one_object { (ts : Trees) (c d : Object) → Says ts c → Says ts d → c ≡ d }
    ensures one_refusal { (ts : Trees) (r s : Refusal) → IsFirstRefusal ts r → IsFirstRefusal ts s → r ≡ s }
{}

/// What an object that is read names is there: each instruction has arrays, locals, labels and variables of its own
/// operation, in the right numbers.
pub fn objects_read_are_sound()
    ensures { (ts : Trees) (object : Object) → Says ts object → is_object object ≡ true }
{}

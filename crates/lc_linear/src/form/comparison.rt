//! Whether two forms are the same.
ghost use Rattle.std.specs.Prelude.{◌≡◌, Some, ◌↔◌, IsTrue, IsFalse};
ghost use Rattle.lc_table.specs.declared.node.TermId.{TermId};
ghost use Rattle.lc_linear.specs.Numbered.{AllHave};
ghost use Rattle.lc_linear.specs.LinForm.{numbers, HasNumbers};

use super::LinForm;

impl LinForm {
    /// Whether both forms have the same constant, and the same coefficient of each atom.
    pub fn is_same_as(&self, other: &LinForm) -> bool
        ensures { IsTrue result ↔ HasNumbers self.now (numbers other.now) }
    {
        self.constant == other.constant && other.has_all_of(self) && self.has_all_of(other)
    }

    // Whether it has each coefficient that another form lists.
    fn has_all_of(&self, other: &LinForm) -> bool
        ensures all { IsTrue result → AllHave (numbers self.now) other.now.coefficients.entries }
        ensures different { IsFalse result → (a : TermId) × (numbers self.now (Some a) ≡ numbers other.now (Some a) → ⊥) }
    {
        for (atom, coefficient) in other.coefficients.iter() {
            if self.coefficient(*atom) != *coefficient {
                return false;
            }
        }
        true
    }
}

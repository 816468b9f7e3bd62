//! Linear forms over the atoms of a table.
ghost use Rattle.lc_linear.specs.Numbered.{AllFit};

mod arithmetic;
mod comparison;
mod quotient;

use indexmap::IndexMap;
use lc_table::TermId;
use std::alloc::Global;

/// A linear form: a constant, and a coefficient for each of its atoms. The atoms are numbers of terms in a table, of
/// variables and reads that occur in the terms that the form was made of.
pub struct LinForm {
    constant: i128,
    coefficients: IndexMap<TermId, i128>,
    ghost fits: { AllFit coefficients.entries },
}

// Written out and not derived, so that dropping a form is one call.
impl Drop for LinForm {
    fn drop(self) {
        let LinForm {
            constant: _,
            coefficients: _,
        } = self;
    }
}

impl LinForm {
    ghost use Rattle.std.specs.Prelude.{◌≡◌, Some, None, pos, length, slice_get, option_map, IsTrue, ◌↔◌};
    ghost use Rattle.std.specs.List.{IsDistinct};
    ghost use Rattle.lc_table.specs.declared.node.TermId.{TermId};
    ghost use Rattle.lc_linear.specs.Numbered.{is_same, number_form};
    ghost use Rattle.lc_linear.specs.LinForm.{numbers, atoms, HasNumbers, IsListed};

    /// The form that is 0.
    pub fn zero(alloc: Global) -> LinForm
        ensures { HasNumbers result (number_form (pos 0)) }
    {
        LinForm {
            constant: 0,
            coefficients: IndexMap::new(alloc),
        }
    }

    /// Its constant.
    pub fn constant(&self) -> i128
        ensures { result ≡ numbers self.now None }
    {
        self.constant
    }

    /// Its coefficient of an atom, 0 if there is none.
    pub fn coefficient(&self, atom: TermId) -> i128
        ensures { result ≡ numbers self.now (Some atom) }
    {
        self.coefficients.get(&atom).copied().unwrap_or(0)
    }

    /// How many atoms it lists: no atom twice, and each whose coefficient is not 0.
    pub fn atom_count(&self) -> usize
        ensures count { result ≡ length (atoms self.now) }
        ensures distinct { IsDistinct is_same (atoms self.now) }
        ensures all { (a : TermId) → (numbers self.now (Some a) ≡ pos 0 → ⊥) → IsListed self.now a }
    {
        self.coefficients.len()
    }

    /// The atom at a place of the list, with its coefficient; none after the last one.
    pub fn atom_at(&self, place: usize) -> Option<(TermId, i128)>
        ensures { result ≡ option_map (λ a. (a, numbers self.now (Some a))) (slice_get (atoms self.now) place) }
    {
        match self.coefficients.get_index(place) {
            Some((atom, coefficient)) => Some((*atom, *coefficient)),
            None => None,
        }
    }

    /// Whether all its coefficients are 0.
    pub fn is_constant(&self) -> bool
        ensures { IsTrue result ↔ ((a : TermId) → numbers self.now (Some a) ≡ pos 0) }
    {
        for (_, coefficient) in self.coefficients.iter() {
            if *coefficient != 0 {
                return false;
            }
        }
        true
    }
}

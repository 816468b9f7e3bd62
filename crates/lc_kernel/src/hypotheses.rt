//! Lists of hypotheses that goals share.
use lc_base::OutOfMemory;
use lc_table::FormulaId;
use std::marker::Model;
use std::sync::ArcSlice;

/// Hypotheses, by their numbers in a table: the first ones of a list that is stored once, for all goals that have it.
#[derive(Drop)]
pub struct Hypotheses {
    list: ArcSlice<FormulaId>,
    count: usize,
}

impl Model for Hypotheses {
    ghost use Rattle.std.specs.Prelude.{◌≤◌, List, length, take};
    ghost use Rattle.std.specs.Arc.{arc_slice_items};
    ghost use Rattle.lc_table.specs.declared.node.FormulaId.{FormulaId};

    ghost Value = { List FormulaId };

    ghost view = { λ h. take h.count (arc_slice_items h.list) };

    ghost invariant = { λ h. h.count ≤ length (arc_slice_items h.list) };
}

impl Hypotheses {
    ghost use Rattle.std.specs.Prelude.{◌≡◌, ◌≤◌, length, take, IfOk};

    /// These formulas.
    pub fn new(formulas: Vec<FormulaId>) -> Result<Hypotheses, OutOfMemory>
        ensures { IfOk result (λ hypotheses. hypotheses ≡ formulas.items) }
    {
        let count = formulas.len();
        let list = ArcSlice::from_vec(formulas)?;
        Ok(Hypotheses { list, count })
    }

    /// The same, in the same memory.
    pub fn share(&self) -> Result<Hypotheses, OutOfMemory>
        ensures { IfOk result (λ hypotheses. hypotheses ≡ self.now) }
    {
        self.first(self.count)
    }

    /// The first `count`, in the same memory.
    pub fn first(&self, count: usize) -> Result<Hypotheses, OutOfMemory>
        requires { count ≤ length self.now }
        ensures { IfOk result (λ hypotheses. hypotheses ≡ take count self.now) }
    {
        let list = self.list.clone()?;
        Ok(Hypotheses { list, count })
    }

    pub fn as_slice(&self) -> &[FormulaId]
        ensures { result.now ≡ self.now }
    {
        &self.list.as_slice()[..self.count]
    }
}

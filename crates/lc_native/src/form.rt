//! The specifications that native objects follow, but for their names.
use crate::matching::all_match;
use lc_seq::{Branch, TextSpec};

/// An operation of a specification but for its names: how many arguments it takes, and its branches.
#[derive(Drop)]
pub(crate) struct OperationForm {
    pub(crate) arguments: usize,
    pub(crate) branches: Vec<Branch>,
}

/// A specification but for its names: the numbers of its columns, and its operations.
#[derive(Drop)]
pub(crate) struct Form {
    pub(crate) columns: Vec<(i64, i64)>,
    pub(crate) operations: Vec<OperationForm>,
}

impl Form {
    ghost use Rattle.std.specs.Prelude.{◌≡◌, ◌↔◌, IsTrue};
    ghost use Rattle.lc_seq.specs.TextView.{specification_of};
    ghost use Rattle.lc_native.specs.Form.{form_of_specification};
    ghost use Rattle.lc_native.specs.FormView.{form_of};

    // Whether a specification has this form.
    pub(crate) fn is_of(&self, spec: &TextSpec) -> bool
        ensures { IsTrue result ↔ (form_of_specification (specification_of spec.now) ≡ form_of self.now) }
    {
        all_match(spec.columns(), &self.columns) && all_match(spec.operations(), &self.operations)
    }
}

//! What a step of a proof finds.
use lc_table::FormulaId;

/// What a step finds: the hypotheses and, after them, what the steps before it appended; how many variables are in use; and
/// how many proofs are below the step.
#[derive(Clone, Copy)]
pub(crate) struct Setting<'a> {
    pub(crate) given: &'a [FormulaId],
    pub(crate) appended: &'a [FormulaId],
    pub(crate) variables: u32,
    pub(crate) proofs: usize,
}

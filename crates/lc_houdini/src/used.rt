//! What a proof uses of what it starts from.
use crate::marks::set;
use lc_kernel::{Proof, Step};

/// Marks a hypothesis, if it is one of the first.
fn mark(used: &mut [bool], hypothesis: i64) {
    if let Ok(place) = usize::try_from(hypothesis) {
        set(used, place, true);
    }
}

/// Marks the hypotheses that a step names.
fn mark_step(used: &mut [bool], step: &Step) {
    match step {
        Step::Split { hypothesis }
        | Step::Cases { hypothesis }
        | Step::Push { hypothesis }
        | Step::Fresh { hypothesis }
        | Step::Trichotomy { hypothesis } => mark(used, *hypothesis),
        Step::Instantiate { hypothesis, .. } | Step::Divide { hypothesis, .. } => {
            mark(used, *hypothesis)
        }
        Step::Sum { multiples } => {
            for multiple in multiples {
                mark(used, multiple.hypothesis);
            }
        }
        Step::Opposite {
            hypothesis,
            negation,
        } => {
            mark(used, *hypothesis);
            mark(used, *negation);
        }
        _ => {}
    }
}

/// Marks those of the first hypotheses that the steps of a proof name: without the others it would be one too.
pub(crate) fn mark_used(used: &mut [bool], proof: &Proof) {
    mark_step(used, &proof.step);
    for branch in &proof.branches {
        mark_used(used, branch);
    }
}

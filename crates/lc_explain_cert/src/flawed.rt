//! The step that a refusal is about.
use crate::names::Names;
use crate::sentence::Sentence;
use lc_base::{OutOfMemory, Refusal};
use lc_explain::{Label, located, proof_place, step_place};
use lc_kernel::Reason;
use lc_place::{Place, item_place};
use std::alloc::Global;

/// The reason of this number.
pub(crate) fn reason_of(code: u8) -> Option<Reason> {
    [
        Reason::NoHypothesis,
        Reason::WrongForm,
        Reason::VariableNotInUse,
        Reason::DoesNotClose,
        Reason::NotDivisible,
        Reason::NotOpposite,
        Reason::IsOpen,
        Reason::WrongQuotient,
    ]
    .iter()
    .copied()
    .find(|reason| reason.code() == code)
}

/// A step that does not hold, and why; without a reason its arithmetic leaves 128 bits.
#[derive(Clone, Copy)]
pub(crate) struct Flawed {
    pub step: u64,
    pub reason: Option<Reason>,
}

impl Flawed {
    /// The step that a refusal is about.
    pub(crate) fn of(refusal: &Refusal) -> Option<Flawed> {
        match refusal {
            Refusal::Proof(_, step, code) => {
                let reason = Some(reason_of(*code)?);
                Some(Flawed {
                    step: *step,
                    reason,
                })
            }
            Refusal::Large(_, step) => Some(Flawed {
                step: *step,
                reason: None,
            }),
            _ => None,
        }
    }

    /// The place of the step in the only proof of a file; else that of the proof, or of the first form.
    pub(crate) fn place(self, bytes: &[u8]) -> Option<Place> {
        let Some(proof) = proof_place(bytes, None) else {
            return item_place(bytes, 0);
        };
        match step_place(bytes, proof, self.step) {
            Some(step) => Some(step),
            None => Some(proof),
        }
    }
}

/// A sentence about a place, followed by these lines.
pub(crate) fn said(
    alloc: Global,
    path: &str,
    bytes: &[u8],
    place: Option<Place>,
    sentence: Sentence<'_>,
    lines: Option<String>,
) -> Result<Option<Vec<u8>>, OutOfMemory> {
    let Some(place) = place else {
        return Ok(None);
    };
    let sentence = format!(in alloc; "{sentence}")?;
    let mut text = located(alloc, path, bytes, place, Label::Error, &sentence)?;
    if let Some(lines) = lines {
        text.extend_from_slice(lines.as_bytes())?;
    }
    Ok(Some(text))
}

/// These lines, followed by the names of the variables, if there are any.
pub(crate) fn with_variables(
    names: &Names<'_>,
    lines: Option<String>,
) -> Result<Option<String>, OutOfMemory> {
    let Some(mut lines) = lines else {
        return Ok(None);
    };
    names.push_variables(&mut lines)?;
    Ok(Some(lines))
}

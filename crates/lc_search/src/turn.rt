//! What a rule of the search comes to.

use lc_facts::{Known, ProofId, Step, Weighed};
use lc_farkas::Stop;

/// What a rule of the search came to.
#[derive(Drop)]
pub(crate) enum Turn {
    /// It has nothing to do.
    Next,
    /// Something more is known.
    Again,
    /// What is known contradicts itself.
    Closed(ProofId),
    /// This is to be split now.
    Split(Step),
}

impl Turn {
    /// Whether the rule has nothing to do.
    pub(crate) fn is_next(&self) -> bool {
        matches!(self, Turn::Next)
    }

    /// After something was assumed.
    pub(crate) fn after(closed: Option<ProofId>) -> Turn {
        match closed {
            Some(proof) => Turn::Closed(proof),
            None => Turn::Again,
        }
    }
}

/// A step whose branches were weighed: taken if at most one is open.
pub(crate) fn taken(known: &mut Known, weighed: Weighed) -> Result<Turn, Stop> {
    match weighed {
        Weighed::Closed(proof) => Ok(Turn::Closed(proof)),
        Weighed::Unit(step) => known.take(step).map(Turn::after),
        Weighed::Split(step) => Ok(Turn::Split(step)),
    }
}

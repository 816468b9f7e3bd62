//! What a rider does, as it is read.
use lc_base::OpId;
use lc_rider::{Choosing, Rider, When};
use lc_term::{Term, Update};

/// What a rider does.
pub(crate) enum Deed {
    /// A value is stored.
    Assign(Update),
    /// The client's own call takes effect.
    LinSelf {
        by: Choosing,
    },
    /// The call of this operation by another client takes effect.
    LinOther {
        client: Term,
        operation: OpId,
        by: Choosing,
    },
    /// The replies of the client's own call are noted.
    Note {
        by: Choosing,
    },
}

// Written out, so that dropping a deed is one call.
impl Drop for Deed {
    fn drop(self) {
        match self {
            Deed::Assign(_) => {}
            Deed::LinSelf { by: _ } | Deed::Note { by: _ } => {}
            Deed::LinOther {
                client: _,
                operation: _,
                by: _,
            } => {}
        }
    }
}

impl Deed {
    ghost use Rattle.std.specs.Prelude.{◌≡◌, option_map};
    ghost use Rattle.lc_rider.specs.RiderView.{formula_in, rider_of};
    ghost use Rattle.lc_rider_text.specs.Seen.{deed_of};

    /// The rider that does this under a condition, or always.
    pub(crate) fn under(self, condition: Option<When>) -> Rider
        ensures { rider_of result ≡ record { condition = option_map formula_in condition; deed = deed_of self } }
    {
        match self {
            Deed::Assign(update) => Rider::Assign { condition, update },
            Deed::LinSelf { by } => Rider::LinSelf { condition, by },
            Deed::LinOther {
                client,
                operation,
                by,
            } => Rider::LinOther {
                condition,
                client,
                operation,
                by,
            },
            Deed::Note { by } => Rider::Note { condition, by },
        }
    }
}

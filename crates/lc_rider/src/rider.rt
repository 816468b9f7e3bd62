//! The type of riders: what they do, under which condition.
ghost use Rattle.std.specs.Prelude.{◌≡◌, true};
ghost use Rattle.lc_term.specs.Truth.{is_ground};
ghost use Rattle.lc_term.specs.View.{formula_of};

use lc_base::{Name, OpId};
use lc_seq::Label;
use lc_term::{Formula, Term, Update, is_ground_of_quantifiers};

/// A formula without quantifiers, under which a rider acts.
pub struct When {
    formula: Formula,
    ghost is_open: { is_ground (formula_of formula) ≡ true },
}

impl Drop for When {
    fn drop(self) {
        let When { formula: _ } = self;
    }
}

impl When {
    ghost use Rattle.std.specs.Prelude.{◌≡◌, ◌↔◌, true, IsSome, IfSome};
    ghost use Rattle.lc_term.specs.Truth.{is_ground};
    ghost use Rattle.lc_term.specs.View.{formula_of};
    ghost use Rattle.lc_rider.specs.RiderView.{formula_in};

    /// This formula, if no quantifier occurs in it.
    pub fn new(formula: Formula) -> Option<When>
        ensures some { IsSome result ↔ (is_ground (formula_of formula) ≡ true) }
        ensures value { IfSome result (λ when. formula_in when ≡ formula_of formula) }
    {
        if is_ground_of_quantifiers(&formula) {
            Some(When { formula })
        } else {
            None
        }
    }

    /// The formula.
    pub fn formula(&self) -> &Formula
        ensures formula { formula_of result.now ≡ formula_in self.now }
        ensures ground { is_ground (formula_of result.now) ≡ true }
    {
        &self.formula
    }
}

/// How a mark's branch is chosen: the first whose guard holds, or the one of a name, with terms for its parameters.
#[derive(Drop)]
pub enum Choosing {
    First,
    Named { name: Name, terms: Vec<Term> },
}

impl Choosing {
    ghost use Rattle.std.specs.Prelude.{◌≡◌, map};
    ghost use Rattle.lc_term.specs.View.{term_of};
    ghost use Rattle.lc_seq.specs.Sequential.{given_in};
    ghost use Rattle.lc_seq.specs.Specification.{agree};
    ghost use Rattle.lc_seq.specs.SpecView.{label_of};
    ghost use Rattle.lc_rider.specs.RiderView.{choosing_of};

    /// The terms for its parameters.
    pub fn terms(&self) -> &[Term]
        ensures { map term_of result.now ≡ given_in (choosing_of self.now) }
    {
        match self {
            Choosing::First => &[],
            Choosing::Named { terms, .. } => terms,
        }
    }

    /// Whether it leaves a branch of this label.
    pub fn leaves(&self, label: &Label) -> bool
        ensures { result ≡ agree (label_of label.now) (choosing_of self.now) }
    {
        match self {
            Choosing::First => label.is_in_order(),
            Choosing::Named { name, terms } => label.names(name.as_str(), terms.len()),
        }
    }
}

/// What is done beside an instruction, after it, always or if a condition holds. Variables are those of the
/// operation's code, after the instruction.
pub enum Rider {
    /// A value is stored.
    Assign {
        condition: Option<When>,
        update: Update,
    },
    /// The client's own call takes effect.
    LinSelf {
        condition: Option<When>,
        by: Choosing,
    },
    /// The call of this operation by another client takes effect.
    LinOther {
        condition: Option<When>,
        client: Term,
        operation: OpId,
        by: Choosing,
    },
    /// The replies of the client's own call are noted: if the call returns next, it has taken effect here.
    Note {
        condition: Option<When>,
        by: Choosing,
    },
}

// Written out, so that dropping a rider is one call.
impl Drop for Rider {
    fn drop(self) {
        match self {
            Rider::Assign {
                condition: _,
                update: _,
            } => {}
            Rider::LinSelf {
                condition: _,
                by: _,
            }
            | Rider::Note {
                condition: _,
                by: _,
            } => {}
            Rider::LinOther {
                condition: _,
                client: _,
                operation: _,
                by: _,
            } => {}
        }
    }
}

impl Rider {
    ghost use Rattle.std.specs.Prelude.{◌≡◌, option_map};
    ghost use Rattle.lc_rider.specs.RiderView.{formula_in, rider_of};

    /// Under which condition it acts, if there is one.
    pub fn condition(&self) -> Option<&When>
        ensures { option_map (λ when. formula_in when.now) result ≡ (rider_of self.now).condition }
    {
        match self {
            Rider::Assign { condition, .. }
            | Rider::LinSelf { condition, .. }
            | Rider::LinOther { condition, .. }
            | Rider::Note { condition, .. } => condition.as_ref(),
        }
    }
}

//! Riders, actions and conjuncts.
ghost use Rattle.std.specs.Prelude.{◌≡◌, ◌↔◌, IsTrue, option_map};
ghost use Rattle.lc_rider.specs.RiderView.{formula_in};

use crate::sameness::{Same, are_same};
use lc_action::Action;
use lc_rider::{Choosing, Rider, When};
use lc_tie::Conjunct;

fn is_same_condition(left: &Option<When>, right: &Option<When>) -> bool
    ensures { IsTrue result ↔ (option_map formula_in left.now ≡ option_map formula_in right.now) }
{
    match (left, right) {
        (None, None) => true,
        (Some(when), Some(other)) => when.formula().is_same(other.formula()),
        _ => false,
    }
}

impl Same for Choosing {
    ghost use Rattle.lc_term.specs.Syntax as T;
    ghost use Rattle.lc_seq.specs.Sequential.{Chosen};
    ghost use Rattle.lc_rider.specs.RiderView.{choosing_of};

    ghost Shown = { Chosen T.Term };

    ghost shown = { choosing_of };

    fn is_same(&self, other: &Choosing) -> bool {
        match (self, other) {
            (Choosing::First, Choosing::First) => true,
            (
                Choosing::Named { name, terms },
                Choosing::Named {
                    name: other_name,
                    terms: other_terms,
                },
            ) => name.is_same(other_name) && are_same(terms, other_terms),
            _ => false,
        }
    }
}

impl Same for Rider {
    ghost use Rattle.lc_rider.specs.Rider as S;
    ghost use Rattle.lc_rider.specs.RiderView.{rider_of};

    ghost Shown = { S.Rider };

    ghost shown = { rider_of };

    fn is_same(&self, other: &Rider) -> bool {
        match (self, other) {
            (
                Rider::Assign {
                    condition: c,
                    update: u,
                },
                Rider::Assign { condition, update },
            ) => is_same_condition(c, condition) && u.is_same(update),
            (
                Rider::LinSelf {
                    condition: c,
                    by: how,
                },
                Rider::LinSelf { condition, by },
            ) => is_same_condition(c, condition) && how.is_same(by),
            (
                Rider::LinOther {
                    condition: c,
                    client: t,
                    operation: o,
                    by: how,
                },
                Rider::LinOther {
                    condition,
                    client,
                    operation,
                    by,
                },
            ) => {
                is_same_condition(c, condition)
                    && t.is_same(client)
                    && o == operation
                    && how.is_same(by)
            }
            (
                Rider::Note {
                    condition: c,
                    by: how,
                },
                Rider::Note { condition, by },
            ) => is_same_condition(c, condition) && how.is_same(by),
            _ => false,
        }
    }
}

impl Same for Action {
    ghost use Rattle.lc_action.specs.Action as S;
    ghost use Rattle.lc_action.specs.ActionView.{action_of};

    ghost Shown = { S.Action };

    ghost shown = { action_of };

    fn is_same(&self, other: &Action) -> bool {
        self.name.is_same(&other.name)
            && are_same(&self.params, &other.params)
            && self.guard.is_same(&other.guard)
            && are_same(&self.updates, &other.updates)
    }
}

impl Same for Conjunct {
    ghost use Rattle.lc_tie.specs.Tie as S;
    ghost use Rattle.lc_tie.specs.TieView.{conjunct_of};

    ghost Shown = { S.Conjunct };

    ghost shown = { conjunct_of };

    fn is_same(&self, other: &Conjunct) -> bool {
        self.name.is_same(&other.name) && self.formula.is_same(&other.formula)
    }
}

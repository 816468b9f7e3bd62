//! Whether two developments are the same: part by part, as the values that the parts stand for.
ghost use Rattle.std.specs.Prelude.{◌≡◌, ◌↔◌, IsTrue, map};

use lc_base::{ColId, Name};
use lc_term::laws::equality_is_exact;
use lc_term::{Formula, Term, Update};

mod objects;
mod outlines;
mod riders;
mod specifications;

/// What can be compared with its like.
pub(crate) trait Same {
    ghost use Rattle.std.specs.Prelude.{◌≡◌, ◌↔◌, IsTrue};

    ghost Shown: { Type 0 };

    // What it stands for.
    ghost shown: { Self → Shown };

    /// Whether the other one stands for the same.
    fn is_same(&self, other: &Self) -> bool
        ensures { IsTrue result ↔ (shown self.now ≡ shown other.now) };
}

/// Whether there are as many on either side, and each is the same as the one in its place.
pub(crate) fn are_same<T: Same>(left: &[T], right: &[T]) -> bool
    ensures { IsTrue result ↔ (map T.shown left.now ≡ map T.shown right.now) }
{
    let mut rest = right;
    for item in left {
        let Some((first, others)) = rest.split_first() else {
            return false;
        };
        if !item.is_same(first) {
            return false;
        }
        rest = others;
    }
    rest.is_empty()
}

impl Same for Name {
    ghost use Rattle.std.specs.Prelude.{ℕ, List};
    ghost use Rattle.lc_base.specs.Name.{bytes_of};

    ghost Shown = { List ℕ };

    ghost shown = { bytes_of };

    fn is_same(&self, other: &Name) -> bool {
        self.as_str() == other.as_str()
    }
}

impl Same for ColId {
    ghost use Rattle.std.specs.Prelude.{ℕ};

    ghost Shown = { ℕ };

    ghost shown = { λ c. c.0 };

    fn is_same(&self, other: &ColId) -> bool {
        self == other
    }
}

impl Same for Term {
    ghost use Rattle.lc_term.specs.Syntax as S;
    ghost use Rattle.lc_term.specs.View.{term_of};

    ghost Shown = { S.Term };

    ghost shown = { term_of };

    fn is_same(&self, other: &Term) -> bool {
        equality_is_exact();
        self == other
    }
}

impl Same for Formula {
    ghost use Rattle.lc_term.specs.Syntax as S;
    ghost use Rattle.lc_term.specs.View.{formula_of};

    ghost Shown = { S.Formula };

    ghost shown = { formula_of };

    fn is_same(&self, other: &Formula) -> bool {
        equality_is_exact();
        self == other
    }
}

impl Same for Update {
    ghost use Rattle.lc_term.specs.Updates as U;
    ghost use Rattle.lc_term.specs.UpdateView.{update_of};

    ghost Shown = { U.Update };

    ghost shown = { update_of };

    fn is_same(&self, other: &Update) -> bool {
        self.column == other.column
            && self.index.is_same(&other.index)
            && self.value.is_same(&other.value)
    }
}

//! What is beside the code, and developments.
use crate::development::Development;
use crate::parts::{On, Outline, Parts};
use crate::sameness::{Same, are_same};

impl Same for On {
    ghost use Rattle.lc_outline.specs.Development as S;
    ghost use Rattle.lc_outline.specs.PartsView.{on_of};

    ghost Shown = { S.On };

    ghost shown = { on_of };

    fn is_same(&self, other: &On) -> bool {
        self.edge.is_same(&other.edge)
            && self.action.0 == other.action.0
            && are_same(&self.arguments, &other.arguments)
            && are_same(&self.riders, &other.riders)
    }
}

impl Same for Outline {
    ghost use Rattle.lc_outline.specs.Development as S;
    ghost use Rattle.lc_outline.specs.PartsView.{outline_of};

    ghost Shown = { S.Outline };

    ghost shown = { outline_of };

    fn is_same(&self, other: &Outline) -> bool {
        are_same(&self.asserts, &other.asserts) && are_same(&self.ons, &other.ons)
    }
}

impl Same for Parts {
    ghost use Rattle.lc_outline.specs.Development as S;
    ghost use Rattle.lc_outline.specs.PartsView.{parts_view};

    ghost Shown = { S.Development };

    ghost shown = { parts_view };

    fn is_same(&self, other: &Parts) -> bool {
        self.specification.is_same(&other.specification)
            && self.object.is_same(&other.object)
            && are_same(&self.auxiliaries, &other.auxiliaries)
            && are_same(&self.actions, &other.actions)
            && are_same(self.tie.conjuncts(), other.tie.conjuncts())
            && are_same(&self.idle, &other.idle)
            && are_same(&self.outlines, &other.outlines)
    }
}

impl Development {
    ghost use Rattle.std.specs.Prelude.{◌≡◌, ◌↔◌, IsTrue};
    ghost use Rattle.lc_outline.specs.DevelopmentView.{development_view};

    /// Whether the other one is the same development.
    pub fn is_same(&self, other: &Development) -> bool
        ensures { IsTrue result ↔ (development_view self.now ≡ development_view other.now) }
    {
        self.parts.is_same(&other.parts)
    }
}

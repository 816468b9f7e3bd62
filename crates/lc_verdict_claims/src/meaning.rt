//! What derived conditions mean, and the columns that a step leaves.
ghost use Rattle.lc_outline.specs.DevelopmentView.{development_view};
ghost use Rattle.lc_sound.specs.Derived.{AreDerived};
ghost use Rattle.lc_sound.specs.Valid.{AreValid};
ghost use Rattle.lc_verdict_claims.specs.Columns.{StepsLeaveColumns};

use lc_outline::Development;
use lc_sound::derived_conditions_are_valid;
use lc_sound::laws::edges_go_by_paths;

/// If each condition of a development has a derivation, all its conditions are valid.
pub fn validating(development: &Development)
    requires { AreDerived (development_view development.now) }
    ensures { AreValid (development_view development.now) }
{
    derived_conditions_are_valid(development);
}

/// A step by an edge leaves the columns after a path of the edge, in which a call that returns is no longer pending.
pub fn leaving_columns()
    ensures { StepsLeaveColumns }
{
    edges_go_by_paths();
}

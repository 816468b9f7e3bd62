//! The theorems by which valid conditions make an object linearizable.
ghost use Rattle.lc_outline.specs.DevelopmentView.{development_view};
ghost use Rattle.lc_sound.specs.Claims.{OutlineHolds, StepsAreInstrumented, StepsAreInstances, RunsAreInstrumented, MarksLinearize};
ghost use Rattle.lc_sound.specs.Derived.{AreDerived};
ghost use Rattle.lc_sound.specs.Linearizable.{IsLinearizableObject};
ghost use Rattle.lc_sound.specs.Rely.{StepsAreGuaranteed, AssertionsAreStable};
ghost use Rattle.lc_sound.specs.Valid.{AreValid};

use lc_outline::Development;

/// If each condition of a development has a derivation, all its conditions are valid.
pub fn derived_conditions_are_valid(development: &Development)
    requires derived { AreDerived (development_view development.now) }
    ensures valid { AreValid (development_view development.now) }
{}

/// If all conditions of a development are valid, then for every number of clients: in every world that an instrumented run
/// reaches the invariant, the frames and the assertions hold; each bare step there has its instrumented step, so that each
/// mark is lawful and each return justified; each step is an instance of its edge's action, and in its client's guarantee; and
/// what is asserted of a client stays under its rely.
pub fn outline_holds(development: &Development)
    requires valid { AreValid (development_view development.now) }
    ensures holds { OutlineHolds (development_view development.now) }
    ensures lifts { StepsAreInstrumented (development_view development.now) }
    ensures acts { StepsAreInstances (development_view development.now) }
    ensures guaranteed { StepsAreGuaranteed (development_view development.now) }
    ensures stable { AssertionsAreStable (development_view development.now) }
{}

/// If all conditions of a development are valid, then for every number of clients and every list of single-access steps of its
/// object, the history of calls and returns is linearizable by its specification. Over the steps there is an instrumented run,
/// and the order of its marks is one that linearizes the history.
pub fn linearizable_runs(development: &Development)
    requires valid { AreValid (development_view development.now) }
    ensures simulated { RunsAreInstrumented (development_view development.now) }
    ensures ordered { MarksLinearize (development_view development.now) }
    ensures linearizable { IsLinearizableObject (development_view development.now).specification (development_view development.now).object }
{}

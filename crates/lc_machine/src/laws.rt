//! What holds of the definitions. Each function is a law: it does nothing, and its contract is the law.
ghost use Rattle.std.specs.Prelude.{◌≡◌, ◌↔◌, ℕ, ℤ, List, [], ◌∷◌, ◌++◌, Some, true, slice_get};
ghost use Rattle.lc_term.specs.Meaning.{State};
ghost use Rattle.lc_object.specs.Syntax.{Object, Point};
ghost use Rattle.lc_object.specs.WellFormed.{is_object};
ghost use Rattle.lc_object.specs.declared.instr.EdgeKind.{EdgeKind};
ghost use Rattle.lc_machine.specs.Runs.{BareLabel, BareRuns};
ghost use Rattle.lc_machine.specs.Step.{Does, Outcome, Steps};
ghost use Rattle.lc_machine.specs.World.{World};
ghost use Rattle.lc_machine.specs.EdgeSteps.{GoesBySome};

/// What the instruction at a point does is what the table of edges says: it goes by an edge of a kind exactly if
/// the facts of such an edge hold, and does what that edge does.
pub fn edges_give_the_steps()
    ensures { (object : Object) → is_object object ≡ true → (p : ℕ) (point : Point) → slice_get object.points p ≡ Some point →
        (s s' : State) (variables : List ℤ) (kind : EdgeKind) (outcome : Outcome) →
        Does object s variables point.instruction kind s' outcome ↔ GoesBySome object p kind s variables s' outcome }
{}

/// Steps from a world, and one more from where they end, are steps from that world.
pub fn a_run_goes_on()
    ensures { (object : Object) (start world next : World) (labels : List BareLabel) (label : BareLabel) →
        BareRuns object start labels world → Steps object world label.client label.what next → BareRuns object start (labels ++ label ∷ []) next }
{}

//! Laws of the definitions: functions without effect, whose contracts are the laws.
ghost use Rattle.std.specs.Prelude.{List};
ghost use Rattle.lc_history.specs.History.{Linearizes};
ghost use Rattle.lc_sound.specs.Claims.{OutlinesHold, BareStepsLift, StepsAreActions, RunsAreSimulated, OrdersLinearize, RunsStandOver, RunsExtend, StepsAreDetermined, Headline};
ghost use Rattle.lc_sound.specs.EdgePaths.{EdgePathsExclude, StepsArePaths, RunsAreOrdinary};
ghost use Rattle.lc_sound.specs.Happening.{Happening, events, counted};
ghost use Rattle.lc_sound.specs.Lawful.{Free, IsLawful};
ghost use Rattle.lc_sound.specs.Rely.{StepsAreInGuarantees, RelyKeepsAssertions};

use lc_seq::SeqObject;

/// If what happens is lawful from the start of an object, with no client in a call, the order of the marks
/// linearizes the history of calls and returns.
pub fn marks_linearize<S: SeqObject>()
    ensures { (object : S) (happenings : List Happening) → IsLawful (S.step object) (S.start object) (λ c. Free) happenings →
        Linearizes (S.step object) (S.start object) (events happenings) (counted happenings) }
{}

/// For every development, every number of clients and every instrumented run: the order of its marks linearizes its
/// history. This asks for no condition.
pub fn orders_linearize()
    ensures { OrdersLinearize }
{}

/// If all conditions of a development are valid, for every number of clients: in every world that an instrumented run reaches
/// the invariant, the frames and the assertions hold; each bare step there has its instrumented step; each step is an instance
/// of its edge's action, and in its client's guarantee; what is asserted of a client stays under its rely; and over every bare
/// run there is an instrumented run with the same steps.
pub fn outlines_hold()
    ensures holds { OutlinesHold }
    ensures lifts { BareStepsLift }
    ensures acts { StepsAreActions }
    ensures guaranteed { StepsAreInGuarantees }
    ensures stable { RelyKeepsAssertions }
    ensures simulated { RunsAreSimulated }
{}

/// The labels of an instrumented run, without marks, are those of a bare run, and its last world stands over the last world of
/// that. A run and one more step are a run. A client has at most one step, and if it begins a call, one for each call.
pub fn runs_stand_over()
    ensures over { RunsStandOver }
    ensures extends { RunsExtend }
    ensures determined { StepsAreDetermined }
{}

/// The paths of an edge are its instrumented steps. In every state the facts of at most one path hold. If a client's bare step
/// goes by the edge, its instrumented step leads to columns exactly if a path leads to them whose facts hold, whose marks are
/// lawful, and whose replies, on a return, are as they are asked for. This asks that none but clients are in calls, and that
/// each knows its own number, as it is in each world of a run; and does not ask for any condition.
pub fn edges_go_by_paths()
    ensures apart { EdgePathsExclude }
    ensures steps { StepsArePaths }
    ensures ordinary { RunsAreOrdinary }
{}

/// If all conditions of a development are valid, then for every number of clients and every list of single-access steps of its
/// object, the history of calls and returns is linearizable.
pub fn objects_are_linearizable()
    ensures { Headline }
{}

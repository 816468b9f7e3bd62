//! Laws of the definitions: functions without effect, whose contracts are the laws.
ghost use Rattle.lc_cond.specs.CounterCount.{CounterIsCounted};
ghost use Rattle.lc_cond.specs.Listed.{PartsMakeTheList};
ghost use Rattle.lc_cond.specs.Counted.{AreCounted};
ghost use Rattle.lc_cond.specs.Uses.{AllUseTheirVariables};
ghost use Rattle.lc_cond.specs.VariableCounts.{AllHaveFewVariables};
ghost use Rattle.lc_outline.specs.DevelopmentView.{development_view};

use lc_outline::Development;

/// The list of a development's conditions is that of its parts, one after another: the start, the calls that begin, the edges
/// of the code, the points, and idle.
pub fn parts_make_the_list()
    ensures { PartsMakeTheList }
{}

/// Each condition of a development uses no variables but those that it counts: the free variables of its hypotheses and of
/// its goal have numbers below that count.
pub fn conditions_use_their_variables(development: &Development)
    ensures { AllUseTheirVariables (development_view development.now) }
{}

/// No condition of a development has more than 26 variables: the number of clients, a client, three arguments and 16 locals,
/// and after them another client and the parameters of its action.
pub fn conditions_have_few_variables(development: &Development)
    ensures { AllHaveFewVariables (development_view development.now) }
{}

/// A development has as many conditions as its sizes come to: counts of what is asserted, of the ways in which riders are passed
/// and of the columns in which is stored, without the conditions themselves.
pub fn conditions_are_counted(development: &Development)
    ensures { AreCounted (development_view development.now) }
{}

/// The counter has 59 conditions, in its list and by its sizes.
pub fn the_counter_has_fifty_nine_conditions()
    ensures { CounterIsCounted }
{}

//! Laws of the definitions: functions without effect, whose contracts are the laws.
ghost use Rattle.lc_cond_text.specs.CounterLines.{CounterIsPrinted, HelpersAreNamed, NotesObserve};

/// The conditions of the counter are these 59 lines, in this order. With a mark of another client's call there are 60, one of
/// which asks which operation that client is in; with a note one asks that its branch stores nothing.
pub fn counter_conditions()
    ensures lines { CounterIsPrinted }
    ensures named { HelpersAreNamed }
    ensures observing { NotesObserve }
{}

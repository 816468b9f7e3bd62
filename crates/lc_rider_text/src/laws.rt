//! Laws of the definitions: functions without effect, whose contracts are the laws.
ghost use Rattle.lc_rider_text.specs.Counted.{PathsAreCounted};

/// The paths that are counted by a text, before it is read, are those of the riders that it reads as.
pub fn paths_are_counted()
    ensures { PathsAreCounted }
{}

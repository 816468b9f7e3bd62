//! Laws of the definitions: functions without effect, whose contracts are the laws.
ghost use Rattle.lc_rider.specs.PathLaws.{PathsExclude, RunsGoAlong, PathsAreTaken};

/// The paths of riders are their runs: in every state the facts of at most one path hold. If the riders run, they run
/// along a path: its facts hold, its duties are met, and its columns are those that they leave. And if the facts of a
/// path hold and its duties are met, the riders run, and leave its columns.
pub fn paths_are_runs()
    ensures apart { PathsExclude }
    ensures along { RunsGoAlong }
    ensures taken { PathsAreTaken }
{}

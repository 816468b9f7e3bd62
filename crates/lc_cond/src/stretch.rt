//! Stretches of conjuncts. If many are asserted at a point, what is asked of them can be made a stretch at a time.
ghost use Rattle.std.specs.Prelude.{◌≡◌, ◌*◌, ◌<◌, ◌≤◌};
ghost use Rattle.lc_base.specs.Limits.{condition_limit};
ghost use Rattle.lc_cond.specs.Stretches.{IsWithin};

/// Consecutive conjuncts: from the one at this place on, and before the one at that.
#[derive(Clone, Copy)]
pub(crate) struct Stretch {
    pub from: usize,
    pub to: usize,
}

/// All conjuncts, `count` of them.
pub(crate) fn all_of(count: usize) -> Stretch
    ensures { result ≡ record { from = 0; to = count } }
{
    Stretch { from: 0, to: count }
}

// No stretch but the last one of a point is shorter.
const LEAST: usize = 16;

// About how many stretches there are if all conditions are those of one point.
const MOST: u64 = 16;

// About how many actions there are for each stretch of a point, at least.
const SHARE: usize = 2;

// How many conjuncts a stretch has, if a point has `count` of them, each with `each` conditions, one for each action, and there
// are `all` conditions in all. A development that has many parts is not divided further. For each stretch all conjuncts
// of the point are entered anew, which takes as long as to make one condition of each: so a point has fewer stretches than there
// are actions.
fn size_of(count: usize, each: usize, all: u64) -> usize
    requires each { 1 ≤ each }
    requires few { count * each ≤ condition_limit }
    ensures { 1 ≤ result }
{
    let conditions = ((all / MOST) as usize).max(count * SHARE);
    (conditions / each).max(LEAST)
}

/// The stretch that has the condition at this place, if a point has `count` conjuncts, each with `each` conditions, and there are
/// `all` conditions in all.
pub(crate) fn stretch_with(count: usize, each: usize, all: u64, place: u64) -> Stretch
    requires each { 1 ≤ each }
    requires few { count * each ≤ condition_limit }
    ensures within { IsWithin count result }
    ensures has { place < count * each → (result.from * each ≤ place) × (place < result.to * each) }
{
    let size = size_of(count, each, all);
    let conjunct = (place as usize / each).min(count);
    let from = conjunct / size * size;
    let to = from + size.min(count - from);
    Stretch { from, to }
}

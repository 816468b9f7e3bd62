//! What is seen of claims.
ghost use Rattle.lc_watch.specs.Watched.{SeenIsBroken};

use lc_look::laws::looks_are_right;

/// What is seen to be broken is broken: the claim does not hold of the world.
pub fn seen_is_broken()
    ensures { SeenIsBroken }
{
    looks_are_right();
}

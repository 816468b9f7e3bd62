//! What is seen of steps.
ghost use Rattle.lc_acting.specs.NoAction.{SeenIsNoAction};

use lc_look::laws::looks_are_right;

/// A step that is seen to be no instance of its action is none.
pub fn seen_is_no_action()
    ensures { SeenIsNoAction }
{
    looks_are_right();
}

//! What it says of a condition that it fails.
ghost use Rattle.lc_blame.specs.Blame.{BlamedIsNotValid};

use lc_look::laws::looks_are_right;

/// A condition that fails in a state with numbers for which each of its hypotheses is seen to hold is not valid.
pub fn blamed_is_not_valid()
    ensures { BlamedIsNotValid }
{
    looks_are_right();
}

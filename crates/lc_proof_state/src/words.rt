//! What is said of a goal in a state.
ghost use Rattle.std.specs.Prelude.{◌≡◌, ◌↔◌};

use crate::failing::Failing;
use crate::situation::Content;

/// Said exactly if the hypotheses hold and the goal does not.
pub const FAILS: &str = "in this state the hypotheses hold and the goal does not";

/// Said if that is so but for hypotheses that are not evaluated.
const FAILS_BUT: &str =
    "in this state the goal does not hold, and the hypotheses without quantifiers do; the others are not evaluated";

/// Said of all else.
const UNKNOWN: &str =
    "the search ended with these numbers, and no state that they describe was seen to break the condition";

/// What is said when this is known of a goal in a state.
pub fn words_of(failing: Failing) -> &'static str
    ensures { result.now ≡ FAILS.now ↔ failing ≡ Failing.Fails }
{
    match failing {
        Failing::Fails => FAILS,
        Failing::FailsButForQuantifiers => FAILS_BUT,
        Failing::Unknown => UNKNOWN,
    }
}

/// What is said about the cells that are not among those of a state.
pub fn content_words(content: Content) -> &'static str {
    match content {
        Content::Zero => "each other cell is 0",
        Content::Spread =>
            "each other cell is 101 * i + 10007 * k + 5003, where i is its index and k the place of its column",
    }
}

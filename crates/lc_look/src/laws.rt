//! What looking says of formulas.
ghost use Rattle.lc_look.specs.Looking.{LooksAreRight};

/// What is seen of a formula is so, whatever the numbers are at which quantifiers are tried.
pub fn looks_are_right()
    ensures { LooksAreRight }
{}

//! Why a search is given up.

/// Why a search was given up before its end.
#[derive(Clone, Copy, PartialEq, Eq)]
pub enum Cause {
    /// The steps that may be tried are spent.
    Steps,
    /// Too many splits are nested in each other.
    Splits,
    /// Too many cuts at fractions follow one another.
    Cuts,
    /// The proof nests deeper than a text may.
    Nesting,
    /// What was looked at, beside the steps, is too much.
    Work,
}

impl Cause {
    /// The cause in words, to follow "the search was given up:".
    pub fn words(self) -> &'static str {
        match self {
            Cause::Steps => "all steps that may be tried were tried",
            Cause::Splits => "too many splits were nested in each other",
            Cause::Cuts => "too many cuts between whole numbers followed one another",
            Cause::Nesting => "the proof that was found nests deeper than a text may",
            Cause::Work => "looking at what is known took too much work",
        }
    }
}

//! What a sentence is.
ghost use Rattle.std.specs.Prelude.{◌≡◌};
ghost use Rattle.lc_explain.specs.Located.{word_of};

/// What a sentence says of a place.
#[derive(Clone, Copy)]
pub enum Label {
    /// What is wrong there.
    Error,
    /// What else has to be seen.
    Note,
}

impl Label {
    /// Its word.
    pub(crate) fn word(self) -> &'static str
        ensures { result.now ≡ word_of self }
    {
        match self {
            Label::Error => "error",
            Label::Note => "note",
        }
    }
}

//! What is seen of a formula.
ghost use Rattle.std.specs.Prelude.{◌≡◌, Bool};
ghost use Rattle.lc_look.specs.Looking.{seen_if, opposite, both, at_most_open, among, compared};
ghost use Rattle.lc_look.specs.Ranges.{numbers_of};

/// What is seen of a formula.
#[derive(Clone, Copy)]
pub enum Seen {
    /// It holds.
    Yes,
    /// It does not hold.
    No,
    /// Neither was seen.
    Open,
}

impl Seen {
    /// What is seen of the formula's negation.
    pub(crate) fn opposite(self) -> Seen
        ensures { result ≡ opposite self }
    {
        match self {
            Seen::Yes => Seen::No,
            Seen::No => Seen::Yes,
            Seen::Open => Seen::Open,
        }
    }

    /// What is seen of the conjunction with another formula.
    pub(crate) fn and(self, other: Seen) -> Seen
        ensures { result ≡ both self other }
    {
        match self {
            Seen::Yes => other,
            Seen::No => Seen::No,
            Seen::Open => match other {
                Seen::Yes => Seen::Open,
                Seen::No => Seen::No,
                Seen::Open => Seen::Open,
            },
        }
    }

    /// What is seen where some numbers were tried that are not enough.
    fn at_most_open(self) -> Seen
        ensures { result ≡ at_most_open self }
    {
        match self {
            Seen::Yes => Seen::Open,
            Seen::No => Seen::No,
            Seen::Open => Seen::Open,
        }
    }

    /// What is seen of all numbers, if this is seen at those that are tried: all of a range, if there is one.
    pub(crate) fn among(self, range: &Option<Vec<i64>>) -> Seen
        ensures { result ≡ among self (numbers_of range.now) }
    {
        match range {
            Some(_) => self,
            None => self.at_most_open(),
        }
    }

    /// What an answer shows.
    pub(crate) fn of(answer: bool) -> Seen
        ensures { result ≡ seen_if answer }
    {
        if answer { Seen::Yes } else { Seen::No }
    }
}

//! To whom it is reported how far the sifting of guesses is.

/// To it is reported how far the sifting of guesses is.
pub trait Rounds {
    /// Another round begins, in which so many guessed facts are tried.
    fn begins(&mut self, facts: usize);
}

/// Takes all reports, and says nothing of them.
#[derive(Drop)]
pub struct Silent;

impl Rounds for Silent {
    fn begins(&mut self, _: usize) {}
}

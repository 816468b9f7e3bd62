//! What the command line asks for.
use lc_lib_texts::Lib;

/// Which text of an object of the library is asked for.
#[derive(Clone, Copy)]
pub enum LibraryText {
    Development,
    Certificate,
    Hints,
}

/// Which conditions of a development are asked for.
#[derive(Clone, Copy)]
pub enum Chosen<'a> {
    /// The one of this number.
    Number(u64),
    /// Those of a point and of a kind, if these are named.
    Those {
        point: Option<&'a str>,
        kind: Option<&'a str>,
    },
}

/// Whose turn it is in a run, and whether its steps are told.
#[derive(Clone, Copy)]
pub enum Turns {
    /// Each client's, in a thread of its own.
    Free,
    /// That of the client that is drawn, from this seed.
    Drawn(u64),
    /// The same in a run for each seed from the first to before the second.
    DrawnEach(u64, u64),
    /// Each client's in a thread of its own, or drawn from a seed, if one is given; each step is told.
    Traced(Option<u64>),
}

/// What is drawn of a history.
#[derive(Clone, Copy)]
pub enum Shown {
    /// A picture of all of it.
    Whole,
    /// A page for a browser.
    Page,
    /// A picture of the calls near the entry at a place of the order: those within so many events before its mark and behind it.
    Around(u64, u64),
}

/// Which calls clients make while a development is explored.
#[derive(Clone, Copy)]
pub enum Scope<'a> {
    /// Those of the plan in the file at this path.
    Plan(&'a str),
    /// Any: so many clients, each so many calls, with the numbers that a text says, if one is given.
    Size {
        clients: u64,
        calls: u64,
        numbers: Option<&'a str>,
    },
}

/// What the command line asks for.
#[derive(Clone, Copy)]
pub enum Request<'a> {
    /// Check the proof in the formula file at this path.
    Formula(&'a str),
    /// Judge the history in a file by the specification in another.
    Judge {
        development: &'a str,
        history: &'a str,
    },
    /// Print the development in a file, on two lines or laid out.
    Show {
        development: &'a str,
        lines: bool,
    },
    /// Print the conditions of the development in a file that are chosen.
    Conditions {
        development: &'a str,
        chosen: Chosen<'a>,
    },
    /// Check the certificate in a file against the development in another, by `workers` workers, if a number is given; and say
    /// which conditions are not proved, and how far it is, which is not said of workers.
    Check {
        development: &'a str,
        certificate: &'a str,
        workers: Option<u64>,
        all: bool,
        progress: bool,
    },
    /// Find a certificate of the development in a file, with the hints in another, if there is one; and say for which conditions no
    /// proof was found, and how far it is.
    Prove {
        development: &'a str,
        hints: Option<&'a str>,
        all: bool,
        progress: bool,
    },
    /// Find a certificate of the new development, with the proofs of an old one, as `Prove` does for the rest.
    Carry {
        old: &'a str,
        certificate: &'a str,
        new: &'a str,
        hints: Option<&'a str>,
        progress: bool,
    },
    /// Run the development in a file, which the certificate in another proves, by the plan in a third.
    Run {
        development: &'a str,
        certificate: &'a str,
        plan: &'a str,
        turns: Turns,
    },
    /// Draw the history in a file, with its order, by the specification in another.
    Draw {
        development: &'a str,
        history: &'a str,
        shown: Shown,
    },
    /// Find an order that linearizes the history in a file, by the specification in another, over `budget` nodes, if a number is
    /// given; or say with a word whether there is one.
    Order {
        development: &'a str,
        history: &'a str,
        check: bool,
        budget: Option<u64>,
    },
    /// Make the short development in a file whole, in at most `budget` steps for a condition, if a number is given; and say how far it is.
    Complete {
        short: &'a str,
        budget: Option<u64>,
        progress: bool,
    },
    /// Explore the development in a file, whose clients make such calls, over `budget` worlds, if a number is given; or its object alone, without
    /// what stands beside its code.
    Explore {
        development: &'a str,
        scope: Scope<'a>,
        bare: bool,
        budget: Option<u64>,
    },
    /// Print a development of this name to begin with.
    New(&'a str),
    /// Print a text of an object of the library.
    Library {
        lib: Lib,
        text: LibraryText,
    },
}

/// What the command line asks for, and whether a refusal is to be explained.
#[derive(Clone, Copy)]
pub struct Asked<'a> {
    pub request: Request<'a>,
    pub is_explained: bool,
}

//! How the branch of a call is chosen: by order, or by a name with numbers.
ghost use Rattle.std.specs.Prelude.{◌≡◌};

use lc_base::Name;

/// How a branch may be taken: as the first whose guard holds, or by its name, with a number for each of its parameters.
#[derive(Drop)]
pub enum Label {
    First,
    Named { name: Name, parameters: Vec<Name> },
}

/// How a branch is chosen at a call: the first whose guard holds, or the one of a name, with numbers for its parameters.
#[derive(Drop)]
pub enum Pick {
    First,
    Named { name: Name, numbers: Vec<i64> },
}

impl Label {
    ghost use Rattle.std.specs.Prelude.{◌≡◌, length};
    ghost use Rattle.lc_seq.specs.Sequential.{given_in};
    ghost use Rattle.lc_seq.specs.Specification.{is_in_order, names, agree};
    ghost use Rattle.lc_seq.specs.SpecView.{label_of, choice_of};

    /// The names of its parameters.
    pub fn parameters(&self) -> &[Name]
        ensures { length result.now ≡ length (given_in (label_of self.now)) }
    {
        match self {
            Label::First => &[],
            Label::Named { parameters, .. } => parameters,
        }
    }

    /// Whether it has no name.
    pub fn is_in_order(&self) -> bool
        ensures { result ≡ is_in_order (label_of self.now) }
    {
        matches!(self, Label::First)
    }

    /// Whether it has the name `text`, and `count` parameters.
    pub fn names(&self, text: &str, count: usize) -> bool
        ensures { result ≡ names (label_of self.now) text.now count }
    {
        match self {
            Label::First => false,
            Label::Named { name, parameters } => {
                name.as_str() == text && parameters.len() == count
            }
        }
    }

    /// Whether a branch of this label may be taken by this choice.
    pub fn agrees(&self, pick: &Pick) -> bool
        ensures { result ≡ agree (label_of self.now) (choice_of pick.now) }
    {
        match pick {
            Pick::First => self.is_in_order(),
            Pick::Named { name, numbers } => self.names(name.as_str(), numbers.len()),
        }
    }
}

impl Pick {
    ghost use Rattle.std.specs.Prelude.{◌≡◌};
    ghost use Rattle.lc_seq.specs.Sequential.{given_in};
    ghost use Rattle.lc_seq.specs.SpecView.{choice_of};

    /// The numbers of its parameters.
    pub fn numbers(&self) -> &[i64]
        ensures { result.now ≡ given_in (choice_of self.now) }
    {
        match self {
            Pick::First => &[],
            Pick::Named { numbers, .. } => numbers,
        }
    }
}

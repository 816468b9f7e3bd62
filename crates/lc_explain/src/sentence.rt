//! The sentences.
use crate::kind::FileKind;
use crate::order::Disorder;
use crate::spot::legend_of;
use std::fmt;

/// An item, in words.
#[derive(Clone, Copy)]
pub(crate) enum What<'a> {
    Atom(&'a str),
    /// A list that begins with this word.
    ListOf(&'a str),
    /// One that begins with none.
    List,
}

impl fmt::Display for What<'_> {
    fn fmt<W: fmt::Write>(&self, f: &mut fmt::Formatter<W>) -> fmt::Result {
        match self {
            What::Atom(word) => write!(f, "`{word}`"),
            What::ListOf(word) => write!(f, "a list that begins with `{word}`"),
            What::List => f.write_str("this list"),
        }
    }
}

/// Where an item is, by the form of the list around it, or of the file.
#[derive(Clone, Copy)]
pub(crate) enum Spot<'a> {
    /// This part is expected there, and that is said of it.
    Due {
        part: &'a str,
        note: &'static str,
        form: &'a str,
    },
    /// Where the list has ended.
    Behind(&'a str),
    In(&'a str),
    File(FileKind),
    BehindFile(FileKind),
}

impl fmt::Display for Spot<'_> {
    fn fmt<W: fmt::Write>(&self, f: &mut fmt::Formatter<W>) -> fmt::Result {
        let (where_it_is, form) = match self {
            Spot::Due { part, note, form } => {
                return write!(f, "in the place of {part}{note} in {form}");
            }
            Spot::Behind(form) => ("behind the last part of", *form),
            Spot::In(form) => ("in", *form),
            Spot::File(kind) => ("in a file that is written", kind.forms()),
            Spot::BehindFile(kind) => (
                "behind the last form of a file that is written",
                kind.forms(),
            ),
        };
        write!(f, "{where_it_is} {form}")
    }
}

impl Spot<'_> {
    /// How what is expected there may be written.
    fn legend(&self) -> &'static str {
        match self {
            Spot::Due { part, .. } => legend_of(part),
            Spot::Behind("(+ T T)") => "; a sum of three is written (+ (+ a b) c)",
            _ => "",
        }
    }
}

/// What may be meant by a name that is not declared.
#[derive(Clone, Copy)]
pub(crate) enum Meant<'a> {
    /// Nothing that is known.
    Unknown,
    /// This name, which is near.
    Near(&'a str),
    /// The column of this name.
    Column(&'a str),
    /// This name, which is no column's.
    NoColumn(&'a str),
    /// An auxiliary column of this name, in a file that declares none.
    Auxiliary(&'a str),
}

impl fmt::Display for Meant<'_> {
    fn fmt<W: fmt::Write>(&self, f: &mut fmt::Formatter<W>) -> fmt::Result {
        match self {
            Meant::Unknown => Ok(()),
            Meant::Near(name) => write!(f, "; did you mean {name}?"),
            Meant::Column(name) => write!(f, "; {name} is a column: write (rd {name} T)"),
            Meant::NoColumn(name) => write!(f, "; {name} is no column, and is written alone"),
            Meant::Auxiliary(name) => write!(f, "; is a list (aux ({name} 0 0)) missing?"),
        }
    }
}

/// A sentence around one word: what comes before the word, and what comes after it.
pub(crate) struct Round(&'static str, &'static str);

/// A bracket is never closed.
pub(crate) static NEVER_CLOSED: Round = Round("this bracket is never closed", "");

/// A bracket closes no list.
pub(crate) static CLOSES_NOTHING: Round = Round("this bracket closes no list", "");

/// A character outside of comments.
pub(crate) static MISPLACED: Round = Round("the character `", "` may stand in a comment alone");

/// A byte that is not shown, outside of comments.
pub(crate) static OTHER_BYTE: Round = Round("this byte may stand in a comment alone", "");

/// A comment of another language.
pub(crate) static OTHER_COMMENT: Round = Round("a comment begins with `;`", "");

/// The file lacks a form; around the forms that it has.
static ENDS_HERE: Round = Round("the file ends here, and lacks a form: it is written ", "");

/// A list lacks a part; round its form.
pub(crate) static LACKS: Round = Round("this list lacks a part: it is written ", "");

/// In a proof a name is not declared.
pub(crate) static UNDECLARED_IN_PROOF: Round = Round(
    "the name ",
    " is not declared: proofs and hints write the variables ?0, ?1, ..",
);

/// A name is reserved.
pub(crate) static RESERVED: Round = Round("the name ", " is reserved");

/// The code reads this column.
pub(crate) static NOT_ITS_OWN: Round = Round("the code reads a column that is not its own: ", "");

/// A number is beyond its limit.
pub(crate) static BEYOND: Round = Round("the number ", " is beyond its limit");

/// Something is beyond a limit.
static LIMIT: Round = Round("a number or a count is beyond a limit", "");

/// A certificate is of an object that is named otherwise.
pub(crate) static OTHER_OBJECT: Round = Round("the object is not named ", "");

/// A proof is of no condition that may come next.
pub(crate) static NO_NEXT_CONDITION: Round = Round(
    "`",
    "` is no number of a condition, or not above the one before",
);

/// Why a file is refused, with the words of the file.
#[derive(Clone, Copy)]
pub(crate) enum Sentence<'a> {
    /// One of the above, around this word.
    Said(&'static Round, &'a str),
    /// The file looks like one of another kind.
    OtherFile {
        seen: FileKind,
        due: FileKind,
    },
    /// An item does not fit.
    Unfit {
        what: What<'a>,
        spot: Spot<'a>,
    },
    /// A list that is itself written so, but does not meet this condition.
    Unmet {
        own: &'static str,
        needs: &'static str,
    },
    /// A list that is itself written so does not fit.
    UnfitForm {
        own: &'static str,
        spot: Spot<'a>,
    },
    /// A name is not declared.
    Undeclared {
        noun: &'static str,
        name: &'a str,
        meant: Meant<'a>,
    },
    /// A name, or the number of a client, occurs somewhere for the second time.
    Twice {
        noun: &'static str,
        name: &'a str,
    },
    /// There are more of these than there may be.
    TooMany {
        owner: &'static str,
        limit: u64,
        parts: &'static str,
    },
    /// A list begins with a word of another language, or a sign of one, outside of comments, which is written so.
    Operator {
        word: &'a str,
        written: &'static str,
    },
    /// A form of an object may not be where it is.
    OutOfOrder {
        word: &'a str,
        disorder: Disorder<'a>,
    },
    /// An action has another number of arguments.
    Arguments {
        action: &'a str,
        due: usize,
        given: usize,
    },
    /// An edge of this name stores, and has no `on`.
    NeedsOn(&'static str),
}

impl<'a> Sentence<'a> {
    /// Something is beyond a limit.
    pub(crate) fn limit() -> Sentence<'a> {
        Sentence::Said(&LIMIT, "")
    }

    /// The file lacks a form.
    pub(crate) fn ends_here(kind: FileKind) -> Sentence<'a> {
        Sentence::Said(&ENDS_HERE, kind.forms())
    }
}

impl fmt::Display for Sentence<'_> {
    fn fmt<W: fmt::Write>(&self, f: &mut fmt::Formatter<W>) -> fmt::Result {
        match self {
            Sentence::Said(Round(before, behind), word) => write!(f, "{before}{word}{behind}"),
            Sentence::OtherFile { seen, due } => {
                let (due, seen) = (due.name(), seen.name());
                write!(f, "{due} is due here, and this looks like {seen}")
            }
            Sentence::Unfit { what, spot } => {
                let legend = spot.legend();
                write!(f, "{what} does not fit here, {spot}{legend}")
            }
            Sentence::Unmet { own, needs } => write!(
                f,
                "this list does not fit here: it is written {own}{needs}"
            ),
            Sentence::UnfitForm { own, spot } => write!(
                f,
                "this list is written {own}, and does not fit here, {spot}"
            ),
            Sentence::Undeclared { noun, name, meant } => {
                write!(f, "{noun}{name} is not declared{meant}")
            }
            Sentence::Twice { noun, name } => {
                write!(f, "the {noun} {name} stands here for the second time")
            }
            Sentence::TooMany {
                owner,
                limit,
                parts,
            } => write!(f, "{owner} has at most {limit} {parts}"),
            Sentence::Operator { word, written } => {
                write!(f, "there is no `{word}`: write {written}")
            }
            Sentence::OutOfOrder { word, disorder } => {
                write!(f, "({word} ..) does not fit here: {disorder}")
            }
            Sentence::Arguments { action, due, given } => {
                let plural = if *due == 1 { "" } else { "s" };
                write!(
                    f,
                    "the action {action} takes {due} argument{plural}, and {given} are given"
                )
            }
            Sentence::NeedsOn(edge) => write!(
                f,
                "the edge `{edge}` stores, so it needs an `on`: (on {edge} (ACTION T ..) RIDER ..)"
            ),
        }
    }
}

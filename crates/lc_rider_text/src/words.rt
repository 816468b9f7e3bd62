//! The first words of riders, and the words of edges.
ghost use Rattle.std.specs.Prelude.{◌≡◌};
ghost use Rattle.lc_rider_text.specs.Heads.{head_of, kind_of};

use lc_object::EdgeKind;

/// What the first word of a rider says, if it is any but `when`.
#[derive(Clone, Copy)]
pub(crate) enum Head {
    Set,
    Lin,
    LinOther,
    Note,
    LinBy,
    LinOtherBy,
    NoteBy,
}

/// What this word says.
pub(crate) fn head_of(word: &str) -> Option<Head>
    ensures { result ≡ head_of word.now }
{
    match word {
        "set" => Some(Head::Set),
        "lin" => Some(Head::Lin),
        "lin-other" => Some(Head::LinOther),
        "note" => Some(Head::Note),
        "lin-by" => Some(Head::LinBy),
        "lin-other-by" => Some(Head::LinOtherBy),
        "note-by" => Some(Head::NoteBy),
        _ => None,
    }
}

/// The edge of this word.
pub(crate) fn kind_of(word: &str) -> Option<EdgeKind>
    ensures { result ≡ kind_of word.now }
{
    match word {
        "next" => Some(EdgeKind::Next),
        "then" => Some(EdgeKind::Then),
        "else" => Some(EdgeKind::Else),
        _ => None,
    }
}

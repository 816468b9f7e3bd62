//! The first words of instructions.
ghost use Rattle.std.specs.Prelude.{◌≡◌};
ghost use Rattle.lc_object_text.specs.Heads.{head_of};

/// What the first word of an instruction says, if it is any but `return`.
#[derive(Clone, Copy)]
pub(crate) enum Head {
    Load,
    Store,
    Cas,
    Set,
    Faa,
    If,
}

/// What this word says.
pub(crate) fn head_of(word: &str) -> Option<Head>
    ensures { result ≡ head_of word.now }
{
    match word {
        "load" => Some(Head::Load),
        "store" => Some(Head::Store),
        "cas" => Some(Head::Cas),
        "set" => Some(Head::Set),
        "faa" => Some(Head::Faa),
        "if" => Some(Head::If),
        _ => None,
    }
}

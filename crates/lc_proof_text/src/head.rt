//! The first words of the steps of proofs.
ghost use Rattle.std.specs.Prelude.{◌≡◌, codes};
ghost use Rattle.lc_reading.specs.Words.{is};
ghost use Rattle.lc_proof_text.specs.Heads.{head_of, proofs_due};

/// What the first word of a step says, if it is any but `sum`.
#[derive(Clone, Copy)]
pub(crate) enum Head {
    Split,
    Cases,
    Push,
    Instantiate,
    Fresh,
    Cut,
    Written,
    Same,
    Affine,
    Trichotomy,
    Divide,
    Opposite,
    Open,
}

/// How many proofs are expected.
#[derive(Clone, Copy)]
pub(crate) enum Due {
    Nothing,
    One,
    Two,
    Any,
}

impl Due {
    ghost use Rattle.std.specs.Prelude.{◌≡◌};
    ghost use Rattle.lc_proof_text.specs.Heads.{later, is_met, is_full};

    /// Those that are expected after one proof.
    pub(crate) fn later(self) -> Due
        ensures { result ≡ later self }
    {
        match self {
            Due::Two => Due::One,
            Due::Any => Due::Any,
            Due::One | Due::Nothing => Due::Nothing,
        }
    }

    /// Whether no further one is required.
    pub(crate) fn is_met(self) -> bool
        ensures { result ≡ is_met self }
    {
        matches!(self, Due::Nothing | Due::Any)
    }

    /// Whether no further one is allowed.
    pub(crate) fn is_full(self) -> bool
        ensures { result ≡ is_full self }
    {
        matches!(self, Due::Nothing)
    }
}

/// Whether this word begins a sum.
pub(crate) fn is_sum(word: &str) -> bool
    ensures { result ≡ is word.now (codes "sum") }
{
    matches!(word.as_bytes(), b"sum")
}

/// What this word says. Its bytes are compared one by one: to compare words by calls of the library costs more.
#[inline(never)]
pub(crate) fn head_of(word: &str) -> Option<Head>
    ensures { result ≡ head_of word.now }
{
    match word.as_bytes() {
        b"cut" => Some(Head::Cut),
        b"push" => Some(Head::Push),
        b"inst" => Some(Head::Instantiate),
        b"same" => Some(Head::Same),
        b"open" => Some(Head::Open),
        b"trich" => Some(Head::Trichotomy),
        b"split" => Some(Head::Split),
        b"cases" => Some(Head::Cases),
        b"fresh" => Some(Head::Fresh),
        b"affine" => Some(Head::Affine),
        b"divide" => Some(Head::Divide),
        b"written" => Some(Head::Written),
        b"opposite" => Some(Head::Opposite),
        _ => None,
    }
}

impl Head {
    ghost use Rattle.std.specs.Prelude.{◌≡◌};
    ghost use Rattle.lc_proof_text.specs.Heads.{proofs_due};

    /// How many proofs come after the step's own parts.
    pub(crate) fn proofs_due(self) -> Due
        ensures { result ≡ proofs_due self }
    {
        match self {
            Head::Opposite | Head::Open => Due::Nothing,
            Head::Cut | Head::Trichotomy => Due::Two,
            Head::Cases => Due::Any,
            _ => Due::One,
        }
    }
}

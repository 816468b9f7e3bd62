//! The first words of terms, column expressions and formulas.
ghost use Rattle.std.specs.Prelude.{◌≡◌};
ghost use Rattle.lc_text.specs.Heads.{operation_of, built_of, built_due, connective_of, is_quantifier, connective_due};

use crate::scope::{Extra, Scope};

/// What the first word of a term that is a list says.
#[derive(Clone, Copy)]
pub(crate) enum Operation {
    Add,
    Subtract,
    Multiply,
    Read,
}

/// What the first word of a column expression that is a list says.
#[derive(Clone, Copy)]
pub(crate) enum Built {
    Store,
    Affine,
}

/// What the first word of a formula says.
#[derive(Clone, Copy)]
pub(crate) enum Connective {
    Le,
    Eq,
    Not,
    And,
    Or,
    Implies,
    Forall,
    Exists,
}

/// The operation of this word, where a term is expected. It is separate from the readers, which call one another: so do the others below.
#[inline(never)]
pub(crate) fn operation_of(word: &str) -> Option<Operation>
    ensures { result ≡ operation_of word.now }
{
    match word {
        "+" => Some(Operation::Add),
        "-" => Some(Operation::Subtract),
        "*" => Some(Operation::Multiply),
        "rd" => Some(Operation::Read),
        _ => None,
    }
}

#[inline(never)]
fn built_of(word: &str) -> Option<Built>
    ensures { result ≡ built_of word.now }
{
    match word {
        "store" => Some(Built::Store),
        "affine" => Some(Built::Affine),
        _ => None,
    }
}

/// What this word says where a column expression is expected, if one may be built here.
pub(crate) fn built_due<S: Scope>(scope: &S, word: &str) -> Option<Built>
    ensures { result ≡ built_due (S.names scope.now) word.now }
{
    if scope.allows(Extra::BuiltColumns) {
        built_of(word)
    } else {
        None
    }
}

#[inline(never)]
fn connective_of(word: &str) -> Option<Connective>
    ensures { result ≡ connective_of word.now }
{
    match word {
        "<=" => Some(Connective::Le),
        "=" => Some(Connective::Eq),
        "not" => Some(Connective::Not),
        "and" => Some(Connective::And),
        "or" => Some(Connective::Or),
        "=>" => Some(Connective::Implies),
        "forall" => Some(Connective::Forall),
        "exists" => Some(Connective::Exists),
        _ => None,
    }
}

fn is_quantifier(connective: Connective) -> bool
    ensures { result ≡ is_quantifier connective }
{
    matches!(connective, Connective::Forall | Connective::Exists)
}

/// What this word says where a formula is expected: a quantifier only if these are allowed.
pub(crate) fn connective_due<S: Scope>(scope: &S, word: &str) -> Option<Connective>
    ensures { result ≡ connective_due (S.names scope.now) word.now }
{
    match connective_of(word) {
        Some(connective) if is_quantifier(connective) && !scope.allows(Extra::Quantifiers) => None,
        due => due,
    }
}

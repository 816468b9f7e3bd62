//! Edges that store.
ghost use Rattle.std.specs.Prelude.{◌≡◌};
ghost use Rattle.lc_fill.specs.Points.{storing};

use lc_base::OutOfMemory;
use lc_sexp::Sexp;
use std::alloc::Global;

/// An edge at which an instruction stores.
#[derive(Clone, Copy)]
pub(crate) enum Edge {
    Next,
    Then,
}

impl Edge {
    ghost use Rattle.std.specs.Prelude.{◌≡◌, IfOk};
    ghost use Rattle.lc_sexp.specs.Trees.{atom};
    ghost use Rattle.lc_fill.specs.Points.{edge_word};

    /// Its word.
    pub(crate) fn word(self) -> &'static str
        ensures { result.now ≡ edge_word self }
    {
        match self {
            Edge::Next => "next",
            Edge::Then => "then",
        }
    }

    /// Its word as an item.
    #[tactic(auto, unfolding(lc_sexp::specs::Text::class_of))]
    pub(crate) fn item(self, alloc: Global) -> Result<Sexp, OutOfMemory>
        ensures { IfOk result (λ item. item ≡ atom (edge_word self)) }
    {
        match self {
            Edge::Next => Sexp::atom(alloc, "next"),
            Edge::Then => Sexp::atom(alloc, "then"),
        }
    }
}

/// The edge at which an instruction of this word stores.
pub(crate) fn storing(word: &str) -> Option<Edge>
    ensures { result ≡ storing word.now }
{
    match word {
        "store" | "faa" => Some(Edge::Next),
        "cas" => Some(Edge::Then),
        _ => None,
    }
}

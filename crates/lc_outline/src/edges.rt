//! The words of edges.
ghost use Rattle.std.specs.Prelude.{◌≡◌};
ghost use Rattle.lc_outline.specs.EdgeWords.{edge_word};

use lc_object::EdgeKind;

/// The word of an edge.
pub fn edge_word(kind: EdgeKind) -> &'static str
    ensures { result.now ≡ edge_word kind }
{
    match kind {
        EdgeKind::Next => "next",
        EdgeKind::Then => "then",
        EdgeKind::Else => "else",
    }
}

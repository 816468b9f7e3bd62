//! Objects, and the edges of their code.
ghost use Rattle.std.specs.Prelude.{◌≡◌, false, map, IfOk, MatchOption};
ghost use Rattle.lc_object.specs.EdgeView.{edge_of};
ghost use Rattle.lc_object.specs.Edges as E;
ghost use Rattle.lc_object.specs.Objects.{object_view};
ghost use Rattle.lc_object.specs.View.{parts_of};
ghost use Rattle.lc_object.specs.WellFormed.{is_object};

use lc_base::OutOfMemory;
use lc_object::{Edge, Object, Parts, edges};
use std::alloc::Global;

/// Parts are an object exactly if they are well-formed.
pub fn making_an_object(parts: Parts) -> Option<Object>
    ensures { MatchOption result (is_object (parts_of parts) ≡ false) (λ object. object_view object ≡ parts_of parts) }
{
    Object::new(parts)
}

/// The edges of an object are those of the table of instructions.
pub fn listing_edges(alloc: Global, object: &Object) -> Result<Vec<Edge>, OutOfMemory>
    ensures { IfOk result (λ es. map edge_of es.items ≡ E.edges (object_view object.now)) }
{
    edges(alloc, object)
}

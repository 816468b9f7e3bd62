//! What is replaced already, as a walk along a chain of stores asks it.
use crate::put::{Occurrence, ReplacedNodes};
use lc_table::KnownParts;

/// What is replaced already below `depth` quantifiers.
#[derive(Clone, Copy)]
pub(crate) struct ReplacedBelow<'a> {
    pub(crate) done: &'a ReplacedNodes,
    pub(crate) depth: u32,
}

impl KnownParts for ReplacedBelow<'_> {
    ghost use Rattle.std.specs.Prelude.{◌≡◌, Some};
    ghost use Rattle.std.specs.Map.{lookup};
    ghost use Rattle.lc_put.specs.Put.{occurrence_eq};

    ghost Becomes = { λ below part number. lookup (occurrence_eq (record { number = part; depth = below.depth })) below.done.now.parts.entries ≡ Some number };

    fn known(&self, part: u32) -> Option<u32> {
        let occurrence = Occurrence {
            number: part,
            depth: self.depth,
        };
        self.done.part(occurrence, false)
    }
}

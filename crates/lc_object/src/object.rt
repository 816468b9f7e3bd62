//! The type of objects, which are well-formed.
ghost use Rattle.std.specs.Prelude.{◌≡◌, true};
ghost use Rattle.lc_object.specs.WellFormed.{is_object};
ghost use Rattle.lc_object.specs.View.{parts_of};

use crate::parts::Parts;
use crate::testing::is_object;

/// An object: what its parts promise is the definition `is_object`. Each instruction names arrays, locals, labels
/// and variables that are there, in the right numbers.
#[derive(Drop)]
pub struct Object {
    pub(crate) parts: Parts,
    ghost well_formed: { is_object (parts_of parts) ≡ true },
}

impl Object {
    ghost use Rattle.std.specs.Prelude.{◌≡◌, true, false, MatchOption};
    ghost use Rattle.lc_object.specs.WellFormed.{is_object};
    ghost use Rattle.lc_object.specs.View.{parts_of};
    ghost use Rattle.lc_object.specs.Objects.{object_view};

    /// The object of these parts, if they are well-formed.
    pub fn new(parts: Parts) -> Option<Object>
        ensures { MatchOption result (is_object (parts_of parts) ≡ false) (λ object. object_view object ≡ parts_of parts) }
    {
        if is_object(&parts) {
            Some(Object { parts })
        } else {
            None
        }
    }

    /// The object of these parts, which are well-formed.
    pub fn of_parts(parts: Parts) -> Object
        requires { is_object (parts_of parts) ≡ true }
        ensures { object_view result ≡ parts_of parts }
    {
        Object { parts }
    }

    /// Its parts.
    pub fn parts(&self) -> &Parts
        ensures shown { parts_of result.now ≡ object_view self.now }
        ensures well_formed { is_object (parts_of result.now) ≡ true }
    {
        &self.parts
    }
}

//! The type of names of actions.
ghost use Rattle.std.specs.Prelude.{◌≡◌, true, string_bytes};
ghost use Rattle.lc_sexp.specs.Printed.{is_atom};

use crate::plan::Plan;
use lc_reading::NameTable;

/// The names of the actions that a file declares; the name of the stand-in for those that are not planned, which is another; and
/// what is planned.
#[derive(Drop)]
pub(crate) struct Acts<'a, 'b> {
    pub(crate) names: NameTable<'a>,
    pub(crate) stand_in: String,
    pub(crate) plan: &'b Plan,
    ghost spelled: { is_atom (string_bytes stand_in) ≡ true },
}

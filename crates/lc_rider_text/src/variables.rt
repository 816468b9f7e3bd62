//! The variables that a name may stand for beside the code.
ghost use Rattle.std.specs.Prelude.{◌+◌, ◌≤◌, ◌^◌};
ghost use Rattle.lc_rider_text.specs.Tables.{count_there};

use lc_reading::NameTable;

/// The variables of a formula: the number of clients; and after it, if the formula is about a client, that client and
/// others of these names. The names are in two tables, one after the other, so that names which many scopes share are held
/// once.
#[derive(Clone, Copy)]
pub struct Variables<'a, 'b> {
    pub(crate) first: Option<&'b NameTable<'a>>,
    pub(crate) second: Option<&'b NameTable<'a>>,
    ghost few: { count_there first + count_there second + 2 ≤ 2 ^ 32 },
}

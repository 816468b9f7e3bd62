//! Tables of names.
ghost use Rattle.std.specs.Prelude.{◌≡◌, ◌++◌, IfOk};
ghost use Rattle.lc_reading.specs.Listed.{names_among, place_of};
ghost use Rattle.lc_reading.specs.TableView.{listed};
ghost use Rattle.lc_sexp.specs.Shown.{rest_of};

use lc_base::OutOfMemory;
use lc_reading::NameTable;
use lc_sexp::Cursor;

/// A name has its first place, also if it is looked for at another place first.
pub fn placing(names: &NameTable<'_>, place: usize, name: &str) -> Option<usize>
    ensures { result ≡ place_of (listed names.now) name.now }
{
    names.place_from(place, name)
}

/// Each name of a list is entered, in their order.
pub fn entering<'a>(names: NameTable<'a>, list: Cursor<'a>) -> Result<NameTable<'a>, OutOfMemory>
    ensures { IfOk result (λ all. listed all ≡ listed names.entry ++ names_among (rest_of list.entry)) }
{
    names.enter_all(list)
}

//! How a list of terms is read whose number may be given.
ghost use Rattle.lc_sexp.specs.Shown.{rest_of, number_of, owner_of};
ghost use Rattle.lc_reading.specs.Results.{IsReading};
ghost use Rattle.lc_rider_text.specs.Seen.{terms_of};
ghost use Rattle.lc_rider_text.specs.Terms.{arguments_reading};

use lc_reading::{ReadFault, read_counted, read_each};
use lc_sexp::Cursor;
use lc_term::Term;
use lc_text::{Scope, Terms};
use std::alloc::Global;

/// The terms that are left in a list, exactly as many as are expected if that number is known.
pub(crate) fn read_arguments<S: Scope>(
    alloc: Global,
    scope: &S,
    due: Option<u64>,
    list: Cursor<'_>,
) -> Result<Vec<Term>, ReadFault>
    ensures { IsReading terms_of (arguments_reading (S.names scope.now) due (owner_of list.entry) (number_of list.entry) (rest_of list.entry)) result }
{
    match due {
        Some(count) => read_counted(alloc, &Terms(scope), count, list),
        None => read_each(alloc, &Terms(scope), list),
    }
}

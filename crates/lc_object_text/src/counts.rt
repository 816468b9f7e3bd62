//! Whether as many parts are left in a list as are expected.
ghost use Rattle.std.specs.Prelude.{◌≡◌};
ghost use Rattle.lc_sexp.specs.Shown.{rest_of, number_of, owner_of};
ghost use Rattle.lc_reading.specs.Readings.{Reading, ended};
ghost use Rattle.lc_reading.specs.Results.{IsReading};
ghost use Rattle.lc_object_text.specs.Counts.{ended_behind, count_reading};

use lc_reading::{Pass, ReadFault, ended, next_part, wrong};
use lc_sexp::Cursor;

/// The rest of a list after `parts` parts.
fn behind(list: Cursor<'_>, parts: u64) -> Cursor<'_>
    ensures { (r : Reading (Unit {0})) → ended_behind parts (number_of list.entry) (rest_of list.entry) r ≡ ended (number_of result) (rest_of result) r }
{
    let mut rest = list;
    let mut left = parts;
    'parts: loop {
        if left == 0 {
            return rest;
        }
        let mut ahead = rest;
        let Ok(_) = next_part(&mut ahead) else {
            return rest;
        };
        rest = ahead;
        left -= 1;
    }
}

/// What is wrong with the rest of a list if `due` parts are expected in it; nothing if their number is not known.
pub fn read_count(due: Option<u64>, list: Cursor<'_>) -> Result<(), ReadFault>
    ensures { IsReading (λ u. u) (count_reading due (owner_of list.entry) (number_of list.entry) (rest_of list.entry)) result }
{
    let Some(due) = due else {
        return Ok(());
    };
    if (list.len() as u64) < due {
        return Err(wrong(Pass::Shape, list.owner()));
    }
    ended(Ok(()), behind(list, due))
}

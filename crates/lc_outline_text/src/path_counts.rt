//! The conditions of the paths of an edge, counted up to a cap.
ghost use Rattle.std.specs.Prelude.{◌≡◌, ◌+◌, ◌++◌, ◌≤◌, [], Some, IfOk, OnOk};
ghost use Rattle.lc_object.specs.View.{columns_of};
ghost use Rattle.lc_outline.specs.Sizes.{way_count};
ghost use Rattle.lc_outline_text.specs.Paths.{stands, path_number, path_at};
ghost use Rattle.lc_outline_text.specs.StoredView.{IsSet, listed_in, ways_of_riders};
ghost use Rattle.lc_outline_text.specs.Views.{capped};

use crate::column_set::{ColumnSet, put_all};
use crate::counts::{COUNT_CAP, capped_sum, sum_of};
use crate::riders::{Rider, branching, path_number, put_common, put_way, way_count};
use lc_base::{ColId, OutOfMemory};
use std::alloc::Global;

/// Puts in the columns that are stored in on the path of this number, and returns how many conditions are asked: `before` and
/// those of the path. The number's last digit is the place of the way past the first rider, the next one of that past the second,
/// and so on.
fn put_path(
    set: &mut ColumnSet,
    riders: &[Rider<'_>],
    number: u64,
    before: u64,
) -> Result<u64, OutOfMemory>
    requires set { IsSet set.old }
    requires some { 1 ≤ path_number (ways_of_riders riders.now) }
    ensures asked { IfOk result (λ asked. asked ≡ before + (path_at (ways_of_riders riders.now) number).asked) }
    ensures set { OnOk result (IsSet set.new) }
    ensures stored { OnOk result (stands (listed_in set.new) ≡ stands (listed_in set.old ++ (path_at (ways_of_riders riders.now) number).columns)) }
{
    let mut asked = before;
    let mut left = number;
    for rider in riders {
        let ways = way_count(rider);
        asked = sum_of(asked, put_way(set, rider, left % ways)?)?;
        left /= ways;
    }
    Ok(asked)
}

/// The conditions of the path of this number, with `asked` conditions asked and these columns stored in beside it.
fn conditions_on(
    set: &mut ColumnSet,
    riders: &[Rider<'_>],
    number: u64,
    asked: u64,
    columns: &[ColId],
) -> Result<u64, OutOfMemory>
    requires set { IsSet set.old }
    requires some { 1 ≤ path_number (ways_of_riders riders.now) }
    ensures count { IfOk result (λ count. count ≡ way_count (Some []) [] (asked + (path_at (ways_of_riders riders.now) number).asked) (columns_of columns.now ++ (path_at (ways_of_riders riders.now) number).columns)) }
    ensures set { OnOk result (IsSet set.new) }
{
    set.clear()?;
    put_all(set, columns)?;
    let asked = put_path(set, riders, number, asked)?;
    let stored = sum_of(1, set.len())?;
    let count = sum_of(asked, stored)?;
    Ok(count)
}

/// The conditions of this many paths, which are all that pass these riders, up to the cap.
fn conditions_on_all(
    set: &mut ColumnSet,
    riders: &[Rider<'_>],
    paths: u64,
    asked: u64,
    columns: &[ColId],
) -> Result<u64, OutOfMemory>
    requires set { IsSet set.old }
    requires all { paths ≡ path_number (ways_of_riders riders.now) }
    ensures count { IfOk result (λ count. count ≡ capped (way_count (Some []) (ways_of_riders riders.now) asked (columns_of columns.now))) }
    ensures set { OnOk result (IsSet set.new) }
{
    let mut count = 0;
    for number in 0..paths {
        if count >= COUNT_CAP {
            return Ok(COUNT_CAP);
        }
        let more = conditions_on(set, riders, number, asked, columns)?;
        count = capped_sum(count, more);
    }
    Ok(count)
}

/// The conditions of the paths that pass these riders, at an edge where an action stores in these columns, with `asked`
/// conditions asked and these columns stored in before; up to the cap. What is done alike on each path is counted once, and each
/// path then costs no more than the conditions that it has.
pub(crate) fn path_conditions(
    alloc: Global,
    set: &mut ColumnSet,
    action: &[ColId],
    riders: &[Rider<'_>],
    asked: u64,
    columns: &[ColId],
) -> Result<u64, OutOfMemory>
    requires { IsSet set.old }
    ensures count { IfOk result (λ count. count ≡ capped (way_count (Some (columns_of action.now)) (ways_of_riders riders.now) asked (columns_of columns.now))) }
    ensures set { OnOk result (IsSet set.new) }
{
    let paths = path_number(riders);
    if paths >= COUNT_CAP {
        return Ok(COUNT_CAP);
    }
    set.clear()?;
    put_all(set, columns)?;
    put_all(set, action)?;
    let asked = put_common(set, riders, asked)?;
    let stored = set.columns()?;
    let those = branching(alloc, riders)?;
    let count = conditions_on_all(set, &those, paths, asked, &stored)?;
    Ok(count)
}

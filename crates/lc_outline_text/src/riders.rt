//! Riders, by the columns that are stored in on the ways past them.
ghost use Rattle.std.specs.Prelude.{◌≡◌, ℕ, ◌+◌, ◌++◌, length, get_or, map, IfOk, OnOk};
ghost use Rattle.lc_outline.specs.Sizes.{no_way};
ghost use Rattle.lc_outline_text.specs.Paths.{stands, path_number, only_way, common_way, branching};
ghost use Rattle.lc_outline_text.specs.StoredView.{IsSet, listed_in, row_way, none_stored, ways_of_deed, ways_of_rider, ways_of_riders};
ghost use Rattle.lc_outline_text.specs.Views.{capped};

use crate::column_set::{ColumnSet, put, put_all};
use crate::counts::{capped_product, sum_of};
use lc_base::{ColId, OutOfMemory};
use std::alloc::Global;

/// What is done by a rider if its condition holds, by the columns that are stored in.
#[derive(Clone, Copy)]
pub(crate) enum Deed<'a> {
    /// This column is set, if there is one of its name.
    Set(Option<ColId>),
    /// A call is marked in one of these ways: on each, `asked` conditions are asked, and a row of columns is stored in.
    Marks { asked: u64, rows: &'a [Vec<ColId>] },
}

/// A rider. If it has a condition there is one way more past it, on which nothing is done.
#[derive(Clone, Copy)]
pub(crate) struct Rider<'a> {
    pub(crate) deed: Deed<'a>,
    pub(crate) is_conditional: bool,
}

/// In how many ways a rider is passed that marks a call, if these rows are stored in.
fn marked_count(rows: &[Vec<ColId>], is_conditional: bool) -> u64
    ensures { (asked : ℕ) → result ≡ length (map (row_way asked) rows.now ++ none_stored is_conditional) }
{
    let count = rows.len() as u64;
    if is_conditional { count + 1 } else { count }
}

/// In how many ways a rider is passed.
pub(crate) fn way_count(rider: &Rider<'_>) -> u64
    ensures { result ≡ length (ways_of_rider rider.now) }
{
    match rider.deed {
        Deed::Set(_) if rider.is_conditional => 2,
        Deed::Set(_) => 1,
        Deed::Marks { rows, .. } => marked_count(rows, rider.is_conditional),
    }
}

/// How many paths pass these riders, up to the cap.
pub(crate) fn path_number(riders: &[Rider<'_>]) -> u64
    ensures { result ≡ capped (path_number (ways_of_riders riders.now)) }
{
    let mut number = 1;
    for rider in riders {
        number = capped_product(number, way_count(rider));
    }
    number
}

/// Puts the row at this place into a set, and returns how many conditions are asked on its way; if there is none, nothing.
fn put_row(
    set: &mut ColumnSet,
    asked: u64,
    rows: &[Vec<ColId>],
    place: u64,
) -> Result<u64, OutOfMemory>
    requires { IsSet set.old }
    ensures asked { IfOk result (λ n. n ≡ (get_or (map (row_way asked) rows.now) place no_way).asked) }
    ensures set { OnOk result (IsSet set.new) }
    ensures stored { OnOk result (stands (listed_in set.new) ≡ stands (listed_in set.old ++ (get_or (map (row_way asked) rows.now) place no_way).columns)) }
{
    let Some(row) = rows.get(place as usize) else {
        return Ok(0);
    };
    put_all(set, row)?;
    Ok(asked)
}

/// Puts in the columns that are stored in by a deed in the way at this place, and returns how many conditions are asked on it;
/// if there is none, nothing.
fn put_deed(set: &mut ColumnSet, deed: Deed<'_>, place: u64) -> Result<u64, OutOfMemory>
    requires { IsSet set.old }
    ensures asked { IfOk result (λ asked. asked ≡ (get_or (ways_of_deed deed.entry) place no_way).asked) }
    ensures set { OnOk result (IsSet set.new) }
    ensures stored { OnOk result (stands (listed_in set.new) ≡ stands (listed_in set.old ++ (get_or (ways_of_deed deed.entry) place no_way).columns)) }
{
    match deed {
        Deed::Marks { asked, rows } => {
            let asked = put_row(set, asked, rows, place)?;
            Ok(asked)
        }
        Deed::Set(Some(column)) if place == 0 => {
            put(set, &column)?;
            Ok(0)
        }
        Deed::Set(_) => Ok(0),
    }
}

/// Puts in the columns that are stored in on the way past a rider at this place, and returns how many conditions are asked on it.
pub(crate) fn put_way(
    set: &mut ColumnSet,
    rider: &Rider<'_>,
    place: u64,
) -> Result<u64, OutOfMemory>
    requires { IsSet set.old }
    ensures asked { IfOk result (λ asked. asked ≡ (get_or (ways_of_rider rider.now) place no_way).asked) }
    ensures set { OnOk result (IsSet set.new) }
    ensures stored { OnOk result (stands (listed_in set.new) ≡ stands (listed_in set.old ++ (get_or (ways_of_rider rider.now) place no_way).columns)) }
{
    let asked = put_deed(set, rider.deed, place)?;
    Ok(asked)
}

/// Puts in the columns that are stored in on the only way past a rider, if there is only one, and returns how many conditions are
/// asked on it.
fn put_only(set: &mut ColumnSet, rider: &Rider<'_>) -> Result<u64, OutOfMemory>
    requires { IsSet set.old }
    ensures asked { IfOk result (λ asked. asked ≡ (only_way (ways_of_rider rider.now)).asked) }
    ensures set { OnOk result (IsSet set.new) }
    ensures stored { OnOk result (stands (listed_in set.new) ≡ stands (listed_in set.old ++ (only_way (ways_of_rider rider.now)).columns)) }
{
    if way_count(rider) != 1 {
        return Ok(0);
    }
    put_way(set, rider, 0)
}

/// Puts in the columns that are stored in by all riders that are passed in one way, and returns how many conditions are asked by
/// them and before.
pub(crate) fn put_common(
    set: &mut ColumnSet,
    riders: &[Rider<'_>],
    before: u64,
) -> Result<u64, OutOfMemory>
    requires { IsSet set.old }
    ensures asked { IfOk result (λ asked. asked ≡ before + (common_way (ways_of_riders riders.now)).asked) }
    ensures set { OnOk result (IsSet set.new) }
    ensures stored { OnOk result (stands (listed_in set.new) ≡ stands (listed_in set.old ++ (common_way (ways_of_riders riders.now)).columns)) }
{
    let mut asked = before;
    for rider in riders {
        asked = sum_of(asked, put_only(set, rider)?)?;
    }
    Ok(asked)
}

/// The riders that leave a choice.
pub(crate) fn branching<'a>(
    alloc: Global,
    riders: &[Rider<'a>],
) -> Result<Vec<Rider<'a>>, OutOfMemory>
    ensures { IfOk result (λ those. ways_of_riders those.items ≡ branching (ways_of_riders riders.now)) }
{
    let mut those = Vec::new(alloc);
    for rider in riders {
        if way_count(rider) != 1 {
            those.push(*rider)?;
        }
    }
    Ok(those)
}

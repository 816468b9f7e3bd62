//! The columns of a development in which nothing is written.
ghost use Rattle.std.specs.Prelude.{◌≡◌, ◌++◌, map, pos, replicate, OnOk, IfOk};
ghost use Rattle.lc_term.specs.State.{state_of, column_count};
ghost use Rattle.lc_term.specs.SystemColumns as columns;
ghost use Rattle.lc_seq.specs.SpecView as seq;
ghost use Rattle.lc_object.specs.View.{column_view};
ghost use Rattle.lc_outline.specs.Development.{first_system, start_columns};
ghost use Rattle.lc_outline.specs.DevelopmentView.{development_view};

use lc_base::OutOfMemory;
use lc_outline::Development;
use lc_term::State;
use std::alloc::Global;

// Appends the two numbers of each of these columns.
fn push_columns(
    columns: &[lc_seq::Column],
    numbers: &mut Vec<(i64, i64)>,
) -> Result<(), OutOfMemory>
    ensures { OnOk result (numbers.new.items ≡ numbers.old.items ++ map (λ c. (c.slope, c.start)) (seq.columns_of columns.now)) }
{
    for column in columns {
        numbers.push((column.slope, column.start))?;
    }
    Ok(())
}

// The same for columns of an object's arrays.
fn push_concretes(
    columns: &[lc_object::Column],
    numbers: &mut Vec<(i64, i64)>,
) -> Result<(), OutOfMemory>
    ensures { OnOk result (numbers.new.items ≡ numbers.old.items ++ map (λ c. (c.slope, c.start)) (map column_view columns.now)) }
{
    for column in columns {
        numbers.push((column.slope, column.start))?;
    }
    Ok(())
}

// The same for the system columns, which are 0.
fn push_system(numbers: &mut Vec<(i64, i64)>) -> Result<(), OutOfMemory>
    ensures { OnOk result (numbers.new.items ≡ numbers.old.items ++ replicate 12 (pos 0, pos 0)) }
{
    for _ in 0..12_u32 {
        numbers.push((0, 0))?;
    }
    Ok(())
}

/// The state of a development in which nothing is written.
pub fn start(alloc: Global, development: &Development) -> Result<State, OutOfMemory>
    ensures state { IfOk result (λ state. state_of state ≡ start_columns (development_view development.now)) }
    ensures columns { IfOk result (λ state. column_count state ≡ columns.column_count (first_system (development_view development.now))) }
{
    let parts = development.parts();
    let mut numbers = Vec::new(alloc);
    push_columns(parts.specification.columns(), &mut numbers)?;
    push_concretes(&parts.object.parts().concretes, &mut numbers)?;
    push_columns(&parts.auxiliaries, &mut numbers)?;
    push_system(&mut numbers)?;
    State::new(alloc, &numbers)
}

//! Columns, each kept once.
ghost use Rattle.std.specs.Prelude.{◌≡◌, ◌∷◌, ◌++◌, [], OnOk, IfOk};
ghost use Rattle.lc_object.specs.View.{columns_of};
ghost use Rattle.lc_outline.specs.Sizes.{different};
ghost use Rattle.lc_outline_text.specs.Paths.{stands};
ghost use Rattle.lc_outline_text.specs.StoredView.{IsSet, listed_in};

use lc_base::{ColId, OutOfMemory};
use std::alloc::Global;

/// The round in which each column was put in last, by the column's number. Rounds begin with 1.
#[derive(Drop)]
pub(crate) struct Rounds {
    rounds: Vec<u64>,
}

impl Rounds {
    ghost use Rattle.std.specs.Prelude.{◌≡◌, ℕ, ◌==◌, cond, OnOk};
    ghost use Rattle.lc_outline_text.specs.StoredView.{round_of};

    /// The round in which a column was put in last; 0 if it never was.
    fn of(&self, column: ColId) -> u64
        ensures { result ≡ round_of self.now column.0 }
    {
        self.rounds.get(column.0 as usize).copied().unwrap_or(0)
    }

    /// Notes the round in which a column is put in.
    fn set(&mut self, column: ColId, round: u64) -> Result<(), OutOfMemory>
        ensures { OnOk result ((k : ℕ) → round_of self.new k ≡ cond (k == column.0) round (round_of self.old k)) }
    {
        let place = column.0 as usize;
        if place >= self.rounds.len() {
            self.rounds.resize(place + 1, 0)?;
        }
        self.rounds[place] = round;
        Ok(())
    }
}

/// Columns, each listed once. To begin anew costs nothing, however many were there.
#[derive(Drop)]
pub struct ColumnSet {
    columns: Vec<ColId>,
    rounds: Rounds,
    round: u64,
}

impl ColumnSet {
    ghost use Rattle.std.specs.Prelude.{◌≡◌, ◌∷◌, ◌++◌, [], length, OnOk, IfOk};
    ghost use Rattle.lc_object.specs.View.{columns_of};
    ghost use Rattle.lc_outline.specs.Sizes.{different};
    ghost use Rattle.lc_outline_text.specs.Paths.{stands};
    ghost use Rattle.lc_outline_text.specs.StoredView.{IsSet, listed_in};

    /// No column is in it.
    pub(crate) fn new(alloc: Global) -> ColumnSet
        ensures { IsSet result }
    {
        ColumnSet {
            columns: Vec::new(alloc),
            rounds: Rounds {
                rounds: Vec::new(alloc),
            },
            round: 1,
        }
    }

    /// Takes all columns out.
    pub(crate) fn clear(&mut self) -> Result<(), OutOfMemory>
        requires { IsSet self.old }
        ensures set { OnOk result (IsSet self.new) }
        ensures none { OnOk result (listed_in self.new ≡ []) }
    {
        let Some(round) = self.round.checked_add(1) else {
            return Err(OutOfMemory);
        };
        self.round = round;
        self.columns.clear();
        Ok(())
    }

    /// How many columns are in it.
    pub(crate) fn len(&self) -> u64
        requires { IsSet self.now }
        ensures { result ≡ different (listed_in self.now) }
    {
        self.columns.len() as u64
    }

    /// The columns that are in it.
    pub(crate) fn columns(&self) -> Result<Vec<ColId>, OutOfMemory>
        ensures { IfOk result (λ columns. columns_of columns.items ≡ listed_in self.now) }
    {
        Ok(self.columns.clone()?)
    }
}

/// Puts a column into a set.
pub(crate) fn put(set: &mut ColumnSet, column: &ColId) -> Result<(), OutOfMemory>
    requires { IsSet set.old }
    ensures set { OnOk result (IsSet set.new) }
    ensures more { OnOk result (stands (listed_in set.new) ≡ stands (listed_in set.old ++ column.now.0 ∷ [])) }
{
    if set.rounds.of(*column) == set.round {
        return Ok(());
    }
    set.rounds.set(*column, set.round)?;
    set.columns.push(*column)?;
    Ok(())
}

/// Puts columns into a set.
pub fn put_all(set: &mut ColumnSet, columns: &[ColId]) -> Result<(), OutOfMemory>
    requires { IsSet set.old }
    ensures set { OnOk result (IsSet set.new) }
    ensures more { OnOk result (stands (listed_in set.new) ≡ stands (listed_in set.old ++ columns_of columns.now)) }
{
    for column in columns {
        put(set, column)?;
    }
    Ok(())
}

//! How the branch of a mark is chosen.
ghost use Rattle.std.specs.Prelude.{◌≡◌, true};
ghost use Rattle.std.specs.List.{list_all};
ghost use Rattle.lc_term.specs.Computed.{IsComputed};
ghost use Rattle.lc_term.specs.Places.{known, term_passes};
ghost use Rattle.lc_term.specs.Reached.{TermsFit};
ghost use Rattle.lc_term.specs.State.{state_of, env_of, column_count, variable_count};
ghost use Rattle.lc_seq.specs.Run.{seq_says};
ghost use Rattle.lc_seq.specs.Sequential.{given_in};
ghost use Rattle.lc_seq.specs.SpecView.{choice_of};
ghost use Rattle.lc_rider.specs.Rider.{choice_at};
ghost use Rattle.lc_rider.specs.RiderView.{choosing_of};

use lc_rider::Choosing;
use lc_seq::{Pick, SeqFault, values_of};
use lc_term::{Env, State};
use std::alloc::Global;

/// How a mark's branch is chosen: its terms have the numbers that they come to here.
pub(crate) fn pick_of(
    alloc: Global,
    by: &Choosing,
    state: &State,
    env: &Env,
) -> Result<Pick, SeqFault>
    requires { list_all (term_passes (known (column_count state.now) (variable_count env.now))) (given_in (choosing_of by.now)) ≡ true }
    ensures { IsComputed seq_says choice_of (TermsFit (state_of state.now) (env_of env.now) (given_in (choosing_of by.now))) (choice_at (state_of state.now) (env_of env.now) (choosing_of by.now)) result }
{
    match by {
        Choosing::First => Ok(Pick::First),
        Choosing::Named { name, terms } => {
            let numbers = values_of(alloc, terms, state, env)?;
            Ok(Pick::Named {
                name: *name,
                numbers,
            })
        }
    }
}

//! Where clients are, and the numbers of the variables of an action.
ghost use Rattle.std.specs.Prelude.{◌≡◌, ◌++◌, List, ℤ, ℕ, IfOk, MatchOption, Some, slice_get};
ghost use Rattle.lc_machine.specs.View.{clients_of, variables_of};
ghost use Rattle.lc_machine.specs.World.{In};
ghost use Rattle.lc_sound.specs.Claims.{own};

use lc_base::OutOfMemory;
use lc_machine::{Client, Place};
use lc_steps::client_at;
use lc_term::Env;
use std::alloc::Global;

/// Where a client is, if it is in a call.
pub fn place_of(clients: &[Client], client: u32) -> Option<&Place>
    ensures { MatchOption result ((p : ℕ) (vs : List ℤ) → slice_get (clients_of clients.now) client ≡ Some (In p vs) → ⊥)
        (λ place. slice_get (clients_of clients.now) client ≡ Some (In place.now.point.0 (variables_of place.now))) }
{
    match client_at(clients, client) {
        None | Some(Client::Idle) => None,
        Some(Client::In(place)) => Some(place),
    }
}

/// How many clients there are, the number of one, and the numbers that its call or its action is given.
pub fn call_numbers(
    alloc: Global,
    clients: u32,
    client: u32,
    given: &[i64],
) -> Result<Env, OutOfMemory>
    ensures { IfOk result (λ env. env.values.items ≡ own clients client ++ given.now) }
{
    let mut values = Vec::new(alloc);
    values.push(i64::from(clients))?;
    values.push(i64::from(client))?;
    values.extend_from_slice(given)?;
    Ok(Env { values })
}

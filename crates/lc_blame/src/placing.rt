//! Where clients are, and the numbers of variables there.
ghost use Rattle.std.specs.Prelude.{◌≡◌, ◌++◌, ◌∷◌, pos, length, option_map, IfOk};
ghost use Rattle.lc_machine.specs.View.{client_of};
ghost use Rattle.lc_machine.specs.World.{World};
ghost use Rattle.lc_sound.specs.Claims.{own};
ghost use Rattle.lc_outline.specs.Development.{Development};
ghost use Rattle.lc_stages.specs.Stages.{numbers_at};
ghost use Rattle.lc_acting.specs.Attempts.{SaysSo};
ghost use Rattle.lc_blame.specs.Blame.{point_of};

use lc_base::{OutOfMemory, PointId};
use lc_machine::Client;
use lc_term::Env;
use std::alloc::Global;

/// Whether a client is at this point, or in no call if there is none.
pub(crate) fn is_at(client: &Client, point: Option<PointId>) -> bool
    ensures { SaysSo result (point_of (client_of client.now) ≡ option_map (λ p. p.0) point) }
{
    match client {
        Client::Idle => match point {
            None => true,
            Some(_) => false,
        },
        Client::In(place) => match point {
            None => false,
            Some(point) => place.point.0 == point.0,
        },
    }
}

/// How many clients there are, and the number of one.
pub(crate) fn own_numbers(alloc: Global, clients: u32, client: u32) -> Result<Env, OutOfMemory>
    ensures { IfOk result (λ env. env.values.items ≡ own clients client) }
{
    let mut values = Vec::new(alloc);
    values.push(i64::from(clients))?;
    values.push(i64::from(client))?;
    Ok(Env { values })
}

// The numbers of the variables of what holds of a client.
fn standing_numbers(
    alloc: Global,
    clients: u32,
    number: u32,
    client: &Client,
) -> Result<Vec<i64>, OutOfMemory>
    ensures { (D : Development) (w : World) → length w.clients ≡ clients → IfOk result (λ numbers. numbers.items ≡ numbers_at D w number (client_of client.now)) }
{
    match client {
        Client::Idle => Ok(own_numbers(alloc, clients, number)?.values),
        Client::In(place) => Ok(Vec::from_slice(alloc, &place.variables.values)?),
    }
}

/// These numbers, followed by those of an action of another client.
pub(crate) fn joined_numbers(
    alloc: Global,
    clients: u32,
    number: u32,
    client: &Client,
    actor: u32,
    given: &[i64],
) -> Result<Env, OutOfMemory>
    ensures { (D : Development) (w : World) → length w.clients ≡ clients → IfOk result (λ env. env.values.items ≡ numbers_at D w number (client_of client.now) ++ pos actor ∷ given.now) }
{
    let mut values = standing_numbers(alloc, clients, number, client)?;
    values.push(i64::from(actor))?;
    values.extend_from_slice(given)?;
    Ok(Env { values })
}

//! How often clients came up, and the numbers at their turns.
ghost use Rattle.std.specs.Prelude.{◌≡◌, ◌+◌, ◌<◌, ◌^◌, ◌==◌, ◌&&◌, ℕ, suc, cond, Some, IfOk, OnOk};
ghost use Rattle.lc_history.specs.History.{is_call, is_return};
ghost use Rattle.lc_history.specs.View.{event_of};
ghost use Rattle.lc_history.specs.WellFormed.{client_of};
ghost use Rattle.lc_draw.specs.Counting.{call_begun, number_at, turns_of};

use indexmap::IndexMap;
use lc_base::OutOfMemory;
use lc_history::Event;

/// How many turns a client has had.
pub(crate) fn turns_of(turns: &IndexMap<u32, u64>, client: u32) -> u64
    ensures { result ≡ turns_of turns.now.entries client }
{
    turns.get(&client).copied().unwrap_or(0)
}

/// The next turn of a client, from 0.
pub(crate) fn next_turn(turns: &mut IndexMap<u32, u64>, client: u32) -> Result<u64, OutOfMemory>
    requires { turns_of turns.old.entries client + 1 < 2 ^ 64 }
    ensures turn { IfOk result (λ turn. turn ≡ turns_of turns.old.entries client) }
    ensures more { OnOk result ((c : ℕ) → turns_of turns.new.entries c ≡ cond (c == client) (suc (turns_of turns.old.entries c)) (turns_of turns.old.entries c)) }
{
    let turn = turns_of(turns, client);
    turns.insert(client, turn + 1)?;
    Ok(turn)
}

/// The call that an event begins, if it begins one: its client, and which of the client's calls it is, from 0.
pub(crate) fn next_call(
    turns: &mut IndexMap<u32, u64>,
    event: &Event,
) -> Result<Option<(u32, u64)>, OutOfMemory>
    requires { turns_of turns.old.entries (client_of (event_of event.now)) + 1 < 2 ^ 64 }
    ensures call { IfOk result (λ call. call ≡ call_begun (turns_of turns.old.entries) (event_of event.now)) }
    ensures more { OnOk result ((c : ℕ) → turns_of turns.new.entries c ≡ cond (is_call c (event_of event.now)) (suc (turns_of turns.old.entries c)) (turns_of turns.old.entries c)) }
{
    if !event.begins() {
        return Ok(None);
    }
    let client = event.client();
    let turn = next_turn(turns, client)?;
    Ok(Some((client, turn)))
}

/// Notes that a call of a client returned, if the event says so.
pub(crate) fn note_return(turns: &mut IndexMap<u32, u64>, event: &Event) -> Result<(), OutOfMemory>
    requires { turns_of turns.old.entries (client_of (event_of event.now)) + 1 < 2 ^ 64 }
    ensures { OnOk result ((c : ℕ) → turns_of turns.new.entries c ≡ cond (is_return c (event_of event.now)) (suc (turns_of turns.old.entries c)) (turns_of turns.old.entries c)) }
{
    if !event.begins() {
        next_turn(turns, event.client())?;
    }
    Ok(())
}

/// The number at a client's turn.
pub(crate) fn number_at(
    numbers: &IndexMap<(u32, u64), usize>,
    client: u32,
    turn: u64,
) -> Option<usize>
    ensures { result ≡ number_at numbers.now.entries client turn }
{
    numbers.get(&(client, turn)).copied()
}

/// Puts a number at a client's turn.
pub(crate) fn put_number(
    numbers: &mut IndexMap<(u32, u64), usize>,
    client: u32,
    turn: u64,
    number: usize,
) -> Result<(), OutOfMemory>
    ensures { OnOk result ((c t : ℕ) → number_at numbers.new.entries c t ≡ cond ((client == c) && (turn == t)) (Some number) (number_at numbers.old.entries c t)) }
{
    numbers.insert((client, turn), number)?;
    Ok(())
}

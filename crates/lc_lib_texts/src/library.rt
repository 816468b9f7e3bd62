//! The objects, their names and their texts.
ghost use Rattle.std.specs.Prelude.{◌≡◌};
ghost use Rattle.lc_lib_texts.specs.Texts.{development_bytes, hint_bytes};

use crate::texts::{combining, counter, lock, pool_stack, queue, rendezvous, snapshot, stack};

/// An object of the library.
#[derive(Clone, Copy, PartialEq, Eq, Debug)]
pub enum Lib {
    /// A counter in one cell, which a call raises by compare-and-swap.
    Counter,
    /// A stack over eight nodes. A push waits for a node that is free.
    Stack,
    /// A lock by tickets.
    Lock,
    /// Two numbers that are read as they were at one moment.
    Snapshot,
    /// A counter on which a client may take another's step.
    Combining,
    /// Two clients that wait for each other.
    Rendezvous,
    /// The queue of Michael and Scott.
    Queue,
    /// A stack over eight nodes, which may answer that it is full.
    PoolStack,
}

impl Lib {
    ghost use Rattle.std.specs.Prelude.{◌≡◌};
    ghost use Rattle.lc_lib_texts.specs.Names.{lib_named, name_of};

    /// Its name.
    pub fn name(self) -> &'static str
        ensures { result.now ≡ name_of self }
    {
        match self {
            Lib::Counter => "counter",
            Lib::Stack => "stack",
            Lib::Lock => "lock",
            Lib::Snapshot => "snapshot",
            Lib::Combining => "combining",
            Lib::Rendezvous => "rendezvous",
            Lib::Queue => "queue",
            Lib::PoolStack => "pool-stack",
        }
    }

    /// The object of a name, if there is one.
    pub fn named(name: &str) -> Option<Lib>
        ensures { result ≡ lib_named name.now }
    {
        match name {
            "counter" => Some(Lib::Counter),
            "stack" => Some(Lib::Stack),
            "lock" => Some(Lib::Lock),
            "snapshot" => Some(Lib::Snapshot),
            "combining" => Some(Lib::Combining),
            "rendezvous" => Some(Lib::Rendezvous),
            "queue" => Some(Lib::Queue),
            "pool-stack" => Some(Lib::PoolStack),
            _ => None,
        }
    }
}

/// The text of its development.
#[tactic(auto, unfolding(crate::specs::Texts::development_bytes))]
pub fn development(lib: Lib) -> &'static [u8]
    ensures { result.now ≡ development_bytes lib }
{
    match lib {
        Lib::Counter => counter::DEVELOPMENT,
        Lib::Stack => stack::DEVELOPMENT,
        Lib::Lock => lock::DEVELOPMENT,
        Lib::Snapshot => snapshot::DEVELOPMENT,
        Lib::Combining => combining::DEVELOPMENT,
        Lib::Rendezvous => rendezvous::DEVELOPMENT,
        Lib::Queue => queue::DEVELOPMENT,
        Lib::PoolStack => pool_stack::DEVELOPMENT,
    }
}

/// The text of hints for its development, which offer a proof of each condition.
#[tactic(auto, unfolding(crate::specs::Texts::hint_bytes))]
pub fn hints(lib: Lib) -> &'static [u8]
    ensures { result.now ≡ hint_bytes lib }
{
    match lib {
        Lib::Counter => counter::HINTS,
        Lib::Stack => stack::HINTS,
        Lib::Lock => lock::HINTS,
        Lib::Snapshot => snapshot::HINTS,
        Lib::Combining => combining::HINTS,
        Lib::Rendezvous => rendezvous::HINTS,
        Lib::Queue => queue::HINTS,
        Lib::PoolStack => pool_stack::HINTS,
    }
}

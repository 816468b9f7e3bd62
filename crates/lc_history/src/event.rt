//! The events of histories and the entries of orders.
ghost use Rattle.std.specs.Prelude.{◌≡◌};
ghost use Rattle.lc_history.specs.View.{event_of};
ghost use Rattle.lc_history.specs.WellFormed.{client_of, begins};

use lc_base::OpId;

/// What a client of an object does.
#[derive(Drop)]
pub enum Event {
    /// It calls an operation with numbers.
    Invoke {
        client: u32,
        op: OpId,
        numbers: Vec<i64>,
    },
    /// Its call returns with numbers.
    Respond {
        client: u32,
        numbers: Vec<i64>,
    },
}

impl Event {
    /// Whose event it is.
    pub fn client(&self) -> u32
        ensures { result ≡ client_of (event_of self.now) }
    {
        match self {
            Event::Invoke { client, .. } | Event::Respond { client, .. } => *client,
        }
    }

    /// Whether it is a call, and no return.
    pub fn begins(&self) -> bool
        ensures { result ≡ begins (event_of self.now) }
    {
        matches!(self, Event::Invoke { .. })
    }
}

/// An entry of an order: a client's call, how its branch is chosen, and the reply that it gets there.
#[derive(Drop)]
pub struct Done<C, H, R> {
    pub client: u32,
    pub call: C,
    pub choice: H,
    pub reply: R,
}

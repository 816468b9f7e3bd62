//! What a plan is.
use lc_seq::TextCall;

/// A call that a client makes `count` times, each time in at most `turns` turns.
#[derive(Drop)]
pub struct Calls {
    pub count: u32,
    pub turns: u32,
    pub call: TextCall,
}

/// What a client calls in a phase, one after another.
#[derive(Drop)]
pub struct Script {
    pub client: u32,
    pub calls: Vec<Calls>,
}

/// What the clients of a run call. The phases come one after another; in each, the clients that have a script in it make their
/// calls side by side.
#[derive(Drop)]
pub struct Plan {
    pub clients: u32,
    pub phases: Vec<Vec<Script>>,
}

//! A client that is to take a step.
use lc_machine::Client;
use lc_outline::Development;
use lc_steps::What;
use lc_term::State;

/// A client of a development that is to take a step from a world: the columns and the clients of the world, its number, what the step is, if it
/// is one, and the numbers at which quantifiers are tried.
#[derive(Clone, Copy)]
pub struct Attempt<'a> {
    pub development: &'a Development,
    pub state: &'a State,
    pub clients: &'a [Client],
    pub client: u32,
    pub what: Option<&'a What>,
    pub tried: &'a [i64],
}

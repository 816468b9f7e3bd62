//! Linear forms of terms, in 128 bits: a constant, and a coefficient for each atom. A sum of comparisons whose form
//! is a constant above 0 refutes them.
#![tactic(auto)]

mod closing;
mod exact;
mod fault;
mod form;
pub mod laws;
mod making;
mod number;
mod quick;
mod shared;

pub use closing::closes;
pub use fault::LinFault;
pub use form::LinForm;
pub use making::{form_of, form_of_difference};

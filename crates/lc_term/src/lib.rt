//! Terms, column expressions and formulas: what they mean, how they are computed.
#![tactic(auto)]

mod chain;
mod draft;
mod evaluation;
mod formula;
mod ground;
mod known;
pub mod laws;
mod replace;
mod shifting;
mod state;
mod substitution;
mod term;
mod update;

pub use chain::{Chain, StoreAt, base_of, chain_of, with_store};
pub use draft::Draft;
pub use evaluation::{eval, eval_term};
pub use formula::{Formula, copy_formulas};
pub use ground::{is_closed, is_ground_of_quantifiers};
pub use known::{formula_is_known, term_is_known};
pub use shifting::{shift, shift_formula};
pub use state::{Env, EvalFault, State};
pub use substitution::{instantiate, substitute};
pub use term::{ColExpr, Term};
pub use update::{Update, Write};

//! The lines by which conditions of a development are printed: all of them, those that are asked for, or one laid out over lines.
#![tactic(auto)]

mod chosen;
pub mod laws;
mod lines;
mod naming;
mod nodes;
mod shown;
mod statement;
mod term_text;
mod text;
mod texts;
mod words;

pub use chosen::chosen_conditions;
pub use lines::ConditionLines;
pub use shown::condition_over_lines;
pub use statement::push_statement;
pub use text::{condition_text, kind_word};
pub use texts::{FormulaTexts, no_texts};
pub use words::is_point_word;

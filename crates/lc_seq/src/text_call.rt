//! A call of a specification in text.
use lc_base::OpId;

/// A call of a specification in text.
#[derive(PartialEq, Eq, Drop)]
pub struct TextCall {
    pub op: OpId,
    pub numbers: Vec<i64>,
}

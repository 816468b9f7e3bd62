//! What the calls of the search for an order promise: each promise again, over the call that keeps it. The planted bugs of these
//! calls stand here: bodies that answer wrongly where the call answers right.
#![tactic(auto)]

pub mod decisions;
pub mod drafts;

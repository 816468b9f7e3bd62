//! The passes over a file, in the order in which what they find is reported.
/// A pass over a file. What is wrong in an earlier one is reported before what is wrong in a later one.
#[derive(Clone, Copy)]
pub enum Pass {
    /// What does not fit the grammar.
    Shape,
    /// A name that is not declared.
    Unknown,
    /// A name that is declared again, or may not be declared.
    Repeated,
    /// A column that object code does not see.
    Auxiliary,
    /// A number, a name or a count beyond its limit.
    Bound,
}

//! The edges that an instruction has, which may have an `on`.
/// The edges that may have an `on`.
#[derive(Clone, Copy)]
pub struct Edges {
    /// The one edge of an instruction that has one, `next`.
    pub next: bool,
    /// The edge `then`.
    pub holds: bool,
    /// The edge `else`.
    pub fails: bool,
}

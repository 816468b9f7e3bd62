//! What a development is made of.
use lc_action::Action;
use lc_object::{EdgeKind, Object};
use lc_rider::Rider;
use lc_seq::{Column, TextSpec};
use lc_term::{Formula, Term};
use lc_tie::Tie;

/// A declared action, by its place in the development, from 0.
#[derive(Clone, Copy)]
pub struct ActionId(pub u32);

/// What an edge of an instruction has: the action that its step is, with arguments, and what is done beside it.
#[derive(Drop)]
pub struct On {
    pub edge: EdgeKind,
    pub action: ActionId,
    pub arguments: Vec<Term>,
    /// In their order: a rider sees what those before it have stored.
    pub riders: Vec<Rider>,
}

/// What a point has beside its instruction: the assertions, and what is at its edges, as the file lists them.
#[derive(Drop)]
pub struct Outline {
    pub asserts: Vec<Formula>,
    pub ons: Vec<On>,
}

/// The parts of a development. Columns are numbered from 0: those of the specification, then those of the object's
/// arrays, then the auxiliary ones, then the system columns.
#[derive(Drop)]
pub struct Parts {
    pub specification: TextSpec,
    pub object: Object,
    pub auxiliaries: Vec<Column>,
    /// By their numbers.
    pub actions: Vec<Action>,
    /// The invariant, and what the declared columns hold at first.
    pub tie: Tie,
    /// What holds of a client that has no call.
    pub idle: Vec<Formula>,
    /// One for each point of the object, by the points' numbers.
    pub outlines: Vec<Outline>,
}

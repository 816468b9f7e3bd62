//! What is called around each check.
use std::sync::Wait;

/// Is called around the check of each number, by whoever checks it.
pub trait Gate {
    /// The number is about to be checked.
    fn before<R: Wait>(&self, rt: &R, number: u64);

    /// The number was checked.
    fn after<R: Wait>(&self, rt: &R, number: u64);
}

/// Does nothing.
#[derive(Clone, Copy)]
pub struct NoGate;

impl Gate for NoGate {
    fn before<R: Wait>(&self, _rt: &R, _number: u64) {}

    fn after<R: Wait>(&self, _rt: &R, _number: u64) {}
}

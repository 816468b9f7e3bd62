//! A gate at which two workers wait for each other.
use lc_pool::Gate;
use std::sync::Wait;
use std::sync::atomic::{AtomicBool, Ordering};
use std::thread;

/// The most turns that are waited.
const MOST_TURNS: u64 = 100_000_000;

/// Holds each of conditions 0 and 1 until the other is begun, for a limited number of turns.
#[derive(Drop)]
pub struct Meeting {
    first: AtomicBool,
    second: AtomicBool,
    missed: AtomicBool,
}

impl Meeting {
    pub fn new() -> Meeting {
        Meeting {
            first: AtomicBool::new(false),
            second: AtomicBool::new(false),
            missed: AtomicBool::new(false),
        }
    }

    /// Whether each of the two was begun while the other was held.
    pub fn came_about(&self) -> bool {
        !self.missed.load(Ordering::SeqCst)
    }

    fn meet(&self, mine: &AtomicBool, other: &AtomicBool) {
        mine.store(true, Ordering::SeqCst);
        for _ in 0..MOST_TURNS {
            if other.load(Ordering::SeqCst) {
                return;
            }
            thread::yield_now();
        }
        self.missed.store(true, Ordering::SeqCst);
    }
}

impl Gate for Meeting {
    fn before<R: Wait>(&self, _rt: &R, number: u64) {
        match number {
            0 => self.meet(&self.first, &self.second),
            1 => self.meet(&self.second, &self.first),
            _ => {}
        }
    }

    fn after<R: Wait>(&self, _rt: &R, _number: u64) {}
}

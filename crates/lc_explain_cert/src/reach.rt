//! Which points of a body are reached from one of them.
use lc_base::{OutOfMemory, PointId};
use std::alloc::Global;

/// Points that are reached, and those of them from which no edge was followed yet.
pub(crate) struct Reached {
    is_reached: Vec<bool>,
    left: Vec<PointId>,
}

impl Drop for Reached {
    fn drop(self) {
        let Reached {
            is_reached: _,
            left: _,
        } = self;
    }
}

impl Reached {
    /// The point `first` of `count` points is reached.
    pub(crate) fn new(alloc: Global, count: usize, first: PointId) -> Result<Reached, OutOfMemory> {
        let mut is_reached = Vec::new(alloc);
        for _ in 0..count {
            is_reached.push(false)?;
        }
        let left = Vec::new(alloc);
        let mut reached = Reached { is_reached, left };
        reached.reach(first)?;
        Ok(reached)
    }

    /// A point is reached.
    pub(crate) fn reach(&mut self, point: PointId) -> Result<(), OutOfMemory> {
        if let Some(is_reached) = self.is_reached.get_mut(point.0 as usize)
            && !*is_reached
        {
            *is_reached = true;
            self.left.push(point)?;
        }
        Ok(())
    }

    /// One of the points from which no edge was followed yet.
    pub(crate) fn next(&mut self) -> Option<PointId> {
        self.left.pop()
    }

    /// Whether a point is reached.
    pub(crate) fn has(&self, point: PointId) -> bool {
        match self.is_reached.get(point.0 as usize) {
            Some(is_reached) => *is_reached,
            None => false,
        }
    }
}

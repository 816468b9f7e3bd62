//! Marks by numbers.
use lc_base::OutOfMemory;
use std::alloc::Global;

/// So many marks, all alike.
pub(crate) fn marks(alloc: Global, count: usize, mark: bool) -> Result<Vec<bool>, OutOfMemory> {
    let mut marks = Vec::with_capacity(alloc, count)?;
    for _ in 0..count {
        marks.push(mark)?;
    }
    Ok(marks)
}

/// Whether there is a mark of this number.
pub(crate) fn is_set(marks: &[bool], number: usize) -> bool {
    marks.get(number).copied().unwrap_or(false)
}

/// Sets a mark, or takes it away, if there is one of this number.
pub(crate) fn set(marks: &mut [bool], number: usize, mark: bool) {
    if let Some(at) = marks.get_mut(number) {
        *at = mark;
    }
}

/// Whether there are no numbers but marked ones.
pub(crate) fn are_all(marks: &[bool]) -> bool {
    !marks.contains(&false)
}

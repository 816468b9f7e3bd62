//! What a path of an edge fixes, in words: by which branches its marks are done, and which riders with a condition are done.
use crate::naming::{operation_name, point_at};
use lc_base::{OpId, OutOfMemory};
use lc_cond::{Passage, Place, on_at};
use lc_outline::Development;
use lc_rider::{Choosing, Rider};

/// How far a rider leaves open what is done.
#[derive(Clone, Copy)]
struct Fork {
    /// By how many branches it may be done.
    branches: usize,
    /// Whether it has a condition, under which alone it is done.
    is_conditional: bool,
}

impl Fork {
    /// How many ways there are past the rider.
    fn count(self) -> usize {
        if self.is_conditional {
            self.branches.saturating_add(1)
        } else {
            self.branches
        }
    }
}

/// How many branches of an operation a mark leaves.
fn branch_count(development: &Development, operation: OpId, by: &Choosing) -> usize {
    let operations = development.parts().specification.operations();
    let Some(operation) = operations.get(operation.0 as usize) else {
        return 0;
    };
    let mut count = 0usize;
    for branch in &operation.branches {
        if by.leaves(&branch.label) {
            count = count.saturating_add(1);
        }
    }
    count
}

/// How far a rider in the body of an operation leaves open what is done.
fn fork_of(development: &Development, operation: OpId, rider: &Rider) -> Fork {
    match rider {
        Rider::Assign { condition, .. } => Fork {
            branches: 1,
            is_conditional: condition.is_some(),
        },
        Rider::LinSelf { condition, by } | Rider::Note { condition, by } => Fork {
            branches: branch_count(development, operation, by),
            is_conditional: condition.is_some(),
        },
        Rider::LinOther {
            condition,
            operation: other,
            by,
            ..
        } => Fork {
            branches: branch_count(development, *other, by),
            is_conditional: condition.is_some(),
        },
    }
}

/// How many ways there are past these riders.
fn way_count(development: &Development, operation: OpId, riders: &[Rider]) -> usize {
    let mut count = 1usize;
    for rider in riders {
        count = count.saturating_mul(fork_of(development, operation, rider).count());
    }
    count
}

/// The way past a rider, if there are `behind` ways past those after it: the first rider's varies slowest.
fn way_of(path: usize, fork: Fork, behind: usize) -> usize {
    match path.checked_div(behind) {
        Some(ways) => ways.checked_rem(fork.count()).unwrap_or(0),
        None => 0,
    }
}

/// The word of a rider.
fn word_of(rider: &Rider) -> &'static str {
    match rider {
        Rider::Assign { .. } => "set",
        Rider::LinSelf { .. } => "lin",
        Rider::LinOther { .. } => "lin-other",
        Rider::Note { .. } => "note",
    }
}

/// The operation of which a rider in the body of `own` may take a branch.
fn operation_of(own: OpId, rider: &Rider) -> OpId {
    match rider {
        Rider::LinOther { operation, .. } => *operation,
        Rider::Assign { .. } | Rider::LinSelf { .. } | Rider::Note { .. } => own,
    }
}

/// Says which way is taken past a rider in the body of `own`.
fn push_way(
    text: &mut String,
    development: &Development,
    own: OpId,
    number: usize,
    rider: &Rider,
    way: usize,
) -> Result<(), OutOfMemory> {
    let fork = fork_of(development, own, rider);
    let word = word_of(rider);
    write!(text, "rider {number}, {word}, ")?;
    if fork.branches <= way {
        text.push_str("is not done, since its `when` does not hold")?;
    } else if fork.branches == 1 {
        text.push_str("is done")?;
    } else {
        let operation = operation_name(development.parts(), operation_of(own, rider));
        write!(text, "by branch {way} of {operation}")?;
    }
    Ok(())
}

/// Appends which ways a path takes past the riders in the body of an operation that leave more than one.
fn push_ways(
    text: &mut String,
    development: &Development,
    operation: OpId,
    riders: &[Rider],
    path: usize,
) -> Result<(), OutOfMemory> {
    let mut begun = false;
    for (number, rider) in riders.iter().enumerate() {
        let fork = fork_of(development, operation, rider);
        if fork.count() < 2 {
            continue;
        }
        let others = riders.get(number.saturating_add(1)..).unwrap_or(&[]);
        let way = way_of(path, fork, way_count(development, operation, others));
        text.push_str(if begun { "; " } else { " (" })?;
        push_way(text, development, operation, number, rider, way)?;
        begun = true;
    }
    if begun {
        text.push_str(")")?;
    }
    Ok(())
}

/// Appends what the path of a condition fixes, if its edge has more than one.
pub(crate) fn push_path(
    text: &mut String,
    development: &Development,
    place: &Place,
) -> Result<(), OutOfMemory> {
    let (Some(point), Passage::Edge(edge), Some(path)) = (place.point, place.passage, place.path)
    else {
        return Ok(());
    };
    let Some(on) = on_at(development, point, edge) else {
        return Ok(());
    };
    match point_at(development.parts(), point) {
        Some(point) => push_ways(text, development, point.operation, &on.riders, path),
        None => Ok(()),
    }
}

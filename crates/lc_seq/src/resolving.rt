//! Whether all columns and variables of a specification are there.
ghost use Rattle.std.specs.Prelude.{◌≡◌, ◌+◌, ◌&&◌, ◌==◌, bytes_eq, not, true, length, map};
ghost use Rattle.std.specs.List.{list_all, list_any};
ghost use Rattle.lc_base.specs.Name.{bytes_of};
ghost use Rattle.lc_term.specs.Places.{known, term_passes};
ghost use Rattle.lc_term.specs.View.{term_of};
ghost use Rattle.lc_seq.specs.Specification.{update_is_resolved, branch_is_resolved, variables_of, operation_is_resolved, names_differ, are_resolved};
ghost use Rattle.lc_seq.specs.SpecView.{update_of, updates_of, branch_of, branches_of, operation_of, operations_of};

use crate::specification::{Branch, Operation};
use lc_base::Name;
use lc_term::{Term, Update, formula_is_known, is_ground_of_quantifiers, term_is_known};

fn terms_are_known(terms: &[Term], columns: usize, variables: usize) -> bool
    ensures { result ≡ list_all (term_passes (known columns variables)) (map term_of terms.now) }
{
    for term in terms {
        if !term_is_known(term, columns, variables) {
            return false;
        }
    }
    true
}

fn update_is_resolved(update: &Update, columns: usize, variables: usize) -> bool
    ensures { result ≡ update_is_resolved columns variables (update_of update.now) }
{
    (update.column.0 as usize) < columns
        && term_is_known(&update.index, columns, variables)
        && term_is_known(&update.value, columns, variables)
}

fn updates_are_resolved(updates: &[Update], columns: usize, variables: usize) -> bool
    ensures { result ≡ list_all (update_is_resolved columns variables) (updates_of updates.now) }
{
    for update in updates {
        if !update_is_resolved(update, columns, variables) {
            return false;
        }
    }
    true
}

fn branch_is_resolved(branch: &Branch, columns: usize, variables: usize) -> bool
    ensures { result ≡ branch_is_resolved columns variables (branch_of branch.now) }
{
    is_ground_of_quantifiers(&branch.guard)
        && formula_is_known(&branch.guard, columns, variables)
        && updates_are_resolved(&branch.updates, columns, variables)
        && terms_are_known(&branch.replies, columns, variables)
}

// The same for branches, each with its parameters after those arguments.
fn branches_are_resolved(branches: &[Branch], columns: usize, arguments: &[Name]) -> bool
    ensures { result ≡ list_all (λ b. branch_is_resolved columns (variables_of (map bytes_of arguments.now) b) b) (branches_of branches.now) }
{
    for branch in branches {
        if !branch_is_resolved(
            branch,
            columns,
            arguments.len() + branch.label.parameters().len() + 2,
        ) {
            return false;
        }
    }
    true
}

fn have_replies(branches: &[Branch], count: usize) -> bool
    ensures { result ≡ list_all (λ branch. length branch.replies == count) (branches_of branches.now) }
{
    for branch in branches {
        if branch.replies.len() != count {
            return false;
        }
    }
    true
}

fn operation_is_resolved(operation: &Operation, columns: usize) -> bool
    ensures { result ≡ operation_is_resolved columns (operation_of operation.now) }
{
    branches_are_resolved(&operation.branches, columns, &operation.arguments)
        && have_replies(&operation.branches, operation.replies as usize)
}

fn is_named_among(name: Name, operations: &[Operation]) -> bool
    ensures { result ≡ list_any (λ p. bytes_eq (bytes_of name) p.name) (operations_of operations.now) }
{
    match operations.split_first() {
        None => false,
        Some((operation, others)) => name == operation.name || is_named_among(name, others),
    }
}

fn names_differ(operations: &[Operation]) -> bool
    ensures { result ≡ names_differ (operations_of operations.now) }
{
    match operations.split_first() {
        None => true,
        Some((operation, others)) => {
            !is_named_among(operation.name, others) && names_differ(others)
        }
    }
}

fn operations_are_resolved(operations: &[Operation], columns: usize) -> bool
    ensures { result ≡ list_all (operation_is_resolved columns) (operations_of operations.now) }
{
    for operation in operations {
        if !operation_is_resolved(operation, columns) {
            return false;
        }
    }
    true
}

// Whether columns and variables of operations are declared, guards have no quantifiers, and each branch has its
// operation's count of replies, and names of operations differ.
pub(crate) fn are_resolved(operations: &[Operation], columns: usize) -> bool
    ensures { result ≡ are_resolved columns (operations_of operations.now) }
{
    operations_are_resolved(operations, columns) && names_differ(operations)
}

//! The type of specifications: columns, operations and branches.
ghost use Rattle.std.specs.Prelude.{◌≡◌, true, length};
ghost use Rattle.lc_seq.specs.Specification.{are_resolved};
ghost use Rattle.lc_seq.specs.SpecView.{operations_of};

use crate::choice::Label;
use crate::resolving::are_resolved;
use lc_base::{Name, OpId};
use lc_term::{Formula, Term, Update};

/// A column, which starts with `slope * i + start` in cell i.
#[derive(Drop)]
pub struct Column {
    pub name: Name,
    pub slope: i64,
    pub start: i64,
}

/// What is stored and replied if a guard holds, and how it may be taken. Variable 0 is the number of clients, which no
/// specification reads, variable 1 is the client, and the arguments and the branch's parameters follow.
#[derive(Drop)]
pub struct Branch {
    pub label: Label,
    pub guard: Formula,
    pub updates: Vec<Update>,
    pub replies: Vec<Term>,
}

/// An operation. A call of it takes, of the branches that its choice leaves, the first whose guard holds.
#[derive(Drop)]
pub struct Operation {
    pub name: Name,
    pub arguments: Vec<Name>,
    pub replies: u32,
    pub branches: Vec<Branch>,
}

impl Operation {
    ghost use Rattle.std.specs.Prelude.{◌≡◌, Some};
    ghost use Rattle.lc_seq.specs.Specification.{branches_in};
    ghost use Rattle.lc_seq.specs.SpecView.{operation_of, branches_of};

    // The branches of a call with `count` numbers.
    fn branches_for(&self, count: usize) -> &[Branch]
        ensures { branches_of result.now ≡ branches_in (Some (operation_of self.now)) count }
    {
        if self.arguments.len() == count {
            &self.branches
        } else {
            &[]
        }
    }
}

/// A specification: columns, and operations on them.
#[derive(Drop)]
pub struct TextSpec {
    pub(crate) name: Name,
    pub(crate) columns: Vec<Column>,
    pub(crate) operations: Vec<Operation>,
    ghost is_resolved: { are_resolved (length columns.items) (operations_of operations.items) ≡ true },
}

impl TextSpec {
    ghost use Rattle.std.specs.Prelude.{◌≡◌, ◌↔◌, IsSome, IfSome, slice_get, length, true};
    ghost use Rattle.lc_seq.specs.Specification.{are_resolved};
    ghost use Rattle.lc_base.specs.Name.{bytes_of};
    ghost use Rattle.lc_seq.specs.Specification.{branches_in};
    ghost use Rattle.lc_seq.specs.SpecView.{columns_of, operations_of, branches_of};
    ghost use Rattle.lc_seq.specs.TextView.{specification_of};

    /// The specification of these columns and operations, if each column and variable in an operation is declared,
    /// guards have no quantifiers, each branch has as many replies as its operation, and names of operations differ.
    pub fn new(name: Name, columns: Vec<Column>, operations: Vec<Operation>) -> Option<TextSpec>
        ensures resolved { IsSome result ↔ (are_resolved (length columns.items) (operations_of operations.items) ≡ true) }
        ensures value { IfSome result (λ spec. specification_of spec ≡ record { name = bytes_of name; columns = columns_of columns.items; operations = operations_of operations.items }) }
    {
        if are_resolved(&operations, columns.len()) {
            Some(TextSpec {
                name,
                columns,
                operations,
            })
        } else {
            None
        }
    }

    /// The specification with these columns and operations, about which this is known.
    pub fn of_parts(name: Name, columns: Vec<Column>, operations: Vec<Operation>) -> TextSpec
        requires { are_resolved (length columns.items) (operations_of operations.items) ≡ true }
        ensures { specification_of result ≡ record { name = bytes_of name; columns = columns_of columns.items; operations = operations_of operations.items } }
    {
        TextSpec {
            name,
            columns,
            operations,
        }
    }

    /// Its name.
    pub fn name(&self) -> Name
        ensures { bytes_of result ≡ (specification_of self.now).name }
    {
        self.name
    }

    /// Its columns.
    pub fn columns(&self) -> &[Column]
        ensures { columns_of result.now ≡ (specification_of self.now).columns }
    {
        &self.columns
    }

    /// Its operations.
    pub fn operations(&self) -> &[Operation]
        ensures { operations_of result.now ≡ (specification_of self.now).operations }
    {
        &self.operations
    }

    // The branches of a call of an operation with `count` numbers.
    pub(crate) fn branches_for(&self, op: OpId, count: usize) -> &[Branch]
        ensures { branches_of result.now ≡ branches_in (slice_get (operations_of self.now.operations.items) op.0) count }
    {
        match self.operations.get(op.0 as usize) {
            Some(operation) => operation.branches_for(count),
            None => &[],
        }
    }
}

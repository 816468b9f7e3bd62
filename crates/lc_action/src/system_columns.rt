//! The columns that each object has after its own: the calls of clients, their arguments, their replies and their notes.
ghost use Rattle.std.specs.Prelude.{◌+◌, ◌≤◌, ◌^◌};

use lc_base::ColId;

/// The columns that each object has after its own, which are indexed by clients: what is recorded of their calls.
#[derive(Clone, Copy)]
pub struct SystemColumns {
    first: ColId,
    ghost are_columns: { first.0 + 12 ≤ 2 ^ 32 },
}

impl SystemColumns {
    ghost use Rattle.std.specs.Prelude.{◌≡◌, ◌↔◌, ◌≤◌, ◌^◌, IsSome, IfSome, [], ◌∷◌, ◌++◌, map};
    ghost use Rattle.lc_term.specs.SystemColumns.{pend, op_column, arg_columns, rep_columns, noted, note_columns, column_count};
    ghost use Rattle.lc_action.specs.ActionView.{first_of};

    /// The system columns from `first` on, if there are numbers for so many columns.
    pub fn new(first: ColId) -> Option<SystemColumns>
        ensures some { IsSome result ↔ (column_count first.0 ≤ 2 ^ 32) }
        ensures value { IfSome result (λ system. first_of system ≡ first.0) }
    {
        if first.0 <= u32::MAX - 11 {
            Some(SystemColumns { first })
        } else {
            None
        }
    }

    /// 0 if a client has no call, 1 if its call is not settled, 2 if it is.
    pub fn pend(self) -> ColId
        ensures { result.0 ≡ pend (first_of self) }
    {
        self.first
    }

    /// The operation of a client's call.
    pub fn operation(self) -> ColId
        ensures { result.0 ≡ op_column (first_of self) }
    {
        ColId(self.first.0 + 1)
    }

    /// The numbers that a client's call is given.
    pub fn arguments(self) -> [ColId; 3]
        ensures { map (λ c. c.0) result ≡ arg_columns (first_of self) }
    {
        let first = self.first.0;
        [ColId(first + 2), ColId(first + 3), ColId(first + 4)]
    }

    /// The numbers that a client's settled call replies.
    pub fn replies(self) -> [ColId; 3]
        ensures { map (λ c. c.0) result ≡ rep_columns (first_of self) }
    {
        let first = self.first.0;
        [ColId(first + 5), ColId(first + 6), ColId(first + 7)]
    }

    /// 1 if replies of a client's call are noted.
    pub fn noted(self) -> ColId
        ensures { result.0 ≡ noted (first_of self) }
    {
        ColId(self.first.0 + 8)
    }

    /// The replies that are noted.
    pub fn notes(self) -> [ColId; 3]
        ensures { map (λ c. c.0) result ≡ note_columns (first_of self) }
    {
        let first = self.first.0;
        [ColId(first + 9), ColId(first + 10), ColId(first + 11)]
    }

    /// Those in which something is stored when a call begins.
    pub(crate) fn entered(self) -> [ColId; 6]
        ensures { map (λ c. c.0) result ≡ pend (first_of self) ∷ op_column (first_of self) ∷ arg_columns (first_of self) ++ noted (first_of self) ∷ [] }
    {
        let first = self.first.0;
        [
            ColId(first),
            ColId(first + 1),
            ColId(first + 2),
            ColId(first + 3),
            ColId(first + 4),
            ColId(first + 8),
        ]
    }
}

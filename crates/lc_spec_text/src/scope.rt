//! The names that a branch sees.
ghost use Rattle.std.specs.Prelude.{◌≡◌, ◌+◌, ◌<◌, ◌^◌, length};
ghost use Rattle.lc_reading.specs.TableView.{listed};
ghost use Rattle.lc_text.specs.Names.{column_at};

use lc_base::{ColId, OutOfMemory};
use lc_reading::NameTable;
use lc_text::{ColumnUse, Extra, Scope};

/// The most variables of an operation, and the most parameters of a branch, that have numbers of 32 bits.
const NAMES_LIMIT: usize = u32::MAX as usize / 2;

/// The names of columns that a file declares: those of the specification, and those of the rest of the file.
#[derive(Clone, Copy)]
pub(crate) struct Columns<'a, 'b> {
    pub(crate) own: &'b NameTable<'a>,
    pub(crate) others: &'b NameTable<'a>,
    ghost numbered: { length (listed own.now) < 2 ^ 32 },
}

impl<'a, 'b> Columns<'a, 'b> {
    ghost use Rattle.std.specs.Prelude.{◌≡◌, IfOk};
    ghost use Rattle.lc_reading.specs.Listed.{place_of};
    ghost use Rattle.lc_reading.specs.TableView.{listed};
    ghost use Rattle.lc_spec_text.specs.ScopeView.{columns_view};

    /// These columns. `OutOfMemory` is returned also if some place has more than 32 bits, as in no file.
    pub(crate) fn new(
        own: &'b NameTable<'a>,
        others: &'b NameTable<'a>,
    ) -> Result<Columns<'a, 'b>, OutOfMemory>
        ensures { IfOk result (λ columns. columns_view columns ≡ record { own = listed own.now; others = listed others.now }) }
    {
        if own.len() > u32::MAX as usize {
            return Err(OutOfMemory);
        }
        Ok(Columns { own, others })
    }

    /// The column of this name, if it is one of the specification.
    #[tactic(auto, using(lc_reading::proofs::Places::place_below))]
    pub(crate) fn place(self, name: &str) -> Option<u32>
        ensures { result ≡ place_of (columns_view self.entry).own name.now }
    {
        match self.own.place(name) {
            Some(place) => Some(place as u32),
            None => None,
        }
    }
}

/// How names are read in a branch of an operation.
pub(crate) struct InBranch<'a, 'b> {
    columns: Columns<'a, 'b>,
    /// The client, and the arguments.
    variables: &'b NameTable<'a>,
    /// The branch's own parameters.
    parameters: NameTable<'a>,
    ghost counted: { length (listed variables.now) + length (listed parameters) + 1 < 2 ^ 32 },
}

impl Drop for InBranch<'_, '_> {
    fn drop(self) {
        let InBranch {
            columns: _,
            variables: _,
            parameters: _,
        } = self;
    }
}

fn column_at(place: Option<u32>) -> ColumnUse
    ensures { result ≡ column_at place }
{
    match place {
        Some(place) => ColumnUse::Usable(ColId(place)),
        None => ColumnUse::Undeclared,
    }
}

impl<'a, 'b> InBranch<'a, 'b> {
    ghost use Rattle.std.specs.Prelude.{◌≡◌, ◌++◌, IfOk};
    ghost use Rattle.lc_reading.specs.Listed.{place_of};
    ghost use Rattle.lc_reading.specs.TableView.{listed};
    ghost use Rattle.lc_spec_text.specs.ScopeView.{columns_view};

    /// These columns and variables, and a branch's parameters. `OutOfMemory` is returned also if some number has more than
    /// 32 bits, as in no file.
    pub(crate) fn new(
        columns: Columns<'a, 'b>,
        variables: &'b NameTable<'a>,
        parameters: NameTable<'a>,
    ) -> Result<InBranch<'a, 'b>, OutOfMemory>
        ensures columns { IfOk result (λ names. (columns_view names.columns).own ≡ (columns_view columns.entry).own) }
        ensures variables { IfOk result (λ names. listed names.variables.now ++ listed names.parameters ≡ listed variables.now ++ listed parameters.entry) }
    {
        if variables.len() > NAMES_LIMIT || parameters.len() > NAMES_LIMIT {
            return Err(OutOfMemory);
        }
        Ok(InBranch {
            columns,
            variables,
            parameters,
        })
    }

    /// The place of this name among those of the variables and of the parameters after them.
    fn place(&self, name: &str) -> Option<usize>
        ensures { result ≡ place_of (listed self.now.variables.now ++ listed self.now.parameters) name.now }
    {
        match self.variables.place(name) {
            Some(place) => Some(place),
            None => match self.parameters.place(name) {
                Some(place) => Some(self.variables.len() + place),
                None => None,
            },
        }
    }
}

impl Scope for InBranch<'_, '_> {
    ghost use Rattle.std.specs.Prelude.{◌++◌};
    ghost use Rattle.lc_reading.specs.TableView.{listed};
    ghost use Rattle.lc_spec_text.specs.Scopes.{branch_names};
    ghost use Rattle.lc_spec_text.specs.ScopeView.{columns_view};

    ghost names = { λ scope. branch_names (columns_view scope.columns).own (listed scope.variables.now ++ listed scope.parameters) };

    #[tactic(auto, using(lc_reading::proofs::Places::place_below))]
    fn variable(&self, name: &str) -> Option<u32> {
        match self.place(name) {
            Some(place) => Some(place as u32 + 1),
            None => None,
        }
    }

    fn column(&self, name: &str) -> ColumnUse {
        column_at(self.columns.place(name))
    }

    fn allows(&self, _: Extra) -> bool {
        false
    }
}

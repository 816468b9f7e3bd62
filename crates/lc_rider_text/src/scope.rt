//! The columns and variables that a name may stand for beside the code.
ghost use Rattle.std.specs.Prelude.{◌≡◌, ◌<◌, ◌≤◌, ◌+◌, ◌^◌, ◌∷◌, [], length, codes, IfSome};
ghost use Rattle.lc_reading.specs.Listed.{place_of};
ghost use Rattle.lc_reading.specs.TableView.{listed};
ghost use Rattle.lc_rider_text.specs.KnownView.{columns_listed};
ghost use Rattle.lc_rider_text.specs.Scopes.{system_place, column_place, column_at};
ghost use Rattle.lc_rider_text.specs.Tables.{count_there, listed_before};

use crate::columns::Columns;
use crate::variables::Variables;
use lc_base::{ColId, OutOfMemory};
use lc_reading::NameTable;
use lc_text::{ColumnUse, Extra, Scope};

/// How many system columns there are.
const SYSTEM_COUNT: u32 = 12;

/// The place of a system column among these.
fn system_place(name: &str) -> Option<u32>
    ensures place { result ≡ system_place name.now }
    ensures below { IfSome result (λ k. k < 12) }
{
    match name {
        "pend" => Some(0),
        "op" => Some(1),
        "arg1" => Some(2),
        "arg2" => Some(3),
        "arg3" => Some(4),
        "rep1" => Some(5),
        "rep2" => Some(6),
        "rep3" => Some(7),
        "noted" => Some(8),
        "note1" => Some(9),
        "note2" => Some(10),
        "note3" => Some(11),
        _ => None,
    }
}

impl<'a, 'b> Columns<'a, 'b> {
    ghost use Rattle.std.specs.Prelude.{◌≡◌, IfOk};
    ghost use Rattle.lc_reading.specs.TableView.{listed};
    ghost use Rattle.lc_rider_text.specs.KnownView.{columns_listed};
    ghost use Rattle.lc_rider_text.specs.Scopes.{column_place};

    /// These columns (abstract, then concrete, then auxiliary), those from this place on being auxiliary. `OutOfMemory` is
    /// returned if the system columns after them would have no numbers.
    pub fn new(names: &'b NameTable<'a>, auxiliaries: u32) -> Result<Columns<'a, 'b>, OutOfMemory>
        ensures names { IfOk result (λ columns. columns_listed columns ≡ listed names.now) }
        ensures auxiliaries { IfOk result (λ columns. columns.auxiliaries ≡ auxiliaries) }
    {
        if names.len() > (u32::MAX - SYSTEM_COUNT) as usize {
            return Err(OutOfMemory);
        }
        Ok(Columns {
            names,
            auxiliaries,
            likely: 0,
        })
    }

    /// The same, if this name is asked for next.
    pub(crate) fn expecting(self, name: &str) -> Columns<'a, 'b>
        ensures names { columns_listed result ≡ columns_listed self.entry }
        ensures auxiliaries { result.auxiliaries ≡ self.entry.auxiliaries }
    {
        let mut columns = self;
        columns.likely = self.names.place(name).unwrap_or(0);
        columns
    }

    /// The place of a column, declared or of the system.
    #[tactic(auto, using(lc_reading::proofs::Places::place_below))]
    pub(crate) fn place(&self, name: &str) -> Option<u32>
        ensures { result ≡ column_place (columns_listed self.now) name.now }
    {
        match self.names.place_from(self.likely, name) {
            Some(place) => Some(place as u32),
            None => match system_place(name) {
                Some(place) => Some(self.names.len() as u32 + place),
                None => None,
            },
        }
    }
}

impl<'a, 'b> Variables<'a, 'b> {
    ghost use Rattle.std.specs.Prelude.{◌≡◌, ◌++◌, Some, None, IfOk};
    ghost use Rattle.lc_reading.specs.TableView.{listed};
    ghost use Rattle.lc_rider_text.specs.KnownView.{others_listed};

    /// The number of clients alone.
    pub fn of_clients() -> Variables<'a, 'b>
        ensures { others_listed result ≡ None }
    {
        Variables {
            first: None,
            second: None,
        }
    }

    /// The number of clients, a client and these. `OutOfMemory` is returned if these would have no numbers.
    pub fn of_client(others: &'b NameTable<'a>) -> Result<Variables<'a, 'b>, OutOfMemory>
        ensures { IfOk result (λ variables. others_listed variables ≡ Some (listed others.now)) }
    {
        if others.len() > (u32::MAX - 2) as usize {
            return Err(OutOfMemory);
        }
        Ok(Variables {
            first: Some(others),
            second: None,
        })
    }

    /// The number of clients, a client, these arguments, and these locals after them. `OutOfMemory` is returned if these
    /// would have no numbers.
    pub fn of_body(
        arguments: &'b NameTable<'a>,
        locals: &'b NameTable<'a>,
    ) -> Result<Variables<'a, 'b>, OutOfMemory>
        ensures { IfOk result (λ variables. others_listed variables ≡ Some (listed arguments.now ++ listed locals.now)) }
    {
        let most = (u32::MAX - 2) as usize;
        if arguments.len() > most || locals.len() > most - arguments.len() {
            return Err(OutOfMemory);
        }
        Ok(Variables {
            first: Some(arguments),
            second: Some(locals),
        })
    }
}

/// The number of clients, if this is its name.
fn clients_place(name: &str) -> Option<u32>
    ensures { result ≡ place_of (codes "N" ∷ []) name.now }
{
    if name == "N" { Some(0) } else { None }
}

/// The place at which a name occurs first in a table, or in a second one after it.
fn place_behind(first: &NameTable<'_>, second: Option<&NameTable<'_>>, name: &str) -> Option<usize>
    requires few { length (listed first.now) + count_there second ≤ 2 ^ 32 }
    ensures { result ≡ place_of (listed_before (listed first.now) second.entry) name.now }
{
    if let Some(place) = first.place(name) {
        return Some(place);
    }
    let Some(second) = second else {
        return None;
    };
    let place = second.place(name)?;
    Some(first.len() + place)
}

fn column_at(place: Option<u32>) -> ColumnUse
    ensures { result ≡ column_at place }
{
    match place {
        Some(place) => ColumnUse::Usable(ColId(place)),
        None => ColumnUse::Undeclared,
    }
}

/// How names are read beside the code.
#[derive(Clone, Copy)]
pub struct Beside<'a, 'b> {
    pub columns: Columns<'a, 'b>,
    pub variables: Variables<'a, 'b>,
}

impl Scope for Beside<'_, '_> {
    ghost use Rattle.lc_rider_text.specs.KnownView.{names_beside};

    ghost names = { names_beside };

    fn variable(&self, name: &str) -> Option<u32> {
        let Some(first) = self.variables.first else {
            return clients_place(name);
        };
        if name == "N" {
            return Some(0);
        }
        if name == "self" {
            return Some(1);
        }
        let place = place_behind(first, self.variables.second, name)?;
        Some(2 + place as u32)
    }

    fn column(&self, name: &str) -> ColumnUse {
        column_at(self.columns.place(name))
    }

    fn allows(&self, extra: Extra) -> bool {
        matches!(extra, Extra::Quantifiers)
    }
}

/// The names of a scope, with no quantifier allowed.
#[derive(Drop)]
pub struct Quiet<'s, S>(pub &'s S);

impl<S: Scope> Scope for Quiet<'_, S> {
    ghost use Rattle.lc_rider_text.specs.Scopes.{quiet};

    ghost names = { λ scope. quiet (S.names scope.0.now) };

    fn variable(&self, name: &str) -> Option<u32> {
        self.0.variable(name)
    }

    fn column(&self, name: &str) -> ColumnUse {
        self.0.column(name)
    }

    fn allows(&self, _: Extra) -> bool {
        false
    }
}

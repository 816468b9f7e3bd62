//! How phases are read.
ghost use Rattle.std.specs.Prelude.{◌≡◌};
ghost use Rattle.lc_sexp.specs.Shown.{rest_of, number_of, owner_of};
ghost use Rattle.lc_reading.specs.Parts.{tree_of, place_of};
ghost use Rattle.lc_reading.specs.Results.{IsReading};
ghost use Rattle.lc_reading.specs.TableView.{listed};
ghost use Rattle.lc_plan.specs.Readings.{script_parts_reading, script_reading, scripts_reading, phase_reading};
ghost use Rattle.lc_plan.specs.View.{all_in, script_of, scripts_of};

use crate::calls::Steps;
use crate::numbers::read_client;
use crate::operations::Operations;
use crate::plan::Script;
use lc_base::OutOfMemory;
use lc_reading::{
    Declares, NameTable, Part, Pass, ReadFault, Reads, behind_word, both, next_part, read_declared,
    read_each, wrong,
};
use lc_sexp::{Cursor, Item};
use std::alloc::Global;

/// `C STEP*`
fn read_script_parts(
    alloc: Global,
    operations: &Operations<'_>,
    clients: u32,
    before: &NameTable<'_>,
    list: Cursor<'_>,
) -> Result<Script, ReadFault>
    ensures { IsReading script_of (script_parts_reading (all_in operations.now) clients (listed before.now) (owner_of list.entry) (number_of list.entry) (rest_of list.entry)) result }
{
    let mut rest = list;
    let first = next_part(&mut rest)?;
    let client = read_client(clients, before, first);
    match both(client, read_each(alloc, &Steps(operations), rest)) {
        Ok((client, calls)) => Ok(Script { client, calls }),
        Err(fault) => Err(fault),
    }
}

/// `(C STEP*)`, after the scripts of these clients.
fn read_script(
    alloc: Global,
    operations: &Operations<'_>,
    clients: u32,
    before: &NameTable<'_>,
    part: Part<'_>,
) -> Result<Script, ReadFault>
    ensures { IsReading script_of (script_reading (all_in operations.now) clients (listed before.now) (place_of part.entry) (tree_of part.entry)) result }
{
    match part.item() {
        Item::Atom(atom) => Err(wrong(Pass::Shape, atom.number())),
        Item::List(list) => read_script_parts(alloc, operations, clients, before, list),
    }
}

/// Reads the scripts of a phase, with `clients` clients.
#[derive(Drop)]
struct Scripts<'o, 'a> {
    operations: &'o Operations<'a>,
    clients: u32,
}

impl Declares for Scripts<'_, '_> {
    ghost use Rattle.lc_reading.specs.Rows.{first_name};
    ghost use Rattle.lc_plan.specs.Plans.{Script};
    ghost use Rattle.lc_plan.specs.Readings.{script_reading};
    ghost use Rattle.lc_plan.specs.View.{all_in, script_of};

    type Value = Script;

    ghost Meaning = { Script };

    ghost meaning = { script_of };

    ghost reading = { λ reader. script_reading (all_in reader.operations.now) reader.clients };

    ghost declares = { first_name };

    fn read(
        &self,
        alloc: Global,
        before: &NameTable<'_>,
        part: Part<'_>,
    ) -> Result<Script, ReadFault> {
        read_script(alloc, self.operations, self.clients, before, part)
    }

    fn enter<'a>(
        &self,
        names: NameTable<'a>,
        part: Part<'a>,
    ) -> Result<NameTable<'a>, OutOfMemory> {
        names.enter_first(part)
    }
}

/// The scripts that are left in a list.
fn read_scripts(
    alloc: Global,
    operations: &Operations<'_>,
    clients: u32,
    list: Cursor<'_>,
) -> Result<Vec<Script>, ReadFault>
    ensures { IsReading scripts_of (scripts_reading (all_in operations.now) clients (number_of list.entry) (rest_of list.entry)) result }
{
    let reader = Scripts {
        operations,
        clients,
    };
    let (_, scripts) = read_declared(alloc, &reader, NameTable::new(alloc), list)?;
    scripts
}

/// `(phase (C STEP*)*)`
fn read_phase(
    alloc: Global,
    operations: &Operations<'_>,
    clients: u32,
    part: Part<'_>,
) -> Result<Vec<Script>, ReadFault>
    ensures { IsReading scripts_of (phase_reading (all_in operations.now) clients (place_of part.entry) (tree_of part.entry)) result }
{
    let list = behind_word(part, "phase")?;
    read_scripts(alloc, operations, clients, list)
}

/// Reads phases, with `clients` clients.
#[derive(Drop)]
pub(crate) struct Phases<'o, 'a> {
    pub(crate) operations: &'o Operations<'a>,
    pub(crate) clients: u32,
}

impl Reads for Phases<'_, '_> {
    ghost use Rattle.std.specs.Prelude.{List};
    ghost use Rattle.lc_plan.specs.Plans.{Script};
    ghost use Rattle.lc_plan.specs.Readings.{phase_reading};
    ghost use Rattle.lc_plan.specs.View.{all_in, scripts_of};

    type Value = Vec<Script>;

    ghost Meaning = { List Script };

    ghost meaning = { scripts_of };

    ghost reading = { λ reader. phase_reading (all_in reader.operations.now) reader.clients };

    fn read(&self, alloc: Global, part: Part<'_>) -> Result<Vec<Script>, ReadFault> {
        read_phase(alloc, self.operations, self.clients, part)
    }
}
